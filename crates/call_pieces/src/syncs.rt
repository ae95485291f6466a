//! `sync`.

ghost use Rattle.std.specs.Prelude.{◌≡◌, ◌<◌, ◌≤◌, true, false, [], ◌∷◌, ◌++◌, Some, None, length};
ghost use Rattle.std.specs.Prelude.{cond, is_ok, IfOk, IfErr};
ghost use Rattle.kernel_model.specs.World.{Blocks};
ghost use Rattle.kernel_model.specs.FilePieces.{with_cache};
ghost use Rattle.std.specs.Result.{is_err};
ghost use Rattle.kernel_model.specs.Objects.{FrameValue, at};
ghost use Rattle.kernel_model.specs.Fetch.{bytes_of, cleaned};
ghost use Rattle.kernel_state.specs.Frames.{in_use};
ghost use Rattle.kernel_state.specs.Calls.{Knows, CallsExtend};
ghost use Rattle.kernel_state.specs.Stores.{world_of_store, objects_of, cache_of, queue_of};
ghost use Rattle.call_needs.specs.Fetching.{store_moment};
ghost use Rattle.call_pieces.specs.Shared.{DiskReady, ServesLast, sync_of};

use crate::Next;
use call_needs::frame_bytes;
use kernel_model::{Refusal, Reply};
use kernel_state::{Disk, DiskLog, Failed, Policy, Store};

/// Writes the dirty frames in the order of their numbers; each is clean then. Where a call of the
/// disk fails, what was written before stays written. No byte of memory changes.
pub(crate) fn sync<B: Policy, D: Disk>(
    store: &mut Store<B>,
    disk: &mut D,
    log: &mut DiskLog,
) -> Next
    requires { DiskReady (store_moment store.old (D.seen disk.old) log.old) }
    ensures done { ServesLast (sync_of store.old) (store_moment store.old (D.seen disk.old) log.old)
        (store_moment store.new (D.seen disk.new) log.new) result }
    ensures ram { store.new.ram ≡ store.old.ram }
{
    let mut written = 0;
    for f in 0..store.setup.frames {
        let Some(b) = store.dirty_block(f) else {
            continue;
        };
        if write_back(store, disk, log, f, b).is_err() {
            return Next::Fails(Refusal::DiskFault);
        }
        written += 1;
    }
    Next::Ends(Reply::One(written))
}

/// Writes frame f, which holds block b and is dirty. It is clean then, unless the call of the disk
/// fails.
fn write_back<B: Policy, D: Disk>(
    store: &mut Store<B>,
    disk: &mut D,
    log: &mut DiskLog,
    f: u8,
    b: u32,
) -> Result<(), Failed>
    requires block { b < store.old.size }
    requires disk { store.old.size ≡ (D.seen disk.old).size }
    requires frame { in_use f store.old.cache ≡ true }
    requires room { length log.old < 256 }
    ensures noted { log.new ≡ log.old ++ is_err result ∷ [] }
    ensures known { (blocks : Blocks) → Knows (D.seen disk.old).known blocks →
        Knows (D.seen disk.new).known
        (cond (is_ok result) (at b (bytes_of (cache_of store.old) f) blocks) blocks) }
    ensures cleaned { IfOk result (λ _. (x : FrameValue) → (cache_of store.old).frame f ≡ Some x →
        objects_of store.new
        ≡ with_cache (cleaned f x (cache_of store.old)) (objects_of store.old)) }
    ensures kept { IfErr result (λ _. objects_of store.new ≡ objects_of store.old) }
    ensures queue { queue_of store.new ≡ queue_of store.old }
    ensures world { world_of_store store.new ≡ world_of_store store.old }
    ensures calls { CallsExtend (D.seen disk.old) (D.seen disk.new) log.old log.new }
    ensures few { length log.new ≤ 256 }
    ensures ram { store.new.ram ≡ store.old.ram }
{
    if let Err(failed) = log.write(disk, b, frame_bytes(store, f)) {
        return Err(failed);
    }
    store.clean(f);
    Ok(())
}
