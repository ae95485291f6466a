//! How a block comes into the cache.

ghost use Rattle.std.specs.Prelude.{◌≡◌, ◌<◌, true, false, [], ◌∷◌, None, ⊤};
ghost use Rattle.kernel_model.specs.Needs.{frame_of_block};
ghost use Rattle.kernel_model.specs.Fetch.{chosen_by};
ghost use Rattle.kernel_state.specs.Frames.{in_use};
ghost use Rattle.kernel_state.specs.Stores.{cache_of};
ghost use Rattle.call_needs.specs.Fetching.{FetchReady, FetchDone, PlaceDone, NamesFrame, store_moment};
ghost use Rattle.call_needs.specs.Fetching.{fetch_of, fetch_ahead_of, load_of, place_of, evict_of};
ghost use Rattle.call_needs.specs.Planning.{HasRoomFrame, IsPlan, IsRoomIn};

use crate::Access;
use crate::bodies::frame_bytes;
use crate::plans::{Place, Plan, Room};
use kernel_state::{Disk, DiskLog, Failed, Policy, Store};

/// The block of a plan, for an access: the frame that holds it becomes the newest, or the block is
/// read into the frame that the plan has for it. An answer names the frame in use that is evicted in
/// place of the candidate.
pub fn fetch<B: Policy, D: Disk>(
    store: &mut Store<B>,
    disk: &mut D,
    log: &mut DiskLog,
    r: Access,
    plan: Plan,
) -> Result<u8, Failed>
    requires ready { FetchReady (store_moment store.old (D.seen disk.old) log.old) r.p r.answer [] }
    requires plan { IsPlan store.old plan }
    ensures { FetchDone (fetch_of store.old r.p plan.block r.answer)
        (store_moment store.old (D.seen disk.old) log.old)
        (store_moment store.new (D.seen disk.new) log.new) result }
{
    match plan.place {
        Place::Held(f) => {
            store.touch(f);
            Ok(f)
        }
        Place::Missing(room) => {
            let Access { p, answer, .. } = r;
            let b = plan.block;
            load(store, disk, log, Wanted { p, b, answer }, room)
        }
    }
}

/// The block of a plan, ahead of a read: where a frame holds it already, nothing changes.
pub fn fetch_ahead<B: Policy, D: Disk>(
    store: &mut Store<B>,
    disk: &mut D,
    log: &mut DiskLog,
    r: Access,
    plan: Plan,
) -> Result<u8, Failed>
    requires ready { FetchReady (store_moment store.old (D.seen disk.old) log.old) r.p r.answer [] }
    requires plan { IsPlan store.old plan }
    ensures { FetchDone (fetch_ahead_of store.old r.p plan.block r.answer)
        (store_moment store.old (D.seen disk.old) log.old)
        (store_moment store.new (D.seen disk.new) log.new) result }
{
    match plan.place {
        Place::Held(f) => Ok(f),
        Place::Missing(room) => {
            let Access { p, answer, .. } = r;
            let b = plan.block;
            load(store, disk, log, Wanted { p, b, answer }, room)
        }
    }
}

/// A block for a process, with an answer as for `fetch`.
#[derive(Clone, Copy)]
struct Wanted {
    p: u8,
    b: u32,
    answer: Option<[u32; 4]>,
}

/// Reads a block that no frame holds into a frame.
fn load<B: Policy, D: Disk>(
    store: &mut Store<B>,
    disk: &mut D,
    log: &mut DiskLog,
    w: Wanted,
    room: Room,
) -> Result<u8, Failed>
    requires ready { FetchReady (store_moment store.old (D.seen disk.old) log.old) w.p w.answer [] }
    requires block { w.b < store.old.size }
    requires missing { frame_of_block (cache_of store.old) w.b ≡ None }
    requires room { IsRoomIn store.old room }
    requires frame { HasRoomFrame store.old.cache room }
    ensures { FetchDone (load_of store.old w.p w.b w.answer)
        (store_moment store.old (D.seen disk.old) log.old)
        (store_moment store.new (D.seen disk.new) log.new) result }
{
    match log.read(disk, w.b) {
        Ok(()) => {
            // For its length.
            disk.block();
            place(store, disk, log, w, room)
        }
        Err(failed) => Err(failed),
    }
}

/// Puts a block that no frame holds, which the disk lends, into the free frame that there is for it,
/// or else into the one that the answer chooses, or by default into the candidate.
fn place<B: Policy, D: Disk>(
    store: &mut Store<B>,
    disk: &mut D,
    log: &mut DiskLog,
    w: Wanted,
    room: Room,
) -> Result<u8, Failed>
    requires ready { FetchReady (store_moment store.old (D.seen disk.old) log.old) w.p w.answer
        (false ∷ []) }
    requires block { w.b < store.old.size }
    requires missing { frame_of_block (cache_of store.old) w.b ≡ None }
    requires room { IsRoomIn store.old room }
    requires frame { HasRoomFrame store.old.cache room }
    ensures { PlaceDone (place_of store.old w.p w.b w.answer) (λ blocks. blocks w.b ≡ D.lent disk.old)
        (store_moment store.old (D.seen disk.old) log.old)
        (store_moment store.new (D.seen disk.new) log.new) result }
{
    match room {
        Room::Free(f) => {
            store.fill(f, w.p, w.b, disk.block());
            Ok(f)
        }
        Room::Candidate(candidate) => {
            let frame = chosen(store, w.answer, candidate);
            evict(store, disk, log, w, Victim { frame, candidate })
        }
    }
}

/// The frame that an answer chooses, which is in use, or else the candidate.
fn chosen<B: Policy>(store: &Store<B>, answer: Option<[u32; 4]>, candidate: u8) -> u8
    requires right { NamesFrame store.now answer }
    requires candidate { in_use candidate store.now.cache ≡ true }
    ensures value { result ≡ chosen_by answer candidate }
    ensures in_cache { in_use result store.now.cache ≡ true }
{
    match answer {
        Some(a) => store.frame_number(a[0]),
        None => candidate,
    }
}

/// The frame that is evicted, and the one that the policy would evict.
#[derive(Clone, Copy)]
struct Victim {
    frame: u8,
    candidate: u8,
}

/// Puts a block that no frame holds, which the disk lends, into a frame that is in use: what that
/// held is written first, if it is dirty.
fn evict<B: Policy, D: Disk>(
    store: &mut Store<B>,
    disk: &mut D,
    log: &mut DiskLog,
    w: Wanted,
    v: Victim,
) -> Result<u8, Failed>
    requires ready { FetchReady (store_moment store.old (D.seen disk.old) log.old) w.p w.answer
        (false ∷ []) }
    requires block { w.b < store.old.size }
    requires missing { frame_of_block (cache_of store.old) w.b ≡ None }
    requires frame { in_use v.frame store.old.cache ≡ true }
    requires candidate { in_use v.candidate store.old.cache ≡ true }
    ensures { PlaceDone (evict_of store.old w.p w.b v.frame v.candidate (D.lent disk.old))
        (λ blocks. ⊤) (store_moment store.old (D.seen disk.old) log.old)
        (store_moment store.new (D.seen disk.new) log.new) result }
{
    match store.dirty_block(v.frame) {
        Some(old) => {
            // The write ends the loan.
            let bytes = *disk.block();
            if let Err(failed) = log.write(disk, old, frame_bytes(store, v.frame)) {
                return Err(failed);
            }
            store.replace(v.frame, v.candidate, w.p, w.b, &bytes);
            Ok(v.frame)
        }
        None => {
            store.replace(v.frame, v.candidate, w.p, w.b, disk.block());
            Ok(v.frame)
        }
    }
}
