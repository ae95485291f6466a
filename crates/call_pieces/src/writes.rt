//! A write.

ghost use Rattle.std.specs.Prelude.{◌≡◌, length};
ghost use Rattle.kernel_model.specs.Laws.{IsRightAnswer};
ghost use Rattle.kernel_state.specs.Stores.{objects_of};
ghost use Rattle.call_needs.specs.Fetching.{store_moment};
ghost use Rattle.call_needs.specs.Needing.{block_meant, fetch_ask_of};
ghost use Rattle.call_pieces.specs.Shared.{AccessReady, ServesLast, write_of};

use crate::Next;
use call_needs::{Access, fetch, plan_block};
use kernel_model::{Refusal, Reply};
use kernel_state::{Disk, DiskLog, Policy, Store};

/// These bytes are written.
pub fn write<B: Policy, D: Disk>(
    store: &mut Store<B>,
    disk: &mut D,
    log: &mut DiskLog,
    r: Access,
    bytes: &[u8],
) -> Next
    requires ready { AccessReady (store_moment store.old (D.seen disk.old) log.old) r }
    requires len { r.len ≡ length bytes.now }
    requires right { IsRightAnswer (objects_of store.old) (fetch_ask_of store.old
        (block_meant store.old r.p r.fd r.i r.off r.len)) r.answer }
    ensures { ServesLast (write_of store.old r bytes.now)
        (store_moment store.old (D.seen disk.old) log.old)
        (store_moment store.new (D.seen disk.new) log.new) result }
{
    let plan = match plan_block(store, r.p, r.fd as u8, r.i, r.off, r.len) {
        Ok(plan) => plan,
        Err(refusal) => return Next::Fails(refusal),
    };
    match fetch(store, disk, log, r, plan) {
        Ok(f) => {
            store.patch(f, r.off, bytes);
            Next::Ends(Reply::Plain)
        }
        Err(_) => Next::Fails(Refusal::DiskFault),
    }
}
