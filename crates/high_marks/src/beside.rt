//! The high marks beside the plain calls, and a call of theirs from beginning to end.

ghost use Rattle.std.specs.Prelude.{◌≡◌, ◌<◌, true, [], IfOk, IfErr, OnErr};
ghost use Rattle.call_pieces.specs.Calls.{Made};
ghost use Rattle.kernel_model.specs.Policies.{lives};
ghost use Rattle.kernel_model.specs.declared.Refusal.TheVariants.{BadIndex};
ghost use Rattle.kernel_model.specs.declared.Reply.TheVariants.{One};
ghost use Rattle.call_pieces.specs.Stores.{world_of_store, objects_of, queue_of};
ghost use Rattle.call_pieces.specs.declared.Next.TheVariants.{Ends};
ghost use Rattle.high_marks.specs.HighMarks.{mark, marked};

use crate::HighMarks;
use arrayvec::ArrayVec;
use call_pieces::{Beside, Calls, Disk, DiskLog, Gift, Next, Plain, Policy, Store, Work};
use kernel_model::{BareCall, Refusal};

/// The high marks beside the plain calls: a table as any other.
pub type MarkedCalls = Beside<HighMarks, Plain>;

/// Process p, which lives, pokes cell k by the two tables as one: the call begins, and its one
/// piece raises the cell. Where there is no cell k it is refused, and nothing changes. No call of
/// the disk is made.
pub fn poke_once<B: Policy, D: Disk>(
    store: &mut Store<B>,
    disk: &mut D,
    p: u8,
    k: u32,
    x: u32,
) -> Result<Next, Refusal>
    requires alive { lives (queue_of store.old) p ≡ true }
    requires disk { store.old.size ≡ (D.seen disk.old).size }
    ensures raised { IfOk result (λ _. objects_of store.new ≡
        marked p k (mark p k x (objects_of store.old)) (objects_of store.old)) }
    ensures told { IfOk result (λ next. next ≡ Ends (One (mark p k x (objects_of store.old)))) }
    ensures refused { IfErr result (λ why. (why ≡ BadIndex) × (3 < k)) }
    ensures kept { OnErr result (store.new ≡ store.old) }
    ensures world { world_of_store store.new ≡ world_of_store store.old }
    ensures calls { Made (D.seen disk.old) (D.seen disk.new) [] }
{
    let mut work = Work::new();
    let call = BareCall::Poke(k, x);
    match MarkedCalls::early(store, 0, p, call, &ArrayVec::new(), &mut work) {
        Err(refusal) => Err(refusal),
        Ok(()) => {
            let mut log = DiskLog::new();
            Ok(MarkedCalls::piece(&mut work, store, None, disk, &mut log, &mut Gift::new()))
        }
    }
}
