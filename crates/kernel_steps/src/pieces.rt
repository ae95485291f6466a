//! A piece of a call in flight.

ghost use Rattle.std.specs.Prelude.{◌≡◌, true, Some, None, cond, option_map};
ghost use Rattle.kernel_model.specs.Laws.{IsReady};
ghost use Rattle.kernel_model.specs.World.{ImageTable};
ghost use Rattle.call_pieces.specs.Works.{answer_seen, stage_of};
ghost use Rattle.call_pieces.specs.Stores.{world_of_store, objects_of};
ghost use Rattle.running_kernel.specs.declared.running.InFlight.{InFlight as Flying};
ghost use Rattle.kernel_steps.specs.Moments.{kernel_moment};
ghost use Rattle.kernel_steps.specs.Refines.{PieceDone, StoreStays};
ghost use Rattle.running_kernel.specs.Views.{call_in_place};

use crate::trace::Trace;
use call_pieces::{Calls, Disk, Next, Policy, Store};
use kernel_model::BareNote;
use running_kernel::{InFlight, Slot};

/// The next piece of a call in flight, with an answer to the point that it asks, or by default.
/// Whether the call goes on; it ends with a note. The log has this piece's calls of the disk then.
#[inline(always)]
fn run_piece<C: Calls, B: Policy, D: Disk>(
    call: &mut InFlight,
    store: &mut Store<B>,
    answer: Option<[u32; 4]>,
    disk: &mut D,
    trace: &mut Trace,
) -> bool
    requires ready { (images : ImageTable) × IsReady C.Meaning.meaning (world_of_store store.old)
        images (objects_of store.old) call.old.work.caller (stage_of call.old.work)
        (answer_seen store.old.ram call.old.work.caller answer) }
    requires disk { store.old.size ≡ (D.seen disk.old).size }
    ensures done { PieceDone C.Meaning.meaning (world_of_store store.old) call.old.work.caller
        (call_in_place call.old) (option_map call_in_place (cond result (Some call.new) None))
        (answer_seen store.old.ram call.old.work.caller answer)
        (kernel_moment (objects_of store.old) trace.old.notes (D.seen disk.old))
        (kernel_moment (objects_of store.new) trace.new.notes (D.seen disk.new)) }
    ensures caller { result ≡ true → call.new.work.caller ≡ call.old.work.caller }
    ensures store { StoreStays store.old store.new }
{
    trace.log.clear();
    let next = C::piece(
        &mut call.work,
        store,
        answer,
        disk,
        &mut trace.log,
        &mut trace.gave,
    );
    let number = call.number;
    trace.notes.push_bytes(number, &trace.gave);
    match next {
        Next::Goes => true,
        Next::Ends(reply) => {
            trace.notes.push(BareNote::Ended(number, reply));
            false
        }
        Next::Fails(refusal) => {
            trace.notes.push(BareNote::Refused(number, refusal));
            false
        }
    }
}

/// The next piece of the call in flight that stands here, with an answer to the point that it asks,
/// or by default. The call goes on, or it ends with a note.
#[inline(always)]
pub(crate) fn do_piece<C: Calls, B: Policy, D: Disk>(
    slot: &mut Slot,
    store: &mut Store<B>,
    answer: Option<[u32; 4]>,
    disk: &mut D,
    trace: &mut Trace,
)
    requires ready { (f : Flying) → slot.old ≡ Some f →
        (images : ImageTable) × IsReady C.Meaning.meaning (world_of_store store.old) images
        (objects_of store.old) f.work.caller (stage_of f.work)
        (answer_seen store.old.ram f.work.caller answer) }
    requires disk { store.old.size ≡ (D.seen disk.old).size }
    ensures done { (f : Flying) → slot.old ≡ Some f →
        PieceDone C.Meaning.meaning (world_of_store store.old) f.work.caller (call_in_place f)
        (option_map call_in_place slot.new) (answer_seen store.old.ram f.work.caller answer)
        (kernel_moment (objects_of store.old) trace.old.notes (D.seen disk.old))
        (kernel_moment (objects_of store.new) trace.new.notes (D.seen disk.new)) }
    ensures caller { (f g : Flying) → slot.old ≡ Some f → slot.new ≡ Some g →
        g.work.caller ≡ f.work.caller }
    ensures store { StoreStays store.old store.new }
{
    if !slot.taken {
        return;
    }
    slot.taken = run_piece::<C, B, D>(&mut slot.call, store, answer, disk, trace);
}
