//! How calls begin and end, and take their places in the order.

ghost use Rattle.std.specs.Prelude.{suc, true, false, ◌≡◌, ◌<◌, ◌-◌, ◌^◌, None, [], ◌∷◌, length, slice_set};
ghost use Rattle.kernel_model.specs.declared.Note.TheVariants.{Ticked};
ghost use Rattle.kernel_model.specs.Bare.{call_with, note_with};
ghost use Rattle.kernel_model.specs.Events.{in_order};
ghost use Rattle.kernel_model.specs.Policies.{lives};
ghost use Rattle.call_pieces.specs.Stores.{world_of_store, queue_of};
ghost use Rattle.graft_levels.specs.Slots.{table_of};
ghost use Rattle.placed_laws.specs.PlacedSteps.{placed_joins, placed_noted, placed_requeue};
ghost use Rattle.placed_laws.specs.PlacedSteps.{placed_ticked, with_placed_call};
ghost use Rattle.running_kernel.specs.Orders.{has_number, numbers_of};
ghost use Rattle.running_kernel.specs.Sound.{HasProcess};
ghost use Rattle.running_kernel.specs.Views.{placed_of, flight_of, IsRunning};
ghost use Rattle.kernel_steps.specs.Begins.{CallBegins, FlightBegins, SlotBegins};
ghost use Rattle.kernel_steps.specs.Runs.{ChangesNoting, ChangesTo};

use crate::notes::Notes;
use arrayvec::ArrayVec;
use call_pieces::{Calls, Policy, Store};
use fixed_room::Room;
use graft_levels::Images;
use kernel_model::{BLOCK_BYTES, BareCall, BareNote, Refusal};
use running_kernel::{Flight, Running, Slot, Waiting};

/// A system call that an event asks.
#[derive(Clone, Copy)]
pub struct Request<'a> {
    /// The number of the event.
    pub number: u32,
    /// The call, without its bytes.
    pub call: BareCall,
    /// Its bytes.
    pub bytes: &'a ArrayVec<u8, BLOCK_BYTES>,
}

/// A call of process p, which lives, begins here, unless it is refused at once. It isn't inlined,
/// so that what runs the call then keeps its registers.
#[inline(never)]
fn begin_in<C: Calls, B: Policy>(
    slot: &mut Slot,
    store: &Store<B>,
    images: &Images,
    p: u8,
    request: Request<'_>,
) -> Result<(), Refusal>
    requires alive { lives (queue_of store.now) p ≡ true }
    ensures { SlotBegins C.Meaning.meaning (world_of_store store.now) (table_of images.now) p
        request.entry.number (call_with request.entry.call request.entry.bytes.now.items)
        slot.new result }
{
    slot.taken = false;
    C::early(
        store,
        images.mask(),
        p,
        request.call,
        request.bytes,
        &mut slot.call.work,
    )?;
    slot.call.number = request.number;
    slot.taken = true;
    Ok(())
}

/// A call of process p, which lives, begins in its place, unless it is refused at once.
fn begin_flight<C: Calls, B: Policy>(
    flights: &mut Room<Flight>,
    store: &Store<B>,
    images: &Images,
    p: u8,
    request: Request<'_>,
) -> Result<(), Refusal>
    requires process { p < length flights.old.items }
    requires alive { lives (queue_of store.now) p ≡ true }
    ensures { FlightBegins C.Meaning.meaning (world_of_store store.now) (table_of images.now) p
        request.entry.number (call_with request.entry.call request.entry.bytes.now.items)
        flights.old.items flights.new.items result }
{
    let flight = &mut flights[p as usize];
    begin_in::<C, B>(&mut flight.call, store, images, p, request)
}

/// A process has no call.
fn end_call(flights: &mut Room<Flight>, p: u8)
    requires { p < length flights.old.items }
    ensures { flights.new.items ≡ slice_set flights.old.items p
        (record (flight_of flights.old.items p) { call = None }) }
{
    flights[p as usize].call.end();
}

/// A call of process p begins, which lives, has none and doesn't wait. It is still to join the
/// order, and is said to have begun in the kernel once it has. Or it is refused at once, and nothing
/// changes.
pub fn begin_call<C: Calls, B: Policy>(
    running: &mut Running<C, B>,
    p: u8,
    request: Request<'_>,
) -> Result<(), Refusal>
    requires at { HasProcess running.old p }
    requires alive { lives (queue_of running.old.store) p ≡ true }
    requires none { (placed_of running.old).call p ≡ None }
    requires new { has_number p (numbers_of running.old.order) ≡ false }
    ensures { CallBegins C.Meaning.meaning p request.entry.number
        (call_with request.entry.call request.entry.bytes.now.items)
        running.old running.new result }
{
    let calls = &mut running.calls;
    match begin_flight::<C, B>(calls, &running.store, &running.images, p, request) {
        Err(refusal) => Err(refusal),
        Ok(()) => Ok(()),
    }
}

/// The call of process p ends with this note; it has no level.
pub fn end<C: Calls, B: Policy>(
    running: &mut Running<C, B>,
    p: u8,
    note: BareNote,
    notes: &mut Notes,
)
    requires { HasProcess running.old p }
    ensures { ChangesNoting
        (λ r. placed_requeue p (placed_noted (note_with note []) (with_placed_call p None r)))
        (note_with note [] ∷ []) running.old running.new notes.old notes.new }
{
    end_call(&mut running.calls, p);
    running.order.leave(p);
    notes.push(note);
}

/// Process p, which isn't in the order, joins it at its end.
pub fn join<C: Calls, B: Policy>(running: &mut Running<C, B>, p: u8)
    requires at { HasProcess running.old p }
    requires new { in_order p (placed_of running.old).order ≡ false }
    ensures { ChangesTo (placed_joins p) running.old running.new }
{
    running.order.push(Waiting::joined(p));
}

/// After a step of process p: it stands in the order, at its end, exactly where its next step is a
/// piece.
pub fn requeue<C: Calls, B: Policy>(running: &mut Running<C, B>, p: u8)
    requires { HasProcess running.old p }
    ensures { ChangesTo (placed_requeue p) running.old running.new }
{
    let waits = running.is_at_piece(p);
    if waits {
        running.order.to_end(p);
        return;
    }
    running.order.leave(p);
}

/// The clock and the count of each entry rise by one.
pub fn tick<C: Calls, B: Policy>(running: &mut Running<C, B>, number: u32, notes: &mut Notes)
    requires clock { running.old.clock < 2 ^ 32 - 1 }
    requires running { IsRunning running.old }
    ensures { ChangesNoting (placed_ticked number) (Ticked number (suc running.old.clock) ∷ [])
        running.old running.new notes.old notes.new }
{
    running.clock += 1;
    running.order.count_up();
    notes.push(BareNote::Ticked(number, running.clock));
}
