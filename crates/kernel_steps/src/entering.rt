//! How a call enters the graft that its piece asks.

ghost use Rattle.std.specs.Prelude.{◌≡◌, ◌≤◌, [], Some, length, option_map, All};
ghost use Rattle.kernel_model.specs.declared.Need.{Need};
ghost use Rattle.kernel_model.specs.History.{begin_at};
ghost use Rattle.kernel_model.specs.Laws.{IsInRange, IsStanding};
ghost use Rattle.kernel_model.specs.Sound.{ImagesAreLoaded};
ghost use Rattle.kernel_model.specs.World.{ImageTable};
ghost use Rattle.call_pieces.specs.Stores.{world_of_store, objects_of};
ghost use Rattle.call_pieces.specs.Works.{stage_of};
ghost use Rattle.graft_levels.specs.Slots.{table_of};
ghost use Rattle.graft_levels.specs.Chains.{call_of};
ghost use Rattle.graft_levels.specs.Calls.{IsPlaced, IsInPlace, IsElsewhereSame};
ghost use Rattle.running_kernel.specs.declared.running.InFlight.{InFlight};
ghost use Rattle.running_kernel.specs.Views.{call_in_place};
ghost use Rattle.kernel_steps.specs.Moves.{fed_by, needed_by, HasGraft};

use call_pieces::{Calls, Needs, Policy, Store};
use graft_levels::{Images, LockTable, PieceAsk};
use kernel_model::Point;
use running_kernel::{Flight, Slot};

/// The objects that the piece needs of the call of process p that stands here, if one does.
fn needs_of<C: Calls, B: Policy>(slot: &Slot, p: u8, store: &Store<B>, needs: &mut Needs)
    requires own { (f : InFlight) → slot.now ≡ Some f → f.work.caller ≡ p }
    requires stands { (f : InFlight) → slot.now ≡ Some f → (images : ImageTable)
        × IsStanding C.Meaning.meaning (world_of_store store.now) images (objects_of store.now) p
        (stage_of f.work) }
    requires empty { needs.old ≡ [] }
    ensures value { needs.new ≡ needed_by C.Meaning.meaning (world_of_store store.now)
        (objects_of store.now) p (option_map call_in_place slot.now) }
    ensures range { All (λ (n : Need). IsInRange n.object) needs.new }
{
    if let Some(call) = slot.get() {
        C::need(&call.work, store, needs);
    }
}

/// The bytes that the graft is fed which the piece asks of the call that stands here, if one does.
fn feed_of<C: Calls>(slot: &Slot) -> &[u8]
    ensures value { result.now ≡ fed_by C.Meaning.meaning (option_map call_in_place slot.now) }
    ensures few { length result.now ≤ 512 }
{
    match slot.get() {
        Some(call) => C::feed(&call.work),
        None => &[],
    }
}

/// The graft call of process p begins, which has a call in flight without levels, whose piece asks
/// a point at which a graft stands.
pub(crate) fn begin_graft<C: Calls, B: Policy>(
    flight: &mut Flight,
    p: u8,
    store: &mut Store<B>,
    locks: &mut LockTable,
    images: &Images,
    at: &Point,
)
    requires own { (f : InFlight) → flight.old.call ≡ Some f → f.work.caller ≡ p }
    requires due { (f : InFlight) → flight.old.call ≡ Some f → (images : ImageTable)
        × IsStanding C.Meaning.meaning (world_of_store store.old) images (objects_of store.old) p
        (stage_of f.work) }
    requires none { flight.old.chain.levels ≡ [] }
    requires placed { IsPlaced store.old locks.old p flight.old.chain.levels
        flight.old.chain.undo }
    requires graft { HasGraft store.old at.now }
    requires loaded { ImagesAreLoaded (table_of images.now) (objects_of store.old).accounts }
    ensures value { let call = option_map call_in_place flight.old.call in
        call_of store.new locks.new flight.new.chain p
        ≡ begin_at (table_of images.now) (objects_of store.old) p
        (needed_by C.Meaning.meaning (world_of_store store.old) (objects_of store.old) p call)
        (fed_by C.Meaning.meaning call) at.now }
    ensures same_call { flight.new.call ≡ flight.old.call }
    ensures in_place { IsInPlace store.new locks.new (table_of images.now) p
        flight.new.chain.levels flight.new.chain.undo }
    ensures elsewhere { IsElsewhereSame store.old store.new locks.old locks.new p }
{
    let mut needs = Needs::new();
    needs_of::<C, B>(&flight.call, p, store, &mut needs);
    let at = *at;
    flight.chain.begin_call(
        p,
        store,
        locks,
        images,
        PieceAsk {
            at: &at,
            needs: needs.as_slice(),
            feed: feed_of::<C>(&flight.call),
        },
    );
}
