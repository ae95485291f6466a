//! Grafts that handle events are put at their points and taken out.

ghost use Rattle.std.specs.Prelude.{◌≡◌, ◌<◌, ◌≤◌, true};
ghost use Rattle.kernel_model.specs.Policies.{lives};
ghost use Rattle.kernel_model.specs.Pieces.{new_graft};
ghost use Rattle.kernel_model.specs.EventPoints.{handler_joins, handler_leaves};
ghost use Rattle.call_pieces.specs.Stores.{objects_of, queue_of};
ghost use Rattle.call_pieces.specs.Shared.{EndsAtOnce};

use call_pieces::laws::living_are_numbered;
use call_pieces::{Next, Policy, Store};
use kernel_model::{Refusal, Reply};

/// A graft is put at event point pt of process p, if none stands there, and becomes the last
/// handler of its port, if that has room.
pub(crate) fn install<B: Policy>(
    store: &mut Store<B>,
    p: u8,
    pt: u32,
    image: u32,
    limit: u32,
) -> Next
    requires alive { lives (queue_of store.old) p ≡ true }
    requires first { 6 ≤ pt }
    requires last { pt ≤ 13 }
    requires image { image < 32 }
    requires some { 1 ≤ limit }
    requires most { limit ≤ 65536 }
    ensures done { EndsAtOnce (handler_joins (objects_of store.old) p pt (new_graft image limit)
        ((objects_of store.old).accounts.graft p pt)) store.old store.new result }
{
    if store.has_graft(p, pt as u8) {
        return Next::Fails(Refusal::Taken);
    }
    living_are_numbered(store);
    if !store.add_handler(p, pt as u8) {
        return Next::Fails(Refusal::PortFull);
    }
    store.install(p, pt as u8, image as u8, limit);
    Next::Ends(Reply::Plain)
}

/// The graft at event point pt of process p is taken out, with its handler, if one stands there.
pub(crate) fn remove<B: Policy>(store: &mut Store<B>, p: u8, pt: u32) -> Next
    requires alive { lives (queue_of store.old) p ≡ true }
    requires point { pt < 16 }
    ensures done { EndsAtOnce (handler_leaves (objects_of store.old) p pt
        ((objects_of store.old).accounts.graft p pt)) store.old store.new result }
{
    if !store.has_graft(p, pt as u8) {
        return Next::Fails(Refusal::NoGraft);
    }
    store.remove(p, pt as u8);
    store.drop_handler(p, pt as u8);
    Next::Ends(Reply::Plain)
}
