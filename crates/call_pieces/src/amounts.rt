//! Amounts that are given, and the grafts that have them.

ghost use Rattle.std.specs.Prelude.{◌≡◌, ◌<◌, ◌≤◌, true};
ghost use Rattle.kernel_model.specs.Policies.{lives};
ghost use Rattle.kernel_model.specs.Pieces.{give_piece, install_piece, remove_piece, fund_piece, bill_piece, new_graft};
ghost use Rattle.kernel_state.specs.Places.{HasPoint};
ghost use Rattle.kernel_state.specs.Stores.{objects_of, queue_of};
ghost use Rattle.call_pieces.specs.Callers.{CanGive};
ghost use Rattle.call_pieces.specs.Shared.{EndsAtOnce};

use crate::Next;
use kernel_model::{Kind, Refusal, Reply};
use kernel_state::{Policy, Store};

/// Process p gives n to process q, if that lives.
pub(crate) fn give<B: Policy>(store: &mut Store<B>, p: u8, q: u32, k: Kind, n: u32) -> Next
    requires { CanGive (queue_of store.old) p q }
    ensures done { EndsAtOnce (λ blocks. give_piece (objects_of store.old) p q k n blocks
        (lives (queue_of store.old) q)) store.old store.new result }
{
    if !store.living(q) {
        return Next::Fails(Refusal::NoProcess);
    }
    match store.give(p, q as u8, k, n) {
        Ok(()) => Next::Ends(Reply::Plain),
        Err(has) => Next::Fails(Refusal::Short(has)),
    }
}

/// A graft is put at point pt of process p, if none stands there.
pub(crate) fn install<B: Policy>(
    store: &mut Store<B>,
    p: u8,
    pt: u32,
    image: u32,
    limit: u32,
) -> Next
    requires place { HasPoint (queue_of store.old) p pt }
    requires image { image < 32 }
    requires some { 1 ≤ limit }
    requires most { limit ≤ 65536 }
    ensures done { EndsAtOnce (install_piece (objects_of store.old) p pt (new_graft image limit)
        ((objects_of store.old).accounts.graft p pt)) store.old store.new result }
{
    if store.has_graft(p, pt as u8) {
        return Next::Fails(Refusal::Taken);
    }
    store.install(p, pt as u8, image as u8, limit);
    Next::Ends(Reply::Plain)
}

/// The graft at point pt of process p is taken out, if one stands there.
pub(crate) fn remove<B: Policy>(store: &mut Store<B>, p: u8, pt: u32) -> Next
    requires place { HasPoint (queue_of store.old) p pt }
    ensures done { EndsAtOnce (remove_piece (objects_of store.old) p pt
        ((objects_of store.old).accounts.graft p pt)) store.old store.new result }
{
    if !store.has_graft(p, pt as u8) {
        return Next::Fails(Refusal::NoGraft);
    }
    store.remove(p, pt as u8);
    Next::Ends(Reply::Plain)
}

/// Process p gives n to its graft at point pt, if one stands there.
pub fn fund<B: Policy>(store: &mut Store<B>, p: u8, pt: u32, k: Kind, n: u32) -> Next
    requires place { HasPoint (queue_of store.old) p pt }
    ensures done { EndsAtOnce (fund_piece (objects_of store.old) p pt k n
        ((objects_of store.old).accounts.graft p pt)) store.old store.new result }
{
    if !store.has_graft(p, pt as u8) {
        return Next::Fails(Refusal::NoGraft);
    }
    match store.fund(p, pt as u8, k, n) {
        Ok(()) => Next::Ends(Reply::Plain),
        Err(has) => Next::Fails(Refusal::Short(has)),
    }
}

/// From here on process p pays for its graft at point pt, if one stands there.
pub fn bill<B: Policy>(store: &mut Store<B>, p: u8, pt: u32) -> Next
    requires place { HasPoint (queue_of store.old) p pt }
    ensures done { EndsAtOnce (bill_piece (objects_of store.old) p pt
        ((objects_of store.old).accounts.graft p pt)) store.old store.new result }
{
    if !store.has_graft(p, pt as u8) {
        return Next::Fails(Refusal::NoGraft);
    }
    store.bill(p, pt as u8);
    Next::Ends(Reply::Plain)
}
