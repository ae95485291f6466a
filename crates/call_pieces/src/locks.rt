//! User locks.

ghost use Rattle.std.specs.Prelude.{◌<◌};
ghost use Rattle.kernel_model.specs.Pieces.{lock_piece, unlock_piece};
ghost use Rattle.kernel_state.specs.Stores.{objects_of, queue_of};
ghost use Rattle.call_pieces.specs.Callers.{CanLock};
ghost use Rattle.call_pieces.specs.Shared.{EndsAtOnce};

use crate::Next;
use kernel_model::{Refusal, Reply};
use kernel_state::{Policy, Store};

/// Process p takes user lock u, unless it is held.
pub(crate) fn take_lock<B: Policy>(store: &mut Store<B>, p: u8, u: u32) -> Next
    requires { CanLock (queue_of store.old) p u }
    ensures done { EndsAtOnce (lock_piece (objects_of store.old) p u
        ((objects_of store.old).things.lock u)) store.old store.new result }
{
    if store.holder(u as u8).is_some() {
        return Next::Fails(Refusal::Held);
    }
    store.set_holder(u as u8, Some(p));
    Next::Ends(Reply::Plain)
}

/// Process p lets user lock u go, which it holds.
pub(crate) fn free_lock<B: Policy>(store: &mut Store<B>, p: u8, u: u32) -> Next
    requires granted { u < 16 }
    ensures done { EndsAtOnce (unlock_piece (objects_of store.old) p u
        ((objects_of store.old).things.lock u)) store.old store.new result }
{
    match store.holder(u as u8) {
        Some(q) if q == p => {
            store.set_holder(u as u8, None);
            Next::Ends(Reply::Plain)
        }
        _ => Next::Fails(Refusal::NotHeld),
    }
}
