//! Policies: which one of a kind is chosen, and its parameter.

ghost use Rattle.std.specs.Prelude.{◌≡◌, ◌<◌};
ghost use Rattle.kernel_model.specs.Early.{policy_count};
ghost use Rattle.kernel_model.specs.Pieces.{tune_piece, choose_piece};
ghost use Rattle.kernel_state.specs.Stores.{objects_of, queue_of};
ghost use Rattle.call_pieces.specs.Shared.{EndsAtOnce};

use crate::Next;
use kernel_model::{Refusal, Reply};
use kernel_state::{Policy, Store};

/// Parameter k of the chosen policy of a kind gets a value, if it takes it.
pub(crate) fn tune<B: Policy>(store: &mut Store<B>, kind: u32, k: u32, v: u32) -> Next
    requires granted { kind < 3 }
    ensures done { EndsAtOnce (tune_piece (objects_of store.old) kind k v)
        store.old store.new result }
{
    if !store.takes(kind as u8, k, v) {
        return Next::Fails(Refusal::BadIndex);
    }
    store.set_param(kind as u8, v);
    Next::Ends(Reply::Plain)
}

/// Policy j of a kind is chosen.
pub(crate) fn choose<B: Policy>(store: &mut Store<B>, kind: u32, j: u32) -> Next
    requires kind { kind < 3 }
    requires granted { j < policy_count kind }
    ensures done { EndsAtOnce (choose_piece (objects_of store.old) kind j)
        store.old store.new result }
{
    store.choose(kind as u8, j as u8);
    Next::Ends(Reply::Plain)
}
