//! A poke as the plain table is to do it, and what it answers.

ghost use Rattle.std.specs.Prelude.{◌≡◌, ℕ, true, List};
ghost use Rattle.kernel_model.specs.Bare.{call_with};
ghost use Rattle.kernel_model.specs.Meaning.{Stage};
ghost use Rattle.call_pieces.specs.Stores.{world_of_store, objects_of};
ghost use Rattle.call_pieces.specs.Works.{IsDue, call_of, stage_of};
ghost use Rattle.call_pieces.specs.Matching.{comes_after, is_fault, goes_on};
ghost use Rattle.high_marks.specs.HighMarks as spec;

use call_pieces::{Next, Policy, Store, Work};
use kernel_model::{BareCall, Reply};

/// The call as the plain table is to do it: a poke with the greater of its value and its cell's.
pub(crate) fn as_plain<B: Policy>(work: &Work, store: &Store<B>) -> BareCall
    requires ready { IsDue spec.high_marks (world_of_store store.now) (objects_of store.now)
        work.now.caller (stage_of work.now) }
    ensures { call_with result work.now.bytes.items
        ≡ spec.as_plain (objects_of store.now) work.now.caller (call_of work.now) }
{
    match work.call {
        BareCall::Poke(k, x) => BareCall::Poke(k, x.max(store.cell(work.caller, k as u8))),
        call => call,
    }
}

/// What comes after a piece of the plain table: a poke answers what its cell is then.
pub(crate) fn told(call: BareCall, next: Next) -> Next
    ensures after { (bytes : List ℕ) (t : Stage) → comes_after result t
        ≡ spec.told_after (call_with call bytes) (comes_after next t) }
    ensures goes { goes_on result ≡ true → goes_on next ≡ true }
    ensures fault { is_fault result ≡ true → is_fault next ≡ true }
{
    match call {
        BareCall::Poke(_, mark) => Next::Ends(Reply::One(mark)),
        _ => next,
    }
}
