//! What the code of a table of quick calls is.

use call_pieces::{Needs, Next, Policy, Store, Work};
use kernel_model::{BareCall, Refusal};

/// A table of quick calls: what it is, that it meets their laws, and the four functions that do it.
pub trait Quick {
    ghost use Rattle.std.specs.Prelude.{◌≡◌, ℕ, ◌<◌, true, List, [], None};
    ghost use Rattle.kernel_model.specs.Bare.{call_with};
    ghost use Rattle.kernel_model.specs.Policies.{lives};
    ghost use Rattle.call_pieces.specs.Stores.{objects_of, queue_of};
    ghost use Rattle.call_pieces.specs.Works.{call_of};
    ghost use Rattle.call_pieces.specs.Shared.{EndsAtOnce};
    ghost use Rattle.quick_calls.specs.QuickTables.{QuickTable, piece_of_outcome};
    ghost use Rattle.quick_calls.specs.QuickLaws.{QuickLaws};

    /// What the calls mean.
    ghost table: { QuickTable };

    /// The table meets the laws of tables of quick calls.
    ghost laws: { QuickLaws table };

    /// Whether a call is the table's own, whatever bytes it has.
    fn owns(call: BareCall) -> bool
        ensures { (bytes : List ℕ) → result ≡ table.owns (call_with call bytes) };

    /// Why a call of process p is refused at once, if it is, whatever bytes it has.
    fn refusal(p: u8, call: BareCall) -> Option<Refusal>
        ensures { (bytes : List ℕ) → result ≡ table.refusal p (call_with call bytes) };

    /// The objects that a call needs, in order, put into a list that is empty.
    fn need<B: Policy>(work: &Work, store: &Store<B>, needs: &mut Needs)
        requires empty { needs.old ≡ [] }
        requires alive { lives (queue_of store.now) work.now.caller ≡ true }
        requires caller { work.now.caller < 16 }
        requires granted { table.refusal work.now.caller (call_of work.now) ≡ None }
        ensures { needs.new ≡ table.need (call_of work.now) (objects_of store.now)
            work.now.caller };

    /// What a call does to the store, in one piece, and its answer or refusal.
    fn piece<B: Policy>(work: &Work, store: &mut Store<B>) -> Next
        requires alive { lives (queue_of store.old) work.now.caller ≡ true }
        requires caller { work.now.caller < 16 }
        requires granted { table.refusal work.now.caller (call_of work.now) ≡ None }
        ensures { EndsAtOnce (λ blocks. piece_of_outcome (objects_of store.old) blocks
            (table.does (call_of work.now) (objects_of store.old) work.now.caller))
            store.old store.new result };
}
