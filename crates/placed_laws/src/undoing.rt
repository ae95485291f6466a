//! Laws of undoing in the one store.

ghost use Rattle.placed_laws.specs.Undone.{UndoneInPlace, UndoneIsCommitted, CallsUndoToCommitted};
ghost use Rattle.placed_laws.specs.Undone.{DropsLeadToStoreBelow, DropsLeaveTheStoreBelow};

use kernel_model::Rules;

/// Undoing calls in the one store, newest records first, one call after another in any order, gives
/// what the abstract kernel's store has below the cut.
pub fn undone_in_place<R: Rules>()
    ensures { UndoneInPlace R.meaning }
{}

/// The drop of a level leaves each thing as the abstract kernel's store has it below that level, and
/// takes out the level's graft.
pub fn drops_undo<R: Rules>()
    ensures { DropsLeaveTheStoreBelow R.meaning }
{}

/// Undoing all calls in flight, each from its outermost level on, leads back to the committed things;
/// accounts and grafts stay as they are.
pub fn undone_is_committed<R: Rules>()
    ensures { UndoneIsCommitted R.meaning }
{}

/// Undoing all calls in flight in the one store, one after another in any order, leads back to the
/// committed things; accounts and grafts stay as they are.
pub fn calls_undo_to_committed<R: Rules>()
    ensures { CallsUndoToCommitted R.meaning }
{}

/// What a drop leaves in the one store is the abstract kernel's store below the level, and the
/// accounts, without the level's graft.
pub fn drops_lead_to_store_below<R: Rules>()
    ensures { DropsLeadToStoreBelow R.meaning }
{}
