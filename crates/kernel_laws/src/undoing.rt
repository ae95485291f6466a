//! Laws of what accessors change.

ghost use Rattle.kernel_laws.specs.Undoing.{InversesCommute, InversesUndo, InversesChangeOneObject};
ghost use Rattle.kernel_laws.specs.Undoing.{ChangesAreOfOneObject, RecordsLeadBack};

/// Inverses of distinct objects commute.
pub fn inverses_commute()
    ensures { InversesCommute }
{}

/// An inverse undoes the change of the accessor that recorded it.
pub fn inverses_undo()
    ensures { InversesUndo }
{}

/// The records of accessors, newest first, lead back to the things before the first.
pub fn records_lead_back()
    ensures { RecordsLeadBack }
{}

/// An inverse changes its object alone.
pub fn inverses_change_one_object()
    ensures { InversesChangeOneObject }
{}

/// An accessor's change is of one object alone: of that which it needs, and exclusively.
pub fn changes_are_of_one_object()
    ensures { ChangesAreOfOneObject }
{}
