//! Laws of how much an event writes.

ghost use Rattle.graft_laws.specs.Notes.{LeavesFewNotes, CallsLeaveFewDrops, EventsLeaveFewNotes};

use kernel_model::Rules;

/// An event from a sound kernel leaves at most 16 ends, 240 notes of bytes and two further lines,
/// drops left out.
pub fn leaves_few_notes<R: Rules>()
    ensures { LeavesFewNotes R.meaning }
{}

/// A system call from a sound kernel leaves at most 16 drops.
pub fn calls_leave_few_drops<R: Rules>()
    ensures { CallsLeaveFewDrops R.meaning }
{}

/// An event from a sound kernel leaves at most 272 drops, and 530 notes in all.
pub fn events_leave_few_notes<R: Rules>()
    ensures { EventsLeaveFewNotes R.meaning }
{}
