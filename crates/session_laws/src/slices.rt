//! A law of slices.

ghost use Rattle.session_laws.specs.Slices.{SlicesWithinEvents};

/// In each kernel of a run over a disk of whole blocks the slices of all processes, and one for
/// each call in flight, are together at most the number of the run's events.
pub fn slices_within_events()
    ensures { SlicesWithinEvents }
{}
