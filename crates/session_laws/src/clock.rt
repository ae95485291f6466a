//! Laws of the clock.

ghost use Rattle.session_laws.specs.Clock.{ClockCountsTicks, ClockWithinEvents};

/// The clock of a run is the number of its lines that are run as ticks.
pub fn clock_counts_ticks()
    ensures { ClockCountsTicks }
{}

/// The clock of a run is at most the number of its events, whatever its lines say.
pub fn clock_within_events()
    ensures { ClockWithinEvents }
{}
