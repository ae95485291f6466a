//! Laws of the clock.

ghost use Rattle.kernel_laws.specs.Clock.{TicksRaiseTheClock, OthersLeaveTheClock};

use kernel_model::Rules;

/// A tick raises the clock by one.
pub fn ticks_raise_the_clock<R: Rules>()
    ensures { TicksRaiseTheClock R.meaning }
{}

/// No other event changes the clock.
pub fn others_leave_the_clock<R: Rules>()
    ensures { OthersLeaveTheClock R.meaning }
{}
