//! Laws of ticks.

ghost use Rattle.graft_laws.specs.Ticks.{TicksEnd};

use kernel_model::Rules;

/// A tick's 288 actions leave no count at its patience.
pub fn ticks_end<R: Rules>()
    ensures { TicksEnd R.meaning }
{}
