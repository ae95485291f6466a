//! Laws of the one store that holds what all calls in flight have done.

ghost use Rattle.kernel_model.specs.Claims.{InPlaceReads, UndoneIsBelow};

use kernel_model::Rules;

/// The store in place has what a call holds exclusively as the call's replay has it, and what none
/// holds so as it is committed.
pub fn in_place_reads<R: Rules>()
    ensures { InPlaceReads R.meaning }
{}

/// Undoing the calls that are cut, newest records first, one call after another in any order, gives
/// the store below the cut.
pub fn undone_is_below<R: Rules>()
    ensures { UndoneIsBelow R.meaning }
{}
