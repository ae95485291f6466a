//! The law of a stretch.

ghost use Rattle.placed_laws.specs.Stretch.{Stretches};

use kernel_model::Rules;

/// So many instructions of a call that each go on and call nothing are one change of the kernel in
/// place, after which it rests where it rested before.
pub fn stretches<R: Rules>()
    ensures { Stretches R.meaning }
{}
