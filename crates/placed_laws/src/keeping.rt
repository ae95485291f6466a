//! Laws that a kernel in place goes on to stand for the abstract kernel.

ghost use Rattle.placed_laws.specs.Keeping.{QuietKernelsStand, StepsStand, DropsStand, OthersStand};
ghost use Rattle.placed_laws.specs.Keeping.{EventsStand, HeldStays, ImagesKeepRest};

use kernel_model::Rules;

/// A sound kernel in which no call is in flight stands in place as it is.
pub fn quiet_kernels_stand<R: Rules>()
    ensures { QuietKernelsStand R.meaning }
{}

/// A step of a call that nothing blocks leaves a kernel in place that stands for the abstract one:
/// a piece, an instruction, its end or a fallen level.
pub fn steps_stand<R: Rules>()
    ensures { StepsStand R.meaning }
{}

/// So does the drop of one of a call's levels.
pub fn drops_stand<R: Rules>()
    ensures { DropsStand R.meaning }
{}

/// So do notes, calls that begin or end, entries of the order and its blockers, the clock, and
/// images.
pub fn others_stand<R: Rules>()
    ensures { OthersStand R.meaning }
{}

/// So does a whole event from a kernel at rest, which leaves one at rest: the same notes, blocks
/// and disk calls.
pub fn events_stand<R: Rules>()
    ensures { EventsStand R.meaning }
{}

/// What another call holds exclusively stays in the store through a step or a drop of one call.
pub fn held_stays<R: Rules>()
    ensures { HeldStays R.meaning }
{}

/// A kernel that rests goes on to rest where more images are loaded: the same calls are blocked, by
/// the same blockers.
pub fn images_keep_rest<R: Rules>()
    ensures { ImagesKeepRest R.meaning }
{}
