//! Laws of the histories of calls.

ghost use Rattle.kernel_model.specs.Claims.{FallsReplay};
ghost use Rattle.graft_laws.specs.SoundCalls.{CallsAreSound};

use kernel_model::Rules;

/// Where a level above the outermost is dropped, by an instruction or a time-out, the history that
/// results leads to the config that the drop gave, if the level's graft stood.
pub fn falls_replay<R: Rules>()
    ensures { FallsReplay R.meaning }
{}

/// The history of each call of a sound kernel leads to a sound graft call.
pub fn calls_are_sound<R: Rules>()
    ensures { CallsAreSound R.meaning }
{}
