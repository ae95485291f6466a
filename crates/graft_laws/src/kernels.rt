//! Laws of what keeps abstract kernels sound.

ghost use Rattle.graft_laws.specs.Kernels.{StepsStaySound, DropsStaySound, SettlingStaysSound};
ghost use Rattle.graft_laws.specs.Kernels.{EventsStaySound, ImagesStaySound, CallsReplay};

use kernel_model::Rules;

/// A step of a call that nothing blocks keeps the kernel sound, and the disk's blocks whole.
pub fn steps_stay_sound<R: Rules>()
    ensures { StepsStaySound R.meaning }
{}

/// So does the drop of one of a call's levels.
pub fn drops_stay_sound<R: Rules>()
    ensures { DropsStaySound R.meaning }
{}

/// And settling.
pub fn settling_stays_sound<R: Rules>()
    ensures { SettlingStaysSound R.meaning }
{}

/// And every event.
pub fn events_stay_sound<R: Rules>()
    ensures { EventsStaySound R.meaning }
{}

/// More images that are loaded keep the kernel sound, and leave each call in a graft where it is.
pub fn images_stay_sound<R: Rules>()
    ensures { ImagesStaySound R.meaning }
{}

/// In a sound kernel each call in a graft is sound, and as in the state but for what its levels
/// hold exclusively.
pub fn calls_replay<R: Rules>()
    ensures { CallsReplay R.meaning }
{}
