//! Laws of what keeps states sound.

ghost use Rattle.kernel_model.specs.Claims.{ChangesWhatIsHeld, ConfigsStaySound, EffectsStaySound, MoreImages};
ghost use Rattle.kernel_model.specs.Laws.{RefusalsChangeNothing};
ghost use Rattle.kernel_laws.specs.Soundness.{OpeningIsSound, OpeningKernelIsSound};
ghost use Rattle.kernel_laws.specs.Soundness.{PiecesStaySound, InstructionsWork, HistoriesWork};
ghost use Rattle.kernel_laws.specs.Soundness.{DropsStaySound};

use kernel_model::Rules;

/// The state after boot is sound, where what no call changes is within the limits and the files lie
/// on the disk.
pub fn opening_is_sound()
    ensures { OpeningIsSound }
{}

/// The kernel after boot is sound, where the same holds.
pub fn opening_kernel_is_sound<R: Rules>()
    ensures { OpeningKernelIsSound R.meaning }
{}

/// A piece of a sound state, over whole blocks, leaves a sound state and whole blocks.
pub fn pieces_stay_sound<R: Rules>()
    ensures { PiecesStaySound R.meaning }
{}

/// A piece that is refused changes neither the state nor the disk's blocks, but for a `sync`, which
/// keeps what it wrote.
pub fn refusals_change_nothing<R: Rules>()
    ensures { RefusalsChangeNothing R.meaning }
{}

/// An instruction of a graft call keeps sound what the call works on, the working state and what
/// each level found, changes of it only what grafts may change, and completes the call only with an
/// answer that its point accepts.
pub fn instructions_work()
    ensures { InstructionsWork }
{}

/// Wherever a history leads from a sound store, the graft call works on it in that sense.
pub fn histories_work<R: Rules>()
    ensures { HistoriesWork R.meaning }
{}

/// A sound graft call is sound after each instruction that doesn't end it.
pub fn configs_stay_sound()
    ensures { ConfigsStaySound }
{}

/// A sound graft call is sound after the drop of a level, by a time-out too, if a level is left.
pub fn drops_stay_sound()
    ensures { DropsStaySound }
{}

/// An effect that is made again leaves a sound store.
pub fn effects_stay_sound()
    ensures { EffectsStaySound }
{}

/// An instruction of a sound graft call changes nothing but what some level holds exclusively,
/// before it or after it.
pub fn changes_what_is_held()
    ensures { ChangesWhatIsHeld }
{}

/// An instruction is the same once more images are loaded.
pub fn more_images()
    ensures { MoreImages }
{}
