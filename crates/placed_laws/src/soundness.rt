//! Laws of what is sound of a kernel in place.

ghost use Rattle.placed_laws.specs.Soundness.{SoundInPlace, ReadyInPlace};

use kernel_model::Rules;

/// The cache fits the disk, images are loaded, calls stand at their stages, and graft calls over
/// the store are sound.
pub fn sound_in_place<R: Rules>()
    ensures { SoundInPlace R.meaning }
{}

/// The pieces of calls are ready: at once by default, and where a graft call ends, with its answer
/// or by default.
pub fn ready_in_place<R: Rules>()
    ensures { ReadyInPlace R.meaning }
{}
