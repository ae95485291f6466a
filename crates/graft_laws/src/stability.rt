//! Laws of what a call's steps and drops leave to the other calls.

ghost use Rattle.kernel_model.specs.Claims.{Stability};
ghost use Rattle.graft_laws.specs.Stability.{CommitsWhatIsTaken};

use kernel_model::Rules;

/// A step of a call, or the drop of a level, commits changes only of what the call holds
/// exclusively, or needs so for a piece.
pub fn commits_what_is_taken<R: Rules>()
    ensures { CommitsWhatIsTaken R.meaning }
{}

/// Whatever another call does or loses, the replay of a call in a graft has the same levels and the
/// same values of what they hold.
pub fn calls_are_stable<R: Rules>()
    ensures { Stability R.meaning }
{}
