//! Laws of soundness.

ghost use Rattle.session_laws.specs.Sessions.{LinesStaySound, RunsAreSound};

/// Each kernel of a run over a disk of whole blocks is sound, and leaves the blocks whole.
pub fn runs_are_sound()
    ensures { RunsAreSound }
{}

/// After boot every line keeps the kernel of a script sound, and the disk's blocks whole.
pub fn lines_stay_sound()
    ensures { LinesStaySound }
{}
