//! Laws of how many instructions a level takes.

ghost use Rattle.session_laws.specs.Counts.{InstructionsKeepCounts, HistoriesKeepCounts, CallsKeepCounts};
ghost use Rattle.session_laws.specs.Counts.{CallsFit, RunsFit};

use script_model::Rules;

/// An instruction leaves the count of each level whose graft stands within that graft's limit.
pub fn instructions_keep_counts()
    ensures { InstructionsKeepCounts }
{}

/// So it is wherever a history leads, from any state.
pub fn histories_keep_counts<R: Rules>()
    ensures { HistoriesKeepCounts R.meaning }
{}

/// And so it is of each call of any kernel.
pub fn calls_keep_counts<R: Rules>()
    ensures { CallsKeepCounts R.meaning }
{}

/// In a sound kernel each level of each call has taken at most as many instructions as its graft's
/// limit.
pub fn calls_fit<R: Rules>()
    ensures { CallsFit R.meaning }
{}

/// So it is in each kernel of a run over a disk of whole blocks.
pub fn runs_keep_counts()
    ensures { RunsFit }
{}
