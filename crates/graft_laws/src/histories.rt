//! Laws of where histories lead.

ghost use Rattle.graft_laws.specs.Points.{HistoriesHoldAnswers};
ghost use Rattle.graft_laws.specs.Unasked.{UnaskedIsUnseen};
ghost use Rattle.graft_laws.specs.Histories.{BeginningsReplay, InstructionsReplay, HistoriesReplay};
ghost use Rattle.graft_laws.specs.Histories.{DropsReplay, HistoriesAlike};

use kernel_model::Rules;

/// Where a graft call begins it is sound, and as in the state.
pub fn beginnings_replay<R: Rules>()
    ensures { BeginningsReplay R.meaning }
{}

/// After an instruction that goes on, a graft call is sound, and as in the state but for what its
/// levels hold exclusively.
pub fn instructions_replay()
    ensures { InstructionsReplay }
{}

/// So it is wherever a history leads.
pub fn histories_replay<R: Rules>()
    ensures { HistoriesReplay R.meaning }
{}

/// And after the drop of any level; with level 0 all but accounts and grafts is as in the state.
pub fn drops_replay()
    ensures { DropsReplay }
{}

/// A history leads to the like from another state that agrees on what the call holds in the end.
pub fn histories_alike<R: Rules>()
    ensures { HistoriesAlike R.meaning }
{}

/// Level 0 holds what tells whether the answer of its point is valid, wherever a history leads.
pub fn histories_hold_answers<R: Rules>()
    ensures { HistoriesHoldAnswers R.meaning }
{}

/// What a call in a graft doesn't hold or need, it can't tell: from each state that agrees on what it
/// holds and next needs it comes to the same, unto the answer that completes it.
pub fn unasked_is_unseen<R: Rules>()
    ensures { UnaskedIsUnseen R.meaning }
{}
