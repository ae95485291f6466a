//! Laws of how events are answered.

ghost use Rattle.session_laws.specs.Answers.{EventsAreAnswered, RunsAnswer};

use script_model::Rules;

/// In a sound kernel that rests each call in flight waits or is in a graft, and the next system
/// call is answered: once, and by what it is then. So is the next `step`.
pub fn events_are_answered<R: Rules>()
    ensures { EventsAreAnswered R.meaning }
{}

/// So it is in each kernel of a run over a disk of whole blocks.
pub fn runs_answer()
    ensures { RunsAnswer }
{}
