//! Laws of what a `serve` sends.

ghost use Rattle.script_model.specs.AllCalls.{all_calls};
ghost use Rattle.session_laws.specs.Served.{MeansServe, ServesTellAnswers, EachServeTellsAnswers};
ghost use Rattle.session_laws.specs.Served.{EachLineTellsAnswers, RunsTellAnswers};

/// The bytes that a `serve` gives are those of the handlers that completed, in their order, and the
/// number with which it ends is theirs, whatever else the table of calls has.
pub fn serves_tell_answers()
    ensures { EachServeTellsAnswers }
{}

/// The `serve` of all calls is that of the event points.
pub fn all_calls_serve()
    ensures { MeansServe all_calls }
{}

/// So it is with the table of all calls.
pub fn all_calls_tell_answers()
    ensures { ServesTellAnswers all_calls }
{}

/// Over the lines of a script, images among them: the notes of each line that is run as a `serve`
/// tell its answers, whatever else the table of calls has.
pub fn lines_tell_answers()
    ensures { EachLineTellsAnswers }
{}

/// So it is in each run of the program, from its first line on and over any disk.
pub fn runs_tell_answers()
    ensures { RunsTellAnswers }
{}
