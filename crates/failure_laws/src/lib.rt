//! Laws of the lists that say which calls of the disk fail: nothing else of them matters.
#![tactic(auto)]

ghost use Rattle.script_model.specs.AllCalls.{all_calls};
ghost use Rattle.failure_laws.specs.Failures.{SeesFailures, EventsSeeFailures, LinesSeeFailures};
ghost use Rattle.failure_laws.specs.Failures.{OutcomesSeeFailures, NoFailuresAreNoList};

/// A piece of a system call looks at which calls of the disk fail, and at nothing else of their
/// list.
pub fn all_calls_see_failures()
    ensures { SeesFailures all_calls }
{}

/// With each such table an event leaves the same kernel, blocks and notes, where two lists say the
/// same of each call.
pub fn events_see_failures()
    ensures { EventsSeeFailures }
{}

/// So a line makes the same of a session, and writes the same bytes.
pub fn lines_see_failures()
    ensures { LinesSeeFailures }
{}

/// So a whole run has the same outcome.
pub fn outcomes_see_failures()
    ensures { OutcomesSeeFailures }
{}

/// A run of the program of which no call of the disk fails has the outcome of the run that is told
/// of no call.
pub fn no_failures_are_no_list()
    ensures { NoFailuresAreNoList }
{}
