//! Laws of audits: what a run wrote over the sample disk, and nothing else, gets yes.
#![tactic(auto)]

ghost use Rattle.audit_laws.specs.Audited.{RunIsAudited, YesIsTheRun};

use failure_laws::no_failures_are_no_list;
use run_audit::yes_is_equal;

/// What a run of the program writes over the sample disk, where no call of the disk fails, gets yes.
pub fn run_is_audited()
    ensures { RunIsAudited }
{
    no_failures_are_no_list();
    yes_is_equal();
}

/// A claim that gets yes is what such a run writes.
pub fn yes_is_the_run()
    ensures { YesIsTheRun }
{
    no_failures_are_no_list();
    yes_is_equal();
}
