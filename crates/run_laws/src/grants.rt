//! Laws of what all grafts of a run take together.

ghost use Rattle.script_model.specs.AllCalls.{all_calls};
ghost use Rattle.run_laws.specs.Grants.{SpentWithinGrant, SpendsNoSteps};
ghost use Rattle.run_laws.specs.Grants.{GrantsBoundGrafts, GrantsBoundAllGrafts};

/// In each kernel of a run all processes together have spent at most the grant, of each kind.
pub fn spent_within_grant()
    ensures { SpentWithinGrant }
{}

/// No piece of a system call spends a step, or gives one back.
pub fn all_calls_spend_no_steps()
    ensures { SpendsNoSteps all_calls }
{}

/// All grafts of a run together take at most the grant's instructions, and one for each drop, with
/// each table whose pieces spend no step.
pub fn grants_bound_grafts()
    ensures { GrantsBoundGrafts }
{}

/// So it is in each run of the program.
pub fn grants_bound_all_grafts()
    ensures { GrantsBoundAllGrafts }
{}
