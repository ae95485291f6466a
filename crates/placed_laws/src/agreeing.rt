//! Laws of what a kernel in place and the abstract kernel that it stands for have in common.

ghost use Rattle.placed_laws.specs.Agreeing.{SameStages, SameBlockers, SameShown};

use kernel_model::Rules;

/// The same processes live, and stages fit and have pieces left alike.
pub fn same_stages<R: Rules>()
    ensures { SameStages R.meaning }
{}

/// The same calls block each other, want what hinders them in the same mode, and are free.
pub fn same_blockers<R: Rules>()
    ensures { SameBlockers R.meaning }
{}

/// The same rows and lines are shown, and calls are in a graft or at a piece alike.
pub fn same_shown<R: Rules>()
    ensures { SameShown R.meaning }
{}
