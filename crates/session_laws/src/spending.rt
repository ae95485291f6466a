//! A law of what instructions spend.

ghost use Rattle.session_laws.specs.Spending.{InstructionsArePaidFor};

/// An instruction with a step left adds one to what its graft's installer has spent, whichever
/// process's call runs it; one without is dropped uncharged. Each ledger stays.
pub fn instructions_are_paid_for()
    ensures { InstructionsArePaidFor }
{}
