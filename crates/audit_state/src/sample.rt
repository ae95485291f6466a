//! What no line changes once a run has booted.

ghost use Rattle.audit_state.specs.Worlds.{RowsAre};

/// The entries of the sample disk's directory are these.
pub fn rows_are()
    ensures { RowsAre }
{}
