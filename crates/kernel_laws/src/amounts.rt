//! Laws of amounts.

ghost use Rattle.kernel_model.specs.Claims.{LedgersStay};
ghost use Rattle.kernel_laws.specs.Amounts.{GrantStays};

/// Charging what the payer has, and taking out a graft, leave what each process has, has spent and
/// has given to its grafts.
pub fn ledgers_stay()
    ensures { LedgersStay }
{}

/// Of each kind of amount a sound state has the grant in all, and charging, removing, giving and
/// funding leave it so.
pub fn grant_stays()
    ensures { GrantStays }
{}
