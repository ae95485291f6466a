//! What instructions are charged.

ghost use Rattle.std.specs.Prelude.{◌≡◌, ◌≢◌, ◌+◌, ◌<◌, ◌≤◌, ◌==◌, ◌||◌, ◌&&◌, not, cond, length};
ghost use Rattle.kernel_model.specs.declared.Kind.TheVariants.{Steps, Records, Locks};
ghost use Rattle.kernel_model.specs.Charges.{charge, funds};
ghost use Rattle.kernel_model.specs.Levels.{limit_in};
ghost use Rattle.kernel_state.specs.Table.{accounts_of};
ghost use Rattle.undo_calls.specs.UndoLevels.{records_of};

use crate::GraftLevel;
use kernel_model::Kind;
use kernel_state::{Accounts, GraftPoint};
use undo_calls::{RECORDS, UndoStack};

/// Charges a level for one more instruction. False, with nothing changed, exactly where its count
/// is at the limit of its graft, or nobody pays for it.
pub fn charge_step(level: &mut GraftLevel, accounts: &mut Accounts) -> bool
    requires count { level.old.count ≤ limit_in
        ((accounts_of accounts.old).graft level.old.owner level.old.point) }
    ensures answer { result ≡ not (level.old.count == limit_in
        ((accounts_of accounts.old).graft level.old.owner level.old.point)
        || funds (accounts_of accounts.old) level.old.owner level.old.point Steps == 0) }
    ensures level { level.new
        ≡ cond result (record level.old { count = level.old.count + 1 }) level.old }
    ensures accounts { accounts_of accounts.new
        ≡ cond result (charge Steps level.old.owner level.old.point (accounts_of accounts.old))
        (accounts_of accounts.old) }
{
    let at = GraftPoint {
        process: level.owner,
        point: level.point,
    };
    if level.count == accounts.limit(at) {
        return false;
    }
    if !accounts.charge(at, Kind::Steps) {
        return false;
    }
    level.count += 1;
    true
}

/// Charges one of records. False, with nothing changed, exactly where nobody pays for it, or the
/// call has as many records as there may be.
pub fn charge_record(undo: &UndoStack, accounts: &mut Accounts, at: GraftPoint) -> bool
    ensures answer { result
        ≡ not (funds (accounts_of accounts.old) at.process at.point Records == 0
        || length (records_of undo.now) == 64) }
    ensures accounts { accounts_of accounts.new
        ≡ cond result (charge Records at.process at.point (accounts_of accounts.old))
        (accounts_of accounts.old) }
{
    undo.list().len() < RECORDS && accounts.charge(at, Kind::Records)
}

/// Whether no record can be made: nobody pays for it, or the call has as many records as there may
/// be.
pub fn is_record_spent(undo: &UndoStack, accounts: &Accounts, at: GraftPoint) -> bool
    ensures { result ≡ (funds (accounts_of accounts.now) at.process at.point Records == 0 || length
        (records_of undo.now) == 64) }
{
    accounts.funds(at, Kind::Records) == 0 || undo.list().len() == RECORDS
}

/// Charges one of records, which somebody pays for.
pub(crate) fn pay_record(accounts: &mut Accounts, at: GraftPoint)
    requires paid { funds (accounts_of accounts.old) at.process at.point Records ≢ 0 }
    ensures { accounts_of accounts.new
        ≡ charge Records at.process at.point (accounts_of accounts.old) }
{
    let _ = accounts.charge(at, Kind::Records);
}

/// Charges one of locks where that is due. False, with nothing changed, exactly where it is due and
/// nobody pays for it.
pub fn charge_lock(due: bool, accounts: &mut Accounts, at: GraftPoint) -> bool
    ensures answer { result
        ≡ not (due && funds (accounts_of accounts.old) at.process at.point Locks == 0) }
    ensures accounts { accounts_of accounts.new
        ≡ cond (due && result) (charge Locks at.process at.point (accounts_of accounts.old))
        (accounts_of accounts.old) }
{
    !due || accounts.charge(at, Kind::Locks)
}
