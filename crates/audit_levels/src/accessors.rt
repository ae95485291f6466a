//! What a plain accessor makes of its level.

ghost use Rattle.std.specs.Prelude.{◌≡◌, ◌∷◌, ℕ, List, IfOk, OnOk, slice_index};
ghost use Rattle.std.specs.Prelude.{true, false, [], ◌+◌, ◌==◌};
ghost use Rattle.kernel_model.specs.declared.Object.TheVariants.{Lock};
ghost use Rattle.kernel_model.specs.Access.{bare_found};
ghost use Rattle.kernel_model.specs.Objects.{Objects};
ghost use Rattle.kernel_model.specs.Locks.{is_held};
ghost use Rattle.std.specs.List.{list_any};
ghost use Rattle.graft_loader.specs.Slots.{table_of};
ghost use Rattle.kernel_model.specs.Levels as calls;
ghost use Rattle.kernel_model.specs.GraftStep as model;
ghost use Rattle.audit_machine.specs.Machine.{machine_of};
ghost use Rattle.audit_state.specs.Access.{access_of, Keeps};
ghost use Rattle.audit_state.specs.Accounts.{accounts_of};
ghost use Rattle.audit_state.specs.Things.{things_of};
ghost use Rattle.audit_state.specs.Worlds.{world_of};
ghost use Rattle.audit_levels.specs.Levels.{level_of, levels_of, now_of, config_of, outcome_of};

use crate::drops::{drop_innermost, goes_on};
use crate::machines::put_result;
use crate::touched::{is_held, touch};
use crate::{Config, Effect, Level, Outcome, Place, Record};
use audit_state::access::accessed;
use audit_state::policies::byte_of;
use audit_state::{Accessed, Accounts};
use audit_table::put_first;
use kernel_model::{Cause, Inverse, Kind, NoMemory, Object};

/// The accessor that takes a user lock.
const TAKE_LOCK: u32 = 12;

/// The most records of a call.
const MOST_RECORDS: usize = 64;

/// The lock of this number, if it has room.
fn lock_of(u: u32) -> Result<Object, NoMemory>
    ensures { IfOk result (λ o. o ≡ Lock u) }
{
    Ok(Object::Lock(byte_of(u)?))
}

/// Whether some level holds an object.
fn is_held_by_some(levels: &[Level], object: Object) -> bool
    ensures { (bytes : ℕ → List ℕ) → result
        ≡ list_any (λ (l : calls.Level). is_held (l.touched object)) (levels_of bytes levels.now) }
{
    match levels {
        [] => false,
        [l, rest @ ..] => is_held(&l.touched, object) || is_held_by_some(rest, object),
    }
}

/// Whether taking a lock is to be paid for: no level of the call holds it, neither this one nor one
/// outside it.
fn is_lock_due(id: u32, l: &Level, outer: &[Level]) -> Result<bool, NoMemory>
    ensures { IfOk result (λ due. (bytes : ℕ → List ℕ) → due ≡ model.is_lock_due id
        (slice_index l.now.machine.regs 0) (level_of bytes l.now ∷ levels_of bytes outer.now)) }
{
    if id != TAKE_LOCK {
        return Ok(false);
    }
    let object = lock_of(l.machine.regs[0])?;
    Ok(!(is_held(&l.touched, object) || is_held_by_some(outer, object)))
}

/// How many records the levels have together.
fn record_count(levels: &[Level]) -> Result<usize, NoMemory>
    ensures { IfOk result (λ n. (bytes : ℕ → List ℕ) →
        n ≡ model.record_count (levels_of bytes levels.now)) }
{
    match levels {
        [] => Ok(0),
        [l, rest @ ..] => sum(l.records.len(), record_count(rest)?),
    }
}

/// The sum, if it has room.
fn sum(a: usize, b: usize) -> Result<usize, NoMemory>
    ensures { IfOk result (λ s. s ≡ a + b) }
{
    match a.checked_add(b) {
        Some(s) => Ok(s),
        None => Err(NoMemory),
    }
}

/// Whether a level can make no record: nobody pays for it, or the call has 64.
pub(crate) fn is_record_spent(
    accounts: &Accounts,
    l: &Level,
    outer: &[Level],
) -> Result<bool, NoMemory>
    ensures { IfOk result (λ spent. (bytes : ℕ → List ℕ) →
        spent ≡ model.is_record_spent (accounts_of accounts.now) (level_of bytes l.now)
        (levels_of bytes outer.now)) }
{
    let count = sum(l.records.len(), record_count(outer)?)?;
    Ok(accounts.funds(l.owner, l.point, Kind::Records) == 0 || count == MOST_RECORDS)
}

/// A level after an accessor: its result is in r0, and its object is touched.
fn put_access(l: &mut Level, id: u32, r: u32) -> Result<(), NoMemory>
    ensures { OnOk result ((bytes : ℕ → List ℕ) → level_of bytes l.new
        ≡ model.after_access (level_of bytes l.old) (machine_of l.old.machine) id r) }
{
    let need = accessed(id, l.machine.regs[0], l.owner)?;
    touch(&mut l.touched, need.object, need.mode)?;
    put_result(&mut l.machine, r);
    Ok(())
}

/// An accessor that changes nothing gives its result.
fn read_done(
    place: &Place<'_>,
    config: &mut Config,
    mut l: Level,
    id: u32,
    r: u32,
) -> Result<Outcome, NoMemory>
    ensures { IfOk result (λ o. (bytes : ℕ → List ℕ) →
        outcome_of o (config_of bytes config.new)
        ≡ model.read_done (now_of bytes config.old) (level_of bytes l)
        (levels_of bytes config.old.levels.items) (machine_of l.machine) id r) }
{
    put_access(&mut l, id, r)?;
    put_first(&mut config.levels, l)?;
    Ok(goes_on(place))
}

/// One of locks is charged to the level, which goes on with its result.
fn pay_lock(
    place: &Place<'_>,
    config: &mut Config,
    l: Level,
    id: u32,
    r: u32,
) -> Result<Outcome, NoMemory>
    ensures { IfOk result (λ o. (bytes : ℕ → List ℕ) →
        outcome_of o (config_of bytes config.new)
        ≡ model.lock_paid (world_of place.now.world.now) (now_of bytes config.old)
        (level_of bytes l) (levels_of bytes config.old.levels.items) (machine_of l.machine) id r
        false) }
{
    let point = l.point;
    config.accounts.charge(l.owner, point, Kind::Locks)?;
    let mut outcome = read_done(place, config, l, id, r)?;
    put_first(&mut outcome.effects, Effect::Charged(point, Kind::Locks))?;
    Ok(outcome)
}

/// The result, once a lock is paid for where that is due.
fn after_result(
    place: &Place<'_>,
    config: &mut Config,
    l: Level,
    id: u32,
    r: u32,
) -> Result<Outcome, NoMemory>
    ensures { IfOk result (λ o. (bytes : ℕ → List ℕ) →
        outcome_of o (config_of bytes config.new)
        ≡ model.after_result (world_of place.now.world.now) (now_of bytes config.old)
        (level_of bytes l) (levels_of bytes config.old.levels.items) (machine_of l.machine) id r
        (model.is_lock_due id (slice_index l.machine.regs 0)
        (level_of bytes l ∷ levels_of bytes config.old.levels.items))) }
{
    let due = is_lock_due(id, &l, &config.levels)?;
    if !due {
        read_done(place, config, l, id, r)
    } else if config.accounts.funds(l.owner, l.point, Kind::Locks) == 0 {
        drop_innermost(place, config, l, Cause::SpentLocks)
    } else {
        pay_lock(place, config, l, id, r)
    }
}

/// A change that was made is recorded, and its level goes on.
fn put_record(
    place: &Place<'_>,
    config: &mut Config,
    mut l: Level,
    id: u32,
    r: u32,
    inverse: Inverse,
) -> Result<Outcome, NoMemory>
    ensures { IfOk result (λ o. (bytes : ℕ → List ℕ) →
        let done = model.after_access (level_of bytes l) (machine_of l.machine) id r in
        outcome_of o (config_of bytes config.new)
        ≡ calls.goes_on (now_of bytes config.old) (record done {
          records = bare_found inverse ∷ done.records;
        } ∷ levels_of bytes config.old.levels.items)) }
{
    put_access(&mut l, id, r)?;
    let found = Record {
        inverse,
        kept: None,
    };
    put_first(&mut l.records, found)?;
    put_first(&mut config.levels, l)?;
    Ok(goes_on(place))
}

/// A change that was made is charged and recorded, and its object is held exclusively.
fn record_change(
    place: &Place<'_>,
    config: &mut Config,
    l: Level,
    id: u32,
    r: u32,
    inverse: Inverse,
) -> Result<Outcome, NoMemory>
    ensures { IfOk result (λ o. (bytes : ℕ → List ℕ) (w : Objects) →
        w.accounts ≡ accounts_of config.old.accounts →
        outcome_of o (config_of bytes config.new)
        ≡ model.after_change (world_of place.now.world.now) w (level_of bytes l)
        (levels_of bytes config.old.levels.items) (machine_of l.machine) id r inverse
        (things_of bytes config.old.things) false) }
{
    let point = l.point;
    config.accounts.charge(l.owner, point, Kind::Records)?;
    let mut outcome = put_record(place, config, l, id, r, inverse)?;
    put_first(&mut outcome.effects, Effect::Charged(point, Kind::Records))?;
    Ok(outcome)
}

/// What follows from a change that was made: the level is dropped where no record can be made.
fn after_change(
    place: &Place<'_>,
    config: &mut Config,
    l: Level,
    id: u32,
    r: u32,
    inverse: Inverse,
) -> Result<Outcome, NoMemory>
    ensures { IfOk result (λ o. (bytes : ℕ → List ℕ) (w : Objects) →
        w.accounts ≡ accounts_of config.old.accounts →
        outcome_of o (config_of bytes config.new)
        ≡ model.after_change (world_of place.now.world.now) w (level_of bytes l)
        (levels_of bytes config.old.levels.items) (machine_of l.machine) id r inverse
        (things_of bytes config.old.things)
        (model.is_record_spent w.accounts (level_of bytes l)
        (levels_of bytes config.old.levels.items))) }
{
    let spent = is_record_spent(&config.accounts, &l, &config.levels)?;
    if spent {
        drop_innermost(place, config, l, Cause::SpentRecords)
    } else {
        record_change(place, config, l, id, r, inverse)
    }
}

/// What follows from what an accessor came to, which worked on these objects.
fn after_accessor(
    place: &Place<'_>,
    config: &mut Config,
    l: Level,
    id: u32,
    did: Accessed,
) -> Result<Outcome, NoMemory>
    ensures { IfOk result (λ o. (bytes : ℕ → List ℕ) (w : Objects) →
        w.accounts ≡ accounts_of config.old.accounts →
        Keeps did w.things (things_of bytes config.old.things) →
        outcome_of o (config_of bytes config.new)
        ≡ model.after_accessor (world_of place.now.world.now) w (level_of bytes l)
        (levels_of bytes config.old.levels.items) (machine_of l.machine) id
        (access_of did (things_of bytes config.old.things))) }
{
    match did {
        Accessed::Gives(r) => after_result(place, config, l, id, r),
        Accessed::Changes(r, inverse) => after_change(place, config, l, id, r, inverse),
        Accessed::Refuses(cause) => drop_innermost(place, config, l, cause),
    }
}

/// A plain accessor of a level, whose machine has made the call.
pub(crate) fn call_accessor(
    place: &Place<'_>,
    config: &mut Config,
    l: Level,
    id: u32,
) -> Result<Outcome, NoMemory>
    ensures { IfOk result (λ o. (bytes : ℕ → List ℕ) →
        outcome_of o (config_of bytes config.new)
        ≡ model.granted_call (world_of place.now.world.now) (table_of place.now.images.now)
        (now_of bytes config.old) place.now.process (level_of bytes l)
        (levels_of bytes config.old.levels.items) (machine_of l.machine) id false) }
{
    let args = [l.machine.regs[0], l.machine.regs[1], l.machine.regs[2]];
    let did = config.things.access(place.alloc, id, args, l.owner)?;
    after_accessor(place, config, l, id, did)
}
