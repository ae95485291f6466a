//! What a plain accessor comes to.

ghost use Rattle.std.specs.Prelude.{◌≡◌, ◌≢◌, ℕ, suc, ◌<◌, ◌≤◌, ◌&&◌, ◌==◌, not, ◌∷◌, List, None};
ghost use Rattle.std.specs.Prelude.{Some, Ok, true, length, slice_index, is_some};
ghost use Rattle.kernel_model.specs.declared.Mode.TheVariants.{Exclusive};
ghost use Rattle.kernel_model.specs.declared.QueueRow.{QueueRow};
ghost use Rattle.kernel_model.specs.Access.{accessed};
ghost use Rattle.kernel_model.specs.GraftStep.{after_accessor, after_result, after_change};
ghost use Rattle.kernel_model.specs.GraftStep.{is_lock_due as lock_due, is_record_spent};
ghost use Rattle.kernel_model.specs.Laws.{IsInRange};
ghost use Rattle.kernel_model.specs.Levels.{answered, with_machine};
ghost use Rattle.kernel_model.specs.Locks.{LockTable as Table, outermost_holding, with_touch};
ghost use Rattle.kernel_model.specs.Objects.{Accounts, Things};
ghost use Rattle.kernel_model.specs.Policies as spec;
ghost use Rattle.kernel_model.specs.Sound.{ImagesAreLoaded};
ghost use Rattle.kernel_model.specs.World.{ImageTable};
ghost use Rattle.graft_accessors.specs.Accesses.{answer_of, things_after, CanBeUndone};
ghost use Rattle.kernel_state.specs.Stores.{world_of_store, objects_of};
ghost use Rattle.graft_levels.specs.Masks.{held};
ghost use Rattle.graft_levels.specs.UndoLevels.{Logged, bare, innermost, is_bare, recorded, records_of};
ghost use Rattle.graft_levels.specs.Chains.{level_on, outer_on, levels_in};
ghost use Rattle.graft_levels.specs.Calls.{AreSound, AreInside};
ghost use Rattle.graft_levels.specs.Moments.{Comes, HasRoom, chain_moment};
ghost use Rattle.graft_calls.specs.Accessors.{CanAccess, access_of, is_refused_early};

use accessor_list::ids;
use graft_accessors::{answer, apply};
use graft_levels::answers::arguments;
use graft_levels::charges::{charge_lock, charge_record};
use graft_levels::laws::stores_are_whole;
use graft_levels::{
    Chain, GraftLevel, Holder, Innermost, Levels, LockTable, UndoStack, drop_innermost,
};
use kernel_model::{Cause, Inverse, Micro, Mode, Object};
use kernel_state::{GraftPoint, Policy, Store};

/// A call of a plain accessor: its id, and what it looks at or changes, and how.
#[derive(Clone, Copy)]
pub(crate) struct Accessed {
    pub(crate) id: u32,
    pub(crate) object: Object,
    pub(crate) mode: Mode,
}

/// What an accessor that changes something comes to: its result, and what undoes the change.
#[derive(Clone, Copy)]
struct Changed {
    result: u32,
    inverse: Inverse,
}

/// A level goes on with a result in r0.
fn go_on(level: GraftLevel, r0: u32, levels: &mut Levels)
    requires { length levels.old < 4 }
    ensures levels { (p : ℕ) (ram : List ℕ) (t : Table) (log : List (List Logged)) (w : Things) →
        let l = level_on p ram t level levels.old log w in
        levels_in p ram t levels.new log w ≡ with_machine (answered spec.Victim r0 0 l.machine) l
        ∷ outer_on p ram t levels.old log w }
    ensures count { length levels.new ≡ suc (length levels.old) }
    ensures sound { (queue : List QueueRow) → AreSound queue (level ∷ levels.old) →
        AreSound queue levels.new }
    ensures inside { (images : ImageTable) (a : Accounts) (p : ℕ) →
        AreInside images a p (level ∷ levels.old) → AreInside images a p levels.new }
{
    let mut level = level;
    level.machine.set_reg(0, r0);
    levels.push(level);
}

/// Whether one of locks is to be paid for: a user lock is taken that no level of the call holds.
fn is_lock_due(id: u32, object: Object, p: u8, locks: &LockTable) -> bool
    requires { IsInRange object }
    ensures { result
        ≡ (id == 12 && not (is_some (outermost_holding object Exclusive (held locks.now p)))) }
{
    id == ids::TAKE_LOCK && locks.level_of(p, object, Mode::Exclusive).is_none()
}

/// An accessor gives a result, where nothing changes; a lock is paid for where that is due.
fn give<B: Policy>(
    call: Accessed,
    result_is: u32,
    inner: Innermost,
    chain: &mut Chain,
    store: &mut Store<B>,
    locks: &mut LockTable,
) -> Micro
    requires call { CanAccess store.old locks.old inner chain.old call }
    ensures { Comes inner (chain_moment store.old locks.old chain.old)
        (chain_moment store.new locks.new chain.new) result
        (λ v w l ls. after_result v w l ls l.machine call.id result_is
        (lock_due call.id (l.machine.regs 0) (l ∷ ls))) }
{
    let level = &inner.level;
    let due = is_lock_due(call.id, call.object, inner.process, locks);
    let at = GraftPoint {
        process: level.owner,
        point: level.point,
    };
    if !charge_lock(due, &mut store.accounts, at) {
        return drop_innermost(inner, chain, store, locks, Cause::SpentLocks);
    }
    let by = Holder {
        process: inner.process,
        level: chain.levels.count(),
    };
    locks.touch(by, call.object, call.mode);
    go_on(inner.level, result_is, &mut chain.levels);
    Micro::Went
}

/// A record comes to the innermost level of a log that has fewer than 64.
fn record(undo: &mut UndoStack, inverse_is: Inverse)
    requires room { HasRoom undo.old }
    requires bare { is_bare inverse_is ≡ true }
    ensures { undo.new ≡ recorded (bare inverse_is) undo.old }
{
    let _ = undo.push(inverse_is);
}

/// An accessor's change is charged, recorded and made, unless no record can be made.
fn change<B: Policy>(
    call: Accessed,
    changed: Changed,
    inner: Innermost,
    chain: &mut Chain,
    store: &mut Store<B>,
    locks: &mut LockTable,
) -> Micro
    requires call { CanAccess store.old locks.old inner chain.old call }
    requires early { is_refused_early call.id inner.level ≡ None }
    requires answer { answer_of (access_of call.id inner.level (objects_of store.old).things)
        ≡ Ok (record { result = changed.result; inverse = Some changed.inverse }) }
    requires undoable { CanBeUndone changed.inverse (objects_of store.old).things }
    ensures { Comes inner (chain_moment store.old locks.old chain.old)
        (chain_moment store.new locks.new chain.new) result
        (λ v w l ls. after_change v w l ls l.machine call.id changed.result changed.inverse
        (things_after (access_of call.id inner.level w.things) w.things)
        (is_record_spent w.accounts l ls)) }
{
    let level = &inner.level;
    let at = GraftPoint {
        process: level.owner,
        point: level.point,
    };
    if !charge_record(&chain.undo, &mut store.accounts, at) {
        return drop_innermost(inner, chain, store, locks, Cause::SpentRecords);
    }
    stores_are_whole(store);
    apply(store, call.id, arguments(&level.machine), level.owner);
    record(&mut chain.undo, changed.inverse);
    let by = Holder {
        process: inner.process,
        level: chain.levels.count(),
    };
    locks.touch(by, call.object, call.mode);
    go_on(inner.level, changed.result, &mut chain.levels);
    Micro::Went
}

/// What a plain accessor comes to that isn't refused by its arguments.
pub(crate) fn access<B: Policy>(
    call: Accessed,
    inner: Innermost,
    chain: &mut Chain,
    store: &mut Store<B>,
    locks: &mut LockTable,
) -> Micro
    requires call { CanAccess store.old locks.old inner chain.old call }
    requires early { is_refused_early call.id inner.level ≡ None }
    ensures { Comes inner (chain_moment store.old locks.old chain.old)
        (chain_moment store.new locks.new chain.new) result
        (λ v w l ls. after_accessor v w l ls l.machine call.id
        (access_of call.id inner.level w.things)) }
{
    match answer(
        store,
        call.id,
        arguments(&inner.level.machine),
        inner.level.owner,
    ) {
        Err(cause) => drop_innermost(inner, chain, store, locks, cause),
        Ok(answer) => match answer.inverse {
            Some(inverse) => {
                let changed = Changed {
                    result: answer.result,
                    inverse,
                };
                change(call, changed, inner, chain, store, locks)
            }
            None => give(call, answer.result, inner, chain, store, locks),
        },
    }
}
