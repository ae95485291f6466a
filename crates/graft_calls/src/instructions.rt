//! One instruction of the innermost level.

ghost use Rattle.std.specs.Prelude.{◌≡◌, ℕ, suc, ◌<◌, ◌≤◌, ◌∷◌, [], length, slice_index, true, false, None, List};
ghost use Rattle.kernel_model.specs.Access.{early_refusal};
ghost use Rattle.kernel_model.specs.GraftStep.{micro, micro_on, after_machine as after_step, after_call};
ghost use Rattle.kernel_state.specs.Stores.{world_of_store, objects_of};
ghost use Rattle.graft_levels.specs.Cpu.{done_of};
ghost use Rattle.graft_levels.specs.Slots.{table_of};
ghost use Rattle.graft_levels.specs.Chains.{came, call_of, levels_of, HasAnswer, levels_taken};
ghost use Rattle.graft_levels.specs.Calls.{IsInPlace, IsTakenInPlace, IsElsewhereSame, HasWrittenOwn, with_innermost};
ghost use Rattle.graft_levels.specs.Moments.{StaysInPlace, chain_moment, part_at};

use crate::accessors::{Accessed, access};
use crate::asks::ask;
use crate::returns::offer;
use accessor_list::early;
use graft_levels::answers::arguments;
use graft_levels::charges::charge_step;
use graft_levels::laws::stores_are_whole;
use graft_levels::{Chain, Images, Innermost, LockTable, Outcome, code_of, drop_innermost};
use kernel_model::{Cause, LAST_CALLABLE, Micro};
use kernel_state::{GraftPoint, Policy, Store};

/// What a call comes to. The machine is behind it.
fn call<B: Policy>(
    id: u32,
    inner: Innermost,
    chain: &mut Chain,
    store: &mut Store<B>,
    locks: &mut LockTable,
    images: &Images,
) -> Micro
    requires in_place { IsTakenInPlace store.old locks.old (table_of images.now) inner chain.old }
    ensures step { came (part_at (λ v w l ls. after_call v (table_of images.now) w
        inner.process l ls l.machine id
        (early_refusal v.callable id (l.machine.regs 0) (l.machine.regs 1) l.owner))
        inner (chain_moment store.old locks.old chain.old))
        ≡ (result, call_of store.new locks.new chain.new inner.process) }
    ensures kept { StaysInPlace (table_of images.now) inner
        (chain_moment store.old locks.old chain.old) (chain_moment store.new locks.new chain.new) }
{
    if id > LAST_CALLABLE {
        return drop_innermost(inner, chain, store, locks, Cause::NotCallable(id));
    }
    match early(id, arguments(&inner.level.machine), inner.level.owner) {
        Err(cause) => drop_innermost(inner, chain, store, locks, cause),
        Ok(Some((object, mode))) => {
            access(Accessed { id, object, mode }, inner, chain, store, locks)
        }
        Ok(None) => ask(id, inner, chain, store, locks, images),
    }
}

/// What follows from what the machine of a level did, which was taken out of the chain.
fn after_machine<B: Policy>(
    done: Outcome,
    inner: Innermost,
    chain: &mut Chain,
    store: &mut Store<B>,
    locks: &mut LockTable,
    images: &Images,
) -> Micro
    requires in_place { IsTakenInPlace store.old locks.old (table_of images.now) inner chain.old }
    ensures step { came (part_at (λ v w l ls. after_step v (table_of images.now) inner.process
        w l ls (done_of done l.machine)) inner (chain_moment store.old locks.old chain.old))
        ≡ (result, call_of store.new locks.new chain.new inner.process) }
    ensures answer { HasAnswer result store.new.ram inner.process
        (levels_taken store.old locks.old inner chain.old) }
    ensures returned { (registers : List ℕ) → result ≡ Micro.Completed registers →
        done ≡ Outcome.Returned }
    ensures kept { StaysInPlace (table_of images.now) inner
        (chain_moment store.old locks.old chain.old) (chain_moment store.new locks.new chain.new) }
{
    match done {
        Outcome::Went => {
            chain.levels.push(inner.level);
            Micro::Went
        }
        Outcome::Called(id) => call(id, inner, chain, store, locks, images),
        Outcome::Returned => offer(inner, chain, store, locks, images),
        Outcome::DividedByZero => {
            drop_innermost(inner, chain, store, locks, Cause::DivideByZero)
        }
        Outcome::Trapped(code) => { drop_innermost(inner, chain, store, locks, Cause::Trap(code)) }
    }
}

/// One instruction of a level that was taken out of the chain: it is charged and done, or the level
/// is dropped where no step is left.
fn run_level<B: Policy>(
    inner: Innermost,
    chain: &mut Chain,
    store: &mut Store<B>,
    locks: &mut LockTable,
    images: &Images,
) -> Micro
    requires in_place { IsTakenInPlace store.old locks.old (table_of images.now) inner chain.old }
    ensures step { came (micro_on (world_of_store store.old) (table_of images.now)
        inner.process (objects_of store.old)
        (levels_taken store.old locks.old inner chain.old))
        ≡ (result, call_of store.new locks.new chain.new inner.process) }
    ensures answer { HasAnswer result store.new.ram inner.process
        (levels_taken store.old locks.old inner chain.old) }
    ensures in_place { IsInPlace store.new locks.new
        (table_of images.now) inner.process chain.new.levels chain.new.undo }
    ensures elsewhere { IsElsewhereSame store.old store.new locks.old locks.new inner.process }
    ensures memory { HasWrittenOwn inner.process (with_innermost inner chain.old)
        chain.new.levels store.old.ram store.new.ram }
{
    let mut inner = inner;
    let level = &mut inner.level;
    let at = GraftPoint {
        process: level.owner,
        point: level.point,
    };
    let code = code_of(images, &store.accounts, at);
    if !charge_step(level, &mut store.accounts) {
        return drop_innermost(inner, chain, store, locks, Cause::SpentSteps);
    }
    stores_are_whole(store);
    let done = inner.level.machine.step(&mut store.ram, code);
    after_machine(done, inner, chain, store, locks, images)
}

/// One instruction of the innermost level, whatever another call holds. `Completed` has the
/// answer of level 0, and then no level is left, but its segment stays as it was in memory,
/// where the answer's body stands. `Dropped` has the number of the level that was dropped, its
/// graft and the cause. `Blocked` isn't answered.
pub fn instruction<B: Policy>(
    chain: &mut Chain,
    p: u8,
    store: &mut Store<B>,
    locks: &mut LockTable,
    images: &Images,
) -> Micro
    requires in_place { IsInPlace store.old locks.old
        (table_of images.now) p chain.old.levels chain.old.undo }
    ensures step { came (micro (world_of_store store.old) (table_of images.now) p
        (call_of store.old locks.old chain.old p))
        ≡ (result, call_of store.new locks.new chain.new p) }
    ensures answer { HasAnswer result store.new.ram p
        (levels_of store.old locks.old chain.old p) }
    ensures in_place { IsInPlace store.new locks.new
        (table_of images.now) p chain.new.levels chain.new.undo }
    ensures elsewhere { IsElsewhereSame store.old store.new locks.old locks.new p }
    ensures memory { HasWrittenOwn p chain.old.levels
        chain.new.levels store.old.ram store.new.ram }
{
    match chain.levels.pop() {
        Some(level) => run_level(Innermost { process: p, level }, chain, store, locks, images),
        None => Micro::Went,
    }
}
