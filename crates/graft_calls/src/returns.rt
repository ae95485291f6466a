//! A level that ends with an answer of its own.

ghost use Rattle.std.specs.Prelude.{◌≡◌, ◌≢◌, ℕ, suc, ◌<◌, ◌≤◌, ◌∷◌, [], List, length, slice_index};
ghost use Rattle.kernel_model.specs.declared.Held.TheVariants.{Free};
ghost use Rattle.kernel_model.specs.declared.Object.{Object};
ghost use Rattle.kernel_model.specs.declared.QueueRow.{QueueRow};
ghost use Rattle.kernel_model.specs.GraftStep.{completed, after_answer, after_return, first_registers};
ghost use Rattle.kernel_model.specs.Levels.{answered, image_of, keeps_in};
ghost use Rattle.kernel_model.specs.Locks.{LockTable as Table, merge_level, release_from};
ghost use Rattle.kernel_model.specs.Objects.{Objects, Accounts, Things};
ghost use Rattle.kernel_model.specs.Policies.{kind_of, valid};
ghost use Rattle.kernel_model.specs.Sound.{ImagesAreLoaded};
ghost use Rattle.kernel_model.specs.World.{ImageTable};
ghost use Rattle.kernel_state.specs.Stores.{world_of_store, objects_of};
ghost use Rattle.graft_levels.specs.Masks.{held};
ghost use Rattle.graft_levels.specs.UndoLevels.{Logged, merged};
ghost use Rattle.graft_levels.specs.Cpu.{machine_of};
ghost use Rattle.graft_levels.specs.Slots.{table_of};
ghost use Rattle.graft_levels.specs.Chains.{came, HasAnswer, level_on, outer_on, levels_in, levels_taken};
ghost use Rattle.graft_levels.specs.Calls.{AreSound, AreInside, IsTaken};
ghost use Rattle.graft_levels.specs.Moments.{Comes, chain_moment};

use graft_levels::answers::answer;
use graft_levels::charges::is_record_spent;
use graft_levels::{
    Chain, GraftLevel, Holder, Images, Innermost, Levels, LockTable, Machine, base_of,
    drop_innermost, is_valid, keep, keeps,
};
use kernel_model::{Cause, Micro};
use kernel_state::{GraftPoint, Policy, Store};

/// The answer of a level: r0 to r3.
fn registers(machine: &Machine) -> [u32; 4]
    ensures { (ram : List ℕ) → result ≡ first_registers (machine_of machine.now ram) }
{
    [
        machine.reg(0),
        machine.reg(1),
        machine.reg(2),
        machine.reg(3),
    ]
}

/// The answer of a level goes to the one that asked, which is put back with what the level held.
fn join(level: GraftLevel, asker: GraftLevel, levels: &mut Levels, p: u8, locks: &mut LockTable)
    requires few { length levels.old < 3 }
    requires process { p < 16 }
    ensures levels { (q : ℕ) (ram : List ℕ) (t : Table) (log : List (List Logged)) (w : Things) →
        let k = level_on q ram t asker levels.old log w in
        levels_in q ram t levels.new log w
        ≡ record k {
          machine = answered (kind_of level.point) (slice_index level.machine.regs 0)
              (slice_index level.machine.regs 1) k.machine;
        }
        ∷ outer_on q ram t levels.old log w }
    ensures locks { held locks.new ≡ merge_level p (suc (length levels.old)) (held locks.old) }
    ensures count { length levels.new ≡ suc (length levels.old) }
    ensures sound { (queue : List QueueRow) → AreSound queue (asker ∷ levels.old) →
        AreSound queue levels.new }
    ensures inside { (images : ImageTable) (a : Accounts) (q : ℕ) →
        AreInside images a q (asker ∷ levels.old) → AreInside images a q levels.new }
{
    let mut asker = asker;
    answer(
        &mut asker.machine,
        level.point,
        level.machine.reg(0),
        level.machine.reg(1),
    );
    let by = Holder {
        process: p,
        level: levels.count() + 1,
    };
    locks.merge_level(by);
    levels.push(asker);
}

/// A level that was taken out of a chain ends with its answer. Level 0 ends the call: what it held
/// is let go, and its records are forgotten. Another one gives its answer, what it held and its
/// records to the level that asked.
fn complete(inner: Innermost, chain: &mut Chain, locks: &mut LockTable) -> Micro
    requires few { length chain.old.levels < 4 }
    requires as_many { length chain.old.undo ≡ suc (length chain.old.levels) }
    requires process { inner.process < 16 }
    ensures step { (w : Objects) (ram : List ℕ) →
        let t = held locks.old in
        came (completed w
        (level_on inner.process ram t inner.level chain.old.levels chain.old.undo w.things)
        (outer_on inner.process ram t chain.old.levels chain.old.undo w.things))
        ≡ (
          result,
          record {
            now = w;
            levels = levels_in inner.process ram
                (held locks.new) chain.new.levels chain.new.undo w.things;
          },
        ) }
    ensures outermost { (registers : List ℕ) → result ≡ Micro.Completed registers →
        chain.old.levels ≡ [] }
    ensures log { chain.new.undo ≡ merged chain.old.undo }
    ensures count { length chain.new.levels ≡ length chain.old.levels }
    ensures unheld { (d : ℕ) (o : Object) → length chain.old.levels ≤ d →
        ((e : ℕ) (a : Object) → suc (length chain.old.levels) ≤ e →
        held locks.old inner.process e a ≡ Free) →
        held locks.new inner.process d o ≡ Free }
    ensures others { (q d : ℕ) → q ≢ inner.process → held locks.new q d ≡ held locks.old q d }
    ensures sound { (queue : List QueueRow) → AreSound queue chain.old.levels →
        AreSound queue chain.new.levels }
    ensures inside { (images : ImageTable) (a : Accounts) (q : ℕ) →
        AreInside images a q chain.old.levels → AreInside images a q chain.new.levels }
{
    chain.undo.commit_level();
    match chain.levels.pop() {
        None => {
            let by = Holder {
                process: inner.process,
                level: 0,
            };
            locks.release_from(by);
            Micro::Completed(registers(&inner.level.machine))
        }
        Some(asker) => {
            join(inner.level, asker, &mut chain.levels, inner.process, locks);
            Micro::Went
        }
    }
}

/// A level that was taken out of a chain ends with an answer that its point accepts. Where its
/// image keeps segments its segment is kept, or it is dropped where no record of that can be made.
/// The memory stays as it was.
fn accept<B: Policy>(
    inner: Innermost,
    chain: &mut Chain,
    store: &mut Store<B>,
    locks: &mut LockTable,
    images: &Images,
) -> Micro
    requires placed { IsTaken store.old locks.old inner chain.old }
    ensures comes { Comes inner (chain_moment store.old locks.old chain.old)
        (chain_moment store.new locks.new chain.new) result
        (λ v w l ls. after_answer v w l ls
        (keeps_in (image_of (table_of images.now) (w.accounts.graft l.owner l.point)))) }
    ensures answer { HasAnswer result store.new.ram inner.process
        (levels_taken store.old locks.old inner chain.old) }
{
    let at = GraftPoint {
        process: inner.level.owner,
        point: inner.level.point,
    };
    if !keeps(images, &store.accounts, at) {
        return complete(inner, chain, locks);
    }
    if is_record_spent(&chain.undo, &store.accounts, at) {
        return drop_innermost(inner, chain, store, locks, Cause::SpentRecords);
    }
    let base = base_of(Holder {
        process: inner.process,
        level: chain.levels.count(),
    });
    keep(&inner.level, base, &mut chain.undo, store);
    complete(inner, chain, locks)
}

/// A level that was taken out of a chain offers the answer in r0 to r3. It is dropped where its
/// point doesn't accept that. Where level 0 answers, the memory stays as it was.
pub(crate) fn offer<B: Policy>(
    inner: Innermost,
    chain: &mut Chain,
    store: &mut Store<B>,
    locks: &mut LockTable,
    images: &Images,
) -> Micro
    requires placed { IsTaken store.old locks.old inner chain.old }
    ensures comes { Comes inner (chain_moment store.old locks.old chain.old)
        (chain_moment store.new locks.new chain.new) result
        (λ v w l ls. after_return v (table_of images.now) w l ls
        (valid w.things l.owner l.point l.args (l.machine.regs 0) (l.machine.regs 1))) }
    ensures answer { HasAnswer result store.new.ram inner.process
        (levels_taken store.old locks.old inner chain.old) }
{
    if !is_valid(store, &inner.level) {
        let machine = &inner.level.machine;
        let cause = Cause::RefusedAnswer(machine.reg(0), machine.reg(1));
        return drop_innermost(inner, chain, store, locks, cause);
    }
    accept(inner, chain, store, locks, images)
}
