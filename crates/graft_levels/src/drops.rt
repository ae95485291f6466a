//! The drop of a level.

ghost use Rattle.std.specs.Prelude.{◌≡◌, ℕ, suc, ◌<◌, ◌≤◌, [], ◌∷◌, true, length};
ghost use Rattle.kernel_model.specs.declared.Inverse.{Inverse};
ghost use Rattle.kernel_model.specs.Levels.{drop_innermost as innermost_dropped, drop_level as level_dropped};
ghost use Rattle.kernel_model.specs.Locks.{release_from};
ghost use Rattle.kernel_model.specs.Policies.{lives};
ghost use Rattle.kernel_model.specs.Sound.{ImagesAreLoaded};
ghost use Rattle.kernel_model.specs.World.{ImageTable};
ghost use Rattle.graft_accessors.specs.Accesses.{CanBeUndone};
ghost use Rattle.kernel_state.specs.Stores.{world_of_store, objects_of, queue_of};
ghost use Rattle.lock_table.specs.Masks.{held};
ghost use Rattle.undo_calls.specs.UndoLevels.{innermost};
ghost use Rattle.graft_levels.specs.Chains.{put_back_on, came, call_of, levels_of, outer};
ghost use Rattle.graft_levels.specs.Calls.{AreSound, AreInside, AreUndoable, AllUndoable};
ghost use Rattle.graft_levels.specs.Calls.{IsPutBack, IsPlaced, IsTaken, IsElsewhereSame};
ghost use Rattle.graft_levels.specs.Moments.{Comes, chain_moment};

use crate::answers::give_answer;
use crate::points::default_of;
use crate::{Chain, Innermost};
use kernel_model::{Cause, Micro};
use kernel_state::{GraftPoint, Policy, Store};
use lock_table::{Holder, LockTable};
use undo_calls::UndoStack;

/// Undoes the records of the innermost level, newest first, and takes them out of the log.
pub(crate) fn undo_records<B: Policy>(undo: &mut UndoStack, store: &mut Store<B>)
    requires level { 0 < length undo.old }
    requires undoable { AreUndoable (innermost undo.old) (objects_of store.old).things }
    ensures none { innermost undo.new ≡ [] }
    ensures outer { outer undo.new ≡ outer undo.old }
    ensures level { 0 < length undo.new }
    ensures store { IsPutBack (innermost undo.old) store.old store.new }
{
    if let Some(found) = undo.newest() {
        graft_accessors::undo(store, found.inverse, found.bytes);
        undo.forget_newest();
        undo_records(undo, store);
    }
}

/// The innermost level of the log ends: its records are undone, newest first.
pub(crate) fn undo_level<B: Policy>(undo: &mut UndoStack, store: &mut Store<B>)
    requires level { 0 < length undo.old }
    requires undoable { AreUndoable (innermost undo.old) (objects_of store.old).things }
    ensures log { undo.new ≡ outer undo.old }
    ensures store { IsPutBack (innermost undo.old) store.old store.new }
{
    undo_records(undo, store);
    undo.end_level();
}

/// A level that was taken out of a chain ends: its records are undone, newest first, and it lets go
/// of what it holds.
pub(crate) fn end_level<B: Policy>(
    chain: &mut Chain,
    p: u8,
    store: &mut Store<B>,
    locks: &mut LockTable,
)
    requires process { p < 16 }
    requires few { length chain.old.levels < 4 }
    requires as_many { length chain.old.undo ≡ suc (length chain.old.levels) }
    requires undoable { AllUndoable chain.old.undo (objects_of store.old).things }
    requires sound { AreSound (queue_of store.old) chain.old.levels }
    ensures levels { chain.new.levels ≡ chain.old.levels }
    ensures log { chain.new.undo ≡ outer chain.old.undo }
    ensures objects { objects_of store.new
        ≡ put_back_on (innermost chain.old.undo) (objects_of store.old) }
    ensures locks { held locks.new ≡ release_from p (length chain.old.levels) (held locks.old) }
    ensures memory { store.new.ram ≡ store.old.ram }
    ensures placed { IsPlaced store.new locks.new p chain.new.levels chain.new.undo }
    ensures elsewhere { IsElsewhereSame store.old store.new locks.old locks.new p }
{
    undo_level(&mut chain.undo, store);
    let by = Holder {
        process: p,
        level: chain.levels.count(),
    };
    locks.release_from(by);
}

/// A level that was taken out of a chain is dropped, and those that were further inward are gone:
/// its records are undone, it lets go of what it holds, its graft is taken out, and the level that
/// asked gets the default answer.
pub fn drop_innermost<B: Policy>(
    inner: Innermost,
    chain: &mut Chain,
    store: &mut Store<B>,
    locks: &mut LockTable,
    cause: Cause,
) -> Micro
    requires placed { IsTaken store.old locks.old inner chain.old }
    ensures { Comes inner (chain_moment store.old locks.old chain.old)
        (chain_moment store.new locks.new chain.new) result
        (λ v w l ls. innermost_dropped v w l ls cause) }
{
    let level = &inner.level;
    end_level(chain, inner.process, store, locks);
    let at = GraftPoint {
        process: level.owner,
        point: level.point,
    };
    store.accounts.remove(at);
    let (r0, r1) = default_of(store, level.owner, level.point);
    give_answer(&mut chain.levels, level.point, r0, r1);
    Micro::Dropped {
        depth: chain.levels.count(),
        installer: level.owner,
        point: level.point,
        cause,
    }
}

impl Chain {
    /// The drop of level d, counted from the outermost, by this cause: those further inward end
    /// with it.
    pub fn drop_level<B: Policy>(
        &mut self,
        p: u8,
        store: &mut Store<B>,
        locks: &mut LockTable,
        d: u8,
        cause: Cause,
    ) -> Micro
        requires placed { IsPlaced store.old locks.old p self.old.levels self.old.undo }
        requires level { d < length self.old.levels }
        ensures step { came (level_dropped (world_of_store store.old) (objects_of store.old)
            (levels_of store.old locks.old self.old p) d cause)
            ≡ (result, call_of store.new locks.new self.new p) }
        ensures placed { IsPlaced store.new locks.new p self.new.levels self.new.undo }
        ensures inside { (images : ImageTable) →
            AreInside images (objects_of store.old).accounts p self.old.levels →
            AreInside images (objects_of store.new).accounts p self.new.levels }
        ensures loaded { (images : ImageTable) →
            ImagesAreLoaded images (objects_of store.old).accounts →
            ImagesAreLoaded images (objects_of store.new).accounts }
        ensures elsewhere { IsElsewhereSame store.old store.new locks.old locks.new p }
    {
        let Some(level) = self.levels.pop() else {
            unreachable!()
        };
        if self.levels.count() == d {
            let inner = Innermost { process: p, level };
            return drop_innermost(inner, self, store, locks, cause);
        }
        end_level(self, p, store, locks);
        self.drop_level(p, store, locks, d, cause)
    }
}
