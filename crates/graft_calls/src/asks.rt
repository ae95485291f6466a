//! What the ask of another point comes to.

ghost use Rattle.std.specs.Prelude.{◌≡◌, ◌≢◌, ℕ, suc, ◌<◌, ◌≤◌, ◌∷◌, ◌&&◌, ◌==◌, [], List, None};
ghost use Rattle.std.specs.Prelude.{true, false, length, slice_index, is_some, All};
ghost use Rattle.kernel_model.specs.declared.Mode.TheVariants.{Exclusive, Shared};
ghost use Rattle.kernel_model.specs.declared.Need.{Need};
ghost use Rattle.kernel_model.specs.declared.Object.TheVariants.{Graft};
ghost use Rattle.kernel_model.specs.Access.{asked_point as point_asked, asked_objects, is_ask};
ghost use Rattle.kernel_model.specs.GraftStep.{after_ask, ask_answered, ask_refusal as refusal_of_ask, is_vain_ask};
ghost use Rattle.kernel_model.specs.Laws.{IsInRange};
ghost use Rattle.kernel_model.specs.Locks.{LockTable as Table, with_touch};
ghost use Rattle.kernel_model.specs.Objects.{Things};
ghost use Rattle.kernel_model.specs.Policies.{kind_of, lives};
ghost use Rattle.graft_levels.specs.UndoLevels.{Logged};
ghost use Rattle.kernel_state.specs.Table.{accounts_of};
ghost use Rattle.kernel_state.specs.Stores.{world_of_store, objects_of, queue_of};
ghost use Rattle.graft_levels.specs.Masks.{held};
ghost use Rattle.graft_levels.specs.Slots.{table_of};
ghost use Rattle.graft_levels.specs.Chains.{came, call_of, levels_in, levels_of, is_running_in};
ghost use Rattle.graft_levels.specs.Calls.{IsInPlace, IsTakenInPlace, IsElsewhereSame, HasWrittenBegun, needs_touched};
ghost use Rattle.graft_levels.specs.Moments.{StaysInPlace, chain_moment, part_at};
ghost use Rattle.graft_calls.specs.Accessors.{is_refused_early};

use graft_levels::answers::give_answer;
use graft_levels::{
    Chain, GraftLevel, Holder, Images, Innermost, Levels, LockTable, args_of, asked_needs,
    asked_point, begin_level, default_of, drop_innermost, image_of, touch_needs,
};
use kernel_model::{Cause, Micro, Mode, Object, Point};
use kernel_state::{Accounts, GraftPoint, Policy, Store};

/// Whether a point can't be asked, as the values show: its file isn't open, or process q has no
/// frame.
fn is_vain<B: Policy>(store: &Store<B>, q: u8, pt: u8) -> bool
    requires lives { lives (queue_of store.now) q ≡ true }
    ensures { result ≡ is_vain_ask (kind_of pt) (objects_of store.now).things q pt }
{
    match pt {
        0..=3 => store.file(q, pt).is_none(),
        4 => store.owned_count(q) == 0,
        _ => false,
    }
}

/// Whether the asking level or one outside it is a run of the graft at point pt of the same
/// process.
fn is_running(level: &GraftLevel, levels: &Levels, pt: u8) -> bool
    ensures { result ≡ is_running_in (level.now ∷ levels.now) level.now.owner pt }
{
    level.point == pt || levels.runs(level.owner, pt)
}

/// Whether a graft stands at point pt of process q, but there is no room for a level, as the asking
/// level is inside three others.
fn is_too_deep(levels: &Levels, accounts: &Accounts, q: u8, pt: u8) -> bool
    requires { pt < 16 }
    ensures { result ≡ (is_some ((accounts_of accounts.now).graft q pt) && length levels.now == 3) }
{
    accounts.stands(q, pt) && levels.count() == 3
}

/// Why an ask of point pt is refused by the values, if it is; the asking level was taken from the
/// others.
fn ask_refusal<B: Policy>(
    id: u32,
    pt: u8,
    level: &GraftLevel,
    levels: &Levels,
    store: &Store<B>,
) -> Option<Cause>
    requires lives { lives (queue_of store.now) level.now.owner ≡ true }
    requires point { pt < 16 }
    requires few { length levels.now < 4 }
    ensures value { (p : ℕ) (ram : List ℕ) (t : Table) (log : List (List Logged)) (w : Things) →
        result ≡ refusal_of_ask (objects_of store.now) level.now.owner pt id
        (levels_in p ram t (level.now ∷ levels.now) log w) }
    ensures free { result ≡ None →
        is_running_in (level.now ∷ levels.now) level.now.owner pt ≡ false }
    ensures room { result ≡ None → (objects_of store.now).accounts.graft level.now.owner pt ≢ None →
        length levels.now < 3 }
{
    if is_vain(store, level.owner, pt) {
        return Some(Cause::BadArgument(id));
    }
    if is_running(level, levels, pt) {
        return Some(Cause::Reentered);
    }
    if is_too_deep(levels, &store.accounts, level.owner, pt) {
        return Some(Cause::TooDeep);
    }
    None
}

/// The asking level holds what the ask needs, and level 0 the graft of the point.
fn touch_asked(id: u32, r0: u32, q: u8, by: Holder, locks: &mut LockTable)
    requires asker { q < 16 }
    requires descriptor { id ≡ 13 → r0 < 4 }
    ensures { held locks.new ≡ with_touch by.process 0 (Graft q (point_asked id r0)) Exclusive
        (needs_touched by.process by.level (asked_objects id r0 q) (held locks.old)) }
{
    touch_needs(&asked_needs(id, r0, q), by, locks);
    let outermost = Holder {
        process: by.process,
        level: 0,
    };
    locks.touch(
        outermost,
        Object::Graft(q, asked_point(id, r0)),
        Mode::Exclusive,
    );
}

/// An ask that isn't refused is answered: a level begins inside the others where a graft stands,
/// else the innermost level gets the default.
fn answer_ask<B: Policy>(
    asked: GraftPoint,
    chain: &mut Chain,
    p: u8,
    store: &mut Store<B>,
    locks: &LockTable,
    images: &Images,
) -> Micro
    requires in_place { IsInPlace store.old locks.now
        (table_of images.now) p chain.old.levels chain.old.undo }
    requires lives { lives (queue_of store.old) asked.process ≡ true }
    requires free { is_running_in chain.old.levels asked.process asked.point ≡ false }
    requires room { (objects_of store.old).accounts.graft asked.process asked.point ≢ None →
        length chain.old.levels < 4 }
    ensures step { came (ask_answered (world_of_store store.old) (table_of images.now)
        (objects_of store.old) p asked.process asked.point
        (levels_of store.old locks.now chain.old p)
        ((objects_of store.old).accounts.graft asked.process asked.point))
        ≡ (result, call_of store.new locks.now chain.new p) }
    ensures in_place { IsInPlace store.new locks.now
        (table_of images.now) p chain.new.levels chain.new.undo }
    ensures elsewhere { IsElsewhereSame store.old store.new locks.now locks.now p }
    ensures memory { HasWrittenBegun p (length chain.old.levels)
        chain.new.levels store.old.ram store.new.ram }
{
    let (owner, point) = (asked.process, asked.point);
    if store.accounts.graft(asked).is_none() {
        let (r0, r1) = default_of(store, owner, point);
        give_answer(&mut chain.levels, point, r0, r1);
        return Micro::Went;
    }
    let args = args_of(store, owner, point);
    let image = image_of(images, &store.accounts, asked);
    let at = Point {
        installer: owner,
        point,
        args,
    };
    begin_level(chain, p, store, image, &at, &[]);
    Micro::Went
}

/// What an ask comes to that isn't refused by its arguments.
pub(crate) fn ask<B: Policy>(
    id: u32,
    inner: Innermost,
    chain: &mut Chain,
    store: &mut Store<B>,
    locks: &mut LockTable,
    images: &Images,
) -> Micro
    requires in_place { IsTakenInPlace store.old locks.old (table_of images.now) inner chain.old }
    requires early { is_refused_early id inner.level ≡ None }
    ensures step { came (part_at (λ v w l ls. let pt = point_asked id (l.machine.regs 0) in
        after_ask v (table_of images.now) w inner.process l ls l.machine id pt
        (refusal_of_ask w l.owner pt id (l ∷ ls))) inner (chain_moment store.old locks.old chain.old))
        ≡ (result, call_of store.new locks.new chain.new inner.process) }
    ensures kept { StaysInPlace (table_of images.now) inner
        (chain_moment store.old locks.old chain.old) (chain_moment store.new locks.new chain.new) }
{
    let p = inner.process;
    let q = inner.level.owner;
    let r0 = inner.level.machine.reg(0);
    let pt = asked_point(id, r0);
    if let Some(cause) = ask_refusal(id, pt, &inner.level, &chain.levels, store) {
        return drop_innermost(inner, chain, store, locks, cause);
    }
    let by = Holder {
        process: p,
        level: chain.levels.count(),
    };
    touch_asked(id, r0, q, by, locks);
    chain.levels.push(inner.level);
    let asked = GraftPoint {
        process: q,
        point: pt,
    };
    answer_ask(asked, chain, p, store, locks, images)
}
