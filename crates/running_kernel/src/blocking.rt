//! What keeps a step from being taken.

ghost use Rattle.std.specs.Prelude.{◌≡◌, ◌<◌, ℕ, true, None, Contains, option_map, All, List, length};
ghost use Rattle.kernel_model.specs.Alone.{is_lock};
ghost use Rattle.kernel_data.specs.Bare.{call_with};
ghost use Rattle.kernel_model.specs.GraftStep.{next_needs, lock_user};
ghost use Rattle.kernel_data.specs.Objects.{Things};
ghost use Rattle.call_pieces.specs.Works.{IsDue, call_of, stage_of};
ghost use Rattle.graft_levels.specs.Calls.{AreSound};
ghost use Rattle.graft_levels.specs.Chains.{levels_in};
ghost use Rattle.graft_levels.specs.Slots.{table_of};
ghost use Rattle.placed_laws.specs.Placed.{placed_blocker};
ghost use Rattle.running_kernel.specs.Orders.{blocker_of};
ghost use Rattle.running_kernel.specs.Sound.{AreNeeds, IsSoundFor};
ghost use Rattle.running_kernel.specs.Views.{placed_of};
ghost use Rattle.kernel_data.specs.declared.Need.{Need as Needed};
ghost use Rattle.kernel_data.specs.declared.Object.TheVariants.{Lock};
ghost use Rattle.kernel_model.specs.Laws.{IsInRange, waits_for_user};
ghost use Rattle.kernel_model.specs.Locks.{LockTable as Table, hindrance_by, lowest_holder, user_hindrance, user_of};
ghost use Rattle.kernel_model.specs.Locks as table;
ghost use Rattle.graft_levels.specs.UndoLevels.{Logged};
ghost use Rattle.call_pieces.specs.Stores.{world_of_store, queue_of, objects_of};
ghost use Rattle.lock_table.specs.Masks.{held};
ghost use Rattle.running_kernel.specs.Idle.{IsIdle, IsPlain, IsFreeOfUsers};
ghost use Rattle.running_kernel.specs.Hindered.{hindrance_of, blocking_by, IsFirstHindrance, IsStepHindrance};
ghost use Rattle.running_kernel.specs.Hindered.{TakesAlone};
ghost use Rattle.running_kernel.specs.Rests.{KeepsBlocker};

use crate::flights::{flight, number_of};
use crate::order::{Blocking, Waiting};
use crate::running::{Flight, Running};
use call_pieces::{Calls, Needs, Policy, Store, Work};
use graft_levels::{Chain, Images};
use kernel_data::{BareCall, Need, Object};
use lock_table::LockTable;

/// An object that a step needs, and what holds it.
#[derive(Clone, Copy)]
pub struct Hindrance {
    /// The object.
    pub object: Object,
    /// The process that holds it.
    pub holder: u8,
    /// Whether it holds it as a user lock.
    pub by_user: bool,
}

/// The process that holds an object as a user lock, and isn't q.
fn other_user<B: Policy>(store: &Store<B>, q: u8, object: Object) -> Option<Hindrance>
    requires range { IsInRange object }
    ensures { option_map hindrance_of result
        ≡ user_hindrance q object (user_of (objects_of store.now).things.lock object) }
{
    let Object::Lock(u) = object else {
        return None;
    };
    match store.holder(u) {
        Some(holder) if holder != q => Some(Hindrance {
            object,
            holder,
            by_user: true,
        }),
        _ => None,
    }
}

/// What hinders one need of process p; user locks of q don't.
fn hindrance_by_need<B: Policy>(
    locks: &LockTable,
    store: &Store<B>,
    p: u8,
    q: u8,
    need: Need,
) -> Option<Hindrance>
    requires range { IsInRange need.object }
    ensures { option_map hindrance_of result
        ≡ hindrance_by (objects_of store.now).things.lock q need
        (lowest_holder (held locks.now) p need.object need.mode) }
{
    match locks.ask(p, need.object, need.mode) {
        Some(holder) => Some(Hindrance {
            object: need.object,
            holder,
            by_user: false,
        }),
        None if need.by_user => other_user(store, q, need.object),
        None => None,
    }
}

/// The first hindrance of a step of process p over its needs in order; user locks of q don't hinder
/// it. Looks at one mask of processes for each need.
pub(crate) fn first_hindrance<B: Policy>(
    locks: &LockTable,
    store: &Store<B>,
    p: u8,
    q: u8,
    needs: &[Need],
) -> Option<Hindrance>
    requires range { All (λ (n : Needed). IsInRange n.object) needs.now }
    ensures { IsFirstHindrance (held locks.now) (objects_of store.now) p q needs.now result }
{
    for need in needs {
        if let Some(found) = hindrance_by_need(locks, store, p, q, *need) {
            return Some(found);
        }
    }
    None
}

/// Whether a call is a `lock`.
fn is_lock(call: BareCall) -> bool
    ensures { (bytes : List ℕ) → result ≡ is_lock (call_with call bytes) }
{
    match call {
        BareCall::TakeLock(_) => true,
        _ => false,
    }
}

/// Whether no process but p holds user lock u. It isn't inlined: only a `lock` asks it.
#[inline(never)]
fn is_free_for<B: Policy>(store: &Store<B>, p: u8, u: u32) -> bool
    ensures { result ≡ true →
        user_hindrance p (Lock u) ((objects_of store.now).things.lock u) ≡ None }
{
    if u >= 16 {
        return false;
    }
    match store.holder(u as u8) {
        Some(holder) => holder == p,
        None => true,
    }
}

/// Whether no holder of a user lock hinders a call of process p: that of its own lock may hinder a
/// `lock`, and no other.
fn is_free_of_users<B: Policy>(store: &Store<B>, p: u8, call: BareCall) -> bool
    ensures { (bytes : List ℕ) → result ≡ true →
        IsFreeOfUsers (objects_of store.now).things.lock p (call_with call bytes) }
{
    match call {
        BareCall::TakeLock(u) => is_free_for(store, p, u),
        _ => true,
    }
}

/// The first hindrance of a step of process p over its needs in order, where nothing is held: only
/// the holder of a user lock can hinder it.
#[tactic(auto, using(crate::proofs::FreeLemmas::user_first))]
fn first_user_hindrance<B: Policy>(store: &Store<B>, p: u8, needs: &[Need]) -> Option<Hindrance>
    requires range { All (λ (n : Needed). IsInRange n.object) needs.now }
    ensures { option_map hindrance_of result
        ≡ table.first_hindrance table.no_locks (objects_of store.now).things.lock p p needs.now }
{
    let Some((first, rest)) = needs.split_first() else {
        return None;
    };
    if first.by_user {
        if let Some(found) = other_user(store, p, first.object) {
            return Some(found);
        }
    }
    first_user_hindrance(store, p, rest)
}

/// What hinders the next piece of a call of process p, by a look at each of its needs. It stands
/// apart since room for the most needs is cleared here.
#[inline(never)]
fn hindrance_by_needs<C: Calls, B: Policy>(
    locks: &LockTable,
    store: &Store<B>,
    p: u8,
    work: &Work,
) -> Option<Hindrance>
    requires ready { IsDue C.Meaning.meaning (world_of_store store.now) (objects_of store.now)
        work.now.caller (stage_of work.now) }
    requires range { (n : Needed) → Contains
        (C.Meaning.meaning.need (world_of_store store.now) (objects_of store.now)
        work.now.caller (stage_of work.now)) n → IsInRange n.object }
    ensures { IsFirstHindrance (held locks.now) (objects_of store.now) p p
        (C.Meaning.meaning.need (world_of_store store.now) (objects_of store.now)
        work.now.caller (stage_of work.now)) result }
{
    let mut needs = Needs::new();
    C::need(work, store, &mut needs);
    if locks.is_free() {
        return first_user_hindrance(store, p, needs.as_slice());
    }
    first_hindrance(locks, store, p, p, needs.as_slice())
}

/// What hinders the next piece of a call of process p. Where nothing is held, the needs are asked
/// of `lock` alone.
fn piece_hindrance<C: Calls, B: Policy>(
    locks: &LockTable,
    store: &Store<B>,
    p: u8,
    work: &Work,
) -> Option<Hindrance>
    requires ready { IsDue C.Meaning.meaning (world_of_store store.now) (objects_of store.now)
        work.now.caller (stage_of work.now) }
    requires range { (n : Needed) → Contains
        (C.Meaning.meaning.need (world_of_store store.now) (objects_of store.now)
        work.now.caller (stage_of work.now)) n → IsInRange n.object }
    requires user { (n : Needed) → Contains
        (C.Meaning.meaning.need (world_of_store store.now) (objects_of store.now)
        work.now.caller (stage_of work.now)) n →
        n.by_user ≡ waits_for_user (call_of work.now) n.object }
    ensures { IsFirstHindrance (held locks.now) (objects_of store.now) p p
        (C.Meaning.meaning.need (world_of_store store.now) (objects_of store.now)
        work.now.caller (stage_of work.now)) result }
{
    if locks.is_free() && !is_lock(work.call) {
        return None;
    }
    hindrance_by_needs::<C, B>(locks, store, p, work)
}

/// What hinders the next instruction of a graft call of process p. Where no other call holds
/// anything, only `take_lock` is asked for its needs. It stands apart, so that less is done for a
/// call that is in no graft.
#[inline(never)]
fn graft_hindrance<B: Policy>(
    locks: &LockTable,
    store: &Store<B>,
    images: &Images,
    p: u8,
    chain: &Chain,
) -> Option<Hindrance>
    requires { AreSound (queue_of store.now) chain.now.levels }
    ensures { (ram : List ℕ) (t : Table) (log : List (List Logged)) (w : Things) →
        let ls = levels_in p ram t chain.now.levels log w in
        IsFirstHindrance (held locks.now) (objects_of store.now) p (lock_user p ls)
        (next_needs (world_of_store store.now) (table_of images.now)
        (objects_of store.now).accounts ls) result }
{
    if locks.is_free_but(p) && !chain.may_take_lock(store, images) {
        return None;
    }
    let needs = chain.needs(store, images);
    first_hindrance(locks, store, p, chain.lock_user(p), needs.as_slice())
}

/// What blocks a call, of what hinders its step.
fn blocking_of(flights: &[Flight], found: Hindrance) -> Blocking
    ensures { blocker_of result ≡ blocking_by flights.now found }
{
    Blocking {
        object: found.object,
        holder: found.holder,
        call: if found.by_user {
            None
        } else {
            number_of(flights, found.holder)
        },
    }
}

impl<C: Calls, B: Policy> Running<C, B> {
    /// What hinders the next step of process p's call.
    fn hindered(&self, p: u8) -> Option<Hindrance>
        requires { IsSoundFor C.Meaning.meaning self.now p }
        ensures { IsStepHindrance C.Meaning.meaning (placed_of self.now) p result }
    {
        let flight = flight(&self.calls, p);
        let Some(call) = flight.call.get() else {
            return None;
        };
        if flight.chain.levels.count() == 0 {
            return piece_hindrance::<C, B>(&self.locks, &self.store, p, &call.work);
        }
        graft_hindrance(&self.locks, &self.store, &self.images, p, &flight.chain)
    }

    /// Whether no call waits, and nothing is held.
    pub fn is_idle(&self) -> bool
        ensures { result ≡ true → IsIdle self.now }
    {
        self.order.is_empty() && self.locks.is_free()
    }

    /// Whether no graft stands, and process p has a call, in no graft, that no holder of a user lock
    /// hinders.
    pub fn is_plain(&self, p: u8) -> bool
        requires { p < length self.now.calls.items }
        ensures { result ≡ true → IsPlain self.now p }
    {
        if self.store.has_grafts() {
            return false;
        }
        let flight = flight(&self.calls, p);
        if flight.chain.levels.count() > 0 {
            return false;
        }
        match flight.call.get() {
            Some(call) => is_free_of_users(&self.store, p, call.work.call),
            None => false,
        }
    }

    /// Whether a glance shows that nothing blocks the next step of process p's call: it is a piece
    /// that no user lock's holder may hinder, and nothing is held. Else it may be free as well.
    pub(crate) fn is_clear(&self, p: u8) -> bool
        requires at { IsSoundFor C.Meaning.meaning self.now p }
        ensures { result ≡ true →
            placed_blocker C.Meaning.meaning (placed_of self.now) p ≡ None }
    {
        if !self.locks.is_free() {
            return false;
        }
        let flight = flight(&self.calls, p);
        let Some(call) = flight.call.get() else {
            return false;
        };
        if flight.chain.levels.count() == 0 {
            return !is_lock(call.work.call);
        }
        false
    }

    /// Whether process p has a call, in no graft, whose next piece takes user lock u and needs nothing
    /// else.
    fn takes_alone(&self, p: u8, u: u8) -> bool
        requires { IsSoundFor C.Meaning.meaning self.now p }
        ensures { result ≡ true → TakesAlone C.Meaning.meaning self.now p u }
    {
        let flight = flight(&self.calls, p);
        let Some(call) = flight.call.get() else {
            return false;
        };
        if flight.chain.levels.count() > 0 {
            return false;
        }
        match C::lock_taken(&call.work) {
            Some(taken) => taken == u32::from(u),
            None => false,
        }
    }

    /// Whether a quick test shows that the call of an entry is blocked as the entry says: nothing is
    /// held, and the call takes a user lock that the same other process still has. If it doesn't show
    /// that, the call may be blocked so as well.
    #[inline(always)]
    pub(crate) fn waits_still(&self, waiting: Waiting) -> bool
        requires { IsSoundFor C.Meaning.meaning self.now waiting.process }
        ensures { result ≡ true → KeepsBlocker C.Meaning.meaning (placed_of self.now) waiting }
    {
        let Some(kept) = waiting.blocker else {
            return false;
        };
        let Object::Lock(u) = kept.object else {
            return false;
        };
        if kept.call.is_some() {
            return false;
        }
        if kept.holder == waiting.process {
            return false;
        }
        if !self.locks.is_free() {
            return false;
        }
        if !self.takes_alone(waiting.process, u) {
            return false;
        }
        match self.store.holder(u) {
            Some(holder) => holder == kept.holder,
            None => false,
        }
    }

    /// What hinders the next instruction of process p's call, which is in a graft and needs this.
    fn hindered_by(&self, p: u8, needs: &[Need]) -> Option<Hindrance>
        requires { AreNeeds C.Meaning.meaning self.now p needs.now }
        ensures { IsStepHindrance C.Meaning.meaning (placed_of self.now) p result }
    {
        let user = flight(&self.calls, p).chain.lock_user(p);
        first_hindrance(&self.locks, &self.store, p, user, needs)
    }

    /// What blocks the next instruction of process p's call, which is in a graft and needs this, if
    /// something does.
    pub fn blocked_by(&self, p: u8, needs: &[Need]) -> Option<Blocking>
        requires { AreNeeds C.Meaning.meaning self.now p needs.now }
        ensures { let x = placed_of self.now in
            option_map blocker_of result ≡ placed_blocker C.Meaning.meaning x p }
    {
        match self.hindered_by(p, needs) {
            Some(found) => Some(blocking_of(&self.calls, found)),
            None => None,
        }
    }

    /// What blocks the next step of process p's call, if something does. The time that this takes
    /// doesn't grow with what is held. It is always inlined, as each call that waits is asked for it
    /// after each event.
    #[inline(always)]
    pub fn blocker(&self, p: u8) -> Option<Blocking>
        requires { IsSoundFor C.Meaning.meaning self.now p }
        ensures { option_map blocker_of result
            ≡ placed_blocker C.Meaning.meaning (placed_of self.now) p }
    {
        match self.hindered(p) {
            Some(found) => Some(blocking_of(&self.calls, found)),
            None => None,
        }
    }
}
