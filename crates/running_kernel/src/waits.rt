//! The order of waiting and its blockers.

ghost use Rattle.std.specs.Prelude.{◌≡◌, ◌<◌, ◌≤◌, ◌+◌, ◌++◌, true, None, IfSome, IfNone, option_map, length};
ghost use Rattle.kernel_model.specs.Blocking.{same_blocker, same_call};
ghost use Rattle.kernel_data.specs.Objects.{same_object};
ghost use Rattle.kernel_model.specs.Events.{object_kind};
ghost use Rattle.kernel_model.specs.Settle.{entry_with};
ghost use Rattle.placed_laws.specs.PlacedEvents.{expired_by, is_over_by};
ghost use Rattle.placed_laws.specs.PlacedSteps.{placed_first_free, placed_rested_order, with_placed_order};
ghost use Rattle.kernel_data.specs.World.{World};
ghost use Rattle.running_kernel.specs.Orders.{blocker_of, entry_of, order_of, are_processes};
ghost use Rattle.running_kernel.specs.Orders.{counts_within, patience_of, numbers_of};
ghost use Rattle.running_kernel.specs.Rests.{GoesFrom};
ghost use Rattle.running_kernel.specs.Sound.{IsSound};
ghost use Rattle.running_kernel.specs.Views.{placed_of, IsRunning, Simulates};

use crate::order::{Blocking, Order, Waiting};
use crate::running::Running;
use call_pieces::{Calls, Policy};
use kernel_data::Object;

/// Whether two objects are one.
#[tactic(auto, unfolding(kernel_data::specs::Objects::same_object))]
pub(crate) fn is_same_object(a: Object, b: Object) -> bool
    ensures { result ≡ same_object a b }
{
    a == b
}

/// Whether two calls, or none, are one.
fn is_same_call(a: Option<u32>, b: Option<u32>) -> bool
    ensures { result ≡ same_call a b }
{
    match (a, b) {
        (Some(a), Some(b)) => a == b,
        (None, None) => true,
        _ => false,
    }
}

/// Whether two blockers, or none, are one.
#[inline(always)]
fn is_same_blocker(a: Option<Blocking>, b: Option<Blocking>) -> bool
    ensures { result ≡ same_blocker (option_map blocker_of a) (option_map blocker_of b) }
{
    match (a, b) {
        (Some(a), Some(b)) => {
            is_same_object(a.object, b.object)
                && a.holder == b.holder
                && is_same_call(a.call, b.call)
        }
        (None, None) => true,
        _ => false,
    }
}

/// An entry with its blocker: it stays as it is where the blocker is the kept one, and else counts
/// from 0. It is always inlined, as `Running::blocker` is.
#[inline(always)]
pub(crate) fn with_blocker(waiting: Waiting, blocker: Option<Blocking>) -> Waiting
    ensures value { entry_of result
        ≡ entry_with (entry_of waiting) (option_map blocker_of blocker) }
    ensures process { result.process ≡ waiting.process }
    ensures count { result.count ≤ waiting.count }
{
    if is_same_blocker(waiting.blocker, blocker) {
        return waiting;
    }
    Waiting {
        process: waiting.process,
        blocker,
        count: 0,
    }
}

/// The number of an object's kind.
fn kind_of(object: Object) -> u8
    ensures value { result ≡ object_kind object }
    ensures below { result < 8 }
{
    match object {
        Object::Graft(..) => 0,
        Object::Acct(_) => 1,
        Object::Cell(..) => 2,
        Object::OpenFile(..) => 3,
        Object::Queue => 4,
        Object::Cache => 5,
        Object::Lock(_) => 6,
        Object::Pol(_) => 7,
    }
}

/// Whether an entry's count has reached the patience of its blocker's kind.
fn is_over(patience: &[u32; 8], waiting: Waiting) -> bool
    ensures { (v : World) → v.patience ≡ patience_of patience.now →
        result ≡ is_over_by v (entry_of waiting) (entry_of waiting).blocker }
{
    match waiting.blocker {
        Some(blocking) => patience[kind_of(blocking.object) as usize] <= waiting.count,
        None => false,
    }
}

/// The first entry whose count has reached the patience.
pub(crate) fn first_over(patience: &[u32; 8], entries: &[Waiting]) -> Option<Waiting>
    ensures { (v : World) → v.patience ≡ patience_of patience.now →
        option_map entry_of result ≡ expired_by v (order_of entries.now) }
{
    let Some((first, rest)) = entries.split_first() else {
        return None;
    };
    if is_over(patience, *first) {
        return Some(*first);
    }
    first_over(patience, rest)
}

impl<C: Calls, B: Policy> Running<C, B> {
    /// The first of the entries from a place on that nothing blocks. Where all are blocked, each is
    /// told its blocker, once all were found; one that keeps its blocker by a quick test isn't written.
    #[inline(never)]
    fn next_from(&mut self, i: usize) -> Option<u8>
        requires sound { IsSound C.Meaning.meaning self.old }
        requires place { i ≤ length self.old.order }
        ensures { GoesFrom C.Meaning.meaning i self.old self.new result }
    {
        let entries = self.order.entries();
        if i == entries.len() {
            return None;
        }
        let waiting = entries[i];
        if self.waits_still(waiting) {
            return self.next_from(i + 1);
        }
        let process = waiting.process;
        let Some(blocker) = self.blocker(process) else {
            return Some(process);
        };
        if let Some(free) = self.next_from(i + 1) {
            return Some(free);
        }
        let waiting = self.order.entries()[i];
        self.order.put(i, with_blocker(waiting, Some(blocker)));
        None
    }

    /// These entries, each with its blocker, come behind those of an order.
    fn rest_behind(&self, entries: &[Waiting], done: &mut Order)
        requires sound { IsSound C.Meaning.meaning self.now }
        requires processes { are_processes entries.now ≡ true }
        requires room { length done.old + length entries.now ≤ 16 }
        ensures value { order_of done.new ≡ order_of done.old
            ++ placed_rested_order C.Meaning.meaning (placed_of self.now)
            (order_of entries.now) }
        ensures counts { counts_within self.now.clock done.old ≡ true →
            counts_within self.now.clock entries.now ≡ true →
            counts_within self.now.clock done.new ≡ true }
        ensures processes { are_processes done.old ≡ true → are_processes done.new ≡ true }
        ensures numbers { numbers_of done.new ≡ numbers_of done.old ++ numbers_of entries.now }
    {
        let Some((first, rest)) = entries.split_first() else {
            return;
        };
        done.push(with_blocker(*first, self.blocker(first.process)));
        self.rest_behind(rest, done);
    }

    /// The process of the first call in the order, where a glance shows that nothing blocks it.
    fn clear_first(&self) -> Option<u8>
        requires { IsSound C.Meaning.meaning self.now }
        ensures { let x = placed_of self.now in
            IfSome result (λ _. result ≡ placed_first_free C.Meaning.meaning x x.order) }
    {
        let (first, _) = self.order.entries().split_first()?;
        let process = first.process;
        if self.is_clear(process) {
            return Some(process);
        }
        None
    }

    /// The process of the first call in the order that nothing blocks. Where there is none, the
    /// order is told its blockers: each is looked for once. Nothing but the order changes.
    pub fn next_or_rest(&mut self) -> Option<u8>
        requires { IsSound C.Meaning.meaning self.old }
        ensures next { let x = placed_of self.old in
            result ≡ placed_first_free C.Meaning.meaning x x.order }
        ensures kept { IfSome result (λ _. self.new ≡ self.old) }
        ensures rested { let x = placed_of self.old in
            IfNone result (Simulates
            (with_placed_order (placed_rested_order C.Meaning.meaning x x.order)) x
            (placed_of self.new)) }
        ensures same { self.new ≡ record self.old { order = self.new.order } }
        ensures running { IsRunning self.new }
    {
        if self.order.is_empty() {
            return None;
        }
        if let Some(process) = self.clear_first() {
            return Some(process);
        }
        self.next_from(0)
    }

    /// The order is told its blockers, and nothing else changes.
    pub fn rest(&mut self)
        requires { IsSound C.Meaning.meaning self.old }
        ensures value { let x = placed_of self.old in
            Simulates (with_placed_order (placed_rested_order C.Meaning.meaning x x.order)) x
            (placed_of self.new) }
        ensures same { self.new ≡ record self.old { order = self.new.order } }
        ensures running { IsRunning self.new }
    {
        if self.order.is_empty() {
            return;
        }
        self.rest_all();
    }

    /// The same where the order may have entries. It stands apart since a second order is made
    /// here, whose room is cleared.
    #[inline(never)]
    fn rest_all(&mut self)
        requires { IsSound C.Meaning.meaning self.old }
        ensures value { let x = placed_of self.old in
            Simulates (with_placed_order (placed_rested_order C.Meaning.meaning x x.order)) x
            (placed_of self.new) }
        ensures same { self.new ≡ record self.old { order = self.new.order } }
        ensures running { IsRunning self.new }
    {
        let mut rested = Order::new();
        self.rest_behind(self.order.entries(), &mut rested);
        self.order = rested;
    }

    /// The first entry of the order whose count has reached the patience with its blocker's kind of
    /// object.
    pub fn expired(&self) -> Option<Waiting>
        ensures { let x = placed_of self.now in
            option_map entry_of result ≡ expired_by x.world x.order }
    {
        let entries = self.order.entries();
        if entries.is_empty() {
            return None;
        }
        first_over(&self.store.setup.patience, entries)
    }
}
