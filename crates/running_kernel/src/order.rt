//! The order of waiting.

ghost use Rattle.std.specs.Prelude.{◌≡◌, ◌==◌, ◌<◌, ◌≤◌, ◌+◌, ◌++◌, ◌∷◌, ◌-◌, [], not, map, filter};
ghost use Rattle.std.specs.Prelude.{length, slice_set, None};
ghost use Rattle.std.specs.List.{list_any};
ghost use Rattle.running_kernel.specs.Orders.{joined, later};

use arrayvec::ArrayVec;
use kernel_data::{Object, PROCESSES};
use std::marker::Model;

/// What blocks a call.
#[derive(Clone, Copy)]
pub struct Blocking {
    /// The object that it needs.
    pub object: Object,
    /// The process that holds it.
    pub holder: u8,
    /// The number of the holder's call; none where it holds a user lock.
    pub call: Option<u32>,
}

/// An entry of the order of waiting.
#[derive(Clone, Copy)]
pub struct Waiting {
    /// The process that waits.
    pub process: u8,
    /// What blocked its call when the kernel last rested.
    pub blocker: Option<Blocking>,
    /// For how many ticks that has been so.
    pub count: u32,
}

impl Default for Waiting {
    /// What stands in a place of a fixed list that isn't used.
    fn default() -> Waiting {
        Waiting::joined(0)
    }
}

impl Waiting {
    /// An entry that has just joined.
    pub fn joined(process: u8) -> Waiting
        ensures { result ≡ joined process }
    {
        Waiting {
            process,
            blocker: None,
            count: 0,
        }
    }

    /// One tick more, up to the end of the count.
    fn later(self) -> Waiting
        ensures { result ≡ later self }
    {
        Waiting {
            count: self.count.saturating_add(1),
            ..self
        }
    }
}

/// The order of waiting, with at most one entry for each process. Contracts see its list.
#[derive(Drop)]
pub struct Order {
    list: ArrayVec<Waiting, PROCESSES>,
}

impl Model for Order {
    ghost use Rattle.std.specs.Prelude.{List};
    ghost use Rattle.running_kernel.specs.declared.order.Waiting.{Waiting};

    ghost Value = { List Waiting };

    ghost view = { λ o. o.list.items };
}

/// One more tick for each entry.
fn count_all(list: &mut [Waiting])
    ensures { list.new ≡ map later list.old }
{
    for waiting in list.iter_mut() {
        *waiting = waiting.later();
    }
}

/// Puts an entry at a place.
fn put_at(list: &mut [Waiting], i: usize, waiting: Waiting)
    requires { i < length list.old }
    ensures { list.new ≡ slice_set list.old i waiting }
{
    list[i] = waiting;
}

/// Takes out the entries of process p. It is always inlined: mostly p has the only one.
#[inline(always)]
fn drop_entries(list: &mut ArrayVec<Waiting, PROCESSES>, p: u8)
    ensures { list.new.items ≡ filter (λ w. not (w.process == p)) list.old.items }
{
    if list.len() == 1 {
        if !is_others(&list.as_slice()[0], p) {
            list.clear();
        }
        return;
    }
    list.retain(|waiting| is_others(waiting, p));
}

/// Takes out the entries of process p, and puts one that has just joined at the end. Mostly there is
/// one entry, of p.
fn move_to_end(list: &mut ArrayVec<Waiting, PROCESSES>, p: u8)
    requires { length (filter (λ w. not (w.process == p)) list.old.items) < 16 }
    ensures { list.new.items
        ≡ filter (λ w. not (w.process == p)) list.old.items ++ joined p ∷ [] }
{
    if list.len() == 1 && !is_others(&list.as_slice()[0], p) {
        put_at(list.as_mut_slice(), 0, Waiting::joined(p));
        return;
    }
    drop_entries(list, p);
    list.push(Waiting::joined(p));
}

/// Whether process p has one of these entries.
fn is_among(list: &[Waiting], p: u8) -> bool
    ensures { result ≡ list_any (λ w. w.process == p) list.now }
{
    list.iter().any(|waiting| waiting.process == p)
}

/// Whether an entry is of another process than p.
fn is_others(waiting: &Waiting, p: u8) -> bool
    ensures { result ≡ not (waiting.now.process == p) }
{
    waiting.process != p
}

impl Order {
    /// No entry.
    pub fn new() -> Order
        ensures { result ≡ [] }
    {
        Order {
            list: ArrayVec::new(),
        }
    }

    /// The entries, the first to come first.
    pub fn entries(&self) -> &[Waiting]
        ensures value { result.now ≡ self.now }
        ensures few { length result.now ≤ 16 }
    {
        self.list.as_slice()
    }

    /// An entry comes to the end. There are fewer than 16.
    pub fn push(&mut self, waiting: Waiting)
        requires { length self.old < 16 }
        ensures { self.new ≡ self.old ++ waiting ∷ [] }
    {
        self.list.push(waiting);
    }

    /// An entry takes the place of the one that stands there.
    pub fn put(&mut self, i: usize, waiting: Waiting)
        requires { i < length self.old }
        ensures { self.new ≡ slice_set self.old i waiting }
    {
        put_at(self.list.as_mut_slice(), i, waiting);
    }

    /// The entries of process p leave.
    #[inline(always)]
    pub fn leave(&mut self, p: u8)
        ensures { self.new ≡ filter (λ w. not (w.process == p)) self.old }
    {
        drop_entries(&mut self.list, p);
    }

    /// The entries of process p leave, and one that has just joined comes to the end. Fewer than 16
    /// entries are of others.
    pub fn to_end(&mut self, p: u8)
        requires { length (filter (λ w. not (w.process == p)) self.old) < 16 }
        ensures { self.new ≡ filter (λ w. not (w.process == p)) self.old ++ joined p ∷ [] }
    {
        move_to_end(&mut self.list, p);
    }

    /// Whether there is no entry.
    pub fn is_empty(&self) -> bool
        ensures { result ≡ (length self.now == 0) }
    {
        self.list.is_empty()
    }

    /// Whether process p has an entry.
    pub fn has(&self, p: u8) -> bool
        ensures { result ≡ list_any (λ w. w.process == p) self.now }
    {
        is_among(self.list.as_slice(), p)
    }

    /// One more tick for each entry, up to the end of its count.
    pub fn count_up(&mut self)
        ensures { self.new ≡ map later self.old }
    {
        count_all(&mut self.list);
    }
}
