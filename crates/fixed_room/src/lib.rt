//! Memory that is taken once.
//!
//! A `Room` holds items in order, and has memory for so many. It takes that memory when it is made,
//! and no other call takes any or gives any back: each clause `room` says that a room stays as
//! large as it was. Its allocator is its own, so who holds a `Room` can't take memory by it.
#![tactic(auto)]

ghost use Rattle.std.specs.Prelude.{◌≡◌, ◌+◌, ◌-◌, ◌<◌, ◌≤◌, [], ◌∷◌, ◌++◌, length, replicate};
ghost use Rattle.std.specs.Prelude.{slice_index_or, vec_len, vec_capacity, IfOk};
ghost use Rattle.std.specs.Borrow.{sem};
ghost use Rattle.fixed_room.specs.Held.{HasRoom};

use std::alloc::{AllocError, Global};
use std::marker::Model;
use std::mem;
use std::ops::{DerefSlice, DerefSliceMut, Index, IndexMut};

/// Items in order, with memory for so many. Contracts see the items, and for how many there is room.
#[derive(Drop)]
pub struct Room<T> {
    list: Vec<T>,
}

impl<T> Model for Room<T> {
    ghost use Rattle.std.specs.Prelude.{◌≤◌, length, vec_capacity};
    ghost use Rattle.fixed_room.specs.Held.{Held, held_code};

    ghost Value = { Held T };

    ghost coded = { held_code T.code };

    ghost view = { λ r. record { items = r.list.items; room = vec_capacity r.list } };

    ghost invariant = { λ r. length r.list.items ≤ vec_capacity r.list };
}

/// A list with so many copies of an item behind its own items, for which it has room. It is given
/// whole and not on loan, so that the loop becomes one fill of memory.
#[inline(always)]
#[tactic(auto, using(crate::proofs::Copies::copies))]
fn with_copies<T: Copy>(mut list: Vec<T>, count: usize, item: T) -> Vec<T>
    requires { vec_len list + count ≤ vec_capacity list }
    ensures items { result.items ≡ list.items ++ replicate count item }
    ensures room { vec_capacity result ≡ vec_capacity list }
{
    for _ in 0..count {
        list.push_reserved(item);
    }
    list
}

/// Puts copies of an item behind those of a list until there are so many. There are fewer.
#[inline(never)]
fn fill_up<T: Copy>(list: &mut Vec<T>, end: usize, item: T)
    requires fewer { vec_len list.old < end }
    requires room { end ≤ vec_capacity list.old }
    ensures items { list.new.items ≡ list.old.items ++ replicate (end - vec_len list.old) item }
    ensures room { vec_capacity list.new ≡ vec_capacity list.old }
{
    let count = end - list.len();
    let empty = Vec::new(*list.allocator());
    *list = with_copies(mem::replace(list, empty), count, item);
}

impl<T> Room<T> {
    ghost use Rattle.fixed_room.specs.Lends.{lends_items};

    /// No items, with memory for so many. Takes it. Err comes for want of memory alone.
    pub fn with_capacity(alloc: Global, count: usize) -> Result<Room<T>, AllocError>
        ensures items { IfOk result (λ r. r.items ≡ []) }
        ensures room { IfOk result (λ r. r.room ≡ count) }
    {
        let list = Vec::with_capacity(alloc, count)?;
        Ok(Room { list })
    }

    /// These items, with the memory that they came in.
    pub fn of(list: Vec<T>) -> Room<T>
        ensures items { result.items ≡ list.items }
        ensures room { result.room ≡ vec_capacity list }
    {
        Room { list }
    }

    /// How many items there are.
    #[inline(always)]
    pub fn len(&self) -> usize
        ensures { result ≡ length self.now.items }
    {
        self.list.len()
    }

    /// The items.
    #[inline(always)]
    pub fn as_slice(&self) -> &[T]
        ensures value { result.now ≡ self.now.items }
        ensures len { length result.now ≡ length self.now.items }
    {
        self.list.as_slice()
    }

    /// The items, for writing.
    #[inline(always)]
    pub fn as_mut_slice(&mut self) -> &mut [T]
        ensures* writes_back { sem 𝓛 (lends_items T.row self.entry result) }
        ensures value { result.now ≡ self.old.items }
        ensures len { length result.now ≡ length self.old.items }
    {
        self.list.as_mut_slice()
    }

    /// Puts an item behind the others. There is room for it.
    #[inline(always)]
    pub fn push(&mut self, item: T)
        requires { HasRoom self.old 1 }
        ensures items { self.new.items ≡ self.old.items ++ item ∷ [] }
        ensures room { self.new.room ≡ self.old.room }
    {
        self.list.push_reserved(item);
    }
}

impl<T: Drop> Room<T> {
    /// Keeps no item.
    #[inline(always)]
    pub fn clear(&mut self)
        ensures items { self.new.items ≡ [] }
        ensures room { self.new.room ≡ self.old.room }
    {
        self.list.clear();
    }
}

impl<T: Copy> Room<T> {
    /// So many copies of an item, with memory for no more. Takes it. Err comes for want of memory
    /// alone.
    pub fn filled(alloc: Global, item: T, count: usize) -> Result<Room<T>, AllocError>
        ensures items { IfOk result (λ r. r.items ≡ replicate count item) }
        ensures room { IfOk result (λ r. r.room ≡ count) }
    {
        let mut made = Room::with_capacity(alloc, count)?;
        made.reach(count, item);
        Ok(made)
    }

    /// Puts copies of an item behind the others until there are so many, where there are fewer.
    /// There is room for as many.
    #[inline(always)]
    pub fn reach(&mut self, end: usize, item: T)
        requires { end ≤ self.old.room }
        ensures items { self.new.items
            ≡ self.old.items ++ replicate (end - length self.old.items) item }
        ensures room { self.new.room ≡ self.old.room }
    {
        if self.list.len() < end {
            fill_up(&mut self.list, end, item);
        }
    }
}

impl<T> DerefSlice for Room<T> {
    type Elem = T;

    ghost deref_gives = { λ r xs. (xs ≡ r.items) × (length xs ≡ length r.items) };

    #[inline(always)]
    fn deref(&self) -> &[T]
        ensures value { result.now ≡ self.now.items }
        ensures len { length result.now ≡ length self.now.items }
    {
        self.as_slice()
    }
}

impl<T> DerefSliceMut for Room<T> {
    ghost use Rattle.fixed_room.specs.Lends.{lends_items};

    #[inline(always)]
    fn deref_mut(&mut self) -> &mut [T]
        ensures* writes_back { sem 𝓛 (lends_items T.row self.entry result) }
        ensures value { result.now ≡ self.old.items }
        ensures len { length result.now ≡ length self.old.items }
    {
        self.as_mut_slice()
    }
}

impl<T> Index<usize> for Room<T> {
    type Output = T;

    ghost can_index = { λ r i. i < length r.items };

    ghost index_gives = { λ r i x. x ≡ slice_index_or r.items i x };

    #[inline(always)]
    fn index(&self, index: usize) -> &T
        requires { index < length self.now.items }
        ensures { result.now ≡ slice_index_or self.now.items index result.now }
    {
        &self.list[index]
    }
}

impl<T> IndexMut<usize> for Room<T> {
    ghost use Rattle.fixed_room.specs.Lends.{lends_item};

    #[inline(always)]
    fn index_mut(&mut self, index: usize) -> &mut T
        requires { index < length self.old.items }
        ensures* writes_back { sem 𝓛 (lends_item T.row self.entry index result) }
        ensures value { result.now ≡ slice_index_or self.old.items index result.now }
    {
        &mut self.list[index]
    }
}
