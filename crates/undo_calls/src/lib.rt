//! The undo log of a call: what its changing accessors found, by level.
#![tactic(auto)]

ghost use Rattle.std.specs.Prelude.{◌≡◌, ◌-◌, ◌<◌, ◌≤◌, ◌↔◌, ◌==◌, true, cond, not, is_some, []};
ghost use Rattle.std.specs.Prelude.{◌∷◌, ◌++◌, length, option_map, reverse, take, slice_index};
ghost use Rattle.std.specs.Prelude.{slice_index_or, None, OnOk, OnErr, IsErr, IfErr, IfOk, IfSome};
ghost use Rattle.std.specs.Option.{option_copied};
ghost use Rattle.undo_calls.specs.UndoLevels.{owner_by, logged_at, bare, is_bare};

use arrayvec::ArrayVec;
use kernel_model::{Inverse, NoMemory};
use ram_space::Segments;
use std::alloc::Global;
use std::marker::Model;

/// The most records of a call.
pub const RECORDS: usize = 64;

/// The most levels of a call.
pub const LEVELS: usize = 4;

/// The records of a call, with marks where its levels begin. The bytes of a kept segment's record
/// lie in the segment of the same number as the record's place in the order of age.
///
/// Contracts see a list of lists: the records of each level, innermost level first, newest first
/// within a level.
#[derive(Drop)]
pub struct UndoStack {
    records: ArrayVec<Inverse, RECORDS>,
    marks: ArrayVec<u8, LEVELS>,
    kept: Segments,
}

impl Model for UndoStack {
    ghost use Rattle.std.specs.Prelude.{◌≡◌, List, length};
    ghost use Rattle.undo_calls.specs.UndoLevels.{Logged, levels_of, logged_in, IsStack};

    ghost Value = { List (List Logged) };

    ghost view = { λ s. levels_of s.marks.items (logged_in s.records.items s.kept) };

    ghost invariant = { λ s. IsStack s.marks.items (logged_in s.records.items s.kept)
        × (length s.kept ≡ 64) };
}

/// A record that is to be undone: its inverse, and for a kept segment the 4,096 bytes from before,
/// if there were any.
#[derive(Clone, Copy)]
pub struct Newest<'a> {
    pub inverse: Inverse,
    pub bytes: Option<&'a [u8]>,
}

/// The mark of the innermost level.
fn last_mark(marks: &[u8]) -> u8
    requires { 0 < length marks.now }
    ensures { marks.now ≡ take (length marks.now - 1) marks.now ++ result ∷ [] }
{
    marks[marks.len() - 1]
}

/// The newest of some inverses, oldest first.
fn last_inverse(records: &[Inverse]) -> Inverse
    requires { 0 < length records.now }
    ensures { records.now ≡ take (length records.now - 1) records.now ++ result ∷ [] }
{
    records[records.len() - 1]
}

/// Whether an inverse is of a kept segment, which has bytes beside it.
fn is_of_segment(inverse: Inverse) -> bool
    ensures { result ≡ not (is_bare inverse) }
{
    matches!(inverse, Inverse::Segment(_, _))
}

/// The bytes beside an inverse, if it is of a kept segment: those of its place.
fn bytes_beside(kept: &Segments, inverse: Inverse, place: usize) -> Option<&[u8]>
    requires { place < length kept.now }
    ensures value { option_copied result
        ≡ (logged_at inverse (slice_index_or kept.now place None)).bytes }
    ensures whole { IfSome result (λ b. length b.now ≡ 4096) }
{
    if is_of_segment(inverse) {
        kept.get(place)
    } else {
        None
    }
}

/// The level that owns the record at a place in the order of age: the innermost one that began
/// there or before.
fn owner_at(marks: &[u8], i: usize) -> u8
    requires { length marks.now ≤ 4 }
    ensures { result ≡ owner_by (reverse marks.now) i }
{
    let mut owner = 0;
    for level in 0..marks.len() {
        if marks[level] as usize <= i {
            owner = level as u8;
        }
    }
    owner
}

impl UndoStack {
    ghost use Rattle.undo_calls.specs.UndoLevels.{recorded, merged, innermost, newest};
    ghost use Rattle.undo_calls.specs.UndoLevels.{without_newest, records_of, inverses_of};
    ghost use Rattle.undo_calls.specs.UndoLevels.{owners_of, segment_logged};
    ghost use Rattle.undo_calls.specs.Views.{logged_of};

    /// There is no level and no record. Takes all the memory that it ever does.
    pub fn new(alloc: Global) -> Result<UndoStack, NoMemory>
        ensures { IfOk result (λ s. s ≡ []) }
    {
        let kept = Segments::new(alloc, RECORDS)?;
        Ok(UndoStack {
            records: ArrayVec::new(),
            marks: ArrayVec::new(),
            kept,
        })
    }

    /// A level begins inside the others, with no record. There are fewer than four.
    pub fn begin_level(&mut self)
        requires { length self.old < 4 }
        ensures { self.new ≡ [] ∷ self.old }
    {
        let mark = self.records.len() as u8;
        self.marks.push(mark);
    }

    /// The record of an accessor's change comes to the innermost level. Its inverse is given back,
    /// with nothing changed, exactly where there are 64 records. There is a level.
    pub fn push(&mut self, inv: Inverse) -> Result<(), Inverse>
        requires level { 0 < length self.old }
        requires bare { is_bare inv ≡ true }
        ensures full { IsErr result ↔ length (records_of self.old) ≡ 64 }
        ensures ok { OnOk result (self.new ≡ recorded (bare inv) self.old) }
        ensures err { OnErr result (self.new ≡ self.old) }
        ensures given_back { IfErr result (λ i. i ≡ inv) }
    {
        if self.records.is_full() {
            return Err(inv);
        }
        self.records.push(inv);
        Ok(())
    }

    /// The record of the kept segment of the graft at (q, pt) comes to the innermost level, with
    /// the 4,096 bytes that were kept before, if there were any. False, with nothing changed,
    /// exactly where there are 64 records. There is a level.
    pub fn push_segment(&mut self, q: u8, pt: u8, bytes: Option<&[u8]>) -> bool
        requires level { 0 < length self.old }
        requires whole { IfSome bytes (λ b. length b.now ≡ 4096) }
        ensures room { result ≡ not (length (records_of self.old) == 64) }
        ensures value { self.new ≡ cond result
            (recorded (segment_logged q pt (option_copied bytes.entry)) self.old) self.old }
    {
        let place = self.records.len();
        if place == RECORDS {
            return false;
        }
        self.kept.put(place, bytes);
        self.records.push(Inverse::Segment(q, pt));
        true
    }

    /// The innermost level ends, and its records go to the level outside it. Where it is the only
    /// one they are forgotten. There is a level.
    pub fn commit_level(&mut self)
        requires { 0 < length self.old }
        ensures { self.new ≡ merged self.old }
    {
        let _ = self.marks.pop();
        if self.marks.is_empty() {
            self.records.clear();
        }
    }

    /// The newest record of the innermost level. None exactly where that level has none. There is a
    /// level.
    pub fn newest(&self) -> Option<Newest<'_>>
        requires { 0 < length self.now }
        ensures value { option_map logged_of result ≡ newest self.now }
        ensures whole { IfSome result (λ n. IfSome n.bytes (λ b. length b.now ≡ 4096)) }
    {
        let records = self.records.as_slice();
        if records.len() == last_mark(self.marks.as_slice()) as usize {
            return None;
        }
        let inverse = last_inverse(records);
        let bytes = bytes_beside(&self.kept, inverse, records.len() - 1);
        Some(Newest { inverse, bytes })
    }

    /// Forgets the newest record of the innermost level, which has one.
    pub fn forget_newest(&mut self)
        requires { is_some (newest self.old) ≡ true }
        ensures { self.new ≡ without_newest self.old }
    {
        let _ = self.records.pop();
    }

    /// The innermost level ends. There is one, and it has no record.
    pub fn end_level(&mut self)
        requires level { 0 < length self.old }
        requires empty { innermost self.old ≡ [] }
        ensures { self.old ≡ [] ∷ self.new }
    {
        let _mark = self.marks.pop();
    }

    /// What the records of all levels put back, oldest first, without the bytes of kept segments.
    pub fn list(&self) -> &[Inverse]
        ensures value { result.now ≡ inverses_of self.now }
        ensures count { length result.now ≡ length (records_of self.now) }
        ensures few { length result.now ≤ 64 }
        ensures levels { length self.now ≤ 4 }
    {
        self.records.as_slice()
    }

    /// The level that owns record i of `list`, 0 being the outermost.
    pub fn owner(&self, i: usize) -> u8
        requires { i < length (records_of self.now) }
        ensures value { result ≡ slice_index (owners_of self.now) i }
        ensures level { result < length self.now }
    {
        owner_at(self.marks.as_slice(), i)
    }
}
