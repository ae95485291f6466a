//! Memory: the segment of a level, and what is outside it before and after its instructions.

ghost use Rattle.std.specs.Prelude.{◌≡◌, ◌≤◌, ◌+◌, ◌%◌, ◌==◌, ◌&&◌, ◌++◌, cond, false, length};
ghost use Rattle.std.specs.Prelude.{take, drop, slice_range, OnOk};
ghost use Rattle.lab_levels.specs.Outside as spec;
ghost use Rattle.lab_levels.specs.Places as places;

use crate::compare::has_bytes;
use crate::view::LevelRow;
use ram_space::{RAM_BYTES, Ram};
use script_model::NoMemory;
use std::alloc::Global;
use std::marker::Model;
use text_words::{append, append_with};

/// Where the first segment begins in memory.
const FIRST_SEGMENT: usize = 262_144;

/// The bytes of a segment.
pub(crate) const SEGMENT_BYTES: usize = 4096;

/// Whether two memories are the same between two places.
#[tactic(auto, using(crate::proofs::Ranges::has_range))]
fn same_between(before: &[u8], after: &Ram, from: usize, to: usize) -> bool
    requires order { from ≤ to }
    requires inside { to ≤ RAM_BYTES }
    requires whole { length before.now ≡ RAM_BYTES }
    ensures { result ≡ spec.same_between from to before.now after.now }
{
    has_bytes(after, from as u32, &before[from..to])
}

/// Whether two memories are the same before one place, and from another place on.
fn same_outside(before: &[u8], after: &Ram, from: usize, to: usize) -> bool
    requires order { from ≤ to }
    requires inside { to ≤ RAM_BYTES }
    requires whole { length before.now ≡ RAM_BYTES }
    ensures { result ≡ spec.same_outside from to before.now after.now }
{
    same_between(before, after, 0, from) && same_between(before, after, to, RAM_BYTES as usize)
}

/// Where the segment of a level begins in memory.
fn segment_begin(level: &LevelRow) -> usize
    ensures { result ≡ spec.segment_begin level.now.process level.now.depth }
{
    let segment = 4 * usize::from(level.process) + usize::from(level.depth);
    FIRST_SEGMENT + SEGMENT_BYTES * segment
}

/// The segment of a level in a memory; no byte where the memory ends before.
pub fn segment_in<'a>(memory: &'a Ram, level: &LevelRow) -> &'a [u8]
    ensures { result.now
        ≡ spec.segment_in memory.now (spec.segment_begin level.now.process level.now.depth) }
{
    let from = segment_begin(level);
    if from + SEGMENT_BYTES <= RAM_BYTES as usize {
        memory.bytes(from as u32, SEGMENT_BYTES as u32)
    } else {
        &[]
    }
}

/// Takes over the segment of a memory that begins at a place.
fn take_over(kept: &mut [u8], memory: &Ram, from: usize)
    requires page { from % 4096 ≡ 0 }
    requires inside { from + 4096 ≤ RAM_BYTES }
    requires whole { length kept.old ≡ RAM_BYTES }
    ensures { kept.new ≡ take from kept.old ++ slice_range memory.now from (from + 4096)
        ++ drop (from + 4096) kept.old }
{
    kept[from..from + SEGMENT_BYTES].copy_from_slice(memory.bytes(
        from as u32,
        SEGMENT_BYTES as u32,
    ));
}

/// Whether a level took an instruction between two moments, and went on.
fn has_gone_on(before: &LevelRow, after: &LevelRow) -> bool
    ensures { result ≡ places.has_gone_on before.now after.now }
{
    before.depth == after.depth && before.count.saturating_add(1) == after.count
}

/// The memory as it was seen last, how many instructions were compared, and how many of them changed
/// bytes outside the segment of their level.
#[derive(Drop)]
pub struct Outside {
    memory: Vec<u8>,
    /// Whether nothing was run since `memory` was the memory.
    is_current: bool,
    compared: u32,
    changing: u32,
}

impl Model for Outside {
    ghost use Rattle.lab_levels.specs.Outside.{Compared};

    ghost Value = { Compared };

    ghost view = { λ o. record {
      kept = o.memory.items;
      is_current = o.is_current;
      compared = o.compared;
      changing = o.changing;
    } };
}

/// Keeps the bytes of a memory.
#[tactic(auto, using(crate::proofs::Ranges::page_more, crate::proofs::Ranges::all_pages))]
fn keep_memory(kept: &mut Vec<u8>, memory: &Ram) -> Result<(), NoMemory>
    ensures { OnOk result (kept.new.items ≡ memory.now) }
{
    kept.clear();
    // The memory has all its bytes.
    let _ = memory.bytes(0, 0);
    for page in 0..RAM_BYTES / SEGMENT_BYTES as u32 {
        let bytes = memory.bytes(SEGMENT_BYTES as u32 * page, SEGMENT_BYTES as u32);
        append(kept, bytes)?;
    }
    Ok(())
}

/// Appends what is said before the counts.
#[tactic(auto, unfolding(crate::specs::Outside::outside_said))]
fn append_outside(out: &mut Vec<u8>) -> Result<(), NoMemory>
    ensures { OnOk result (out.new.items ≡ out.old.items ++ spec.outside_said) }
{
    append(
        out,
        b"memory outside the graft's segment: bytes changed in ",
    )
}

/// Appends a text, and a number behind it.
#[tactic(auto, unfolding(crate::specs::Outside::numbered))]
pub(crate) fn append_numbered(out: &mut Vec<u8>, text: &[u8], n: u32) -> Result<(), NoMemory>
    ensures { OnOk result (out.new.items ≡ out.old.items ++ spec.numbered text.now n) }
{
    append_with(out, text, n)
}

/// Appends a count, or that it is none.
#[tactic(auto, unfolding(crate::specs::Outside::count_said))]
fn append_count(out: &mut Vec<u8>, n: u32) -> Result<(), NoMemory>
    ensures { OnOk result (out.new.items ≡ out.old.items ++ spec.count_said n) }
{
    if n == 0 {
        return append(out, b"none");
    }
    append_with(out, b"", n)
}

/// Appends how many of so many instructions changed bytes outside the segment of their level;
/// nothing where none was compared.
fn append_compared(out: &mut Vec<u8>, changing: u32, compared: u32) -> Result<(), NoMemory>
    ensures said { OnOk result (out.new.items
        ≡ out.old.items ++ spec.compared_said changing compared) }
{
    if compared == 0 {
        return Ok(());
    }
    append_outside(out)?;
    append_count(out, changing)?;
    append_numbered(out, b" of ", compared)?;
    append(out, b" instructions")
}

impl Outside {
    /// No memory was seen yet.
    pub fn new(alloc: Global) -> Outside
        ensures { result ≡ spec.nothing_compared }
    {
        Outside {
            memory: Vec::new(alloc),
            is_current: false,
            compared: 0,
            changing: 0,
        }
    }

    /// Keeps the bytes of the memory, but where nothing was run since they were kept.
    pub fn see(&mut self, memory: &Ram) -> Result<(), NoMemory>
        ensures { OnOk result (self.new ≡ cond
            (self.old.is_current && length self.old.kept == RAM_BYTES) self.old
            (record self.old { kept = memory.now })) }
    {
        if self.is_current && self.memory.len() == RAM_BYTES as usize {
            return Ok(());
        }
        keep_memory(&mut self.memory, memory)
    }

    /// Something was run, so the memory may be another one.
    pub fn pass(&mut self)
        ensures { self.new ≡ record self.old { is_current = false } }
    {
        self.is_current = false;
    }

    /// Compares the memory with what was seen last, if the innermost level of a process took an
    /// instruction and went on: these are that level before and after, and the memory now.
    pub fn compare(&mut self, before: Option<LevelRow>, after: Option<LevelRow>, memory: &Ram)
        ensures { self.new ≡ spec.compared_after before after memory.now self.old }
    {
        if let (Some(before), Some(after)) = (before, after) {
            if has_gone_on(&before, &after) {
                self.compare_level(&after, memory);
            }
        }
    }

    /// Compares the memory outside the segment of a level with what was seen last. Where that is the
    /// same, the segment alone is taken over.
    fn compare_level(&mut self, level: &LevelRow, memory: &Ram)
        ensures { self.new ≡ spec.compared_at
            (spec.segment_begin level.now.process level.now.depth) memory.now self.old }
    {
        let from = segment_begin(level);
        let to = from + SEGMENT_BYTES;
        if self.memory.len() != RAM_BYTES as usize || to > RAM_BYTES as usize {
            return;
        }
        self.compared = self.compared.saturating_add(1);
        if same_outside(self.memory.as_slice(), memory, from, to) {
            take_over(&mut self.memory, memory, from);
            self.is_current = true;
        } else {
            self.changing = self.changing.saturating_add(1);
        }
    }

    /// Appends how many instructions changed bytes outside the segment of their level; nothing where
    /// none was compared.
    pub fn append_told(&self, out: &mut Vec<u8>) -> Result<(), NoMemory>
        ensures told { OnOk result (out.new.items
            ≡ out.old.items ++ spec.compared_said self.now.changing self.now.compared) }
    {
        append_compared(out, self.changing, self.compared)
    }
}
