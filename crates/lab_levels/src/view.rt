//! What is seen of a kernel at a moment: its rows, and the registers of the innermost levels.

ghost use Rattle.std.specs.Prelude.{◌≡◌, ◌++◌, [], ◌∷◌, OnOk};
ghost use Rattle.lab_levels.specs.Seen as spec;

use script_model::{NoMemory, RawRow};
use std::alloc::Global;
use std::marker::Model;
use text_words::put;

/// The processes.
pub const PROCESSES: u8 = 16;

/// The registers of a machine.
pub const REGISTERS: u8 = 16;

/// A level of a call in flight: a run of the graft that `owner` installed at `point`.
#[derive(Clone, Copy)]
pub struct LevelRow {
    /// The process of the call.
    pub process: u8,
    /// How deep it stands, counted from 0.
    pub depth: u8,
    /// The process that installed the graft.
    pub owner: u8,
    /// The point at which it did.
    pub point: u8,
    /// How many instructions it took.
    pub count: u32,
}

/// The rows of a kernel, and of each process's innermost level the registers, 16 behind 16.
#[derive(Drop)]
pub struct View {
    /// The rows that show the whole state.
    rows: Vec<RawRow>,
    /// The levels among them, as they are looked for often.
    levels: Vec<LevelRow>,
    /// The registers.
    registers: Vec<u32>,
}

impl Model for View {
    ghost use Rattle.lab_levels.specs.Seen.{Seen};

    ghost Value = { Seen };

    ghost view = { λ v. record {
      rows = v.rows.items;
      levels = v.levels.items;
      registers = v.registers.items;
    } };
}

/// The level that a row shows, if it is the row of one.
fn level_of(row: &RawRow) -> Option<LevelRow>
    ensures { result ≡ spec.level_in row.now }
{
    match row {
        RawRow::Level {
            process,
            depth,
            installer: owner,
            point,
            taken: count,
        } => Some(LevelRow {
            process: *process,
            depth: *depth,
            owner: *owner,
            point: *point,
            count: *count,
        }),
        _ => None,
    }
}

/// Puts a level behind others, if there is one.
fn put_level(levels: &mut Vec<LevelRow>, level: Option<LevelRow>) -> Result<(), NoMemory>
    ensures { OnOk result (levels.new.items ≡ spec.with_level level levels.old.items) }
{
    match level {
        Some(level) => put(levels, level),
        None => Ok(()),
    }
}

/// The level of a process at a depth, among others.
fn level_among(levels: &[LevelRow], p: u8, depth: u8) -> Option<LevelRow>
    ensures { result ≡ spec.level_at p depth levels.now }
{
    for level in levels {
        if level.process == p && level.depth == depth {
            return Some(*level);
        }
    }
    None
}

/// The slot that a row shows, if it is the row of the graft of a process at a point.
fn slot_in(row: &RawRow, owner: u8, point: u8) -> Option<u32>
    ensures { result ≡ spec.slot_in owner point row.now }
{
    match row {
        RawRow::Graft {
            installer: q,
            point: pt,
            slot,
            ..
        } if *q == owner && *pt == point => { Some(u32::from(*slot)) }
        _ => None,
    }
}

/// The slot of the image that the graft of a process at a point has, in these rows.
fn slot_among(rows: &[RawRow], owner: u8, point: u8) -> Option<u32>
    ensures { result ≡ spec.slot_of owner point rows.now }
{
    for row in rows {
        if let Some(slot) = slot_in(row, owner, point) {
            return Some(slot);
        }
    }
    None
}

impl View {
    /// Nothing was seen.
    pub fn new(alloc: Global) -> View
        ensures { result ≡ spec.nothing_seen }
    {
        View {
            rows: Vec::new(alloc),
            levels: Vec::new(alloc),
            registers: Vec::new(alloc),
        }
    }

    /// A row more is seen.
    pub fn add_row(&mut self, row: RawRow) -> Result<(), NoMemory>
        ensures { OnOk result (self.new ≡ spec.with_row row self.old) }
    {
        put_level(&mut self.levels, level_of(&row))?;
        put(&mut self.rows, row)
    }

    /// A register more is seen.
    pub fn add_register(&mut self, value: u32) -> Result<(), NoMemory>
        ensures { OnOk result (self.new ≡ spec.with_register value self.old) }
    {
        put(&mut self.registers, value)
    }

    /// The rows that were seen.
    pub fn rows(&self) -> &[RawRow]
        ensures { result.now ≡ self.now.rows }
    {
        self.rows.as_slice()
    }

    /// The level of a process at a depth.
    pub fn level(&self, p: u8, depth: u8) -> Option<LevelRow>
        ensures { result ≡ spec.level_at p depth self.now.levels }
    {
        level_among(self.levels.as_slice(), p, depth)
    }

    /// The innermost level of a process.
    pub fn innermost(&self, p: u8) -> Option<LevelRow>
        ensures { result ≡ spec.innermost p self.now.levels }
    {
        self.level(p, 3)
            .or(self.level(p, 2))
            .or(self.level(p, 1))
            .or(self.level(p, 0))
    }

    /// The slot of the image that the graft of a process at a point has.
    pub fn slot(&self, owner: u8, point: u8) -> Option<u32>
        ensures { result ≡ spec.slot_of owner point self.now.rows }
    {
        slot_among(self.rows.as_slice(), owner, point)
    }

    /// A register of a process's innermost level.
    pub fn register(&self, p: u8, i: u8) -> u32
        ensures { result ≡ spec.register_of p i self.now.registers }
    {
        let at = usize::from(p) * 16 + usize::from(i);
        match self.registers.get(at) {
            Some(value) => *value,
            None => 0,
        }
    }
}
