//! The state that the auditor keeps: one value for each object, as rows; and the changes that grafts
//! and system calls make of it.
//!
//! A value that comes by number stands in rows, and has a default where none is. So each change is
//! that of the definitions for all numbers, and nothing has to be shown of ranges.
#![tactic(auto)]

use audit_table::Row;
use kernel_model::{Cause, Inverse, OpenRow, QueueRow};
use std::rc::Rc;

pub mod access;
mod cache;
mod changes;
mod charges;
mod copies;
mod files;
mod lists;
pub mod policies;
mod processes;
pub mod sample;
mod sums;
mod views;

pub use copies::share_if;

/// An amount of each kind.
#[derive(Clone, Copy)]
pub struct Amounts {
    pub steps: u64,
    pub records: u64,
    pub locks: u64,
}

/// What a process has, and what was spent for it.
#[derive(Clone, Copy)]
pub struct Account {
    pub balance: Amounts,
    pub spent: Amounts,
}

/// A graft that stands at a point.
#[derive(Clone, Copy)]
pub struct Graft {
    pub image: u8,
    pub limit: u32,
    pub billed: bool,
    pub balance: Amounts,
}

/// The accounts of processes, by process, and the grafts, by process and point.
#[derive(Drop)]
pub struct Accounts {
    pub grafts: Vec<Row<Option<Graft>>>,
    pub accounts: Vec<Row<Account>>,
}

/// A frame that is in use. Its bytes stand elsewhere: no graft changes them.
#[derive(Clone, Copy)]
pub struct Frame {
    pub owner: u8,
    pub block: u32,
    pub dirty: bool,
    pub mark: u8,
}

/// The bytes of a segment that is kept for a graft. All copies of a state share them.
#[derive(Drop)]
pub struct Kept {
    pub bytes: Rc<Vec<u8>>,
}

/// All objects but accounts and grafts: cells by process and number, open files by process and
/// descriptor, frames and user locks by number, policies by kind and their parameters by kind and
/// policy, kept segments by process and point.
#[derive(Drop)]
pub struct Things {
    pub cells: Vec<Row<u32>>,
    pub files: Vec<Row<Option<OpenRow>>>,
    pub queue: Vec<QueueRow>,
    pub frames: Vec<Row<Option<Frame>>>,
    pub lru: Vec<u32>,
    pub locks: Vec<Row<Option<u8>>>,
    pub chosen: Vec<Row<u8>>,
    pub params: Vec<Row<u32>>,
    pub segments: Vec<Row<Option<Kept>>>,
    pub handlers: Vec<(u8, u8)>,
}

/// What no line changes once a run has booted: how many frames there are, how many ticks a call
/// waits for an object of each kind (10 where no row says), and what root has of each kind of
/// amount at first. The disk is the sample disk.
#[derive(Drop)]
pub struct World {
    pub frames: u8,
    pub patience: Vec<Row<u32>>,
    pub grant: u32,
}

/// What a plain accessor came to: a result; a result and what undoes its change; or a refusal by
/// the values.
#[derive(Clone, Copy)]
pub enum Accessed {
    Gives(u32),
    Changes(u32, Inverse),
    Refuses(Cause),
}

/// A plain accessor.
#[derive(Clone, Copy)]
pub enum Callable {
    CellGet,
    CellSet,
    NiceGet,
    NiceSet,
    WindowGet,
    WindowSet,
    FramesMine,
    FrameAt,
    FrameBlock,
    FrameMark,
    TuneGet,
    TuneSet,
    TakeLock,
}

/// What kind of point a number names: one that reads ahead, evicts, chooses a process, serves events
/// or changes a stream.
#[derive(Clone, Copy)]
pub enum PointKind {
    Ahead,
    Victim,
    Next,
    Serve,
    Stream,
}

/// A file of the directory without its name: its first block, how many blocks it has, and how many
/// bytes.
#[derive(Clone, Copy)]
pub struct Extent {
    pub start: u32,
    pub blocks: u32,
    pub length: u32,
}
