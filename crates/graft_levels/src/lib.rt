//! The levels of a graft call in place: how one begins, what it is charged, what its next
//! instruction needs, and how it is dropped.
//!
//! A call changes the one store as it goes. Its undo log leads back, and the lock table has what
//! its levels hold. Contracts see the graft call of the definitions that a chain of levels is on a
//! store (`call_of`).
#![tactic(auto)]

ghost use Rattle.std.specs.Prelude.{◌<◌};

pub mod answers;
mod begin;
pub mod charges;
mod code;
mod drops;
mod filling;
mod keeping;
pub mod laws;
mod levels;
mod needs;
mod points;
mod watched;

pub use begin::{PieceAsk, begin_level, touch_needs};
pub use code::{code_of, image_of};
pub use drops::drop_innermost;
pub use filling::base_of;
pub use graft_loader::{Images, Loaded};
pub use graft_machine::{Machine, Outcome};
pub use keeping::{keep, keeps};
pub use levels::{Levels, MOST_LEVELS};
pub use lock_table::{Holder, Holds, LockTable};
pub use needs::{Needs, asked_needs, asked_point};
pub use points::{args_of, default_of, is_valid};
pub use undo_calls::UndoStack;

/// A level of a graft call: one run of the graft that `owner` installed at `point`.
#[derive(Drop)]
pub struct GraftLevel {
    /// The installer of its graft.
    pub owner: u8,
    /// The point of its graft.
    pub point: u8,
    /// How many instructions it has taken, at most the limit of its graft.
    pub count: u32,
    /// The arguments that it was given.
    pub args: [u32; 4],
    /// Its registers, and its place in the code. Level d of process p has segment 4 * p + d of
    /// memory.
    pub machine: Machine,
    pub ghost is_owner: { owner < 16 },
    pub ghost is_point: { point < 16 },
}

/// The graft call of a process, as far as it isn't in the store, the memory or the lock table.
#[derive(Drop)]
pub struct Chain {
    /// Its levels.
    pub levels: Levels,
    /// What its changing accessors found, by level.
    pub undo: UndoStack,
}

/// The innermost level of a process's graft call, taken out of the chain for an instruction.
#[derive(Drop)]
pub struct Innermost {
    /// The process whose call it is.
    pub process: u8,
    /// The level.
    pub level: GraftLevel,
}
