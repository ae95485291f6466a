//! The state that a trace shows, cell by cell, and what changed between two states, as a merge
//! patch in JSON (docs/TRACE.md).
#![tactic(auto)]

mod cells;
mod changes;
mod names;
mod objects;
mod patch;
mod quoted;

pub use crate::cells::{Cell, State};
pub use crate::changes::{Change, changes_of, told_after};
pub use crate::names::{
    CALLS, FILES, FRAMES, GRAFTS, HANDLERS, HOLDS, IMAGES, KEPT, KERNEL, LEVELS, LOCKS, MEMORY,
    POLICIES, PROCESSES, REGISTERS, UNDO, place_of,
};
pub use crate::objects::{append_object, append_object_number, object_of};
pub use crate::patch::append_patch;
pub use crate::quoted::{append_hex, append_quoted};
