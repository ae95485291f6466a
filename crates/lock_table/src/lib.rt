//! What each level of each call in flight holds of the kernel's objects: a table of masks, two for
//! each process and object.
#![tactic(auto)]

mod call;
mod holder;
pub mod laws;
mod levels;
mod masks;
mod numbers;
mod process_masks;
mod rows;
mod table;
mod taking;

pub use holder::Holder;
pub use kernel_model::{Mode, NoMemory, Object};
pub use numbers::object_number;
pub use table::LockTable;

/// The levels of one process that hold one object: a mask of four bits for each mode, the outermost
/// level's lowest.
#[derive(Clone, Copy, PartialEq, Eq)]
pub struct Holds {
    shared: u8,
    exclusive: u8,
}

/// The processes that hold one object: a mask of sixteen bits of those of which some level holds
/// it, and one of those of which some level holds it exclusively, process 0's lowest.
#[derive(Clone, Copy)]
pub(crate) struct Takers {
    holding: u16,
    exclusive: u16,
}
