//! The living processes of the kernel, with their cells, open files, user locks and handlers.
//!
//! Everything stands in arrays of fixed size: no call takes memory.
#![tactic(auto)]

mod arrays;
mod queue;
mod table;

pub use table::Procs;
