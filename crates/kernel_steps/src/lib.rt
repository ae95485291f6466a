//! What moves a running kernel: how calls begin and end, the moves of their levels, whole steps,
//! and the notes that these leave.
//!
//! Each is a function over a running kernel (`running_kernel`), which contracts see as the kernel
//! in place of the definitions (`placed_of`).
#![tactic(auto)]

mod calls;
mod entering;
mod levels;
mod notes;
mod pieces;
mod settled;
mod steps;
mod stretches;
mod trace;

pub use calls::{Request, begin_call, end, join, requeue, tick};
pub use levels::{fall, instruct};
pub use notes::Notes;
pub use settled::step_in_graft;
pub use steps::{drop_level, piece_alone, step};
pub use stretches::stretch;
pub use trace::Trace;
