//! What is seen of the levels of calls from one moment to the next, and told of them in lines that
//! are woven into what the kernel wrote.
#![tactic(auto)]

mod code;
mod compare;
mod outside;
mod own_lines;
mod seats;
mod view;
mod words;
mod woven;

pub use crate::code::{Origin, append_instruction};
pub use crate::outside::{Outside, segment_in};
pub use crate::own_lines::{OwnLines, count_of};
pub use crate::seats::{LEVELS, Seat, Seats};
pub use crate::view::{LevelRow, PROCESSES, REGISTERS, View};
pub use crate::words::{append_level, standing_of};
pub use crate::woven::weave;
