//! What a run of a lab file wrote, told line by line and compared with wanted lines.
#![tactic(auto)]

mod pieces;
mod sink;
mod telling;
mod testing;
mod text;
mod written;

pub use crate::pieces::{Piece, in_order, pieces_of};
pub use crate::sink::LineSink;
pub use crate::telling::{Aids, told};
pub use crate::testing::{Compared, compare, is_wanted};
pub use kernel_data::NoMemory;
pub use lab_hints::{Cause, Hints, causes_of, is_spent, refused_word};
