//! Wanted lines of a test, compared with those that its run wrote (docs/GRADE.md).
#![tactic(auto)]

mod following;
mod judging;
mod owners;

pub use crate::following::follows;
pub use crate::judging::first_other;
pub use crate::owners::{Line, lines_by, wants_of};
pub use kernel_data::NoMemory;
pub use lab_lines::Piece;
pub use lab_reader::Want;
