//! The commands that judge: `lab test`, `lab grade` and `lab audit`.
#![tactic(auto)]

mod claims;
mod grades;
mod wants;

pub use crate::claims::audit;
pub use crate::grades::{grade, graded_of, task_bytes, task_of};
pub use crate::wants::test;
