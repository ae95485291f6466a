//! What is told of graded submissions: in words, as TAP 14, or as JSON (docs/GRADE.md).
#![tactic(auto)]

mod json;
mod plain;
mod refusals;
mod tap;
mod task_faults;
mod verdict;
mod words;

pub use crate::task_faults::{tell_check_fault, tell_task_fault};
pub use crate::verdict::{Format, Verdict, head_of, tell_verdict};
pub use kernel_data::NoMemory;
