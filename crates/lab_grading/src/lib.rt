//! Tests of a task, run behind the grafts of a submission and judged (docs/GRADE.md).
#![tactic(auto)]

mod checking;
mod grading;
mod running;
mod submission;

pub use crate::checking::{CheckFault, Checked, Ready, check_task};
pub use crate::grading::{Other, Outcome};
pub use crate::submission::{Graded, grade_submission};
pub use kernel_data::NoMemory;
pub use lab_lowering::LabFault;
pub use lab_task::{SubmissionFault, Task, TaskFault, TaskKind, Test, read_task};
