//! What a task and a submission say (docs/GRADE.md): the tests of a task, read line by line, or the
//! line that is refused; and whether a submission holds the grafts that a task asks for, and no
//! more.
#![tactic(auto)]

mod faults;
mod reader;
mod submission;
mod task;
mod words;

pub use crate::faults::{SubmissionFault, TaskFault, TaskKind};
pub use crate::reader::read_task;
pub use crate::submission::check_submission;
pub use crate::task::{Task, Test};
pub use lab_reader::Text;
pub use script_model::NoMemory;
