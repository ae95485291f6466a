//! A session of the kernel that is looked at between its lines: it runs a script in small steps.
#![tactic(auto)]

mod session;
mod steps;

pub use crate::session::OwnSession;
pub use crate::steps::{StepLine, has_run, notes_before_ran, single_step, steps_of};
pub use graft_loader::Keys;
pub use kernel_data::NoMemory;
