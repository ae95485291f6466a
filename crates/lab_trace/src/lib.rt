//! The run of a lab file as a trace: a JSON object for each moment (docs/TRACE.md).
#![tactic(auto)]

mod calls;
mod costs;
mod grafts;
mod head;
mod language;
mod looks;
mod memory;
mod moments;
mod origins;
mod places;
mod run;
mod store;
mod values;
mod wrote;

pub use crate::looks::state_of;
pub use crate::origins::{Known, Origin};
pub use crate::places::Places;
pub use crate::run::{Given, Stop, trace_run};
