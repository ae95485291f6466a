//! The run of a lab file, measured: what is counted in a session of its own between its lines, and
//! what its written lines say (docs/MEASURE.md).
#![tactic(auto)]

mod asks;
mod before;
mod counted;
mod figures;
mod moments;
mod origins;
mod run;
mod steps;
mod tally;

pub use crate::run::{Given, measure_run};
pub use kernel_data::NoMemory;
pub use lab_counts::{Column, Figure, Value, tell_csv, tell_json, tell_table, value_of};
