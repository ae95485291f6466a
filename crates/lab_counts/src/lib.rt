//! What a run is measured by: its written lines counted, and figures as a table, as CSV and as JSON
//! (docs/MEASURE.md).
#![tactic(auto)]

mod counts;
mod csv;
mod figures;
mod json;
mod notes;
mod table;

pub use crate::counts::{End, count_calls, count_drops, count_of_call, sum_taken};
pub use crate::csv::tell_csv;
pub use crate::figures::{Column, Figure, Value, value_of};
pub use crate::json::tell_json;
pub use crate::notes::{CALLS, Note, Said, call_of, notes_of};
pub use crate::table::tell_table;
pub use kernel_data::NoMemory;
