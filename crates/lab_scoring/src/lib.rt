//! Submissions of a task, ranked by a figure of their runs (docs/MEASURE.md).
#![tactic(auto)]

mod entries;
mod faults;
mod figures;
mod stock;
mod telling;

pub use crate::entries::{Entry, Standing, rank};
pub use crate::faults::{Named, tell_figure_fault, tell_no_figure};
pub use crate::figures::{FigureFault, sum_of};
pub use crate::stock::stock_script;
pub use crate::telling::tell_ranking;
pub use kernel_data::NoMemory;
