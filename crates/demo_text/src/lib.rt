//! What `demo` runs and writes: the lines of the script that it generates from a number, and the
//! line that tells of the run.
//!
//! `docs/FORMATS.md` has both.
#![tactic(auto)]

mod drawn;
mod grafts;
mod head;
mod lines;
mod summary;
mod tally;

pub use lines::{DemoLines, demo_script};
pub use tally::Tally;
