//! The commands that compare policies: `lab measure` and `lab score`.
#![tactic(auto)]

mod measuring;
mod scoring;

pub use crate::measuring::measure;
pub use crate::scoring::score;
