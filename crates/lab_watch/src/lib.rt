//! A run told step by step: where each graft stands before each of its instructions.
#![tactic(auto)]

mod looks;
mod running;
mod seen;
mod slow;
mod steps;
mod watch;

pub use running::{Ran, run_script};
pub use watch::tell_watched;
