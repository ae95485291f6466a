//! Laws of graft calls and of the histories that lead to them.
#![tactic(auto)]

pub mod alike;
pub mod fallen;
pub mod histories;
pub mod kernels;
pub mod notes;
pub mod stability;
pub mod store;
pub mod ticks;
