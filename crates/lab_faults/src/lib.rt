//! Why a lab file is refused, in words, with the place in the line.
#![tactic(auto)]

mod grafted;
mod operands;
mod sentence;

pub use crate::sentence::{tell_fault, tell_word};
