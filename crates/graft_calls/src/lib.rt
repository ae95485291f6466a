//! One graft call in place: each instruction of it, and stretches of quiet ones.
//!
//! The innermost level is taken out of the chain for its instruction. What the instruction comes to
//! is that of the definitions, on the call that the chain is on a store (`call_of`).
#![tactic(auto)]

mod accessors;
mod asks;
mod instructions;
mod reads;
mod returns;
mod seat;
mod stretches;

pub use instructions::instruction;
pub use stretches::stretch;
