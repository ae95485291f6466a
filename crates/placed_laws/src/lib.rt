//! Laws of the kernel in place: that it stands for the abstract kernel, whatever both do.
#![tactic(auto)]

pub mod agreeing;
pub mod keeping;
pub mod owners;
pub mod resting;
pub mod soundness;
pub mod stretching;
pub mod undoing;

pub use call_laws::PlainRules;
