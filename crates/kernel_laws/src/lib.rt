//! Laws of the abstract kernel's definitions.
#![tactic(auto)]

pub mod alone;
pub mod amounts;
pub mod clock;
pub mod rest;
pub mod soundness;
pub mod undoing;
