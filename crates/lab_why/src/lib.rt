//! Why a graft was dropped, a call refused or waiting, in sentences.
#![tactic(auto)]

mod reasons;
mod standing;

pub use crate::reasons::{Run, why};
pub use kernel_data::NoMemory;
