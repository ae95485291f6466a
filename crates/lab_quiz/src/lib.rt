//! A quiz: a run with some of the written lines left out.
#![tactic(auto)]

mod draw;
mod lines;
mod quiz;
mod text;

pub use crate::draw::leaves_third;
pub use crate::quiz::{Source, quiz_of};
pub use kernel_data::NoMemory;
