//! Which word of a text in the graft language is refused, and what could stand there
//! (docs/LANGUAGE.md, "What is refused").
#![tactic(auto)]

mod calls;
mod could;
mod parting;
mod sentence;
mod text;

pub use crate::sentence::{Refused, refused_word};
pub use graft_syntax::{LangKind, NoMemory};
