//! The commands that show a run or a graft: `lab run`, `script`, `box`, `watch`, `why`, `picture`,
//! `trace` and `quiz`.
#![tactic(auto)]

mod boxing;
mod colour;
mod drawing;
mod quizzes;
mod run;
mod scripts;
mod tracing;
mod watching;
mod why;

pub use crate::boxing::show_box;
pub use crate::drawing::picture;
pub use crate::quizzes::quiz;
pub use crate::run::{Telling, run_files};
pub use crate::scripts::script;
pub use crate::tracing::trace;
pub use crate::watching::watch;
pub use crate::why::why_event;
