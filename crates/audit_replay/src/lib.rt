//! Histories of graft calls, and where they lead: a graft call is run again from the committed
//! objects, mark by mark, as the definitions say it.
#![tactic(auto)]

use audit_levels::{Config, Effect};

mod effects;
mod fallen;
mod marks;
mod pasts;

pub use fallen::fall_back;
pub use marks::{begin, is_going_on, marks_on, replay, step_on};

/// A mark of a history: an instruction, or an ask whose level was dropped, with what its levels did
/// that outlives them, in order.
#[derive(Drop)]
pub enum Mark {
    Stepped,
    Fell(Vec<Effect>),
}

/// What came about since a level began, oldest first, and how many marks stand before its ask.
#[derive(Drop)]
pub struct Past {
    pub began: u32,
    pub effects: Vec<Effect>,
}

/// Where a history leads: the graft call, how many marks the history has, and the past of each
/// level, innermost first.
#[derive(Drop)]
pub struct Trace {
    pub config: Config,
    pub marks: u32,
    pub pasts: Vec<Past>,
}
