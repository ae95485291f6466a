//! The proof that the table of the system calls meets the laws of every table of calls.
#![tactic(auto)]

ghost use Rattle.kernel_model.specs.Pieces.{plain_calls};
ghost use Rattle.call_laws.specs.PlainLaws.{laws_of_plain};

mod beside;
pub mod streams;

pub use beside::{EventRules, StreamRules, tables_stand_beside};
use kernel_model::Rules;

/// The table of the system calls.
#[derive(Clone, Copy, Drop)]
pub struct PlainRules;

impl Rules for PlainRules {
    ghost meaning = { plain_calls };

    ghost laws = { laws_of_plain };
}
