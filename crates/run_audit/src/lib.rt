//! The auditor of runs: a script is run once more, from the definitions alone, and a claim of what
//! the run writes is compared with that, to the first line that differs.
#![tactic(auto)]

mod auditing;
mod comparing;

pub use auditing::audit;
pub use comparing::{compare, comparing_decides, conclude, start, yes_is_equal};
pub use script_model::Verdict;

/// The most bytes of a claim.
pub const CLAIM_BYTES: usize = 16_777_216;

/// How far a claim was compared with what a run writes.
#[derive(Clone, Copy)]
pub struct Place {
    pub(crate) at: usize,
    pub(crate) line: u32,
    pub(crate) differs: bool,
}
