//! How a script runs before the auditor, line by line: what each line makes of a session, and what
//! it writes. The disk is the sample disk, and none of its calls fails.
#![tactic(auto)]

use audit_kernel::Run;
use audit_state::World;

mod entries;
mod images;
mod output;

pub use output::Output;

/// The most bytes of a line before its newline.
pub const LINE_BYTES: usize = 65_536;

/// How far a script has come.
#[derive(Drop)]
pub struct Session {
    /// What the set-up lines set.
    pub(crate) setup: World,
    /// Nothing before `boot`.
    pub(crate) run: Option<Run>,
    /// How many lines were taken.
    pub(crate) lines: u32,
    /// How many events were counted.
    pub(crate) events: u32,
    /// Whether a line was refused: no other is run.
    pub(crate) refused: bool,
}
