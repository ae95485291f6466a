//! Laws of whole runs: what holds of every kernel that a script leads to, from its first line on.
#![tactic(auto)]

pub mod answers;
pub mod clock;
pub mod counts;
pub mod served;
pub mod sessions;
pub mod slices;
pub mod spending;
pub mod syncs;
