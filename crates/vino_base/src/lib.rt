//! Sources, sinks and disks: what a caller may rely on, and devices in memory.
//!
//! Each device counts its faults. A call answers [`Failed`] only where the count rose, so whoever
//! answers for a failure can show what it came from. What a device holds is told where it can be
//! told.
#![tactic(auto)]

mod calls;
mod disk;
mod health;
mod memory;
mod output;
mod streams;

pub use calls::CallPlan;
pub use disk::Disk;
pub use health::Health;
pub use memory::{MemSink, MemSource};
pub use output::write_all;
pub use streams::{Failed, Sink, Source};
