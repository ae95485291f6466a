//! The outside world: std's readers, writers and files as sources, sinks and disks.
//!
//! They count faults and tell no contents. What a reader, a writer or a file really holds is
//! trusted, not proved.
#![tactic(auto)]

mod file_disk;
mod opened;
mod output;
mod streams;

pub use file_disk::FileDisk;
pub use opened::open_disk;
pub use output::{GatheringSink, OrderedDisk, Output, PromptSource};
pub use streams::{StreamSink, StreamSource};
