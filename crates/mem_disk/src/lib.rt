//! A disk in memory, and the directory in block 0 of a disk. `docs/FORMATS.md` has the formats.
#![tactic(auto)]

mod directory;
mod disk;
mod log;
mod sample;

pub use directory::{Directory, read_directory};
pub use disk::MemDisk;
pub use log::{CALLS, DiskLog};
pub use vino_base::{Disk, Failed, MemSink, MemSource, Sink, Source};
