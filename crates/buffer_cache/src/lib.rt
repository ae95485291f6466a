//! The buffer cache: frames of 512 bytes that hold blocks of the disk, and the order in which they
//! were used.
#![tactic(auto)]

mod cache;
mod frames;
mod index;

pub use cache::Cache;
