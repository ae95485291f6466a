//! Which blocks came into the cache, and where a block came from that a call asked for.

ghost use Rattle.std.specs.Prelude.{◌≡◌};
ghost use Rattle.lab_measure.specs.Origins as spec;

use crate::counted::DiskCall;
use kernel_data::{FrameRow, NoMemory};
use std::alloc::Global;
use text_words::put;

/// Where a block came from that a call asked for.
#[derive(Clone, Copy, PartialEq, Eq, Debug)]
pub enum Origin {
    /// A frame held it.
    Cache,
    /// The call read it from the disk.
    Disk,
    /// It can't be told.
    Untold,
}

/// What is known of a block that a call asked for.
#[derive(Clone, Copy)]
pub struct Asked {
    /// Whether no other call was in flight before.
    pub alone: bool,
    /// Whether a frame held the block before.
    pub was_held: bool,
    /// How often it came into the cache since.
    pub loads: usize,
    /// Whether a frame holds it now.
    pub is_held: bool,
    /// Whether the process that made the call owns that frame: it filled it.
    pub is_own: bool,
}

/// Where a block came from. A call that goes on alone reads it exactly where no frame held it. Where
/// others go on too, the frame's owner tells who read it, if it was read once and is still held.
pub fn origin_of(asked: Asked) -> Origin
    ensures { result ≡ spec.origin_of asked }
{
    if asked.alone {
        if asked.was_held {
            return Origin::Cache;
        }
        return Origin::Disk;
    }
    if asked.loads == 0 {
        return Origin::Cache;
    }
    if asked.loads == 1 && asked.is_held {
        if asked.is_own {
            return Origin::Disk;
        }
        return Origin::Cache;
    }
    Origin::Untold
}

/// Whether a call of the disk is a write that failed.
fn is_failed_write(call: Option<&DiskCall>) -> bool {
    match call {
        Some(call) => call.is_write && call.failed,
        None => false,
    }
}

/// Whether the call of a place brought a block into the cache: a read that didn't fail, unless the
/// frame for it couldn't be written back.
pub fn is_load(calls: &[DiskCall], place: usize) -> bool {
    match calls.get(place) {
        Some(call) => {
            !call.is_write && !call.failed && !is_failed_write(calls.get(place.saturating_add(1)))
        }
        None => false,
    }
}

/// The blocks that came into the cache, in their order.
pub fn loads_of(alloc: Global, calls: &[DiskCall]) -> Result<Vec<u32>, NoMemory> {
    let mut loads = Vec::new(alloc);
    for (place, call) in calls.iter().enumerate() {
        if is_load(calls, place) {
            put(&mut loads, call.block)?;
        }
    }
    Ok(loads)
}

/// How often a block is in a list.
pub fn count_in(blocks: &[u32], block: u32) -> usize {
    blocks.iter().filter(|other| **other == block).count()
}

/// The frame that holds a block, among those in use.
pub fn frame_of(held: &[FrameRow], block: u32) -> Option<FrameRow> {
    for row in held {
        if row.block == block {
            return Some(*row);
        }
    }
    None
}
