//! What is counted of a run between its lines.

use kernel_data::NoMemory;
use std::alloc::{AllocError, Global};

/// The points of a process.
const POINTS: usize = 16;

/// The instructions of grafts at a point.
#[derive(Clone, Copy)]
pub struct PointTally {
    /// All that were taken up.
    pub instructions: u64,
    /// Those that mask an address for an access to memory.
    pub masks: u64,
    /// Those that call an accessor of the kernel.
    pub accessors: u64,
}

/// No instruction.
pub const NO_INSTRUCTION: PointTally = PointTally {
    instructions: 0,
    masks: 0,
    accessors: 0,
};

/// What is counted of a run. Each count stands still at its end.
#[derive(Drop)]
pub struct Tally {
    /// Blocks that calls asked for and got, by where they came from.
    pub found: u64,
    pub fetched: u64,
    pub untold: u64,
    /// Blocks that were read ahead, and those of them that a call asked for.
    pub ahead: u64,
    pub used: u64,
    /// Calls of the disk since `boot`.
    pub reads: u64,
    pub writes: u64,
    pub failures: u64,
    /// Frames that were filled anew, and those that a graft chose.
    pub evictions: u64,
    pub by_grafts: u64,
    /// Ticks, and those that calls waited.
    pub ticks: u64,
    pub waited: u64,
    /// What processes have spent at the end: steps, records and locks.
    pub spent: [u64; 3],
    /// By point.
    pub points: Vec<PointTally>,
}

/// A count with so many more.
pub fn with_more(count: u64, more: usize) -> u64 {
    count.saturating_add(more as u64)
}

fn no_points(alloc: Global, points: usize) -> Result<Vec<PointTally>, AllocError> {
    vec![in alloc; NO_INSTRUCTION; points]
}

impl Tally {
    /// Nothing was counted.
    pub fn new(alloc: Global) -> Result<Tally, NoMemory> {
        let Ok(points) = no_points(alloc, POINTS) else {
            return Err(NoMemory);
        };
        Ok(Tally {
            found: 0,
            fetched: 0,
            untold: 0,
            ahead: 0,
            used: 0,
            reads: 0,
            writes: 0,
            failures: 0,
            evictions: 0,
            by_grafts: 0,
            ticks: 0,
            waited: 0,
            spent: [0; 3],
            points,
        })
    }

    /// The instructions of grafts at a point.
    pub fn point(&self, point: usize) -> PointTally {
        match self.points.get(point) {
            Some(tally) => *tally,
            None => NO_INSTRUCTION,
        }
    }
}
