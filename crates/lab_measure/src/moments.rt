//! What came of something that was run: blocks that were asked for, read ahead and evicted.

use crate::asks::{Asking, block_of, has_got};
use crate::before::{Before, held_of};
use crate::counted::DiskCall;
use crate::origins::{Asked, Origin, count_in, frame_of, loads_of, origin_of};
use crate::tally::{Tally, with_more};
use graft_points::Policy;
use kernel_data::{FrameRow, NoMemory};
use running_kernel::Running;
use std::alloc::Global;
use text_words::put;
use vino_top::AllCalls;

/// What was run: what was seen before it, the calls of the disk since, and what it wrote.
#[derive(Clone, Copy)]
pub struct Moment<'a> {
    pub before: &'a Before,
    /// The blocks that came into the cache.
    pub loads: &'a [u32],
    /// The frames in use now.
    pub held: &'a [FrameRow],
    pub written: &'a [u8],
}

/// A list of blocks without one of them.
fn without(alloc: Global, blocks: &[u32], block: u32) -> Result<Vec<u32>, NoMemory> {
    let mut left = Vec::new(alloc);
    for other in blocks {
        if *other != block {
            put(&mut left, *other)?;
        }
    }
    Ok(left)
}

/// Whether no call of another process was in flight.
fn is_alone(before: &Before, asking: Asking) -> bool {
    let own = before
        .asking
        .as_slice()
        .iter()
        .any(|other| other.number == asking.number);
    before.flying == 0 || (before.flying == 1 && own)
}

/// Where a block came from that a call asked for.
fn origin_in(moment: Moment, asking: Asking, block: u32) -> Origin {
    let frame = frame_of(moment.held, block);
    let is_own = match frame {
        Some(row) => row.owner == asking.process,
        None => false,
    };
    origin_of(Asked {
        alone: is_alone(moment.before, asking),
        was_held: frame_of(moment.before.held.as_slice(), block).is_some(),
        loads: count_in(moment.loads, block),
        is_held: frame.is_some(),
        is_own,
    })
}

/// The blocks that came into the cache and that no call read for itself, and those read ahead that
/// none asked for yet.
#[derive(Drop)]
pub struct Ahead {
    pub loads: Vec<u32>,
    pub unused: Vec<u32>,
}

/// Counts a block that a call got. Read ahead, it is used.
fn count_got(
    alloc: Global,
    tally: &mut Tally,
    ahead: &mut Ahead,
    moment: Moment,
    asking: Asking,
    block: u32,
) -> Result<(), NoMemory> {
    match origin_in(moment, asking, block) {
        Origin::Disk => {
            tally.fetched = with_more(tally.fetched, 1);
            ahead.loads = without(alloc, ahead.loads.as_slice(), block)?;
            ahead.unused = without(alloc, ahead.unused.as_slice(), block)?;
        }
        Origin::Untold => tally.untold = with_more(tally.untold, 1),
        Origin::Cache => {
            tally.found = with_more(tally.found, 1);
            let was_ahead = count_in(ahead.unused.as_slice(), block) > 0
                || count_in(ahead.loads.as_slice(), block) > 0;
            if was_ahead {
                tally.used = with_more(tally.used, 1);
                tally.ahead = with_more(tally.ahead, count_in(ahead.loads.as_slice(), block));
                ahead.loads = without(alloc, ahead.loads.as_slice(), block)?;
                ahead.unused = without(alloc, ahead.unused.as_slice(), block)?;
            }
        }
    }
    Ok(())
}

/// Counts the block of a call, if it got one.
fn count_asking<B: Policy>(
    alloc: Global,
    tally: &mut Tally,
    ahead: &mut Ahead,
    running: &Running<AllCalls, B>,
    moment: Moment,
    asking: Asking,
) -> Result<(), NoMemory> {
    if asking.process >= 16 || !has_got(running, asking, moment.written) {
        return Ok(());
    }
    match block_of(&running.store, asking) {
        Some(block) => count_got(alloc, tally, ahead, moment, asking, block),
        None => {
            tally.untold = with_more(tally.untold, 1);
            Ok(())
        }
    }
}

/// The blocks read ahead that none asked for yet and that a frame still holds.
fn still_unused(alloc: Global, ahead: &Ahead, held: &[FrameRow]) -> Result<Vec<u32>, NoMemory> {
    let mut unused = Vec::new(alloc);
    for row in held {
        let was_ahead = count_in(ahead.unused.as_slice(), row.block) > 0
            || count_in(ahead.loads.as_slice(), row.block) > 0;
        if was_ahead {
            put(&mut unused, row.block)?;
        }
    }
    Ok(unused)
}

/// Counts the calls of the disk.
fn count_disk(tally: &mut Tally, calls: &[DiskCall]) {
    for call in calls {
        if call.failed {
            tally.failures = with_more(tally.failures, 1);
        } else if call.is_write {
            tally.writes = with_more(tally.writes, 1);
        } else {
            tally.reads = with_more(tally.reads, 1);
        }
    }
}

/// Counts what came of something that was run by a kernel that was booted before: the blocks read
/// ahead that none asked for yet.
pub fn count_moment<B: Policy>(
    alloc: Global,
    tally: &mut Tally,
    running: &Running<AllCalls, B>,
    before: &Before,
    calls: &[DiskCall],
    written: &[u8],
    unused: Vec<u32>,
) -> Result<Vec<u32>, NoMemory> {
    count_disk(tally, calls);
    let loads = loads_of(alloc, calls)?;
    let held = held_of(alloc, &running.store)?;
    let grown = held.len().saturating_sub(before.held.len());
    tally.evictions = with_more(tally.evictions, loads.len().saturating_sub(grown));
    let moment = Moment {
        before,
        loads: loads.as_slice(),
        held: held.as_slice(),
        written,
    };
    let mut ahead = Ahead {
        loads: without(alloc, loads.as_slice(), u32::MAX)?,
        unused,
    };
    for asking in before.asking.as_slice() {
        count_asking(alloc, tally, &mut ahead, running, moment, *asking)?;
    }
    tally.ahead = with_more(tally.ahead, ahead.loads.len());
    still_unused(alloc, &ahead, held.as_slice())
}
