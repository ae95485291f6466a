//! What is seen of a kernel before something is run.

ghost use Rattle.std.specs.Prelude.{◌<◌, IfOk};

use crate::asks::{Asking, asking_of};
use graft_points::Policy;
use kernel_data::{FrameRow, NoMemory};
use kernel_state::Store;
use running_kernel::Running;
use std::alloc::Global;
use text_words::put;
use vino_top::AllCalls;

/// The processes.
const PROCESSES: u8 = 16;

/// The most frames of a cache.
const FRAMES: u8 = 64;

/// What is seen of a kernel before something is run.
#[derive(Drop)]
pub struct Before {
    /// The frames in use.
    pub held: Vec<FrameRow>,
    /// The calls in flight that are to ask for a block.
    pub asking: Vec<Asking>,
    /// How many calls are in flight.
    pub flying: usize,
    /// How many of them wait.
    pub waiting: usize,
}

impl Before {
    /// Nothing is seen of a kernel that isn't booted.
    pub fn new(alloc: Global) -> Before {
        Before {
            held: Vec::new(alloc),
            asking: Vec::new(alloc),
            flying: 0,
            waiting: 0,
        }
    }
}

/// The frames in use.
pub fn held_of<B: Policy>(alloc: Global, store: &Store<B>) -> Result<Vec<FrameRow>, NoMemory> {
    let mut held = Vec::new(alloc);
    for f in 0..FRAMES {
        if let Some(row) = store.cache.held(f) {
            put(&mut held, row)?;
        }
    }
    Ok(held)
}

/// What is seen of a kernel.
pub fn before_of<B: Policy>(
    alloc: Global,
    running: &Running<AllCalls, B>,
) -> Result<Before, NoMemory> {
    let mut before = Before::new(alloc);
    before.held = held_of(alloc, &running.store)?;
    for p in 0..PROCESSES {
        if running.call_number(p).is_some() {
            before.flying = before.flying.saturating_add(1);
        }
        if running.waits(p) {
            before.waiting = before.waiting.saturating_add(1);
        }
        if let Some(asking) = asking_of(running, p) {
            put(&mut before.asking, asking)?;
        }
    }
    Ok(before)
}

/// What processes have spent of an amount, of which this is the place among what is told of an
/// account: 3 steps, 4 records, 5 locks.
pub fn spent_of<B: Policy>(store: &Store<B>, place: usize) -> u64 {
    let mut sum: u64 = 0;
    for p in 0..PROCESSES {
        let amounts = store.amounts(p);
        if let Some(amount) = amounts.as_slice().get(place) {
            sum = sum.saturating_add(*amount);
        }
    }
    sum
}
