//! How a block is to be fetched.

ghost use Rattle.std.specs.Prelude.{◌≡◌, ◌<◌, ◌≤◌, Some, Ok, IfOk};
ghost use Rattle.kernel_model.specs.Needs.{ahead_block};
ghost use Rattle.kernel_model.specs.Sound.{IsSoundFile};
ghost use Rattle.kernel_state.specs.Places.{HasDescriptor};
ghost use Rattle.kernel_state.specs.Stores.{world_of_store, queue_of};
ghost use Rattle.call_needs.specs.Needing.{block_meant};
ghost use Rattle.call_needs.specs.Planning.{HasFrame, IsPlaceOf, IsPlan, block_planned, candidate_in};

use kernel_model::{OpenRow, Refusal};
use kernel_state::{Policy, Store};

/// How a block is to be fetched from a store as it stands. What a fetch needs, what it asks and what
/// it does follow from its plan. A plan is good until the store changes.
#[derive(Clone, Copy)]
pub struct Plan {
    /// The block of the disk.
    pub block: u32,
    /// Where it stands in the cache, or is to be put.
    pub place: Place,
}

/// Where a block stands in the cache, or is to be put.
#[derive(Clone, Copy)]
pub enum Place {
    /// This frame holds it.
    Held(u8),
    /// No frame holds it: it is read, and put there.
    Missing(Room),
}

/// Which frame a block is put into that no frame holds.
#[derive(Clone, Copy)]
pub enum Room {
    /// The lowest frame that isn't in use.
    Free(u8),
    /// All are in use: this one is evicted, the candidate, unless an answer chooses another.
    Candidate(u8),
}

impl Plan {
    /// The candidate for eviction, where a frame must be chosen for the block: no frame holds it, and
    /// none is free.
    #[inline(always)]
    pub(crate) fn candidate(self) -> Option<u8>
        ensures { result ≡ candidate_in self.place }
    {
        match self.place {
            Place::Missing(Room::Candidate(f)) => Some(f),
            _ => None,
        }
    }
}

/// The plan for block b of the disk. Plans are made where they are used, so that no call and no copy
/// of them stand between the two.
#[inline(always)]
fn plan_of<B: Policy>(store: &Store<B>, b: u32) -> Plan
    requires { b < store.now.size }
    ensures block { result.block ≡ b }
    ensures plan { IsPlan store.now result }
{
    Plan {
        block: b,
        place: place_of(store, b),
    }
}

/// Where block b stands, or is to be put: each frame is looked for once, and the candidate only
/// where one is wanted.
#[inline(always)]
fn place_of<B: Policy>(store: &Store<B>, b: u32) -> Place
    ensures place { IsPlaceOf store.now b result }
    ensures frame { HasFrame store.now.cache result }
{
    if let Some(f) = store.find(b) {
        return Place::Held(f);
    }
    if let Some(f) = store.free() {
        return Place::Missing(Room::Free(f));
    }
    match store.candidate() {
        Some(f) => Place::Missing(Room::Candidate(f)),
        None => unreachable!(),
    }
}

/// The plan for the disk's block that is block i of the file at descriptor fd of process p, which
/// lives. Refused as by `block_of` where that hasn't bytes off to off + len.
#[inline(always)]
pub fn plan_block<B: Policy>(
    store: &Store<B>,
    p: u8,
    fd: u8,
    i: u32,
    off: u32,
    len: u32,
) -> Result<Plan, Refusal>
    requires { HasDescriptor (queue_of store.now) p fd }
    ensures block { block_planned result ≡ block_meant store.now p fd i off len }
    ensures plan { IfOk result (λ plan. IsPlan store.now plan) }
    ensures range { IfOk result (λ _. i < 4096) }
{
    match store.block_of(p, fd, i, off, len) {
        Ok(b) => Ok(plan_of(store, b)),
        Err(refusal) => Err(refusal),
    }
}

/// The plan for the block that is to be read ahead next for an open file, which has one.
#[inline(always)]
pub fn plan_ahead<B: Policy>(store: &Store<B>, opened: &OpenRow) -> Plan
    requires file { IsSoundFile (world_of_store store.now) opened.now }
    requires some { 1 ≤ opened.now.count }
    ensures block { ahead_block (world_of_store store.now) (Some opened.now) ≡ Ok result.block }
    ensures plan { IsPlan store.now result }
{
    plan_of(store, store.block_ahead(opened))
}
