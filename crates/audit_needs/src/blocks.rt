//! The block that a piece fetches, and the frame that must be chosen for it.

ghost use Rattle.std.specs.Prelude.{◌≡◌, ◌+◌, ◌*◌, ◌&&◌, ℕ, List, Ok, IfOk, nat_le, nat_lt};
ghost use Rattle.kernel_model.specs.World as world_model;
ghost use Rattle.kernel_model.specs.Needs as model;
ghost use Rattle.audit_state.specs.Files.{row_with};
ghost use Rattle.audit_state.specs.Things.{things_of};
ghost use Rattle.audit_state.specs.Worlds.{world_of};

use crate::Scene;
use audit_state::{Extent, Things, World};
use kernel_model::{NoMemory, OpenRow, Refusal};

/// A place in an open file: a block of it, and an offset in that.
#[derive(Clone, Copy)]
pub struct Place {
    pub descriptor: u32,
    pub block: u32,
    pub offset: u32,
}

/// Whether so many bytes from a place on lie within a file.
fn is_within(extent: &Extent, place: Place, count: usize) -> bool
    ensures { result ≡ (nat_lt place.block extent.now.blocks
        && nat_le (512 * place.block + place.offset + count) extent.now.length) }
{
    let before = 512 * place.block as usize + place.offset as usize;
    let most = extent.length as usize;
    place.block < extent.blocks && before <= most && count <= most - before
}

/// The disk's block of a usable file that holds these bytes, or the refusal.
fn file_block_in(extent: Option<Extent>, place: Place, count: usize) -> Result<u64, Refusal>
    ensures { (name : List ℕ) →
        result ≡ model.file_block_in (row_with name extent) place.block place.offset count }
{
    match extent {
        None => Err(Refusal::BadFd),
        Some(extent) => {
            if is_within(&extent, place, count) {
                Ok(u64::from(extent.start) + u64::from(place.block))
            } else {
                Err(Refusal::BadIndex)
            }
        }
    }
}

/// The disk's block of an open file that holds so many bytes from a place on, or the refusal.
pub fn file_block(
    world: &World,
    file: &Option<OpenRow>,
    place: Place,
    count: usize,
) -> Result<u64, Refusal>
    ensures { result
        ≡ model.file_block (world_of world.now) file.now place.block place.offset count }
{
    match file {
        None => Err(Refusal::BadFd),
        Some(opened) => file_block_in(world.extent(opened.file), place, count),
    }
}

/// The disk's block at a place in an open file of process p, or the refusal.
pub(crate) fn block_at(scene: &Scene<'_>, p: u8, place: Place, count: usize) -> Result<u64, Refusal>
    ensures { (bytes : ℕ → List ℕ) → result ≡ model.file_block (world_of scene.now.world.now)
        ((things_of bytes scene.now.things.now).file p place.descriptor)
        place.block place.offset count }
{
    let file = scene.things.file(p, place.descriptor);
    file_block(scene.world, &file, place, count)
}

/// The disk's block that is block i of a file.
fn block_of(world: &World, n: u8, i: u32) -> u64
    ensures { result ≡ world_model.block_of (world_of world.now) n i }
{
    match world.extent(n) {
        None => 0,
        Some(extent) => u64::from(extent.start) + u64::from(i),
    }
}

/// The block that is to be read ahead next.
pub fn ahead_block(world: &World, file: &Option<OpenRow>) -> Result<u64, Refusal>
    ensures { result ≡ model.ahead_block (world_of world.now) file.now }
{
    match file {
        None => Err(Refusal::BadFd),
        Some(opened) => Ok(block_of(world, opened.file, opened.start)),
    }
}

/// The block that is to be read ahead next in an open file of process p.
pub(crate) fn ahead_at(scene: &Scene<'_>, p: u8, fd: u32) -> Result<u64, Refusal>
    ensures { (bytes : ℕ → List ℕ) → result ≡ model.ahead_block (world_of scene.now.world.now)
        ((things_of bytes scene.now.things.now).file p fd) }
{
    let file = scene.things.file(p, fd);
    ahead_block(scene.world, &file)
}

/// The first of these frames that is in use and holds a block.
fn frame_with(things: &Things, b: u64, frames: &[u32]) -> Option<u32>
    ensures { (bytes : ℕ → List ℕ) →
        result ≡ model.frame_with (things_of bytes things.now).cache b frames.now }
{
    match frames {
        [] => None,
        [f, rest @ ..] => match things.frame(*f) {
            None => frame_with(things, b, rest),
            Some(r) => {
                if u64::from(r.block) == b {
                    Some(*f)
                } else {
                    frame_with(things, b, rest)
                }
            }
        },
    }
}

/// The frame in use that holds a block.
pub fn frame_of_block(things: &Things, b: u64) -> Option<u32>
    ensures { (bytes : ℕ → List ℕ) →
        result ≡ model.frame_of_block (things_of bytes things.now).cache b }
{
    frame_with(things, b, &things.lru)
}

/// The lowest of so many frames that isn't in use.
pub fn free_frame(things: &Things, count: u8) -> Option<u32>
    ensures { (bytes : ℕ → List ℕ) →
        result ≡ model.free_frame (things_of bytes things.now).cache count 0 }
{
    for f in 0..u32::from(count) {
        match things.frame(f) {
            None => return Some(f),
            Some(_) => {}
        }
    }
    None
}

/// The candidate for eviction, where a frame must be chosen for a block.
pub(crate) fn candidate_for(world: &World, things: &Things, b: u64) -> Option<u32>
    ensures { (bytes : ℕ → List ℕ) → let w = things_of bytes things.now in
        result ≡ model.candidate_for (world_of world.now) (w.pol 1) w.cache b }
{
    match frame_of_block(things, b) {
        Some(_) => None,
        None => match free_frame(things, world.frames) {
            Some(_) => None,
            None => things.victim_among(&things.lru),
        },
    }
}

/// The owner of a candidate, whose point is asked.
pub(crate) fn owner_asked(things: &Things, f: u32) -> u8
    ensures { (bytes : ℕ → List ℕ) →
        result ≡ model.owner_asked (things_of bytes things.now).cache f }
{
    match things.frame_owner(f) {
        None => 0,
        Some(q) => q,
    }
}

/// A block's number as a word, if it has room.
pub fn word_of_block(b: u64) -> Result<u32, NoMemory>
    ensures { IfOk result (λ n. n ≡ b) }
{
    match u32::try_from(b) {
        Ok(n) => Ok(n),
        Err(_) => Err(NoMemory),
    }
}
