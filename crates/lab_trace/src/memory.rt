//! What is seen of memory: the segments of levels, those that are kept, and the images.

ghost use Rattle.std.specs.Prelude.{◌<◌};

use crate::origins::Known;
use crate::values::{number, text, truth};
use graft_loader::{Images, Loaded};
use graft_points::Policy;
use kernel_data::NoMemory;
use kernel_state::Store;
use lab_state::{IMAGES, KEPT, MEMORY, State, append_hex, place_of};
use ram_space::Ram;
use running_kernel::Running;
use std::alloc::Global;
use text_words::append;
use vino_top::AllCalls;

/// Where the first segment begins in memory.
const FIRST_SEGMENT: u32 = 262_144;

/// The bytes of a segment.
const SEGMENT_BYTES: u32 = 4096;

/// The bytes of a row.
const ROW_BYTES: usize = 16;

/// Whether bytes are all zeros.
fn is_clear(bytes: &[u8]) -> bool {
    for byte in bytes {
        if *byte != 0 {
            return false;
        }
    }
    true
}

/// A row of bytes.
fn row_of(alloc: Global, bytes: &[u8]) -> Result<Vec<u8>, NoMemory> {
    let mut value = Vec::new(alloc);
    append(&mut value, b"\"")?;
    append_hex(&mut value, bytes)?;
    append(&mut value, b"\"")?;
    Ok(value)
}

/// Adds the rows of a segment that aren't zeros to an item of a section.
fn add_segment(
    alloc: Global,
    state: &mut State,
    section: u32,
    item: u32,
    segment: &[u8],
) -> Result<(), NoMemory>
    requires section { section < 16 }
    requires item { item < 256 }
{
    if segment.len() < SEGMENT_BYTES as usize {
        return Ok(());
    }
    for row in 0..256 {
        let from = ROW_BYTES * row;
        let bytes = &segment[from..from + ROW_BYTES];
        if !is_clear(bytes) {
            state.add(place_of(section, item, row as u32), row_of(alloc, bytes)?)?;
        }
    }
    Ok(())
}

/// The segment of a level of this number.
fn segment_in(memory: &Ram, item: u32) -> &[u8]
    requires { item < 64 }
{
    memory.bytes(FIRST_SEGMENT + SEGMENT_BYTES * item, SEGMENT_BYTES)
}

/// Adds the segments of the levels of a process's call.
fn add_memory_of<B: Policy>(
    alloc: Global,
    state: &mut State,
    running: &Running<AllCalls, B>,
    p: u8,
) -> Result<(), NoMemory>
    requires { p < 16 }
{
    let count = running.level_count(p);
    for d in 0..4u8 {
        if d < count {
            let item = 4 * u32::from(p) + u32::from(d);
            let segment = segment_in(&running.store.ram, item);
            add_segment(alloc, state, MEMORY, item, segment)?;
        }
    }
    Ok(())
}

/// Adds the segments of the levels of calls.
pub fn add_memory<B: Policy>(
    alloc: Global,
    state: &mut State,
    running: &Running<AllCalls, B>,
) -> Result<(), NoMemory> {
    for p in 0..16u8 {
        add_memory_of(alloc, state, running, p)?;
    }
    Ok(())
}

/// Adds the segments that are kept.
pub fn add_kept<B: Policy>(
    alloc: Global,
    state: &mut State,
    store: &Store<B>,
) -> Result<(), NoMemory> {
    for item in 0..256u32 {
        if let Some(segment) = store.kept.get(item as usize) {
            add_segment(alloc, state, KEPT, item, segment)?;
        }
    }
    Ok(())
}

/// Adds the image of a slot.
fn add_image(
    alloc: Global,
    state: &mut State,
    known: &Known,
    slot: u32,
    image: &Loaded,
) -> Result<(), NoMemory>
    requires { slot < 32 }
{
    let code = image.code().code().len() as u32;
    let data = image.body().len() as u32;
    state.add(place_of(IMAGES, slot, 0), number(alloc, code)?)?;
    state.add(place_of(IMAGES, slot, 1), number(alloc, data)?)?;
    state.add(place_of(IMAGES, slot, 2), truth(alloc, image.keep())?)?;
    if let Some(origin) = known.origin(slot) {
        if let Some(graft) = known.lowered.lab.grafts().get(origin.graft) {
            state.add(place_of(IMAGES, slot, 3), text(alloc, graft.name())?)?;
            state.add(place_of(IMAGES, slot, 4), truth(alloc, origin.raw)?)?;
        }
    }
    Ok(())
}

/// Adds the images that are loaded.
pub fn add_images(
    alloc: Global,
    state: &mut State,
    known: &Known,
    images: &Images,
) -> Result<(), NoMemory> {
    for slot in 0..32 {
        if let Some(image) = images.get(slot) {
            add_image(alloc, state, known, slot, image)?;
        }
    }
    Ok(())
}
