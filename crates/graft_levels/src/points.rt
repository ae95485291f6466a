//! What a point is asked with, which answers it accepts, and what is answered where no graft
//! answers.

ghost use Rattle.std.specs.Prelude.{◌≡◌, ◌<◌, true, false, length, slice_index};
ghost use Rattle.kernel_model.specs.Policies.{lives, kind_of, valid, ahead_default, open_blocks};
ghost use Rattle.kernel_model.specs.Policies as spec;
ghost use Rattle.kernel_state.specs.Stores.{world_of_store, objects_of, queue_of};

use crate::GraftLevel;
use kernel_state::{Policy, Store, valid_ahead};

/// What is to be read ahead by default of the file at descriptor fd of process q, which lives: from
/// which block on, how many, and how many blocks the file has. Zeros where none is open.
fn ahead<B: Policy>(store: &Store<B>, q: u8, fd: u8) -> (u32, u32, u32)
    requires lives { lives (queue_of store.now) q ≡ true }
    requires number { fd < 4 }
    ensures start { result.0 ≡ (ahead_default (world_of_store store.now)
        ((objects_of store.now).things.pol 0) ((objects_of store.now).things.file q fd)).0 }
    ensures count { result.1 ≡ (ahead_default (world_of_store store.now)
        ((objects_of store.now).things.pol 0) ((objects_of store.now).things.file q fd)).1 }
    ensures blocks { result.2
        ≡ open_blocks (world_of_store store.now) ((objects_of store.now).things.file q fd) }
{
    match store.file(q, fd) {
        None => (0, 0, 0),
        Some(opened) => {
            let default = store.ahead(&opened);
            (
                default.start,
                u32::from(default.count),
                store.blocks(&opened),
            )
        }
    }
}

/// The candidate for eviction of process q, or 0.
fn victim<B: Policy>(store: &Store<B>, q: u8) -> u32
    ensures { result
        ≡ (spec.default_by spec.Victim (world_of_store store.now)
        (objects_of store.now).things q 4).0 }
{
    match store.candidate_of(q) {
        Some(f) => u32::from(f),
        None => 0,
    }
}

/// The default answer of point pt of process q, which lives, where a graft of q asks it.
pub fn default_of<B: Policy>(store: &Store<B>, q: u8, pt: u8) -> (u32, u32)
    requires lives { lives (queue_of store.now) q ≡ true }
    ensures { result ≡ spec.default_of (world_of_store store.now)
        (objects_of store.now).things q pt }
{
    match pt {
        0..=3 => {
            let (start, count, _) = ahead(store, q, pt);
            (start, count)
        }
        4 => (victim(store, q), 0),
        5 => (u32::from(q), 0),
        _ => (0, 0),
    }
}

/// The arguments of point pt of process q, which lives, where a graft of q asks it.
pub fn args_of<B: Policy>(store: &Store<B>, q: u8, pt: u8) -> [u32; 4]
    requires lives { lives (queue_of store.now) q ≡ true }
    ensures { result ≡ spec.args_by (kind_of pt) (world_of_store store.now)
        (objects_of store.now).things q pt }
{
    match pt {
        0..=3 => {
            let (start, count, blocks) = ahead(store, q, pt);
            [start, count, blocks, u32::from(pt)]
        }
        4 => {
            let frames = store.owned_count(q);
            [victim(store, q), 0, frames, 0]
        }
        5 => {
            let living = store.procs.rows().len() as u32;
            [u32::from(q), u32::from(store.nice(q)), living, 0]
        }
        _ => [0; 4],
    }
}

/// Whether the point of a level accepts the answer that stands in r0 and r1.
pub fn is_valid<B: Policy>(store: &Store<B>, level: &GraftLevel) -> bool
    ensures { result
        ≡ valid (objects_of store.now).things level.now.owner level.now.point level.now.args
        (slice_index level.now.machine.regs 0) (slice_index level.now.machine.regs 1) }
{
    let r0 = level.machine.reg(0);
    match level.point {
        0..=3 => valid_ahead(level.args[2], r0, level.machine.reg(1)),
        4 => store.is_owner(level.owner, r0),
        5 => store.living(r0),
        6..=13 => r0 <= 512,
        _ => r0 == level.args[0],
    }
}
