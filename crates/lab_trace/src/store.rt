//! What is seen of a kernel's store: processes, files, grafts, policies, frames, user locks and
//! handlers.

ghost use Rattle.std.specs.Prelude.{◌<◌};

use crate::values::{amounts, number, numbers, text, truth};
use graft_points::Policy;
use kernel_data::{FrameRow, NoMemory, OpenRow, QueueRow, RawRow};
use kernel_state::Store;
use lab_state::{
    FILES, FRAMES, GRAFTS, HANDLERS, KERNEL, LOCKS, POLICIES, PROCESSES, State, place_of,
};
use std::alloc::Global;
use text_words::put;

/// The frames that a cache has at most.
const FRAMES_MOST: u8 = 64;

/// The first point of a port.
const FIRST_PORT: u8 = 6;

/// Adds the clock, and the queue front first.
pub fn add_queue<B: Policy>(
    alloc: Global,
    state: &mut State,
    store: &Store<B>,
    clock: u32,
) -> Result<(), NoMemory> {
    state.add(place_of(KERNEL, 0, 0), number(alloc, clock)?)?;
    let mut queue = Vec::new(alloc);
    for row in store.procs.rows() {
        put(&mut queue, u32::from(row.process))?;
    }
    state.add(place_of(KERNEL, 1, 0), numbers(alloc, queue.as_slice())?)
}

/// Adds the frames in use, in their order of use.
pub fn add_use<B: Policy>(
    alloc: Global,
    state: &mut State,
    store: &Store<B>,
) -> Result<(), NoMemory> {
    let mut order = Vec::new(alloc);
    for frame in store.cache.lru() {
        put(&mut order, u32::from(*frame))?;
    }
    state.add(place_of(KERNEL, 2, 0), numbers(alloc, order.as_slice())?)
}

/// The row of a living process.
fn row_of(rows: &[QueueRow], p: u8) -> Option<QueueRow> {
    for row in rows {
        if row.process == p {
            return Some(*row);
        }
    }
    None
}

/// Adds a living process.
fn add_process<B: Policy>(
    alloc: Global,
    state: &mut State,
    store: &Store<B>,
    p: u8,
    row: QueueRow,
) -> Result<(), NoMemory>
    requires { p < 16 }
{
    let item = u32::from(p);
    let [has0, has1, has2, spent0, spent1, spent2] = store.amounts(p);
    let cells = store.cells(p);
    state.add(
        place_of(PROCESSES, item, 0),
        number(alloc, u32::from(row.nice))?,
    )?;
    state.add(place_of(PROCESSES, item, 1), number(alloc, row.slices)?)?;
    state.add(
        place_of(PROCESSES, item, 2),
        amounts(alloc, has0, has1, has2)?,
    )?;
    state.add(
        place_of(PROCESSES, item, 3),
        amounts(alloc, spent0, spent1, spent2)?,
    )?;
    state.add(
        place_of(PROCESSES, item, 4),
        numbers(alloc, cells.as_slice())?,
    )
}

/// Adds the living processes.
pub fn add_processes<B: Policy>(
    alloc: Global,
    state: &mut State,
    store: &Store<B>,
) -> Result<(), NoMemory> {
    for p in 0..16 {
        if let Some(row) = row_of(store.procs.rows(), p) {
            add_process(alloc, state, store, p, row)?;
        }
    }
    Ok(())
}

/// Adds an open file, which has this number.
fn add_file(
    alloc: Global,
    state: &mut State,
    item: u32,
    name: &[u8],
    row: OpenRow,
) -> Result<(), NoMemory>
    requires { item < 64 }
{
    state.add(place_of(FILES, item, 0), text(alloc, name)?)?;
    state.add(place_of(FILES, item, 1), number(alloc, row.next)?)?;
    state.add(
        place_of(FILES, item, 2),
        number(alloc, u32::from(row.window))?,
    )?;
    state.add(place_of(FILES, item, 3), truth(alloc, row.seq)?)?;
    let ahead = [row.start, u32::from(row.count)];
    state.add(place_of(FILES, item, 4), numbers(alloc, ahead.as_slice())?)
}

/// Adds the open files of a process.
fn add_files_of<B: Policy>(
    alloc: Global,
    state: &mut State,
    store: &Store<B>,
    p: u8,
) -> Result<(), NoMemory>
    requires { p < 16 }
{
    for fd in 0..4 {
        if let Some(RawRow::OpenFile { name, row, .. }) = store.shown_file(p, fd) {
            let item = 4 * u32::from(p) + u32::from(fd);
            add_file(alloc, state, item, name.as_slice(), row)?;
        }
    }
    Ok(())
}

/// Adds the open files.
pub fn add_files<B: Policy>(
    alloc: Global,
    state: &mut State,
    store: &Store<B>,
) -> Result<(), NoMemory> {
    for p in 0..16 {
        add_files_of(alloc, state, store, p)?;
    }
    Ok(())
}

/// Whether a segment is kept for the graft of this number.
fn is_kept<B: Policy>(store: &Store<B>, item: u32) -> bool
    requires { item < 256 }
{
    store.kept.get(item as usize).is_some()
}

/// Adds the graft of a process at a point, where one stands.
fn add_graft<B: Policy>(
    alloc: Global,
    state: &mut State,
    store: &Store<B>,
    p: u8,
    pt: u8,
) -> Result<(), NoMemory>
    requires process { p < 16 }
    requires point { pt < 16 }
{
    let Some(
        RawRow::Graft {
            slot,
            limit,
            billed,
            amounts: held,
            ..
        },
    ) = store.shown_graft(p, pt)
    else {
        return Ok(());
    };
    let [steps, records, locks] = held;
    let item = 16 * u32::from(p) + u32::from(pt);
    state.add(place_of(GRAFTS, item, 0), number(alloc, u32::from(slot))?)?;
    state.add(place_of(GRAFTS, item, 1), number(alloc, limit)?)?;
    state.add(place_of(GRAFTS, item, 2), truth(alloc, billed)?)?;
    state.add(
        place_of(GRAFTS, item, 3),
        amounts(alloc, steps, records, locks)?,
    )?;
    state.add(
        place_of(GRAFTS, item, 4),
        truth(alloc, is_kept(store, item))?,
    )
}

/// Adds the grafts of a process.
fn add_grafts_of<B: Policy>(
    alloc: Global,
    state: &mut State,
    store: &Store<B>,
    p: u8,
) -> Result<(), NoMemory>
    requires { p < 16 }
{
    for pt in 0..16 {
        if store.has_graft(p, pt) {
            add_graft(alloc, state, store, p, pt)?;
        }
    }
    Ok(())
}

/// Adds the grafts that stand.
pub fn add_grafts<B: Policy>(
    alloc: Global,
    state: &mut State,
    store: &Store<B>,
) -> Result<(), NoMemory> {
    if !store.has_grafts() {
        return Ok(());
    }
    for p in 0..16 {
        add_grafts_of(alloc, state, store, p)?;
    }
    Ok(())
}

/// Adds the chosen policy of each kind, with its parameter if it has one.
pub fn add_policies<B: Policy>(
    alloc: Global,
    state: &mut State,
    store: &Store<B>,
) -> Result<(), NoMemory> {
    for kind in 0..3 {
        let item = u32::from(kind);
        state.add(
            place_of(POLICIES, item, 0),
            number(alloc, u32::from(store.chosen(kind)))?,
        )?;
        if let Some(parameter) = store.param(kind) {
            state.add(place_of(POLICIES, item, 1), number(alloc, parameter)?)?;
        }
    }
    Ok(())
}

/// Adds a frame in use.
fn add_frame(alloc: Global, state: &mut State, f: u8, row: FrameRow) -> Result<(), NoMemory>
    requires { f < 64 }
{
    let item = u32::from(f);
    state.add(
        place_of(FRAMES, item, 0),
        number(alloc, u32::from(row.owner))?,
    )?;
    state.add(place_of(FRAMES, item, 1), number(alloc, row.block)?)?;
    state.add(place_of(FRAMES, item, 2), truth(alloc, row.dirty)?)?;
    state.add(
        place_of(FRAMES, item, 3),
        number(alloc, u32::from(row.mark))?,
    )
}

/// Adds the frames in use.
pub fn add_frames<B: Policy>(
    alloc: Global,
    state: &mut State,
    store: &Store<B>,
) -> Result<(), NoMemory> {
    for f in 0..FRAMES_MOST {
        if let Some(row) = store.cache.held(f) {
            add_frame(alloc, state, f, row)?;
        }
    }
    Ok(())
}

/// Adds the holders of user locks.
pub fn add_locks<B: Policy>(
    alloc: Global,
    state: &mut State,
    store: &Store<B>,
) -> Result<(), NoMemory> {
    for u in 0..16 {
        if let Some(p) = store.holder(u) {
            state.add(
                place_of(LOCKS, u32::from(u), 0),
                number(alloc, u32::from(p))?,
            )?;
        }
    }
    Ok(())
}

/// The processes whose grafts are handlers of a port, in their order.
fn handlers_of(alloc: Global, handlers: &[(u8, u8)], port: u8) -> Result<Vec<u32>, NoMemory>
    requires { port < 8 }
{
    let mut processes = Vec::new(alloc);
    for (p, pt) in handlers {
        if *pt == FIRST_PORT + port {
            put(&mut processes, u32::from(*p))?;
        }
    }
    Ok(processes)
}

/// Adds the handlers of each port that has some.
pub fn add_handlers<B: Policy>(
    alloc: Global,
    state: &mut State,
    store: &Store<B>,
) -> Result<(), NoMemory> {
    for port in 0..8 {
        let handlers = handlers_of(alloc, store.procs.handlers(), port)?;
        if !handlers.is_empty() {
            state.add(
                place_of(HANDLERS, u32::from(port), 0),
                numbers(alloc, handlers.as_slice())?,
            )?;
        }
    }
    Ok(())
}
