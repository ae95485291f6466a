//! What is seen of the calls in flight: what they wait for, hold and would put back, and their levels.

ghost use Rattle.std.specs.Prelude.{◌≡◌, ◌<◌, ◌≤◌, length};
ghost use Rattle.kernel_model.specs.Laws.{IsInRange};
ghost use Rattle.placed_laws.specs.PlacedRows.{placed_undo_rows};
ghost use Rattle.running_kernel.specs.Views.{placed_of, IsRunning};

use crate::origins::Known;
use crate::places::Places;
use crate::values::{maybe, number, numbers};
use graft_levels::GraftLevel;
use graft_points::Policy;
use kernel_data::{Inverse, Mode, NoMemory, Object, RawRow, WaitRow};
use lab_state::{
    CALLS, HOLDS, KERNEL, LEVELS, REGISTERS, State, UNDO, append_object, object_of, place_of,
};
use running_kernel::Running;
use std::alloc::Global;
use text_words::{append, append_number, append_with, put};
use vino_top::AllCalls;

/// The objects.
const OBJECTS: u32 = 421;

/// Adds the processes in the order of waiting.
pub fn add_waiting<B: Policy>(
    alloc: Global,
    state: &mut State,
    running: &Running<AllCalls, B>,
) -> Result<(), NoMemory> {
    let mut order = Vec::new(alloc);
    for waiting in running.order.entries() {
        put(&mut order, u32::from(waiting.process))?;
    }
    state.add(place_of(KERNEL, 3, 0), numbers(alloc, order.as_slice())?)
}

/// What a call waits for.
fn wait_of(alloc: Global, wait: &WaitRow) -> Result<Vec<u8>, NoMemory> {
    let mut value = Vec::new(alloc);
    append(&mut value, b"{\"for\":\"")?;
    append_object(&mut value, wait.object)?;
    append_with(&mut value, b"\",\"held_by\":", u32::from(wait.holder))?;
    append_with(&mut value, b",\"ticks\":", wait.count)?;
    append(&mut value, b"}")?;
    Ok(value)
}

/// Adds the call of a process, if it has one.
fn add_call<B: Policy>(
    alloc: Global,
    state: &mut State,
    running: &Running<AllCalls, B>,
    known: &Known,
    p: u8,
) -> Result<(), NoMemory>
    requires running { IsRunning running.now }
    requires process { p < 16 }
{
    let Some(
        RawRow::Call {
            number: n,
            wait,
            ..
        },
    ) = running.call_row(p)
    else {
        return Ok(());
    };
    let item = u32::from(p);
    if let Some(begun) = known.event(n) {
        state.add(place_of(CALLS, item, 0), number(alloc, begun.event)?)?;
        state.add(place_of(CALLS, item, 1), number(alloc, begun.line)?)?;
    }
    if let Some(wait) = wait {
        state.add(place_of(CALLS, item, 2), wait_of(alloc, &wait)?)?;
    }
    Ok(())
}

/// Adds the calls in flight.
pub fn add_calls<B: Policy>(
    alloc: Global,
    state: &mut State,
    running: &Running<AllCalls, B>,
    known: &Known,
) -> Result<(), NoMemory>
    requires { IsRunning running.now }
{
    for p in 0..16 {
        add_call(alloc, state, running, known, p)?;
    }
    Ok(())
}

/// How the call of a process holds an object, and the outermost level that holds it so.
fn hold_of<B: Policy>(
    running: &Running<AllCalls, B>,
    p: u8,
    object: Object,
) -> Option<(&'static [u8], u8)>
    requires { IsInRange object }
{
    if let Some(level) = running.locks.level_of(p, object, Mode::Shared) {
        return Some((b"exclusive".as_slice(), level));
    }
    match running.locks.level_of(p, object, Mode::Exclusive) {
        Some(level) => Some((b"shared".as_slice(), level)),
        None => None,
    }
}

/// How an object is held.
fn hold_value(alloc: Global, mode: &[u8], level: u8) -> Result<Vec<u8>, NoMemory> {
    let mut value = Vec::new(alloc);
    append(&mut value, b"[\"")?;
    append(&mut value, mode)?;
    append_with(&mut value, b"\",", u32::from(level) + 1)?;
    append(&mut value, b"]")?;
    Ok(value)
}

/// Adds what the levels of a process's call hold.
fn add_holds_of<B: Policy>(
    alloc: Global,
    state: &mut State,
    running: &Running<AllCalls, B>,
    p: u8,
) -> Result<(), NoMemory>
    requires { p < 16 }
{
    for o in 0..OBJECTS {
        if let Some((mode, level)) = hold_of(running, p, object_of(o)) {
            state.add(
                place_of(HOLDS, u32::from(p), o),
                hold_value(alloc, mode, level)?,
            )?;
        }
    }
    Ok(())
}

/// Adds what the levels of calls hold.
pub fn add_holds<B: Policy>(
    alloc: Global,
    state: &mut State,
    running: &Running<AllCalls, B>,
) -> Result<(), NoMemory> {
    if running.locks.is_free() {
        return Ok(());
    }
    for p in 0..16 {
        if running.level_count(p) > 0 {
            add_holds_of(alloc, state, running, p)?;
        }
    }
    Ok(())
}

/// Appends whose something is: a process, and a number of its own.
fn append_of(
    out: &mut Vec<u8>,
    what: &[u8],
    first: u8,
    second: Option<u8>,
) -> Result<(), NoMemory> {
    append(out, b",\"what\":\"")?;
    append(out, what)?;
    append_with(out, b"\",\"of\":[", u32::from(first))?;
    if let Some(second) = second {
        append_with(out, b",", u32::from(second))?;
    }
    append(out, b"]")
}

/// Appends the value that is put back.
fn append_to(out: &mut Vec<u8>, value: u32) -> Result<(), NoMemory> {
    append_with(out, b",\"to\":", value)
}

/// Appends what a record puts back.
fn append_inverse(out: &mut Vec<u8>, inverse: Inverse) -> Result<(), NoMemory> {
    match inverse {
        Inverse::Cell {
            process,
            cell,
            value,
        } => {
            append_of(out, b"cell", process, Some(cell))?;
            append_to(out, value)
        }
        Inverse::Nice(process, value) => {
            append_of(out, b"nice", process, None)?;
            append_to(out, u32::from(value))
        }
        Inverse::Window {
            process,
            descriptor,
            value,
        } => {
            append_of(out, b"window", process, Some(descriptor))?;
            append_to(out, u32::from(value))
        }
        Inverse::Mark(frame, value) => {
            append_of(out, b"mark", frame, None)?;
            append_to(out, u32::from(value))
        }
        Inverse::Tune {
            kind,
            parameter,
            value,
        } => {
            append_of(out, b"parameter", kind, Some(parameter))?;
            append_to(out, value)
        }
        Inverse::Segment(process, point) => append_of(out, b"segment", process, Some(point)),
    }
}

/// A record of a call.
fn record_of(alloc: Global, depth: u8, inverse: Inverse) -> Result<Vec<u8>, NoMemory> {
    let mut value = Vec::new(alloc);
    append_with(&mut value, b"{\"level\":", u32::from(depth) + 1)?;
    append_inverse(&mut value, inverse)?;
    append(&mut value, b"}")?;
    Ok(value)
}

/// Adds record k of a process's call, 0 being the oldest, of so many.
fn add_record<B: Policy>(
    alloc: Global,
    state: &mut State,
    running: &Running<AllCalls, B>,
    p: u8,
    k: u8,
    newest: u8,
) -> Result<(), NoMemory>
    requires running { IsRunning running.now }
    requires process { p < 16 }
    requires recorded { newest < length (placed_undo_rows (placed_of running.now) p) }
    requires number { k < 64 }
{
    if let RawRow::Undo { depth, inverse, .. } = running.undo_row(p, newest) {
        state.add(
            place_of(UNDO, u32::from(p), u32::from(k)),
            record_of(alloc, depth, inverse)?,
        )?;
    }
    Ok(())
}

/// Adds the records of a process's call, oldest first.
fn add_records<B: Policy>(
    alloc: Global,
    state: &mut State,
    running: &Running<AllCalls, B>,
    p: u8,
) -> Result<(), NoMemory>
    requires running { IsRunning running.now }
    requires process { p < 16 }
{
    let count = running.shown_records(p);
    for k in 0..count {
        add_record(alloc, state, running, p, k, count - 1 - k)?;
    }
    Ok(())
}

/// Adds the records of calls.
pub fn add_undo<B: Policy>(
    alloc: Global,
    state: &mut State,
    running: &Running<AllCalls, B>,
) -> Result<(), NoMemory>
    requires { IsRunning running.now }
{
    for p in 0..16 {
        add_records(alloc, state, running, p)?;
    }
    Ok(())
}

/// Adds a level.
fn add_level(
    alloc: Global,
    state: &mut State,
    item: u32,
    level: &GraftLevel,
    slot: Option<u32>,
    next: Option<u32>,
) -> Result<(), NoMemory>
    requires { item < 64 }
{
    let graft = [u32::from(level.owner), u32::from(level.point)];
    state.add(place_of(LEVELS, item, 0), numbers(alloc, graft.as_slice())?)?;
    state.add(place_of(LEVELS, item, 1), maybe(alloc, slot)?)?;
    state.add(place_of(LEVELS, item, 2), number(alloc, level.count)?)?;
    state.add(place_of(LEVELS, item, 3), maybe(alloc, next)?)?;
    state.add(
        place_of(LEVELS, item, 4),
        numbers(alloc, level.args.as_slice())?,
    )
}

/// The slot of the image of a graft.
pub fn slot_of<B: Policy>(running: &Running<AllCalls, B>, level: &GraftLevel) -> Option<u32> {
    match running.store.shown_graft(level.owner, level.point) {
        Some(RawRow::Graft { slot, .. }) => Some(u32::from(slot)),
        _ => None,
    }
}

/// Adds the levels of a process's call, outermost first.
fn add_levels_of<B: Policy>(
    alloc: Global,
    state: &mut State,
    running: &Running<AllCalls, B>,
    places: &Places,
    p: u8,
) -> Result<(), NoMemory>
    requires { p < 16 }
{
    if let Some(flight) = running.calls.get(p as usize) {
        for (d, level) in flight.chain.levels.as_slice().iter().enumerate() {
            let item = 4 * u32::from(p) + d as u32;
            let slot = slot_of(running, level);
            add_level(alloc, state, item, level, slot, places.next(item))?;
        }
    }
    Ok(())
}

/// Adds the levels of calls.
pub fn add_levels<B: Policy>(
    alloc: Global,
    state: &mut State,
    running: &Running<AllCalls, B>,
    places: &Places,
) -> Result<(), NoMemory> {
    for p in 0..16 {
        add_levels_of(alloc, state, running, places, p)?;
    }
    Ok(())
}

/// Adds the registers of a level.
fn add_registers_of(
    alloc: Global,
    state: &mut State,
    item: u32,
    level: &GraftLevel,
) -> Result<(), NoMemory>
    requires { item < 64 }
{
    for i in 0..16 {
        state.add(
            place_of(REGISTERS, item, u32::from(i)),
            number(alloc, level.machine.reg(i))?,
        )?;
    }
    Ok(())
}

/// Adds the registers of the levels of a process's call.
fn add_call_registers<B: Policy>(
    alloc: Global,
    state: &mut State,
    running: &Running<AllCalls, B>,
    p: u8,
) -> Result<(), NoMemory>
    requires { p < 16 }
{
    if let Some(flight) = running.calls.get(p as usize) {
        for (d, level) in flight.chain.levels.as_slice().iter().enumerate() {
            add_registers_of(alloc, state, 4 * u32::from(p) + d as u32, level)?;
        }
    }
    Ok(())
}

/// Adds the registers of levels.
pub fn add_registers<B: Policy>(
    alloc: Global,
    state: &mut State,
    running: &Running<AllCalls, B>,
) -> Result<(), NoMemory> {
    for p in 0..16 {
        add_call_registers(alloc, state, running, p)?;
    }
    Ok(())
}
