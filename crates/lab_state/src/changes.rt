//! What changed between two states.

ghost use Rattle.std.specs.Prelude.{◌≡◌, ◌<◌, ◌≤◌, ◌++◌, filter, length, nat_lt, not, IfOk};

use crate::cells::{Cell, State};
use crate::names::item_of;
use kernel_data::NoMemory;
use std::alloc::Global;
use text_words::put;

/// A change of a state.
#[derive(Clone, Copy)]
pub enum Change {
    /// The value of this number, of those that there are now, is new, or another than before.
    Put { place: u32, number: usize },
    /// The value at this place is gone, and others of its item are there.
    Gone(u32),
    /// The item of this place is gone.
    ItemGone(u32),
}

impl Change {
    /// Where it is.
    pub fn place(&self) -> u32 {
        match self {
            Change::Put { place, .. } => *place,
            Change::Gone(place) => *place,
            Change::ItemGone(place) => *place,
        }
    }
}

/// Whether the value of this number is of this item.
fn is_of(cells: &[Cell], number: usize, item: u32) -> bool {
    match cells.get(number) {
        Some(cell) => item_of(cell.place) == item,
        None => false,
    }
}

/// Whether an item has values, of which one stands at this number or before it, if there are some.
fn has_item(cells: &[Cell], number: usize, item: u32) -> bool {
    is_of(cells, number, item) || (number > 0 && is_of(cells, number - 1, item))
}

/// The number behind the values of an item, from a number on, at which one of them stands.
fn behind_item(cells: &[Cell], from: usize, item: u32) -> usize
    requires { from < length cells.now }
    ensures further { from < result }
    ensures within { result ≤ length cells.now }
{
    let mut at = from + 1;
    while at < cells.len() && item_of(cells[at].place) == item {
        at += 1;
    }
    at
}

/// Puts down that the value before of this number is gone, and tells the number of the next one to
/// look at.
fn put_gone(
    changes: &mut Vec<Change>,
    before: &[Cell],
    i: usize,
    now: &[Cell],
    j: usize,
) -> Result<usize, NoMemory>
    requires { i < length before.now }
    ensures further { IfOk result (λ next. i < next) }
    ensures within { IfOk result (λ next. next ≤ length before.now) }
{
    let place = before[i].place;
    let item = item_of(place);
    if has_item(now, j, item) {
        put(changes, Change::Gone(place))?;
        return Ok(i + 1);
    }
    put(changes, Change::ItemGone(place))?;
    Ok(behind_item(before, i, item))
}

/// Puts down that the value of this number is new or another.
fn put_new(changes: &mut Vec<Change>, now: &[Cell], j: usize) -> Result<(), NoMemory>
    requires { j < length now.now }
{
    let place = now[j].place;
    put(changes, Change::Put { place, number: j })
}

/// What changed from one state to another, in the order of places.
pub fn changes_of(alloc: Global, before: &State, now: &State) -> Result<Vec<Change>, NoMemory> {
    let before = before.cells.as_slice();
    let now = now.cells.as_slice();
    let mut changes = Vec::new(alloc);
    let mut i = 0;
    let mut j = 0;
    while i < before.len() || j < now.len() {
        if j >= now.len() || (i < before.len() && before[i].place < now[j].place) {
            i = put_gone(&mut changes, before, i, now, j)?;
        } else if i >= before.len() || now[j].place < before[i].place {
            put_new(&mut changes, now, j)?;
            j += 1;
        } else {
            if before[i].value.as_slice() != now[j].value.as_slice() {
                put_new(&mut changes, now, j)?;
            }
            i += 1;
            j += 1;
        }
    }
    Ok(changes)
}

/// The state that is told once the changes before a place are: below the place it is as now, and
/// from the place on as before.
pub fn told_after(before: State, now: State, place: u32) -> Result<State, NoMemory> {
    let mut told = now.cells;
    told.retain(|cell| cell.place < place);
    for cell in before.cells {
        if cell.place >= place {
            put(&mut told, cell)?;
        }
    }
    Ok(State { cells: told })
}
