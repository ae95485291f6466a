//! Changes of a state as a merge patch.

use crate::cells::{Cell, State};
use crate::changes::Change;
use crate::names::{append_item, append_member, append_section, is_single, item_of, section_of};
use kernel_data::NoMemory;
use text_words::append;

/// What is open of a patch that is being written: a section, and in it an item with its members.
#[derive(Clone, Copy)]
struct Open {
    section: Option<u32>,
    item: Option<u32>,
}

/// Appends the section of a place as a key, and opens it.
fn open_section(out: &mut Vec<u8>, place: u32) -> Result<(), NoMemory> {
    append(out, b"\"")?;
    append_section(out, place)?;
    append(out, b"\":{")
}

/// Closes the item that is open, if one is.
fn close_item(out: &mut Vec<u8>, open: Open) -> Result<(), NoMemory> {
    if open.item.is_some() {
        append(out, b"}")?;
    }
    Ok(())
}

/// Goes on to the section of a place, and closes what is open of another.
fn go_to_section(out: &mut Vec<u8>, open: Open, place: u32) -> Result<(), NoMemory> {
    close_item(out, open)?;
    match open.section {
        None => open_section(out, place),
        Some(section) if section == section_of(place) => append(out, b","),
        Some(_) => {
            append(out, b"},")?;
            open_section(out, place)
        }
    }
}

/// Goes on to the item of a place, and appends its key.
fn go_to_item(out: &mut Vec<u8>, open: Open, place: u32) -> Result<(), NoMemory> {
    go_to_section(out, open, place)?;
    append(out, b"\"")?;
    append_item(out, place)?;
    append(out, b"\":")
}

/// Goes on to the member of a place, and appends its key: what is open then.
fn go_to_member(out: &mut Vec<u8>, open: Open, place: u32) -> Result<Open, NoMemory> {
    if open.item == Some(item_of(place)) {
        append(out, b",\"")?;
    } else {
        go_to_item(out, open, place)?;
        append(out, b"{\"")?;
    }
    append_member(out, place)?;
    append(out, b"\":")?;
    Ok(Open {
        section: Some(section_of(place)),
        item: Some(item_of(place)),
    })
}

/// Goes on to a place, and appends its key: what is open then. `whole` says that it stands for its
/// item.
fn go_to(out: &mut Vec<u8>, open: Open, place: u32, whole: bool) -> Result<Open, NoMemory> {
    if !whole && !is_single(section_of(place)) {
        return go_to_member(out, open, place);
    }
    go_to_item(out, open, place)?;
    Ok(Open {
        section: Some(section_of(place)),
        item: None,
    })
}

/// Appends a value of those that there are now.
fn append_value(out: &mut Vec<u8>, now: &[Cell], number: usize) -> Result<(), NoMemory> {
    match now.get(number) {
        Some(cell) => append(out, cell.value.as_slice()),
        None => append(out, b"null"),
    }
}

/// Appends a change: what is open then.
fn append_change(
    out: &mut Vec<u8>,
    open: Open,
    change: Change,
    now: &[Cell],
) -> Result<Open, NoMemory> {
    match change {
        Change::Put { place, number } => {
            let open = go_to(out, open, place, false)?;
            append_value(out, now, number)?;
            Ok(open)
        }
        Change::Gone(place) => {
            let open = go_to(out, open, place, false)?;
            append(out, b"null")?;
            Ok(open)
        }
        Change::ItemGone(place) => {
            let open = go_to(out, open, place, true)?;
            append(out, b"null")?;
            Ok(open)
        }
    }
}

/// Closes what is open.
fn close(out: &mut Vec<u8>, open: Open) -> Result<(), NoMemory> {
    close_item(out, open)?;
    if open.section.is_some() {
        append(out, b"}")?;
    }
    append(out, b"}")
}

/// Appends changes to a state as a merge patch, until it has this many bytes or more: how many
/// changes it has.
pub fn append_patch(
    out: &mut Vec<u8>,
    changes: &[Change],
    now: &State,
    most: usize,
) -> Result<usize, NoMemory> {
    let from = out.len();
    let mut open = Open {
        section: None,
        item: None,
    };
    let mut told: usize = 0;
    append(out, b"{")?;
    for change in changes {
        if out.len().saturating_sub(from) >= most {
            break;
        }
        open = append_change(out, open, *change, now.cells.as_slice())?;
        told = told.saturating_add(1);
    }
    close(out, open)?;
    Ok(told)
}
