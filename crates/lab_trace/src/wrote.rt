//! The lines that a kernel wrote, as a moment tells them.

ghost use Rattle.std.specs.Prelude.{◌≡◌, ◌≤◌, ◌++◌, length};

use kernel_data::NoMemory;
use lab_state::append_quoted;
use lab_words::sentence_of;
use std::alloc::Global;
use text_words::{Parts, append, append_with, word_at};

/// A line with its words, as an object.
fn object_of(alloc: Global, line: &[u8]) -> Result<Vec<u8>, NoMemory> {
    let mut object = Vec::new(alloc);
    append(&mut object, b"{\"text\":")?;
    append_quoted(&mut object, line)?;
    if let Some(words) = sentence_of(alloc, line)? {
        append(&mut object, b",\"words\":")?;
        append_quoted(&mut object, words.as_slice())?;
    }
    append(&mut object, b"}")?;
    Ok(object)
}

/// How many lines were told and left out so far, and how many bytes are left for others.
#[derive(Clone, Copy)]
struct Room {
    told: u32,
    more: u32,
    left: usize,
}

/// Appends a line, if it fits and each before it did: what is left.
fn append_line(
    alloc: Global,
    out: &mut Vec<u8>,
    line: &[u8],
    room: Room,
) -> Result<Room, NoMemory> {
    let object = object_of(alloc, line)?;
    if room.more > 0 || object.len() >= room.left {
        return Ok(Room {
            more: room.more.saturating_add(1),
            ..room
        });
    }
    if room.told > 0 {
        append(out, b",")?;
    }
    append(out, object.as_slice())?;
    Ok(Room {
        told: room.told.saturating_add(1),
        more: 0,
        left: room.left - object.len(),
    })
}

/// Appends lines, as many as fit into so many bytes: how many were left out.
fn append_lines(
    alloc: Global,
    out: &mut Vec<u8>,
    written: &[u8],
    most: usize,
) -> Result<u32, NoMemory> {
    let mut room = Room {
        told: 0,
        more: 0,
        left: most,
    };
    let mut lines = Parts::new(written, b'\n');
    while let Some(line) = lines.next() {
        if !line.is_empty() {
            room = append_line(alloc, out, line, room)?;
        }
    }
    Ok(room.more)
}

/// Appends the lines that were written, as a member `wrote`, as many as fit into so many bytes, and
/// how many were left out as a member `more`; nothing where none was written.
pub fn append_wrote(
    alloc: Global,
    out: &mut Vec<u8>,
    written: &[u8],
    most: usize,
) -> Result<(), NoMemory> {
    if written.is_empty() {
        return Ok(());
    }
    append(out, b",\"wrote\":[")?;
    let more = append_lines(alloc, out, written, most)?;
    append(out, b"]")?;
    if more > 0 {
        append_with(out, b",\"more\":", more)?;
    }
    Ok(())
}

/// Whether one of these lines says that a graft was dropped.
pub fn has_drop(written: &[u8]) -> bool {
    let mut lines = Parts::new(written, b'\n');
    while let Some(line) = lines.next() {
        if word_at(line, 1) == b"drop".as_slice() {
            return true;
        }
    }
    false
}

/// How many bytes the first so many lines have, with their newlines.
fn bytes_of(written: &[u8], count: usize) -> usize
    ensures { result ≤ length written.now }
{
    let mut left = count;
    for (i, byte) in written.iter().enumerate() {
        if left == 0 {
            return i;
        }
        if *byte == b'\n' {
            left -= 1;
        }
    }
    written.len()
}

/// The first so many lines, and those behind them.
pub fn split_lines(written: &[u8], count: usize) -> (&[u8], &[u8])
    ensures { written.now ≡ result.0.now ++ result.1.now }
{
    written.split_at(bytes_of(written, count))
}
