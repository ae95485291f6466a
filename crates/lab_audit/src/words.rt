//! What is told of a claim.

use crate::Names;
use crate::right::Right;
use hex_tables::encode;
use script_model::NoMemory;
use std::alloc::Global;
use text_words::{append, append_number};

/// How many bytes of a line are shown, from a little before the first that differs.
const SHOWN_BYTES: usize = 120;

/// How many bytes before the first that differs are shown of a long line.
const BEFORE_BYTES: usize = 40;

/// A claim that is right.
pub(crate) fn tell_same(alloc: Global, names: Names) -> Result<Vec<u8>, NoMemory> {
    let mut text = Vec::new(alloc);
    append(&mut text, names.lab)?;
    append(&mut text, b": ")?;
    append(&mut text, shown_name(names.claim))?;
    append(&mut text, b" is what the script writes\n")?;
    Ok(text)
}

/// The first line that differs, what was claimed and what is right.
pub(crate) fn tell_difference(
    alloc: Global,
    names: Names,
    line: u32,
    claim: &[u8],
    right: &Right,
) -> Result<Vec<u8>, NoMemory> {
    let claimed = line_at(claim, line);
    let from = shown_from(claimed, right.text.as_slice());
    let mut text = Vec::new(alloc);
    tell_place(&mut text, names, line, right.by)?;
    append(&mut text, b"    claimed: ")?;
    tell_line(&mut text, claimed, from)?;
    append(&mut text, b"    right:   ")?;
    tell_line(&mut text, right.text.as_slice(), from)?;
    if claimed.ends_with(b"\r\n") {
        append(
            &mut text,
            b"    its lines end with CR LF; save it with LF\n",
        )?;
    }
    Ok(text)
}

/// A file's name; the standard input has none.
fn shown_name(name: &[u8]) -> &[u8] {
    if name == b"-".as_slice() {
        b"standard input"
    } else {
        name
    }
}

/// Which line differs, and which line of the lab file writes it.
fn tell_place(text: &mut Vec<u8>, names: Names, line: u32, by: u32) -> Result<(), NoMemory> {
    append(text, names.lab)?;
    if by != 0 {
        append(text, b":")?;
        append_number(text, by)?;
    }
    append(text, b": line ")?;
    append_number(text, line)?;
    append(text, b" of ")?;
    append(text, shown_name(names.claim))?;
    append(text, b" isn't what the script writes\n")
}

/// The line of this number, from 1, with its newline; empty where there is none.
fn line_at(text: &[u8], line: u32) -> &[u8] {
    let mut from = 0;
    let mut before = line.saturating_sub(1);
    for (at, byte) in text.iter().enumerate() {
        if *byte == b'\n' {
            if before == 0 {
                return text.get(from..=at).unwrap_or(&[]);
            }
            before -= 1;
            from = at + 1;
        }
    }
    if before == 0 {
        text.get(from..).unwrap_or(&[])
    } else {
        &[]
    }
}

/// From which byte on two lines are shown: from the first, or from a little before the first byte
/// that differs, where that one is far behind.
fn shown_from(one: &[u8], other: &[u8]) -> usize {
    let mut same: usize = 0;
    for (a, b) in one.iter().zip(other) {
        if *a != *b {
            break;
        }
        same = same.saturating_add(1);
    }
    if same < SHOWN_BYTES - BEFORE_BYTES {
        0
    } else {
        same.saturating_sub(BEFORE_BYTES)
    }
}

/// A part of a line, in signs that every terminal shows.
fn tell_line(text: &mut Vec<u8>, line: &[u8], from: usize) -> Result<(), NoMemory> {
    if line.is_empty() {
        return append(text, b"no such line\n");
    }
    let (whole, bare) = match line {
        [front @ .., b'\n'] => (true, front),
        _ => (false, line),
    };
    if from > 0 {
        append(text, b"..")?;
    }
    let shown = bare.get(from..).unwrap_or(&[]);
    let count = shown.len().min(SHOWN_BYTES);
    for byte in shown.get(..count).unwrap_or(&[]) {
        tell_byte(text, *byte)?;
    }
    if count < shown.len() {
        append(text, b"..")?;
    }
    if !whole {
        append(text, b" (without a newline)")?;
    }
    append(text, b"\n")
}

/// A byte as it is, or as `\x` and two hex digits where terminals may not show it.
fn tell_byte(text: &mut Vec<u8>, byte: u8) -> Result<(), NoMemory> {
    if (32..127).contains(&byte) {
        return append(text, &[byte]);
    }
    let mut digits = [0; 2];
    encode(&[byte], &mut digits);
    append(text, b"\\x")?;
    append(text, &digits)
}
