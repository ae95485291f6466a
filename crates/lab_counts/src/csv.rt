//! Figures as CSV (RFC 4180): a column for each file.

use crate::figures::{Column, append_value};
use kernel_data::NoMemory;
use std::alloc::Global;
use text_words::append;

/// Whether a byte makes quotes necessary.
fn is_special(byte: u8) -> bool {
    matches!(byte, b'"' | b',' | b'\n' | b'\r')
}

/// Appends a text as a field, in quotes where it needs them.
fn append_field(out: &mut Vec<u8>, text: &[u8]) -> Result<(), NoMemory> {
    if !text.iter().any(|byte| is_special(*byte)) {
        return append(out, text);
    }
    append(out, b"\"")?;
    for byte in text {
        if *byte == b'"' {
            append(out, b"\"\"")?;
        } else {
            append(out, &[*byte])?;
        }
    }
    append(out, b"\"")
}

/// Appends the row of the figure of this place.
fn append_row(out: &mut Vec<u8>, columns: &[Column], place: usize) -> Result<(), NoMemory> {
    for column in columns {
        append(out, b",")?;
        if let Some(figure) = column.figures.as_slice().get(place) {
            append_value(out, figure.value, b"")?;
        }
    }
    append(out, b"\n")
}

/// Figures as CSV: a line with the names of the files, and a line for each figure.
pub fn tell_csv(alloc: Global, columns: &[Column]) -> Result<Vec<u8>, NoMemory> {
    let mut out = Vec::new(alloc);
    append(&mut out, b"figure")?;
    for column in columns {
        append(&mut out, b",")?;
        append_field(&mut out, column.file.as_slice())?;
    }
    append(&mut out, b"\n")?;
    let Some(first) = columns.first() else {
        return Ok(out);
    };
    for (place, figure) in first.figures.as_slice().iter().enumerate() {
        append(&mut out, figure.name.as_slice())?;
        append_row(&mut out, columns, place)?;
    }
    Ok(out)
}
