//! Figures as a table: a column for each file.

use crate::figures::{Column, append_value, is_zero};
use kernel_data::NoMemory;
use std::alloc::Global;
use text_words::append;

/// The columns that separate two columns.
const GAP: usize = 2;

/// Appends so many spaces.
fn append_spaces(out: &mut Vec<u8>, count: usize) -> Result<(), NoMemory> {
    for _ in 0..count {
        append(out, b" ")?;
    }
    Ok(())
}

/// Appends a text, and spaces behind it up to a width.
fn append_left(out: &mut Vec<u8>, text: &[u8], width: usize) -> Result<(), NoMemory> {
    append(out, text)?;
    append_spaces(out, width.saturating_sub(text.len()))
}

/// How many signs a UTF-8 text has.
fn signs_in(text: &[u8]) -> usize {
    text.iter().filter(|byte| **byte & 0xc0 != 0x80).count()
}

/// Appends a text behind a gap, and spaces before it up to a width.
fn append_right(out: &mut Vec<u8>, text: &[u8], width: usize) -> Result<(), NoMemory> {
    append_spaces(
        out,
        width.saturating_sub(signs_in(text)).saturating_add(GAP),
    )?;
    append(out, text)
}

/// The value of the figure of a place, as text.
fn text_of(alloc: Global, column: &Column, place: usize) -> Result<Vec<u8>, NoMemory> {
    let mut text = Vec::new(alloc);
    if let Some(figure) = column.figures.as_slice().get(place) {
        append_value(&mut text, figure.value, b"-")?;
    }
    Ok(text)
}

/// Whether the figure of a place stands in a table.
fn is_told(columns: &[Column], place: usize) -> bool {
    for column in columns {
        if let Some(figure) = column.figures.as_slice().get(place) {
            if !figure.detail || !is_zero(figure.value) {
                return true;
            }
        }
    }
    false
}

/// The width of a column.
fn width_of(alloc: Global, column: &Column) -> Result<usize, NoMemory> {
    let mut width = signs_in(column.file.as_slice());
    for (place, figure) in column.figures.as_slice().iter().enumerate() {
        let _ = figure;
        width = width.max(text_of(alloc, column, place)?.len());
    }
    Ok(width)
}

/// The widths of all columns.
fn widths_of(alloc: Global, columns: &[Column]) -> Result<Vec<usize>, NoMemory> {
    let mut widths = Vec::new(alloc);
    for column in columns {
        if widths.push(width_of(alloc, column)?).is_err() {
            return Err(NoMemory);
        }
    }
    Ok(widths)
}

/// The width of the names of figures.
fn name_width(columns: &[Column]) -> usize {
    let mut width = b"figure".len();
    if let Some(first) = columns.first() {
        for figure in first.figures.as_slice() {
            width = width.max(figure.name.len());
        }
    }
    width
}

/// The width of the column of a place.
fn width_at(widths: &[usize], place: usize) -> usize {
    match widths.get(place) {
        Some(width) => *width,
        None => 0,
    }
}

/// Appends the values of the figure of a place.
fn append_row(
    alloc: Global,
    out: &mut Vec<u8>,
    columns: &[Column],
    widths: &[usize],
    place: usize,
) -> Result<(), NoMemory> {
    for (at, column) in columns.iter().enumerate() {
        let text = text_of(alloc, column, place)?;
        append_right(out, text.as_slice(), width_at(widths, at))?;
    }
    append(out, b"\n")
}

/// Appends the line with the names of the files.
fn append_head(out: &mut Vec<u8>, columns: &[Column], widths: &[usize]) -> Result<(), NoMemory> {
    append_left(out, b"figure", name_width(columns))?;
    for (at, column) in columns.iter().enumerate() {
        append_right(out, column.file.as_slice(), width_at(widths, at))?;
    }
    append(out, b"\n")
}

/// Figures as a table; those of details stand in it where one isn't 0.
pub fn tell_table(alloc: Global, columns: &[Column]) -> Result<Vec<u8>, NoMemory> {
    let mut out = Vec::new(alloc);
    let widths = widths_of(alloc, columns)?;
    append_head(&mut out, columns, widths.as_slice())?;
    let Some(first) = columns.first() else {
        return Ok(out);
    };
    for (place, figure) in first.figures.as_slice().iter().enumerate() {
        if is_told(columns, place) {
            append_left(&mut out, figure.name.as_slice(), name_width(columns))?;
            append_row(alloc, &mut out, columns, widths.as_slice(), place)?;
        }
    }
    Ok(out)
}
