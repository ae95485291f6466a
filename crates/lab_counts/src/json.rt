//! Figures as JSON Lines: an object for each file.

use crate::figures::{Column, append_value};
use kernel_data::NoMemory;
use lab_state::append_quoted;
use std::alloc::Global;
use text_words::append;

/// Appends the object of a file, as a line.
fn append_column(out: &mut Vec<u8>, column: &Column) -> Result<(), NoMemory> {
    append(out, b"{\"file\":")?;
    append_quoted(out, column.file.as_slice())?;
    for figure in column.figures.as_slice() {
        append(out, b",")?;
        append_quoted(out, figure.name.as_slice())?;
        append(out, b":")?;
        append_value(out, figure.value, b"null")?;
    }
    append(out, b"}\n")
}

/// Figures as JSON Lines.
pub fn tell_json(alloc: Global, columns: &[Column]) -> Result<Vec<u8>, NoMemory> {
    let mut out = Vec::new(alloc);
    for column in columns {
        append_column(&mut out, column)?;
    }
    Ok(out)
}
