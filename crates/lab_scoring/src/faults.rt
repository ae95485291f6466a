//! Why a task has no figure to rank by, in a sentence.

use crate::figures::FigureFault;
use crate::telling::append_shown;
use kernel_data::NoMemory;
use lab_counts::Column;
use lab_likeness::most_like;
use lab_places::{column_of, line_at, word_span};
use std::alloc::Global;
use text_words::{append, put};

/// What is said of a share, behind its name.
const IS_SHARE: &[u8] =
    b"' is a share, and shares can't be summed over tests; name a count: docs/MEASURE.md lists them\n";

/// The name of a figure of this run that a word is most like.
fn name_like<'a>(
    alloc: Global,
    column: &'a Column,
    word: &[u8],
) -> Result<Option<&'a str>, NoMemory> {
    let mut names: Vec<&str> = Vec::new(alloc);
    for figure in column.figures.as_slice() {
        if let Ok(name) = str::from_utf8(figure.name.as_slice()) {
            put(&mut names, name)?;
        }
    }
    match most_like(alloc, word, names.as_slice())? {
        Some(place) => Ok(names.as_slice().get(place).copied()),
        None => Ok(None),
    }
}

/// Appends what is meant by a word that is the name of no figure of this run.
fn append_meant(
    alloc: Global,
    out: &mut Vec<u8>,
    column: &Column,
    word: &[u8],
) -> Result<(), NoMemory> {
    append(out, b"' isn't a figure that `lab measure` counts")?;
    if let Some(name) = name_like(alloc, column, word)? {
        append(out, b" (did you mean '")?;
        append(out, name.as_bytes())?;
        append(out, b"'?)")?;
    }
    append(out, b"; docs/MEASURE.md lists them\n")
}

/// Appends a number behind a colon.
fn append_place(out: &mut Vec<u8>, n: usize) -> Result<(), NoMemory> {
    let mut digits = itoa::Buffer::new();
    append(out, b":")?;
    append(out, digits.format(n).as_bytes())
}

/// The column of the third word of line `n` of a text; 1 where there is none.
fn column_in(text: &[u8], n: usize) -> usize {
    let line = line_at(text, n);
    match word_span(line, 0, line.len(), 2) {
        Some(span) => column_of(line, span.from),
        None => 1,
    }
}

/// The line of a task that names the figure: its name, its text, and its number, from 1.
#[derive(Clone, Copy)]
pub struct Named<'a> {
    /// What the file of the task is called.
    pub path: &'a [u8],
    /// The text of the task.
    pub text: &'a [u8],
    /// The number of the line.
    pub line: usize,
}

/// Why submissions can't be ranked by a figure of this name, of whose runs this is one.
pub fn tell_figure_fault(
    alloc: Global,
    named: Named,
    column: &Column,
    figure: &[u8],
    fault: FigureFault,
) -> Result<Vec<u8>, NoMemory> {
    let mut out = Vec::new(alloc);
    append_shown(&mut out, named.path)?;
    append_place(&mut out, named.line)?;
    append_place(&mut out, column_in(named.text, named.line))?;
    append(&mut out, b": '")?;
    append_shown(&mut out, figure)?;
    match fault {
        FigureFault::Unknown => append_meant(alloc, &mut out, column, figure)?,
        FigureFault::Share => append(&mut out, IS_SHARE)?,
    }
    Ok(out)
}

/// What is told of a task that names no figure; this line begins its first test.
pub fn tell_no_figure(alloc: Global, path: &[u8], line: usize) -> Result<Vec<u8>, NoMemory> {
    let mut out = Vec::new(alloc);
    append_shown(&mut out, path)?;
    append_place(&mut out, line)?;
    append(
        &mut out,
        b": the task names no figure: write `score least FIGURE` or `score most FIGURE` ",
    )?;
    append(&mut out, b"before its first test\n")?;
    Ok(out)
}
