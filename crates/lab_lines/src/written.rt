//! The lines that were written.

ghost use Rattle.std.specs.Prelude.{◌≡◌, ◌++◌, map, OnOk, IfOk};
ghost use Rattle.lab_lines.specs.Told.{lines_of};
ghost use Rattle.lab_lines.specs.Written as spec;

use crate::pieces::{Piece, writer};
use kernel_data::NoMemory;
use std::alloc::Global;
use std::marker::Model;
use text_words::Parts;

/// A line that was written, and the number of the line of the script to which it belongs.
#[derive(Drop)]
pub(crate) struct Wrote<'a> {
    pub(crate) owner: usize,
    pub(crate) line: &'a [u8],
}

impl<'a> Model for Wrote<'a> {
    ghost Value = { spec.Line };

    ghost view = { λ w. spec.line_by w.owner w.line.now };
}

/// Puts a line behind others, unless it is empty.
fn put<'a>(out: &mut Vec<Wrote<'a>>, owner: usize, line: &'a [u8]) -> Result<(), NoMemory>
    ensures { OnOk result (out.new.items ≡ spec.with_line owner line.now out.old.items) }
{
    if line.is_empty() {
        return Ok(());
    }
    match out.push(Wrote { owner, line }) {
        Ok(()) => Ok(()),
        Err(_) => Err(NoMemory),
    }
}

/// Puts the lines of a piece behind others.
fn put_lines<'a>(out: &mut Vec<Wrote<'a>>, owner: usize, piece: &'a [u8]) -> Result<(), NoMemory>
    ensures lines { OnOk result (out.new.items
        ≡ out.old.items ++ map (spec.line_by owner) (lines_of piece.now)) }
{
    let mut lines = Parts::new(piece, b'\n');
    while let Some(line) = lines.next() {
        put(out, owner, line)?;
    }
    Ok(())
}

/// All lines that were written.
pub(crate) fn all_lines<'a>(
    alloc: Global,
    last: usize,
    pieces: &[Piece<'a>],
) -> Result<Vec<Wrote<'a>>, NoMemory>
    ensures { IfOk result (λ lines. lines.items ≡ spec.all_lines last pieces.now) }
{
    let mut lines = Vec::new(alloc);
    for piece in pieces {
        put_lines(&mut lines, writer(last, piece), piece.bytes)?;
    }
    Ok(lines)
}
