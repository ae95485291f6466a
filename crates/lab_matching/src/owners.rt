//! What is wanted of a line of the script, and what it wrote.

ghost use Rattle.std.specs.Prelude.{◌≡◌, ◌++◌, ◌∷◌, [], OnOk, IfOk};
ghost use Rattle.lab_lines.specs.AsWanted.{wanted_of};
ghost use Rattle.lab_lines.specs.Told.{lines_of};
ghost use Rattle.lab_lines.specs.Written.{written_by};
ghost use Rattle.lab_lines.specs.Written as written;

use kernel_data::NoMemory;
use lab_lines::Piece;
use lab_reader::Want;
use std::alloc::Global;
use std::marker::Model;
use text_words::Parts;

/// A line, or what is wanted of one.
#[derive(Drop)]
pub struct Line<'a> {
    /// Its bytes.
    pub bytes: &'a [u8],
}

impl<'a> Model for Line<'a> {
    ghost use Rattle.std.specs.Prelude.{ℕ, List};

    ghost Value = { List ℕ };

    ghost view = { λ l. l.bytes.now };
}

/// Puts a line behind others.
fn put_line<'a>(lines: &mut Vec<Line<'a>>, line: &'a [u8]) -> Result<(), NoMemory>
    ensures { OnOk result (lines.new.items
        ≡ lines.old.items ++ line.now ∷ []) }
{
    match lines.push(Line { bytes: line }) {
        Ok(()) => Ok(()),
        Err(_) => Err(NoMemory),
    }
}

/// What is wanted of a line of the script.
pub fn wants_of<'a>(
    alloc: Global,
    owner: usize,
    wants: &'a [Want],
) -> Result<Vec<Line<'a>>, NoMemory>
    ensures { IfOk result (λ texts. texts.items
        ≡ wanted_of owner wants.now) }
{
    let mut texts = Vec::new(alloc);
    for want in wants {
        if want.owner == owner {
            put_line(&mut texts, want.text.bytes())?;
        }
    }
    Ok(texts)
}

/// The line of the script to which a piece belongs: the end of a run belongs to the last one.
pub(crate) fn writer(last: usize, piece: &Piece) -> usize
    ensures { result ≡ written.writer last piece.now }
{
    if piece.owner == 0 { last } else { piece.owner }
}

/// Puts the lines of a text behind others; empty ones are left out.
fn put_lines<'a>(lines: &mut Vec<Line<'a>>, text: &'a [u8]) -> Result<(), NoMemory>
    ensures { OnOk result (lines.new.items
        ≡ lines.old.items ++ lines_of text.now) }
{
    let mut parts = Parts::new(text, b'\n');
    while let Some(line) = parts.next() {
        if !line.is_empty() {
            put_line(lines, line)?;
        }
    }
    Ok(())
}

/// The lines that a line of the script wrote.
pub fn lines_by<'a>(
    alloc: Global,
    owner: usize,
    last: usize,
    pieces: &[Piece<'a>],
) -> Result<Vec<Line<'a>>, NoMemory>
    ensures { IfOk result (λ lines. lines.items
        ≡ written_by owner last pieces.now) }
{
    let mut lines = Vec::new(alloc);
    for piece in pieces {
        if writer(last, piece) == owner {
            put_lines(&mut lines, piece.bytes)?;
        }
    }
    Ok(lines)
}
