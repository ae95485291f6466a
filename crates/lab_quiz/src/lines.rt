//! The lines of a run, and those of a quiz.

ghost use Rattle.std.specs.Prelude.{◌≡◌, ◌++◌, ◌∷◌, [], cond, length, OnOk, IfOk};
ghost use Rattle.lab_lines.specs.Told.{lines_in, lines_of};
ghost use Rattle.lab_quiz.specs.Quiz.{asked_of, blank};

use kernel_data::NoMemory;
use lab_lines::Piece;
use std::alloc::Global;
use std::marker::Model;
use text_words::Parts;

/// A line, and the number of the line of the script that wrote it; 0 where none did.
#[derive(Drop)]
pub(crate) struct Line<'a> {
    owner: usize,
    bytes: &'a [u8],
}

impl<'a> Model for Line<'a> {
    ghost use Rattle.std.specs.Prelude.{ℕ, List};

    ghost Value = { List ℕ };

    ghost view = { λ l. l.bytes.now };
}

impl<'a> Line<'a> {
    /// The number of the line of the script that wrote it.
    pub(crate) fn owner(&self) -> usize {
        self.owner
    }

    /// Its bytes.
    pub(crate) fn bytes(&self) -> &'a [u8]
        ensures { result.now ≡ self.now }
    {
        self.bytes
    }
}

/// Puts a line behind others.
fn put<'a>(lines: &mut Vec<Line<'a>>, owner: usize, bytes: &'a [u8]) -> Result<(), NoMemory>
    ensures { OnOk result (lines.new.items ≡ lines.old.items ++ bytes.now ∷ []) }
{
    match lines.push(Line { owner, bytes }) {
        Ok(()) => Ok(()),
        Err(_) => Err(NoMemory),
    }
}

/// Puts the lines of a piece behind others; empty ones are left out.
fn put_lines<'a>(lines: &mut Vec<Line<'a>>, owner: usize, text: &'a [u8]) -> Result<(), NoMemory>
    ensures { OnOk result (lines.new.items ≡ lines.old.items ++ lines_of text.now) }
{
    let mut parts = Parts::new(text, b'\n');
    while let Some(line) = parts.next() {
        if !line.is_empty() {
            put(lines, owner, line)?;
        }
    }
    Ok(())
}

/// All lines of a run.
pub(crate) fn all_lines<'a>(alloc: Global, pieces: &[Piece<'a>]) -> Result<Vec<Line<'a>>, NoMemory>
    ensures { IfOk result (λ lines. lines.items ≡ lines_in pieces.now) }
{
    let mut lines = Vec::new(alloc);
    for piece in pieces {
        put_lines(&mut lines, piece.owner, piece.bytes)?;
    }
    Ok(lines)
}

/// A line, or what stands in its place where it is left out.
fn shown_as<'a>(line: &Line<'a>, mark: bool) -> &'a [u8]
    ensures { result.now ≡ cond mark blank line.now }
{
    if mark { b"?" } else { line.bytes() }
}

/// The lines of a quiz, of which those that are marked are left out.
#[tactic(auto, using(crate::proofs::Asking::one_more, crate::proofs::Asking::no_more))]
pub(crate) fn asked_lines<'a>(
    alloc: Global,
    lines: &[Line<'a>],
    marks: &[bool],
) -> Result<Vec<Line<'a>>, NoMemory>
    requires { length marks.now ≡ length lines.now }
    ensures { IfOk result (λ asked. asked.items ≡ asked_of marks.now lines.now) }
{
    let mut asked = Vec::new(alloc);
    let mut k = 0;
    while k < marks.len() {
        let bytes = shown_as(&lines[k], marks[k]);
        put(&mut asked, lines[k].owner(), bytes)?;
        k += 1;
    }
    Ok(asked)
}
