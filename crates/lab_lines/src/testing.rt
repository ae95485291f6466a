//! Wanted lines, compared with those that were written.

ghost use Rattle.std.specs.Prelude.{◌≡◌, ◌≤◌, ◌==◌, ◌↔◌, [], length, not, OnOk, IfOk};
ghost use Rattle.lab_lines.specs.AsWanted.{AsWanted, WantsInOrder, PiecesInOrder, is_extra};
ghost use Rattle.lab_lines.specs.AsWanted as wanted;
ghost use Rattle.lab_lines.specs.Differences.{TellsOne, TellsIf, Steps, count_ahead};
ghost use Rattle.lab_lines.specs.Wanted as spec;

use crate::pieces::Piece;
use crate::text::add_number;
use crate::written::{Wrote, all_lines};
use kernel_data::NoMemory;
use lab_lowering::{Sheet, Want};
use lab_words::sentence_of;
use std::alloc::Global;
use text_words::{Parts, append};

/// What differs, a line each, and how much does.
#[derive(Drop)]
pub struct Compared {
    /// The lines that tell of it.
    pub text: Vec<u8>,
    /// How many they are.
    pub differences: usize,
}

/// Whether a wanted word stands for a word: for itself, and `*` for any.
fn is_word_of(want: &[u8], word: &[u8]) -> bool
    ensures { result ≡ spec.is_word_of want.now word.now }
{
    want == b"*".as_slice() || want == word
}

/// Whether a line is the one that is wanted, in which the word `*` stands for any.
pub fn is_wanted(want: &[u8], line: &[u8]) -> bool
    ensures { result ≡ spec.is_wanted want.now line.now }
{
    let mut words = Parts::new(line, b' ');
    let mut wants = Parts::new(want, b' ');
    while let Some(want) = wants.next() {
        match words.next() {
            None => return false,
            Some(word) => {
                if !is_word_of(want, word) {
                    return false;
                }
            }
        }
    }
    words.next().is_none()
}

/// Appends a line in quotes, with its words in brackets.
fn add_quoted(alloc: Global, out: &mut Vec<u8>, line: &[u8]) -> Result<(), NoMemory>
    ensures { OnOk result (length out.old.items ≤ length out.new.items) }
{
    append(out, b"'")?;
    append(out, line)?;
    append(out, b"'")?;
    if let Some(words) = sentence_of(alloc, line)? {
        return add_words(out, words.as_slice());
    }
    Ok(())
}

/// Appends the words of a line in brackets.
fn add_words(out: &mut Vec<u8>, words: &[u8]) -> Result<(), NoMemory>
    ensures { OnOk result (length out.old.items ≤ length out.new.items) }
{
    append(out, b" (")?;
    append(out, words)?;
    append(out, b")")
}

/// Appends a line in quotes, or that there is none.
fn add_got(alloc: Global, out: &mut Vec<u8>, got: Option<&[u8]>) -> Result<(), NoMemory>
    ensures { OnOk result (length out.old.items ≤ length out.new.items) }
{
    match got {
        Some(line) => add_quoted(alloc, out, line),
        None => append(out, b"nothing"),
    }
}

impl Compared {
    /// Begins to tell of a difference in this line of this file.
    fn begin_difference(&mut self, file: &[u8], line: usize) -> Result<(), NoMemory>
        ensures { OnOk result (TellsOne self.old self.new) }
    {
        self.differences = self.differences.saturating_add(1);
        append(&mut self.text, file)?;
        append(&mut self.text, b": line ")?;
        add_number(&mut self.text, line)?;
        append(&mut self.text, b": ")
    }

    /// A line is wanted and another one, or none, was written.
    fn add_missing(
        &mut self,
        alloc: Global,
        file: &[u8],
        want: &Want,
        got: Option<&[u8]>,
    ) -> Result<(), NoMemory>
        ensures { OnOk result (TellsOne self.old self.new) }
    {
        self.begin_difference(file, want.line)?;
        append(&mut self.text, b"wanted '")?;
        append(&mut self.text, want.text.bytes())?;
        append(&mut self.text, b"', got ")?;
        add_got(alloc, &mut self.text, got)?;
        append(&mut self.text, b"\n")
    }

    /// A line was written that isn't wanted.
    fn add_extra(&mut self, alloc: Global, file: &[u8], wrote: &Wrote) -> Result<(), NoMemory>
        ensures { OnOk result (TellsOne self.old self.new) }
    {
        self.begin_difference(file, wrote.owner)?;
        append(&mut self.text, b"got ")?;
        add_quoted(alloc, &mut self.text, wrote.line)?;
        append(&mut self.text, b", which isn't wanted\n")
    }

    /// A written line for which nothing is wanted: it tells where it belongs to a line with wanted
    /// lines, and where it is a refusal.
    fn add_unwanted(
        &mut self,
        alloc: Global,
        file: &[u8],
        wrote: &Wrote,
        owner: usize,
    ) -> Result<(), NoMemory>
        ensures { OnOk result (TellsIf (is_extra owner wrote.now) self.old self.new) }
    {
        if wrote.owner == owner || is_refusal(wrote.line) {
            return self.add_extra(alloc, file, wrote);
        }
        Ok(())
    }

    /// A wanted line and the one that was written in its place.
    fn add_pair(
        &mut self,
        alloc: Global,
        file: &[u8],
        want: &Want,
        wrote: &Wrote,
    ) -> Result<(), NoMemory>
        ensures { OnOk result
            (TellsIf (not (spec.is_wanted want.now.text wrote.now.text)) self.old self.new) }
    {
        if is_wanted(want.text.bytes(), wrote.line) {
            return Ok(());
        }
        self.add_missing(alloc, file, want, Some(wrote.line))
    }
}

/// Whether a line says that a line of the script is refused.
fn is_refusal(line: &[u8]) -> bool
    ensures { result ≡ wanted.is_refusal line.now }
{
    line.starts_with(b"script ")
}

/// The lines that are still to be compared, and the line of the script to which the last wanted one
/// before them belongs.
#[derive(Clone, Copy)]
struct Ahead<'a> {
    owner: usize,
    wants: &'a [Want],
    lines: &'a [Wrote<'a>],
}

/// Whether no line is ahead.
fn is_over(ahead: &Ahead) -> bool
    ensures { result ≡ (count_ahead ahead.now == 0) }
{
    ahead.wants.is_empty() && ahead.lines.is_empty()
}

impl Compared {
    /// Compares the next wanted with the next written line: what is behind the one that belongs to
    /// the earlier line of the script, or behind both.
    fn compare_next<'a>(
        &mut self,
        alloc: Global,
        file: &[u8],
        ahead: Ahead<'a>,
    ) -> Result<Ahead<'a>, NoMemory>
        ensures { IfOk result (λ next. Steps self.old self.new ahead.entry next) }
    {
        let Some((want, wants)) = ahead.wants.split_first() else {
            return self.compare_line(alloc, file, ahead);
        };
        let owner = want.owner;
        let Some((wrote, lines)) = ahead.lines.split_first() else {
            self.add_missing(alloc, file, want, None)?;
            return Ok(Ahead {
                owner,
                wants,
                ..ahead
            });
        };
        if owner < wrote.owner {
            self.add_missing(alloc, file, want, None)?;
            return Ok(Ahead {
                owner,
                wants,
                ..ahead
            });
        }
        if wrote.owner < owner {
            self.add_unwanted(alloc, file, wrote, ahead.owner)?;
            return Ok(Ahead { lines, ..ahead });
        }
        self.add_pair(alloc, file, want, wrote)?;
        Ok(Ahead {
            owner,
            wants,
            lines,
        })
    }

    /// The same where no line is wanted any more.
    fn compare_line<'a>(
        &mut self,
        alloc: Global,
        file: &[u8],
        ahead: Ahead<'a>,
    ) -> Result<Ahead<'a>, NoMemory>
        requires { ahead.wants.now ≡ [] }
        ensures { IfOk result (λ next. Steps self.old self.new ahead.entry next) }
    {
        let Some((wrote, lines)) = ahead.lines.split_first() else {
            return Ok(ahead);
        };
        self.add_unwanted(alloc, file, wrote, ahead.owner)?;
        Ok(Ahead { lines, ..ahead })
    }
}

/// Compares wanted lines with those that were written, in their order. Of a line of the script with
/// wanted lines exactly those are to be written; of others only a refusal tells.
pub fn compare(
    alloc: Global,
    file: &[u8],
    sheet: &Sheet,
    pieces: &[Piece],
) -> Result<Compared, NoMemory>
    // Where the pieces come in the order of the lines of the script, no difference is told only
    // where all is as wanted.
    ensures trusted { IfOk result (λ told. PiecesInOrder 0 sheet.now.last pieces.now →
        told.differences ≡ 0 → AsWanted sheet.now.wants sheet.now.last pieces.now) }
    // Where all is as wanted, none is told.
    ensures silent { IfOk result (λ told. WantsInOrder sheet.now.wants →
        PiecesInOrder 1 sheet.now.last pieces.now →
        AsWanted sheet.now.wants sheet.now.last pieces.now → told.differences ≡ 0) }
    // There is text exactly where a difference is told.
    ensures text { IfOk result (λ told. (told.text.items ≡ []) ↔ (told.differences ≡ 0)) }
{
    let lines = all_lines(alloc, sheet.last(), pieces)?;
    let mut told = Compared {
        text: Vec::new(alloc),
        differences: 0,
    };
    let mut ahead = Ahead {
        owner: 0,
        wants: sheet.wants(),
        lines: lines.as_slice(),
    };
    while !is_over(&ahead) {
        ahead = told.compare_next(alloc, file, ahead)?;
    }
    Ok(told)
}
