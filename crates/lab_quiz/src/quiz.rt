//! A quiz, line by line.

ghost use Rattle.std.specs.Prelude.{◌≡◌, [], drop, length, IfOk, OnOk};
ghost use Rattle.lab_lines.specs.Told.{lines_in, lines_of};
ghost use Rattle.lab_quiz.specs.Quiz.{Adds, HasLines, asked};

use crate::draw::{leaves_third, left_out};
use crate::lines::{Line, all_lines, asked_lines};
use crate::text::{add_end, add_file_line, add_line};
use kernel_data::NoMemory;
use lab_lines::{LineSink, pieces_of};
use lab_reader::{Graft, Item, Lab, Want};
use std::alloc::Global;
use text_words::{Parts, append, append_with};

/// How many bytes of a line of the script are shown; hex digits of an image are more.
const SHOWN: usize = 94;

/// What a quiz is made of.
#[derive(Clone, Copy)]
pub struct Source<'a> {
    /// The bytes of a lab file.
    pub text: &'a [u8],
    /// What they say.
    pub lab: &'a Lab,
    /// The number that decides which lines are left out.
    pub seed: u32,
    /// Whether no line is left out.
    pub answers: bool,
}

/// The line of the script that loads the image of a graft, in words of the file.
fn image_text(
    alloc: Global,
    grafts: &[Graft],
    slot: u32,
    graft: usize,
    raw: bool,
) -> Result<Vec<u8>, NoMemory> {
    let mut text = Vec::new(alloc);
    append_with(&mut text, b"image ", slot)?;
    append(&mut text, b" ")?;
    if let Some(graft) = grafts.get(graft) {
        append(&mut text, graft.name())?;
    }
    if raw {
        append(&mut text, b" raw")?;
    }
    Ok(text)
}

/// A line of the script as far as it is shown.
fn shortened(text: &[u8]) -> &[u8] {
    match text.get(..SHOWN) {
        Some(front) => front,
        None => text,
    }
}

/// Whether a line says nothing.
fn is_empty(line: &[u8]) -> bool {
    line.is_empty() || line == b"\r".as_slice()
}

/// Appends a line of the file with its number, unless it is empty.
#[tactic(auto, using(crate::proofs::Adding::nothing, crate::proofs::Adding::file_line))]
fn add_text(out: &mut Vec<u8>, number: usize, text: &[u8]) -> Result<(), NoMemory>
    ensures { OnOk result (Adds out.old.items out.new.items [] []) }
{
    if is_empty(text) {
        return Ok(());
    }
    add_file_line(out, number, text)
}

/// Whether a line of the script says nothing.
fn is_blank(line: &[u8]) -> bool {
    line.is_empty() || line[0] == b'#'
}

/// Appends a line of the file: as it says it in the script, or where it says nothing there, as it
/// stands. A line that only says what is wanted is left out.
#[tactic(auto, using(crate::proofs::Adding::nothing))]
fn add_head(
    alloc: Global,
    out: &mut Vec<u8>,
    source: &Source,
    number: usize,
    line: &[u8],
    wants: bool,
) -> Result<(), NoMemory>
    ensures { OnOk result (Adds out.old.items out.new.items [] []) }
{
    match source.lab.sheet().items().get(number.saturating_sub(1)) {
        Some(Item::Sealed { slot, graft, raw }) => {
            let text = image_text(alloc, source.lab.grafts(), *slot, *graft, *raw)?;
            add_text(out, number, text.as_slice())
        }
        Some(Item::Plain(text)) if !is_blank(text.bytes()) => {
            add_text(out, number, shortened(text.bytes()))
        }
        _ => {
            if wants {
                return Ok(());
            }
            add_text(out, number, line)
        }
    }
}

/// Appends the lines of a line of the script, from this one on; the number of the first one that
/// isn't its.
#[tactic(auto, using(crate::proofs::Adding::nothing, crate::proofs::Adding::line_more))]
fn add_lines(
    out: &mut Vec<u8>,
    owner: usize,
    lines: &[Line],
    first: usize,
) -> Result<usize, NoMemory>
    ensures { IfOk result (λ next. Adds out.old.items out.new.items
        (drop first lines.now) (drop next lines.now)) }
{
    let mut k = first;
    while k < lines.len() && lines[k].owner() == owner {
        add_line(out, lines[k].bytes())?;
        k += 1;
    }
    Ok(k)
}

/// Appends all lines from this one on, which belong to no line of the file.
#[tactic(auto, using(crate::proofs::Adding::nothing, crate::proofs::Adding::line_more))]
fn add_rest(out: &mut Vec<u8>, lines: &[Line], first: usize) -> Result<(), NoMemory>
    ensures { OnOk result (Adds out.old.items out.new.items (drop first lines.now) []) }
{
    if first >= lines.len() {
        return Ok(());
    }
    add_end(out)?;
    let mut k = first;
    while k < lines.len() {
        add_line(out, lines[k].bytes())?;
        k += 1;
    }
    Ok(())
}

/// Whether a wanted line stands in a line of the file, where this is the next one.
fn is_wanted(wants: &[Want], next: usize, number: usize) -> bool {
    match wants.get(next) {
        Some(want) => want.line == number,
        None => false,
    }
}

/// Each line of the file with the lines of the quiz below it; at the end the lines that are left.
#[tactic(auto, using(crate::proofs::Adding::nothing, crate::proofs::Adding::joined))]
fn all_told(alloc: Global, source: &Source, lines: &[Line]) -> Result<Vec<u8>, NoMemory>
    ensures { IfOk result (λ text. HasLines text.items lines.now) }
{
    let mut out = Vec::new(alloc);
    let mut next = 0;
    let mut number: usize = 0;
    let mut wanted: usize = 0;
    let mut file = Parts::new(source.text, b'\n');
    while let Some(line) = file.next() {
        number = number.saturating_add(1);
        let wants = is_wanted(source.lab.sheet().wants(), wanted, number);
        wanted = wanted.saturating_add(usize::from(wants));
        add_head(alloc, &mut out, source, number, line, wants)?;
        next = add_lines(&mut out, number, lines, next)?;
    }
    add_rest(&mut out, lines, next)?;
    Ok(out)
}

/// The lines of the quiz.
fn lines_asked<'a>(
    alloc: Global,
    seed: u32,
    answers: bool,
    lines: Vec<Line<'a>>,
) -> Result<Vec<Line<'a>>, NoMemory>
    ensures { IfOk result (λ shown. shown.items ≡ asked answers seed lines.entry.items) }
{
    if answers {
        return Ok(lines);
    }
    leaves_third(seed, lines.len());
    let marks = left_out(alloc, seed, lines.len())?;
    asked_lines(alloc, lines.as_slice(), marks.as_slice())
}

/// A quiz: the lines of a file, and below each the lines that it wrote, of which a third are left
/// out, and else unchanged. With the answers they stand.
pub fn quiz_of(
    alloc: Global,
    source: &Source,
    script: &[u8],
    written: &LineSink,
) -> Result<Vec<u8>, NoMemory>
    // Its lines are those of the run, without those that are left out; which these are, depends on
    // the seed and on their count alone.
    ensures { IfOk result (λ text. HasLines text.items
        (asked source.now.answers source.now.seed (lines_of written.now.got))) }
{
    let pieces = pieces_of(alloc, script, written)?;
    let lines = all_lines(alloc, pieces.as_slice())?;
    let lines = lines_asked(alloc, source.seed, source.answers, lines)?;
    all_told(alloc, source, lines.as_slice())
}
