//! A verdict in words.

use crate::plain::{add_number, add_plain, add_spaces, without_newline};
use crate::refusals::Refusal;
use crate::verdict::{Row, Verdict, row_of, score_of};
use kernel_data::NoMemory;
use lab_grading::{Other, Outcome, Ready};
use lab_lines::is_wanted;
use std::alloc::Global;
use text_words::{Parts, append};

/// The widest column of wanted lines.
const WIDEST: usize = 40;

/// The most bytes of a line of a text, up to the widest column.
fn width_of(text: &[u8]) -> usize {
    let mut lines = Parts::new(text, b'\n');
    let mut width = 8;
    while let Some(line) = lines.next() {
        width = line.len().max(width);
    }
    width.min(WIDEST)
}

/// Appends a wanted line and the one that was written, side by side.
fn add_pair(
    out: &mut Vec<u8>,
    width: usize,
    want: &[u8],
    mark: &[u8],
    got: &[u8],
) -> Result<(), NoMemory> {
    append(out, b"      ")?;
    add_plain(out, want)?;
    if got.is_empty() && mark.is_empty() {
        return append(out, b"\n");
    }
    add_spaces(out, width.saturating_sub(want.len()))?;
    append(out, b"  ")?;
    append(out, mark)?;
    add_spaces(out, 2usize.saturating_sub(mark.len()))?;
    add_plain(out, got)?;
    append(out, b"\n")
}

/// Whether a wanted line has no one place: `..`, a row and a bound.
fn is_loose(want: &[u8]) -> bool {
    want == b"..".as_slice() || want.starts_with(b"state ") || want.starts_with(b"limit ")
}

/// How many lines a text has.
fn count_lines(text: &[u8]) -> usize {
    let mut lines = Parts::new(text, b'\n');
    let mut count: usize = 0;
    while let Some(line) = lines.next() {
        if !line.is_empty() {
            count = count.saturating_add(1);
        }
    }
    count
}

/// The next line of a text; empty behind the last one.
fn next_line<'a>(lines: &mut Parts<'a>) -> &'a [u8] {
    let Some(line) = lines.next() else {
        return b"";
    };
    line
}

/// What is shown of the written lines: words where there are none.
fn shown_of(got: &[u8]) -> &[u8] {
    if got.is_empty() { b"(nothing)" } else { got }
}

/// What is said where no pair has a mark.
const UNMARKED: &[u8] =
    b"      ! the written lines don't meet what `..`, `state` or `limit` wants\n";

/// Appends wanted and written lines side by side; the first pair that differs has a mark.
fn add_pairs(out: &mut Vec<u8>, wanted: &[u8], written: &[u8]) -> Result<(), NoMemory> {
    let width = width_of(wanted);
    let got = shown_of(written);
    add_pair(out, width, b"wanted", b"", b"written")?;
    let mut wants = Parts::new(without_newline(wanted), b'\n');
    let mut lines = Parts::new(without_newline(got), b'\n');
    let mut same = true;
    let mut marked = false;
    for _ in 0..count_lines(wanted).max(count_lines(got)) {
        let want = next_line(&mut wants);
        let line = next_line(&mut lines);
        let differs = same && !is_loose(want) && !is_wanted(want, line);
        same = same && !differs && !is_loose(want);
        marked = marked || differs;
        let mark: &[u8] = if differs { b"!" } else { b"" };
        add_pair(out, width, want, mark, line)?;
    }
    if marked {
        Ok(())
    } else {
        append(out, UNMARKED)
    }
}

/// Appends what a line wanted and wrote, and the hint.
fn add_other(out: &mut Vec<u8>, other: &Other, hint: &[u8]) -> Result<(), NoMemory> {
    append(out, b"    line ")?;
    add_number(out, other.line)?;
    append(out, b" of the task:\n")?;
    add_pairs(out, other.wanted.as_slice(), other.got.as_slice())?;
    if hint.is_empty() {
        return Ok(());
    }
    append(out, b"    hint: ")?;
    add_plain(out, hint)?;
    append(out, b"\n")
}

/// Appends what came of a test.
fn add_row(out: &mut Vec<u8>, row: &Row) -> Result<(), NoMemory> {
    let test = row.test;
    let status: &[u8] = match row.outcome {
        Some(Outcome::Passed) => b"  passed  ",
        Some(_) => b"  failed  ",
        None => b"  refused ",
    };
    append(out, status)?;
    append(out, test.name.bytes())?;
    append(out, b"  ")?;
    add_number(out, row.points() as usize)?;
    append(out, b" of ")?;
    add_number(out, test.points as usize)?;
    append(out, b"\n")?;
    match row.outcome {
        Some(Outcome::Failed(other)) if !test.hidden => {
            add_other(out, other, test.hint.as_slice())
        }
        _ => Ok(()),
    }
}

/// Appends the title of a task, if it has one.
pub(crate) fn add_title(out: &mut Vec<u8>, ready: &Ready) -> Result<(), NoMemory> {
    if ready.task.title().is_empty() {
        return Ok(());
    }
    add_plain(out, ready.task.title())?;
    append(out, b"\n")
}

/// Appends the score of a submission.
pub(crate) fn add_score(
    out: &mut Vec<u8>,
    ready: &Ready,
    verdict: &Verdict,
) -> Result<(), NoMemory> {
    let (score, of) = score_of(ready, verdict.graded);
    append(out, b"score ")?;
    add_number(out, score)?;
    append(out, b"/")?;
    add_number(out, of)
}

/// A verdict in words.
pub(crate) fn tell_words(
    alloc: Global,
    ready: &Ready,
    verdict: &Verdict,
    refusal: Option<&Refusal>,
) -> Result<Vec<u8>, NoMemory> {
    let mut out = Vec::new(alloc);
    add_plain(&mut out, verdict.path)?;
    append(&mut out, b"\n")?;
    match refusal {
        Some(refusal) => {
            append(&mut out, b"  refused: ")?;
            add_plain(&mut out, refusal.sentence.as_slice())?;
            append(&mut out, b"\n")?;
        }
        None => {
            for (place, test) in ready.task.tests().iter().enumerate() {
                add_row(&mut out, &row_of(verdict.graded, test, place))?;
            }
        }
    }
    append(&mut out, b"  ")?;
    add_score(&mut out, ready, verdict)?;
    append(&mut out, b"\n")?;
    Ok(out)
}
