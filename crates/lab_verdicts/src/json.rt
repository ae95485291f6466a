//! A verdict as JSON: an object for each test, and one for the submission.

use crate::plain::{add_number, without_newline};
use crate::refusals::Refusal;
use crate::verdict::{Row, Verdict, row_of, score_of};
use kernel_data::NoMemory;
use lab_grading::{Outcome, Ready};
use lab_state::append_quoted;
use std::alloc::Global;
use text_words::append;

/// Appends a field with a text, behind others.
fn add_text(out: &mut Vec<u8>, name: &[u8], text: &[u8]) -> Result<(), NoMemory> {
    add_name(out, name)?;
    append_quoted(out, without_newline(text))
}

/// Appends the name of a field, behind others.
fn add_name(out: &mut Vec<u8>, name: &[u8]) -> Result<(), NoMemory> {
    append(out, b",\"")?;
    append(out, name)?;
    append(out, b"\":")
}

/// Appends a field with a number, behind others.
fn add_count(out: &mut Vec<u8>, name: &[u8], n: usize) -> Result<(), NoMemory> {
    add_name(out, name)?;
    add_number(out, n)
}

/// Appends the fields that say why a test isn't passed; null where nothing is told.
fn add_why(out: &mut Vec<u8>, row: &Row, refusal: Option<&Refusal>) -> Result<(), NoMemory> {
    let test = row.test;
    match (row.outcome, refusal) {
        (_, Some(refusal)) if refusal.line > 0 => {
            add_count(out, b"line", refusal.line)?;
            append(out, b",\"wanted\":null,\"got\":null,\"hint\":null")
        }
        (Some(Outcome::Failed(other)), None) if !test.hidden => {
            add_count(out, b"line", other.line)?;
            add_text(out, b"wanted", other.wanted.as_slice())?;
            add_text(out, b"got", other.got.as_slice())?;
            if test.hint.is_empty() {
                append(out, b",\"hint\":null")
            } else {
                add_text(out, b"hint", test.hint.as_slice())
            }
        }
        _ => append(
            out,
            b",\"line\":null,\"wanted\":null,\"got\":null,\"hint\":null",
        ),
    }
}

/// Appends the object of a test.
fn add_row(
    out: &mut Vec<u8>,
    path: &[u8],
    row: &Row,
    refusal: Option<&Refusal>,
) -> Result<(), NoMemory> {
    let test = row.test;
    append(out, b"{\"file\":")?;
    append_quoted(out, path)?;
    add_text(out, b"test", test.name.bytes())?;
    add_count(out, b"points", row.points() as usize)?;
    add_count(out, b"of", test.points as usize)?;
    let status: &[u8] = match row.outcome {
        Some(Outcome::Passed) => b"passed",
        Some(_) => b"failed",
        None => b"refused",
    };
    add_text(out, b"status", status)?;
    add_why(out, row, refusal)?;
    append(out, b"}\n")
}

/// Appends the object of a submission.
fn add_whole(
    out: &mut Vec<u8>,
    ready: &Ready,
    verdict: &Verdict,
    refusal: Option<&Refusal>,
) -> Result<(), NoMemory> {
    let (score, of) = score_of(ready, verdict.graded);
    append(out, b"{\"file\":")?;
    append_quoted(out, verdict.path)?;
    add_count(out, b"score", score)?;
    add_count(out, b"of", of)?;
    match refusal {
        Some(refusal) => add_text(out, b"refused", refusal.sentence.as_slice())?,
        None => append(out, b",\"refused\":null")?,
    }
    append(out, b"}\n")
}

/// A verdict as JSON.
pub(crate) fn tell_json(
    alloc: Global,
    ready: &Ready,
    verdict: &Verdict,
    refusal: Option<&Refusal>,
) -> Result<Vec<u8>, NoMemory> {
    let mut out = Vec::new(alloc);
    for (place, test) in ready.task.tests().iter().enumerate() {
        let row = row_of(verdict.graded, test, place);
        add_row(&mut out, verdict.path, &row, refusal)?;
    }
    add_whole(&mut out, ready, verdict, refusal)?;
    Ok(out)
}
