//! A verdict as TAP 14.

use crate::plain::{add_number, add_plain, without_newline};
use crate::refusals::Refusal;
use crate::verdict::{Row, Verdict, row_of};
use crate::words::add_score;
use kernel_data::NoMemory;
use lab_grading::{Outcome, Ready};
use lab_state::append_quoted;
use std::alloc::Global;
use text_words::append;

/// Appends the version, and the plan of so many submissions.
pub(crate) fn add_plan(out: &mut Vec<u8>, ready: &Ready, count: usize) -> Result<(), NoMemory> {
    append(out, b"TAP version 14\n1..")?;
    add_number(out, ready.task.tests().len().saturating_mul(count))?;
    append(out, b"\n")
}

/// Appends a text in a description, where `#` and a backslash stand behind a backslash.
fn add_described(out: &mut Vec<u8>, text: &[u8]) -> Result<(), NoMemory> {
    for byte in text {
        if *byte == b'#' || *byte == b'\\' {
            append(out, b"\\")?;
        }
        add_plain(out, &[*byte])?;
    }
    Ok(())
}

/// Appends a field of a diagnosis.
fn add_field(out: &mut Vec<u8>, name: &[u8], text: &[u8]) -> Result<(), NoMemory> {
    append(out, b"  ")?;
    append(out, name)?;
    append(out, b": ")?;
    append_quoted(out, without_newline(text))?;
    append(out, b"\n")
}

/// Appends why a test isn't passed; of a hidden one nothing is told.
fn add_diagnosis(out: &mut Vec<u8>, row: &Row, refusal: Option<&Refusal>) -> Result<(), NoMemory> {
    let test = row.test;
    match (row.outcome, refusal) {
        (_, Some(refusal)) => {
            append(out, b"  ---\n")?;
            add_field(out, b"message", refusal.sentence.as_slice())?;
            append(out, b"  ...\n")
        }
        (Some(Outcome::Failed(other)), None) if !test.hidden => {
            append(out, b"  ---\n  line: ")?;
            add_number(out, other.line)?;
            append(out, b"\n")?;
            add_field(out, b"wanted", other.wanted.as_slice())?;
            add_field(out, b"got", other.got.as_slice())?;
            if !test.hint.is_empty() {
                add_field(out, b"hint", test.hint.as_slice())?;
            }
            append(out, b"  ...\n")
        }
        _ => Ok(()),
    }
}

/// Appends what came of a test, which has this number.
fn add_row(
    out: &mut Vec<u8>,
    number: usize,
    path: &[u8],
    row: &Row,
    refusal: Option<&Refusal>,
) -> Result<(), NoMemory> {
    let test = row.test;
    let result: &[u8] = match row.outcome {
        Some(Outcome::Passed) => b"ok ",
        _ => b"not ok ",
    };
    append(out, result)?;
    add_number(out, number)?;
    append(out, b" - ")?;
    add_described(out, path)?;
    append(out, b": ")?;
    append(out, test.name.bytes())?;
    append(out, b" ")?;
    add_number(out, row.points() as usize)?;
    append(out, b"/")?;
    add_number(out, test.points as usize)?;
    append(out, b"\n")?;
    add_diagnosis(out, row, refusal)
}

/// A verdict as TAP 14.
pub(crate) fn tell_tap(
    alloc: Global,
    ready: &Ready,
    verdict: &Verdict,
    refusal: Option<&Refusal>,
) -> Result<Vec<u8>, NoMemory> {
    let mut out = Vec::new(alloc);
    let tests = ready.task.tests();
    let mut number = verdict.before.saturating_mul(tests.len());
    for (place, test) in tests.iter().enumerate() {
        number = number.saturating_add(1);
        let row = row_of(verdict.graded, test, place);
        add_row(&mut out, number, verdict.path, &row, refusal)?;
    }
    append(&mut out, b"# ")?;
    add_plain(&mut out, verdict.path)?;
    append(&mut out, b": ")?;
    add_score(&mut out, ready, verdict)?;
    append(&mut out, b"\n")?;
    Ok(out)
}
