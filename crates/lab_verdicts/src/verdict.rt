//! What is told of a submission.

use crate::json::tell_json;
use crate::refusals::{Refusal, refusal_of};
use crate::tap::{add_plan, tell_tap};
use crate::words::{add_title, tell_words};
use kernel_data::NoMemory;
use lab_grading::{Graded, Outcome, Ready, Test};
use std::alloc::Global;

/// How verdicts are written.
#[derive(Clone, Copy, PartialEq, Eq, Debug)]
pub enum Format {
    /// In words.
    Words,
    /// As TAP 14.
    Tap,
    /// A JSON object for each test and each submission.
    Json,
}

/// A submission that was graded: its name, its text, what came of it, and how many came before it.
#[derive(Clone, Copy)]
pub struct Verdict<'a> {
    /// Its name.
    pub path: &'a [u8],
    /// Its text.
    pub text: &'a [u8],
    /// What came of it.
    pub graded: &'a Graded,
    /// How many submissions came before it.
    pub before: usize,
}

/// A test and what came of it; no outcome where the submission is refused.
#[derive(Clone, Copy)]
pub(crate) struct Row<'a> {
    pub(crate) test: &'a Test,
    pub(crate) outcome: Option<&'a Outcome>,
}

/// The points of a test by its outcome.
fn points_by(test: &Test, outcome: &Outcome) -> u32 {
    if outcome.is_passed() { test.points } else { 0 }
}

impl<'a> Row<'a> {
    /// The points of a submission.
    pub(crate) fn points(&self) -> u32 {
        match self.outcome {
            Some(outcome) => points_by(self.test, outcome),
            None => 0,
        }
    }
}

/// The test of this place, and what came of it.
pub(crate) fn row_of<'a>(graded: &'a Graded, test: &'a Test, place: usize) -> Row<'a> {
    let outcome = match graded {
        Graded::Tested(outcomes) => outcomes.get(place),
        _ => None,
    };
    Row { test, outcome }
}

/// The points of a submission, and those that there are.
pub(crate) fn score_of(ready: &Ready, graded: &Graded) -> (usize, usize) {
    let mut score: usize = 0;
    let mut of: usize = 0;
    for (place, test) in ready.task.tests().iter().enumerate() {
        score = score.saturating_add(row_of(graded, test, place).points() as usize);
        of = of.saturating_add(test.points as usize);
    }
    (score, of)
}

/// What stands above the verdicts of so many submissions.
pub fn head_of(
    alloc: Global,
    format: Format,
    ready: &Ready,
    count: usize,
) -> Result<Vec<u8>, NoMemory> {
    let mut out = Vec::new(alloc);
    match format {
        Format::Tap => add_plan(&mut out, ready, count)?,
        Format::Words => add_title(&mut out, ready)?,
        Format::Json => (),
    }
    Ok(out)
}

/// What is told of a submission.
pub fn tell_verdict(
    alloc: Global,
    format: Format,
    ready: &Ready,
    verdict: &Verdict,
) -> Result<Vec<u8>, NoMemory> {
    let refusal = refusal_of(alloc, ready, verdict.path, verdict.text, verdict.graded)?;
    tell_with(alloc, format, ready, verdict, refusal.as_ref())
}

/// What is told of a submission, with why it is refused.
fn tell_with(
    alloc: Global,
    format: Format,
    ready: &Ready,
    verdict: &Verdict,
    refusal: Option<&Refusal>,
) -> Result<Vec<u8>, NoMemory> {
    match format {
        Format::Words => tell_words(alloc, ready, verdict, refusal),
        Format::Tap => tell_tap(alloc, ready, verdict, refusal),
        Format::Json => tell_json(alloc, ready, verdict, refusal),
    }
}
