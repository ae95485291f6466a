//! Why a submission is refused, in a sentence.

use crate::plain::add_number;
use kernel_data::NoMemory;
use lab_faults::tell_fault;
use lab_grading::{Graded, LabFault, Ready, SubmissionFault, Test};
use std::alloc::Global;
use text_words::{Parts, append};

/// A refusal: its line, where there is one, and its sentence.
#[derive(Drop)]
pub struct Refusal {
    /// The line of the submission, from 1; 0 where it is the whole.
    pub line: usize,
    /// What is said.
    pub sentence: Vec<u8>,
}

/// Begins a sentence of a line of a file.
fn begin(alloc: Global, path: &[u8], line: usize) -> Result<Vec<u8>, NoMemory> {
    let mut out = Vec::new(alloc);
    append(&mut out, path)?;
    append(&mut out, b":")?;
    add_number(&mut out, line)?;
    append(&mut out, b": ")?;
    Ok(out)
}

/// A sentence of a line of a file.
fn of_line(alloc: Global, path: &[u8], line: usize, said: &[u8]) -> Result<Refusal, NoMemory> {
    let mut sentence = begin(alloc, path, line)?;
    append(&mut sentence, said)?;
    Ok(Refusal { line, sentence })
}

/// The sentence of a graft that is missing.
fn of_missing(alloc: Global, ready: &Ready, path: &[u8], k: usize) -> Result<Refusal, NoMemory> {
    let mut sentence = Vec::new(alloc);
    append(&mut sentence, path)?;
    append(&mut sentence, b": the graft '")?;
    if let Some(name) = ready.task.gives().get(k) {
        append(&mut sentence, name.bytes())?;
    }
    append(&mut sentence, b"' that the task asks for is missing")?;
    Ok(Refusal { line: 0, sentence })
}

/// Why a submission doesn't hold the grafts that a task asks for, and no more.
fn of_submission(
    alloc: Global,
    ready: &Ready,
    path: &[u8],
    fault: SubmissionFault,
) -> Result<Refusal, NoMemory> {
    match fault {
        SubmissionFault::Stray(n) => of_line(
            alloc,
            path,
            n,
            b"a submission has only grafts (`graft NAME` .. `end`) and remarks",
        ),
        SubmissionFault::NoEnd(n) => {
            of_line(alloc, path, n, b"the graft that begins here has no `end`")
        }
        SubmissionFault::NotAsked(n) => {
            of_line(
                alloc,
                path,
                n,
                b"the task doesn't ask for a graft of this name",
            )
        }
        SubmissionFault::Missing(k) => of_missing(alloc, ready, path, k),
        SubmissionFault::NoMemory => Err(NoMemory),
    }
}

/// What stands before the words that name the line which puts a graft into its sandbox, where there
/// are such words: that line is neither of the submission nor of the task.
fn without_place(line: &[u8]) -> &[u8] {
    if !line.ends_with(b" puts the graft into its sandbox)") {
        return line;
    }
    match line.iter().position(|byte| *byte == b'(') {
        Some(at) => line.get(..at.saturating_sub(1)).unwrap_or(line),
        None => line,
    }
}

/// The first line of a text.
fn first_line(alloc: Global, text: &[u8]) -> Result<Vec<u8>, NoMemory> {
    let mut line = Vec::new(alloc);
    if let Some(first) = Parts::new(text, b'\n').next() {
        append(&mut line, without_place(first))?;
    }
    Ok(line)
}

/// A submission's text with a test behind it.
fn behind(alloc: Global, front: &[u8], test: &Test) -> Result<Vec<u8>, NoMemory> {
    let mut text = Vec::new(alloc);
    append(&mut text, front)?;
    append(&mut text, b"\n")?;
    append(&mut text, test.script.as_slice())?;
    Ok(text)
}

/// The line of a fault.
fn line_of(fault: LabFault) -> usize {
    match fault {
        LabFault::At(line, _) => line,
        _ => 0,
    }
}

/// Why the grafts of a submission are refused, in the text in which the test of this place stands
/// behind them.
fn of_unread(
    alloc: Global,
    ready: &Ready,
    path: &[u8],
    text: &[u8],
    place: usize,
    fault: LabFault,
) -> Result<Refusal, NoMemory> {
    let whole = match ready.task.tests().get(place) {
        Some(test) => behind(alloc, text, test)?,
        None => Vec::new(alloc),
    };
    let told = tell_fault(alloc, path, whole.as_slice(), fault)?;
    Ok(Refusal {
        line: line_of(fault),
        sentence: first_line(alloc, told.as_slice())?,
    })
}

/// Why a submission is refused; None where it was tested.
pub(crate) fn refusal_of(
    alloc: Global,
    ready: &Ready,
    path: &[u8],
    text: &[u8],
    graded: &Graded,
) -> Result<Option<Refusal>, NoMemory> {
    match graded {
        Graded::Tested(_) => Ok(None),
        Graded::Refused(fault) => Ok(Some(of_submission(alloc, ready, path, *fault)?)),
        Graded::Unread(place, fault) => {
            Ok(Some(of_unread(alloc, ready, path, text, *place, *fault)?))
        }
    }
}
