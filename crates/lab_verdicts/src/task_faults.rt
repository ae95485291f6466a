//! Why a task is refused, in a sentence.

use crate::plain::{add_number, add_plain};
use kernel_data::NoMemory;
use lab_faults::tell_fault;
use lab_grading::{CheckFault, TaskFault, TaskKind};
use std::alloc::Global;
use text_words::append;

/// What is wrong with a line of a task, and what is wanted.
fn said_of(kind: TaskKind) -> &'static [u8] {
    match kind {
        TaskKind::StrayLine => {
            b"only `title`, `gives`, `score` and remarks may come before the first test; is this file a task?"
        }
        TaskKind::BadTitle => b"write `title WORDS` at most once, before the first test",
        TaskKind::BadGives =>
            b"write `gives NAME..` once, before the first test, with at least one name",
        TaskKind::BadScore => {
            b"write `score least FIGURE` or `score most FIGURE` at most once, before the first test"
        }
        TaskKind::BadTest => {
            b"a test begins with `test NAME POINTS` or `test NAME POINTS hidden`; its name has letters a to z, digits and `-`, up to 32 bytes"
        }
        TaskKind::BadPoints =>
            b"the points of the test are missing or too large: `test NAME POINTS`, with points from 0 to 1,000",
        TaskKind::TestTwice => b"a test above has this name already; choose another",
        TaskKind::DiskFile => b"the disk of a test can't be a file, since its run changes it",
        TaskKind::NoTest => b"there is no test: `test NAME POINTS` begins one",
        TaskKind::NoGives => b"no line says which grafts a submission gives: `gives NAME..`",
    }
}

/// A sentence of a line of a task.
fn of_line(alloc: Global, path: &[u8], line: usize, said: &[u8]) -> Result<Vec<u8>, NoMemory> {
    let mut out = Vec::new(alloc);
    add_plain(&mut out, path)?;
    append(&mut out, b":")?;
    add_number(&mut out, line)?;
    append(&mut out, b": ")?;
    append(&mut out, said)?;
    append(&mut out, b"\n")?;
    Ok(out)
}

/// Why a task of this name is refused, as it is read.
pub fn tell_task_fault(alloc: Global, path: &[u8], fault: TaskFault) -> Result<Vec<u8>, NoMemory> {
    match fault {
        TaskFault::At(line, kind) => of_line(alloc, path, line, said_of(kind)),
        TaskFault::NoMemory => Err(NoMemory),
    }
}

/// Why a task of this name and text is refused, as its tests are checked.
pub fn tell_check_fault(
    alloc: Global,
    path: &[u8],
    text: &[u8],
    fault: CheckFault,
) -> Result<Vec<u8>, NoMemory> {
    match fault {
        CheckFault::Lab(_, fault) => tell_fault(alloc, path, text, fault),
        CheckFault::NothingWanted(line) => of_line(
            alloc,
            path,
            line,
            b"this test wants nothing: write `= LINE` after a line of its script",
        ),
        CheckFault::BadWant(line) => of_line(
            alloc,
            path,
            line,
            b"write `= state ROW` with a row of `raw`, or `= limit ran N`",
        ),
        CheckFault::NoMemory => Err(NoMemory),
    }
}
