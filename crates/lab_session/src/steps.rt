//! Lines `step P N`, and what a single step wrote.

ghost use Rattle.std.specs.Prelude.{◌<◌, ◌≤◌, IfSome};

use kernel_data::NoMemory;
use std::alloc::Global;
use text_words::{Parts, append_with, number_of, word_at};

/// The most steps of one line.
const MOST_STEPS: u32 = 65_536;

/// The process and the count of a line `step P N`.
#[derive(Clone, Copy)]
pub struct StepLine {
    pub process: u8,
    pub count: u32,
}

/// What a line `step P N` says, where both are in their ranges.
pub fn steps_of(line: &[u8]) -> Option<StepLine>
    ensures { IfSome result (λ s. s.process < 16) }
{
    if word_at(line, 0) != b"step".as_slice() || !word_at(line, 3).is_empty() {
        return None;
    }
    let p = number_of(word_at(line, 1))?;
    let count = number_of(word_at(line, 2))?;
    if p < 16 && count >= 1 && count <= MOST_STEPS {
        Some(StepLine {
            process: p as u8,
            count,
        })
    } else {
        None
    }
}

/// Whether a step took up an instruction: its line says `ran 1`.
pub fn has_run(written: &[u8]) -> bool {
    let mut lines = Parts::new(written, b'\n');
    while let Some(line) = lines.next() {
        if word_at(line, 1) == b"ran".as_slice() && word_at(line, 2) == b"1".as_slice() {
            return true;
        }
    }
    false
}

/// How many lines a step wrote before the one that says how many instructions it took up.
pub fn notes_before_ran(written: &[u8]) -> usize {
    let mut lines = Parts::new(written, b'\n');
    let mut count: usize = 0;
    while let Some(line) = lines.next() {
        if word_at(line, 1) == b"ran".as_slice() {
            return count;
        }
        count = count.saturating_add(1);
    }
    0
}

/// The line of a single step of a process.
pub fn single_step(alloc: Global, p: u8) -> Result<Vec<u8>, NoMemory> {
    let mut line = Vec::new(alloc);
    append_with(&mut line, b"step ", u32::from(p))?;
    append_with(&mut line, b" ", 1)?;
    Ok(line)
}
