//! The statements of a graft in assembler text.

use crate::grafts::Region;
use crate::spans::{Span, bytes_of, code_end, next_part, next_word};
use kernel_data::NoMemory;
use std::alloc::Global;
use text_words::{Parts, put};

/// A statement: an instruction, a label or data.
#[derive(Clone, Copy)]
pub struct Statement {
    /// The line of the file, from 1.
    pub line: usize,
    /// Its first word, as a place of the file.
    pub first: Span,
    /// Where it ends.
    pub end: usize,
}

impl Statement {
    /// Whether it is an instruction, by its first word in this file.
    pub fn is_instruction(&self, text: &[u8]) -> bool {
        let word = bytes_of(text, self.first);
        word != b".bytes".as_slice() && !word.ends_with(b":")
    }
}

/// A span of a line as a place of the file, in which the line begins here.
fn moved(span: Span, at: usize) -> Span {
    Span {
        from: at.saturating_add(span.from),
        to: at.saturating_add(span.to),
    }
}

/// Puts the statements of a line that begins here behind others.
fn put_line(
    out: &mut Vec<Statement>,
    line: &[u8],
    number: usize,
    at: usize,
) -> Result<(), NoMemory> {
    let end = code_end(line);
    let mut from = 0;
    for _ in 0..line.len() {
        let part = next_part(line, from, end);
        if let Some(first) = next_word(line, part.from, part.to) {
            let statement = Statement {
                line: number,
                first: moved(first, at),
                end: at.saturating_add(part.to),
            };
            put(out, statement)?;
        }
        from = part.to.saturating_add(1);
        if from >= end {
            return Ok(());
        }
    }
    Ok(())
}

/// The statements of a graft of a file, in their order.
pub fn statements_of(
    alloc: Global,
    text: &[u8],
    region: Region,
) -> Result<Vec<Statement>, NoMemory> {
    let mut out = Vec::new(alloc);
    let mut number = region.begun;
    let mut at = region.text.from;
    let mut lines = Parts::new(bytes_of(text, region.text), b'\n');
    while let Some(line) = lines.next() {
        number = number.saturating_add(1);
        put_line(&mut out, line, number, at)?;
        at = at.saturating_add(line.len()).saturating_add(1);
    }
    Ok(out)
}
