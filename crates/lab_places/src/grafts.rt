//! Where the grafts of a lab file are.

use crate::spans::{Span, bytes_of, code_end, next_word, word_span};
use kernel_data::NoMemory;
use std::alloc::Global;
use text_words::{Parts, put};

/// A graft of a lab file: the line that begins it, from 1; its name; and its text, from behind that
/// line to the line of its `end`, or to the end of the file.
#[derive(Clone, Copy)]
pub struct Region {
    /// The line that begins it.
    pub begun: usize,
    /// Its name, as a place of the file; empty where it has none.
    pub name: Span,
    /// The first byte of its text, and the first behind it.
    pub text: Span,
    /// The line of its `end`, or the last line of the file.
    pub ended: usize,
}

/// Whether the first word of a line is this one, and its only word where that is asked.
fn begins_with(line: &[u8], word: &[u8], alone: bool) -> bool {
    let end = code_end(line);
    match next_word(line, 0, end) {
        None => false,
        Some(first) => {
            bytes_of(line, first) == word && !(alone && next_word(line, first.to, end).is_some())
        }
    }
}

/// The second word of a line that stands at this place of a file.
fn name_in(line: &[u8], at: usize) -> Span {
    match word_span(line, 0, code_end(line), 1) {
        Some(word) => Span {
            from: at.saturating_add(word.from),
            to: at.saturating_add(word.to),
        },
        None => Span { from: at, to: at },
    }
}

/// The grafts of a lab file, in their order. Inside of one a line is its text up to `end`.
pub fn regions_of(alloc: Global, text: &[u8]) -> Result<Vec<Region>, NoMemory> {
    let mut regions = Vec::new(alloc);
    let mut open: Option<Region> = None;
    let mut number: usize = 0;
    let mut at: usize = 0;
    let mut lines = Parts::new(text, b'\n');
    while let Some(line) = lines.next() {
        number = number.saturating_add(1);
        let behind = at.saturating_add(line.len()).saturating_add(1);
        match open {
            Some(region) => {
                if begins_with(line, b"end", true) {
                    put(&mut regions, closed(region, at, number))?;
                    open = None;
                }
            }
            None => {
                if begins_with(line, b"graft", false) {
                    open = Some(Region {
                        begun: number,
                        name: name_in(line, at),
                        text: Span {
                            from: behind,
                            to: behind,
                        },
                        ended: number,
                    });
                }
            }
        }
        at = behind;
    }
    if let Some(region) = open {
        put(&mut regions, closed(region, text.len(), number))?;
    }
    Ok(regions)
}

/// A graft whose text ends here, in this line.
fn closed(region: Region, at: usize, number: usize) -> Region {
    Region {
        text: Span {
            from: region.text.from.min(at),
            to: at,
        },
        ended: number,
        ..region
    }
}

/// The graft in which this line of the file is.
pub fn region_of(regions: &[Region], n: usize) -> Option<Region> {
    for region in regions {
        if region.begun <= n && n <= region.ended {
            return Some(*region);
        }
    }
    None
}

/// The first graft of this name.
pub fn region_named(text: &[u8], regions: &[Region], name: &[u8]) -> Option<Region> {
    for region in regions {
        if bytes_of(text, region.name) == name {
            return Some(*region);
        }
    }
    None
}
