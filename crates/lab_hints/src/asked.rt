//! Which line of a script is which event.

use kernel_data::NoMemory;
use std::alloc::Global;
use text_words::{Parts, put, word_at};

/// The lines of a script, and which of them are its events, numbered from 1.
#[derive(Drop)]
pub struct Asked<'a> {
    lines: Vec<&'a [u8]>,
    events: Vec<usize>,
}

/// Whether a line is empty or a remark.
fn is_blank(line: &[u8]) -> bool {
    line.is_empty() || line[0] == b'#'
}

impl<'a> Asked<'a> {
    /// The lines and events of a script: each line behind `boot` that isn't blank is an event.
    pub fn new(alloc: Global, script: &'a [u8]) -> Result<Asked<'a>, NoMemory> {
        let mut asked = Asked {
            lines: Vec::new(alloc),
            events: Vec::new(alloc),
        };
        let mut booted = false;
        let mut number: usize = 0;
        let mut parts = Parts::new(script, b'\n');
        while let Some(line) = parts.next() {
            number = number.saturating_add(1);
            put(&mut asked.lines, line)?;
            if booted && !is_blank(line) {
                put(&mut asked.events, number)?;
            }
            booted = booted || line == b"boot".as_slice();
        }
        Ok(asked)
    }

    /// Line n of the script, from 1; nothing for 0 and past the last.
    pub fn line(&self, n: usize) -> &'a [u8] {
        match self.lines.as_slice().get(n.wrapping_sub(1)) {
            Some(line) => *line,
            None => &[],
        }
    }

    /// The number of the line that is this event, from 1; 0 where there is none.
    pub fn line_of(&self, event: usize) -> usize {
        match self.events.as_slice().get(event.wrapping_sub(1)) {
            Some(line) => *line,
            None => 0,
        }
    }

    /// The number of the last event's line that begins with these words; 0 where there is none.
    pub fn last_with(&self, words: [&[u8]; 3]) -> usize {
        let mut found = 0;
        for number in self.events.as_slice() {
            let line = self.line(*number);
            if word_at(line, 0) == words[0]
                && word_at(line, 1) == words[1]
                && word_at(line, 2) == words[2]
            {
                found = *number;
            }
        }
        found
    }
}
