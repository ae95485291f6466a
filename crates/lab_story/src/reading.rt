//! Reading a run: its script lines and what they wrote.

use crate::chosen::Chosen;
use crate::event::is_event;
use crate::marks::{Moment, number_at, read_line};
use crate::slow::event_lines;
use crate::story::{Bar, Column, End, Kind, NO_TEXT, Story, go_on, keep, put_all_aside, put_aside};
use script_model::NoMemory;
use std::alloc::Global;
use text_words::{Parts, number_of, put, word_at};

/// Whether a line of a script is an event that is no call.
fn is_no_call(line: &[u8]) -> bool {
    matches!(word_at(line, 0), b"tick" | b"step" | b"raw" | b"image")
        || number_of(word_at(line, 1)).is_none()
}

/// A line of a script becomes an event, and the bar of a call where it is one.
fn begin_event<'a>(story: &mut Story<'a>, at: Moment, line: &'a [u8]) -> Result<(), NoMemory> {
    let is_call = !is_no_call(line);
    if at.is_shown {
        put(
            &mut story.columns,
            Column {
                event: at.event,
                line,
                is_call,
                result: [].as_slice(),
                ran: None,
            },
        )?;
    }
    if !is_call {
        return Ok(());
    }
    let text = keep(story, line)?;
    put(
        &mut story.in_flight,
        Bar {
            process: number_at(line, 1),
            call: at.number,
            kind: Kind::Call,
            from: at.event,
            to: at.event,
            end: End::Open,
            text,
            result: NO_TEXT,
        },
    )
}

/// A story of which what hasn't ended goes on to an event.
fn ended<'a>(story: Story<'a>, last: u32) -> Result<Story<'a>, NoMemory> {
    let mut story = story;
    go_on(&mut story.in_flight, last);
    put_all_aside(&mut story)?;
    Ok(story)
}

/// The story of the chosen events of a run, read line by line. It takes no more memory than these
/// events and the calls in flight.
#[derive(Drop)]
pub struct Reader<'a> {
    story: Story<'a>,
    chosen: Chosen,
    /// Whether the run is that of the slow script.
    is_slow: bool,
    /// The last event that began, and how many the script had that is run.
    event: u32,
    number: u32,
    /// Whether a line was refused, behind which nothing is run.
    is_refused: bool,
}

impl<'a> Reader<'a> {
    /// Before the first line: of a script, or of its slow script.
    pub fn new(alloc: Global, chosen: Chosen, is_slow: bool) -> Reader<'a> {
        Reader {
            story: Story::new(alloc),
            chosen,
            is_slow,
            event: 0,
            number: 0,
            is_refused: false,
        }
    }

    /// The last event that was run, or the last chosen one.
    pub fn last(&self) -> u32 {
        self.event.min(self.chosen.last)
    }

    /// Where the reader stands.
    fn moment(&self) -> Moment {
        Moment {
            event: self.event,
            number: self.number,
            is_shown: self.event >= self.chosen.first && self.event <= self.chosen.last,
        }
    }

    /// Whether all chosen events were read.
    fn is_over(&self) -> bool {
        self.event > self.chosen.last || self.is_refused
    }

    /// A line of the script begins, which the file says so: how many lines of the script that is run
    /// stand for it.
    pub fn begin(&mut self, line: &[u8], said: &'a [u8]) -> Result<u32, NoMemory> {
        if !is_event(line) || self.is_refused {
            return Ok(1);
        }
        self.event = self.event.saturating_add(1);
        let lines = if self.is_slow {
            event_lines(line, self.event, self.chosen)
        } else {
            1
        };
        self.number = self.number.saturating_add(lines);
        if !self.is_over() {
            let at = self.moment();
            begin_event(&mut self.story, at, said)?;
        }
        Ok(lines)
    }

    /// What the line wrote, or a part of it.
    pub fn add(&mut self, written: &'a [u8]) -> Result<(), NoMemory> {
        if self.is_over() {
            return Ok(());
        }
        let at = self.moment();
        let mut lines = Parts::new(written, b'\n');
        while let Some(line) = lines.next() {
            read_line(&mut self.story, at, line)?;
            self.is_refused = self.is_refused || word_at(line, 0) == b"script".as_slice();
        }
        put_aside(&mut self.story, self.chosen.first)?;
        if self.story.in_flight.is_empty() && self.event < self.chosen.first {
            self.story.texts.clear();
        }
        Ok(())
    }

    /// The story: what hasn't ended goes on to the last chosen event.
    pub fn finish(self) -> Result<Story<'a>, NoMemory> {
        let last = self.last();
        ended(self.story, last)
    }
}
