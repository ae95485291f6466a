//! The objects of a trace, one for each moment.

use crate::head::count_of;
use crate::values::append_maybe;
use crate::wrote::append_wrote;
use kernel_data::NoMemory;
use lab_state::{State, append_patch, append_quoted, changes_of, told_after};
use std::alloc::Global;
use text_words::{append, append_with};

/// The bytes that lines have in a moment, at most.
const WROTE_BYTES: usize = 1750;

/// The bytes that changes have in a moment, but for the last of them, at most.
const CHANGED_BYTES: usize = 1600;

/// What a moment is.
#[derive(Clone, Copy)]
pub enum Kind {
    Line,
    Instruction,
    Drop,
    Wait,
}

/// An instruction that was taken up.
#[derive(Drop)]
pub struct Taken {
    /// The process whose call runs the graft.
    pub process: u8,
    /// The depth of the level, from 0.
    pub depth: u8,
    /// The how many-th instruction of the level it is, from 1.
    pub number: u32,
    /// The slot of the image.
    pub slot: Option<u32>,
    /// Its place in the code.
    pub place: Option<u32>,
    /// The line of the file that wrote it.
    pub line: Option<u32>,
    /// Its text; empty where it isn't known.
    pub text: Vec<u8>,
}

/// A moment, but for the state.
#[derive(Drop)]
pub struct Moment<'a> {
    pub kind: Kind,
    /// The line of the file that is run.
    pub line: usize,
    /// The number of its event, if it is one.
    pub event: Option<u32>,
    /// The instruction that was taken up, if one was.
    pub taken: Option<Taken>,
    /// What the kernel wrote.
    pub wrote: &'a [u8],
}

/// The word of a kind.
fn kind_word(kind: Kind) -> &'static [u8] {
    match kind {
        Kind::Line => b"line".as_slice(),
        Kind::Instruction => b"instruction".as_slice(),
        Kind::Drop => b"drop".as_slice(),
        Kind::Wait => b"wait".as_slice(),
    }
}

/// Appends a text, or `null` where it is empty.
fn append_text(out: &mut Vec<u8>, text: &[u8]) -> Result<(), NoMemory> {
    if text.is_empty() {
        return append(out, b"null");
    }
    append_quoted(out, text)
}

/// The number of the level of a depth: 1 for the outermost.
fn level_of(depth: u8) -> u32 {
    u32::from(depth) + 1
}

/// Appends an instruction that was taken up.
fn append_taken(out: &mut Vec<u8>, taken: &Taken) -> Result<(), NoMemory> {
    append_with(
        out,
        b",\"instruction\":{\"process\":",
        u32::from(taken.process),
    )?;
    append_with(out, b",\"level\":", level_of(taken.depth))?;
    append_with(out, b",\"number\":", taken.number)?;
    append(out, b",\"slot\":")?;
    append_maybe(out, taken.slot)?;
    append(out, b",\"place\":")?;
    append_maybe(out, taken.place)?;
    append(out, b",\"line\":")?;
    append_maybe(out, taken.line)?;
    append(out, b",\"text\":")?;
    append_text(out, taken.text.as_slice())?;
    append(out, b"}")
}

/// Appends the head of a moment of this number.
fn append_moment_head(out: &mut Vec<u8>, at: u32, moment: &Moment) -> Result<(), NoMemory> {
    append_with(out, b"{\"at\":", at)?;
    append(out, b",\"kind\":\"")?;
    append(out, kind_word(moment.kind))?;
    append_with(out, b"\",\"line\":", count_of(moment.line))?;
    if let Some(event) = moment.event {
        append_with(out, b",\"event\":", event)?;
    }
    match &moment.taken {
        Some(taken) => append_taken(out, taken),
        None => Ok(()),
    }
}

/// Appends what changed from what is told to what is now, in so many bytes, and how many changes
/// were left out: what is told then.
pub fn append_changed(
    alloc: Global,
    out: &mut Vec<u8>,
    told: State,
    now: State,
    most: usize,
) -> Result<State, NoMemory> {
    let changes = changes_of(alloc, &told, &now)?;
    if changes.is_empty() {
        return Ok(now);
    }
    append(out, b",\"changed\":")?;
    let count = append_patch(out, changes.as_slice(), &now, most)?;
    match changes.as_slice().get(count) {
        None => Ok(now),
        Some(change) => {
            let late = changes.len().saturating_sub(count);
            append_with(out, b",\"late\":", count_of(late))?;
            told_after(told, now, change.place())
        }
    }
}

/// The object of a moment of this number, as a line; `whole` leaves out no change. What is told
/// then.
pub fn moment_of(
    alloc: Global,
    out: &mut Vec<u8>,
    at: u32,
    moment: &Moment,
    told: State,
    now: State,
    whole: bool,
) -> Result<State, NoMemory> {
    append_moment_head(out, at, moment)?;
    append_wrote(alloc, out, moment.wrote, WROTE_BYTES)?;
    let most = if whole { usize::MAX } else { CHANGED_BYTES };
    let told = append_changed(alloc, out, told, now, most)?;
    append(out, b"}\n")?;
    Ok(told)
}

/// How a run ended.
#[derive(Clone, Copy)]
pub struct Ending<'a> {
    /// The line that was refused, if one was.
    pub refused: Option<usize>,
    /// The status of the run.
    pub status: u8,
    /// What was written last.
    pub wrote: &'a [u8],
}

/// The object of the end, as a line.
pub fn end_of(alloc: Global, ending: Ending, told: State, now: State) -> Result<Vec<u8>, NoMemory> {
    let mut out = Vec::new(alloc);
    match ending.refused {
        Some(line) => {
            append_with(&mut out, b"{\"kind\":\"refused\",\"line\":", count_of(line))?;
        }
        None => append(&mut out, b"{\"kind\":\"end\"")?,
    }
    append_with(&mut out, b",\"status\":", u32::from(ending.status))?;
    append_wrote(alloc, &mut out, ending.wrote, WROTE_BYTES)?;
    let _ = append_changed(alloc, &mut out, told, now, usize::MAX)?;
    append(&mut out, b"}\n")?;
    Ok(out)
}
