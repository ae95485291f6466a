//! What the written lines of a run say.

ghost use Rattle.std.specs.Prelude.{◌≡◌, drop, map, IfOk, position};
ghost use Rattle.std.specs.List.{slice_split};
ghost use Rattle.kernel_data.specs.World.{same_bytes};
ghost use Rattle.lab_counts.specs.Notes as spec;

use kernel_data::NoMemory;
use std::alloc::Global;
use text_words::{Parts, number_of, place_of, word_at};

/// The commands of a script that make a call, as docs/CALLS.md lists them.
pub const CALLS: [&str; 22] = [
    "spawn", "exit", "yield", "sync", "open", "close", "read", "write", "lock", "unlock", "poke",
    "peek", "tune", "default", "give", "install", "fund", "bill", "remove", "serve", "sread",
    "swrite",
];

/// What a written line says.
#[derive(Clone, Copy)]
pub enum Said {
    /// A call ended well.
    Ended,
    /// It was refused.
    Refused,
    /// It is in flight at the end of the script.
    Left,
    /// A graft was dropped, for the cause of this number.
    Dropped(u32),
    /// So many instructions were taken up.
    Taken(u32),
    /// Anything else.
    Other,
}

/// What a written line says, and of which call: its place in `CALLS`, if it is of a call.
#[derive(Clone, Copy)]
pub struct Note {
    pub call: Option<usize>,
    pub said: Said,
}

/// The call that a line of a script makes, as its place in `CALLS`.
pub fn call_of(line: &[u8]) -> Option<usize> {
    place_of(word_at(line, 0), CALLS.as_slice())
}

/// What stands in a word behind its first byte.
fn behind_first(word: &[u8]) -> &[u8]
    ensures { result.now ≡ drop 1 word.now }
{
    match word {
        [_, rest @ ..] => rest,
        [] => [].as_slice(),
    }
}

/// The number that a word writes, 0 where it writes none.
fn number_in(word: &[u8]) -> u32
    ensures { result ≡ spec.number_in word.now }
{
    match number_of(word) {
        Some(number) => number,
        None => 0,
    }
}

/// What a line says that isn't of a call left in flight.
fn said_by(line: &[u8], word: &[u8]) -> Said
    ensures { result ≡ spec.said_by line.now word.now }
{
    if word == b"ok".as_slice() {
        return Said::Ended;
    }
    if word == b"drop".as_slice() {
        return Said::Dropped(number_in(behind_first(word_at(line, 4))));
    }
    if word == b"ran".as_slice() {
        return Said::Taken(number_in(word_at(line, 2)));
    }
    if word.starts_with(b"E") {
        Said::Refused
    } else {
        Said::Other
    }
}

/// The call of the event of this number, where the events made these calls.
fn call_at(calls: &[Option<usize>], number: u32) -> Option<usize>
    ensures { result ≡ spec.call_at calls.now number }
{
    if number == 0 {
        return None;
    }
    match calls.get(number as usize - 1) {
        Some(call) => *call,
        None => None,
    }
}

/// What a line says, where the events made these calls.
fn note_of(calls: &[Option<usize>], line: &[u8]) -> Note
    ensures { result ≡ spec.note_of calls.now line.now }
{
    if word_at(line, 0) == b"left".as_slice() {
        return Note {
            call: call_at(calls, number_in(word_at(line, 2))),
            said: Said::Left,
        };
    }
    Note {
        call: call_at(calls, number_in(word_at(line, 0))),
        said: said_by(line, word_at(line, 1)),
    }
}

/// What each line of a text says, where the events made these calls.
pub fn notes_of(alloc: Global, calls: &[Option<usize>], text: &[u8]) -> Result<Vec<Note>, NoMemory>
    // One note for each line, in their order.
    ensures { IfOk result (λ notes. notes.items ≡ spec.notes_of calls.now text.now) }
{
    let mut notes = Vec::new(alloc);
    let mut lines = Parts::new(text, b'\n');
    while let Some(line) = lines.next() {
        if notes.push(note_of(calls, line)).is_err() {
            return Err(NoMemory);
        }
    }
    Ok(notes)
}
