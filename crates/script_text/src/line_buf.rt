//! `LineBuf`: a line of a script, byte by byte.

ghost use Rattle.std.specs.Prelude.{◌≡◌, ◌≤◌, ◌==◌, [], length, position, IfOk, IfSome};
ghost use Rattle.std.specs.List.{position_or_len};

use memchr::memchr_iter;
use script_model::NoMemory;
use std::alloc::Global;
use std::marker::Model;

/// The most bytes of a line before its newline.
pub(crate) const LINE_BYTES: usize = 65536;

const NEWLINE: u8 = b'\n';

/// What a byte made of a line.
#[derive(Clone, Copy, Debug, PartialEq, Eq)]
pub enum Fed {
    /// The byte was put to the line, which goes on.
    More,
    /// The byte was a newline: the line is whole.
    Line,
    /// The line has 65,536 bytes, and this one more isn't its newline.
    TooLong,
}

/// The bytes of a line so far, without its newline. Contracts see their list.
///
/// Its memory is taken by `new`: no other call takes any.
#[derive(Drop)]
pub struct LineBuf {
    bytes: Vec<u8>,
}

impl Model for LineBuf {
    ghost use Rattle.std.specs.Prelude.{ℕ, List, ◌≤◌, vec_capacity, vec_len};

    ghost Value = { List ℕ };

    ghost view = { λ l. l.bytes.items };

    ghost invariant = { λ l. (65536 ≤ vec_capacity l.bytes) × (vec_len l.bytes ≤ 65536) };
}

/// The place of the first newline, as the first of all of them: a line is mostly short, and their
/// iterator looks at the next 32 bytes before it goes on in longer steps.
fn first_newline(bytes: &[u8]) -> Option<usize>
    ensures { result ≡ position (λ byte. byte == 10) bytes.now }
{
    memchr_iter(NEWLINE, bytes).next()
}

/// How many bytes stand before the first newline.
fn plain_length(bytes: &[u8]) -> usize
    ensures value { result ≡ position_or_len (λ byte. byte == 10) bytes.now }
    ensures within { result ≤ length bytes.now }
{
    match first_newline(bytes) {
        Some(end) => end,
        None => bytes.len(),
    }
}

impl LineBuf {
    ghost use Rattle.std.specs.Prelude.{length, take};
    ghost use Rattle.script_model.specs.Outcome.{lines_after, rest_after};
    ghost use Rattle.script_text.specs.Words.{fed, line_with, IsWholeLine};

    /// An empty line, with room for 65,536 bytes.
    pub fn new(alloc: Global) -> Result<LineBuf, NoMemory>
        ensures { IfOk result (λ l. l ≡ []) }
    {
        match Vec::with_capacity(alloc, LINE_BYTES) {
            Ok(bytes) => Ok(LineBuf { bytes }),
            Err(_) => Err(NoMemory),
        }
    }

    /// Puts a byte to the line, unless it is a newline or the line is full.
    pub fn push(&mut self, byte: u8) -> Fed
        ensures answer { result ≡ fed byte self.old }
        ensures line { self.new ≡ line_with byte self.old }
    {
        if byte == NEWLINE {
            return Fed::Line;
        }
        if self.bytes.len() >= LINE_BYTES {
            return Fed::TooLong;
        }
        let _ = self.bytes.push(byte);
        Fed::More
    }

    /// Puts the bytes before the first newline to the line, as far as it has room for them. How
    /// many: no line ends among these.
    pub fn put_plain(&mut self, bytes: &[u8]) -> usize
        ensures most { result ≤ length bytes.now }
        ensures no_line { lines_after self.old (take result bytes.now) ≡ [] }
        ensures line { rest_after self.old (take result bytes.now) ≡ self.new }
    {
        let room = LINE_BYTES - self.bytes.len();
        let n = plain_length(bytes).min(room);
        let _ = self.bytes.extend_from_slice(&bytes[..n]);
        n
    }

    /// How many bytes the next line has, where none has begun and it stands whole at the front of
    /// these bytes, with its newline.
    pub fn next_whole(&self, bytes: &[u8]) -> Option<usize>
        ensures { IfSome result (λ n. IsWholeLine self.now bytes.now n) }
    {
        if !self.bytes.is_empty() {
            return None;
        }
        match first_newline(bytes) {
            Some(end) if end <= LINE_BYTES => Some(end),
            _ => None,
        }
    }

    /// The bytes so far.
    pub fn line(&self) -> &[u8]
        ensures value { result.now ≡ self.now }
        ensures fits { length result.now ≤ 65536 }
    {
        self.bytes.as_slice()
    }

    /// Begins a new line.
    pub fn clear(&mut self)
        ensures { self.new ≡ [] }
    {
        self.bytes.clear();
    }
}
