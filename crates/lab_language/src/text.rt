//! The words of a text, and such texts with a word on each line.

ghost use Rattle.std.specs.Prelude.{◌≤◌, length, IfOk};

use crate::NoMemory;
use graft_syntax::{LangFault, LangKind, read};
use lab_places::{Span, bytes_of, code_end, next_word};
use std::alloc::Global;
use text_words::{Parts, append, put};

/// The most bytes of a text.
const TEXT_BYTES: usize = 16_777_216;

/// Puts the words of a line, which begins at this place, behind others. A remark has none.
fn put_words(out: &mut Vec<Span>, line: &[u8], at: usize) -> Result<(), NoMemory> {
    let end = code_end(line);
    let mut from = 0;
    for _ in 0..line.len() {
        let Some(word) = next_word(line, from, end) else {
            return Ok(());
        };
        let moved = Span {
            from: at.saturating_add(word.from),
            to: at.saturating_add(word.to),
        };
        put(out, moved)?;
        from = word.to;
    }
    Ok(())
}

/// The words of a text, in their order.
pub fn words_of(alloc: Global, text: &[u8]) -> Result<Vec<Span>, NoMemory> {
    let mut words = Vec::new(alloc);
    let mut lines = Parts::new(text, b'\n');
    let mut at: usize = 0;
    while let Some(line) = lines.next() {
        put_words(&mut words, line, at)?;
        at = at.saturating_add(line.len()).saturating_add(1);
    }
    Ok(words)
}

/// A refusal: the number of the word from 0, which is that of all words at the end of the text, and
/// why.
#[derive(Clone, Copy)]
pub struct Place {
    pub word: usize,
    pub kind: LangKind,
}

/// Appends a word as a line.
fn add_line(out: &mut Vec<u8>, word: &[u8]) -> Result<(), NoMemory> {
    append(out, word)?;
    append(out, b"\n")
}

/// The first so many words of a text and perhaps one more, each on a line of its own, and an empty
/// line. Its tokens are those of the words, so it is refused at the line of the word that is to
/// blame, or at the empty line where that is the end.
fn spread(
    alloc: Global,
    text: &[u8],
    words: &[Span],
    count: usize,
    more: Option<&[u8]>,
) -> Result<Vec<u8>, NoMemory> {
    let mut out = Vec::new(alloc);
    for word in &words[..count.min(words.len())] {
        add_line(&mut out, bytes_of(text, *word))?;
    }
    if let Some(word) = more {
        add_line(&mut out, word)?;
    }
    add_line(&mut out, b" ")?;
    Ok(out)
}

/// Where a text with a word on each line is refused, and why.
fn place_in(alloc: Global, text: &[u8]) -> Result<Option<Place>, NoMemory> {
    if text.len() > TEXT_BYTES {
        return Ok(None);
    }
    match read(alloc, text) {
        Ok(_) => Ok(None),
        Err(LangFault::At(line, kind)) => Ok(Some(Place {
            word: (line as usize).saturating_sub(1),
            kind,
        })),
        Err(LangFault::NoMemory) => Err(NoMemory),
    }
}

/// Where a text with these words is refused, and why.
pub fn place_of(alloc: Global, text: &[u8], words: &[Span]) -> Result<Option<Place>, NoMemory> {
    let spread = spread(alloc, text, words, words.len(), None)?;
    place_in(alloc, spread.as_slice())
}

/// Whether this word could stand behind the first so many words of a text: some program goes on
/// with it.
pub fn could_stand(
    alloc: Global,
    text: &[u8],
    words: &[Span],
    count: usize,
    word: &[u8],
) -> Result<bool, NoMemory> {
    let spread = spread(alloc, text, words, count, Some(word))?;
    match place_in(alloc, spread.as_slice())? {
        Some(place) => Ok(place.word != count || place.kind != LangKind::NoProgram),
        None => Ok(true),
    }
}
