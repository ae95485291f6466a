//! What could stand at a place of a text.

use crate::NoMemory;
use crate::text::could_stand;
use lab_places::Span;
use std::alloc::Global;
use text_words::append;

/// A kind of words: one of them, and its name.
#[derive(Clone, Copy)]
struct Kind {
    word: &'static [u8],
    name: &'static [u8],
}

/// A kind of words.
fn make_kind(word: &'static [u8], name: &'static [u8]) -> Kind {
    Kind { word, name }
}

/// What is tried at a place, in the order in which it is told. A statement begins with a variable
/// too, which an expression does as well.
fn kinds() -> [Kind; 13] {
    [
        make_kind(b"if", b"a statement"),
        make_kind(b"1", b"a number"),
        make_kind(b"a0", b"a variable"),
        make_kind(b"cell_get", b"a call"),
        make_kind(b"+", b"an operator"),
        make_kind(b"(", b"'('"),
        make_kind(b")", b"')'"),
        make_kind(b",", b"','"),
        make_kind(b"=", b"'='"),
        make_kind(b";", b"';'"),
        make_kind(b"{", b"'{'"),
        make_kind(b"}", b"'}'"),
        make_kind(b"else", b"'else'"),
    ]
}

/// The names of the kinds that could stand behind the first so many words.
fn names_at(
    alloc: Global,
    text: &[u8],
    words: &[Span],
    count: usize,
) -> Result<Vec<&'static [u8]>, NoMemory> {
    let mut names = Vec::new(alloc);
    let mut is_statement = false;
    for tried in kinds() {
        let is_variable = tried.word == b"a0".as_slice();
        if !(is_statement && is_variable) && could_stand(alloc, text, words, count, tried.word)? {
            is_statement = is_statement || tried.word == b"if".as_slice();
            if names.push(tried.name).is_err() {
                return Err(NoMemory);
            }
        }
    }
    Ok(names)
}

/// Appends what could stand behind the first so many words of a text, as `a number or '('`.
pub fn add_could(
    alloc: Global,
    out: &mut Vec<u8>,
    text: &[u8],
    words: &[Span],
    count: usize,
) -> Result<(), NoMemory> {
    let names = names_at(alloc, text, words, count)?;
    let last = names.len().saturating_sub(1);
    for (i, name) in names.iter().enumerate() {
        if i > 0 {
            append(
                out,
                if i == last {
                    b" or ".as_slice()
                } else {
                    b", ".as_slice()
                },
            )?;
        }
        append(out, *name)?;
    }
    Ok(())
}
