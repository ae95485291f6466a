//! Why a text is refused, in a sentence.

use crate::calls::call_at;
use crate::could::add_could;
use crate::parting::{add_parted, is_joined};
use crate::text::{Place, place_of, words_of};
use crate::{LangKind, NoMemory};
use lab_places::{Span, bytes_of};
use std::alloc::Global;
use text_words::{append, append_number, is_label, number_of};

/// Why a text is refused: the word, or None for its end, and a sentence without the code.
#[derive(Drop)]
pub struct Refused {
    pub word: Option<Span>,
    pub said: Vec<u8>,
}

/// A text and its words.
#[derive(Clone, Copy)]
struct Read<'a> {
    text: &'a [u8],
    words: &'a [Span],
}

/// A word of a text; nothing past the last.
fn word_of<'a>(read: Read<'a>, k: usize) -> &'a [u8] {
    match read.words.get(k) {
        Some(word) => bytes_of(read.text, *word),
        None => &[],
    }
}

/// Appends a word in quotes.
fn add_quoted(out: &mut Vec<u8>, word: &[u8]) -> Result<(), NoMemory> {
    append(out, b"'")?;
    append(out, word)?;
    append(out, b"'")
}

/// Appends a number.
fn add_count(out: &mut Vec<u8>, n: usize) -> Result<(), NoMemory> {
    append_number(out, u32::try_from(n).unwrap_or(u32::MAX))
}

/// What helps where a word that is no token has a form of other languages.
fn token_hint(word: &[u8]) -> &'static [u8] {
    if word.starts_with(b"//") || word.starts_with(b"/*") {
        b"a remark begins with #"
    } else if word == b">".as_slice() {
        b"write ( b < a ) for a > b"
    } else if word == b"!=".as_slice() {
        b"write ( ( a == b ) == 0 ) for a != b"
    } else if word == b"<=".as_slice() || word == b">=".as_slice() {
        b"write ( ( b < a ) == 0 ) for a <= b"
    } else if word == b"&&".as_slice() || word == b"||".as_slice() {
        b"`&` and `|` work bit by bit, as on the 1 and 0 of `<` and `==`"
    } else if word == b"!".as_slice() {
        b"write ( a == 0 )"
    } else if word.starts_with(b"0x") || word.starts_with(b"0X") {
        b"numbers are decimal"
    } else if word.iter().any(|b| b.is_ascii_uppercase()) {
        b"names have small letters"
    } else if word.iter().all(|b| b.is_ascii_digit()) {
        b"numbers are 0 to 4294967295"
    } else if word.iter().any(|b| b.is_ascii_lowercase()) && word.len() > 16 {
        b"names have at most 16 letters, digits and _"
    } else {
        b"docs/LANGUAGE.md lists them"
    }
}

/// A word that is no token.
fn tell_token(out: &mut Vec<u8>, word: &[u8]) -> Result<(), NoMemory> {
    add_quoted(out, word)?;
    append(out, b" isn't a token: ")?;
    if is_joined(word) && !word.starts_with(b"//") {
        append(out, b"separate tokens by spaces, as in ")?;
        return add_parted(out, word);
    }
    append(out, token_hint(word))
}

/// Whether a word is an operand by itself.
fn is_operand(word: &[u8]) -> bool {
    number_of(word).is_some() || is_label(word)
}

/// Whether a word is an operator.
fn is_operator(word: &[u8]) -> bool {
    match word {
        b"+" | b"-" | b"*" | b"/" | b"%" | b"&" | b"|" | b"^" | b"<<" | b">>" | b"<" | b"==" =>
            true,
        _ => false,
    }
}

/// Appends which word stands behind which.
fn add_standing(out: &mut Vec<u8>, read: Read, k: usize) -> Result<(), NoMemory> {
    if k == 0 {
        append(out, b"the text begins with ")?;
    } else {
        append(out, b"after ")?;
        add_quoted(out, word_of(read, k.saturating_sub(1)))?;
        append(out, b" comes ")?;
    }
    add_quoted(out, word_of(read, k))
}

/// A token with which no program goes on.
fn tell_program(alloc: Global, out: &mut Vec<u8>, read: Read, k: usize) -> Result<(), NoMemory> {
    if k >= read.words.len() {
        append(out, b"the text ends too early; possible here: ")?;
        return add_could(alloc, out, read.text, read.words, k);
    }
    add_standing(out, read, k)?;
    let before = word_of(read, k.saturating_sub(1));
    let behind = word_of(read, k.saturating_add(1));
    if is_operator(word_of(read, k)) && is_operand(before) && is_operand(behind) {
        append(out, b": write ( ")?;
        append(out, before)?;
        append(out, b" ")?;
        append(out, word_of(read, k))?;
        append(out, b" ")?;
        append(out, behind)?;
        return append(out, b" )");
    }
    append(out, b"; possible here: ")?;
    add_could(alloc, out, read.text, read.words, k)
}

/// A call with a wrong number of arguments.
fn tell_arguments(out: &mut Vec<u8>, read: Read, k: usize) -> Result<(), NoMemory> {
    let Some(call) = call_at(read.text, read.words, k) else {
        return append(out, b"the call has a wrong number of arguments");
    };
    add_quoted(out, word_of(read, call.callable))?;
    append(out, b" takes ")?;
    append_number(out, call.takes)?;
    append(
        out,
        if call.takes == 1 {
            b" argument, here ".as_slice()
        } else {
            b" arguments, here ".as_slice()
        },
    )?;
    add_count(out, call.has)
}

/// What is said of a refusal.
fn tell(alloc: Global, out: &mut Vec<u8>, read: Read, place: Place) -> Result<(), NoMemory> {
    let word = word_of(read, place.word);
    match place.kind {
        LangKind::NoToken => tell_token(out, word),
        LangKind::NoProgram => tell_program(alloc, out, read, place.word),
        LangKind::UnknownVariable => {
            add_quoted(out, word)?;
            append(out, b" isn't known before its first assignment")
        }
        LangKind::WrongArguments => tell_arguments(out, read, place.word),
        LangKind::TooDeep => {
            add_quoted(out, word)?;
            append(
                out,
                b" opens the 65th level; a variable can keep a part of it",
            )
        }
        LangKind::TooManyTokens => {
            append(out, b"the program has ")?;
            add_count(out, read.words.len())?;
            append(out, b" tokens, and 120 are the most")
        }
    }
}

/// Why a text is refused, with the word that is to blame; None for a text that is taken.
pub fn refused_word(alloc: Global, text: &[u8]) -> Result<Option<Refused>, NoMemory> {
    let words = words_of(alloc, text)?;
    let Some(place) = place_of(alloc, text, words.as_slice())? else {
        return Ok(None);
    };
    let read = Read {
        text,
        words: words.as_slice(),
    };
    let mut said = Vec::new(alloc);
    tell(alloc, &mut said, read, place)?;
    Ok(Some(Refused {
        word: words.as_slice().get(place.word).copied(),
        said,
    }))
}
