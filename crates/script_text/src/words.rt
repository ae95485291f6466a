//! The words of a line, and the numbers that they say.

ghost use Rattle.std.specs.Prelude.{◌≡◌, ◌≤◌, ◌+◌, ◌==◌, ℕ, List, [], length, drop, position, IfSome};
ghost use Rattle.arrayvec.specs.ArrayVec.{array_vec_len};
ghost use Rattle.script_model.specs.World.{same_bytes};
ghost use Rattle.script_model.specs.Script.{object_kinds, amounts, number_said, is_unlisted};
ghost use Rattle.script_model.specs.Script.{is_bad_word, is_well_formed, words_said};
ghost use Rattle.script_text.specs.Words.{word_length, words_left, said, failed, SaysFirst};

use crate::digits::{SPACE, first_number, read_number};
use arrayvec::ArrayVec;
use script_model::Form;

/// The most words of a command after its own.
pub(crate) const WORDS: usize = 5;

/// The words of a line that were read: the numbers that they say, and the last of them.
#[derive(Drop)]
pub(crate) struct WordsRead<'a> {
    pub(crate) numbers: ArrayVec<u32, WORDS>,
    pub(crate) last: &'a [u8],
}

/// What was read of the words of a line.
#[derive(Clone, Copy)]
pub(crate) enum Reading {
    /// Each says a number.
    Said,
    /// A word is no number.
    BadNumber,
    /// There is another number of words, an empty one, or a kind that isn't listed.
    BadWord,
}

/// The place of the first space in a text.
fn first_space(text: &[u8]) -> Option<usize>
    ensures { result ≡ position (λ byte. byte == 32) text.now }
{
    text.iter().position(|byte| *byte == SPACE)
}

/// Where the first word of a text ends.
pub(crate) fn word_end(text: &[u8]) -> usize
    ensures value { result ≡ word_length text.now }
    ensures within { result ≤ length text.now }
{
    match first_space(text) {
        Some(end) => end,
        None => text.len(),
    }
}

/// The place of a kind of object in their list.
#[inline(never)]
fn object_kind(word: &[u8]) -> Option<u32>
    ensures { result ≡ position (same_bytes word.now) object_kinds }
{
    if word == b"graft".as_slice() {
        Some(0)
    } else if word == b"acct".as_slice() {
        Some(1)
    } else if word == b"cell".as_slice() {
        Some(2)
    } else if word == b"open".as_slice() {
        Some(3)
    } else if word == b"queue".as_slice() {
        Some(4)
    } else if word == b"cache".as_slice() {
        Some(5)
    } else if word == b"lock".as_slice() {
        Some(6)
    } else if word == b"pol".as_slice() {
        Some(7)
    } else {
        None
    }
}

/// The place of a kind of amount in their list.
#[inline(never)]
fn amount(word: &[u8]) -> Option<u32>
    ensures { result ≡ position (same_bytes word.now) amounts }
{
    if word == b"steps".as_slice() {
        Some(0)
    } else if word == b"records".as_slice() {
        Some(1)
    } else if word == b"locks".as_slice() {
        Some(2)
    } else {
        None
    }
}

/// The number that a word says.
fn number_in(form: Form, word: &[u8]) -> Option<u32>
    ensures { result ≡ number_said form word.now }
{
    match form {
        Form::Number => read_number(word),
        Form::ObjectKind => object_kind(word),
        Form::Amount => amount(word),
        Form::Text => Some(0),
    }
}

/// Whether a word that is to be of a list isn't one of it.
fn fails_list(form: Form, word: &[u8]) -> bool
    ensures { result ≡ is_unlisted form word.now }
{
    match form {
        Form::ObjectKind => object_kind(word).is_none(),
        Form::Amount => amount(word).is_none(),
        Form::Number | Form::Text => false,
    }
}

/// Whether a word is empty, or is to be of a list and isn't.
fn is_bad(form: Form, word: &[u8]) -> bool
    ensures { result ≡ is_bad_word form word.now }
{
    word.is_empty() || fails_list(form, word)
}

/// A list from a place on.
pub(crate) fn skip<T>(items: &[T], n: usize) -> &[T]
    requires { n ≤ length items.now }
    ensures { result.now ≡ drop n items.now }
{
    &items[n..]
}

/// Whether the words that are left have their forms, but for numbers.
fn fits_forms(forms: &[Form], rest: &[u8]) -> bool
    ensures { result ≡ is_well_formed forms.now (words_left rest.now) }
{
    if forms.is_empty() {
        return rest.is_empty();
    }
    if rest.is_empty() {
        return false;
    }
    let text = skip(rest, 1);
    let end = word_end(text);
    if is_bad(forms[0], &text[..end]) {
        return false;
    }
    fits_forms(skip(forms, 1), skip(text, end))
}

/// The refusal of a line with a word that is no number, where the words that are left may be worse.
#[inline(never)]
fn refused(forms: &[Form], rest: &[u8]) -> Reading
    ensures { (ns last : List ℕ) →
        said result ns last ≡ failed (is_well_formed forms.now (words_left rest.now)) }
{
    if fits_forms(forms, rest) {
        Reading::BadNumber
    } else {
        Reading::BadWord
    }
}

/// What was read where no form is left.
fn nothing_left(rest: &[u8]) -> Reading
    ensures { (ns last : List ℕ) → said result ns last ≡ words_said ns last [] (words_left rest.now) }
{
    if rest.is_empty() {
        Reading::Said
    } else {
        Reading::BadWord
    }
}

/// The number that is the first word of a text, and how many digits it has, where that word is to
/// be a number and is one.
fn number_first(form: Form, text: &[u8]) -> Option<(u32, usize)>
    ensures { IfSome result (λ read. SaysFirst form text.now read.0 read.1) }
{
    match form {
        Form::Number => first_number(text),
        Form::ObjectKind | Form::Amount | Form::Text => None,
    }
}

/// Reads the words that are left, and puts their numbers behind others, and the last word in the
/// place of the one before them.
pub(crate) fn read_words<'a>(forms: &[Form], rest: &'a [u8], words: &mut WordsRead<'a>) -> Reading
    requires { array_vec_len words.old.numbers + length forms.now ≤ 5 }
    ensures { said result words.new.numbers.items words.new.last.now
        ≡ words_said words.old.numbers.items words.old.last.now forms.now (words_left rest.now) }
{
    if forms.is_empty() {
        return nothing_left(rest);
    }
    if rest.is_empty() {
        return Reading::BadWord;
    }
    let text = skip(rest, 1);
    if let Some((n, size)) = number_first(forms[0], text) {
        words.numbers.push(n);
        words.last = &text[..size];
        return read_words(skip(forms, 1), skip(text, size), words);
    }
    let end = word_end(text);
    let word = &text[..end];
    if is_bad(forms[0], word) {
        return Reading::BadWord;
    }
    match number_in(forms[0], word) {
        None => refused(skip(forms, 1), skip(text, end)),
        Some(n) => {
            words.numbers.push(n);
            words.last = word;
            read_words(skip(forms, 1), skip(text, end), words)
        }
    }
}
