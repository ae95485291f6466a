//! The words of a line.

ghost use Rattle.std.specs.Prelude.{◌≡◌, ◌<◌, [], ◌∷◌, length, map, IfOk, OnOk, OnSome, MatchOption};
ghost use Rattle.std.specs.Option.{option_copied};
ghost use Rattle.std.specs.List.{list_all};
ghost use Rattle.lab_reader.specs.Words.{joined_after, parts_of, with_word, words_before};
ghost use Rattle.lab_task.specs.Task as spec;

use script_model::NoMemory;
use std::alloc::Global;
use text_words::{Parts, append};

/// The most bytes of the name of a test.
const NAME_BYTES: usize = 32;

/// The next word before a remark, if there is one.
fn next_word<'a>(parts: &mut Parts<'a>) -> Option<&'a [u8]>
    ensures taken { MatchOption (option_copied result) (words_before parts.old ≡ [])
        (λ word. words_before parts.old ≡ word ∷ words_before parts.new) }
    ensures fewer { OnSome result (length parts.new < length parts.old) }
{
    while let Some(word) = parts.next() {
        if !word.is_empty() {
            return if word[0] == b'#' { None } else { Some(word) };
        }
    }
    None
}

/// Puts a word behind others.
fn put_word<'a>(words: &mut Vec<&'a [u8]>, word: &'a [u8]) -> Result<(), NoMemory>
    ensures { OnOk result (map (λ (w : _). w.now) words.new.items
        ≡ spec.with_last (map (λ (w : _). w.now) words.old.items) word.now) }
{
    match words.push(word) {
        Ok(()) => Ok(()),
        Err(_) => Err(NoMemory),
    }
}

/// The words of a line before a remark.
pub(crate) fn words_of<'a>(alloc: Global, line: &'a [u8]) -> Result<Vec<&'a [u8]>, NoMemory>
    ensures { IfOk result (λ words. map (λ (w : _). w.now) words.items
        ≡ words_before (parts_of line.now)) }
{
    let mut words = Vec::new(alloc);
    let mut parts = Parts::new(line, b' ');
    while let Some(word) = next_word(&mut parts) {
        put_word(&mut words, word)?;
    }
    Ok(words)
}

/// Puts a word behind a text, a space between.
fn add_word(text: &mut Vec<u8>, word: &[u8]) -> Result<(), NoMemory>
    ensures { OnOk result (text.new.items ≡ with_word text.old.items word.now) }
{
    if text.is_empty() {
        return append(text, word);
    }
    append(text, b" ")?;
    append(text, word)
}

/// Puts words behind a text, a space between two of them.
pub(crate) fn add_words(text: &mut Vec<u8>, words: &[&[u8]]) -> Result<(), NoMemory>
    ensures { OnOk result (text.new.items
        ≡ joined_after text.old.items (map (λ (w : _). w.now) words.now)) }
{
    for word in words {
        add_word(text, word)?;
    }
    Ok(())
}

/// Whether a byte may stand in the name of a test.
fn is_name_byte(b: u8) -> bool
    ensures { result ≡ spec.is_name_byte b }
{
    (b >= b'a' && b <= b'z') || (b >= b'0' && b <= b'9') || b == b'-'
}

/// Whether all bytes may stand in the name of a test.
fn are_name_bytes(bytes: &[u8]) -> bool
    ensures { result ≡ list_all spec.is_name_byte bytes.now }
{
    bytes.iter().all(|b| is_name_byte(*b))
}

/// Whether a word may be the name of a test.
pub(crate) fn is_name(word: &[u8]) -> bool
    ensures { result ≡ spec.is_name word.now }
{
    word.len() <= NAME_BYTES && are_name_bytes(word)
}
