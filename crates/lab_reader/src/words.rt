//! The words of a line of a lab file.

ghost use Rattle.std.specs.Prelude.{◌≡◌, ◌≤◌, ◌^◌, ◌<◌, ◌++◌, [], ◌∷◌, length, map, OnOk, IfOk};
ghost use Rattle.std.specs.Prelude.{IfSome, None, OnSome, MatchOption, option_map, true};
ghost use Rattle.std.specs.Option.{option_copied};
ghost use Rattle.std.specs.List.{list_all};
ghost use Rattle.script_model.specs.Bytes as model;
ghost use Rattle.lab_reader.specs.Words as spec;

use script_model::NoMemory;
use std::alloc::Global;
use text_words::{Parts, append, number_of};

/// The most hex digits of an image.
const IMAGE_DIGITS: usize = 65_534;

/// A text with spaces for tabs and carriage returns.
pub fn with_spaces(alloc: Global, text: &[u8]) -> Result<Vec<u8>, NoMemory>
    ensures { IfOk result (λ spaced. spaced.items ≡ spec.with_spaces text.now) }
{
    text.iter()
        .map(|b| space_of(*b))
        .collect(alloc)
        .map_err(|_| NoMemory)
}

/// A tab and a carriage return are as good as a space.
fn space_of(byte: u8) -> u8
    ensures { result ≡ spec.space_of byte }
{
    if byte == b'\t' || byte == b'\r' {
        b' '
    } else {
        byte
    }
}

/// Puts a word behind a text, a space between.
pub fn add_word(text: &mut Vec<u8>, word: &[u8]) -> Result<(), NoMemory>
    ensures { OnOk result (text.new.items ≡ spec.with_word text.old.items word.now) }
{
    if text.is_empty() {
        return append(text, word);
    }
    append(text, b" ")?;
    append(text, word)
}

/// The next word before a remark, if there is one.
pub fn next_word<'a>(parts: &mut Parts<'a>) -> Option<&'a [u8]>
    ensures taken { MatchOption (option_copied result) (spec.words_before parts.old ≡ [])
        (λ word. spec.words_before parts.old ≡ word ∷ spec.words_before parts.new) }
    ensures fewer { OnSome result (length parts.new < length parts.old) }
{
    while let Some(word) = parts.next() {
        if !word.is_empty() {
            return if word[0] == b'#' { None } else { Some(word) };
        }
    }
    None
}

/// What a line says without its remark, one space between two words.
pub fn code_of(alloc: Global, line: &[u8]) -> Result<Vec<u8>, NoMemory>
    ensures { IfOk result (λ code. code.items ≡ spec.code_of line.now) }
{
    let mut code = Vec::new(alloc);
    let mut parts = Parts::new(line, b' ');
    while let Some(word) = next_word(&mut parts) {
        add_word(&mut code, word)?;
    }
    Ok(code)
}

/// Whether a line begins with a word, or is empty.
fn starts_with_word(line: &[u8]) -> bool
    ensures { result ≡ spec.starts_with_word line.now }
{
    line.is_empty() || line[0] != b' '
}

/// Whether there are words alone between spaces, none of them a remark.
fn are_words(line: &[u8]) -> bool
    ensures { result ≡ true → spec.words_before (spec.parts_of line.now) ≡ spec.parts_of line.now }
{
    let mut parts = Parts::new(line, b' ');
    while let Some(word) = parts.next() {
        if word.is_empty() || word[0] == b'#' {
            return false;
        }
    }
    true
}

/// Whether a line is what it says: with one space between two words, and no remark.
pub fn is_code(line: &[u8]) -> bool
    ensures { result ≡ true → spec.code_of line.now ≡ line.now }
{
    starts_with_word(line) && are_words(line)
}

/// Whether no word is the sign before a wanted line.
fn has_no_sign(code: &[u8]) -> bool
    ensures left { result ≡ true → spec.words_left (spec.parts_of code.now)
        ≡ spec.parts_of code.now }
    ensures wanted { result ≡ true → spec.wanted_of code.now ≡ None }
{
    let mut parts = Parts::new(code, b' ');
    while let Some(word) = parts.next() {
        if is_sign(word) {
            return false;
        }
    }
    true
}

/// Whether all of a line is what the script says, and no line is wanted.
pub fn is_left(code: &[u8]) -> bool
    ensures left { result ≡ true → spec.left_of code.now ≡ code.now }
    ensures wanted { result ≡ true → spec.wanted_of code.now ≡ None }
{
    starts_with_word(code) && has_no_sign(code)
}

/// Whether a word is the sign before a wanted line.
fn is_sign(word: &[u8]) -> bool
    ensures { result ≡ spec.is_sign word.now }
{
    word == b"=".as_slice()
}

/// The part of a line that the script says, before the sign.
pub fn left_of(alloc: Global, code: &[u8]) -> Result<Vec<u8>, NoMemory>
    ensures { IfOk result (λ left. left.items ≡ spec.left_of code.now) }
{
    let mut left = Vec::new(alloc);
    let mut parts = Parts::new(code, b' ');
    while let Some(word) = parts.next() {
        if is_sign(word) {
            return Ok(left);
        }
        add_word(&mut left, word)?;
    }
    Ok(left)
}

/// Words with one space between two of them.
fn joined(alloc: Global, mut words: Parts) -> Result<Vec<u8>, NoMemory>
    ensures { IfOk result (λ text. text.items ≡ spec.joined words.entry) }
{
    let mut text = Vec::new(alloc);
    while let Some(word) = words.next() {
        add_word(&mut text, word)?;
    }
    Ok(text)
}

/// The line that is wanted, if there is a sign.
pub fn wanted_of(alloc: Global, code: &[u8]) -> Result<Option<Vec<u8>>, NoMemory>
    ensures { IfOk result (λ wanted. option_map (λ text. text.items) wanted
        ≡ spec.wanted_of code.now) }
{
    let mut parts = Parts::new(code, b' ');
    while let Some(word) = parts.next() {
        if is_sign(word) {
            return wanted_text(alloc, parts);
        }
    }
    Ok(None)
}

/// These words as a wanted line.
fn wanted_text(alloc: Global, words: Parts) -> Result<Option<Vec<u8>>, NoMemory>
    ensures { IfOk result (λ wanted. option_map (λ text. text.items) wanted
        ≡ Some (spec.joined words.entry)) }
{
    Ok(Some(joined(alloc, words)?))
}

/// The number of a hex digit.
fn hex_value(digit: u8) -> Option<u32>
    ensures value { result ≡ model.hex_value digit }
    ensures small { IfSome result (λ value. value < 16) }
{
    match digit {
        b'0'..=b'9' => Some(u32::from(digit - b'0')),
        b'a'..=b'f' => Some(u32::from(digit - b'a') + 10),
        b'A'..=b'F' => Some(u32::from(digit - b'A') + 10),
        _ => None,
    }
}

/// The number of hex digits, if it is below 2^32.
fn hex_digits(digits: &[u8]) -> Option<u32>
    ensures { result ≡ spec.hex_digits digits.now }
{
    if digits.is_empty() {
        return None;
    }
    let mut number = 0u32;
    for digit in digits {
        match hex_value(*digit) {
            Some(value) if number < 268_435_456 => number = number * 16 + value,
            _ => return None,
        }
    }
    Some(number)
}

/// Whether a byte is a hex digit of either case.
fn is_hex_digit(digit: u8) -> bool
    ensures { result ≡ spec.is_hex_digit digit }
{
    hex_value(digit).is_some()
}

/// Whether all bytes are hex digits.
fn are_hex_digits(text: &[u8]) -> bool
    ensures { result ≡ list_all spec.is_hex_digit text.now }
{
    text.iter().all(|digit| is_hex_digit(*digit))
}

/// Whether a text could be the hex digits of an image.
pub fn is_hex(text: &[u8]) -> bool
    ensures { result ≡ spec.is_hex text.now }
{
    if text.len() < 2 || text.len() > IMAGE_DIGITS || text.len() % 2 != 0 {
        return false;
    }
    are_hex_digits(text)
}

/// The number of a word such as `0x2a`.
fn hex_number(word: &[u8]) -> Option<u32>
    ensures { result ≡ spec.hex_number word.now }
{
    if word.len() < 2 {
        return None;
    }
    let (sign, digits) = word.split_at(2);
    if sign == b"0x".as_slice() {
        hex_digits(digits)
    } else {
        None
    }
}

/// Puts a word of an instruction behind a text: a number in hex becomes one in decimal.
pub fn add_plain_word(text: &mut Vec<u8>, word: &[u8]) -> Result<(), NoMemory>
    ensures { OnOk result (text.new.items ≡ spec.with_word text.old.items
        (spec.plain_word word.now)) }
{
    match hex_number(word) {
        None => add_word(text, word),
        Some(number) => {
            let mut digits = itoa::Buffer::new();
            add_word(text, digits.format(number).as_bytes())
        }
    }
}

/// The numbers of a word, with a comma between two of them.
pub fn numbers_of(alloc: Global, word: &[u8]) -> Result<Option<Vec<u64>>, NoMemory>
    ensures { IfOk result (λ numbers. option_map (λ ns. ns.items) numbers
        ≡ spec.numbers_of word.now) }
{
    let mut numbers = Vec::new(alloc);
    let mut parts = Parts::new(word, b',');
    while let Some(part) = parts.next() {
        let Some(number) = number_of(part) else {
            return Ok(None);
        };
        if numbers.push(u64::from(number)).is_err() {
            return Err(NoMemory);
        }
    }
    Ok(Some(numbers))
}
