//! Words of lines, and text that grows.

use kernel_data::NoMemory;
use text_words::{append, append_number, number_of, word_at};

/// The number that the k-th word of a line is.
pub fn number_at(line: &[u8], k: usize) -> Option<u32> {
    number_of(word_at(line, k))
}

/// Appends a number.
pub fn add_number(out: &mut Vec<u8>, n: usize) -> Result<(), NoMemory> {
    append_number(out, u32::try_from(n).unwrap_or(u32::MAX))
}

/// Appends a word in quotes.
pub fn add_quoted(out: &mut Vec<u8>, word: &[u8]) -> Result<(), NoMemory> {
    append(out, b"'")?;
    append(out, word)?;
    append(out, b"'")
}

/// Appends `name`, the k-th word of a line, and what is said of it.
pub fn add_ranged(
    out: &mut Vec<u8>,
    name: &[u8],
    line: &[u8],
    k: usize,
    said: &[u8],
) -> Result<(), NoMemory> {
    append(out, name)?;
    append(out, word_at(line, k))?;
    append(out, said)
}
