//! Text that is written as one line.

use kernel_data::NoMemory;
use text_words::append;

/// Appends a number.
pub(crate) fn add_number(out: &mut Vec<u8>, n: usize) -> Result<(), NoMemory> {
    let mut digits = itoa::Buffer::new();
    append(out, digits.format(n).as_bytes())
}

/// Appends a text, with `?` for each control sign in it.
pub(crate) fn add_plain(out: &mut Vec<u8>, text: &[u8]) -> Result<(), NoMemory> {
    for byte in text {
        let shown = if *byte < 32 || *byte == 127 {
            b'?'
        } else {
            *byte
        };
        append(out, &[shown])?;
    }
    Ok(())
}

/// Appends so many spaces.
pub(crate) fn add_spaces(out: &mut Vec<u8>, count: usize) -> Result<(), NoMemory> {
    for _ in 0..count {
        append(out, b" ")?;
    }
    Ok(())
}

/// A text without the newline at its end.
pub(crate) fn without_newline(text: &[u8]) -> &[u8] {
    match text {
        [front @ .., b'\n'] => front,
        _ => text,
    }
}
