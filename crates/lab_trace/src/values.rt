//! Values of a state as JSON.

use kernel_data::NoMemory;
use lab_state::append_quoted;
use std::alloc::Global;
use text_words::{append, append_number};

/// Appends a number of 64 bits in decimal.
pub fn append_amount(out: &mut Vec<u8>, n: u64) -> Result<(), NoMemory> {
    let mut digits = itoa::Buffer::new();
    append(out, digits.format(n).as_bytes())
}

/// Appends `true` or `false`.
pub fn append_truth(out: &mut Vec<u8>, truth: bool) -> Result<(), NoMemory> {
    append(
        out,
        if truth {
            b"true".as_slice()
        } else {
            b"false".as_slice()
        },
    )
}

/// Appends a number, or `null`.
pub fn append_maybe(out: &mut Vec<u8>, n: Option<u32>) -> Result<(), NoMemory> {
    match n {
        Some(n) => append_number(out, n),
        None => append(out, b"null"),
    }
}

/// A number.
pub fn number(alloc: Global, n: u32) -> Result<Vec<u8>, NoMemory> {
    let mut value = Vec::new(alloc);
    append_number(&mut value, n)?;
    Ok(value)
}

/// `true` or `false`.
pub fn truth(alloc: Global, truth: bool) -> Result<Vec<u8>, NoMemory> {
    let mut value = Vec::new(alloc);
    append_truth(&mut value, truth)?;
    Ok(value)
}

/// A text.
pub fn text(alloc: Global, bytes: &[u8]) -> Result<Vec<u8>, NoMemory> {
    let mut value = Vec::new(alloc);
    append_quoted(&mut value, bytes)?;
    Ok(value)
}

/// A number, or `null`.
pub fn maybe(alloc: Global, n: Option<u32>) -> Result<Vec<u8>, NoMemory> {
    let mut value = Vec::new(alloc);
    append_maybe(&mut value, n)?;
    Ok(value)
}

/// Appends a number of a list, behind a comma where it isn't the first.
fn append_next(out: &mut Vec<u8>, i: usize, n: u32) -> Result<(), NoMemory> {
    if i > 0 {
        append(out, b",")?;
    }
    append_number(out, n)
}

/// A list of numbers.
pub fn numbers(alloc: Global, list: &[u32]) -> Result<Vec<u8>, NoMemory> {
    let mut value = Vec::new(alloc);
    append(&mut value, b"[")?;
    for (i, n) in list.iter().enumerate() {
        append_next(&mut value, i, *n)?;
    }
    append(&mut value, b"]")?;
    Ok(value)
}

/// A list of three amounts.
pub fn amounts(alloc: Global, steps: u64, records: u64, locks: u64) -> Result<Vec<u8>, NoMemory> {
    let mut value = Vec::new(alloc);
    append(&mut value, b"[")?;
    append_amount(&mut value, steps)?;
    append(&mut value, b",")?;
    append_amount(&mut value, records)?;
    append(&mut value, b",")?;
    append_amount(&mut value, locks)?;
    append(&mut value, b"]")?;
    Ok(value)
}
