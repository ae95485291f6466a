//! One line of hex.

ghost use Rattle.std.specs.Prelude.{◌≡◌, ◌≤◌, ◌==◌, length, codes, position, Some, None, IfOk, IfErr};
ghost use Rattle.std.specs.List.{position_or_len};
ghost use Rattle.script_model.specs.Bytes.{hex_bytes, hex_word};
ghost use Rattle.script_model.specs.Filters as spec;
ghost use Rattle.commands.specs.Lines.{bytes_view, line_view};

use hex::FromHexError;
use script_model::NoMemory;
use std::alloc::Global;

/// The most hex digits of a line.
const MOST_DIGITS: usize = 16_777_214;

/// What an input of one line of hex says.
#[derive(Drop)]
pub(crate) enum HexLine {
    /// These bytes.
    Bytes(Vec<u8>),
    /// The line isn't 2 to 16,777,214 hex digits, an even number.
    NoHex,
    /// The line has no newline.
    Unfinished,
    /// Bytes stand behind the newline.
    MoreBehind,
}

/// The bytes of hex digits, if they are an even number of them.
fn decoded(alloc: Global, digits: &[u8]) -> Result<Option<Vec<u8>>, NoMemory>
    ensures { IfOk result (λ found. bytes_view found ≡ hex_bytes digits.now) }
{
    match hex::decode(alloc, digits) {
        Ok(bytes) => Ok(Some(bytes)),
        Err(fault) => match fault {
            FromHexError::OutOfMemory => Err(NoMemory),
            _ => Ok(None),
        },
    }
}

/// The bytes of 2 to 16,777,214 hex digits.
fn decoded_word(alloc: Global, digits: &[u8]) -> Result<Option<Vec<u8>>, NoMemory>
    ensures { IfOk result (λ found. bytes_view found ≡ hex_word 16777214 digits.now) }
{
    if digits.len() < 2 || digits.len() > MOST_DIGITS {
        return Ok(None);
    }
    decoded(alloc, digits)
}

/// The place of the first newline.
fn newline_at(input: &[u8]) -> Option<usize>
    ensures { result ≡ position (λ b. b == 10) input.now }
{
    input.iter().position(|byte| *byte == b'\n')
}

/// Where the first line ends, before its newline if it has one.
fn line_end(input: &[u8]) -> usize
    ensures value { result ≡ position_or_len (λ b. b == 10) input.now }
    ensures within { result ≤ length input.now }
{
    match newline_at(input) {
        Some(end) => end,
        None => input.len(),
    }
}

/// What an input says that should be one line of hex.
pub(crate) fn read_hex_line(alloc: Global, input: &[u8]) -> Result<HexLine, NoMemory>
    ensures { IfOk result (λ said. line_view said ≡ spec.hex_line input.now) }
{
    let (digits, rest) = input.split_at(line_end(input));
    let Some(bytes) = decoded_word(alloc, digits)? else {
        return Ok(HexLine::NoHex);
    };
    if rest.is_empty() {
        return Ok(HexLine::Unfinished);
    }
    if rest.len() > 1 {
        return Ok(HexLine::MoreBehind);
    }
    Ok(HexLine::Bytes(bytes))
}
