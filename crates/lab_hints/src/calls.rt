//! Which number of a refused call is out of which range.

use crate::numbers::{add_number, add_ranged, number_at};
use kernel_data::NoMemory;
use text_words::{append, word_at};

/// The greatest number that isn't above a range.
fn is_above(line: &[u8], k: usize, last: u32) -> bool {
    match number_at(line, k) {
        Some(n) => n > last,
        None => true,
    }
}

/// A call with no such point, kind or policy.
pub fn tell_point(out: &mut Vec<u8>, line: &[u8]) -> Result<(), NoMemory> {
    match word_at(line, 0) {
        b"tune" => add_ranged(out, b"kind ", line, 2, b": kinds are 0 to 2"),
        b"default" => {
            if is_above(line, 2, 2) {
                return add_ranged(out, b"kind ", line, 2, b": kinds are 0 to 2");
            }
            if word_at(line, 2) == b"0".as_slice() {
                return add_ranged(
                    out,
                    b"policy ",
                    line,
                    3,
                    b": kind 0 has the policies 0 to 2",
                );
            }
            add_ranged(
                out,
                b"policy ",
                line,
                3,
                b": that kind has the policies 0 and 1",
            )
        }
        _ => add_ranged(out, b"point ", line, 2, b": points are 0 to 15"),
    }
}

/// A read or write whose bytes aren't in a block or in the file: the offset, and how many bytes.
fn tell_bytes(out: &mut Vec<u8>, line: &[u8], length: usize) -> Result<(), NoMemory> {
    let offset = match number_at(line, 4) {
        Some(n) => n as usize,
        None => 0,
    };
    if offset.saturating_add(length) > 512 {
        append(out, b"offset ")?;
        add_number(out, offset)?;
        append(out, b" and length ")?;
        add_number(out, length)?;
        return append(out, b" are more than 512 together");
    }
    add_ranged(
        out,
        b"block ",
        line,
        3,
        b" of the file, or these bytes of it, aren't there",
    )
}

/// A parameter or its value.
fn tell_parameter(out: &mut Vec<u8>, line: &[u8]) -> Result<(), NoMemory> {
    if is_above(line, 3, 0) {
        return add_ranged(
            out,
            b"parameter ",
            line,
            3,
            b": policies have parameter 0 or none",
        );
    }
    let said: &[u8] = match word_at(line, 2) {
        b"0" => b": policies 1 and 2 of kind 0 take 0 to 8, policy 0 has no parameter",
        b"1" => b": policy 1 of kind 1 takes 0 to 255, policy 0 has no parameter",
        _ => b": policy 1 of kind 2 takes 0 to 39, policy 0 has no parameter",
    };
    add_ranged(out, b"value ", line, 4, said)
}

/// A call with a number out of its range.
pub fn tell_range(out: &mut Vec<u8>, line: &[u8]) -> Result<(), NoMemory> {
    match word_at(line, 0) {
        b"image" => add_ranged(out, b"slot ", line, 1, b": slots are 0 to 31"),
        b"step" => add_ranged(
            out,
            b"",
            line,
            2,
            b" instructions: 1 to 65536 are taken up at once",
        ),
        b"lock" | b"unlock" => {
            add_ranged(out, b"user lock ", line, 2, b": user locks are 0 to 15")
        }
        b"poke" | b"peek" => add_ranged(out, b"cell ", line, 2, b": cells are 0 to 3"),
        b"install" => add_ranged(out, b"limit ", line, 4, b": limits are 1 to 65536"),
        b"serve" => add_ranged(out, b"port ", line, 2, b": ports are 0 to 7"),
        b"tune" => tell_parameter(out, line),
        b"read" | b"sread" => {
            let length = match number_at(line, 5) {
                Some(n) => n as usize,
                None => 0,
            };
            tell_bytes(out, line, length)
        }
        b"write" | b"swrite" => tell_bytes(out, line, word_at(line, 5).len() / 2),
        _ => Ok(()),
    }
}

/// A file that there isn't, on the sample disk or on a file's.
pub fn tell_file(out: &mut Vec<u8>, line: &[u8], is_sample: bool) -> Result<(), NoMemory> {
    add_ranged(out, b"'", line, 2, b"'")?;
    append(
        out,
        if is_sample {
            b": the sample disk has alpha, beta and gamma".as_slice()
        } else {
            b": the directory of the disk has no usable entry of that name".as_slice()
        },
    )
}
