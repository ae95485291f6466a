//! The lines of a text.

ghost use Rattle.std.specs.Prelude.{◌≡◌, length, min};
ghost use Rattle.lab_places.specs.Places as spec;

use text_words::part_at;

/// Line n of a text, from 1, without its newline; line 0 is empty.
pub fn line_at(text: &[u8], n: usize) -> &[u8]
    ensures { result.now ≡ spec.line_at text.now n }
{
    if n == 0 {
        return &[];
    }
    part_at(text, b'\n', n - 1)
}

/// The number of the line in which this byte stands, and where the line begins.
pub fn line_of(text: &[u8], at: usize) -> (usize, usize)
    ensures number { result.0 ≡ spec.line_number text.now (min at (length text.now)) }
    ensures begin { result.1 ≡ spec.line_begin text.now (min at (length text.now)) }
{
    let mut number = 1usize;
    let mut from = 0;
    for i in 0..at.min(text.len()) {
        if text[i] == b'\n' {
            number += 1;
            from = i + 1;
        }
    }
    (number, from)
}
