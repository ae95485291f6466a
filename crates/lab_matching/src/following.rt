//! Lines that follow wanted ones.

ghost use Rattle.std.specs.Prelude.{◌≡◌};
ghost use Rattle.lab_matching.specs.Matching as spec;

use crate::owners::Line;
use lab_lines::is_wanted;

/// Whether a wanted line stands for any lines.
fn is_any(want: &[u8]) -> bool
    ensures { result ≡ spec.is_any want.now }
{
    want == b"..".as_slice()
}

/// Whether the first line is the one that is wanted.
fn is_first(want: &[u8], lines: &[Line]) -> bool
    ensures { result ≡ spec.is_first want.now lines.now }
{
    match lines.split_first() {
        None => false,
        Some((line, _)) => is_wanted(want, line.bytes),
    }
}

/// Whether lines are those that are wanted, each in its place; `..` stands for any lines, none too.
#[cycle(following)]
pub fn follows(wants: &[Line], lines: &[Line]) -> bool
    ensures { result ≡ spec.follows wants.now lines.now }
{
    match wants.split_first() {
        None => lines.is_empty(),
        Some((want, others)) => {
            if is_any(want.bytes) {
                return some_suffix(others, lines);
            }
            is_first(want.bytes, lines) && follows(others, &lines[1..])
        }
    }
}

/// Whether all of these lines are those that are wanted, or what is left of them behind some of the
/// first ones.
#[cycle(following)]
fn some_suffix(wants: &[Line], lines: &[Line]) -> bool
    ensures { result ≡ spec.some_suffix (spec.follows wants.now) lines.now }
{
    for i in 0..lines.len() {
        if follows(wants, &lines[i..]) {
            return true;
        }
    }
    follows(wants, &[])
}
