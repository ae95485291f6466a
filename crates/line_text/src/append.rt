//! Numbers and data are put behind the first cells, as bytes are. Each function says how much room
//! it needs.

ghost use Rattle.std.specs.Prelude.{◌≡◌, ◌<◌, ◌≤◌, ◌+◌, ◌*◌, ◌∷◌, ◌++◌, length, take, decimal};
ghost use Rattle.script_model.specs.Bytes.{spaced};
ghost use Rattle.script_model.specs.Text.{after_colon, all_spaced, data_text};

use crate::cells::{Cells, add, hex_digits, number};

/// A number of at most 3 digits.
pub(crate) fn number_u8(out: &mut Cells, at: usize, n: u8) -> usize
    requires { at + 3 ≤ 2048 }
    ensures text { take result out.new ≡ take at out.old ++ decimal n }
    ensures end { result ≤ at + 3 }
{
    number(out, at, u64::from(n))
}

/// A number of at most 10 digits.
pub(crate) fn number_u32(out: &mut Cells, at: usize, n: u32) -> usize
    requires { at + 10 ≤ 2048 }
    ensures text { take result out.new ≡ take at out.old ++ decimal n }
    ensures end { result ≤ at + 10 }
{
    number(out, at, u64::from(n))
}

/// A number of at most 20 digits.
fn number_u64(out: &mut Cells, at: usize, n: u64) -> usize
    requires { at + 20 ≤ 2048 }
    ensures text { take result out.new ≡ take at out.old ++ decimal n }
    ensures end { result ≤ at + 20 }
{
    number(out, at, n)
}

/// A byte and a digit.
fn digit(out: &mut Cells, at: usize, before: u8, n: u8) -> usize
    requires room { at + 2 ≤ 2048 }
    requires digit { n < 10 }
    ensures text { take result out.new ≡ take at out.old ++ before ∷ decimal n }
    ensures end { result ≤ at + 2 }
{
    add(out, at, [before, b'0' + n].as_slice())
}

/// A space and a number.
pub(crate) fn spaced_u8(out: &mut Cells, at: usize, n: u8) -> usize
    requires { at + 4 ≤ 2048 }
    ensures text { take result out.new ≡ take at out.old ++ spaced n }
    ensures end { result ≤ at + 4 }
{
    if n < 10 {
        return digit(out, at, b' ', n);
    }
    let at = add(out, at, b" ".as_slice());
    number_u8(out, at, n)
}

/// A space and a number.
pub(crate) fn spaced_u32(out: &mut Cells, at: usize, n: u32) -> usize
    requires { at + 11 ≤ 2048 }
    ensures text { take result out.new ≡ take at out.old ++ spaced n }
    ensures end { result ≤ at + 11 }
{
    if n < 10 {
        return digit(out, at, b' ', n as u8);
    }
    let at = add(out, at, b" ".as_slice());
    number_u32(out, at, n)
}

/// A space and a number.
pub(crate) fn spaced_u64(out: &mut Cells, at: usize, n: u64) -> usize
    requires { at + 21 ≤ 2048 }
    ensures text { take result out.new ≡ take at out.old ++ spaced n }
    ensures end { result ≤ at + 21 }
{
    if n < 10 {
        return digit(out, at, b' ', n as u8);
    }
    let at = add(out, at, b" ".as_slice());
    number_u64(out, at, n)
}

/// A colon and a number.
pub(crate) fn colon_u8(out: &mut Cells, at: usize, n: u8) -> usize
    requires { at + 4 ≤ 2048 }
    ensures text { take result out.new ≡ take at out.old ++ after_colon n }
    ensures end { result ≤ at + 4 }
{
    if n < 10 {
        return digit(out, at, b':', n);
    }
    let at = add(out, at, b":".as_slice());
    number_u8(out, at, n)
}

/// A colon and a number.
pub(crate) fn colon_u32(out: &mut Cells, at: usize, n: u32) -> usize
    requires { at + 11 ≤ 2048 }
    ensures text { take result out.new ≡ take at out.old ++ after_colon n }
    ensures end { result ≤ at + 11 }
{
    if n < 10 {
        return digit(out, at, b':', n as u8);
    }
    let at = add(out, at, b":".as_slice());
    number_u32(out, at, n)
}

/// Numbers, each after a space.
pub(crate) fn all_u32(out: &mut Cells, at: usize, ns: &[u32]) -> usize
    requires { at + 11 * length ns.now ≤ 2048 }
    ensures text { take result out.new ≡ take at out.old ++ all_spaced ns.now }
    ensures end { result ≤ at + 11 * length ns.now }
{
    let mut at = at;
    for n in ns {
        at = spaced_u32(out, at, *n);
    }
    at
}

/// Numbers, each after a space.
pub(crate) fn all_u64(out: &mut Cells, at: usize, ns: &[u64]) -> usize
    requires { at + 21 * length ns.now ≤ 2048 }
    ensures text { take result out.new ≡ take at out.old ++ all_spaced ns.now }
    ensures end { result ≤ at + 21 * length ns.now }
{
    let mut at = at;
    for n in ns {
        at = spaced_u64(out, at, *n);
    }
    at
}

/// A space and bytes as hex digits, or nothing where there are no bytes.
pub(crate) fn data(out: &mut Cells, at: usize, bytes: &[u8]) -> usize
    requires room { at ≤ 1000 }
    requires block { length bytes.now ≤ 512 }
    ensures text { take result out.new ≡ take at out.old ++ data_text bytes.now }
    ensures end { result ≤ at + 1025 }
{
    if bytes.is_empty() {
        return at;
    }
    let at = add(out, at, b" ".as_slice());
    hex_digits(out, at, bytes)
}
