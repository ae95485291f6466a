//! The cells of a text: bytes, hex digits and numbers are put behind the first ones, which are the
//! text so far. Each function is told how many those are, and says how many there are then, so that
//! this count need not go through memory between two parts of a line.

ghost use Rattle.std.specs.Prelude.{◌≡◌, ◌≤◌, ◌+◌, ◌*◌, ◌++◌, length, take, decimal};
ghost use Rattle.script_model.specs.Bytes.{hex_text};

use crate::digits::count_digits;

/// The most bytes of a text.
pub(crate) const TEXT_BYTES: usize = 2048;

/// The cells that a text lies in. Those behind it stay as they are, so that forgetting a text takes
/// no time.
pub(crate) type Cells = [u8; TEXT_BYTES];

/// Bytes.
pub(crate) fn add(out: &mut Cells, at: usize, bytes: &[u8]) -> usize
    requires { at + length bytes.now ≤ 2048 }
    ensures text { take result out.new ≡ take at out.old ++ bytes.now }
    ensures end { result ≡ at + length bytes.now }
{
    out[at..at + bytes.len()].copy_from_slice(bytes);
    at + bytes.len()
}

/// Bytes as hex digits of lower case.
pub(crate) fn hex_digits(out: &mut Cells, at: usize, bytes: &[u8]) -> usize
    requires { at + 2 * length bytes.now ≤ 2048 }
    ensures text { take result out.new ≡ take at out.old ++ hex_text bytes.now }
    ensures end { result ≡ at + 2 * length bytes.now }
{
    let end = at + 2 * bytes.len();
    hex_tables::encode(bytes, &mut out[at..end]);
    end
}

/// A number that has so many decimal digits. It is always inlined: where their count is a constant,
/// they are put without a loop.
#[inline(always)]
fn put_digits(out: &mut Cells, at: usize, n: u64, digits: usize) -> usize
    requires count { digits ≡ length (decimal n) }
    requires room { at + digits ≤ 2048 }
    ensures text { take result out.new ≡ take at out.old ++ decimal n }
    ensures end { result ≡ at + length (decimal n) }
{
    itoa::write_digits(n, out, at + digits);
    at + digits
}

/// A number.
pub(crate) fn number(out: &mut Cells, at: usize, n: u64) -> usize
    requires { at + length (decimal n) ≤ 2048 }
    ensures text { take result out.new ≡ take at out.old ++ decimal n }
    ensures end { result ≡ at + length (decimal n) }
{
    if n < 10 {
        return put_digits(out, at, n, 1);
    }
    if n < 100 {
        return put_digits(out, at, n, 2);
    }
    if n < 1000 {
        return put_digits(out, at, n, 3);
    }
    if n < 10_000 {
        return put_digits(out, at, n, 4);
    }
    if n < 100_000 {
        return put_digits(out, at, n, 5);
    }
    if n < 1_000_000 {
        return put_digits(out, at, n, 6);
    }
    long_number(out, at, n)
}

/// A number of any length. It stands apart, so that a short one costs less.
#[inline(never)]
fn long_number(out: &mut Cells, at: usize, n: u64) -> usize
    requires { at + length (decimal n) ≤ 2048 }
    ensures text { take result out.new ≡ take at out.old ++ decimal n }
    ensures end { result ≡ at + length (decimal n) }
{
    put_digits(out, at, n, count_digits(n))
}
