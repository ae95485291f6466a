//! How many digits a number has.

ghost use Rattle.std.specs.Prelude.{◌≡◌, ◌<◌, length, decimal};

/// How many decimal digits a number below 10,000 has.
fn count_few(n: u64) -> usize
    requires { n < 10000 }
    ensures { result ≡ length (decimal n) }
{
    if n < 10 {
        1
    } else if n < 100 {
        2
    } else if n < 1000 {
        3
    } else {
        4
    }
}

/// How many decimal digits a number has: 1 to 20.
pub(crate) fn count_digits(n: u64) -> usize
    ensures { result ≡ length (decimal n) }
{
    if n < 10_000 {
        return count_few(n);
    }
    4 + count_digits(n / 10_000)
}
