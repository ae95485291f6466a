//! Text that grows.

ghost use Rattle.std.specs.Prelude.{◌≡◌, ◌++◌, decimal, OnOk};
ghost use Rattle.lab_lines.specs.Told as spec;

use kernel_data::NoMemory;
use text_words::append;

/// Appends a number.
pub(crate) fn add_number(out: &mut Vec<u8>, n: usize) -> Result<(), NoMemory>
    ensures { OnOk result (out.new.items ≡ out.old.items ++ decimal n) }
{
    let mut digits = itoa::Buffer::new();
    append(out, digits.format(n).as_bytes())
}

/// Spaces before a number, up to four bytes in all.
fn spaces_before(n: usize) -> &'static [u8]
    ensures { result.now ≡ spec.spaces_before n }
{
    if n < 10 {
        b"   "
    } else if n < 100 {
        b"  "
    } else if n < 1000 {
        b" "
    } else {
        b""
    }
}

/// Appends a number, with spaces before it up to four bytes in all.
pub(crate) fn add_number_right(out: &mut Vec<u8>, n: usize) -> Result<(), NoMemory>
    ensures { OnOk result (out.new.items ≡ out.old.items ++ spec.spaces_before n ++ decimal n) }
{
    append(out, spaces_before(n))?;
    add_number(out, n)
}
