//! Lines of a quiz behind others.

ghost use Rattle.std.specs.Prelude.{◌≡◌, ◌++◌, None, OnOk};
ghost use Rattle.lab_lines.specs.Told.{FileLine, End, Wrote, shown};
ghost use Rattle.lab_lines.specs.Told as spec;

use kernel_data::NoMemory;
use text_words::append;

/// A text that may stand in a line.
fn one_line(text: &[u8]) -> &[u8]
    ensures { result.now ≡ spec.one_line text.now }
{
    if text.contains(&b'\n') { b"?" } else { text }
}

/// Spaces before a number, up to four bytes in all.
fn spaces_before(n: usize) -> &'static [u8]
    ensures { result.now ≡ spec.spaces_before n }
{
    if n < 10 {
        b"   "
    } else if n < 100 {
        b"  "
    } else if n < 1000 {
        b" "
    } else {
        b""
    }
}

/// Appends a line of the file.
pub(crate) fn add_file_line(out: &mut Vec<u8>, number: usize, text: &[u8]) -> Result<(), NoMemory>
    ensures { OnOk result (out.new.items ≡ out.old.items ++ shown (FileLine number text.now)) }
{
    let mut digits = itoa::Buffer::new();
    append(out, spaces_before(number))?;
    append(out, digits.format(number).as_bytes())?;
    append(out, b"  ")?;
    append(out, one_line(text))?;
    append(out, b"\n")
}

/// Appends a line of the quiz.
pub(crate) fn add_line(out: &mut Vec<u8>, line: &[u8]) -> Result<(), NoMemory>
    ensures { OnOk result (out.new.items ≡ out.old.items ++ shown (Wrote line.now None)) }
{
    append(out, b"        ")?;
    append(out, line)?;
    append(out, b"\n")
}

/// Appends what stands above the lines that belong to no line of the file.
pub(crate) fn add_end(out: &mut Vec<u8>) -> Result<(), NoMemory>
    ensures { OnOk result (out.new.items ≡ out.old.items ++ shown End) }
{
    append(out, b" end\n")
}
