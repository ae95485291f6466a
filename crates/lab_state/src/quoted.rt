//! Text and bytes as JSON has them.

ghost use Rattle.std.specs.Prelude.{◌≡◌, ◌<◌, ◌++◌, flat_map, OnOk};
ghost use Rattle.lab_state.specs.Quoted as spec;

use kernel_data::NoMemory;
use text_words::append;

/// A hex digit of lower case.
fn digit_of(n: u8) -> u8
    requires { n < 16 }
    ensures { result ≡ spec.hex_digit n }
{
    if n < 10 { b'0' + n } else { b'a' + (n - 10) }
}

/// Appends a byte as two hex digits of lower case.
fn append_byte(out: &mut Vec<u8>, byte: u8) -> Result<(), NoMemory>
    ensures { OnOk result (out.new.items ≡ out.old.items ++ spec.two_digits byte) }
{
    append(out, &[digit_of(byte / 16), digit_of(byte % 16)])
}

/// Appends bytes as hex digits of lower case, two for each.
pub fn append_hex(out: &mut Vec<u8>, bytes: &[u8]) -> Result<(), NoMemory>
    ensures { OnOk result (out.new.items
        ≡ out.old.items ++ flat_map spec.two_digits bytes.now) }
{
    for byte in bytes {
        append_byte(out, *byte)?;
    }
    Ok(())
}

/// Appends a byte of a text as it stands in a string of JSON.
fn append_escaped(out: &mut Vec<u8>, byte: u8) -> Result<(), NoMemory>
    ensures { OnOk result (out.new.items ≡ out.old.items ++ spec.escaped byte) }
{
    match byte {
        b'"' => append(out, b"\\\""),
        b'\\' => append(out, b"\\\\"),
        0..=31 => {
            append(out, b"\\u00")?;
            append_byte(out, byte)
        }
        _ => append(out, &[byte]),
    }
}

/// Appends the bytes of a text, escaped.
fn append_all(out: &mut Vec<u8>, text: &[u8]) -> Result<(), NoMemory>
    ensures { OnOk result (out.new.items ≡ out.old.items ++ flat_map spec.escaped text.now) }
{
    for byte in text {
        append_escaped(out, *byte)?;
    }
    Ok(())
}

/// Appends a text as a string of JSON, which is one where the text is UTF-8.
pub fn append_quoted(out: &mut Vec<u8>, text: &[u8]) -> Result<(), NoMemory>
    ensures { OnOk result (out.new.items ≡ out.old.items ++ spec.quoted text.now) }
{
    append(out, b"\"")?;
    append_all(out, text)?;
    append(out, b"\"")
}
