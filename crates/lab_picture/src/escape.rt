//! Text behind a text of SVG.

ghost use Rattle.std.specs.Prelude.{◌≡◌, ◌≤◌, ◌<◌, ◌++◌, flat_map, length, OnOk};
ghost use Rattle.lab_picture.specs.Escapes as spec;

use kernel_data::NoMemory;
use text_words::append;

/// Appends a byte of a text: a sign of SVG by its name, and `?` for what is no printable sign of
/// ASCII.
fn append_escaped(out: &mut Vec<u8>, byte: u8) -> Result<(), NoMemory>
    ensures { OnOk result (out.new.items ≡ out.old.items ++ spec.escaped byte) }
{
    match byte {
        b'<' => append(out, b"&lt;"),
        b'>' => append(out, b"&gt;"),
        b'&' => append(out, b"&amp;"),
        b'"' => append(out, b"&quot;"),
        b' '..=b'~' => append(out, &[byte]),
        _ => append(out, b"?"),
    }
}

/// Appends a text, so that no byte of it is read as SVG.
pub fn append_text(out: &mut Vec<u8>, text: &[u8]) -> Result<(), NoMemory>
    ensures { OnOk result (out.new.items ≡ out.old.items ++ flat_map spec.escaped text.now) }
{
    for byte in text {
        append_escaped(out, *byte)?;
    }
    Ok(())
}

/// The place of the last space of a text up to a place; 0 where there is none.
fn word_end(text: &[u8], most: usize) -> usize
    requires { most < length text.now }
    ensures value { result ≡ spec.word_end text.now most }
    ensures within { result ≤ most }
{
    let mut at = most;
    while at > 0 && text[at] != b' ' {
        at -= 1;
    }
    at
}

/// A text of at most so many signs; of a longer one the whole words that fit in front of a mark.
pub fn fitted(text: &[u8], most: usize) -> &[u8]
    ensures { result.now ≡ spec.fitted most text.now }
{
    if text.len() <= most {
        text
    } else {
        &text[..word_end(text, most.saturating_sub(3))]
    }
}

/// Appends the mark of a text that goes on behind these words.
fn append_mark(out: &mut Vec<u8>, kept: &[u8]) -> Result<(), NoMemory>
    ensures { OnOk result (out.new.items ≡ out.old.items ++ spec.mark kept.now) }
{
    if kept.is_empty() {
        append(out, b"..")
    } else {
        append(out, b" ..")
    }
}

/// Appends the first words of a text, with a mark behind them, and all of it as a title.
fn append_cut(out: &mut Vec<u8>, text: &[u8], kept: &[u8]) -> Result<(), NoMemory>
    ensures { OnOk result (out.new.items ≡ out.old.items ++ spec.cut text.now kept.now) }
{
    append(out, b"<title>")?;
    append_text(out, text)?;
    append(out, b"</title>")?;
    append_text(out, kept)?;
    append_mark(out, kept)
}

/// Appends a text whole where it has at most so many signs; else its first words, with a mark behind
/// them, and all of it as a title.
pub fn append_shown(out: &mut Vec<u8>, text: &[u8], most: usize) -> Result<(), NoMemory>
    ensures { OnOk result (out.new.items ≡ out.old.items ++ spec.shown most text.now) }
{
    if text.len() <= most {
        return append_text(out, text);
    }
    append_cut(out, text, fitted(text, most))
}
