//! The script of a test without the grafts of a submission.

ghost use Rattle.std.specs.Prelude.{◌≡◌, ◌++◌, IfOk, OnOk};
ghost use Rattle.std.specs.List.{list_any};
ghost use Rattle.kernel_data.specs.World.{same_bytes};
ghost use Rattle.lab_scoring.specs.Stock as spec;

use kernel_data::NoMemory;
use lab_places::{Span, word_span};
use lab_reader::Text;
use std::alloc::Global;
use text_words::{Parts, append};

/// The bytes of a span; nothing where it isn't in the line.
fn bytes_of(line: &[u8], span: Span) -> &[u8]
    ensures { result.now ≡ spec.bytes_of line.now span }
{
    if span.from <= span.to && span.to <= line.len() {
        &line[span.from..span.to]
    } else {
        &[]
    }
}

/// The k-th word of a line, from 0; nothing past their end.
fn word_in(line: &[u8], k: usize) -> &[u8]
    ensures { result.now ≡ spec.word_in line.now k }
{
    match word_span(line, 0, line.len(), k) {
        Some(span) => bytes_of(line, span),
        None => &[],
    }
}

/// Whether a graft of this name is one of those that a submission gives.
fn is_given(gives: &[Text], name: &[u8]) -> bool
    ensures { result ≡ list_any (λ given. same_bytes name.now given) gives.now }
{
    gives.iter().any(|given| name == given.bytes())
}

/// Whether a line loads the image of a graft that a submission gives.
fn loads_given(gives: &[Text], line: &[u8]) -> bool
    ensures { result ≡ spec.loads_given gives.now line.now }
{
    word_in(line, 0) == b"image".as_slice() && is_given(gives, word_in(line, 2))
}

/// Whether a line is a wanted line of the one above it.
fn is_wanted(line: &[u8]) -> bool
    ensures { result ≡ spec.is_wanted line.now }
{
    word_in(line, 0) == b"=".as_slice()
}

/// Whether a line is left out, behind one of which `above` says whether it is.
fn is_left_out(gives: &[Text], above: bool, line: &[u8]) -> bool
    ensures { result ≡ spec.is_left_out gives.now above line.now }
{
    loads_given(gives, line) || (above && is_wanted(line))
}

/// Appends a line, or an empty one in its place.
fn append_kept(out: &mut Vec<u8>, is_out: bool, line: &[u8]) -> Result<(), NoMemory>
    ensures { OnOk result (out.new.items ≡ out.old.items ++ spec.kept_line is_out line.now) }
{
    if !is_out {
        append(out, line)?;
    }
    append(out, b"\n")
}

/// The script of a test in which each line is empty that loads the image of a graft that a submission
/// gives, with the wanted lines below it. So nothing is in its slot, and where it would be installed
/// the call is refused (E9).
pub fn stock_script(alloc: Global, gives: &[Text], script: &[u8]) -> Result<Vec<u8>, NoMemory>
    ensures { IfOk result (λ text. text.items ≡ spec.stock_of gives.now script.now) }
{
    let mut text = Vec::new(alloc);
    let mut lines = Parts::new(script, b'\n');
    let mut above = false;
    while let Some(line) = lines.next() {
        above = is_left_out(gives, above, line);
        append_kept(&mut text, above, line)?;
    }
    Ok(text)
}
