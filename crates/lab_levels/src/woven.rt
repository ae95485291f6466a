//! What the kernel wrote, with the lines of the watcher between its parts.

ghost use Rattle.std.specs.Prelude.{◌≡◌, ◌≤◌, ◌++◌, length, map, slice_range, IfOk, OnOk};
ghost use Rattle.lab_levels.specs.Lines.{lines_in, AreWithin};
ghost use Rattle.lab_levels.specs.Woven.{own_line, shown, woven, Weaves, WeavesLines};
ghost use Rattle.lab_levels.specs.Woven as spec;

use crate::own_lines::{OwnLine, OwnLines};
use script_model::NoMemory;
use std::alloc::Global;
use text_words::append;

/// A byte of a line as it is shown.
fn shown(byte: u8) -> u8
    ensures { result ≡ shown byte }
{
    if byte < b' ' { b'?' } else { byte }
}

/// Appends the bytes of a line as they are shown.
fn append_shown(out: &mut Vec<u8>, line: &[u8]) -> Result<(), NoMemory>
    ensures { OnOk result (out.new.items ≡ out.old.items ++ map shown line.now) }
{
    for byte in line {
        append(out, &[shown(*byte)])?;
    }
    Ok(())
}

/// Appends a line of the watcher.
fn append_own(out: &mut Vec<u8>, line: &[u8]) -> Result<(), NoMemory>
    ensures { OnOk result (out.new.items ≡ out.old.items ++ own_line line.now) }
{
    append(out, b"| ")?;
    append_shown(out, line)?;
    append(out, b"\n")
}

/// Appends the kernel's bytes from one place to another, and then a line of the watcher.
fn append_both(
    out: &mut Vec<u8>,
    kernel: &[u8],
    at: usize,
    to: usize,
    line: &[u8],
) -> Result<(), NoMemory>
    requires order { at ≤ to }
    requires inside { to ≤ length kernel.now }
    ensures { OnOk result (out.new.items
        ≡ out.old.items ++ slice_range kernel.now at to ++ own_line line.now) }
{
    append(out, &kernel[at..to])?;
    append_own(out, line)
}

/// Whether bytes are none, or end with a newline.
fn is_whole(bytes: &[u8]) -> bool
    ensures { result ≡ spec.is_whole bytes.now }
{
    bytes.is_empty() || bytes[bytes.len() - 1] == b'\n'
}

/// Where a line stands, behind one that stands at `at`: no earlier than that and no later than the
/// end, and behind a whole line of the kernel.
fn place_of(line: OwnLine, kernel: &[u8], at: usize) -> usize
    requires { at ≤ length kernel.now }
    ensures place { result ≡ spec.standing kernel.now at line.place }
    ensures order { at ≤ result }
    ensures inside { result ≤ length kernel.now }
{
    let to = line.place.max(at).min(kernel.len());
    if is_whole(&kernel[at..to]) { to } else { at }
}

/// The kernel's bytes with these lines, whose texts stand among others, between parts of them.
pub(crate) fn weave_lines(
    alloc: Global,
    kernel: &[u8],
    texts: &[u8],
    lines: &[OwnLine],
) -> Result<Vec<u8>, NoMemory>
    requires { AreWithin (length texts.now) lines.now }
    ensures { IfOk result (λ text.
        text.items ≡ woven kernel.now 0 (lines_in texts.now lines.now)) }
{
    let mut out = Vec::new(alloc);
    let mut at = 0;
    for line in lines {
        let to = place_of(*line, kernel, at);
        append_both(&mut out, kernel, at, to, &texts[line.from..line.to])?;
        at = to;
    }
    append(&mut out, &kernel[at..])?;
    Ok(out)
}

/// The bytes that the kernel wrote, all and in their order, with the lines of the watcher between
/// parts of them.
#[tactic(auto, using(crate::proofs::Weaving::weaves, crate::proofs::Weaving::weaves_lines))]
pub fn weave(alloc: Global, kernel: &[u8], own: &OwnLines) -> Result<Vec<u8>, NoMemory>
    // Nothing of the kernel is changed or left out.
    ensures kernel { IfOk result (λ text. Weaves text.items kernel.now) }
    // Nor is a line of the watcher.
    ensures own { IfOk result (λ text. WeavesLines text.items kernel.now own.now.lines) }
    // And each of them stands at its place.
    ensures places { IfOk result (λ text. text.items ≡ woven kernel.now 0 own.now.lines) }
{
    own.woven(alloc, kernel)
}
