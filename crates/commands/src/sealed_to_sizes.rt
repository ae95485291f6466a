//! What `check` answers to a line of hex.

ghost use Rattle.std.specs.Prelude.{◌≡◌, Ok, IfOk};
ghost use Rattle.script_model.specs.Images as images;
ghost use Rattle.script_model.specs.Filters as spec;

use crate::answer::Answer;
use crate::hex_line::{HexLine, read_hex_line};
use crate::text::{add, add_spaced};
use graft_loader::{Keys, Loaded, load};
use script_model::NoMemory;
use std::alloc::Global;

/// The answer to an image: how many instructions and data bytes it has.
fn sizes_line(alloc: Global, image: &Loaded) -> Result<Answer, NoMemory>
    ensures { IfOk result (λ a. a ≡ spec.check_answer (Ok image.now)) }
{
    let code = image.code().code();
    let body = image.body();
    let mut text = Vec::new(alloc);
    add(&mut text, b"ok")?;
    add_spaced(&mut text, code.len() as u32)?;
    add_spaced(&mut text, body.len() as u32)?;
    Answer::line(0, text)
}

/// The answer to the bytes of a sealed image: its sizes, or why it can't be used.
fn bytes_answer(alloc: Global, keys: &Keys, bytes: &[u8]) -> Result<Answer, NoMemory>
    ensures { IfOk result (λ a. a ≡ spec.check_answer (images.load keys.now bytes.now)) }
{
    match load(alloc, keys, bytes) {
        Ok(image) => sizes_line(alloc, &image),
        Err(fault) => Answer::unloaded(alloc, fault),
    }
}

/// The answer to an input: the sizes of the sealed image that its one line says, or why it is
/// refused.
pub(crate) fn check_answer(alloc: Global, keys: &Keys, input: &[u8]) -> Result<Answer, NoMemory>
    ensures { IfOk result (λ a. a ≡ spec.input_answer (spec.Check keys.now) input.now) }
{
    match read_hex_line(alloc, input)? {
        HexLine::Bytes(bytes) => bytes_answer(alloc, keys, bytes.as_slice()),
        HexLine::NoHex => Answer::refusal(alloc, 2, b"input S2"),
        HexLine::Unfinished => Answer::refusal(alloc, 2, b"input S6"),
        HexLine::MoreBehind => Answer::refusal(alloc, 2, b"input S1"),
    }
}
