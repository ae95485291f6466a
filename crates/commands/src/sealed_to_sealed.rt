//! What `reseal` answers to a line of hex.

ghost use Rattle.std.specs.Prelude.{◌≡◌, Ok, IfOk};
ghost use Rattle.script_model.specs.Images as images;
ghost use Rattle.script_model.specs.Filters as spec;

use crate::answer::Answer;
use crate::hex_line::{HexLine, read_hex_line};
use crate::text::hex_of;
use graft_loader::{Keys, reseal};
use script_model::NoMemory;
use std::alloc::Global;

/// The answer to an image that was sealed anew: its bytes as hex.
fn image_line(alloc: Global, bytes: &[u8]) -> Result<Answer, NoMemory>
    ensures { IfOk result (λ a. a ≡ spec.reseal_answer (Ok bytes.now)) }
{
    let digits = hex_of(alloc, bytes)?;
    Answer::line(0, digits)
}

/// The answer to the bytes of a sealed image: the image sealed anew, or why it can't be used.
fn bytes_answer(alloc: Global, keys: &Keys, bytes: &[u8]) -> Result<Answer, NoMemory>
    ensures { IfOk result (λ a. a ≡ spec.reseal_answer (images.reseal keys.now bytes.now)) }
{
    match reseal(alloc, keys, bytes) {
        Ok(sealed) => image_line(alloc, sealed.as_slice()),
        Err(fault) => Answer::unloaded(alloc, fault),
    }
}

/// The answer to an input: the sealed image that its one line says, sealed anew, or why it is
/// refused.
pub(crate) fn reseal_answer(alloc: Global, keys: &Keys, input: &[u8]) -> Result<Answer, NoMemory>
    ensures { IfOk result (λ a. a ≡ spec.input_answer (spec.Reseal keys.now) input.now) }
{
    match read_hex_line(alloc, input)? {
        HexLine::Bytes(bytes) => bytes_answer(alloc, keys, bytes.as_slice()),
        HexLine::NoHex => Answer::refusal(alloc, 2, b"input S2"),
        HexLine::Unfinished => Answer::refusal(alloc, 2, b"input S6"),
        HexLine::MoreBehind => Answer::refusal(alloc, 2, b"input S1"),
    }
}
