//! What `dis` answers to a line of hex.

ghost use Rattle.std.specs.Prelude.{◌≡◌, [], Ok, IfOk};
ghost use Rattle.script_model.specs.Images as images;
ghost use Rattle.script_model.specs.Filters as spec;

use crate::answer::Answer;
use crate::hex_line::{HexLine, read_hex_line};
use gm_asm::disassemble;
use gm_image::{ImageFault, RawImage, read_raw};
use script_model::NoMemory;
use std::alloc::Global;

/// The answer to an image: its text.
fn image_text(alloc: Global, image: &RawImage) -> Result<Answer, NoMemory>
    ensures { IfOk result (λ a. a ≡ spec.dis_answer (Ok image.now)) }
{
    let text = disassemble(alloc, image)?;
    Ok(Answer::new(0, text))
}

/// The answer to the bytes of a raw image: its text, or why they are none.
fn bytes_answer(alloc: Global, bytes: &[u8]) -> Result<Answer, NoMemory>
    ensures { IfOk result (λ a. a ≡ spec.dis_answer (images.read_raw bytes.now)) }
{
    match read_raw(alloc, bytes) {
        Ok(image) => image_text(alloc, &image),
        Err(ImageFault::Length) => Answer::refusal(alloc, 2, b"L1"),
        Err(ImageFault::Magic) => Answer::refusal(alloc, 2, b"L2"),
        Err(ImageFault::Version) => Answer::refusal(alloc, 2, b"L3"),
        Err(ImageFault::TooLarge) => Answer::refusal(alloc, 2, b"L4"),
        Err(ImageFault::BadOp(pc)) => Answer::refusal_at(alloc, 2, b"L6", pc),
        Err(ImageFault::NoMemory) => Err(NoMemory),
    }
}

/// The answer to an input: the text of the raw image that its one line says, or why it is refused.
pub(crate) fn dis_answer(alloc: Global, input: &[u8]) -> Result<Answer, NoMemory>
    ensures { IfOk result (λ a. a ≡ spec.input_answer spec.Dis input.now) }
{
    match read_hex_line(alloc, input)? {
        HexLine::Bytes(bytes) => bytes_answer(alloc, bytes.as_slice()),
        HexLine::NoHex => Answer::refusal(alloc, 2, b"input S2"),
        HexLine::Unfinished => Answer::refusal(alloc, 2, b"input S6"),
        HexLine::MoreBehind => Answer::refusal(alloc, 2, b"input S1"),
    }
}
