//! What `box` answers to a line of hex.

ghost use Rattle.std.specs.Prelude.{◌≡◌, ◌≤◌, true, length, Ok, IfOk};
ghost use Rattle.std.specs.List.{list_all};
ghost use Rattle.script_model.specs.Instructions.{fits};
ghost use Rattle.script_model.specs.Images as images;
ghost use Rattle.script_model.specs.Filters as spec;

use crate::answer::Answer;
use crate::hex_line::{HexLine, read_hex_line};
use crate::text::hex_of;
use box_rewriter::{BoxedCode, RewriteFault, rewrite};
use gm_image::{ImageFault, Instr, RawImage, read_raw};
use graft_loader::{Keys, seal_under};
use script_model::NoMemory;
use std::alloc::Global;

/// The answer to boxed code and data: the sealed image as hex.
fn sealed_line(
    alloc: Global,
    keys: &Keys,
    keep: bool,
    code: &[Instr],
    body: &[u8],
) -> Result<Answer, NoMemory>
    requires code_len { length code.now ≤ 1024 }
    requires code_fits { list_all fits code.now ≡ true }
    requires body_len { length body.now ≤ 4096 }
    ensures { IfOk result (λ a. a ≡ spec.boxed_answer keys.now keep body.now (Ok code.now)) }
{
    let bytes = seal_under(alloc, keys, keep, code, body)?;
    let digits = hex_of(alloc, bytes.as_slice())?;
    Answer::line(0, digits)
}

/// The answer to boxed code: its sealed image as hex.
fn boxed_line(alloc: Global, keys: &Keys, keep: bool, boxed: &BoxedCode) -> Result<Answer, NoMemory>
    ensures { IfOk result
        (λ a. a ≡ spec.boxed_answer keys.now keep boxed.now.body (Ok boxed.now.code)) }
{
    sealed_line(alloc, keys, keep, boxed.code(), boxed.body())
}

/// The answer to a raw image: its boxed code, sealed, or why it can't be boxed.
fn image_answer(
    alloc: Global,
    keys: &Keys,
    keep: bool,
    image: &RawImage,
) -> Result<Answer, NoMemory>
    ensures { IfOk result (λ a. a ≡ spec.box_answer keys.now keep (Ok image.now)) }
{
    match rewrite(alloc, image) {
        Ok(boxed) => boxed_line(alloc, keys, keep, &boxed),
        Err(RewriteFault::Register(pc)) => Answer::refusal_at(alloc, 6, b"Register", pc),
        Err(RewriteFault::Jump(pc)) => Answer::refusal_at(alloc, 6, b"Jump", pc),
        Err(RewriteFault::Call(pc)) => Answer::refusal_at(alloc, 6, b"Call", pc),
        Err(RewriteFault::End) => Answer::refusal(alloc, 6, b"End"),
        Err(RewriteFault::TooLarge) => Answer::refusal(alloc, 6, b"TooLarge"),
        Err(RewriteFault::NoMemory) => Err(NoMemory),
    }
}

/// The answer to the bytes of a raw image, or why they are none.
fn bytes_answer(alloc: Global, keys: &Keys, keep: bool, bytes: &[u8]) -> Result<Answer, NoMemory>
    ensures { IfOk result (λ a. a ≡ spec.box_answer keys.now keep (images.read_raw bytes.now)) }
{
    match read_raw(alloc, bytes) {
        Ok(image) => image_answer(alloc, keys, keep, &image),
        Err(ImageFault::Length) => Answer::refusal(alloc, 6, b"L1"),
        Err(ImageFault::Magic) => Answer::refusal(alloc, 6, b"L2"),
        Err(ImageFault::Version) => Answer::refusal(alloc, 6, b"L3"),
        Err(ImageFault::TooLarge) => Answer::refusal(alloc, 6, b"L4"),
        Err(ImageFault::BadOp(pc)) => Answer::refusal_at(alloc, 6, b"L6", pc),
        Err(ImageFault::NoMemory) => Err(NoMemory),
    }
}

/// The answer to an input: the sealed image of the raw one that its one line says, or why there is
/// none.
pub(crate) fn box_answer(
    alloc: Global,
    keys: &Keys,
    keep: bool,
    input: &[u8],
) -> Result<Answer, NoMemory>
    ensures { IfOk result (λ a. a ≡ spec.input_answer (spec.Box keys.now keep) input.now) }
{
    match read_hex_line(alloc, input)? {
        HexLine::Bytes(bytes) => bytes_answer(alloc, keys, keep, bytes.as_slice()),
        HexLine::NoHex => Answer::refusal(alloc, 2, b"input S2"),
        HexLine::Unfinished => Answer::refusal(alloc, 2, b"input S6"),
        HexLine::MoreBehind => Answer::refusal(alloc, 2, b"input S1"),
    }
}
