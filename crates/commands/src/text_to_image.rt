//! What `asm` answers to a text.

ghost use Rattle.std.specs.Prelude.{◌≡◌, ◌≤◌, [], length, Err, IfOk};
ghost use Rattle.script_model.specs.Outcome.{SCRIPT_BYTES};
ghost use Rattle.script_model.specs.Filters as spec;

use crate::answer::Answer;
use crate::text::hex_of;
use gm_asm::{AsmFault, AsmKind, assemble};
use gm_image::{RawImage, write_raw};
use script_model::NoMemory;
use std::alloc::Global;

/// The code of a refusal.
fn kind_text(kind: AsmKind) -> &'static [u8]
    ensures { result.now ≡ spec.asm_kind_text kind }
{
    match kind {
        AsmKind::UnknownMnemonic => b"A1",
        AsmKind::BadOperands => b"A2",
        AsmKind::LabelNotSet => b"A3",
        AsmKind::LabelSetTwice => b"A4",
        AsmKind::TooManyInstructions => b"A5",
        AsmKind::BadData => b"A6",
    }
}

/// The answer to a text of which this line is refused.
fn refused_line(alloc: Global, line: u32, kind: AsmKind) -> Result<Answer, NoMemory>
    ensures { IfOk result (λ a. a ≡ spec.asm_answer (Err (record { line = line; kind = kind }))) }
{
    Answer::refused_line(alloc, b"asm", line, kind_text(kind))
}

/// The answer to a text that writes this image.
pub(crate) fn image_line(alloc: Global, image: &RawImage) -> Result<Answer, NoMemory>
    ensures { IfOk result (λ a. a ≡ spec.raw_answer image.now) }
{
    let bytes = write_raw(alloc, image)?;
    let digits = hex_of(alloc, bytes.as_slice())?;
    Answer::line(0, digits)
}

/// The answer to a text: the raw image as hex, or the line that is refused.
pub(crate) fn asm_answer(alloc: Global, text: &[u8]) -> Result<Answer, NoMemory>
    requires { length text.now ≤ SCRIPT_BYTES }
    ensures { IfOk result (λ a. a ≡ spec.input_answer spec.Asm text.now) }
{
    match assemble(alloc, text) {
        Ok(image) => image_line(alloc, &image),
        Err(AsmFault::At(line, kind)) => refused_line(alloc, line, kind),
        Err(AsmFault::NoMemory) => Err(NoMemory),
    }
}
