//! The assembler of graft code: from text to a raw image, and back (docs/FORMATS.md).
#![tactic(auto)]

ghost use Rattle.std.specs.Prelude.{◌≡◌, ◌≤◌, length, Ok, IfOk, IfErr};
ghost use Rattle.graft_texts.specs.Assembler as spec;
ghost use Rattle.gm_asm.specs.Faults.{Refuses};

mod assembly;
mod data;
pub mod laws;
mod link;
mod print;
mod statement;
mod words;

use crate::assembly::read_lines;
use crate::print::{append_body, append_code};
use gm_image::RawImage;
pub use graft_texts::{AsmKind, NoMemory};
use std::alloc::Global;
use thiserror::Error;

/// Why a text is refused: the number of the line from 1 and what is wrong with it, or no memory.
#[derive(Clone, Copy, PartialEq, Eq, Debug, Error)]
pub enum AsmFault {
    #[error("line {0}: {1:?}")]
    At(u32, AsmKind),
    #[error("out of memory")]
    NoMemory,
}

impl From<NoMemory> for AsmFault {
    ghost use Rattle.gm_asm.specs.declared.AsmFault.{AsmFault};

    ghost from_gives = { λ _ e. e ≡ AsmFault.NoMemory };

    fn from(_: NoMemory) -> AsmFault {
        AsmFault::NoMemory
    }
}

/// The image that a text of at most 16 MiB writes, or the line that is refused and why.
pub fn assemble(alloc: Global, text: &[u8]) -> Result<RawImage, AsmFault>
    requires { length text.now ≤ 16_777_216 }
    ensures ok { IfOk result (λ i. spec.assemble text.now ≡ Ok i) }
    ensures err { IfErr result (λ e. Refuses e (spec.assemble text.now)) }
{
    read_lines(alloc, text)?.link(alloc)
}

/// The text of an image: a line for each instruction, and one for the data if there is any.
pub fn disassemble(alloc: Global, img: &RawImage) -> Result<Vec<u8>, NoMemory>
    ensures { IfOk result (λ text. text.items ≡ spec.disassemble img.now) }
{
    let mut out = Vec::new(alloc);
    append_code(&mut out, img.code())?;
    append_body(alloc, &mut out, img.body())?;
    Ok(out)
}
