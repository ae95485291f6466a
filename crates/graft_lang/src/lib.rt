//! The graft language: from a text to the code of its program (docs/LANGUAGE.md).
#![tactic(auto)]

ghost use Rattle.std.specs.Prelude.{◌≤◌, length, IfOk, IfErr};
ghost use Rattle.graft_syntax.specs.Faults.{Refuses};
ghost use Rattle.graft_texts.specs.LanguageReading as spec;
ghost use Rattle.graft_texts.specs.LanguageImages.{IsCompiled};

mod calls;
mod expressions;
pub mod laws;
mod program;
mod variables;
mod writer;

use crate::program::write_program;
pub use gm_image::RawImage;
use graft_syntax::read;
pub use graft_syntax::{LangFault, LangKind};
use std::alloc::Global;

/// The image of the program that a text of at most 16 MiB writes, or the line that is refused and
/// why.
pub fn compile(alloc: Global, text: &[u8]) -> Result<RawImage, LangFault>
    requires { length text.now ≤ 16_777_216 }
    ensures accepted { IfOk result (λ image. IsCompiled text.now image) }
    ensures refused { IfErr result (λ fault. Refuses fault (spec.read text.now)) }
{
    let syntax = read(alloc, text)?;
    match write_program(alloc, &syntax) {
        Err(_) => Err(LangFault::NoMemory),
        Ok(code) => Ok(RawImage::new(code, Vec::new(alloc))),
    }
}
