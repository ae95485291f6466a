//! What `lang` answers to a text.

ghost use Rattle.std.specs.Prelude.{◌≡◌, ◌≤◌, length, IfOk};
ghost use Rattle.script_model.specs.Outcome.{SCRIPT_BYTES};
ghost use Rattle.script_model.specs.LanguageReading.{read};
ghost use Rattle.script_model.specs.Filters as spec;

use crate::answer::Answer;
use crate::text_to_image::image_line;
use graft_lang::{LangFault, LangKind, compile};
use script_model::NoMemory;
use std::alloc::Global;

/// The code of a refusal.
fn kind_text(kind: LangKind) -> &'static [u8]
    ensures { result.now ≡ spec.lang_kind_text kind }
{
    match kind {
        LangKind::NoToken => b"G1",
        LangKind::NoProgram => b"G2",
        LangKind::UnknownVariable => b"G3",
        LangKind::WrongArguments => b"G4",
        LangKind::TooDeep => b"G5",
        LangKind::TooManyTokens => b"G6",
    }
}

/// The answer to a text of which this line is refused.
fn refused_line(alloc: Global, line: u32, kind: LangKind) -> Result<Answer, NoMemory>
    ensures { IfOk result (λ a. a ≡ spec.lang_refusal (record { line = line; kind = kind })) }
{
    Answer::refused_line(alloc, b"lang", line, kind_text(kind))
}

/// The answer to a text: the raw image of its program as hex, or the line that is refused.
pub(crate) fn lang_answer(alloc: Global, text: &[u8]) -> Result<Answer, NoMemory>
    requires { length text.now ≤ SCRIPT_BYTES }
    ensures { IfOk result (λ a. spec.AnswersText text.now (read text.now) a) }
{
    match compile(alloc, text) {
        Ok(image) => image_line(alloc, &image),
        Err(LangFault::At(line, kind)) => refused_line(alloc, line, kind),
        Err(LangFault::NoMemory) => Err(NoMemory),
    }
}
