//! The row of a code in the tables of words, and the page that describes it.

ghost use Rattle.std.specs.Prelude.{◌≡◌};
ghost use Rattle.script_model.specs.Filters.{asm_kind_text, lang_kind_text};
ghost use Rattle.lab_codes.specs.Pages as pages;
ghost use Rattle.lab_codes.specs.Codes as spec;

use crate::code::{
    CallCode, Code, DropCode, ImageCode, InputCode, RewriterCode, ScriptCode, StatusCode,
};
use crate::words::{
    ASSEMBLER, CALL, DROP, IMAGE, INPUT, LANGUAGE, REWRITER, SCRIPT, STATUS, Words,
};
use script_model::{AsmKind, LangKind};

/// The words of a refused line of a script.
fn script_words(code: ScriptCode) -> &'static Words
    ensures { result.now.code.now ≡ spec.script_text code }
{
    &SCRIPT[code as usize]
}

/// The words of a refused call.
fn call_words(code: CallCode) -> &'static Words
    ensures { result.now.code.now ≡ spec.call_text code }
{
    &CALL[code as usize]
}

/// The words of a dropped graft.
fn drop_words(code: DropCode) -> &'static Words
    ensures { result.now.code.now ≡ spec.drop_text code }
{
    &DROP[code as usize]
}

/// The words of a refused image.
fn image_words(code: ImageCode) -> &'static Words
    ensures { result.now.code.now ≡ spec.image_text code }
{
    &IMAGE[code as usize]
}

/// The words of a refused line of assembler text.
fn assembler_words(code: AsmKind) -> &'static Words
    ensures { result.now.code.now ≡ asm_kind_text code }
{
    &ASSEMBLER[code as usize]
}

/// The words of a refused line of the graft language.
fn language_words(code: LangKind) -> &'static Words
    ensures { result.now.code.now ≡ lang_kind_text code }
{
    &LANGUAGE[code as usize]
}

/// The words of raw code that can't be boxed.
fn rewriter_words(code: RewriterCode) -> &'static Words
    ensures { result.now.code.now ≡ spec.rewriter_text code }
{
    &REWRITER[code as usize]
}

/// The words of a refused input of a filter.
fn input_words(code: InputCode) -> &'static Words
    ensures { result.now.code.now ≡ spec.input_text code }
{
    &INPUT[code as usize]
}

/// The words of the end of a program.
fn status_words(code: StatusCode) -> &'static Words
    ensures { result.now.code.now ≡ spec.status_text code }
{
    &STATUS[code as usize]
}

/// What is said of a code.
pub fn words_of(code: Code) -> &'static Words
    ensures { result.now.code.now ≡ spec.code_text code }
{
    match code {
        Code::Script(code) => script_words(code),
        Code::Call(code) => call_words(code),
        Code::Drop(code) => drop_words(code),
        Code::Image(code) => image_words(code),
        Code::Assembler(code) => assembler_words(code),
        Code::Language(code) => language_words(code),
        Code::Rewriter(code) => rewriter_words(code),
        Code::Input(code) => input_words(code),
        Code::Status(code) => status_words(code),
    }
}

/// Where the code is described: a page, and its section.
pub fn page_of(code: Code) -> &'static str
    ensures { result.now ≡ pages.page_of code }
{
    match code {
        Code::Script(_) => "docs/FORMATS.md, \"Refused lines\"",
        Code::Call(_) => "docs/CALLS.md, \"Refusals\"",
        Code::Drop(_) => "docs/FORMATS.md, \"Dropped grafts\"; docs/CALLS.md, \"Points\"",
        Code::Image(_) => "docs/FORMATS.md, \"Images\"; docs/SANDBOX.md",
        Code::Assembler(_) => "docs/FORMATS.md, \"Assembler text\"",
        Code::Language(_) => "docs/LANGUAGE.md, \"What is refused\"",
        Code::Rewriter(_) => "docs/SANDBOX.md, \"Boxed code\"",
        Code::Input(_) => "docs/FORMATS.md, \"Lines of the other words\"",
        Code::Status(_) => "docs/FORMATS.md, \"Command line\"",
    }
}
