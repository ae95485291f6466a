//! What stands beside a code in a line.

ghost use Rattle.std.specs.Prelude.{◌≡◌};
ghost use Rattle.lab_words.specs.Forms as spec;

use crate::slot::{Slot, Verb};
use lab_codes::{CallCode, Code, DropCode, ImageCode, RewriterCode};

/// The words before a code.
pub(crate) fn words_before(code: Code) -> &'static [Slot]
    ensures { result.now ≡ spec.words_before code }
{
    match code {
        Code::Script(_) => [Slot::Said(Verb::Script), Slot::Number].as_slice(),
        Code::Call(_) | Code::Image(_) => [Slot::Number].as_slice(),
        Code::Drop(_) => {
            [
                Slot::Number,
                Slot::Said(Verb::Drop),
                Slot::Number,
                Slot::Number,
            ]
            .as_slice()
        }
        Code::Assembler(_) => [Slot::Said(Verb::Asm), Slot::Number].as_slice(),
        Code::Language(_) => [Slot::Said(Verb::Lang), Slot::Number].as_slice(),
        Code::Rewriter(_) | Code::Input(_) | Code::Status(_) => [].as_slice(),
    }
}

/// The words behind a code of a refused call.
fn behind_call(code: CallCode) -> &'static [Slot]
    ensures { result.now ≡ spec.behind_call code }
{
    match code {
        CallCode::Busy | CallCode::Short => [Slot::Number].as_slice(),
        CallCode::TimedOut => [Slot::ObjectName, Slot::Number].as_slice(),
        _ => [].as_slice(),
    }
}

/// The words behind a code of a dropped graft.
fn behind_drop(code: DropCode) -> &'static [Slot]
    ensures { result.now ≡ spec.behind_drop code }
{
    match code {
        DropCode::Trap
        | DropCode::NotCallable
        | DropCode::BadArgument
        | DropCode::NotYours
        | DropCode::NotAllowed => [Slot::Number].as_slice(),
        DropCode::RefusedAnswer => [Slot::Number, Slot::Number].as_slice(),
        DropCode::TimeOut => [Slot::ObjectName, Slot::Number].as_slice(),
        _ => [].as_slice(),
    }
}

/// The words behind a code of a refused image.
fn behind_image(code: ImageCode) -> &'static [Slot]
    ensures { result.now ≡ spec.behind_image code }
{
    match code {
        ImageCode::BadInstruction
        | ImageCode::Register
        | ImageCode::Jump
        | ImageCode::Access
        | ImageCode::DirectCall => [Slot::Number].as_slice(),
        _ => [].as_slice(),
    }
}

/// The words behind a code of raw code that can't be boxed.
fn behind_rewriter(code: RewriterCode) -> &'static [Slot]
    ensures { result.now ≡ spec.behind_rewriter code }
{
    match code {
        RewriterCode::Register | RewriterCode::Jump | RewriterCode::Call => [
            Slot::Number,
        ].as_slice(),
        _ => [].as_slice(),
    }
}

/// The words behind a code.
pub(crate) fn words_behind(code: Code) -> &'static [Slot]
    ensures { result.now ≡ spec.words_behind code }
{
    match code {
        Code::Call(code) => behind_call(code),
        Code::Drop(code) => behind_drop(code),
        Code::Image(code) => behind_image(code),
        Code::Rewriter(code) => behind_rewriter(code),
        Code::Script(_)
        | Code::Assembler(_)
        | Code::Language(_)
        | Code::Input(_)
        | Code::Status(_) => [].as_slice(),
    }
}
