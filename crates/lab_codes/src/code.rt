//! The codes that the program writes, and the texts by which they are found.

ghost use Rattle.std.specs.Prelude.{◌≡◌, find};
ghost use Rattle.script_model.specs.World.{same_bytes};
ghost use Rattle.script_model.specs.Filters.{asm_kind_text, lang_kind_text};
ghost use Rattle.lab_codes.specs.Codes as spec;

use script_model::{AsmKind, LangKind};

/// Refused lines of a script, in the order of the codes.
#[derive(Clone, Copy, Debug, PartialEq, Eq)]
pub enum ScriptCode {
    BadWord,
    BadNumber,
    TooLong,
    WrongPlace,
    UnknownCommand,
    Unfinished,
}

/// Refused calls, in the order of the codes.
#[derive(Clone, Copy, Debug, PartialEq, Eq)]
pub enum CallCode {
    NoProcess,
    Busy,
    Denied,
    BadPoint,
    BadDescriptor,
    NoFile,
    NoDescriptor,
    BadIndex,
    NoImage,
    Taken,
    NoGraft,
    Short,
    Full,
    Held,
    NotHeld,
    DiskFault,
    TimedOut,
    PortFull,
}

/// Dropped grafts, in the order of the codes.
#[derive(Clone, Copy, Debug, PartialEq, Eq)]
pub enum DropCode {
    DivideByZero,
    Trap,
    NotCallable,
    BadArgument,
    NotYours,
    NotAllowed,
    TooDeep,
    Reentered,
    SpentSteps,
    SpentRecords,
    SpentLocks,
    RefusedAnswer,
    TimeOut,
}

/// Refused images, in the order of the codes.
#[derive(Clone, Copy, Debug, PartialEq, Eq)]
pub enum ImageCode {
    Length,
    Start,
    Version,
    TooLarge,
    Seal,
    BadInstruction,
    Register,
    Jump,
    Access,
    DirectCall,
    End,
    BadFlags,
    NoKey,
}

/// Raw code that can't be boxed, in the order of the codes.
#[derive(Clone, Copy, Debug, PartialEq, Eq)]
pub enum RewriterCode {
    Register,
    Jump,
    Call,
    End,
    TooLarge,
}

/// Refused input of `box`, `check`, `reseal`, `dis` and `audit`, in the order of the codes.
#[derive(Clone, Copy, Debug, PartialEq, Eq)]
pub enum InputCode {
    GoesOn,
    NotHex,
    Unfinished,
}

/// How a program ends, in the order of the codes.
#[derive(Clone, Copy, Debug, PartialEq, Eq)]
pub enum StatusCode {
    Well,
    BadWords,
    Refused,
    ReadFailed,
    WriteFailed,
    NoMemory,
    ImageRefused,
    TooLong,
    Differs,
}

/// A code or a word of a refusal, or an exit status.
#[derive(Clone, Copy, Debug, PartialEq, Eq)]
pub enum Code {
    Script(ScriptCode),
    Call(CallCode),
    Drop(DropCode),
    Image(ImageCode),
    Assembler(AsmKind),
    Language(LangKind),
    Rewriter(RewriterCode),
    Input(InputCode),
    Status(StatusCode),
}

/// All codes, in the order in which they are listed.
pub const CODES: [Code; 79] = [
    Code::Script(ScriptCode::BadWord),
    Code::Script(ScriptCode::BadNumber),
    Code::Script(ScriptCode::TooLong),
    Code::Script(ScriptCode::WrongPlace),
    Code::Script(ScriptCode::UnknownCommand),
    Code::Script(ScriptCode::Unfinished),
    Code::Call(CallCode::NoProcess),
    Code::Call(CallCode::Busy),
    Code::Call(CallCode::Denied),
    Code::Call(CallCode::BadPoint),
    Code::Call(CallCode::BadDescriptor),
    Code::Call(CallCode::NoFile),
    Code::Call(CallCode::NoDescriptor),
    Code::Call(CallCode::BadIndex),
    Code::Call(CallCode::NoImage),
    Code::Call(CallCode::Taken),
    Code::Call(CallCode::NoGraft),
    Code::Call(CallCode::Short),
    Code::Call(CallCode::Full),
    Code::Call(CallCode::Held),
    Code::Call(CallCode::NotHeld),
    Code::Call(CallCode::DiskFault),
    Code::Call(CallCode::TimedOut),
    Code::Call(CallCode::PortFull),
    Code::Drop(DropCode::DivideByZero),
    Code::Drop(DropCode::Trap),
    Code::Drop(DropCode::NotCallable),
    Code::Drop(DropCode::BadArgument),
    Code::Drop(DropCode::NotYours),
    Code::Drop(DropCode::NotAllowed),
    Code::Drop(DropCode::TooDeep),
    Code::Drop(DropCode::Reentered),
    Code::Drop(DropCode::SpentSteps),
    Code::Drop(DropCode::SpentRecords),
    Code::Drop(DropCode::SpentLocks),
    Code::Drop(DropCode::RefusedAnswer),
    Code::Drop(DropCode::TimeOut),
    Code::Image(ImageCode::Length),
    Code::Image(ImageCode::Start),
    Code::Image(ImageCode::Version),
    Code::Image(ImageCode::TooLarge),
    Code::Image(ImageCode::Seal),
    Code::Image(ImageCode::BadInstruction),
    Code::Image(ImageCode::Register),
    Code::Image(ImageCode::Jump),
    Code::Image(ImageCode::Access),
    Code::Image(ImageCode::DirectCall),
    Code::Image(ImageCode::End),
    Code::Image(ImageCode::BadFlags),
    Code::Image(ImageCode::NoKey),
    Code::Assembler(AsmKind::UnknownMnemonic),
    Code::Assembler(AsmKind::BadOperands),
    Code::Assembler(AsmKind::LabelNotSet),
    Code::Assembler(AsmKind::LabelSetTwice),
    Code::Assembler(AsmKind::TooManyInstructions),
    Code::Assembler(AsmKind::BadData),
    Code::Language(LangKind::NoToken),
    Code::Language(LangKind::NoProgram),
    Code::Language(LangKind::UnknownVariable),
    Code::Language(LangKind::WrongArguments),
    Code::Language(LangKind::TooDeep),
    Code::Language(LangKind::TooManyTokens),
    Code::Rewriter(RewriterCode::Register),
    Code::Rewriter(RewriterCode::Jump),
    Code::Rewriter(RewriterCode::Call),
    Code::Rewriter(RewriterCode::End),
    Code::Rewriter(RewriterCode::TooLarge),
    Code::Input(InputCode::GoesOn),
    Code::Input(InputCode::NotHex),
    Code::Input(InputCode::Unfinished),
    Code::Status(StatusCode::Well),
    Code::Status(StatusCode::BadWords),
    Code::Status(StatusCode::Refused),
    Code::Status(StatusCode::ReadFailed),
    Code::Status(StatusCode::WriteFailed),
    Code::Status(StatusCode::NoMemory),
    Code::Status(StatusCode::ImageRefused),
    Code::Status(StatusCode::TooLong),
    Code::Status(StatusCode::Differs),
];

/// The text of a code: refused lines of a script.
fn script_text(code: ScriptCode) -> &'static [u8]
    ensures { result.now ≡ spec.script_text code }
{
    match code {
        ScriptCode::BadWord => b"S1".as_slice(),
        ScriptCode::BadNumber => b"S2".as_slice(),
        ScriptCode::TooLong => b"S3".as_slice(),
        ScriptCode::WrongPlace => b"S4".as_slice(),
        ScriptCode::UnknownCommand => b"S5".as_slice(),
        ScriptCode::Unfinished => b"S6".as_slice(),
    }
}

/// The text of a code: refused calls.
fn call_text(code: CallCode) -> &'static [u8]
    ensures { result.now ≡ spec.call_text code }
{
    match code {
        CallCode::NoProcess => b"E1".as_slice(),
        CallCode::Busy => b"E2".as_slice(),
        CallCode::Denied => b"E3".as_slice(),
        CallCode::BadPoint => b"E4".as_slice(),
        CallCode::BadDescriptor => b"E5".as_slice(),
        CallCode::NoFile => b"E6".as_slice(),
        CallCode::NoDescriptor => b"E7".as_slice(),
        CallCode::BadIndex => b"E8".as_slice(),
        CallCode::NoImage => b"E9".as_slice(),
        CallCode::Taken => b"E10".as_slice(),
        CallCode::NoGraft => b"E11".as_slice(),
        CallCode::Short => b"E12".as_slice(),
        CallCode::Full => b"E13".as_slice(),
        CallCode::Held => b"E14".as_slice(),
        CallCode::NotHeld => b"E15".as_slice(),
        CallCode::DiskFault => b"E16".as_slice(),
        CallCode::TimedOut => b"E17".as_slice(),
        CallCode::PortFull => b"E18".as_slice(),
    }
}

/// The text of a code: dropped grafts.
fn drop_text(code: DropCode) -> &'static [u8]
    ensures { result.now ≡ spec.drop_text code }
{
    match code {
        DropCode::DivideByZero => b"C1".as_slice(),
        DropCode::Trap => b"C2".as_slice(),
        DropCode::NotCallable => b"C3".as_slice(),
        DropCode::BadArgument => b"C4".as_slice(),
        DropCode::NotYours => b"C5".as_slice(),
        DropCode::NotAllowed => b"C6".as_slice(),
        DropCode::TooDeep => b"C7".as_slice(),
        DropCode::Reentered => b"C8".as_slice(),
        DropCode::SpentSteps => b"C9".as_slice(),
        DropCode::SpentRecords => b"C10".as_slice(),
        DropCode::SpentLocks => b"C11".as_slice(),
        DropCode::RefusedAnswer => b"C12".as_slice(),
        DropCode::TimeOut => b"C13".as_slice(),
    }
}

/// The text of a code: refused images.
fn image_text(code: ImageCode) -> &'static [u8]
    ensures { result.now ≡ spec.image_text code }
{
    match code {
        ImageCode::Length => b"L1".as_slice(),
        ImageCode::Start => b"L2".as_slice(),
        ImageCode::Version => b"L3".as_slice(),
        ImageCode::TooLarge => b"L4".as_slice(),
        ImageCode::Seal => b"L5".as_slice(),
        ImageCode::BadInstruction => b"L6".as_slice(),
        ImageCode::Register => b"L7".as_slice(),
        ImageCode::Jump => b"L8".as_slice(),
        ImageCode::Access => b"L9".as_slice(),
        ImageCode::DirectCall => b"L10".as_slice(),
        ImageCode::End => b"L11".as_slice(),
        ImageCode::BadFlags => b"L12".as_slice(),
        ImageCode::NoKey => b"L13".as_slice(),
    }
}

/// The text of a code: refused lines of assembler text.
fn assembler_text(code: AsmKind) -> &'static [u8]
    ensures { result.now ≡ asm_kind_text code }
{
    match code {
        AsmKind::UnknownMnemonic => b"A1".as_slice(),
        AsmKind::BadOperands => b"A2".as_slice(),
        AsmKind::LabelNotSet => b"A3".as_slice(),
        AsmKind::LabelSetTwice => b"A4".as_slice(),
        AsmKind::TooManyInstructions => b"A5".as_slice(),
        AsmKind::BadData => b"A6".as_slice(),
    }
}

/// The text of a code: refused lines of the graft language.
fn language_text(code: LangKind) -> &'static [u8]
    ensures { result.now ≡ lang_kind_text code }
{
    match code {
        LangKind::NoToken => b"G1".as_slice(),
        LangKind::NoProgram => b"G2".as_slice(),
        LangKind::UnknownVariable => b"G3".as_slice(),
        LangKind::WrongArguments => b"G4".as_slice(),
        LangKind::TooDeep => b"G5".as_slice(),
        LangKind::TooManyTokens => b"G6".as_slice(),
    }
}

/// The text of a code: raw code that can't be boxed.
fn rewriter_text(code: RewriterCode) -> &'static [u8]
    ensures { result.now ≡ spec.rewriter_text code }
{
    match code {
        RewriterCode::Register => b"Register".as_slice(),
        RewriterCode::Jump => b"Jump".as_slice(),
        RewriterCode::Call => b"Call".as_slice(),
        RewriterCode::End => b"End".as_slice(),
        RewriterCode::TooLarge => b"TooLarge".as_slice(),
    }
}

/// The text of a code: refused input of `box`, `check`, `reseal`, `dis` and `audit`.
fn input_text(code: InputCode) -> &'static [u8]
    ensures { result.now ≡ spec.input_text code }
{
    match code {
        InputCode::GoesOn => b"input S1".as_slice(),
        InputCode::NotHex => b"input S2".as_slice(),
        InputCode::Unfinished => b"input S6".as_slice(),
    }
}

/// The text of a code: how a program ends.
fn status_text(code: StatusCode) -> &'static [u8]
    ensures { result.now ≡ spec.status_text code }
{
    match code {
        StatusCode::Well => b"status 0".as_slice(),
        StatusCode::BadWords => b"status 1".as_slice(),
        StatusCode::Refused => b"status 2".as_slice(),
        StatusCode::ReadFailed => b"status 3".as_slice(),
        StatusCode::WriteFailed => b"status 4".as_slice(),
        StatusCode::NoMemory => b"status 5".as_slice(),
        StatusCode::ImageRefused => b"status 6".as_slice(),
        StatusCode::TooLong => b"status 7".as_slice(),
        StatusCode::Differs => b"status 8".as_slice(),
    }
}

/// The text of a code, as it is written.
pub fn text_of(code: Code) -> &'static [u8]
    ensures { result.now ≡ spec.code_text code }
{
    match code {
        Code::Script(code) => script_text(code),
        Code::Call(code) => call_text(code),
        Code::Drop(code) => drop_text(code),
        Code::Image(code) => image_text(code),
        Code::Assembler(code) => assembler_text(code),
        Code::Language(code) => language_text(code),
        Code::Rewriter(code) => rewriter_text(code),
        Code::Input(code) => input_text(code),
        Code::Status(code) => status_text(code),
    }
}

/// The first of these codes that has this text.
fn find_code(codes: &[Code], text: &[u8]) -> Option<Code>
    ensures { result ≡ find (λ c. same_bytes (spec.code_text c) text.now) codes.now }
{
    for code in codes {
        if text_of(*code) == text {
            return Some(*code);
        }
    }
    None
}

/// The code of this text.
pub fn code_of(text: &[u8]) -> Option<Code>
    ensures { result ≡ spec.code_named text.now }
{
    find_code(&CODES, text)
}
