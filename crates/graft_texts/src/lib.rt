//! Texts of graft code: the assembler and the graft language.
#![tactic(auto)]

mod language;

pub use kernel_data::{Instr, NoMemory, Op};
pub use language::{Goal, LangKind, Operator, Symbol};

/// Why a line of assembler text is refused, in the order of the codes A1 to A6 (docs/FORMATS.md).
#[derive(Clone, Copy, PartialEq, Eq, Debug)]
pub enum AsmKind {
    UnknownMnemonic,
    BadOperands,
    LabelNotSet,
    LabelSetTwice,
    TooManyInstructions,
    BadData,
}
