//! Why a lab file is refused.

use script_model::{AsmKind, LangKind, NoMemory};
use thiserror::Error;

/// What is wrong with a line of a lab file.
#[derive(Clone, Copy, PartialEq, Eq, Debug)]
pub enum LabKind {
    /// Behind `graft` there isn't a name, then perhaps `language`, then perhaps `keep`.
    BadGraft,
    /// The name of a graft isn't a letter a to z, then letters, digits and `_`, up to 16 bytes.
    BadName,
    /// The name of a graft could be the hex digits of an image.
    NameIsHex,
    /// A graft of this name was written above.
    GraftTwice,
    /// The text of a graft has more than 16,777,216 bytes.
    LongGraft,
    /// The graft that begins here has no `end`.
    NoEnd,
    /// There is an `end` outside of grafts.
    StrayEnd,
    /// No graft of this name was written above.
    UnknownGraft,
    /// The slot of an image isn't a number from 0 to 31.
    BadSlot,
    /// There is an image of a graft in this slot.
    SlotTwice,
    /// Behind `key` there aren't 64 hex digits, or twice 64 with a comma between them.
    BadKey,
    /// There is a key already.
    KeyTwice,
    /// The key stands behind an image that is sealed under it.
    KeyLate,
    /// Behind `disk` there isn't a file alone.
    BadDisk,
    /// There is a file for the disk already.
    DiskTwice,
    /// Behind `fail` there isn't `disk` and numbers with commas between them.
    BadFails,
    /// Failing calls were named already.
    FailsTwice,
    /// Calls are to fail of a disk that is a file.
    FailsOnFile,
    /// There is nothing behind the `=` of a wanted line.
    EmptyWant,
    /// A wanted line belongs to no line of the script.
    StrayWant,
    /// The assembler refuses a line of a graft.
    Asm(AsmKind),
    /// The compiler refuses a line of a graft.
    Lang(LangKind),
    /// The instruction of this number names r14 or r15.
    BoxRegister(u32),
    /// The instruction of this number jumps past the code.
    BoxJump(u32),
    /// The instruction of this number calls an id above 15.
    BoxCall(u32),
    /// The last instruction isn't `ret`, `jmp` or `trap`.
    BoxEnd,
    /// The boxed code has more than 1,024 instructions.
    BoxTooLong,
}

/// Why a lab file is refused.
#[derive(Clone, Copy, PartialEq, Eq, Debug, Error)]
pub enum LabFault {
    /// A line, numbered from 1, and what is wrong with it.
    #[error("line {0}: {1:?}")]
    At(usize, LabKind),
    /// The file has more than 16,777,216 bytes.
    #[error("more than 16777216 bytes")]
    TooLong,
    /// The file isn't UTF-8 behind so many bytes.
    #[error("not UTF-8 behind byte {0}")]
    NotUtf8(usize),
    /// There is no memory.
    #[error("out of memory")]
    NoMemory,
}

impl From<NoMemory> for LabFault {
    ghost use Rattle.std.specs.Prelude.{◌≡◌};
    ghost use Rattle.lab_reader.specs.declared.faults.LabFault.{LabFault};

    ghost from_gives = { λ _ e. e ≡ LabFault.NoMemory };

    fn from(_: NoMemory) -> LabFault {
        LabFault::NoMemory
    }
}
