//! Scripts: their lines, how these change a session, and what is written.
#![tactic(auto)]

pub use graft_code::Keys;
pub use graft_texts::{AsmKind, LangKind};
pub use kernel_data::{
    BLOCK_BYTES, BareCall, BareEvent, BareNote, Cause, Event, FileRow, FrameRow, Instr, Inverse,
    Kind, NAME_BYTES, Need, NoMemory, Note, Object, Op, OpenRow, Point, QueueRow, RawRow, Refusal,
    Reply, SysCall, TopRow, WaitRow,
};
pub use kernel_model::{Micro, Rules};

/// A command of the script that is a system call of a process.
#[derive(Clone, Copy)]
pub enum CallName {
    Spawn,
    Exit,
    Yield,
    Sync,
    Open,
    Close,
    Read,
    Write,
    Lock,
    Unlock,
    Poke,
    Peek,
    Tune,
    Default,
    Give,
    Install,
    Remove,
    Fund,
    Bill,
    Serve,
    StreamRead,
    StreamWrite,
}

/// A command of the script, which the first word of a line names.
#[derive(Clone, Copy)]
pub enum Command {
    Frames,
    Patience,
    Grant,
    Boot,
    Tick,
    Step,
    Raw,
    Image,
    Call(CallName),
}

/// Whether a claim is what a run writes; if not, the number, from 1, of the first line that differs.
#[derive(Clone, Copy, PartialEq, Eq, Debug)]
pub enum Verdict {
    Yes,
    No(u32),
}

/// What kind of word is at a place in a script's line.
#[derive(Clone, Copy)]
pub enum Form {
    /// A decimal number.
    Number,
    /// A kind of object: `graft`, `acct`, `cell`, `open`, `queue`, `cache`, `lock` or `pol`.
    ObjectKind,
    /// A kind of amount: `steps`, `records` or `locks`.
    Amount,
    /// A name or hex digits.
    Text,
}
