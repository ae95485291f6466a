//! A proved sandbox for plug-ins of any program: sealed images are loaded into memory of the
//! caller's, called with a limit, and dropped without a trace where they misbehave
//! (docs/HOSTING.md).
#![tactic(auto)]

ghost use Rattle.std.specs.Prelude.{◌≡◌, ◌≤◌, ◌<◌};

mod calls;
mod loading;
mod plugins;
mod processor;
mod running;
mod sentences;
mod table;

pub use calls::{begin, resume};
pub use loading::{LOADED, NO_MEMORY, NO_ROOM, load};
pub use plugins::is_whole;
pub use sentences::{put_refusal_sentence, put_sentence, refusal_sentence, sentence};

/// The bytes of a segment.
pub const SEGMENT: usize = 4096;

/// The most instructions of a plug-in.
pub const MOST_CODE: usize = 1024;

/// The most data bytes of a plug-in.
pub const MOST_BODY: usize = 4096;

/// The most bytes that are fed to a call, or given by it.
pub const MOST_BYTES: usize = 512;

/// The most records of a call.
pub const MOST_RECORDS: usize = 64;

/// A plug-in returned.
pub const RETURNED: u32 = 0;

/// It divided by zero.
pub const DIVIDED: u32 = 1;

/// It trapped; the detail is the trap's code.
pub const TRAPPED: u32 = 2;

/// It called an id that isn't callable; the detail is the id.
pub const NOT_CALLABLE: u32 = 3;

/// It called with a bad argument; the detail is the id.
pub const BAD_ARGUMENT: u32 = 4;

/// It took as many instructions as it may.
pub const NO_STEPS: u32 = 9;

/// It made as many records as it may; the detail is the id that it called.
pub const NO_RECORDS: u32 = 10;

/// Its answer isn't one that its point takes; the detail is r0.
pub const BAD_ANSWER: u32 = 12;

/// Another call changed the word that it wanted, or read the one that it wanted to change; the detail
/// is the id that it called.
pub const BUSY: u32 = 16;

/// It ran past its code, which no loaded code does.
pub const BROKEN: u32 = 17;

/// It waits for an answer of the host; the detail is the id that it called.
pub const WAITING: u32 = 32;

/// The call was misused: nothing was done.
pub const MISUSED: u32 = 33;

/// Keys of sealed images: the first alone, or both.
#[repr(C)]
pub struct KeyPair {
    /// 2 where both keys are given; else the first counts alone.
    pub count: u32,
    /// The key of number 0.
    pub first: [u8; 32],
    /// The key of number 1, which counts where `count` is 2.
    pub second: [u8; 32],
}

/// A word of the host's table.
#[repr(C)]
#[derive(Clone, Copy)]
pub struct Word {
    /// What plug-ins read and change: any 32 bits.
    pub value: u32,
    /// The number of the call that changed it and hasn't ended; 0 where there is none.
    pub owner: u32,
    /// How many calls read it that haven't ended.
    pub readers: u32,
}

/// A word of the table as a call found it.
#[repr(C)]
#[derive(Clone, Copy)]
pub struct Record {
    /// The place in the table, from 0.
    pub place: u32,
    /// 1 where the call changed it; else it read it for the first time.
    pub id: u32,
    /// The value before.
    pub value: u32,
    /// The owner before.
    pub owner: u32,
}

/// The records of a call, oldest first.
#[repr(C)]
pub struct Log {
    /// How many records there are; above 64 it counts as 64.
    pub count: u32,
    /// The records, of which the first `count` count.
    pub records: [Record; MOST_RECORDS],
}

/// Registers, and the place of the next instruction.
#[repr(C)]
#[derive(Clone, Copy)]
pub struct Machine {
    /// r0 to r15.
    pub regs: [u32; 16],
    /// The number of the next instruction, from 0.
    pub pc: u32,
}

/// A call: what it needs to be undone, and where it waits.
#[repr(C)]
pub struct Call {
    /// 1 while it waits for an answer.
    pub state: u32,
    /// Its number, as the request had it.
    pub number: u32,
    /// Its point, 0 to 15.
    pub point: u32,
    /// How many bytes it was fed, 0 to 512.
    pub fed: u32,
    /// The most instructions from its beginning to its end.
    pub limit: u32,
    /// How many instructions it may take yet, while it waits.
    pub left: u32,
    /// The id that it called, 2 to 15, while it waits.
    pub id: u32,
    /// Registers and place, while it waits.
    pub machine: Machine,
    /// What it changed and read of the table.
    pub log: Log,
    /// The segment from before the call, while it waits.
    pub segment: [u8; SEGMENT],
}

/// What a call is asked for.
#[repr(C)]
#[derive(Clone, Copy)]
pub struct Request {
    /// The number of the call, which is its name as an owner of words: not 0, and no other call that
    /// waits over the same table has it.
    pub number: u32,
    /// The point, 0 to 15, which says what r0 of the answer means (docs/CALLS.md).
    pub point: u32,
    /// The most instructions; the call is dropped with `NO_STEPS` where it needs more.
    pub limit: u32,
    /// 0 where the call begins with the segment as it is; else with the plug-in's data and zeros.
    pub fresh: u32,
    /// The first argument, any 32 bits, and so are the others.
    pub r0: u32,
    /// The second argument.
    pub r1: u32,
    /// The third argument.
    pub r2: u32,
    /// The fourth argument.
    pub r3: u32,
}

/// How a call stopped.
#[repr(C)]
#[derive(Clone, Copy)]
pub struct Answer {
    /// `RETURNED`, `WAITING`, `MISUSED`, or the cause for which the call was dropped.
    pub kind: u32,
    /// As the constant of the kind says; else 0.
    pub detail: u32,
    /// How many instructions the call has taken since its beginning, its limit at most.
    pub steps: u32,
    /// How many bytes the plug-in gave where it returned, 0 to 512: they stand from place 2,048 of
    /// the segment on.
    pub given: u32,
    /// Register 0 where the call returned or waits, else 0; and so are the others.
    pub r0: u32,
    /// Register 1.
    pub r1: u32,
    /// Register 2.
    pub r2: u32,
    /// Register 3.
    pub r3: u32,
}

/// What an instruction did.
#[derive(Clone, Copy)]
pub(crate) enum Outcome {
    Went,
    Called(u32),
    Returned,
    DividedByZero,
    Trapped(u32),
    PastEnd,
}

/// What came of a call of the table.
#[derive(Clone, Copy)]
pub(crate) enum Served {
    Gave(u32),
    Refused(u32),
}

/// What came of any call.
#[derive(Clone, Copy)]
pub(crate) enum Reply {
    Gave(u32),
    Stopped(Stop),
}

/// Why a run stopped: it returned, it waits for an answer to an id of the host, or it is dropped for
/// a cause, with a detail.
#[derive(Clone, Copy)]
pub enum Stop {
    /// It returned.
    Returns,
    /// It waits for an answer to this id.
    Waits(u32),
    /// It is dropped for a cause, with a detail.
    Drops(u32, u32),
}

/// How a run stopped, how many instructions were left, and the machine then.
#[derive(Clone, Copy)]
pub(crate) struct Stopped {
    pub stop: Stop,
    pub left: u32,
    pub machine: Machine,
}
