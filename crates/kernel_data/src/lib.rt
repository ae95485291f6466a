//! The kernel's plain data: objects, calls, events, notes, refusals, causes, records, instructions and rows.
#![tactic(auto)]

ghost use Rattle.std.specs.Prelude.{◌≡◌, ℕ, List};

use arrayvec::ArrayVec;
use std::marker::Model;

mod lists;

/// The most bytes of a name.
pub const NAME_BYTES: usize = 16;

/// The most bytes that a call carries: a block.
pub const BLOCK_BYTES: usize = 512;

/// The most processes that live.
pub const PROCESSES: usize = 16;

/// The most frames of the cache.
pub const FRAMES: usize = 64;

/// The highest id of the callable list: grafts may call the ids up to it.
pub const LAST_CALLABLE: u32 = 15;

/// There was no memory left.
#[derive(Clone, Copy, PartialEq, Eq, Debug)]
pub struct NoMemory;

/// An object of the kernel's state.
#[derive(Clone, Copy, PartialEq, Eq)]
pub enum Object {
    Graft(u8, u8),
    Acct(u8),
    Cell(u8, u8),
    OpenFile(u8, u8),
    Queue,
    Cache,
    Lock(u8),
    Pol(u8),
}

/// How an object is held or wanted.
#[derive(Clone, Copy, PartialEq, Eq)]
pub enum Mode {
    Shared,
    Exclusive,
}

/// A kind of amount that a graft spends.
#[derive(Clone, Copy, PartialEq, Eq)]
pub enum Kind {
    Steps,
    Locks,
    Records,
}

/// A name of at most 16 bytes, which contracts see as the list of its bytes.
#[derive(Drop)]
pub struct Name {
    text: ArrayVec<u8, NAME_BYTES>,
}

impl Model for Name {
    ghost Value = { List ℕ };

    ghost view = { λ n. n.text.items };
}

/// At most 512 bytes, which contracts see as their list.
#[derive(Drop)]
pub struct Bytes {
    data: ArrayVec<u8, BLOCK_BYTES>,
}

impl Model for Bytes {
    ghost Value = { List ℕ };

    ghost view = { λ n. n.data.items };
}

/// A system call, without the process that makes it.
#[derive(Drop)]
pub enum SysCall {
    Spawn,
    Exit,
    Yield,
    OpenName(Name),
    CloseFd(u32),
    Read {
        descriptor: u32,
        block: u32,
        offset: u32,
        length: u32,
    },
    Write {
        descriptor: u32,
        block: u32,
        offset: u32,
        bytes: Bytes,
    },
    Sync,
    TakeLock(u32),
    FreeLock(u32),
    Poke(u32, u32),
    Peek(u32),
    Tune {
        kind: u32,
        parameter: u32,
        value: u32,
    },
    Choose(u32, u32),
    Give {
        receiver: u32,
        kind: Kind,
        amount: u32,
    },
    Install {
        point: u32,
        slot: u32,
        limit: u32,
    },
    Remove(u32),
    Fund {
        point: u32,
        kind: Kind,
        amount: u32,
    },
    Bill(u32),
    Serve(u32, Bytes),
    StreamRead {
        descriptor: u32,
        block: u32,
        offset: u32,
        length: u32,
    },
    StreamWrite {
        descriptor: u32,
        block: u32,
        offset: u32,
        bytes: Bytes,
    },
}

/// What happens to a kernel.
#[derive(Drop)]
pub enum Event {
    Tick,
    Step(u32, u32),
    Sys(u32, SysCall),
}

/// A system call without its bytes, which are stored next to it: the name of `OpenName`, what
/// `Write` and `StreamWrite` write, and the event of `Serve`. All others have none (`call_with`,
/// `specs/Bare.antt`).
#[derive(Clone, Copy)]
pub enum BareCall {
    Spawn,
    Exit,
    Yield,
    OpenName,
    CloseFd(u32),
    Read {
        descriptor: u32,
        block: u32,
        offset: u32,
        length: u32,
    },
    Write {
        descriptor: u32,
        block: u32,
        offset: u32,
    },
    Sync,
    TakeLock(u32),
    FreeLock(u32),
    Poke(u32, u32),
    Peek(u32),
    Tune {
        kind: u32,
        parameter: u32,
        value: u32,
    },
    Choose(u32, u32),
    Give {
        receiver: u32,
        kind: Kind,
        amount: u32,
    },
    Install {
        point: u32,
        slot: u32,
        limit: u32,
    },
    Remove(u32),
    Fund {
        point: u32,
        kind: Kind,
        amount: u32,
    },
    Bill(u32),
    Serve(u32),
    StreamRead {
        descriptor: u32,
        block: u32,
        offset: u32,
        length: u32,
    },
    StreamWrite {
        descriptor: u32,
        block: u32,
        offset: u32,
    },
}

/// What happens to a kernel, without the bytes of a system call, which are stored next to it.
#[derive(Clone, Copy)]
pub enum BareEvent {
    Tick,
    Step(u32, u32),
    Sys(u32, BareCall),
}

/// The answer of a call that ends well.
#[derive(Clone, Copy)]
pub enum Reply {
    Plain,
    One(u32),
    Two(u32, u32),
}

/// Why a call is refused, in the order of the codes.
#[derive(Clone, Copy)]
pub enum Refusal {
    NoProcess,
    Busy(u32),
    Denied,
    BadPoint,
    BadFd,
    NoFile,
    NoFd,
    BadIndex,
    NoImage,
    Taken,
    NoGraft,
    Short(u64),
    Full,
    Held,
    NotHeld,
    DiskFault,
    TimedOut(Object, u8),
    PortFull,
}

/// Why a level is dropped, in the order of the codes.
#[derive(Clone, Copy)]
pub enum Cause {
    DivideByZero,
    Trap(u32),
    NotCallable(u32),
    BadArgument(u32),
    NotYours(u32),
    NotAllowed(u32),
    TooDeep,
    Reentered,
    SpentSteps,
    SpentRecords,
    SpentLocks,
    RefusedAnswer(u32, u32),
    TimeOut(Object, u8),
}

/// What happened. The first number is that of the event or of the call.
#[derive(Drop)]
pub enum Note {
    Ticked(u32, u32),
    Ended(u32, Reply),
    Refused(u32, Refusal),
    Gave(u32, Bytes),
    Dropped {
        number: u32,
        installer: u8,
        point: u8,
        cause: Cause,
    },
    Ran(u32, u32),
    Waits {
        number: u32,
        object: Object,
        holder: u8,
    },
    InGraft {
        number: u32,
        installer: u8,
        point: u8,
        depth: u8,
    },
}

/// A note without its bytes, which are stored next to it. For bytes that were given, it has the
/// number of the call and how many bytes there are.
#[derive(Clone, Copy)]
pub enum BareNote {
    Ticked(u32, u32),
    Ended(u32, Reply),
    Refused(u32, Refusal),
    Gave(u32, u16),
    Dropped {
        number: u32,
        installer: u8,
        point: u8,
        cause: Cause,
    },
    Ran(u32, u32),
    Waits {
        number: u32,
        object: Object,
        holder: u8,
    },
    InGraft {
        number: u32,
        installer: u8,
        point: u8,
        depth: u8,
    },
}

/// What undoes a change that a graft made: the value from before or, for a kept segment, its
/// installer and its point; the bytes from before are stored next to it.
#[derive(Clone, Copy)]
pub enum Inverse {
    Cell {
        process: u8,
        cell: u8,
        value: u32,
    },
    Nice(u8, u8),
    Window {
        process: u8,
        descriptor: u8,
        value: u8,
    },
    Mark(u8, u8),
    Tune {
        kind: u8,
        parameter: u8,
        value: u32,
    },
    Segment(u8, u8),
}

impl Default for Inverse {
    ghost use Rattle.kernel_data.specs.declared.Inverse.TheVariants.{Cell};

    /// Cell 0 of process 0 back to 0: the value in an unused place of a fixed list.
    fn default() -> Inverse
        ensures { result ≡ Cell 0 0 0 }
    {
        Inverse::Cell {
            process: 0,
            cell: 0,
            value: 0,
        }
    }
}

/// An operation of the graft machine, in the order of the codes.
#[derive(Clone, Copy, PartialEq, Eq)]
pub enum Op {
    Li,
    Mov,
    Add,
    Sub,
    Mul,
    And,
    Or,
    Xor,
    Shl,
    Shr,
    Divu,
    Remu,
    Sltu,
    Addi,
    Andi,
    Ldw,
    Stw,
    Ldb,
    Stb,
    Jmp,
    Jz,
    Jnz,
    Call,
    Callr,
    Trap,
    Ret,
}

/// An instruction with its fields.
#[derive(Clone, Copy)]
pub struct Instr {
    pub op: Op,
    pub a: u8,
    pub b: u8,
    pub c: u8,
    pub imm: u32,
}

/// A frame of the cache that is in use.
#[derive(Clone, Copy, Default)]
pub struct FrameRow {
    pub frame: u8,
    pub owner: u8,
    pub block: u32,
    pub dirty: bool,
    pub mark: u8,
}

/// A living process of the queue.
#[derive(Clone, Copy, Default)]
pub struct QueueRow {
    pub process: u8,
    pub nice: u8,
    pub slices: u32,
}

/// An open file of a process.
#[derive(Clone, Copy)]
pub struct OpenRow {
    pub file: u8,
    pub next: u32,
    pub window: u8,
    pub seq: bool,
    pub start: u32,
    pub count: u8,
}

/// A usable entry of the directory.
#[derive(Drop)]
pub struct FileRow {
    pub name: Name,
    pub start: u32,
    pub blocks: u32,
    pub length: u32,
}

/// An object that a piece needs. With `by_user`, the process that holds it as a user lock is a
/// blocker too.
#[derive(Clone, Copy)]
pub struct Need {
    pub object: Object,
    pub mode: Mode,
    pub by_user: bool,
}

impl Default for Need {
    ghost use Rattle.std.specs.Prelude.{false};
    ghost use Rattle.kernel_data.specs.declared.Object.TheVariants.{Graft};
    ghost use Rattle.kernel_data.specs.declared.Mode.TheVariants.{Shared};

    /// A first point, shared: the value in an unused place of a fixed list. All its bytes are
    /// zeros, so a list of these is made at once.
    fn default() -> Need
        ensures { result ≡ record { object = Graft 0 0; mode = Shared; by_user = false } }
    {
        Need {
            object: Object::Graft(0, 0),
            mode: Mode::Shared,
            by_user: false,
        }
    }
}

/// A point that a piece asks, with the arguments.
#[derive(Clone, Copy)]
pub struct Point {
    pub installer: u8,
    pub point: u8,
    pub args: [u32; 4],
}

/// At most 16 rows of the queue, front first, which contracts see as their list.
#[derive(Drop)]
pub struct QueueRows {
    rows: ArrayVec<QueueRow, PROCESSES>,
}

impl Model for QueueRows {
    ghost use Rattle.std.specs.Prelude.{List};
    ghost use Rattle.kernel_data.specs.declared.QueueRow.{QueueRow};

    ghost Value = { List QueueRow };

    ghost view = { λ n. n.rows.items };
}

/// At most 64 rows of frames in use, oldest first, which contracts see as their list.
#[derive(Drop)]
pub struct FrameRows {
    rows: ArrayVec<FrameRow, FRAMES>,
}

impl Model for FrameRows {
    ghost use Rattle.std.specs.Prelude.{List};
    ghost use Rattle.kernel_data.specs.declared.FrameRow.{FrameRow};

    ghost Value = { List FrameRow };

    ghost view = { λ n. n.rows.items };
}

/// What a call in flight waits for, and for how many ticks.
#[derive(Clone, Copy)]
pub struct WaitRow {
    pub object: Object,
    pub holder: u8,
    pub count: u32,
}

/// The innermost level of a call in flight.
#[derive(Clone, Copy)]
pub struct TopRow {
    pub installer: u8,
    pub point: u8,
    pub depth: u8,
}

/// A row of a kernel's whole state, in the order in which they are shown.
#[derive(Drop)]
pub enum RawRow {
    Clock(u32),
    Queue(QueueRows),
    Acct(u8, [u64; 6]),
    Cells(u8, [u32; 4]),
    OpenFile {
        process: u8,
        descriptor: u8,
        name: Name,
        row: OpenRow,
    },
    Graft {
        installer: u8,
        point: u8,
        slot: u8,
        limit: u32,
        billed: bool,
        amounts: [u64; 3],
    },
    Pol {
        kind: u8,
        policy: u8,
        parameter: Option<u32>,
    },
    Lru(FrameRows),
    Lock(u8, u8),
    Call {
        process: u8,
        number: u32,
        wait: Option<WaitRow>,
        top: Option<TopRow>,
    },
    Level {
        process: u8,
        depth: u8,
        installer: u8,
        point: u8,
        taken: u32,
    },
    Undo {
        process: u8,
        depth: u8,
        inverse: Inverse,
    },
}

/// How a level of a call in flight holds an object.
#[derive(Clone, Copy, PartialEq, Eq)]
pub enum Held {
    Free,
    Shared,
    Exclusive,
}
