//! The rules of the abstract kernel, and the laws of its tables of calls.
#![tactic(auto)]

mod rules;

pub use kernel_data::{
    BLOCK_BYTES, BareCall, BareEvent, BareNote, Cause, Event, FileRow, FrameRow, Held, Instr,
    Inverse, Kind, LAST_CALLABLE, Mode, Need, NoMemory, Note, Object, Op, OpenRow, PROCESSES,
    Point, QueueRow, RawRow, Refusal, Reply, SysCall, WaitRow,
};
pub use rules::Rules;

/// The outcome of one instruction of a graft: it went on; it waits for an object that this process
/// holds, as a user lock or not; level 0 of the call returned this answer; or this level, of the
/// graft at (installer, point), was dropped.
#[derive(Clone, Copy)]
pub enum Micro {
    Went,
    Blocked {
        object: Object,
        process: u8,
        user_lock: bool,
    },
    Completed([u32; 4]),
    Dropped {
        depth: u8,
        installer: u8,
        point: u8,
        cause: Cause,
    },
}
