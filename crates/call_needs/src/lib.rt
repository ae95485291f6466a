//! Calls in flight, over one store and a disk: what a call is before its first piece, what its next
//! piece needs and asks, and how blocks and the bytes of answers come to it.
//!
//! A call is refused at once (`early_upto`), or it is in flight as `Work` until a piece ends it.
#![tactic(auto)]

ghost use Rattle.std.specs.Prelude.{◌≡◌};
ghost use Rattle.kernel_model.specs.Meaning.{stage};
ghost use Rattle.kernel_model.specs.declared.SysCall.TheVariants.{Sync};
ghost use Rattle.call_needs.specs.Works.{begun, stage_of, carrying_nothing};

mod begin;
mod bodies;
mod fetches;
mod gifts;
pub mod laws;
mod needs;
mod plans;
mod points;

use arrayvec::ArrayVec;
pub use begin::{TOP_POINT, early_upto, refusal_upto};
pub use bodies::{copy_body, copy_bytes_of, frame_bytes};
pub use fetches::{fetch, fetch_ahead};
pub use gifts::Gift;
use kernel_model::{BLOCK_BYTES, BareCall};
pub use needs::{NEEDS, Needs, need};
pub use plans::{Place, Plan, Room, plan_ahead, plan_block};
pub use points::{asks, block_ask};

/// The most handlers that one `serve` asks: those of a port.
pub const MOST_HANDLERS: usize = 8;

/// What a piece of a read or a write of process p asks for: bytes off to off + len of block i of
/// the file at descriptor fd. The answer is that of the point that the piece asks, or there is none.
#[derive(Clone, Copy)]
pub struct Access {
    pub p: u8,
    pub fd: u32,
    pub i: u32,
    pub off: u32,
    pub len: u32,
    pub answer: Option<[u32; 4]>,
}

/// A call in flight. It stays where it is from its first piece to its last.
#[derive(Drop)]
pub struct Work {
    /// The process that made it.
    pub caller: u8,
    /// The call, without its bytes.
    pub call: BareCall,
    /// The name of `open`, what a write writes, or the event of `serve`. No other call looks at
    /// them.
    pub bytes: ArrayVec<u8, BLOCK_BYTES>,
    /// The number of its next piece, from 0. Every piece of a read after the second has number 2.
    pub piece: u8,
    /// The handlers whose pieces of a `serve` are to come, each a process and a point.
    pub handlers: ArrayVec<(u8, u8), MOST_HANDLERS>,
    /// How many handlers before those completed.
    pub answers: u8,
    /// What a stream read, or is to write.
    pub carried: ArrayVec<u8, BLOCK_BYTES>,
}

impl Work {
    /// Some call, to be written over by the next that is granted.
    pub fn new() -> Work
        ensures { stage_of result ≡ stage Sync 0 }
    {
        Work {
            caller: 0,
            call: BareCall::Sync,
            bytes: ArrayVec::new(),
            piece: 0,
            handlers: ArrayVec::new(),
            answers: 0,
            carried: ArrayVec::new(),
        }
    }

    /// A call takes the place of what stood here, before its first piece. Only the bytes that there
    /// are are copied.
    pub fn set_call(&mut self, caller: u8, call: BareCall, bytes: &ArrayVec<u8, BLOCK_BYTES>)
        ensures { self.new ≡ begun caller call bytes.now }
    {
        self.caller = caller;
        self.call = call;
        self.piece = 0;
        copy_bytes(&mut self.bytes, bytes);
        self.carry_nothing();
    }

    /// The call carries nothing from here on.
    pub fn carry_nothing(&mut self)
        ensures { self.new ≡ carrying_nothing self.old }
    {
        self.handlers.clear();
        self.answers = 0;
        self.carried.clear();
    }
}

/// The same bytes once more.
fn copy_bytes(to: &mut ArrayVec<u8, BLOCK_BYTES>, from: &ArrayVec<u8, BLOCK_BYTES>)
    ensures { to.new.items ≡ from.now.items }
{
    to.clear();
    if from.is_empty() {
        return;
    }
    let _ = to.try_extend_from_slice(from.as_slice());
}
