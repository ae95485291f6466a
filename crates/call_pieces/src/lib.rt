//! The pieces of the system calls, over one store and a disk.
//!
//! A piece (`piece`) is what a call does in one step. Tables of calls (`Calls`) are what a kernel
//! runs.
#![tactic(auto)]

mod amounts;
mod beside;
mod calls;
mod locks;
mod one_piece;
mod pieces;
mod policies;
mod reads;
mod syncs;
mod writes;

pub use amounts::{bill, fund};
pub use beside::Beside;
pub use call_laws::{EventRules, StreamRules};
pub use call_needs::{
    Access, Gift, MOST_HANDLERS, Needs, TOP_POINT, Work, asks, block_ask, copy_body, copy_bytes_of,
    early_upto, fetch, laws, need, plan_block, refusal_upto,
};
pub use calls::{Calls, Plain};
use kernel_model::{Refusal, Reply};
pub use kernel_state::{Directory, Disk, DiskLog, Policy, Setup, Shelf, Store, read_directory};
pub use pieces::piece;
pub use ram_space::{Ram, Segments};
pub use writes::write;

/// What comes after a piece.
#[derive(Clone, Copy)]
pub enum Next {
    /// The next piece, where the work stands now.
    Goes,
    /// Nothing: the call ended well.
    Ends(Reply),
    /// Nothing: the call was refused.
    Fails(Refusal),
}
