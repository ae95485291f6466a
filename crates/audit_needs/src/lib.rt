//! How a system call begins or is refused at once, and of each of its pieces what it needs, which
//! point it asks, and what the graft there is fed.
#![tactic(auto)]

use audit_state::{Accounts, Things, World};
use kernel_model::BareCall;
use std::alloc::Global;

pub mod asks;
pub mod blocks;
pub mod calls;
pub mod early;
mod events;
mod lists;
pub mod needs;
mod plain_asks;
pub mod plain_needs;
mod refusals;
mod streams;

/// Where a call stands, and what it carries from piece to piece.
#[derive(Drop)]
pub struct Stage {
    /// The call, and beside it its bytes: a name, what is written, or an event.
    pub call: BareCall,
    pub given: Vec<u8>,
    /// The number of its next piece, from 0.
    pub piece: u32,
    /// The handlers whose pieces are to come, each a process and a point.
    pub handlers: Vec<(u8, u8)>,
    /// How many of those before them completed.
    pub answers: u32,
    /// Bytes that were read, or are to be written.
    pub bytes: Vec<u8>,
}

/// What a piece is looked up in: what no line changes, and the objects.
pub struct Scene<'a> {
    pub alloc: Global,
    pub world: &'a World,
    pub accounts: &'a Accounts,
    pub things: &'a Things,
}
