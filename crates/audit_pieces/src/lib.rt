//! What each piece of each system call does, in one step.
#![tactic(auto)]

use audit_state::{Accounts, Things, World};
use audit_table::Row;
use kernel_model::{Refusal, Reply};
use std::alloc::Global;

mod amounts;
mod bytes;
mod disk;
mod ends;
mod events;
mod fetch;
mod files;
mod numbers;
mod objects;
pub mod piece;
mod plain;
mod processes;
mod sample;
mod streams;

/// What is committed: the objects, the bytes of frames by frame, and the blocks of the disk that
/// were written, by number. All other blocks are the sample disk's.
#[derive(Drop)]
pub struct Store {
    pub accounts: Accounts,
    pub things: Things,
    pub pages: Vec<Row<Option<Vec<u8>>>>,
    pub disk: Vec<Row<Option<Vec<u8>>>>,
}

/// The answer of a graft call that completed: its first registers, and the bytes that it gives.
#[derive(Drop)]
pub struct Answer {
    pub registers: [u32; 4],
    pub body: Vec<u8>,
}

/// What a piece is done with: what no line changes, the process whose call it is of, and the answer
/// of the graft that it asked, if one answered.
pub struct Turn<'a> {
    pub alloc: Global,
    pub world: &'a World,
    pub process: u8,
    pub answer: &'a Option<Answer>,
}

/// What comes after a piece: the next one, at the stage as it is then, the call's end, or a
/// refusal.
#[derive(Clone, Copy)]
pub enum After {
    Continues,
    EndsWith(Reply),
    Fails(Refusal),
}

/// How a piece ended: the bytes that it gives, if it does, and what comes next.
#[derive(Drop)]
pub struct PieceEnd {
    pub gave: Option<Vec<u8>>,
    pub after: After,
}
