//! A graft call, and one instruction of its innermost level, on values: a level that begins keeps a
//! copy of the objects, and a drop puts that copy back. There is no undo log and no lock table, and
//! each level takes its machine and its memory with it.
#![tactic(auto)]

use audit_machine::Machine;
use audit_state::{Accounts, Kept, Things, World};
use graft_loader::Images;
use kernel_model::{Held, Inverse, Kind, Micro, Object};
use std::alloc::Global;

mod accessors;
mod answers;
mod asks;
mod drops;
mod endings;
mod images;
mod instruction;
mod levels;
mod machines;
mod needs;
mod touched;

pub use answers::{answer_by_default, answer_innermost, touch_outermost};
pub use drops::drop_level;
pub use instruction::{micro, one_more};
pub use levels::{Begins, new_level};
pub use needs::{lock_user, next_needs};
pub use touched::{hold_of, is_held, touch_all};

/// What a history is run with: the world, the loaded images, and the process of the call.
#[derive(Clone, Copy)]
pub struct Place<'a> {
    pub alloc: Global,
    pub world: &'a World,
    pub images: &'a Images,
    pub process: u8,
}

/// How an object is held.
#[derive(Clone, Copy)]
pub struct Touch {
    pub object: Object,
    pub held: Held,
}

/// What a change found: what undoes it, and the segment that was kept before, if there was one.
#[derive(Drop)]
pub struct Record {
    pub inverse: Inverse,
    pub kept: Option<Kept>,
}

/// A level of a graft call: the graft, its machine, how many instructions it has taken, the objects
/// that it holds, the arguments that it was given, its records, newest first, and the objects as it
/// found them.
#[derive(Drop)]
pub struct Level {
    pub owner: u8,
    pub point: u8,
    pub machine: Machine,
    pub count: u32,
    pub touched: Vec<Touch>,
    pub args: [u32; 4],
    pub records: Vec<Record>,
    pub kept: Things,
}

/// A graft call: what it works on, and its levels, innermost first.
#[derive(Drop)]
pub struct Config {
    pub accounts: Accounts,
    pub things: Things,
    pub levels: Vec<Level>,
}

/// What an instruction did beyond its level.
#[derive(Clone, Copy)]
pub enum Effect {
    Asked(u8),
    Charged(u8, Kind),
    Removed(u8),
}

/// What an instruction came to, and its effects in order.
#[derive(Drop)]
pub struct Outcome {
    pub said: Micro,
    pub effects: Vec<Effect>,
}
