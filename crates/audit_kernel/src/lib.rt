//! The auditor's kernel: what is committed, what is in flight, and what an event makes of it, from
//! the definitions alone.
//!
//! The history of a graft call has beside it the trace to which it leads, so no instruction is run
//! again for the next one.
#![tactic(auto)]

use audit_needs::Stage;
use audit_pieces::Store;
use audit_replay::{Mark, Trace};
use audit_state::World;
use graft_loader::Images;
use kernel_model::{Note, Object};
use std::alloc::Global;

mod call_rows;
mod events;
mod flights;
mod holds;
mod moves;
mod opening;
mod order;
mod outcomes;
mod outside;
mod pieces;
mod rows;
mod sights;
mod steps;
mod ticks;

/// What no event changes: the world, and the images that were loaded.
#[derive(Drop)]
pub struct Setting {
    pub alloc: Global,
    pub world: World,
    pub images: Images,
}

/// The history of a graft call, and the trace to which it leads; no trace where it leads nowhere.
#[derive(Drop)]
pub struct History {
    pub marks: Vec<Mark>,
    pub trace: Option<Trace>,
}

/// A call in flight: the number of the event that began it, where it stands, and its history,
/// exactly where it has a level.
#[derive(Drop)]
pub struct Flight {
    pub number: u32,
    pub stage: Stage,
    pub graft: Option<History>,
}

/// What blocks a call: an object, who holds it, and the number of the holder's call, or none for a
/// user lock.
#[derive(Clone, Copy)]
pub struct Blocker {
    pub object: Object,
    pub holder: u8,
    pub call: Option<u32>,
}

/// An object that a step needs, the process that holds it, and whether it does so by a user lock.
#[derive(Clone, Copy)]
struct Hindrance {
    object: Object,
    holder: u8,
    by_user: bool,
}

/// An entry of the order of waiting: the kept blocker, and for how many ticks.
#[derive(Clone, Copy)]
pub struct Waiter {
    pub process: u8,
    pub blocker: Option<Blocker>,
    pub count: u32,
}

/// A run: what is committed, the clock, the calls in flight by process, the order of waiting, and
/// the notes of the event that is under way or was the last.
#[derive(Drop)]
pub struct Run {
    pub setting: Setting,
    pub store: Store,
    pub clock: u32,
    pub flights: Vec<Option<Flight>>,
    pub order: Vec<Waiter>,
    pub notes: Vec<Note>,
}
