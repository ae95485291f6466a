//! The table of stream points: `sread` and `swrite`, and the calls on grafts that change what
//! streams carry.
#![tactic(auto)]

mod begin;
mod calls;
mod needs;
mod pieces;
mod streams;

pub use calls::StreamPoints;
