//! The table of event points: `serve`, and the calls on grafts that handle events.
#![tactic(auto)]

mod begin;
mod calls;
mod handlers;
mod needs;
mod pieces;
mod serving;

pub use calls::EventPoints;
