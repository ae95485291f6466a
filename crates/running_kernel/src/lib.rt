//! The running kernel: what is in flight, what blocks a call, the order of waiting, and what an
//! event asks and shows of them.
//!
//! Contracts see the kernel in place of the definitions that a running kernel is (`placed_of`).
//! Steps, which move it, are above this crate.
#![tactic(auto)]

mod blocking;
mod flights;
mod looking;
mod opening;
mod order;
mod queries;
mod running;
mod shown;
mod slots;
mod waits;

pub use blocking::Hindrance;
pub use flights::{flight, number_of};
pub use order::{Blocking, Order, Waiting};
pub use running::{Flight, InFlight, Running};
pub use slots::Slot;
