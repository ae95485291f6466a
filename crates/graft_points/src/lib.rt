//! Policies: who answers where no graft stands.
#![tactic(auto)]

mod ask;
mod boxed;
mod checks;
mod choice;
mod least;
mod policy;
mod shelf;
mod stock;

pub use ask::Ask;
pub use checks::{valid_ahead, valid_next, valid_victim};
pub use choice::{Choice, KINDS};
pub use policy::Policy;
pub use shelf::{POLICIES, Shelf, is_stock, put_last};
pub use stock::{RaNext, RaNone, RaSeq, SchedNice, SchedRound, VictimLru, VictimMark};
