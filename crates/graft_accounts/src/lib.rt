//! Who has how much of each kind of amount, who spent it, and which grafts stand.
//!
//! Everything stands in arrays of fixed size: no call takes memory.
#![tactic(auto)]

mod accounts;
mod amounts;
mod points;
mod rows;

pub use accounts::Accounts;
pub use points::GraftPoint;
pub use rows::GraftRow;
