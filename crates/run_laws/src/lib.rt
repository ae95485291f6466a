//! Laws of whole runs, move by move: what all grafts take together, that the cache can't be seen,
//! what streams give and put, and that waiting ends.
#![tactic(auto)]

pub mod grants;
pub mod seen;
pub mod streams;
pub mod waits;
