//! Tables of quick calls: each call has one piece, which asks no point and makes no call of the disk.
//!
//! What such a table is stands in `specs/QuickTables.antt`, and what has to hold of it in
//! `specs/QuickLaws.antt`. A type that implements `Quick` is such a table with its code, and
//! `QuickCalls` of it is a table as any other.
#![tactic(auto)]

mod quick;
mod table;

pub use call_pieces::{Needs, Next, Policy, Store, Work};
pub use kernel_model::{BareCall, Object, Refusal, Reply};
pub use quick::Quick;
pub use table::QuickCalls;
