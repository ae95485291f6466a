//! The kernel: events over one store and a disk, for any table of calls.
//!
//! Contracts see a kernel as the kernel in place of the definitions, which stands for an abstract
//! kernel, and an event as what it makes of that one (`EventRefines`).
#![tactic(auto)]

mod events;
mod images;
mod kernel;
mod last;
mod looking;
mod placed_rows;
mod settle;
mod stepping;
mod stretch;
mod ticks;

pub use call_pieces::Setup;
pub use images::ImageRefusal;
pub use kernel::{BootNote, Kernel};
pub use kernel_steps::{Notes, Trace};
pub use placed_rows::{FoundRow, RowPlace, Section};
