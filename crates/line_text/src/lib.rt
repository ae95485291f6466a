//! The lines that the kernel writes: of notes, of raw rows, and the few others.
//!
//! Their formats stand in `docs/FORMATS.md`.
#![tactic(auto)]

mod append;
mod cells;
mod digits;
mod ends;
mod print;
mod rows;
mod text;

pub use ends::{
    print_boot, print_fault, print_left, print_loaded, print_unloaded, print_unloaded_at, usage,
};
pub use print::{append_note, print_note};
pub use rows::{LentRow, print_lent, print_row};
pub use text::Text;
