//! What the commands of `lab` share: files, read or refused; runs over their disk and the stock
//! policies; and what is printed, with the status.
#![tactic(auto)]

mod edge;
mod files;
mod runs;
mod stock;
mod usage;

pub use crate::edge::{
    INPUT_FAILED, NO_MEMORY, OUTPUT_FAILED, REFUSED, TOO_LONG, UNWANTED, output_failed, unreadable,
    write_error, write_out,
};
pub use crate::files::{Opened, open, read_bytes};
pub use crate::runs::{ALL_EVENTS, spent_causes, status_of, tell_refused};
pub use crate::stock::{Spare, run_lab, spare_disk, tell_lab};
pub use crate::usage::{
    help, help_of, no_words, options_of, wrong_option, wrong_range, wrong_words,
};
