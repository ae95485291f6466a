//! What the readers and writers of texts share: the parts between separators, names and numbers.
#![tactic(auto)]

mod bytes;
mod parts;
mod words;

pub use crate::bytes::{append, append_number, append_with, put};
pub use crate::parts::{Parts, part_at, word_at};
pub use crate::words::{is_label, number_of, place_of};
