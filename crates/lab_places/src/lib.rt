//! Where the lines, words, grafts and statements of a lab file are.
#![tactic(auto)]

mod grafts;
mod lines;
mod spans;
mod statements;

pub use crate::grafts::{Region, region_named, region_of, regions_of};
pub use crate::lines::{line_at, line_of};
pub use crate::spans::{Span, bytes_of, code_end, column_of, next_part, next_word, word_span};
pub use crate::statements::{Statement, statements_of};
pub use kernel_data::NoMemory;
