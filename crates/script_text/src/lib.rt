//! The lines of a script, read: byte by byte, and line by line.
//!
//! The grammar stands in `docs/FORMATS.md`.
#![tactic(auto)]

mod commands;
mod digits;
mod hexes;
mod image_bytes;
pub mod laws;
mod line_buf;
mod parse;
mod words;

pub use commands::{OwnWord, no_words};
pub use digits::read_number;
pub use image_bytes::ImageBytes;
pub use line_buf::{Fed, LineBuf};
pub use parse::{Entry, ScriptFault, parse_line};
pub use script_model::CallName;
