//! The codes that the program writes: refusals, causes of dropped grafts and exit statuses; and what
//! is said of each: its meaning, its usual cause, its page and a file that shows it.
#![tactic(auto)]

mod code;
mod entry;
mod explain;
pub mod laws;
mod words;

pub use crate::code::{
    CODES, CallCode, Code, DropCode, ImageCode, InputCode, RewriterCode, ScriptCode, StatusCode,
    code_of, text_of,
};
pub use crate::entry::{page_of, words_of};
pub use crate::explain::{codes_page, explanation};
pub use crate::words::Words;
pub use script_model::{AsmKind, LangKind};
