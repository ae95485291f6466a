//! The forms of the lines that the program writes, and what its lines and codes say in words.
#![tactic(auto)]

mod beside;
mod form;
mod sentences;
mod slot;

pub use crate::form::{Form, PLAIN_FORMS, form_is_told, form_of, told_form};
pub use crate::sentences::{append_object, sentence_of};
pub use crate::slot::before_parenthesis;
pub use lab_codes::{
    CODES, CallCode, Code, DropCode, ImageCode, InputCode, RewriterCode, ScriptCode, StatusCode,
    Words, code_of, codes_page, explanation, page_of, text_of, words_of,
};
pub use script_model::{AsmKind, LangKind, NoMemory};
