//! What a lab file says, read line by line: its settings, its grafts, the lines of its script and
//! the lines that are wanted of it; and why a file is refused.
#![tactic(auto)]

mod faults;
mod graft;
mod grafts;
mod lab;
mod reader;
mod settings;
mod sheet;
mod sheets;
mod table;
mod text;
mod words;

pub use crate::faults::{LabFault, LabKind};
pub use crate::graft::{Graft, Notation};
pub use crate::grafts::{place_of, statement_of};
pub use crate::lab::Lab;
pub use crate::reader::read_lab;
pub use crate::settings::Settings;
pub use crate::sheet::{Item, Sheet, Want};
pub use crate::text::Text;
pub use crate::words::with_spaces;
pub use script_model::{AsmKind, LangKind};
