//! The graft language: from a text to the tokens of a program (docs/LANGUAGE.md).
#![tactic(auto)]

ghost use Rattle.std.specs.Prelude.{◌≡◌, ◌≤◌, length, Ok, IfOk, IfErr};
ghost use Rattle.graft_syntax.specs.Faults.{Refuses};
ghost use Rattle.graft_texts.specs.LanguageReading as spec;

mod grammar;
pub mod laws;
mod names;
mod program;
mod reader;
mod tokens;

pub use crate::program::Syntax;
use crate::reader::read_text;
pub use crate::tokens::{arguments_of, same_symbol};
pub use graft_texts::{LangKind, NoMemory, Operator, Symbol};
use std::alloc::Global;
use thiserror::Error;

/// A token. A callable is named by its id.
#[derive(Clone, Copy)]
pub enum Token<'a> {
    Number(u32),
    Variable(&'a [u8]),
    Callable(u32),
    Infix(Operator),
    Mark(Symbol),
}

/// Why a text is refused: the number of the line from 1 and what is wrong with it, or no memory.
#[derive(Clone, Copy, PartialEq, Eq, Debug, Error)]
pub enum LangFault {
    #[error("line {0}: {1:?}")]
    At(u32, LangKind),
    #[error("out of memory")]
    NoMemory,
}

/// What a text of at most 16 MiB says: the tokens of its program and its variables, or the line
/// that is refused and why.
pub fn read(alloc: Global, text: &[u8]) -> Result<Syntax<'_>, LangFault>
    requires { length text.now ≤ 16_777_216 }
    ensures ok { IfOk result (λ s. spec.read text.now ≡ Ok s) }
    ensures err { IfErr result (λ fault. Refuses fault (spec.read text.now)) }
{
    read_text(alloc, text)
}
