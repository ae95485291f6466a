//! A graft that a lab file writes: its text as the assembler or the compiler reads it.

use crate::text::Text;
use std::marker::Model;

/// What a graft is written in.
#[derive(Clone, Copy, PartialEq, Eq, Debug)]
pub enum Notation {
    /// Instructions.
    Assembler,
    /// The graft language.
    Language,
}

/// A graft: its name, what it is written in, whether it keeps its segment from one completed call
/// to the next, the line that begins it, its text, and for each line of the text the line of the
/// file that it comes from.
#[derive(Drop)]
pub struct Graft {
    pub(crate) name: Text,
    pub(crate) notation: Notation,
    pub(crate) keep: bool,
    pub(crate) begun: usize,
    pub(crate) text: Vec<u8>,
    pub(crate) lines: Vec<usize>,
}

impl Model for Graft {
    ghost use Rattle.lab_reader.specs.Grafts as spec;

    ghost Value = { spec.Graft };

    ghost view = { λ g. record {
      name = g.name;
      notation = g.notation;
      keep = g.keep;
      begun = g.begun;
      text = g.text.items;
      lines = g.lines.items;
    } };
}
