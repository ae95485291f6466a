//! The lines of the script that a lab file says, and the lines that are wanted of it.

use crate::text::Text;
use std::marker::Model;

/// What a line of the file is in the script.
#[derive(Drop)]
pub enum Item {
    /// A line as it stands.
    Plain(Text),
    /// A line that loads an image into a slot, of the graft of this number, sealed as it stands
    /// where `raw` says so, and else boxed first.
    Sealed { slot: u32, graft: usize, raw: bool },
}

/// A wanted line: the line of the file that it stands in, the line of the script that is to write
/// it, and its text, in which the word `*` stands for any.
#[derive(Drop)]
pub struct Want {
    /// The line of the file that it stands in, from 1.
    pub line: usize,
    /// The line of the script that is to write it, from 1.
    pub owner: usize,
    /// Its text.
    pub text: Text,
}

/// What the lines so far said.
#[derive(Drop)]
pub struct Sheet {
    pub(crate) items: Vec<Item>,
    pub(crate) slots: Vec<u32>,
    pub(crate) wants: Vec<Want>,
    pub(crate) last: usize,
}

impl Model for Sheet {
    ghost use Rattle.lab_reader.specs.Sheet as spec;

    ghost Value = { spec.Sheet };

    ghost view = { λ s. record {
      items = s.items.items;
      slots = s.slots.items;
      wants = s.wants.items;
      last = s.last;
    } };
}
