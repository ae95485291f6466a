//! What is read of a text.

ghost use Rattle.std.specs.Prelude.{◌≡◌, ◌≤◌, ◌<◌, [], length, map, position, IfSome, OnOk};
ghost use Rattle.graft_texts.specs.World.{same_bytes};
ghost use Rattle.graft_syntax.specs.Views.{token_view, names_of};
ghost use Rattle.graft_texts.specs.LanguageReading as spec;

use crate::{NoMemory, Token};
use indexmap::IndexMap;
use std::alloc::Global;
use std::marker::Model;

/// The variables of a program, in the order of their first assignments.
pub type Names<'a> = IndexMap<&'a [u8], ()>;

/// What is read of a text: the tokens of its program, and the variables that are known at its end.
#[derive(Drop)]
pub struct Syntax<'a> {
    tokens: Vec<Token<'a>>,
    names: Names<'a>,
}

impl<'a> Model for Syntax<'a> {
    ghost use Rattle.std.specs.Prelude.{map};
    ghost use Rattle.graft_texts.specs.LanguageReading as spec;
    ghost use Rattle.graft_syntax.specs.Views.{token_view, names_of};

    ghost Value = { spec.Syntax };

    ghost view = { λ s. record { tokens = map token_view s.tokens.items; names = names_of s.names.entries } };
}

impl<'a> Syntax<'a> {
    /// These tokens and these variables.
    pub fn new(tokens: Vec<Token<'a>>, names: Names<'a>) -> Syntax<'a>
        ensures { result ≡ record {
          tokens = map token_view tokens.entry.items;
          names = names_of names.entry.entries;
        } }
    {
        Syntax { tokens, names }
    }

    /// The tokens.
    pub fn tokens(&self) -> &[Token<'a>]
        ensures { map token_view result.now ≡ self.now.tokens }
    {
        self.tokens.as_slice()
    }

    /// How many variables are known, the four arguments among them.
    pub fn variables(&self) -> usize
        ensures { result ≡ length self.now.names }
    {
        self.names.len()
    }

    /// The number of a variable: its place in the order of the first assignments, the arguments
    /// first.
    pub fn number_of(&self, name: &[u8]) -> usize
        ensures number { result ≡ spec.number_of self.now.names name.now }
        ensures within { result ≤ length self.now.names }
    {
        place_of(&self.names, name).unwrap_or(0)
    }
}

/// The place of a variable that is known.
fn place_of(names: &Names, name: &[u8]) -> Option<usize>
    ensures place { result ≡ position (same_bytes name.now) (names_of names.now.entries) }
    ensures within { IfSome result (λ i. i < length (names_of names.now.entries)) }
{
    names.get_index_of(name)
}

/// Puts a variable behind the others, unless it is known.
pub fn learn<'a>(names: &mut Names<'a>, name: &'a [u8]) -> Result<(), NoMemory>
    ensures { OnOk result (names_of names.new.entries
        ≡ spec.with_name name.now (names_of names.old.entries)) }
{
    match names.insert(name, ()) {
        Ok(_) => Ok(()),
        Err(_) => Err(NoMemory),
    }
}

/// The arguments of a program, which are known from the beginning.
pub fn learn_arguments(names: &mut Names) -> Result<(), NoMemory>
    requires { names_of names.old.entries ≡ [] }
    ensures { OnOk result (names_of names.new.entries ≡ spec.arguments) }
{
    learn(names, b"a0".as_slice())?;
    learn(names, b"a1".as_slice())?;
    learn(names, b"a2".as_slice())?;
    learn(names, b"a3".as_slice())
}
