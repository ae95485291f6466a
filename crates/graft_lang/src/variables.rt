//! The variables of a program.

ghost use Rattle.std.specs.Prelude.{◌≡◌, ◌≤◌, length};
ghost use Rattle.graft_texts.specs.LanguageReading as spec;

use graft_syntax::Syntax;
use std::marker::Model;

/// The variables that are known at the end of a program of at most 120 tokens: at most 124, the
/// four arguments among them. Contracts see their names.
#[derive(Drop)]
pub struct Variables<'s, 'a> {
    syntax: &'s Syntax<'a>,
}

impl<'s, 'a> Model for Variables<'s, 'a> {
    ghost use Rattle.std.specs.Prelude.{◌≤◌, ℕ, List, length};

    ghost Value = { List (List ℕ) };

    ghost view = { λ v. v.syntax.now.names };

    ghost invariant = { λ v. length v.syntax.now.names ≤ 124 };
}

impl<'s, 'a> Variables<'s, 'a> {
    /// The variables of what was read.
    pub fn new(syntax: &'s Syntax<'a>) -> Variables<'s, 'a>
        requires { length syntax.now.names ≤ 124 }
        ensures { result ≡ syntax.now.names }
    {
        Variables { syntax }
    }

    /// How many there are.
    pub fn count(&self) -> u32
        ensures count { result ≡ length self.now }
        ensures few { result ≤ 124 }
    {
        self.syntax.variables() as u32
    }

    /// The number of a variable: its place in the order of the first assignments, the arguments
    /// first.
    pub fn number_of(&self, name: &[u8]) -> u32
        ensures number { result ≡ spec.number_of self.now name.now }
        ensures few { result ≤ 124 }
    {
        self.syntax.number_of(name) as u32
    }
}
