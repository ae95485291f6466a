//! `Levels`.

ghost use Rattle.std.specs.Prelude.{◌≡◌, ◌<◌, ◌≤◌, ◌∷◌, [], length, reverse, IfSome, IfNone};
ghost use Rattle.std.specs.Option.{option_copied};
ghost use Rattle.graft_levels.specs.Chains.{is_running_in, first_level};

use crate::GraftLevel;
use arrayvec::ArrayVec;
use graft_machine::{FIRST_SEGMENT, Machine};
use std::marker::Model;

/// The most levels of a graft call.
pub const MOST_LEVELS: usize = 4;

impl Default for GraftLevel {
    /// What stands in a place of a fixed list that isn't used.
    fn default() -> GraftLevel {
        GraftLevel {
            owner: 0,
            point: 0,
            count: 0,
            args: [0; 4],
            machine: Machine::new(FIRST_SEGMENT, [0; 4]),
        }
    }
}

/// The levels of a graft call, at most four. Contracts see them innermost first.
#[derive(Drop)]
pub struct Levels {
    list: ArrayVec<GraftLevel, MOST_LEVELS>,
}

impl Model for Levels {
    ghost use Rattle.std.specs.Prelude.{List, reverse};
    ghost use Rattle.graft_levels.specs.declared.GraftLevel.{GraftLevel};

    ghost Value = { List GraftLevel };

    ghost view = { λ l. reverse l.list.items };
}

/// Whether the graft at point pt of process q is one of these levels.
fn is_among(levels: &[GraftLevel], q: u8, pt: u8) -> bool
    ensures { result ≡ is_running_in levels.now q pt }
{
    levels
        .iter()
        .any(|level| level.owner == q && level.point == pt)
}

impl Levels {
    /// No level.
    pub fn new() -> Levels
        ensures { result ≡ [] }
    {
        Levels {
            list: ArrayVec::new(),
        }
    }

    /// How many levels there are.
    pub fn count(&self) -> u8
        ensures value { result ≡ length self.now }
        ensures few { result ≤ 4 }
    {
        self.list.len() as u8
    }

    /// A level begins inside the others. There are fewer than four.
    pub fn push(&mut self, level: GraftLevel)
        requires { length self.old < 4 }
        ensures { self.new ≡ level ∷ self.old }
    {
        self.list.push(level);
    }

    /// Takes out the innermost level, if there is one.
    pub fn pop(&mut self) -> Option<GraftLevel>
        ensures level { IfSome result (λ g. self.old ≡ g ∷ self.new) }
        ensures none { IfNone result (self.old ≡ []) }
        ensures no_more { IfNone result (self.new ≡ []) }
    {
        self.list.pop()
    }

    /// The innermost level, if there is one.
    pub fn innermost(&self) -> Option<&GraftLevel>
        ensures { option_copied result ≡ first_level self.now }
    {
        self.list.last()
    }

    /// The levels, outermost first.
    pub fn as_slice(&self) -> &[GraftLevel]
        ensures value { reverse result.now ≡ self.now }
        ensures few { length result.now ≤ 4 }
    {
        self.list.as_slice()
    }

    /// Whether the graft at point pt of process q is a level.
    pub fn runs(&self, q: u8, pt: u8) -> bool
        ensures { result ≡ is_running_in self.now q pt }
    {
        is_among(self.list.as_slice(), q, pt)
    }
}
