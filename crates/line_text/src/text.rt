//! `Text`: a line that is written.

ghost use Rattle.std.specs.Prelude.{◌≡◌, ◌≤◌, ◌+◌, ◌*◌, [], ◌∷◌, ◌++◌, length, nat_lt, if◌then◌else◌};
ghost use Rattle.script_model.specs.Bytes.{hex_text};
ghost use Rattle.script_model.specs.Bytes.{spaced};

use crate::append::spaced_u64;
use crate::cells::{Cells, TEXT_BYTES, add, hex_digits};
use std::marker::Model;

/// At most 2,048 bytes, which lie in the value itself: no call takes memory. Contracts see their
/// list.
#[derive(Drop)]
pub struct Text {
    pub(crate) cells: Cells,
    pub(crate) count: usize,
}

impl Model for Text {
    ghost use Rattle.std.specs.Prelude.{ℕ, List, ◌≤◌, take};

    ghost Value = { List ℕ };

    ghost view = { λ t. take t.count t.cells };

    ghost invariant = { λ t. t.count ≤ 2048 };
}

/// Zeros.
fn zeros<const N: usize>() -> [u8; N] {
    [0; N]
}

impl Text {
    /// No bytes.
    pub fn new() -> Text
        ensures { result ≡ [] }
    {
        Text {
            cells: zeros(),
            count: 0,
        }
    }

    /// Appends a byte. False, with nothing changed, exactly where the text is full.
    pub fn push(&mut self, v: u8) -> bool
        ensures fits { result ≡ nat_lt (length self.old) TEXT_BYTES }
        ensures value { self.new ≡ (if result then self.old ++ v ∷ [] else self.old) }
    {
        if self.count == TEXT_BYTES {
            return false;
        }
        self.count = add(&mut self.cells, self.count, [v].as_slice());
        true
    }

    /// Appends bytes.
    pub fn add(&mut self, bytes: &[u8])
        requires { length self.old + length bytes.now ≤ 2048 }
        ensures text { self.new ≡ self.old ++ bytes.now }
        ensures len { length self.new ≡ length self.old + length bytes.now }
    {
        self.count = add(&mut self.cells, self.count, bytes);
    }

    /// Appends a space and a number, of at most 20 digits.
    pub fn add_spaced(&mut self, n: u64)
        requires { length self.old + 21 ≤ 2048 }
        ensures text { self.new ≡ self.old ++ spaced n }
        ensures len { length self.new ≤ length self.old + 21 }
    {
        self.count = spaced_u64(&mut self.cells, self.count, n);
    }

    /// Appends bytes as hex digits of lower case.
    pub fn add_hex(&mut self, bytes: &[u8])
        requires { length self.old + 2 * length bytes.now ≤ 2048 }
        ensures text { self.new ≡ self.old ++ hex_text bytes.now }
        ensures len { length self.new ≡ length self.old + 2 * length bytes.now }
    {
        self.count = hex_digits(&mut self.cells, self.count, bytes);
    }

    /// The bytes, first to last.
    pub fn as_slice(&self) -> &[u8]
        ensures value { result.now ≡ self.now }
        ensures fits { length result.now ≤ TEXT_BYTES }
    {
        &self.cells[..self.count]
    }

    /// No bytes again.
    pub fn clear(&mut self)
        ensures { self.new ≡ [] }
    {
        self.count = 0;
    }

    /// The same text once more.
    pub fn copy(&self) -> Text
        ensures { result ≡ self.now }
    {
        let mut text = Text::new();
        text.add(self.as_slice());
        text
    }
}
