//! The parts of a text between separators: lines between newlines, words between spaces.

ghost use Rattle.std.specs.Prelude.{◌≡◌, ◌≤◌, ◌+◌, ◌==◌, ◌<◌, [], ◌∷◌, length, position};
ghost use Rattle.std.specs.Prelude.{slice_index_or, MatchOption, IfSome};
ghost use Rattle.std.specs.List.{slice_split};
ghost use Rattle.std.specs.Option.{option_copied};
ghost use Rattle.text_words.specs.Parts.{parts_left};

use std::marker::Model;

/// The parts of a text that are still to be taken. A text with n separators has n + 1 parts.
#[derive(Drop)]
pub struct Parts<'a> {
    rest: Option<&'a [u8]>,
    separator: u8,
}

impl<'a> Model for Parts<'a> {
    ghost use Rattle.std.specs.Prelude.{ℕ, List};
    ghost use Rattle.std.specs.Option.{option_copied};
    ghost use Rattle.text_words.specs.Parts.{parts_left};

    ghost Value = { List (List ℕ) };

    ghost view = { λ p. parts_left p.separator (option_copied p.rest) };
}

/// The place of the first separator, if there is one.
fn find(text: &[u8], separator: u8) -> Option<usize>
    ensures place { result ≡ position (λ b. b == separator) text.now }
    ensures within { IfSome result (λ at. at < length text.now) }
{
    text.iter().position(|b| *b == separator)
}

/// The part before the first separator, and what is behind it, if there is one.
fn split_first(text: &[u8], separator: u8) -> (&[u8], Option<&[u8]>)
    ensures { slice_split (λ b. b == separator) text.now ≡ result.0.now
        ∷ parts_left separator (option_copied result.1) }
{
    match find(text, separator) {
        None => (text, None),
        Some(at) => {
            let (part, _) = text.split_at(at);
            let (_, rest) = text.split_at(at + 1);
            (part, Some(rest))
        }
    }
}

impl<'a> Parts<'a> {
    /// The parts of a text.
    pub fn new(text: &'a [u8], separator: u8) -> Parts<'a>
        ensures parts { result ≡ slice_split (λ b. b == separator) text.now }
        ensures few { length result ≤ length text.now + 1 }
    {
        Parts {
            rest: Some(text),
            separator,
        }
    }

    /// Takes the first part.
    pub fn next(&mut self) -> Option<&'a [u8]>
        ensures { MatchOption (option_copied result) ((self.old ≡ [])
            × (self.new ≡ [])) (λ part. self.old ≡ part ∷ self.new) }
    {
        match self.rest {
            None => None,
            Some(text) => {
                let (part, rest) = split_first(text, self.separator);
                self.rest = rest;
                Some(part)
            }
        }
    }
}

/// The k-th word of a line, from 0; nothing past their end.
pub fn word_at(line: &[u8], k: usize) -> &[u8]
    ensures { result.now ≡ slice_index_or (slice_split (λ b. b == 32) line.now) k [] }
{
    part_at(line, b' ', k)
}

#[tactic(auto, using(crate::proofs::Passing::taken, crate::proofs::Passing::past))]
/// The k-th part of a text between separators, from 0; nothing past their end.
pub fn part_at(text: &[u8], separator: u8, k: usize) -> &[u8]
    ensures { result.now ≡ slice_index_or (slice_split (λ b. b == separator) text.now) k [] }
{
    let mut parts = Parts::new(text, separator);
    for _ in 0..k {
        let _ = parts.next();
    }
    match parts.next() {
        Some(part) => part,
        None => [].as_slice(),
    }
}
