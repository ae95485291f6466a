//! The variables that were assigned. Each is kept as the place of a word in the text, so that a
//! text of 16 MiB with as many variables as it can have takes 12 MB for them.

ghost use Rattle.std.specs.Prelude.{◌≡◌, ◌<◌, ◌∷◌, ◌++◌, [], length, position, true, IsTrue, IfSome, IfOk, OnOk};
ghost use Rattle.std.specs.List.{list_any};
ghost use Rattle.graft_texts.specs.World.{same_bytes};
ghost use Rattle.graft_texts.specs.LanguageReading as spec;
ghost use Rattle.graft_syntax.specs.Views.{names_of};
ghost use Rattle.graft_syntax.specs.Places.{is_separator, first_word, word_at, words_at, known_names};

use crate::NoMemory;
use crate::program::{Names, learn, learn_arguments};
use indexmap::IndexMap;
use std::alloc::Global;

/// So many bytes of a text have a chain.
const CHAIN_BYTES: usize = 16;

/// A variable takes at least so many bytes of a text, with its assignment.
const NAME_BYTES: usize = 8;

/// The number of no variable.
const NONE: u32 = u32::MAX;

/// A variable: where a word stands that is its name, and the number of the variable before it in
/// its chain.
#[derive(Clone, Copy)]
pub struct Entry {
    pub start: u32,
    pub before: u32,
}

/// The variables that were assigned. Each is in a chain, which its bytes decide, so that few need
/// be looked at to find it. No answer rests on the chains alone: a variable that isn't in its chain
/// is looked for among all.
#[derive(Drop)]
pub struct Known {
    entries: Vec<Entry>,
    /// The number of the last variable of each chain.
    last: Vec<u32>,
}

fn is_separator(b: u8) -> bool
    ensures { result ≡ is_separator b }
{
    b == b'\n' || b == b' '
}

/// Where the first separator stands, if there is one.
fn end_of_word(text: &[u8]) -> Option<usize>
    ensures place { result ≡ position is_separator text.now }
    ensures within { IfSome result (λ at. at < length text.now) }
{
    text.iter().position(|b| is_separator(*b))
}

/// The bytes before the first separator.
fn first_word(text: &[u8]) -> &[u8]
    ensures { result.now ≡ first_word text.now }
{
    match end_of_word(text) {
        None => text,
        Some(at) => {
            let (word, _) = text.split_at(at);
            word
        }
    }
}

/// The word that begins at a place of a text; no bytes at a separator and past the end.
pub fn word_at(text: &[u8], start: u32) -> &[u8]
    ensures { result.now ≡ word_at text.now start }
{
    let (_, rest) = text.split_at((start as usize).min(text.len()));
    first_word(rest)
}

/// One of so many chains. Any would do.
fn chain_of(name: &[u8], chains: usize) -> usize {
    let mut sum = 2_166_136_261u32;
    for b in name {
        sum = (sum ^ u32::from(*b)).wrapping_mul(16_777_619);
    }
    sum as usize % chains.max(1)
}

/// Looks for a name in a chain.
#[tactic(auto, using(crate::proofs::Knowing::is_known_entry))]
fn is_in_chain(text: &[u8], entries: &[Entry], last: u32, name: &[u8]) -> bool
    ensures { IsTrue result → spec.is_known name.now (words_at text.now entries.now) ≡ true }
{
    let mut number = last;
    while let Some(entry) = entries.get(number as usize) {
        if name == word_at(text, entry.start) {
            return true;
        }
        if entry.before >= number {
            return false;
        }
        number = entry.before;
    }
    false
}

/// Looks for a name among all.
fn is_among(text: &[u8], entries: &[Entry], name: &[u8]) -> bool
    ensures { result ≡ list_any (λ e. same_bytes name.now (word_at text.now e.start)) entries.now }
{
    entries
        .iter()
        .any(|entry| name == word_at(text, entry.start))
}

fn is_argument(name: &[u8]) -> bool
    ensures { result ≡ spec.is_known name.now spec.arguments }
{
    name == b"a0".as_slice()
        || name == b"a1".as_slice()
        || name == b"a2".as_slice()
        || name == b"a3".as_slice()
}

/// The last variable of a chain, if there is one.
fn last_of(last: &[u32], chain: usize) -> u32 {
    last.get(chain).copied().unwrap_or(NONE)
}

fn set_last(last: &mut Vec<u32>, chain: usize, number: u32) {
    if chain < last.len() {
        last[chain] = number;
    }
}

fn push(entries: &mut Vec<Entry>, entry: Entry) -> Result<(), NoMemory>
    ensures { OnOk result (entries.new.items ≡ entries.old.items ++ entry ∷ []) }
{
    match entries.push(entry) {
        Ok(()) => Ok(()),
        Err(_) => Err(NoMemory),
    }
}

impl Known {
    /// No variable was assigned.
    pub fn new(alloc: Global, text: &[u8]) -> Result<Known, NoMemory>
        ensures { IfOk result (λ known. known.entries.items ≡ []) }
    {
        let Ok(entries) = Vec::with_capacity(alloc, text.len() / NAME_BYTES) else {
            return Err(NoMemory);
        };
        match vec![in alloc; NONE; text.len() / CHAIN_BYTES + 1] {
            Ok(last) => Ok(Known { entries, last }),
            Err(_) => Err(NoMemory),
        }
    }

    /// Whether a variable is an argument or was assigned.
    #[tactic(auto, using(crate::proofs::Knowing::is_known_name))]
    pub fn is_known(&self, text: &[u8], name: &[u8]) -> bool
        ensures { result ≡ spec.is_known name.now (known_names text.now self.now.entries.items) }
    {
        is_argument(name) || self.is_assigned(text, name)
    }

    #[tactic(auto, using(crate::proofs::Knowing::is_known_by_test))]
    fn is_assigned(&self, text: &[u8], name: &[u8]) -> bool
        ensures { result ≡ spec.is_known name.now (words_at text.now self.now.entries.items) }
    {
        let last = last_of(self.last.as_slice(), chain_of(name, self.last.len()));
        let entries = self.entries.as_slice();
        is_in_chain(text, entries, last, name) || is_among(text, entries, name)
    }

    /// Adds the variable whose name begins at a place, unless it is found in its chain.
    #[tactic(auto, using(crate::proofs::Knowing::known_names_same, crate::proofs::Knowing::known_names_push))]
    pub fn assign(&mut self, text: &[u8], start: u32) -> Result<(), NoMemory>
        ensures { OnOk result (known_names text.now self.new.entries.items
            ≡ spec.with_name (word_at text.now start)
            (known_names text.now self.old.entries.items)) }
    {
        let name = word_at(text, start);
        let chain = chain_of(name, self.last.len());
        let before = last_of(self.last.as_slice(), chain);
        if is_in_chain(text, self.entries.as_slice(), before, name) {
            return Ok(());
        }
        let number = self.entries.len().min(NONE as usize) as u32;
        set_last(&mut self.last, chain, number);
        push(&mut self.entries, Entry { start, before })
    }

    /// The variables, in the order of their first assignments, the arguments first.
    #[tactic(auto, using(crate::proofs::Knowing::known_names_more))]
    pub fn names<'a>(&self, alloc: Global, text: &'a [u8]) -> Result<Names<'a>, NoMemory>
        ensures { IfOk result (λ names. names_of names.entries
            ≡ known_names text.now self.now.entries.items) }
    {
        let mut names = IndexMap::new(alloc);
        learn_arguments(&mut names)?;
        for entry in self.entries.as_slice() {
            learn(&mut names, word_at(text, entry.start))?;
        }
        Ok(names)
    }
}
