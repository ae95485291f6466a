//! The words of the command line: what a call of the program asks.
//!
//! `docs/FORMATS.md` has their grammar.

ghost use Rattle.std.specs.Prelude.{◌≡◌, map, string_bytes};
ghost use Rattle.script_model.specs.Bytes.{number_of};
ghost use Rattle.graft_loader.specs.Keys.{keys_of};
ghost use Rattle.commands.specs.Words.{asked_by, asked_by_one, asked_by_two, asked_by_three};
ghost use Rattle.commands.specs.Words.{asked_with, asked_number};

use graft_loader::{Keys, read_keys};
use script_text::read_number;
use std::alloc::Global;

/// What the words of the command line ask.
#[derive(Clone, Copy)]
pub enum Asked {
    /// `run KEYS` or `run KEYS PATH`: a script is run.
    Run(Keys),
    /// `box KEYS` or `box KEYS keep`: a raw image is boxed and sealed, and keeps the segments of its
    /// grafts where the second says so.
    Box(Keys, bool),
    /// `check KEYS`: a sealed image is loaded.
    Check(Keys),
    /// `reseal KEYS`: a sealed image is sealed anew.
    Reseal(Keys),
    /// `asm`: a text is assembled.
    Asm,
    /// `dis`: an image is disassembled.
    Dis,
    /// `lang`: a text of the graft language is compiled.
    Lang,
    /// `audit KEYS`: a claim of what a script writes is compared with what it writes.
    Audit(Keys),
    /// `demo N`: the script of this number is run.
    Demo(u32),
    /// Other words.
    Nothing,
}

/// What the words ask, those behind the program's own name. Words that aren't in the grammar ask
/// nothing.
pub fn read_words(words: &[String]) -> Asked
    ensures { result ≡ asked_by (map (λ (w : _). string_bytes w) words.now) }
{
    match words {
        [word] => asked_one(word.as_bytes()),
        [word, other] => asked_two(word.as_bytes(), other.as_bytes()),
        [word, keys, third] => asked_three(word.as_bytes(), keys.as_bytes(), third.as_bytes()),
        _ => Asked::Nothing,
    }
}

/// What one word asks.
fn asked_one(word: &[u8]) -> Asked
    ensures { result ≡ asked_by_one word.now }
{
    if word == b"asm".as_slice() {
        Asked::Asm
    } else if word == b"dis".as_slice() {
        Asked::Dis
    } else if word == b"lang".as_slice() {
        Asked::Lang
    } else {
        Asked::Nothing
    }
}

/// What two words ask.
#[tactic(auto, unfolding(crate::specs::Words::asked_by_two))]
fn asked_two(word: &[u8], other: &[u8]) -> Asked
    ensures { result ≡ asked_by_two word.now other.now }
{
    if word == b"demo".as_slice() {
        return asked_demo(other);
    }
    asked_keyed(word, other)
}

/// What `demo` asks with a word that is to be a number.
fn asked_demo(number: &[u8]) -> Asked
    ensures { result ≡ asked_number (number_of number.now) }
{
    match read_number(number) {
        Some(n) => Asked::Demo(n),
        None => Asked::Nothing,
    }
}

/// What a word asks with another that is to be keys.
fn asked_keyed(word: &[u8], keys: &[u8]) -> Asked
    ensures { result ≡ asked_with word.now (keys_of keys.now) }
{
    let Some(keys) = read_keys(keys) else {
        return Asked::Nothing;
    };
    if word == b"run".as_slice() {
        Asked::Run(keys)
    } else if word == b"box".as_slice() {
        Asked::Box(keys, false)
    } else if word == b"check".as_slice() {
        Asked::Check(keys)
    } else if word == b"reseal".as_slice() {
        Asked::Reseal(keys)
    } else if word == b"audit".as_slice() {
        Asked::Audit(keys)
    } else {
        Asked::Nothing
    }
}

/// What a word, keys and a third word ask: that is a path, which isn't looked at, or `keep`.
#[tactic(auto, unfolding(crate::specs::Words::asked_by_three))]
fn asked_three(word: &[u8], keys: &[u8], third: &[u8]) -> Asked
    ensures { result ≡ asked_by_three word.now keys.now third.now }
{
    let Some(keys) = read_keys(keys) else {
        return Asked::Nothing;
    };
    if word == b"run".as_slice() {
        Asked::Run(keys)
    } else if word == b"box".as_slice() && third == b"keep".as_slice() {
        Asked::Box(keys, true)
    } else {
        Asked::Nothing
    }
}
