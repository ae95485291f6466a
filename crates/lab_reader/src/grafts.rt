//! How the lines of a graft are read.

ghost use Rattle.std.specs.Prelude.{◌≡◌, ◌<◌, ◌==◌, [], ◌∷◌, false, length, map, IfOk, OnOk, IfSome};
ghost use Rattle.lab_reader.specs.Faults.{ReadsAs};
ghost use Rattle.lab_reader.specs.Grafts as spec;
ghost use Rattle.lab_reader.specs.Words.{parts_of, words_before, joined, plain_word};
ghost use Rattle.std.specs.List.{slice_split};

use crate::faults::{LabFault, LabKind};
use crate::graft::{Graft, Notation};
use crate::table::GraftTable;
use crate::text::{Text, text_of};
use crate::words::{add_plain_word, add_word, is_hex, next_word};
use script_model::NoMemory;
use std::alloc::Global;
use text_words::{Parts, append, is_label, put};

impl Graft {
    /// No graft.
    pub fn none(alloc: Global) -> Graft
        ensures { result ≡ spec.new_graft [] Notation.Assembler false 0 }
    {
        let name = Text::new(Vec::new(alloc));
        Graft::without_text(alloc, name, Notation::Assembler, false, 0)
    }

    /// A graft with no text yet.
    pub fn without_text(
        alloc: Global,
        name: Text,
        notation: Notation,
        keep: bool,
        begun: usize,
    ) -> Graft
        ensures { result ≡ spec.new_graft name notation keep begun }
    {
        Graft {
            name,
            notation,
            keep,
            begun,
            text: Vec::new(alloc),
            lines: Vec::new(alloc),
        }
    }

    /// Its name.
    pub fn name(&self) -> &[u8]
        ensures { result.now ≡ self.now.name }
    {
        self.name.bytes()
    }

    /// What it is written in.
    pub fn notation(&self) -> Notation
        ensures { result ≡ self.now.notation }
    {
        self.notation
    }

    /// Whether it keeps its segment from one completed call to the next.
    pub fn keep(&self) -> bool
        ensures { result ≡ self.now.keep }
    {
        self.keep
    }

    /// The line that begins it.
    pub fn begun(&self) -> usize
        ensures { result ≡ self.now.begun }
    {
        self.begun
    }

    /// Its text, in plain lines.
    pub fn text(&self) -> &[u8]
        ensures { result.now ≡ self.now.text }
    {
        self.text.as_slice()
    }

    /// For each line of its text the line of the file that it comes from.
    pub fn lines(&self) -> &[usize]
        ensures { result.now ≡ self.now.lines }
    {
        self.lines.as_slice()
    }

    /// One more line of the text, which this line of the file wrote.
    fn add_line(&mut self, n: usize, line: &[u8]) -> Result<(), NoMemory>
        ensures { OnOk result (self.new ≡ spec.with_line n self.old line.now) }
    {
        append(&mut self.text, line)?;
        append(&mut self.text, b"\n")?;
        put(&mut self.lines, n)
    }

    /// One more statement, if there is one.
    fn add_statement(&mut self, n: usize, statement: &[u8]) -> Result<(), NoMemory>
        ensures { OnOk result (self.new ≡ spec.with_statement n self.old statement.now) }
    {
        if statement.is_empty() {
            return Ok(());
        }
        self.add_line(n, statement)
    }

    /// The statements of a line of assembler text.
    fn add_statements(&mut self, alloc: Global, n: usize, code: &[u8]) -> Result<(), NoMemory>
        ensures { OnOk result (self.new
            ≡ spec.with_statements n self.old (slice_split (λ b. b == 59) code.now)) }
    {
        let mut parts = Parts::new(code, b';');
        while let Some(part) = parts.next() {
            let statement = statement_of(alloc, part)?;
            self.add_statement(n, statement.as_slice())?;
        }
        Ok(())
    }

    /// What a line adds to it.
    pub fn add_code(&mut self, alloc: Global, n: usize, code: &[u8]) -> Result<(), NoMemory>
        ensures { OnOk result (self.new ≡ spec.with_code n self.old.notation self.old code.now) }
    {
        match self.notation {
            Notation::Assembler => self.add_statements(alloc, n, code),
            Notation::Language => self.add_line(n, code),
        }
    }
}

/// Whether the words of a part are data, which is hex digits as they stand.
fn is_data(part: &[u8]) -> bool
    ensures { result ≡ spec.is_data (words_before (parts_of part.now)) }
{
    let mut words = Parts::new(part, b' ');
    match next_word(&mut words) {
        None => false,
        Some(first) => first == b".bytes".as_slice(),
    }
}

/// Words as they stand.
fn kept(alloc: Global, mut words: Parts) -> Result<Vec<u8>, NoMemory>
    ensures { IfOk result (λ text. text.items ≡ joined (words_before words.entry)) }
{
    let mut text = Vec::new(alloc);
    while let Some(word) = next_word(&mut words) {
        add_word(&mut text, word)?;
    }
    Ok(text)
}

/// Words with numbers in decimal.
fn in_decimal(alloc: Global, mut words: Parts) -> Result<Vec<u8>, NoMemory>
    ensures { IfOk result (λ text. text.items
        ≡ joined (map plain_word (words_before words.entry))) }
{
    let mut text = Vec::new(alloc);
    while let Some(word) = next_word(&mut words) {
        add_plain_word(&mut text, word)?;
    }
    Ok(text)
}

/// An instruction, a label or data as the assembler reads it.
pub fn statement_of(alloc: Global, part: &[u8]) -> Result<Vec<u8>, NoMemory>
    ensures { IfOk result (λ statement. statement.items ≡ spec.statement_of part.now) }
{
    if is_data(part) {
        kept(alloc, Parts::new(part, b' '))
    } else {
        in_decimal(alloc, Parts::new(part, b' '))
    }
}

/// The place of the graft of this name.
pub fn place_of(name: &[u8], grafts: &[Graft]) -> Option<usize>
    ensures place { result ≡ spec.place_of name.now grafts.now }
    ensures within { IfSome result (λ i. i < length grafts.now) }
{
    grafts.iter().position(|graft| name == graft.name())
}

/// What keeps a name from being that of a new graft.
fn name_fault(name: &[u8], grafts: &GraftTable) -> Option<LabKind>
    ensures { result ≡ spec.name_fault name.now grafts.now }
{
    if !is_label(name) {
        Some(LabKind::BadName)
    } else if is_hex(name) {
        Some(LabKind::NameIsHex)
    } else if grafts.place_of(name).is_some() {
        Some(LabKind::GraftTwice)
    } else {
        None
    }
}

/// What one word behind the name of a graft says: what it is written in, and whether it keeps its
/// segment.
fn style_by_one(word: &[u8]) -> Option<(Notation, bool)>
    ensures { result ≡ spec.style_by_one word.now }
{
    if word == b"language".as_slice() {
        Some((Notation::Language, false))
    } else if word == b"keep".as_slice() {
        Some((Notation::Assembler, true))
    } else {
        None
    }
}

/// The same of two words.
fn style_by_two(word: &[u8], other: &[u8]) -> Option<(Notation, bool)>
    ensures { result ≡ spec.style_of (word.now ∷ other.now ∷ []) }
{
    if word == b"language".as_slice() && other == b"keep".as_slice() {
        Some((Notation::Language, true))
    } else {
        None
    }
}

/// The same of all words behind the name.
fn style_of(mut words: Parts) -> Option<(Notation, bool)>
    ensures { result ≡ spec.style_of words.entry }
{
    let Some(word) = words.next() else {
        return Some((Notation::Assembler, false));
    };
    let Some(other) = words.next() else {
        return style_by_one(word);
    };
    match words.next() {
        None => style_by_two(word, other),
        Some(_) => None,
    }
}

/// A graft of this name, unless it is none.
fn begun_by(
    alloc: Global,
    n: usize,
    name: &[u8],
    notation: Notation,
    keep: bool,
    grafts: &GraftTable,
) -> Result<Graft, LabFault>
    ensures { ReadsAs result (spec.begun_by n name.now notation keep
        (spec.name_fault name.now grafts.now)) }
{
    match name_fault(name, grafts) {
        Some(kind) => Err(LabFault::At(n, kind)),
        None => Ok(Graft::without_text(alloc, text_of(alloc, name)?, notation, keep, n)),
    }
}

/// The graft that the words behind `graft` begin.
pub fn begun_of(
    alloc: Global,
    n: usize,
    grafts: &GraftTable,
    mut words: Parts,
) -> Result<Graft, LabFault>
    ensures { ReadsAs result (spec.begun_of n grafts.now words.entry) }
{
    let Some(name) = words.next() else {
        return Err(LabFault::At(n, LabKind::BadGraft));
    };
    match style_of(words) {
        None => Err(LabFault::At(n, LabKind::BadGraft)),
        Some((notation, keep)) => begun_by(alloc, n, name, notation, keep, grafts),
    }
}
