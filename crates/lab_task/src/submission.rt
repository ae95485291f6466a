//! Whether a submission holds the grafts that a task asks for, and no more.

ghost use Rattle.std.specs.Prelude.{◌≡◌, ◌≤◌, ◌==◌, ◌∷◌, ◌++◌, [], length, map, Ok, IfOk, OnOk, MatchResult};
ghost use Rattle.std.specs.Prelude.{None, Some};
ghost use Rattle.std.specs.List.{list_any, slice_split};
ghost use Rattle.lab_reader.specs.Words.{parts_of, words_before};
ghost use Rattle.script_model.specs.World.{same_bytes};
ghost use Rattle.lab_task.specs.SubmissionFaults.{StepsAs, ReadsAs, IsFaultOf};
ghost use Rattle.lab_task.specs.Submission as spec;

use crate::faults::SubmissionFault;
use crate::reader::is_end;
use crate::words::words_of;
use lab_reader::{Text, with_spaces};
use script_model::NoMemory;
use std::alloc::Global;
use std::marker::Model;
use text_words::{Parts, put};

/// A graft that begins: its line and its name.
#[derive(Drop)]
struct Begun<'a> {
    line: usize,
    name: &'a [u8],
}

impl<'a> Model for Begun<'a> {
    ghost use Rattle.lab_task.specs.Submission as spec;

    ghost Value = { spec.Begun };

    ghost view = { λ b. record { line = b.line; name = b.name.now } };
}

/// The grafts that began so far, whether the last of them goes on, and the line that begins it.
#[derive(Drop)]
struct Scan<'a> {
    grafts: Vec<Begun<'a>>,
    inside: bool,
    begun: usize,
}

impl<'a> Model for Scan<'a> {
    ghost use Rattle.lab_task.specs.Submission as spec;

    ghost Value = { spec.Scan };

    ghost view = { λ s. record {
      grafts = s.grafts.items;
      inside = s.inside;
      begun = s.begun;
    } };
}

/// The name behind the word `graft`; nothing where there is no word.
fn name_in<'a>(words: &[&'a [u8]]) -> &'a [u8]
    ensures { result.now ≡ spec.name_in (map (λ (w : _). w.now) words.now) }
{
    match words.split_first() {
        None => b"",
        Some((name, _)) => name,
    }
}

impl<'a> Scan<'a> {
    /// Before the first line.
    fn new(alloc: Global) -> Scan<'a>
        ensures { result ≡ spec.first_scan }
    {
        Scan {
            grafts: Vec::new(alloc),
            inside: false,
            begun: 0,
        }
    }

    /// A graft begins.
    fn begin(&mut self, n: usize, words: &[&'a [u8]]) -> Result<(), NoMemory>
        ensures { OnOk result (self.new ≡ spec.begins n self.old
            (map (λ (w : _). w.now) words.now)) }
    {
        let graft = Begun {
            line: n,
            name: name_in(words),
        };
        put(&mut self.grafts, graft)?;
        self.inside = true;
        self.begun = n;
        Ok(())
    }

    /// A line outside of grafts.
    fn add_outside(&mut self, n: usize, words: &[&'a [u8]]) -> Result<(), SubmissionFault>
        ensures { StepsAs result self.new (spec.outside n self.old
            (map (λ (w : _). w.now) words.now)) }
    {
        match words.split_first() {
            None => Ok(()),
            Some((first, rest)) => {
                if *first == b"graft".as_slice() {
                    Ok(self.begin(n, rest)?)
                } else {
                    Err(SubmissionFault::Stray(n))
                }
            }
        }
    }

    /// What a line with these words adds.
    fn add_words(&mut self, n: usize, words: &[&'a [u8]]) -> Result<(), SubmissionFault>
        ensures { StepsAs result self.new (spec.with_words n self.old
            (map (λ (w : _). w.now) words.now)) }
    {
        if self.inside {
            self.inside = !is_end(words);
            return Ok(());
        }
        self.add_outside(n, words)
    }

    /// What a line adds.
    fn add_line(&mut self, alloc: Global, n: usize, line: &'a [u8]) -> Result<(), SubmissionFault>
        ensures { StepsAs result self.new (spec.with_words n self.old
            (words_before (parts_of line.now))) }
    {
        let words = words_of(alloc, line)?;
        self.add_words(n, words.as_slice())
    }
}

/// All lines of a text.
fn scan_lines<'a>(alloc: Global, text: &'a [u8]) -> Result<Scan<'a>, SubmissionFault>
    requires { length text.now ≤ 16_777_216 }
    ensures { ReadsAs result (spec.with_lines 1 spec.first_scan
        (slice_split (λ b. b == 10) text.now)) }
{
    let mut scan = Scan::new(alloc);
    let mut lines = Parts::new(text, b'\n');
    let mut number = 1;
    while let Some(line) = lines.next() {
        scan.add_line(alloc, number, line)?;
        number += 1;
    }
    Ok(scan)
}

/// Whether a name is among these.
fn is_among(name: &[u8], names: &[Text]) -> bool
    ensures { result ≡ spec.is_among name.now names.now }
{
    names.iter().any(|other| name == other.bytes())
}

/// Whether one of these grafts has this name.
fn is_begun(name: &[u8], grafts: &[Begun]) -> bool
    ensures { result ≡ list_any (λ (g : spec.Begun). same_bytes name.now g.name) grafts.now }
{
    grafts.iter().any(|graft| name == graft.name)
}

/// Each graft is one that the task asks for.
fn check_asked(gives: &[Text], grafts: &[Begun]) -> Result<(), SubmissionFault>
    ensures { MatchResult result (λ _. spec.unasked gives.now grafts.now ≡ None)
        (λ e. spec.unasked gives.now grafts.now ≡ Some e) }
{
    for graft in grafts {
        if !is_among(graft.name, gives) {
            return Err(SubmissionFault::NotAsked(graft.line));
        }
    }
    Ok(())
}

/// No graft that the task asks for is missing.
fn check_missing(gives: &[Text], grafts: &[Begun]) -> Result<(), SubmissionFault>
    ensures { MatchResult result (λ _. spec.missing 0 gives.now grafts.now ≡ None)
        (λ e. spec.missing 0 gives.now grafts.now ≡ Some e) }
{
    for (k, name) in gives.iter().enumerate() {
        if !is_begun(name.bytes(), grafts) {
            return Err(SubmissionFault::Missing(k));
        }
    }
    Ok(())
}

/// The grafts are those that the task asks for.
fn check_grafts(gives: &[Text], grafts: &[Begun]) -> Result<(), SubmissionFault>
    ensures { MatchResult result (λ _. spec.fault_in gives.now grafts.now ≡ None)
        (λ e. spec.fault_in gives.now grafts.now ≡ Some e) }
{
    check_asked(gives, grafts)?;
    check_missing(gives, grafts)
}

/// The same of a text whose tabs and carriage returns are spaces.
fn check_spaced(alloc: Global, gives: &[Text], text: &[u8]) -> Result<(), SubmissionFault>
    requires { length text.now ≤ 16_777_216 }
    ensures { IsFaultOf result (spec.fault_by gives.now (spec.grafts_in text.now)) }
{
    let scan = scan_lines(alloc, text)?;
    if scan.inside {
        return Err(SubmissionFault::NoEnd(scan.begun));
    }
    check_grafts(gives, scan.grafts.as_slice())
}

/// Whether a submission holds grafts alone, each of which the task asks for, and each that the task
/// asks for; or the first of these that fails.
pub fn check_submission(alloc: Global, gives: &[Text], text: &[u8]) -> Result<(), SubmissionFault>
    requires { length text.now ≤ 16_777_216 }
    ensures { IsFaultOf result (spec.fault_of gives.now text.now) }
{
    let spaced = with_spaces(alloc, text)?;
    check_spaced(alloc, gives, spaced.as_slice())
}
