//! What a run wrote so far, counted and hashed.

ghost use Rattle.std.specs.Prelude.{◌≡◌, ◌≤◌, ◌<◌, ◌+◌, ◌^◌, ◌++◌, ◌==◌, ℕ, List, [], length, filter};
ghost use Rattle.script_model.specs.declared.Note.{Note};
ghost use Rattle.script_model.specs.Bare.{note_with, notes_with};
ghost use Rattle.script_model.specs.Demo as demo;
ghost use Rattle.demo_text.specs.Tallies.{IsTally, is_newline, TakesMore};

use crate::summary::{Counts, print_summary};
use line_text::Text;
use script_model::BareNote;
use sha2::{Digest, Sha256};

/// The lines, calls and drops of a run so far, and the digest of what it wrote.
#[derive(Drop)]
pub struct Tally {
    counts: Counts,
    hash: Sha256,
}

/// How many lines these bytes are.
fn count_lines(bytes: &[u8]) -> u64
    ensures { result ≡ length (filter is_newline bytes.now) }
{
    bytes.iter().filter(|byte| **byte == b'\n').count() as u64
}

/// How many calls ended well.
fn count_ended(notes: &[BareNote]) -> u64
    ensures { result ≡ length (filter (λ n. demo.is_ended (note_with n [])) notes.now) }
{
    notes
        .iter()
        .filter(|note| matches!(note, BareNote::Ended(_, _)))
        .count() as u64
}

/// How many calls were refused.
fn count_refused(notes: &[BareNote]) -> u64
    ensures { result ≡ length (filter (λ n. demo.is_refused (note_with n [])) notes.now) }
{
    notes
        .iter()
        .filter(|note| matches!(note, BareNote::Refused(_, _)))
        .count() as u64
}

/// How many levels were dropped.
fn count_drops(notes: &[BareNote]) -> u64
    ensures { result ≡ length (filter (λ n. demo.is_dropped (note_with n [])) notes.now) }
{
    notes
        .iter()
        .filter(|note| matches!(note, BareNote::Dropped { .. }))
        .count() as u64
}

impl Tally {
    /// Before the first line.
    pub fn new() -> Tally
        ensures { IsTally result [] [] }
    {
        Tally {
            counts: Counts {
                lines: 0,
                ended: 0,
                refused: 0,
                drops: 0,
            },
            hash: Sha256::new(),
        }
    }

    /// More bytes, and the notes of which they tell, whatever bytes these gave.
    pub fn add(&mut self, bytes: &[u8], notes: &[BareNote])
        requires { TakesMore self.old bytes.now (length notes.now) }
        ensures { (given written : List ℕ) (told : List Note) → IsTally self.old written told →
            IsTally self.new (written ++ bytes.now) (told ++ notes_with notes.now given) }
    {
        self.counts.lines += count_lines(bytes);
        self.counts.ended += count_ended(notes);
        self.counts.refused += count_refused(notes);
        self.counts.drops += count_drops(notes);
        self.hash.update(bytes);
    }

    /// The line that tells of the run of the script of this number.
    pub fn print(self, n: u32, out: &mut Text)
        ensures { (written : List ℕ) (told : List Note) → IsTally self written told →
            out.new ≡ demo.summary_of n written told }
    {
        let digest = self.hash.finalize();
        print_summary(n, &self.counts, &digest, out);
    }
}
