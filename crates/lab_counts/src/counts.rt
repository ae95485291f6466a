//! Counts of what written lines say.

ghost use Rattle.std.specs.Prelude.{◌≡◌, ◌^◌, ◌-◌, min, map, sum, count_by};
ghost use Rattle.lab_counts.specs.Notes as spec;

use crate::notes::{Note, Said};

/// How a call comes to its end.
#[derive(Clone, Copy)]
pub enum End {
    /// It ends well.
    Ended,
    /// It is refused.
    Refused,
    /// It is in flight at the end of the script.
    Left,
}

/// Whether a call comes to its end so.
fn is_end(said: Said, end: End) -> bool
    ensures { result ≡ spec.is_end said end }
{
    match (said, end) {
        (Said::Ended, End::Ended) | (Said::Refused, End::Refused) | (Said::Left, End::Left) => true,
        _ => false,
    }
}

/// Whether a note is of the end of a call.
fn is_of_calls(note: &Note, end: End) -> bool
    ensures { result ≡ spec.is_of_calls end note.now }
{
    note.call.is_some() && is_end(note.said, end)
}

/// Whether a note is of this call.
fn is_call(call: Option<usize>, wanted: usize) -> bool
    ensures { result ≡ spec.is_call wanted call }
{
    match call {
        Some(call) => call == wanted,
        None => false,
    }
}

/// Whether a note is of the end of this call.
fn is_of_call(note: &Note, call: usize, end: End) -> bool
    ensures { result ≡ spec.is_of_call call end note.now }
{
    is_call(note.call, call) && is_end(note.said, end)
}

/// Whether a note is of a drop for the cause of this number.
fn is_drop(note: &Note, cause: u32) -> bool
    ensures { result ≡ spec.is_drop cause note.now }
{
    match note.said {
        Said::Dropped(number) => number == cause,
        _ => false,
    }
}

/// How many calls came to their end so.
pub fn count_calls(notes: &[Note], end: End) -> usize
    ensures { result ≡ count_by (spec.is_of_calls end) notes.now }
{
    notes.iter().filter(|note| is_of_calls(*note, end)).count()
}

/// How many calls of this command came to their end so.
pub fn count_of_call(notes: &[Note], call: usize, end: End) -> usize
    ensures { result ≡ count_by (spec.is_of_call call end) notes.now }
{
    notes
        .iter()
        .filter(|note| is_of_call(*note, call, end))
        .count()
}

/// How many grafts were dropped for the cause of this number.
pub fn count_drops(notes: &[Note], cause: u32) -> usize
    ensures { result ≡ count_by (spec.is_drop cause) notes.now }
{
    notes.iter().filter(|note| is_drop(*note, cause)).count()
}

/// How many instructions a note says were taken up.
fn taken_in(note: &Note) -> u32
    ensures { result ≡ spec.taken_in note.now }
{
    match note.said {
        Said::Taken(count) => count,
        _ => 0,
    }
}

/// How many instructions were taken up; the sum stands still at 2^64 - 1.
pub fn sum_taken(notes: &[Note]) -> u64
    ensures { result ≡ min (sum (map spec.taken_in notes.now)) (2 ^ 64 - 1) }
{
    let mut sum: u64 = 0;
    for note in notes {
        sum = sum.saturating_add(u64::from(taken_in(note)));
    }
    sum
}
