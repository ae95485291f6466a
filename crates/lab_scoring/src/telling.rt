//! A ranking, in words.

ghost use Rattle.std.specs.Prelude.{◌≡◌, ◌++◌, decimal, map, replicate, IfOk, OnOk};
ghost use Rattle.std.specs.List.{flat_map};
ghost use Rattle.lab_scoring.specs.Ranking as spec;

use crate::entries::{Entry, Standing, count_ahead, rank};
use kernel_data::NoMemory;
use std::alloc::Global;
use text_words::append;

/// The columns of a place, and of a figure.
const PLACE: usize = 5;

const VALUE: usize = 14;

/// Appends so many spaces.
fn append_spaces(out: &mut Vec<u8>, count: usize) -> Result<(), NoMemory>
    ensures { OnOk result (out.new.items ≡ out.old.items ++ replicate count 32) }
{
    for _ in 0..count {
        append(out, b" ")?;
    }
    Ok(())
}

/// Appends a number, with spaces before it up to a width.
fn append_right(out: &mut Vec<u8>, n: u64, width: usize) -> Result<(), NoMemory>
    ensures { OnOk result (out.new.items ≡ out.old.items ++ spec.right width (decimal n)) }
{
    let mut digits = itoa::Buffer::new();
    let text = digits.format(n).as_bytes();
    append_spaces(out, width.saturating_sub(text.len()))?;
    append(out, text)
}

/// A byte of a name, with `?` for a control sign.
fn shown(byte: u8) -> u8
    ensures { result ≡ spec.shown byte }
{
    if byte < 32 || byte == 127 { b'?' } else { byte }
}

/// Appends a name in one line.
pub(crate) fn append_shown(out: &mut Vec<u8>, name: &[u8]) -> Result<(), NoMemory>
    ensures { OnOk result (out.new.items ≡ out.old.items ++ map spec.shown name.now) }
{
    for byte in name {
        append(out, &[shown(*byte)])?;
    }
    Ok(())
}

/// Appends the line of an entry that is ranked.
fn append_ranked(out: &mut Vec<u8>, place: u64, entry: &Entry) -> Result<(), NoMemory>
    ensures { OnOk result (out.new.items ≡ out.old.items ++ spec.ranked_line place entry.now) }
{
    append_right(out, place, PLACE)?;
    append_right(out, entry.value, VALUE)?;
    append(out, b"  ")?;
    append_shown(out, entry.name.as_slice())?;
    append(out, b"\n")
}

/// Appends the line of an entry that isn't, and why it isn't.
fn append_unranked(out: &mut Vec<u8>, entry: &Entry, why: &[u8]) -> Result<(), NoMemory>
    ensures { OnOk result (out.new.items ≡ out.old.items ++ spec.unranked_line entry.now why.now) }
{
    append(out, b"    -             -  ")?;
    append_shown(out, entry.name.as_slice())?;
    append(out, why)
}

/// Appends the line of an entry among all that are told.
fn append_line(out: &mut Vec<u8>, most: bool, all: &[Entry], entry: &Entry) -> Result<(), NoMemory>
    ensures { OnOk result (out.new.items
        ≡ out.old.items ++ spec.line_of most all.now entry.now) }
{
    match entry.standing {
        Standing::Passed => {
            let place = count_ahead(all, most, entry.value) as u64 + 1;
            append_ranked(out, place, entry)
        }
        Standing::Failed => append_unranked(out, entry, b": fails a test\n"),
        Standing::Refused => append_unranked(out, entry, b": refused\n"),
    }
}

/// Appends the lines of all entries.
fn append_lines(out: &mut Vec<u8>, most: bool, all: &[Entry]) -> Result<(), NoMemory>
    ensures { OnOk result (out.new.items
        ≡ out.old.items ++ flat_map (spec.line_of most all.now) all.now) }
{
    for entry in all {
        append_line(out, most, all, entry)?;
    }
    Ok(())
}

/// Appends the line above the ranking.
fn append_head(out: &mut Vec<u8>, most: bool, figure: &[u8]) -> Result<(), NoMemory>
    ensures { OnOk result (out.new.items ≡ out.old.items ++ spec.head most figure.now) }
{
    append_shown(out, figure)?;
    if most {
        append(out, b", most first\n")
    } else {
        append(out, b", least first\n")
    }
}

/// Ranks entries, and tells of each in a line: the best figure first, and equal ones with the same
/// place. Those that aren't ranked stand below.
pub fn tell_ranking(
    alloc: Global,
    figure: &[u8],
    most: bool,
    mut entries: Vec<Entry>,
) -> Result<Vec<u8>, NoMemory>
    ensures { IfOk result (λ text. spec.IsTold most figure.now entries.items text.items) }
{
    rank(&mut entries, most)?;
    let mut out = Vec::new(alloc);
    append_head(&mut out, most, figure)?;
    append_lines(&mut out, most, entries.as_slice())?;
    Ok(out)
}
