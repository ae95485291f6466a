//! Whether a run wrote what a test wants.

ghost use Rattle.std.specs.Prelude.{◌≡◌, ◌==◌, ◌++◌, ◌||◌, not, length, drop, codes, filter, is_some, true, IfOk, OnOk};
ghost use Rattle.std.specs.List.{list_any, list_all};
ghost use Rattle.lab_lines.specs.AsWanted.{is_refusal};
ghost use Rattle.lab_lines.specs.Told.{lines_of};
ghost use Rattle.lab_lines.specs.Wanted as wanted;
ghost use Rattle.lab_matching.specs.Matching as spec;

use crate::following::follows;
use crate::owners::{Line, lines_by, wants_of, writer};
use kernel_data::NoMemory;
use lab_lines::{Piece, is_wanted};
use lab_reader::Want;
use std::alloc::Global;
use text_words::{Parts, append, number_of, word_at};

/// Whether a wanted line is a row of `raw`.
fn is_state(want: &[u8]) -> bool
    ensures { result ≡ spec.is_state want.now }
{
    want.starts_with(b"state ")
}

/// Whether a wanted line is a bound of what `step` took up.
fn is_limit(want: &[u8]) -> bool
    ensures { result ≡ spec.is_limit want.now }
{
    want.starts_with(b"limit ran ")
}

/// Whether what is written has to follow a wanted line.
fn is_of_sequence(want: &[u8]) -> bool
    ensures { result ≡ spec.is_of_sequence want.now }
{
    !is_state(want) && !is_limit(want)
}

/// The wanted lines that what is written has to follow.
fn sequence_of<'a>(alloc: Global, wants: &[Line<'a>]) -> Result<Vec<Line<'a>>, NoMemory>
    ensures { IfOk result (λ sequence. sequence.items
        ≡ spec.sequence_of wants.now) }
{
    let mut sequence = Vec::new(alloc);
    for want in wants {
        if is_of_sequence(want.bytes) {
            if sequence.push(Line { bytes: want.bytes }).is_err() {
                return Err(NoMemory);
            }
        }
    }
    Ok(sequence)
}

/// Whether a line says that a line of the script is refused.
fn is_refusal(line: &[u8]) -> bool
    ensures { result ≡ is_refusal line.now }
{
    line.starts_with(b"script ")
}

/// Whether a refusal is among lines.
fn has_refusal(lines: &[Line]) -> bool
    ensures { result ≡ list_any is_refusal lines.now }
{
    lines.iter().any(|line| is_refusal(line.bytes))
}

/// Whether lines follow those that are wanted; where none are, no refusal is among them.
fn is_in_sequence(sequence: &[Line], lines: &[Line]) -> bool
    ensures { result ≡ spec.is_in_sequence sequence.now
        lines.now }
{
    if sequence.is_empty() {
        return !has_refusal(lines);
    }
    follows(sequence, lines)
}

/// What stands in a text behind so many bytes.
fn behind(text: &[u8], count: usize) -> &[u8]
    ensures { result.now ≡ drop count text.now }
{
    match text.get(count..) {
        Some(rest) => rest,
        None => b"",
    }
}

/// Whether one of these lines is the one that is wanted.
fn has_line(want: &[u8], lines: &[Line]) -> bool
    ensures { result ≡ list_any (wanted.is_wanted want.now) lines.now }
{
    lines.iter().any(|line| is_wanted(want, line.bytes))
}

/// Whether one of these lines is the row that is wanted.
fn has_row(alloc: Global, want: &[u8], lines: &[Line]) -> Result<bool, NoMemory>
    ensures { IfOk result (λ has. has ≡ list_any (wanted.is_wanted (spec.row_of want.now))
        lines.now) }
{
    let mut row = Vec::new(alloc);
    append(&mut row, b"* raw ")?;
    append(&mut row, behind(want, 6))?;
    Ok(has_line(row.as_slice(), lines))
}

/// Whether the first number is there and at most the second, which is there too.
fn is_at_most(n: Option<u32>, most: Option<u32>) -> bool
    ensures { result ≡ spec.is_at_most n most }
{
    match (n, most) {
        (Some(n), Some(most)) => n <= most,
        _ => false,
    }
}

/// Whether a line says of no more instructions than a bound.
fn is_within(want: &[u8], line: &[u8]) -> bool
    ensures { result ≡ spec.is_within want.now line.now }
{
    !is_wanted(b"* ran *", line)
        || is_at_most(number_of(word_at(line, 2)), number_of(behind(want, 10)))
}

/// Whether a bound holds of lines.
fn are_within(want: &[u8], lines: &[Line]) -> bool
    ensures { result ≡ list_all (spec.is_within want.now) lines.now }
{
    lines.iter().all(|line| is_within(want, line.bytes))
}

/// Whether a row or a bound holds of lines.
fn is_met(alloc: Global, lines: &[Line], want: &[u8]) -> Result<bool, NoMemory>
    ensures { IfOk result (λ met. met ≡ spec.is_met lines.now want.now) }
{
    if is_state(want) {
        return has_row(alloc, want, lines);
    }
    if is_limit(want) {
        return Ok(are_within(want, lines));
    }
    Ok(true)
}

/// Whether all rows and bounds hold of lines.
fn are_met(alloc: Global, lines: &[Line], wants: &[Line]) -> Result<bool, NoMemory>
    ensures { IfOk result (λ met. met ≡ list_all (spec.is_met lines.now)
        wants.now) }
{
    for want in wants {
        if !is_met(alloc, lines, want.bytes)? {
            return Ok(false);
        }
    }
    Ok(true)
}

/// Whether the lines of a line of the script are those that are wanted of it.
fn is_graded(alloc: Global, wants: &[Line], lines: &[Line]) -> Result<bool, NoMemory>
    ensures { IfOk result (λ graded. graded ≡ spec.is_graded wants.now
        lines.now) }
{
    let sequence = sequence_of(alloc, wants)?;
    if !is_in_sequence(sequence.as_slice(), lines) {
        return Ok(false);
    }
    are_met(alloc, lines, wants)
}

/// Whether a line of the script wrote what is wanted of it.
fn is_owner_graded(
    alloc: Global,
    wants: &[Want],
    last: usize,
    pieces: &[Piece],
    owner: usize,
) -> Result<bool, NoMemory>
    ensures { IfOk result (λ graded. graded
        ≡ spec.is_owner_graded wants.now last pieces.now owner) }
{
    let texts = wants_of(alloc, owner, wants)?;
    let lines = lines_by(alloc, owner, last, pieces)?;
    is_graded(alloc, texts.as_slice(), lines.as_slice())
}

/// Whether something is wanted of a line of the script.
fn has_wants(wants: &[Want], owner: usize) -> bool
    ensures { result ≡ spec.has_wants wants.now owner }
{
    wants.iter().any(|want| want.owner == owner)
}

/// Whether no line of a text is a refusal.
fn is_taken(text: &[u8]) -> bool
    ensures { result ≡ not (list_any is_refusal (lines_of text.now)) }
{
    let mut lines = Parts::new(text, b'\n');
    while let Some(line) = lines.next() {
        if is_refusal(line) {
            return false;
        }
    }
    true
}

/// Whether a piece belongs to a line of which something is wanted, or has no refusal.
fn is_allowed(wants: &[Want], last: usize, piece: &Piece) -> bool
    ensures { result ≡ spec.is_allowed wants.now last piece.now }
{
    has_wants(wants, writer(last, piece)) || is_taken(piece.bytes)
}

/// The first line of the script of which something is wanted that it didn't write.
fn first_wanting(
    alloc: Global,
    wants: &[Want],
    last: usize,
    pieces: &[Piece],
) -> Result<Option<usize>, NoMemory>
    ensures { IfOk result (λ first. is_some first ≡ not (list_all (λ (w : _).
        spec.is_owner_graded wants.now last pieces.now w.owner) wants.now)) }
{
    for want in wants {
        if !is_owner_graded(alloc, wants, last, pieces, want.owner)? {
            return Ok(Some(want.owner));
        }
    }
    Ok(None)
}

/// The first line of the script that wrote a refusal which isn't wanted.
fn first_refused(wants: &[Want], last: usize, pieces: &[Piece]) -> Option<usize>
    ensures { is_some result ≡ not (list_all (spec.is_allowed wants.now last) pieces.now) }
{
    for piece in pieces {
        if !is_allowed(wants, last, piece) {
            return Some(writer(last, piece));
        }
    }
    None
}

/// The earlier of two lines of the script.
fn earlier(one: Option<usize>, other: Option<usize>) -> Option<usize>
    ensures { is_some result ≡ is_some one || is_some other }
{
    match (one, other) {
        (Some(one), Some(other)) => Some(one.min(other)),
        (Some(one), None) => Some(one),
        (None, other) => other,
    }
}

/// The first line of the script that didn't write what is wanted of it, or that wrote a refusal
/// which isn't wanted. `last` is the line to which the end of the run belongs.
pub fn first_other(
    alloc: Global,
    wants: &[Want],
    last: usize,
    pieces: &[Piece],
) -> Result<Option<usize>, NoMemory>
    // There is none exactly where all is as wanted.
    ensures { IfOk result (λ first. is_some first
        ≡ not (spec.is_passed wants.now last pieces.now)) }
{
    let wanting = first_wanting(alloc, wants, last, pieces)?;
    Ok(earlier(wanting, first_refused(wants, last, pieces)))
}
