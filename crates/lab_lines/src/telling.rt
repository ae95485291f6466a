//! A run told line by line.

ghost use Rattle.std.specs.Prelude.{◌≡◌, ◌≤◌, ◌++◌, ◌∷◌, [], drop, length, IfOk, None, OnOk, Some};
ghost use Rattle.lab_lines.specs.Told as spec;
ghost use Rattle.lab_lines.specs.Told.{Adds, End, FileLine, RowHead, Tells, TellsAll, Wrote, lines_in, lines_of};

use crate::pieces::{Piece, pieces_of};
use crate::sink::LineSink;
use crate::text::{add_number, add_number_right};
use kernel_data::NoMemory;
use lab_hints::Hints;
use lab_lowering::{Graft, Item, Lab};
use lab_words::sentence_of;
use std::alloc::Global;
use text_words::{Parts, append};

/// How many columns a line has at most, where what the kernel wrote leaves room.
const COLUMNS: usize = 100;

/// What stands before and between a written line and its words.
const BESIDE: usize = 15;

/// What stands before words on a line of their own.
const BELOW: usize = 11;

/// How a run is told: whether rows of `raw` have heads, and what its lines leave unsaid.
#[derive(Drop)]
pub struct Aids<'a> {
    /// Whether a head stands above each kind of row of `raw`.
    pub heads: bool,
    /// What the lines leave unsaid.
    pub hints: Hints<'a>,
}

/// Where a text is cut that has so much room: at the last space within, else at the first one
/// behind, else at its end.
fn cut_at(text: &[u8], room: usize) -> usize
    ensures { result ≤ length text.now }
{
    let mut at = text.len();
    if at <= room {
        return at;
    }
    for i in 1..text.len() {
        if text[i] == b' ' && (i <= room || at == text.len()) {
            at = i;
        }
    }
    at.min(text.len())
}

/// A text without the space that it begins with.
fn without_space(text: &[u8]) -> &[u8] {
    match text {
        [b' ', rest @ ..] => rest,
        _ => text,
    }
}

/// A text that may stand in a line.
fn one_line(text: &[u8]) -> &[u8]
    ensures { result.now ≡ spec.one_line text.now }
{
    if text.contains(&b'\n') { b"?" } else { text }
}

/// Appends a written line alone.
fn add_alone(out: &mut Vec<u8>, line: &[u8]) -> Result<(), NoMemory>
    ensures { OnOk result (Adds out.old.items out.new.items (Wrote line.now None)) }
{
    append(out, b"        ")?;
    append(out, line)?;
    append(out, b"\n")
}

/// Appends a written line with words beside it.
fn add_with_words(out: &mut Vec<u8>, line: &[u8], words: &[u8]) -> Result<(), NoMemory>
    ensures { OnOk result (Adds out.old.items out.new.items (Wrote line.now (Some words.now))) }
{
    append(out, b"        ")?;
    append(out, line)?;
    append(out, b"    -- ")?;
    append(out, one_line(words))?;
    append(out, b"\n")
}

#[tactic(auto, using(crate::proofs::Lines::nothing, crate::proofs::Lines::one_head))]
/// Appends words on lines of their own, below a written line.
fn add_below(out: &mut Vec<u8>, words: &[u8]) -> Result<(), NoMemory>
    ensures { OnOk result (Tells out.old.items out.new.items [] []) }
{
    let mut rest = words;
    for _ in 0..words.len() {
        if rest.is_empty() {
            return Ok(());
        }
        let (first, behind) = rest.split_at(cut_at(rest, COLUMNS - BELOW));
        add_row_head(out, first, b"")?;
        rest = without_space(behind);
    }
    Ok(())
}

/// Appends a written line, with words beside it where there are some, and below it what finds no
/// room there.
fn add_written(alloc: Global, out: &mut Vec<u8>, line: &[u8]) -> Result<(), NoMemory>
    ensures { OnOk result (Tells out.old.items out.new.items (line.now ∷ []) []) }
{
    let Some(words) = sentence_of(alloc, line)? else {
        return add_alone(out, line);
    };
    let words = words.as_slice();
    let room = COLUMNS.saturating_sub(line.len().saturating_add(BESIDE));
    let (first, behind) = words.split_at(cut_at(words, room));
    add_with_words(out, line, first)?;
    add_below(out, without_space(behind))
}

#[tactic(auto, using(crate::proofs::Lines::joined))]
/// Appends a written line with words, and below it what it leaves unsaid; `others` are the lines
/// that were written with it.
fn add_hinted(
    alloc: Global,
    out: &mut Vec<u8>,
    line: &[u8],
    others: &[u8],
    hints: &mut Hints,
) -> Result<(), NoMemory>
    ensures { OnOk result (Tells out.old.items out.new.items (line.now ∷ []) []) }
{
    add_written(alloc, out, line)?;
    let hint = hints.hint(alloc, line, others)?;
    add_below(out, hint.as_slice())
}

#[tactic(auto, using(crate::proofs::Lines::behind))]
/// Appends a written line, with a head above it where one is asked and the line above is no row of
/// its kind; the kind of row that it is.
fn add_told<'a>(
    alloc: Global,
    out: &mut Vec<u8>,
    line: &'a [u8],
    above: &'a [u8],
    others: &[u8],
    aids: &mut Aids,
) -> Result<&'a [u8], NoMemory>
    ensures { OnOk result (Tells out.old.items out.new.items (line.now ∷ []) []) }
{
    if !aids.heads {
        add_hinted(alloc, out, line, others, &mut aids.hints)?;
        return Ok(above);
    }
    let kind = add_head_of(out, line, above)?;
    add_hinted(alloc, out, line, others, &mut aids.hints)?;
    Ok(kind)
}

#[tactic(auto, using(crate::proofs::Lines::nothing, crate::proofs::Lines::line_told, crate::proofs::Lines::line_left))]
/// Appends the lines of a piece, with a head above the rows of each kind where it is asked.
fn add_piece(
    alloc: Global,
    out: &mut Vec<u8>,
    piece: &[u8],
    aids: &mut Aids,
) -> Result<(), NoMemory>
    ensures { OnOk result (Tells out.old.items out.new.items (lines_of piece.now) []) }
{
    let mut lines = Parts::new(piece, b'\n');
    let mut above: &[u8] = &[];
    while let Some(line) = lines.next() {
        if !line.is_empty() {
            above = add_told(alloc, out, line, above, piece, aids)?;
        }
    }
    Ok(())
}

#[tactic(auto, using(crate::proofs::Lines::row_head, crate::proofs::Lines::nothing))]
/// Appends the head of a row of `raw`, where a row of another kind stands above it; the kind of the
/// row.
fn add_head_of<'a>(out: &mut Vec<u8>, line: &'a [u8], above: &'a [u8]) -> Result<&'a [u8], NoMemory>
    ensures { OnOk result (Tells out.old.items out.new.items [] []) }
{
    let Some(kind) = row_kind(line) else {
        return Ok(b"");
    };
    if kind == above {
        return Ok(kind);
    }
    add_row_head(out, kind, row_head(kind))?;
    Ok(kind)
}

/// Appends the head of the rows of a kind, with what stands behind the kind.
fn add_row_head(out: &mut Vec<u8>, kind: &[u8], about: &[u8]) -> Result<(), NoMemory>
    ensures { OnOk result (Adds out.old.items out.new.items (RowHead kind.now about.now)) }
{
    append(out, b"        -- ")?;
    append(out, one_line(kind))?;
    append(out, one_line(about))?;
    append(out, b"\n")
}

/// The kind of a row of `raw`.
fn row_kind(line: &[u8]) -> Option<&[u8]> {
    let mut words = Parts::new(line, b' ');
    words.next()?;
    if words.next()? == b"raw".as_slice() {
        words.next()
    } else {
        None
    }
}

/// What stands behind the kind of a row.
fn row_head(kind: &[u8]) -> &'static [u8] {
    match kind {
        b"clock" => b": time",
        b"queue" => b": process:nice:slices, front first",
        b"acct" => b": process, has steps records locks, spent steps records locks",
        b"cells" => b": process, cells 0 to 3",
        b"open" => b": process descriptor name next window sequential start count",
        b"graft" => b": process point image limit billed, has steps records locks",
        b"pol" => b": kind chosen parameter",
        b"lru" => b": frame:owner:block:changed:marked, oldest first",
        b"lock" => b": lock process",
        b"call" => b": process call; waits for an object of a process since ticks; its graft",
        b"level" => b": process depth, graft of process and point, instructions",
        b"undo" => b": process depth, what is put back",
        _ => b"",
    }
}

#[tactic(auto, using(crate::proofs::Lines::nothing, crate::proofs::Lines::piece_told))]
/// Appends the pieces of a line, from this one on; the number of the first one that isn't its.
fn add_pieces(
    alloc: Global,
    out: &mut Vec<u8>,
    owner: usize,
    pieces: &[Piece],
    first: usize,
    aids: &mut Aids,
) -> Result<usize, NoMemory>
    ensures { IfOk result (λ next. Tells out.old.items out.new.items
        (lines_in (drop first pieces.now))
        (lines_in (drop next pieces.now))) }
{
    let mut k = first;
    while k < pieces.len() && pieces[k].owner == owner {
        add_piece(alloc, out, pieces[k].bytes, aids)?;
        k += 1;
    }
    Ok(k)
}

#[tactic(auto, using(crate::proofs::Lines::nothing, crate::proofs::Lines::piece_told))]
/// Appends all pieces from this one on, which belong to no line of the file.
fn add_rest(
    alloc: Global,
    out: &mut Vec<u8>,
    pieces: &[Piece],
    first: usize,
    aids: &mut Aids,
) -> Result<(), NoMemory>
    ensures { OnOk result (Tells out.old.items out.new.items
        (lines_in (drop first pieces.now)) []) }
{
    if first >= pieces.len() {
        return Ok(());
    }
    add_end(out)?;
    let mut k = first;
    while k < pieces.len() {
        add_piece(alloc, out, pieces[k].bytes, aids)?;
        k += 1;
    }
    Ok(())
}

/// Appends what stands above the lines that belong to no line of the file.
fn add_end(out: &mut Vec<u8>) -> Result<(), NoMemory>
    ensures { OnOk result (Adds out.old.items out.new.items End) }
{
    append(out, b" end\n")
}

/// The line of the script that seals a graft of this number, in words of the file.
fn sealed_text(
    alloc: Global,
    grafts: &[Graft],
    slot: u32,
    graft: usize,
    raw: bool,
) -> Result<Vec<u8>, NoMemory> {
    let mut text = Vec::new(alloc);
    append(&mut text, b"image ")?;
    add_number(&mut text, slot as usize)?;
    append(&mut text, b" ")?;
    if let Some(graft) = grafts.get(graft) {
        append(&mut text, graft.name())?;
    }
    if raw {
        append(&mut text, b" raw")?;
    }
    Ok(text)
}

/// Appends a line of the file.
fn add_file_line(out: &mut Vec<u8>, number: usize, text: &[u8]) -> Result<(), NoMemory>
    ensures { OnOk result (Adds out.old.items out.new.items (FileLine number text.now)) }
{
    add_number_right(out, number)?;
    append(out, b"  ")?;
    append(out, one_line(text))?;
    append(out, b"\n")
}

/// A line of the file as far as there is room for it; hex digits of an image are longer.
fn shortened(text: &[u8]) -> &[u8] {
    match text.get(..COLUMNS - 6) {
        Some(front) => front,
        None => text,
    }
}

/// Whether a line of the script says nothing.
fn is_blank(line: &[u8]) -> bool {
    line.is_empty() || line[0] == b'#'
}

#[tactic(auto, using(crate::proofs::Lines::nothing))]
/// Appends the number and the text of a line that says something in the script.
fn add_head(
    alloc: Global,
    out: &mut Vec<u8>,
    lab: &Lab,
    number: usize,
    item: &Item,
) -> Result<(), NoMemory>
    ensures { OnOk result (Tells out.old.items out.new.items [] []) }
{
    match item {
        Item::Plain(text) => {
            if is_blank(text.bytes()) {
                return Ok(());
            }
            add_file_line(out, number, shortened(text.bytes()))
        }
        Item::Sealed { slot, graft, raw } => {
            let text = sealed_text(alloc, lab.grafts(), *slot, *graft, *raw)?;
            add_file_line(out, number, text.as_slice())
        }
    }
}

#[tactic(auto, using(crate::proofs::Lines::nothing, crate::proofs::Lines::joined))]
/// Each line of the file that says something, with the lines of its pieces below it; at the end the
/// lines of the pieces that are left.
fn told_pieces(
    alloc: Global,
    lab: &Lab,
    pieces: &[Piece],
    aids: &mut Aids,
) -> Result<Vec<u8>, NoMemory>
    ensures { IfOk result (λ text. Tells [] text.items
        (lines_in pieces.now) []) }
{
    let mut out = Vec::new(alloc);
    let mut next = 0;
    for (i, item) in lab.sheet().items().iter().enumerate() {
        let number = i.saturating_add(1);
        add_head(alloc, &mut out, lab, number, item)?;
        next = add_pieces(alloc, &mut out, number, pieces, next, aids)?;
    }
    add_rest(alloc, &mut out, pieces, next, aids)?;
    Ok(out)
}

/// Each line of the file that says something in the script, with its number, and below it the lines
/// that it wrote, with words beside those that want them, and below those that leave something
/// unsaid what that is; at the end the lines of calls that were left.
pub fn told(
    alloc: Global,
    lab: &Lab,
    script: &[u8],
    written: &LineSink,
    aids: &mut Aids,
) -> Result<Vec<u8>, NoMemory>
    // Each line that was written, as it is and in their order, and lines of `lab` by their marks.
    ensures { IfOk result (λ text. TellsAll text.items written.now.got) }
{
    let pieces = pieces_of(alloc, script, written)?;
    told_pieces(alloc, lab, pieces.as_slice(), aids)
}
