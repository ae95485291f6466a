//! Which line of a script wrote what.

ghost use Rattle.std.specs.Prelude.{◌≡◌, ◌≤◌, ◌++◌, ◌∷◌, [], length, map, slice_range, true, IfOk, OnOk};
ghost use Rattle.lab_lines.specs.AsWanted.{PiecesInOrder};
ghost use Rattle.lab_lines.specs.Told as spec;
ghost use Rattle.lab_lines.specs.Told.{lines_in, lines_of};
ghost use Rattle.lab_lines.specs.Written as written;

use crate::sink::LineSink;
use kernel_data::NoMemory;
use std::alloc::Global;
use text_words::{Parts, number_of};

/// Bytes that were written at once, and the number of the line of the script that wrote them; 0 for
/// the last lines of a run, which belong to no line.
#[derive(Clone, Copy)]
pub struct Piece<'a> {
    pub owner: usize,
    pub bytes: &'a [u8],
}

/// Whether a line of a script writes something, where it isn't refused: each but remarks, empty
/// lines and the lines that set something before `boot`.
fn writes(line: &[u8]) -> bool {
    if line.is_empty() || line[0] == b'#' {
        return false;
    }
    match Parts::new(line, b' ').next() {
        None => false,
        Some(first) => {
            first != b"frames".as_slice()
                && first != b"patience".as_slice()
                && first != b"grant".as_slice()
        }
    }
}

/// The lines of a script that are still to come, and the number of the last one that was taken.
#[derive(Drop)]
struct Ahead<'a> {
    lines: Parts<'a>,
    number: usize,
}

/// The number of the next line that writes something, or 0.
fn next_writer(ahead: &mut Ahead) -> usize {
    while let Some(line) = ahead.lines.next() {
        ahead.number = ahead.number.saturating_add(1);
        if writes(line) {
            return ahead.number;
        }
    }
    0
}

/// The line that a refusal `script L Sx` names.
fn refused_line(piece: &[u8]) -> Option<usize> {
    let mut words = Parts::new(piece, b' ');
    if words.next()? != b"script".as_slice() {
        return None;
    }
    match number_of(words.next()?) {
        Some(number) => Some(number as usize),
        None => None,
    }
}

/// The line that wrote this piece, which comes behind those before.
fn owner_of(piece: &[u8], ahead: &mut Ahead) -> usize {
    if piece.starts_with(b"left ") {
        return 0;
    }
    match refused_line(piece) {
        Some(number) => number,
        None => next_writer(ahead),
    }
}

/// Whether the last byte of a text is a newline.
fn ends_line(text: &[u8]) -> bool
    ensures { result ≡ spec.ends_line text.now }
{
    !text.is_empty() && text[text.len() - 1] == b'\n'
}

/// Whether a write that ended here, behind pieces that end there, is a piece by itself.
fn is_piece(text: &[u8], from: usize, to: usize) -> bool
    requires { from ≤ length text.now }
    ensures order { result ≡ true → (from ≤ to) × (to ≤ length text.now) }
    ensures ends { result ≡ true → spec.ends_line (slice_range text.now from to) ≡ true }
{
    from <= to && to <= text.len() && ends_line(&text[from..to])
}

#[tactic(auto, using(crate::proofs::Lines::one_more))]
/// Puts a piece behind others.
fn put<'a>(pieces: &mut Vec<Piece<'a>>, piece: Piece<'a>) -> Result<(), NoMemory>
    ensures one { OnOk result (pieces.new.items ≡ pieces.old.items ++ piece.entry ∷ []) }
    ensures lines { OnOk result (lines_in pieces.new.items
        ≡ lines_in pieces.old.items ++ lines_of piece.entry.bytes.now) }
{
    match pieces.push(piece) {
        Ok(()) => Ok(()),
        Err(_) => Err(NoMemory),
    }
}

#[tactic(auto, using(crate::proofs::Lines::piece_behind, crate::proofs::Lines::at_last, crate::proofs::Lines::no_more))]
/// What each write took, with the line that wrote it. A write that doesn't end a line is a piece
/// with what follows.
pub fn pieces_of<'a>(
    alloc: Global,
    script: &[u8],
    written: &'a LineSink,
) -> Result<Vec<Piece<'a>>, NoMemory>
    // The lines of the pieces are those of all that was written, in their order.
    ensures { IfOk result (λ pieces. lines_in pieces.items ≡ lines_of written.now.got) }
{
    let mut pieces = Vec::new(alloc);
    let mut ahead = Ahead {
        lines: Parts::new(script, b'\n'),
        number: 0,
    };
    let text = written.bytes();
    let mut from = 0;
    for to in written.ends() {
        if is_piece(text, from, *to) {
            let bytes = &text[from..*to];
            let owner = owner_of(bytes, &mut ahead);
            put(&mut pieces, Piece { owner, bytes })?;
            from = *to;
        }
    }
    if from < text.len() {
        let bytes = &text[from..];
        put(&mut pieces, Piece { owner: 0, bytes })?;
    }
    Ok(pieces)
}

/// The line of the script to which a piece belongs: the end of a run belongs to the last one.
pub(crate) fn writer(last: usize, piece: &Piece) -> usize
    ensures { result ≡ written.writer last piece.now }
{
    if piece.owner == 0 { last } else { piece.owner }
}

#[tactic(auto, using(crate::proofs::Ordered::ordering))]
/// The same pieces, none of which belongs to a line before that of the piece before it. `last` is
/// the line to which the end of the run belongs.
pub fn in_order<'a>(
    alloc: Global,
    last: usize,
    pieces: &[Piece<'a>],
) -> Result<Vec<Piece<'a>>, NoMemory>
    // They are in the order of the lines of the script.
    ensures ordered { IfOk result (λ ordered. PiecesInOrder 1 last ordered.items) }
    // Their lines are the same.
    ensures lines { IfOk result (λ ordered. lines_in ordered.items ≡ lines_in pieces.now) }
    // Pieces that are in this order belong to the same lines as before.
    ensures kept { IfOk result (λ ordered. PiecesInOrder 1 last pieces.now →
        map (written.writer last) ordered.items ≡ map (written.writer last) pieces.now) }
{
    let mut ordered = Vec::new(alloc);
    let mut from = 1;
    for piece in pieces {
        from = from.max(writer(last, piece));
        put(
            &mut ordered,
            Piece {
                owner: from,
                ..*piece
            },
        )?;
    }
    Ok(ordered)
}
