//! One test, run behind the grafts of a submission and judged.

ghost use Rattle.std.specs.Prelude.{◌≡◌, ◌⊎◌, true, map, IfOk};
ghost use Rattle.lab_lowering.specs.Lowering.{Lowers};
ghost use Rattle.lab_grading.specs.Graded as spec;

use crate::checking::{Checked, behind, lines_before};
use crate::running::run_test;
use kernel_data::NoMemory;
use lab_lines::{Piece, pieces_of};
use lab_lowering::{LabFault, Lowered, lower};
use lab_matching::{Line, first_other, lines_by, wants_of};
use lab_watch::Ran;
use std::alloc::Global;
use text_words::append;

/// A line of a task that didn't write what is wanted of it.
#[derive(Drop)]
pub struct Other {
    /// The line of the task, from 1.
    pub line: usize,
    /// What is wanted of it, a line each.
    pub wanted: Vec<u8>,
    /// What it wrote.
    pub got: Vec<u8>,
}

/// What came of a test.
#[derive(Drop)]
pub enum Outcome {
    /// Its run wrote what is wanted.
    Passed,
    /// It didn't; the first line that wrote something else.
    Failed(Other),
    /// The grafts of the submission are refused, in the text in which the test stands behind them.
    Refused(LabFault),
}

impl Outcome {
    /// Whether the test is passed.
    pub fn is_passed(&self) -> bool
        ensures { result ≡ spec.is_passed_by self.now }
    {
        match self {
            Outcome::Passed => true,
            _ => false,
        }
    }
}

/// A piece of a run in which so many lines stand before a test, as one of a run in which others do.
fn moved<'a>(piece: &Piece<'a>, from: usize, to: usize) -> Piece<'a>
    ensures { result ≡ spec.moved from to piece.now }
{
    if piece.owner == 0 {
        return *piece;
    }
    Piece {
        owner: piece.owner.saturating_add(to).saturating_sub(from),
        bytes: piece.bytes,
    }
}

/// Pieces of such a run.
fn all_moved<'a>(
    alloc: Global,
    pieces: &[Piece<'a>],
    from: usize,
    to: usize,
) -> Result<Vec<Piece<'a>>, NoMemory>
    ensures { IfOk result (λ all. all.items ≡ map (spec.moved from to) pieces.now) }
{
    let mut all = Vec::new(alloc);
    for piece in pieces {
        if all.push(moved(piece, from, to)).is_err() {
            return Err(NoMemory);
        }
    }
    Ok(all)
}

/// Lines, each with its newline.
fn joined(alloc: Global, lines: &[Line]) -> Result<Vec<u8>, NoMemory> {
    let mut text = Vec::new(alloc);
    for line in lines {
        append(&mut text, line.bytes)?;
        append(&mut text, b"\n")?;
    }
    Ok(text)
}

/// What a line wanted and wrote, where it is of this line of a test that begins there.
fn other_of(
    alloc: Global,
    checked: &Checked,
    to: usize,
    owner: usize,
    pieces: &[Piece],
) -> Result<Other, NoMemory> {
    let sheet = checked.lowered.lab.sheet();
    let wants = wants_of(alloc, owner, sheet.wants())?;
    let lines = lines_by(alloc, owner, sheet.last(), pieces)?;
    Ok(Other {
        line: owner
            .saturating_sub(to)
            .saturating_add(checked.begun)
            .saturating_sub(1),
        wanted: joined(alloc, wants.as_slice())?,
        got: joined(alloc, lines.as_slice())?,
    })
}

/// Judges what a run wrote.
fn judge(
    alloc: Global,
    checked: &Checked,
    from: usize,
    to: usize,
    pieces: &[Piece],
) -> Result<Outcome, NoMemory>
    ensures { IfOk result (λ o. spec.SaysOfPieces o checked.now.lowered.lab.sheet.wants
        checked.now.lowered.lab.sheet.last (map (spec.moved from to) pieces.now)) }
{
    let sheet = checked.lowered.lab.sheet();
    let pieces = all_moved(alloc, pieces, from, to)?;
    match first_other(alloc, sheet.wants(), sheet.last(), pieces.as_slice())? {
        None => Ok(Outcome::Passed),
        Some(owner) => Ok(Outcome::Failed(other_of(alloc, checked, to, owner, pieces.as_slice())?)),
    }
}

/// Whether a run came to its end or to a refused line.
fn has_ended(ran: &Ran) -> bool
    ensures { result ≡ true → (ran.now.status ≡ 0) ⊎ (ran.now.status ≡ 2) }
{
    ran.status == 0 || ran.status == 2
}

/// Runs the script of a test behind the grafts of a submission, which were read, and judges what it
/// wrote.
#[tactic(auto, using(crate::proofs::Judging::says))]
fn grade_lowered(
    alloc: Global,
    checked: &Checked,
    to: usize,
    front: &[u8],
    lowered: &Lowered,
) -> Result<Outcome, NoMemory>
    requires lowers { Lowers (spec.behind front.now checked.now.script.items) lowered.now.lab
        lowered.now.images.items lowered.now.script.items }
    ensures { IfOk result (λ o. spec.Says o front.now to checked.now) }
{
    let ran = run_test(alloc, lowered)?;
    if !has_ended(&ran) {
        return Err(NoMemory);
    }
    let pieces = pieces_of(alloc, lowered.script.as_slice(), &ran.lines)?;
    judge(alloc, checked, lines_before(front), to, pieces.as_slice())
}

/// Runs a test behind the grafts of a submission, and judges what it wrote.
pub fn grade_test(
    alloc: Global,
    checked: &Checked,
    to: usize,
    front: &[u8],
) -> Result<Outcome, NoMemory>
    ensures { IfOk result (λ o. spec.Says o front.now to checked.now) }
{
    let text = behind(alloc, front, checked.script.as_slice())?;
    match lower(alloc, text.as_slice()) {
        Ok(lowered) => grade_lowered(alloc, checked, to, front, &lowered),
        Err(LabFault::NoMemory) => Err(NoMemory),
        Err(fault) => Ok(Outcome::Refused(fault)),
    }
}
