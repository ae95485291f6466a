//! Small steps of a session, and what is told of each.

ghost use Rattle.std.specs.Prelude.{◌≡◌, ◌<◌, IfSome};
ghost use Rattle.vino_top.specs.Bounds.{IsSessionWithin};

use crate::looks::{images_of, memory_of, view_of};
use crate::slow::Slow;
use crate::watch::Watch;
use graft_points::Policy;
use kernel_model::NoMemory;
use std::alloc::Global;
use text_words::{Parts, append_with, number_of, word_at};
use vino_base::Disk;

/// The most instructions of a line that are told one by one.
const MOST_STEPS: u32 = 512;

/// Whether a step took up an instruction: its line says `ran 1`.
fn has_run(written: &[u8]) -> bool {
    let mut lines = Parts::new(written, b'\n');
    while let Some(line) = lines.next() {
        if word_at(line, 1) == b"ran".as_slice() && word_at(line, 2) == b"1".as_slice() {
            return true;
        }
    }
    false
}

/// Takes a process on by one instruction with this line, and tells of it: whether it could.
fn step<B: Policy, D: Disk + Drop>(
    alloc: Global,
    watch: &mut Watch,
    slow: &mut Slow<B, D>,
    p: u8,
    line: &[u8],
) -> Result<bool, NoMemory>
    requires within { IsSessionWithin (D.seen slow.old.disk).size slow.old.session }
    ensures { IsSessionWithin (D.seen slow.new.disk).size slow.new.session }
{
    watch.tell_before(alloc, images_of(slow), memory_of(slow), p)?;
    slow.run_line(alloc, line)?;
    let view = view_of(alloc, slow)?;
    watch.tell_after(alloc, images_of(slow), memory_of(slow), view, p)?;
    Ok(has_run(slow.out.lines.as_slice()))
}

/// Runs a line, and tells what came to stand.
fn run_seen<B: Policy, D: Disk + Drop>(
    alloc: Global,
    watch: &mut Watch,
    slow: &mut Slow<B, D>,
    line: &[u8],
) -> Result<(), NoMemory>
    requires within { IsSessionWithin (D.seen slow.old.disk).size slow.old.session }
    ensures { IsSessionWithin (D.seen slow.new.disk).size slow.new.session }
{
    slow.run_line(alloc, line)?;
    let view = view_of(alloc, slow)?;
    watch.see(alloc, images_of(slow), memory_of(slow), view)
}

/// The line of so many steps of a process.
fn step_line(alloc: Global, p: u8, count: u32) -> Result<Vec<u8>, NoMemory> {
    let mut line = Vec::new(alloc);
    append_with(&mut line, b"step ", u32::from(p))?;
    append_with(&mut line, b" ", count)?;
    Ok(line)
}

/// Tells that the other instructions of a line of a process aren't told, and follows its levels no
/// more.
fn leave_out(watch: &mut Watch, p: u8) -> Result<(), NoMemory> {
    watch.seats.forget(p);
    watch
        .told
        .add(b"  the other instructions of this line aren't told")
}

/// Takes a process on by at most so many instructions, and tells of the first 512.
fn run_steps<B: Policy, D: Disk + Drop>(
    alloc: Global,
    watch: &mut Watch,
    slow: &mut Slow<B, D>,
    p: u8,
    count: u32,
) -> Result<(), NoMemory>
    requires within { IsSessionWithin (D.seen slow.old.disk).size slow.old.session }
    ensures { IsSessionWithin (D.seen slow.new.disk).size slow.new.session }
{
    let line = step_line(alloc, p, 1)?;
    for _ in 0..count.min(MOST_STEPS) {
        if !step(alloc, watch, slow, p, line.as_slice())? {
            return Ok(());
        }
    }
    if count <= MOST_STEPS {
        return Ok(());
    }
    let rest = step_line(alloc, p, count - MOST_STEPS)?;
    leave_out(watch, p)?;
    run_seen(alloc, watch, slow, rest.as_slice())
}

/// The process and the count of a line `step P N`, where both are in their ranges.
fn steps_of(line: &[u8]) -> Option<(u8, u32)>
    ensures { IfSome result (λ s. s.0 < 16) }
{
    if word_at(line, 0) != b"step".as_slice() || !word_at(line, 3).is_empty() {
        return None;
    }
    let p = number_of(word_at(line, 1))?;
    let count = number_of(word_at(line, 2))?;
    if p < 16 && count >= 1 && count <= 65_536 {
        Some((p as u8, count))
    } else {
        None
    }
}

/// Runs a line of the script: steps one by one before what the kernel wrote of the line, which has
/// so many bytes, and any other line at once before what is told of it.
pub(crate) fn watch_line<B: Policy, D: Disk + Drop>(
    alloc: Global,
    watch: &mut Watch,
    slow: &mut Slow<B, D>,
    line: &[u8],
    written: usize,
) -> Result<(), NoMemory>
    requires within { IsSessionWithin (D.seen slow.old.disk).size slow.old.session }
    ensures { IsSessionWithin (D.seen slow.new.disk).size slow.new.session }
{
    match steps_of(line) {
        Some((p, count)) => {
            run_steps(alloc, watch, slow, p, count)?;
            watch.told.pass(written);
            Ok(())
        }
        None => {
            watch.told.pass(written);
            run_seen(alloc, watch, slow, line)
        }
    }
}
