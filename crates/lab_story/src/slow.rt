//! The same script slowly: rows before each event, and graft instructions one by one.

ghost use Rattle.std.specs.Prelude.{◌≡◌, ◌<◌, ◌-◌, ◌^◌, ◌++◌, IfOk, OnOk};
ghost use Rattle.lab_story.specs.Events.{lines_of};
ghost use Rattle.lab_story.specs.Slow as spec;

use crate::chosen::Chosen;
use crate::event::{count_by, is_event};
use script_model::NoMemory;
use std::alloc::Global;
use text_words::{Parts, append, number_of, word_at};

/// The most single steps that a line becomes.
const MOST_STEPS: u32 = 512;

/// Appends a line.
fn append_plain(out: &mut Vec<u8>, line: &[u8]) -> Result<(), NoMemory>
    ensures { OnOk result (out.new.items ≡ out.old.items ++ spec.plain_line line.now) }
{
    append(out, line)?;
    append(out, b"\n")
}

/// Appends a line, and before it one that asks for the rows.
fn append_shown(out: &mut Vec<u8>, line: &[u8]) -> Result<(), NoMemory>
    ensures { OnOk result (out.new.items ≡ out.old.items ++ spec.shown_line line.now) }
{
    append(out, b"raw\n")?;
    append_plain(out, line)
}

/// Appends a single step of a process, behind the rows.
fn append_step(out: &mut Vec<u8>, process: &[u8]) -> Result<(), NoMemory>
    ensures { OnOk result (out.new.items ≡ out.old.items ++ spec.single_step process.now) }
{
    append(out, b"raw\nstep ")?;
    append(out, process)?;
    append(out, b" 1\n")
}

/// Appends so many single steps of a process, each behind the rows.
fn append_steps(out: &mut Vec<u8>, process: &[u8], steps: u32) -> Result<(), NoMemory>
    ensures { OnOk result (out.new.items ≡ out.old.items ++ spec.single_steps process.now steps) }
{
    for _ in 0..steps {
        append_step(out, process)?;
    }
    Ok(())
}

/// Whether so many steps are taken one by one.
fn is_few(steps: u32) -> bool
    ensures { result ≡ spec.is_few steps }
{
    steps >= 1 && steps <= MOST_STEPS
}

/// Appends what a line of steps becomes. No step, and more than 512, are left as they are.
fn append_step_line(out: &mut Vec<u8>, line: &[u8]) -> Result<(), NoMemory>
    ensures { OnOk result (out.new.items ≡ out.old.items ++ spec.slow_steps line.now) }
{
    match number_of(word_at(line, 2)) {
        Some(steps) if is_few(steps) => append_steps(out, word_at(line, 1), steps),
        _ => append_shown(out, line),
    }
}

/// Whether a line is one of steps.
fn is_step(line: &[u8]) -> bool
    ensures { result ≡ spec.is_step line.now }
{
    word_at(line, 0) == b"step".as_slice()
}

/// Appends what a line becomes that is an event.
fn append_slow(out: &mut Vec<u8>, line: &[u8]) -> Result<(), NoMemory>
    ensures { OnOk result (out.new.items ≡ out.old.items ++ spec.slow_line line.now) }
{
    if is_step(line) {
        return append_step_line(out, line);
    }
    append_shown(out, line)
}

/// Appends what a line becomes that is the n-th event.
fn append_event(out: &mut Vec<u8>, line: &[u8], n: usize, chosen: Chosen) -> Result<(), NoMemory>
    ensures { OnOk result (out.new.items
        ≡ out.old.items ++ spec.slow_event chosen.first chosen.last n line.now) }
{
    if n < chosen.first as usize {
        return append_plain(out, line);
    }
    if n <= chosen.last as usize {
        return append_slow(out, line);
    }
    Ok(())
}

/// Appends what a line of the script becomes, with so many events before it.
fn append_part(
    out: &mut Vec<u8>,
    line: &[u8],
    before: usize,
    chosen: Chosen,
) -> Result<(), NoMemory>
    requires { before < 2 ^ 64 - 1 }
    ensures { OnOk result (out.new.items
        ≡ out.old.items ++ spec.slow_part chosen.first chosen.last before line.now) }
{
    if is_event(line) {
        return append_event(out, line, before + 1, chosen);
    }
    append_plain(out, line)
}

/// How many lines a line of so many steps becomes.
fn step_lines(steps: Option<u32>) -> u32
    ensures { result ≡ spec.step_lines steps }
{
    match steps {
        Some(steps) if is_few(steps) => 2 * steps,
        _ => 2,
    }
}

/// How many lines a chosen line becomes that is an event.
fn line_count(line: &[u8]) -> u32
    ensures { result ≡ spec.line_count line.now }
{
    if is_step(line) {
        step_lines(number_of(word_at(line, 2)))
    } else {
        2
    }
}

/// How many lines of the slow script the n-th event becomes.
pub(crate) fn event_lines(line: &[u8], n: u32, chosen: Chosen) -> u32
    ensures { result ≡ spec.event_lines chosen.first chosen.last n line.now }
{
    if n < chosen.first {
        return 1;
    }
    if n <= chosen.last {
        line_count(line)
    } else {
        0
    }
}

/// The script that does what a script does up to the last chosen event, with a line `raw` before each
/// chosen one and single steps in place of many. Its events have other numbers from the first chosen
/// one on; its drops are the same.
pub fn slow_script(alloc: Global, script: &[u8], chosen: Chosen) -> Result<Vec<u8>, NoMemory>
    ensures { IfOk result (λ text. text.items
        ≡ spec.slow_lines chosen.first chosen.last 0 (lines_of script.now)) }
{
    let mut out = Vec::new(alloc);
    let mut lines = Parts::new(script, b'\n');
    let mut events = 0;
    while let Some(line) = lines.next() {
        append_part(&mut out, line, events, chosen)?;
        events = count_by(events, line);
    }
    Ok(out)
}
