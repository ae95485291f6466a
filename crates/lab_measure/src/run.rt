//! The run of a lab file, measured line by line.

ghost use Rattle.std.specs.Prelude.{◌≡◌, ◌<◌, map};
ghost use Rattle.vino_top.specs.Bounds.{IsSessionWithin, IsStock};

use crate::asks::asking_in;
use crate::before::{Before, before_of, spent_of};
use crate::counted::Counted;
use crate::figures::column_of;
use crate::moments::count_moment;
use crate::origins::is_load;
use crate::steps::{Standing, count_instruction, has_chosen, standing_of};
use crate::tally::{Tally, with_more};
use graft_loader::read_keys;
use graft_points::Policy;
use kernel_data::NoMemory;
use lab_counts::{Column, call_of, notes_of};
use lab_lines::LineSink;
use lab_lowering::Lowered;
use lab_session::{OwnSession, StepLine, has_run, single_step, steps_of};
use std::alloc::Global;
use text_words::{Parts, put};
use vino_base::Disk;

/// What is measured: a lab file with its name, and what its run wrote.
#[derive(Clone, Copy)]
pub struct Given<'a> {
    pub lowered: &'a Lowered,
    pub name: &'a [u8],
    pub written: &'a LineSink,
}

/// What is counted so far.
#[derive(Drop)]
struct Measure {
    tally: Tally,
    /// The call that each event made, as its place in the list of calls.
    calls: Vec<Option<usize>>,
    /// The blocks read ahead that none asked for yet and that a frame holds.
    unused: Vec<u32>,
}

impl Measure {
    /// Nothing was run yet.
    fn new(alloc: Global) -> Result<Measure, NoMemory> {
        Ok(Measure {
            tally: Tally::new(alloc)?,
            calls: Vec::new(alloc),
            unused: Vec::new(alloc),
        })
    }

    /// Counts what came of a line that was run by a kernel that was booted before.
    fn count<B: Policy, D: Disk + Drop>(
        &mut self,
        alloc: Global,
        slow: &OwnSession<B, Counted<D>>,
        before: &Before,
    ) -> Result<(), NoMemory> {
        let unused = std::mem::replace(&mut self.unused, Vec::new(alloc));
        self.unused = count_moment(
            alloc,
            &mut self.tally,
            &slow.session.kernel.running,
            before,
            slow.disk.calls(),
            slow.out.lines.as_slice(),
            unused,
        )?;
        if slow.disk.is_short() {
            return Err(NoMemory);
        }
        Ok(())
    }
}

/// Runs a line of a kernel that is booted, and counts what came of it: what was seen before.
fn run_seen<B: Policy, D: Disk + Drop>(
    alloc: Global,
    measure: &mut Measure,
    slow: &mut OwnSession<B, Counted<D>>,
    line: &[u8],
) -> Result<Before, NoMemory>
    requires within { IsSessionWithin (D.seen slow.old.disk.disk).size slow.old.session }
    ensures { IsSessionWithin (D.seen slow.new.disk.disk).size slow.new.session }
{
    let mut before = before_of(alloc, &slow.session.kernel.running)?;
    slow.disk.forget();
    slow.run_line(alloc, line)?;
    if let Some(asking) = asking_in(line, slow.session.events) {
        put(&mut before.asking, asking)?;
    }
    measure.count(alloc, slow, &before)?;
    Ok(before)
}

/// Counts a tick, where a line was one.
fn count_tick(tally: &mut Tally, line: &[u8], before: &Before) {
    if line == b"tick".as_slice() {
        tally.ticks = with_more(tally.ticks, 1);
        tally.waited = with_more(tally.waited, before.waiting);
    }
}

/// Runs a line that isn't one of steps, and counts what came of it.
fn measure_plain<B: Policy, D: Disk + Drop>(
    alloc: Global,
    measure: &mut Measure,
    slow: &mut OwnSession<B, Counted<D>>,
    line: &[u8],
) -> Result<(), NoMemory>
    requires within { IsSessionWithin (D.seen slow.old.disk.disk).size slow.old.session }
    ensures { IsSessionWithin (D.seen slow.new.disk.disk).size slow.new.session }
{
    if !slow.session.booted {
        return slow.run_line(alloc, line);
    }
    let events = slow.session.events;
    let before = run_seen(alloc, measure, slow, line)?;
    if slow.session.events > events {
        count_tick(&mut measure.tally, line, &before);
        put(&mut measure.calls, call_of(line))?;
    }
    Ok(())
}

/// Whether the first call of the disk brought a block into the cache, in place of one that was chosen.
fn has_evicted<B: Policy, D: Disk + Drop>(
    slow: &OwnSession<B, Counted<D>>,
    p: u8,
    standing: &Standing,
) -> bool {
    match standing.chooses {
        Some(chooser) => {
            has_chosen(
                &slow.session.kernel.running,
                p,
                chooser,
                slow.out.lines.as_slice(),
            ) && is_load(slow.disk.calls(), 0)
        }
        None => false,
    }
}

/// Takes a process on by one instruction, and counts it: whether one was taken up.
fn measure_step<B: Policy, D: Disk + Drop>(
    alloc: Global,
    measure: &mut Measure,
    slow: &mut OwnSession<B, Counted<D>>,
    p: u8,
    line: &[u8],
) -> Result<bool, NoMemory>
    requires within { IsSessionWithin (D.seen slow.old.disk.disk).size slow.old.session }
    ensures { IsSessionWithin (D.seen slow.new.disk.disk).size slow.new.session }
{
    let standing = standing_of(&slow.session.kernel.running, p);
    let _ = run_seen(alloc, measure, slow, line)?;
    if !has_run(slow.out.lines.as_slice()) {
        return Ok(false);
    }
    if let Some(standing) = standing {
        count_instruction(&mut measure.tally, &standing);
        if has_evicted(slow, p, &standing) {
            measure.tally.by_grafts = with_more(measure.tally.by_grafts, 1);
        }
    }
    Ok(true)
}

/// Runs a line of steps, one by one, and counts what came of each.
fn measure_steps<B: Policy, D: Disk + Drop>(
    alloc: Global,
    measure: &mut Measure,
    slow: &mut OwnSession<B, Counted<D>>,
    steps: StepLine,
) -> Result<(), NoMemory>
    requires within { IsSessionWithin (D.seen slow.old.disk.disk).size slow.old.session }
    ensures { IsSessionWithin (D.seen slow.new.disk.disk).size slow.new.session }
{
    let line = single_step(alloc, steps.process)?;
    put(&mut measure.calls, None)?;
    for _ in 0..steps.count {
        if !measure_step(alloc, measure, slow, steps.process, line.as_slice())? {
            return Ok(());
        }
    }
    Ok(())
}

/// Runs a line of the script, and counts what came of it.
fn measure_line<B: Policy, D: Disk + Drop>(
    alloc: Global,
    measure: &mut Measure,
    slow: &mut OwnSession<B, Counted<D>>,
    line: &[u8],
) -> Result<(), NoMemory>
    requires within { IsSessionWithin (D.seen slow.old.disk.disk).size slow.old.session }
    ensures { IsSessionWithin (D.seen slow.new.disk.disk).size slow.new.session }
{
    match steps_of(line) {
        Some(steps) if slow.session.booted => measure_steps(alloc, measure, slow, steps),
        _ => measure_plain(alloc, measure, slow, line),
    }
}

/// Runs a script, and counts what came of it.
fn measure_lines<B: Policy, D: Disk + Drop>(
    alloc: Global,
    measure: &mut Measure,
    slow: &mut OwnSession<B, Counted<D>>,
    script: &[u8],
) -> Result<(), NoMemory>
    requires within { IsSessionWithin (D.seen slow.old.disk.disk).size slow.old.session }
    ensures { IsSessionWithin (D.seen slow.new.disk.disk).size slow.new.session }
{
    let mut lines = Parts::new(script, b'\n');
    while let Some(line) = lines.next() {
        if slow.session.refused {
            return Ok(());
        }
        measure_line(alloc, measure, slow, line)?;
    }
    Ok(())
}

/// What processes have spent at the end: steps, records and locks.
fn count_spent<B: Policy, D: Disk + Drop>(measure: &mut Measure, slow: &OwnSession<B, Counted<D>>) {
    if slow.session.booted {
        let store = &slow.session.kernel.running.store;
        measure.tally.spent = [spent_of(store, 3), spent_of(store, 4), spent_of(store, 5)];
    }
}

/// Counts what comes of a script in a session over this disk and these policies.
fn measure_script<B: Policy, D: Disk + Drop>(
    alloc: Global,
    measure: &mut Measure,
    lowered: &Lowered,
    disk: D,
    shelf: Vec<B>,
) -> Result<(), NoMemory>
    requires { IsStock (map B.seen shelf.items) }
{
    let Some(keys) = read_keys(lowered.lab.settings().word()) else {
        return Ok(());
    };
    let mut slow = OwnSession::new(alloc, keys, Counted::new(alloc, disk), shelf)?;
    measure_lines(alloc, measure, &mut slow, lowered.script.as_slice())?;
    count_spent(measure, &slow);
    Ok(())
}

/// The figures of the run of a lab file. Calls and drops are counted in what the run wrote; the rest
/// is seen in a session of its own over this disk and these policies, which are to be as those of the
/// run were at its beginning.
pub fn measure_run<B: Policy, D: Disk + Drop>(
    alloc: Global,
    given: Given,
    disk: D,
    shelf: Vec<B>,
) -> Result<Column, NoMemory>
    // The shelf has the seven stock policies, with their parameters at boot.
    requires { IsStock (map B.seen shelf.items) }
{
    let mut measure = Measure::new(alloc)?;
    measure_script(alloc, &mut measure, given.lowered, disk, shelf)?;
    let notes = notes_of(alloc, measure.calls.as_slice(), given.written.bytes())?;
    column_of(
        alloc,
        given.name,
        measure.calls.len(),
        notes.as_slice(),
        &measure.tally,
    )
}
