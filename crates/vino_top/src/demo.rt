//! The word `demo`: the generated script is run, and one line tells of it.

ghost use Rattle.std.specs.Prelude.{◌≡◌, ◌==◌, ◌⊎◌, ◌≤◌, ◌<◌, ◌+◌, ◌-◌, ◌^◌, ◌++◌, ℕ, [], length};
ghost use Rattle.std.specs.Prelude.{map, OnOk, OnErr, IfOk};
ghost use Rattle.script_model.specs.AllCalls.{all_calls};
ghost use Rattle.script_model.specs.Demo.{demo_lines, summary_of};
ghost use Rattle.demo_text.specs.Tallies.{IsTally};
ghost use Rattle.vino_top.specs.Bounds.{IsStock, IsSessionWithin};
ghost use Rattle.vino_top.specs.Standing.{seen_of, IsBegun, last_bytes};
ghost use Rattle.vino_top.specs.Run.{WantsAt, Left};
ghost use Rattle.vino_top.specs.Does.{DemoAnswers};
ghost use Rattle.vino_top.specs.Demos.{demo_place, HasRoom, DemoTakes, DemoReached, DemoStops};

use crate::{Buffers, Session};
use call_pieces::Policy;
use demo_text::{DemoLines, Tally};
use graft_loader::Keys;
use kernel_data::NoMemory;
use line_text::Text;
use std::alloc::Global;
use vino_base::{Disk, Sink, write_all};

/// The keys of the script's images.
const KEYS: Keys = Keys {
    first: [0; 32],
    second: None,
};

/// A run of the generated script: its session, what a line leaves behind, and what all lines came
/// to.
#[derive(Drop)]
struct DemoRun<B: Policy> {
    session: Session<B>,
    out: Buffers,
    tally: Tally,
}

/// Before the first line, with the stock policies.
fn new_demo<B: Policy>(alloc: Global, shelf: Vec<B>) -> Result<DemoRun<B>, NoMemory>
    requires { IsStock (map B.seen shelf.items) }
    ensures within { IfOk result (λ r. (size : ℕ) → IsSessionWithin size r.session) }
    ensures begun { IfOk result (λ r. IsBegun (seen_of r.session)) }
    ensures tally { IfOk result (λ r. IsTally r.tally [] []) }
{
    Ok(DemoRun {
        session: Session::new(alloc, shelf)?,
        out: Buffers::new(alloc)?,
        tally: Tally::new(),
    })
}

/// Runs a line, and tallies what it leaves behind.
fn run_one<B: Policy, D: Disk>(
    alloc: Global,
    run: &mut DemoRun<B>,
    text: &[u8],
    disk: &mut D,
) -> Result<(), NoMemory>
    requires room { run.old.session.lines < 2 ^ 32 - 2 }
    requires within { IsSessionWithin (D.seen disk.old).size run.old.session }
    requires short { length text.now ≤ 2048 }
    requires tally { HasRoom run.old.tally }
    ensures within { IsSessionWithin (D.seen disk.new).size run.new.session }
    ensures ok { OnOk result (DemoTakes (demo_place (D.seen disk.old).size) text.now
        (seen_of run.old.session) (seen_of run.new.session) (D.seen disk.old) (D.seen disk.new)
        run.old.tally run.new.tally) }
    ensures err { OnErr result (WantsAt [] all_calls (seen_of run.old.session) text.now) }
    ensures same_disk { OnErr result (D.seen disk.new ≡ D.seen disk.old) }
{
    run.session
        .run_line(alloc, &KEYS, text, disk, &mut run.out)?;
    let (notes, _) = run.out.trace.notes.parts();
    run.tally.add(run.out.lines.as_slice(), notes);
    Ok(())
}

/// Runs all lines that are to come.
fn run_all<B: Policy, D: Disk>(
    alloc: Global,
    run: &mut DemoRun<B>,
    lines: &mut DemoLines,
    disk: &mut D,
) -> Result<(), NoMemory>
    requires few { length lines.old ≤ 5026 }
    requires begun { IsBegun (seen_of run.old.session) }
    requires within { IsSessionWithin (D.seen disk.old).size run.old.session }
    requires tally { IsTally run.old.tally [] [] }
    ensures ok { OnOk result (DemoReached (demo_place (D.seen disk.old).size) lines.old []
        (seen_of run.old.session) (seen_of run.new.session) (D.seen disk.old) (D.seen disk.new)
        run.new.tally) }
    ensures err { OnErr result (DemoStops (demo_place (D.seen disk.old).size) lines.old
        (seen_of run.old.session) (D.seen disk.old) (D.seen disk.new)) }
{
    let mut text = Text::new();
    'lines: while lines.next(&mut text) {
        if let Err(lacks) = run_one(alloc, run, text.as_slice(), disk) {
            return Err(lacks);
        }
    }
    Ok(())
}

/// The line that tells of a run, once the lines of the calls that are left are tallied too.
fn tell<B: Policy>(run: DemoRun<B>, n: u32, text: &mut Text)
    requires tally { HasRoom run.tally }
    ensures { (so_far : Left) → IsTally run.tally so_far.bytes so_far.notes →
        text.new ≡ summary_of n
        (so_far.bytes ++ last_bytes (seen_of run.session) []) so_far.notes }
{
    let DemoRun {
        session,
        mut out,
        mut tally,
    } = run;
    session.left(&mut out);
    tally.add(out.lines.as_slice(), &[]);
    tally.print(n, text);
}

/// Runs the script from its beginning, and tells of it.
fn run_demo<B: Policy, K: Sink, D: Disk>(
    alloc: Global,
    n: u32,
    mut run: DemoRun<B>,
    mut lines: DemoLines,
    sink: &mut K,
    disk: &mut D,
) -> u8
    requires script { lines ≡ demo_lines n }
    requires begun { IsBegun (seen_of run.session) }
    requires within { (size : ℕ) → IsSessionWithin size run.session }
    requires tally { IsTally run.tally [] [] }
    ensures { DemoAnswers n (K.seen sink.old) (K.seen sink.new) (D.seen disk.old)
        (D.seen disk.new) result }
{
    if let Err(_) = run_all(alloc, &mut run, &mut lines, disk) {
        return 5;
    }
    let mut text = Text::new();
    tell(run, n, &mut text);
    match write_all(sink, text.as_slice()) {
        Ok(()) => 0,
        Err(_) => 4,
    }
}

/// Runs the script of a number, over a new kernel with the stock policies, and tells of it in one
/// line. The status: 0, 4 where the sink failed, 5 for want of memory.
pub fn demo<B: Policy, K: Sink, D: Disk>(
    alloc: Global,
    n: u32,
    sink: &mut K,
    disk: &mut D,
    shelf: Vec<B>,
) -> u8
    requires { IsStock (map B.seen shelf.items) }
    ensures { DemoAnswers n (K.seen sink.old) (K.seen sink.new) (D.seen disk.old)
        (D.seen disk.new) result }
{
    let Ok(lines) = DemoLines::new(alloc, n) else {
        return 5;
    };
    match new_demo(alloc, shelf) {
        Err(_) => 5,
        Ok(run) => run_demo(alloc, n, run, lines, sink, disk),
    }
}
