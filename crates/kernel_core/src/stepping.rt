//! Instructions of a call.

ghost use Rattle.std.specs.Prelude.{◌≡◌, ◌<◌, ◌≤◌, ◌+◌, ◌^◌, ◌-◌, List, false, true, cond, is_some};
ghost use Rattle.call_pieces.specs.Disks.{DiskSeen};
ghost use Rattle.kernel_model.specs.declared.Note.{Note};
ghost use Rattle.kernel_model.specs.Events.{in_order};
ghost use Rattle.placed_laws.specs.Placed.{has_some, placed_blocker};
ghost use Rattle.placed_laws.specs.PlacedSteps.{placed_joins};
ghost use Rattle.placed_laws.specs.PlacedEvents.{placed_step_event};
ghost use Rattle.kernel_steps.specs.Moments.{kernel_moment};
ghost use Rattle.running_kernel.specs.Sound.{IsSoundFor};
ghost use Rattle.kernel_steps.specs.Runs.{CanRun, RefinesAndKeeps};
ghost use Rattle.kernel_core.specs.EventParts.{steps_said, taken_up, takes_up, RunsFromRest, RunsToRest};
ghost use Rattle.running_kernel.specs.Views.{placed_of};

use crate::last::say_last;
use crate::settle::settle_all;
use crate::stretch::stretch;
use call_pieces::{Calls, Disk, Policy};
use kernel_model::BareNote;
use kernel_steps::{Trace, step, step_in_graft};
use running_kernel::Running;

/// Process p's call, which is in a graft, blocked, and not in the order, joins it.
fn join<C: Calls, B: Policy>(running: &mut Running<C, B>, p: u8)
    requires at { IsSoundFor C.Meaning.meaning running.old p }
    requires level { has_some ((placed_of running.old).levels p) ≡ true }
    requires new { in_order p (placed_of running.old).order ≡ false }
    requires blocked { is_some (placed_blocker C.Meaning.meaning (placed_of running.old) p) ≡ true }
    ensures went { (kept : List Note) (d : DiskSeen) →
        RefinesAndKeeps C.Meaning.meaning (placed_joins p)
        (kernel_moment running.old kept d) (kernel_moment running.new kept d) }
{
    kernel_steps::join(running, p);
}

/// The same of a call that is in a graft and doesn't wait, where no other call waits: there is no
/// step to take then but what the instruction brings about.
fn take_up_first<C: Calls, B: Policy, D: Disk>(
    running: &mut Running<C, B>,
    p: u8,
    disk: &mut D,
    trace: &mut Trace,
) -> bool
    requires at { CanRun C.Meaning.meaning running.old (D.seen disk.old) p }
    requires level { has_some ((placed_of running.old).levels p) ≡ true }
    requires away { in_order p (placed_of running.old).order ≡ false }
    ensures took { result ≡ takes_up C.Meaning.meaning (placed_of running.old) p }
    ensures went { RunsToRest C.Meaning.meaning (taken_up C.Meaning.meaning p)
        (kernel_moment running.old trace.old.notes (D.seen disk.old))
        (kernel_moment running.new trace.new.notes (D.seen disk.new)) }
{
    if running.blocker(p).is_some() {
        join(running, p);
        settle_all(running, disk, trace);
        return false;
    }
    step(running, p, disk, trace);
    settle_all(running, disk, trace);
    true
}

/// Takes up an instruction of process p's call, and all steps that can be taken then: none where
/// the kernel rested, and the call keeps its levels and what they hold. Whether it could: a call
/// that is blocked in a graft joins the order.
fn take_up<C: Calls, B: Policy, D: Disk>(
    running: &mut Running<C, B>,
    p: u8,
    disk: &mut D,
    trace: &mut Trace,
) -> bool
    requires { CanRun C.Meaning.meaning running.old (D.seen disk.old) p }
    ensures took { result ≡ takes_up C.Meaning.meaning (placed_of running.old) p }
    ensures went { RunsToRest C.Meaning.meaning (taken_up C.Meaning.meaning p)
        (kernel_moment running.old trace.old.notes (D.seen disk.old))
        (kernel_moment running.new trace.new.notes (D.seen disk.new)) }
{
    if !running.in_graft(p) {
        return false;
    }
    if running.waits(p) {
        return false;
    }
    if running.order.is_empty() {
        return take_up_first(running, p, disk, trace);
    }
    let needs = running.instruction_needs(p);
    if running.blocked_by(p, needs.as_slice()).is_some() {
        join(running, p);
        settle_all(running, disk, trace);
        return false;
    }
    if step_in_graft(running, p, needs.as_slice(), disk, trace) {
        return true;
    }
    settle_all(running, disk, trace);
    true
}

/// A count after one more, if there was one more.
fn more(taken: u32, went: bool) -> u32
    requires { taken < 2 ^ 32 - 1 }
    ensures { result ≡ cond went (taken + 1) taken }
{
    if went { taken + 1 } else { taken }
}

/// At most n instructions of process p's call, and the note of how many were taken up.
fn steps<C: Calls, B: Policy, D: Disk>(
    running: &mut Running<C, B>,
    number: u32,
    p: u8,
    n: u32,
    disk: &mut D,
    trace: &mut Trace,
)
    requires at { CanRun C.Meaning.meaning running.old (D.seen disk.old) p }
    requires few { n ≤ 65536 }
    ensures { RunsFromRest C.Meaning.meaning (steps_said C.Meaning.meaning number p n 0)
        (kernel_moment running.old trace.old.notes (D.seen disk.old))
        (kernel_moment running.new trace.new.notes (D.seen disk.new)) }
{
    let mut taken = 0;
    let mut going = true;
    while going && taken < n {
        taken += stretch(running, p, n - taken);
        if taken == n {
            continue;
        }
        going = take_up(running, p, disk, trace);
        taken = more(taken, going);
    }
    trace.notes.push(BareNote::Ran(number, taken));
}

/// Instructions of process p's call: at most n, how many were taken up, and where the call stands
/// then.
pub(crate) fn step_event<C: Calls, B: Policy, D: Disk>(
    running: &mut Running<C, B>,
    number: u32,
    p: u8,
    n: u32,
    disk: &mut D,
    trace: &mut Trace,
)
    requires at { CanRun C.Meaning.meaning running.old (D.seen disk.old) p }
    requires few { n ≤ 65536 }
    ensures { RunsFromRest C.Meaning.meaning (placed_step_event C.Meaning.meaning number p n)
        (kernel_moment running.old trace.old.notes (D.seen disk.old))
        (kernel_moment running.new trace.new.notes (D.seen disk.new)) }
{
    steps(running, number, p, n, disk, trace);
    say_last(running, p, &mut trace.notes);
}
