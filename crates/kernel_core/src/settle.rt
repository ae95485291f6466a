//! Steps until all calls are blocked.

ghost use Rattle.std.specs.Prelude.{◌≡◌, List, IfSome, IfNone, true, is_some};
ghost use Rattle.call_pieces.specs.Disks.{DiskSeen};
ghost use Rattle.kernel_model.specs.declared.Note.{Note};
ghost use Rattle.placed_laws.specs.PlacedSteps.{placed_first_free};
ghost use Rattle.placed_laws.specs.PlacedEvents.{placed_rested, placed_settle, placed_settled};
ghost use Rattle.kernel_steps.specs.Moments.{kernel_moment};
ghost use Rattle.running_kernel.specs.Sound.{IsSound};
ghost use Rattle.running_kernel.specs.Views.{placed_of, call_at};
ghost use Rattle.running_kernel.specs.Idle.{IsIdle, joined_in};
ghost use Rattle.kernel_steps.specs.Runs.{CanRun, IsSoundOn, RefinesAndKeeps};
ghost use Rattle.kernel_core.specs.EventParts.{settled_newest};

use call_pieces::{Calls, Disk, Policy};
use kernel_steps::{Trace, piece_alone, step};
use running_kernel::{Running, Waiting};

/// The most steps that can be taken (`kernel_laws::rest`).
const STEPS: u16 = 256;

/// The order is told its blockers.
fn rest<C: Calls, B: Policy>(running: &mut Running<C, B>)
    requires { IsSound C.Meaning.meaning running.old }
    ensures went { (kept : List Note) (d : DiskSeen) →
        RefinesAndKeeps C.Meaning.meaning (placed_rested C.Meaning.meaning)
        (kernel_moment running.old kept d) (kernel_moment running.new kept d) }
{
    running.rest();
}

/// The process of the first call in the order that nothing blocks. Where there is none, the order
/// is told its blockers.
fn next_or_rest<C: Calls, B: Policy>(running: &mut Running<C, B>) -> Option<u8>
    requires { IsSound C.Meaning.meaning running.old }
    ensures next { let x = placed_of running.old in
        result ≡ placed_first_free C.Meaning.meaning x x.order }
    ensures kept { IfSome result (λ _. running.new ≡ running.old) }
    ensures went { IfNone result ((kept : List Note) (d : DiskSeen) →
        RefinesAndKeeps C.Meaning.meaning (placed_rested C.Meaning.meaning)
        (kernel_moment running.old kept d) (kernel_moment running.new kept d)) }
{
    match running.next_or_rest() {
        Some(p) => Some(p),
        None => None,
    }
}

/// At most so many steps, each of the first call in the order that nothing blocks, and then rest. It
/// isn't inlined: a call that begins mostly comes to its end without it.
#[inline(never)]
fn settle<C: Calls, B: Policy, D: Disk>(
    running: &mut Running<C, B>,
    turns: u16,
    disk: &mut D,
    trace: &mut Trace,
)
    requires { IsSoundOn C.Meaning.meaning running.old (D.seen disk.old) }
    ensures { RefinesAndKeeps C.Meaning.meaning (placed_settle C.Meaning.meaning turns)
        (kernel_moment running.old trace.old.notes (D.seen disk.old))
        (kernel_moment running.new trace.new.notes (D.seen disk.new)) }
{
    if turns == 0 {
        return rest(running);
    }
    let Some(p) = next_or_rest(running) else {
        return;
    };
    step(running, p, disk, trace);
    settle(running, turns - 1, disk, trace);
}

/// The same, once process p's call, which has begun, has joined the order. It is marked cold, so that
/// the code of a call that goes on alone stands together.
#[cold]
#[inline(never)]
fn settle_joined<C: Calls, B: Policy, D: Disk>(
    running: &mut Running<C, B>,
    p: u8,
    turns: u16,
    disk: &mut D,
    trace: &mut Trace,
)
    requires { CanRun C.Meaning.meaning (joined_in p running.old) (D.seen disk.old) p }
    ensures { RefinesAndKeeps C.Meaning.meaning (placed_settle C.Meaning.meaning turns)
        (kernel_moment (joined_in p running.old) trace.old.notes (D.seen disk.old))
        (kernel_moment running.new trace.new.notes (D.seen disk.new)) }
{
    running.order.push(Waiting::joined(p));
    settle(running, turns, disk, trace);
}

/// The same, where no other call waits and nothing is held: piece by piece, as long as nothing can
/// hinder the call and no graft stands. A call that ends so never joins the order.
fn settle_alone<C: Calls, B: Policy, D: Disk>(
    running: &mut Running<C, B>,
    p: u8,
    turns: u16,
    disk: &mut D,
    trace: &mut Trace,
)
    requires at { CanRun C.Meaning.meaning (joined_in p running.old) (D.seen disk.old) p }
    requires idle { IsIdle running.old }
    ensures { RefinesAndKeeps C.Meaning.meaning (placed_settle C.Meaning.meaning turns)
        (kernel_moment (joined_in p running.old) trace.old.notes (D.seen disk.old))
        (kernel_moment running.new trace.new.notes (D.seen disk.new)) }
{
    if turns == 0 {
        return settle_joined(running, p, turns, disk, trace);
    }
    if !running.is_plain(p) {
        return settle_joined(running, p, turns, disk, trace);
    }
    if piece_alone(running, p, disk, trace) {
        settle_alone(running, p, turns - 1, disk, trace);
    }
}

/// All steps that can be taken, of which the first is that of process p's call, which has just joined
/// the order, if nothing blocks it.
fn settle_from<C: Calls, B: Policy, D: Disk>(
    running: &mut Running<C, B>,
    p: u8,
    disk: &mut D,
    trace: &mut Trace,
)
    requires at { CanRun C.Meaning.meaning running.old (D.seen disk.old) p }
    requires call { is_some (call_at running.old p) ≡ true }
    ensures { RefinesAndKeeps C.Meaning.meaning (settled_newest C.Meaning.meaning p)
        (kernel_moment running.old trace.old.notes (D.seen disk.old))
        (kernel_moment running.new trace.new.notes (D.seen disk.new)) }
{
    if running.blocker(p).is_some() {
        return settle(running, STEPS, disk, trace);
    }
    step(running, p, disk, trace);
    settle(running, STEPS - 1, disk, trace);
}

/// The same, once process p's call, which has begun, has joined the order. It is marked cold, as
/// `settle_joined` is.
#[cold]
#[inline(never)]
fn settle_newest<C: Calls, B: Policy, D: Disk>(
    running: &mut Running<C, B>,
    p: u8,
    disk: &mut D,
    trace: &mut Trace,
)
    requires { CanRun C.Meaning.meaning (joined_in p running.old) (D.seen disk.old) p }
    ensures { RefinesAndKeeps C.Meaning.meaning (settled_newest C.Meaning.meaning p)
        (kernel_moment (joined_in p running.old) trace.old.notes (D.seen disk.old))
        (kernel_moment running.new trace.new.notes (D.seen disk.new)) }
{
    running.order.push(Waiting::joined(p));
    settle_from(running, p, disk, trace);
}

/// All steps that can be taken once process p's call, which has begun, has joined the order: the
/// first is that of this call, if nothing blocks it. Calls that waited before aren't asked till then.
pub(crate) fn settle_begun<C: Calls, B: Policy, D: Disk>(
    running: &mut Running<C, B>,
    p: u8,
    disk: &mut D,
    trace: &mut Trace,
)
    requires { CanRun C.Meaning.meaning (joined_in p running.old) (D.seen disk.old) p }
    ensures { RefinesAndKeeps C.Meaning.meaning (settled_newest C.Meaning.meaning p)
        (kernel_moment (joined_in p running.old) trace.old.notes (D.seen disk.old))
        (kernel_moment running.new trace.new.notes (D.seen disk.new)) }
{
    if running.is_idle() {
        return settle_alone(running, p, STEPS, disk, trace);
    }
    settle_newest(running, p, disk, trace);
}

/// All steps that can be taken: none where no call waits.
#[inline]
pub(crate) fn settle_all<C: Calls, B: Policy, D: Disk>(
    running: &mut Running<C, B>,
    disk: &mut D,
    trace: &mut Trace,
)
    requires { IsSoundOn C.Meaning.meaning running.old (D.seen disk.old) }
    ensures { RefinesAndKeeps C.Meaning.meaning (placed_settled C.Meaning.meaning)
        (kernel_moment running.old trace.old.notes (D.seen disk.old))
        (kernel_moment running.new trace.new.notes (D.seen disk.new)) }
{
    if running.order.is_empty() {
        return;
    }
    settle(running, STEPS, disk, trace);
}
