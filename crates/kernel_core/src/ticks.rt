//! The time-outs of a tick.

ghost use Rattle.std.specs.Prelude.{◌≡◌, ◌<◌, ◌-◌, ◌^◌, false, [], Some, None, option_map};
ghost use Rattle.call_pieces.specs.QuickPieces.{is_disk_fault};
ghost use Rattle.call_pieces.specs.Disks.{DiskSeen};
ghost use Rattle.kernel_model.specs.declared.Note.TheVariants.{Refused};
ghost use Rattle.placed_laws.specs.PlacedSteps.{placed_noted, placed_requeue, placed_ticked, with_placed_call};
ghost use Rattle.placed_laws.specs.PlacedEvents.{placed_actions, placed_entry_action};
ghost use Rattle.placed_laws.specs.PlacedEvents.{placed_holder, placed_tick_event, placed_waiter};
ghost use Rattle.running_kernel.specs.Orders.{blocker_of, entry_of};
ghost use Rattle.kernel_steps.specs.Moments.{kernel_moment};
ghost use Rattle.running_kernel.specs.Sound.{IsSound, IsSoundFor};
ghost use Rattle.kernel_steps.specs.Runs.{CanRun, IsSoundOn, RefinesAndKeeps};
ghost use Rattle.kernel_core.specs.EventParts.{RefinesAndTicks};
ghost use Rattle.running_kernel.specs.Views.{placed_of};

use crate::settle::settle_all;
use call_pieces::{Calls, Disk, Policy};
use kernel_model::{BareNote, Cause, Refusal};
use kernel_steps::{Notes, Trace, drop_level, end, tick};
use running_kernel::{Blocking, Running, Waiting};

/// The most actions of a tick (`graft_laws::ticks`).
const ACTIONS: u16 = 288;

/// Process p's call of this number, which is in no graft, is refused.
fn refuse<C: Calls, B: Policy>(
    running: &mut Running<C, B>,
    p: u8,
    number: u32,
    why: Refusal,
    notes: &mut Notes,
)
    requires at { IsSoundFor C.Meaning.meaning running.old p }
    requires call { Some number ≡ option_map (λ c. c.number) ((placed_of running.old).call p) }
    requires none { (placed_of running.old).levels p ≡ [] }
    requires why { is_disk_fault why ≡ false }
    ensures went { (d : DiskSeen) →
        RefinesAndKeeps C.Meaning.meaning
        (λ r. placed_requeue p (placed_noted (Refused number why) (with_placed_call p None r)))
        (kernel_moment running.old notes.old d) (kernel_moment running.new notes.new d) }
{
    end(running, p, BareNote::Refused(number, why), notes);
}

/// Process p has waited too long for a user lock: its innermost level is dropped, or its call ends.
fn time_out_waiter<C: Calls, B: Policy, D: Disk>(
    running: &mut Running<C, B>,
    p: u8,
    found: Blocking,
    disk: &mut D,
    trace: &mut Trace,
)
    requires { CanRun C.Meaning.meaning running.old (D.seen disk.old) p }
    ensures { RefinesAndKeeps C.Meaning.meaning
        (λ r. placed_waiter C.Meaning.meaning p (blocker_of found) (r.placed.call p) r)
        (kernel_moment running.old trace.old.notes (D.seen disk.old))
        (kernel_moment running.new trace.new.notes (D.seen disk.new)) }
{
    let Some(number) = running.call_number(p) else {
        return;
    };
    let count = running.level_count(p);
    if count == 0 {
        let why = Refusal::TimedOut(found.object, found.holder);
        return refuse(running, p, number, why, &mut trace.notes);
    }
    let cause = Cause::TimeOut(found.object, found.holder);
    drop_level(running, p, count - 1, cause, disk, trace);
}

/// A call has been in process p's way for too long: it loses the outermost level whose hold
/// conflicts.
fn time_out_holder<C: Calls, B: Policy, D: Disk>(
    running: &mut Running<C, B>,
    p: u8,
    found: Blocking,
    disk: &mut D,
    trace: &mut Trace,
)
    requires { CanRun C.Meaning.meaning running.old (D.seen disk.old) p }
    ensures { RefinesAndKeeps C.Meaning.meaning
        (placed_holder C.Meaning.meaning p (blocker_of found))
        (kernel_moment running.old trace.old.notes (D.seen disk.old))
        (kernel_moment running.new trace.new.notes (D.seen disk.new)) }
{
    let Some(level) = running.level_in_the_way(p, found.object, found.holder) else {
        return;
    };
    let cause = Cause::TimeOut(found.object, p);
    drop_level(running, found.holder, level, cause, disk, trace);
}

/// The action for an entry that has waited too long.
fn act<C: Calls, B: Policy, D: Disk>(
    running: &mut Running<C, B>,
    waiting: Waiting,
    disk: &mut D,
    trace: &mut Trace,
)
    requires process { waiting.process < 16 }
    requires on { IsSoundOn C.Meaning.meaning running.old (D.seen disk.old) }
    ensures { RefinesAndKeeps C.Meaning.meaning
        (placed_entry_action C.Meaning.meaning (entry_of waiting) (entry_of waiting).blocker)
        (kernel_moment running.old trace.old.notes (D.seen disk.old))
        (kernel_moment running.new trace.new.notes (D.seen disk.new)) }
{
    let Some(found) = waiting.blocker else {
        return;
    };
    match found.call {
        None => time_out_waiter(running, waiting.process, found, disk, trace),
        Some(_) => time_out_holder(running, waiting.process, found, disk, trace),
    }
}

/// At most so many actions, as long as a count has reached its patience, each with all steps that
/// can be taken then.
fn actions<C: Calls, B: Policy, D: Disk>(
    running: &mut Running<C, B>,
    turns: u16,
    disk: &mut D,
    trace: &mut Trace,
)
    requires { IsSoundOn C.Meaning.meaning running.old (D.seen disk.old) }
    ensures { RefinesAndKeeps C.Meaning.meaning (placed_actions C.Meaning.meaning turns)
        (kernel_moment running.old trace.old.notes (D.seen disk.old))
        (kernel_moment running.new trace.new.notes (D.seen disk.new)) }
{
    if turns == 0 {
        return;
    }
    let Some(waiting) = running.expired() else {
        return;
    };
    act(running, waiting, disk, trace);
    settle_all(running, disk, trace);
    actions(running, turns - 1, disk, trace);
}

/// The clock and the counts rise.
fn raise<C: Calls, B: Policy>(running: &mut Running<C, B>, number: u32, notes: &mut Notes)
    requires clock { running.old.clock < 2 ^ 32 - 1 }
    requires sound { IsSound C.Meaning.meaning running.old }
    ensures ticked { (d : DiskSeen) → RefinesAndTicks C.Meaning.meaning (placed_ticked number)
        (kernel_moment running.old notes.old d) (kernel_moment running.new notes.new d) }
{
    tick(running, number, notes);
}

/// A tick: the clock and the counts rise, and calls that have waited too long time out.
pub(crate) fn tick_event<C: Calls, B: Policy, D: Disk>(
    running: &mut Running<C, B>,
    number: u32,
    disk: &mut D,
    trace: &mut Trace,
)
    requires clock { running.old.clock < 2 ^ 32 - 1 }
    requires on { IsSoundOn C.Meaning.meaning running.old (D.seen disk.old) }
    ensures { RefinesAndTicks C.Meaning.meaning (placed_tick_event C.Meaning.meaning number)
        (kernel_moment running.old trace.old.notes (D.seen disk.old))
        (kernel_moment running.new trace.new.notes (D.seen disk.new)) }
{
    raise(running, number, &mut trace.notes);
    actions(running, ACTIONS, disk, trace);
}
