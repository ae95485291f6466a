//! `event`.

ghost use Rattle.std.specs.Prelude.{◌≡◌, ◌<◌, ◌-◌, ◌^◌, [], true, None};
ghost use Rattle.kernel_model.specs.declared.Event.TheVariants.{Step, Sys};
ghost use Rattle.kernel_model.specs.Bare.{call_with, event_with};
ghost use Rattle.kernel_model.specs.Policies.{lives};
ghost use Rattle.call_pieces.specs.Stores.{world_of_store, queue_of};
ghost use Rattle.placed_laws.specs.PlacedEvents.{placed_event_on, placed_last};
ghost use Rattle.kernel_steps.specs.Moments.{kernel_moment};
ghost use Rattle.running_kernel.specs.Sound.{IsSoundFor};
ghost use Rattle.kernel_steps.specs.Runs.{CanRun, IsSoundOn, RefinesAndKeeps};
ghost use Rattle.kernel_core.specs.EventParts.{settled_newest, RunsFromRest};
ghost use Rattle.running_kernel.specs.Idle.{joined_in};
ghost use Rattle.running_kernel.specs.Views.{placed_of};
ghost use Rattle.kernel_core.specs.EventRefines.{EventRefines, IsKernel};
ghost use Rattle.kernel_core.specs.Starts.{Starts};

use crate::last::say_last;
use crate::settle::settle_begun;
use crate::stepping::step_event;
use crate::ticks::tick_event;
use arrayvec::ArrayVec;
use call_pieces::{Calls, Disk, Policy};
use kernel_model::{BLOCK_BYTES, BareEvent, BareNote, Refusal};
use kernel_steps::{Request, Trace};
use running_kernel::Running;

/// The most instructions of one event.
const MOST_STEPS: u32 = 65_536;

/// A call of process p begins, which lives and has none, and is still to join the order; or it is
/// refused at once, and nothing changes.
fn start_call<C: Calls, B: Policy>(
    running: &mut Running<C, B>,
    p: u8,
    request: Request<'_>,
) -> Result<(), Refusal>
    requires at { IsSoundFor C.Meaning.meaning running.old p }
    requires alive { lives (queue_of running.old.store) p ≡ true }
    requires none { (placed_of running.old).call p ≡ None }
    ensures { Starts C.Meaning.meaning p request.entry.number
        (call_with request.entry.call request.entry.bytes.now.items)
        running.old running.new result }
{
    kernel_steps::begin_call(running, p, request)
}

/// A call of process p that has begun and is still to join the order, as far as it comes at its
/// event.
fn run_call<C: Calls, B: Policy, D: Disk>(
    running: &mut Running<C, B>,
    p: u8,
    disk: &mut D,
    trace: &mut Trace,
)
    requires { CanRun C.Meaning.meaning (joined_in p running.old) (D.seen disk.old) p }
    ensures { RefinesAndKeeps C.Meaning.meaning
        (λ r. placed_last C.Meaning.meaning p (settled_newest C.Meaning.meaning p r))
        (kernel_moment (joined_in p running.old) trace.old.notes (D.seen disk.old))
        (kernel_moment running.new trace.new.notes (D.seen disk.new)) }
{
    settle_begun(running, p, disk, trace);
    say_last(running, p, &mut trace.notes);
}

/// A system call of process p: refused at once, or begun. Where the kernel rested, no call that
/// waited can go on before the first piece of this one.
fn system<C: Calls, B: Policy, D: Disk>(
    running: &mut Running<C, B>,
    p: u32,
    request: Request<'_>,
    disk: &mut D,
    trace: &mut Trace,
)
    requires { IsSoundOn C.Meaning.meaning running.old (D.seen disk.old) }
    ensures { RunsFromRest C.Meaning.meaning
        (placed_event_on C.Meaning.meaning request.entry.number
        (Sys p (call_with request.entry.call request.entry.bytes.now.items)))
        (kernel_moment running.old trace.old.notes (D.seen disk.old))
        (kernel_moment running.new trace.new.notes (D.seen disk.new)) }
{
    let number = request.number;
    if !running.store.living(p) {
        return trace
            .notes
            .push(BareNote::Refused(number, Refusal::NoProcess));
    }
    if let Some(busy) = running.call_number(p as u8) {
        return trace
            .notes
            .push(BareNote::Refused(number, Refusal::Busy(busy)));
    }
    match start_call(running, p as u8, request) {
        Err(refusal) => trace.notes.push(BareNote::Refused(number, refusal)),
        Ok(()) => run_call(running, p as u8, disk, trace),
    }
}

/// Instructions of process p's call, at most n, or a refusal. It is marked cold, so that the code of
/// a system call stands together.
#[cold]
#[inline(never)]
fn stepped<C: Calls, B: Policy, D: Disk>(
    running: &mut Running<C, B>,
    number: u32,
    p: u32,
    n: u32,
    disk: &mut D,
    trace: &mut Trace,
)
    requires { IsSoundOn C.Meaning.meaning running.old (D.seen disk.old) }
    ensures { RunsFromRest C.Meaning.meaning
        (placed_event_on C.Meaning.meaning number (Step p n))
        (kernel_moment running.old trace.old.notes (D.seen disk.old))
        (kernel_moment running.new trace.new.notes (D.seen disk.new)) }
{
    if !running.store.living(p) {
        return trace
            .notes
            .push(BareNote::Refused(number, Refusal::NoProcess));
    }
    if n == 0 {
        return trace
            .notes
            .push(BareNote::Refused(number, Refusal::BadIndex));
    }
    if n > MOST_STEPS {
        return trace
            .notes
            .push(BareNote::Refused(number, Refusal::BadIndex));
    }
    step_event(running, number, p as u8, n, disk, trace);
}

/// One event, which has this number. Its notes are left behind. The bytes are those of its
/// system call. No memory is taken.
pub fn event<C: Calls, B: Policy, D: Disk>(
    running: &mut Running<C, B>,
    number: u32,
    what: BareEvent,
    bytes: &ArrayVec<u8, BLOCK_BYTES>,
    disk: &mut D,
    trace: &mut Trace,
)
    requires first { 0 < number }
    requires room { number < 2 ^ 32 - 1 }
    requires kernel { IsKernel C.Meaning.meaning (number - 1) running.old }
    requires size { running.old.store.size ≡ (D.seen disk.old).size }
    requires no_notes { trace.old.notes ≡ [] }
    ensures happened { EventRefines C.Meaning.meaning (placed_of running.old)
        (placed_of running.new) number (event_with what bytes.now.items) trace.new.notes
        (D.seen disk.old) (D.seen disk.new) }
    ensures kernel { IsKernel C.Meaning.meaning number running.new }
    ensures world { world_of_store running.new.store ≡ world_of_store running.old.store }
{
    disk.size();
    match what {
        BareEvent::Tick => tick_event(running, number, disk, trace),
        BareEvent::Step(p, n) => stepped(running, number, p, n, disk, trace),
        BareEvent::Sys(p, call) => {
            let request = Request {
                number,
                call,
                bytes,
            };
            system(running, p, request, disk, trace)
        }
    }
}
