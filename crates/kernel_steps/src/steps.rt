//! One step of a call, and the drop of one of its levels.

ghost use Rattle.std.specs.Prelude.{◌≡◌, ◌<◌, ℕ, true, [], ◌∷◌, Some, None, is_some, length, List, Option};
ghost use Rattle.kernel_model.specs.Bare.{note_with};
ghost use Rattle.kernel_model.specs.GraftStep.{micro};
ghost use Rattle.kernel_model.specs.Levels.{drop_level as level_dropped};
ghost use Rattle.placed_laws.specs.Placed.{placed_blocker, placed_config};
ghost use Rattle.placed_laws.specs.PlacedSteps.{placed_call_step, placed_drop, placed_noted};
ghost use Rattle.placed_laws.specs.PlacedSteps.{placed_outcome, placed_step};
ghost use Rattle.call_pieces.specs.Works.{answer_seen};
ghost use Rattle.kernel_steps.specs.Steps.{answer_said, answer_of_drop, after_drop, after_said};
ghost use Rattle.kernel_steps.specs.Steps.{finishes, CallStepDone, CanFinish, StepDone, StepsAlone};
ghost use Rattle.kernel_steps.specs.Faults.{fault_notes};
ghost use Rattle.kernel_steps.specs.Moments.{kernel_moment};
ghost use Rattle.kernel_steps.specs.Runs.{CanRun, HasLevel, RefinesAndKeeps};
ghost use Rattle.running_kernel.specs.Idle.{IsIdle, IsPlain, joined_in, joined_if};
ghost use Rattle.running_kernel.specs.Views.{placed_of, chain_of, call_at};

use crate::calls::requeue;
use crate::levels::{enter, fall, instruct};
use crate::pieces::do_piece;
use crate::trace::Trace;
use call_pieces::{Calls, Disk, Policy};
use kernel_model::{BareNote, Cause, Micro};
use running_kernel::{Running, flight, number_of};

/// The piece of process p's call, which has no level, is done: with an answer to the point that it
/// asks, or by default. It isn't inlined: most pieces are done by `piece_alone`.
#[inline(never)]
fn finish<C: Calls, B: Policy, D: Disk>(
    running: &mut Running<C, B>,
    p: u8,
    answer: Option<[u32; 4]>,
    disk: &mut D,
    trace: &mut Trace,
)
    requires alone { StepsAlone running.old p }
    requires answer { CanFinish C.Meaning.meaning running.old p answer }
    requires disk { running.old.store.size ≡ (D.seen disk.old).size }
    ensures { CallStepDone (λ c. finishes C.Meaning.meaning p c
        (answer_seen running.old.store.ram p answer)) p
        (kernel_moment running.old trace.old.notes (D.seen disk.old))
        (kernel_moment running.new trace.new.notes (D.seen disk.new)) }
{
    let flight = &mut running.calls[p as usize];
    do_piece::<C, B, D>(&mut flight.call, &mut running.store, answer, disk, trace);
}

/// Level d of process p's call was dropped, which is noted. With level 0 the default finishes the
/// piece.
fn follow_drop<C: Calls, B: Policy, D: Disk>(
    running: &mut Running<C, B>,
    p: u8,
    d: u8,
    note: BareNote,
    disk: &mut D,
    trace: &mut Trace,
)
    requires alone { StepsAlone running.old p }
    requires answer { (answer : Option (List ℕ)) → answer_of_drop d ≡ Some answer →
        CanFinish C.Meaning.meaning running.old p answer }
    requires note { fault_notes (note_with note [] ∷ []) ≡ 0 }
    requires disk { running.old.store.size ≡ (D.seen disk.old).size }
    ensures { CallStepDone (λ c r. after_drop C.Meaning.meaning p c d
        (placed_noted (note_with note []) r)) p
        (kernel_moment running.old trace.old.notes (D.seen disk.old))
        (kernel_moment running.new trace.new.notes (D.seen disk.new)) }
{
    trace.notes.push(note);
    if d > 0 {
        return;
    }
    finish(running, p, None, disk, trace);
}

/// What is left to do of a step of process p's call, once an instruction or the drop of a level
/// said this. What an answer gives stands in memory.
fn follow<C: Calls, B: Policy, D: Disk>(
    running: &mut Running<C, B>,
    p: u8,
    said: Micro,
    disk: &mut D,
    trace: &mut Trace,
)
    requires alone { StepsAlone running.old p }
    requires answer { (answer : Option (List ℕ)) → answer_said said ≡ Some answer →
        CanFinish C.Meaning.meaning running.old p answer }
    requires disk { running.old.store.size ≡ (D.seen disk.old).size }
    ensures { CallStepDone
        (λ c. after_said C.Meaning.meaning running.old.store.ram p c said) p
        (kernel_moment running.old trace.old.notes (D.seen disk.old))
        (kernel_moment running.new trace.new.notes (D.seen disk.new)) }
{
    match said {
        Micro::Went | Micro::Blocked { .. } => {}
        Micro::Completed(answer) => finish(running, p, Some(answer), disk, trace),
        Micro::Dropped {
            depth: d,
            installer: q,
            point: pt,
            cause,
        } => {
            let Some(number) = number_of(&running.calls, p) else {
                return;
            };
            follow_drop(
                running,
                p,
                d,
                BareNote::Dropped {
                    number,
                    installer: q,
                    point: pt,
                    cause,
                },
                disk,
                trace,
            )
        }
    }
}

/// One instruction of process p's call, which is in a graft, and what follows from it.
fn graft_step<C: Calls, B: Policy, D: Disk>(
    running: &mut Running<C, B>,
    p: u8,
    disk: &mut D,
    trace: &mut Trace,
)
    requires { HasLevel C.Meaning.meaning running.old (D.seen disk.old) p 0 }
    ensures { CallStepDone (λ c r. placed_outcome C.Meaning.meaning p c
        (micro r.placed.world r.placed.images p (placed_config r.placed p)) r) p
        (kernel_moment running.old trace.old.notes (D.seen disk.old))
        (kernel_moment running.new trace.new.notes (D.seen disk.new)) }
{
    let said = instruct(running, p);
    follow(running, p, said, disk, trace);
}

/// The next piece of process p's call, which is in no graft: where it asks a point at which a graft
/// stands, the call enters that graft; else the piece is done by default.
fn piece_step<C: Calls, B: Policy, D: Disk>(
    running: &mut Running<C, B>,
    p: u8,
    disk: &mut D,
    trace: &mut Trace,
)
    requires at { CanRun C.Meaning.meaning running.old (D.seen disk.old) p }
    requires none { (chain_of running.old p).levels ≡ [] }
    ensures { CallStepDone (λ c. placed_call_step C.Meaning.meaning p (Some c)) p
        (kernel_moment running.old trace.old.notes (D.seen disk.old))
        (kernel_moment running.new trace.new.notes (D.seen disk.new)) }
{
    let flight = flight(&running.calls, p);
    let Some(call) = flight.call.get() else {
        return;
    };
    let Some(point) = C::asks(&call.work, &running.store) else {
        return finish(running, p, None, disk, trace);
    };
    if !running.store.has_graft(point.installer, point.point) {
        return finish(running, p, None, disk, trace);
    }
    enter(running, p, &point);
}

/// A step of process p's call, but for its place in the order.
fn step_call<C: Calls, B: Policy, D: Disk>(
    running: &mut Running<C, B>,
    p: u8,
    disk: &mut D,
    trace: &mut Trace,
)
    requires at { CanRun C.Meaning.meaning running.old (D.seen disk.old) p }
    requires call { is_some (call_at running.old p) ≡ true }
    ensures { StepDone (placed_call_step C.Meaning.meaning p (call_at running.old p)) p
        (kernel_moment running.old trace.old.notes (D.seen disk.old))
        (kernel_moment running.new trace.new.notes (D.seen disk.new)) }
{
    if flight(&running.calls, p).chain.levels.count() == 0 {
        return piece_step(running, p, disk, trace);
    }
    graft_step(running, p, disk, trace);
}

/// One step of process p's call, which nothing blocks: its next piece, or an instruction of its
/// innermost level, with all that this ends. The call stands in the order, at its end, exactly
/// where its next step is a piece. The log is for the calls of the disk of one piece.
pub fn step<C: Calls, B: Policy, D: Disk>(
    running: &mut Running<C, B>,
    p: u8,
    disk: &mut D,
    trace: &mut Trace,
)
    requires at { CanRun C.Meaning.meaning running.old (D.seen disk.old) p }
    requires call { is_some (call_at running.old p) ≡ true }
    requires free { placed_blocker C.Meaning.meaning (placed_of running.old) p ≡ None }
    ensures { RefinesAndKeeps C.Meaning.meaning (placed_step C.Meaning.meaning p)
        (kernel_moment running.old trace.old.notes (D.seen disk.old))
        (kernel_moment running.new trace.new.notes (D.seen disk.new)) }
{
    step_call(running, p, disk, trace);
    requeue(running, p);
}

/// The next piece of process p's call, where nothing is held and no other call waits, no graft stands
/// and nothing can hinder the call. Whether the call goes on: it is in the order then, and else it has
/// ended. The order itself is left alone. It is inlined, as most pieces are done here.
#[inline(always)]
pub fn piece_alone<C: Calls, B: Policy, D: Disk>(
    running: &mut Running<C, B>,
    p: u8,
    disk: &mut D,
    trace: &mut Trace,
) -> bool
    requires at { CanRun C.Meaning.meaning (joined_in p running.old) (D.seen disk.old) p }
    requires idle { IsIdle running.old }
    requires plain { IsPlain running.old p }
    ensures went { RefinesAndKeeps C.Meaning.meaning (placed_step C.Meaning.meaning p)
        (kernel_moment (joined_in p running.old) trace.old.notes (D.seen disk.old))
        (kernel_moment (joined_if result p running.new) trace.new.notes (D.seen disk.new)) }
    ensures idle { IsIdle running.new }
{
    let flight = &mut running.calls[p as usize];
    do_piece::<C, B, D>(&mut flight.call, &mut running.store, None, disk, trace);
    flight.call.is_taken()
}

/// The drop of level d of process p's call, but for the call's place in the order.
fn drop_call<C: Calls, B: Policy, D: Disk>(
    running: &mut Running<C, B>,
    p: u8,
    d: u8,
    cause: Cause,
    disk: &mut D,
    trace: &mut Trace,
)
    requires { HasLevel C.Meaning.meaning running.old (D.seen disk.old) p d }
    ensures { CallStepDone (λ c r. placed_outcome C.Meaning.meaning p c
        (level_dropped r.placed.world r.placed.objects
        (placed_config r.placed p).levels d cause) r) p
        (kernel_moment running.old trace.old.notes (D.seen disk.old))
        (kernel_moment running.new trace.new.notes (D.seen disk.new)) }
{
    let said = fall(running, p, d, cause);
    follow(running, p, said, disk, trace);
}

/// Level d of process p's call is dropped, counted from the outermost, with all that this ends:
/// with level 0 the default finishes the piece, and else the asking level gets the default answer.
/// The call takes its place in the order.
pub fn drop_level<C: Calls, B: Policy, D: Disk>(
    running: &mut Running<C, B>,
    p: u8,
    d: u8,
    cause: Cause,
    disk: &mut D,
    trace: &mut Trace,
)
    requires { HasLevel C.Meaning.meaning running.old (D.seen disk.old) p d }
    ensures { RefinesAndKeeps C.Meaning.meaning (placed_drop C.Meaning.meaning p d cause)
        (kernel_moment running.old trace.old.notes (D.seen disk.old))
        (kernel_moment running.new trace.new.notes (D.seen disk.new)) }
{
    drop_call(running, p, d, cause, disk, trace);
    requeue(running, p);
}
