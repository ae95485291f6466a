//! An instruction that leaves what its call holds.

ghost use Rattle.std.specs.Prelude.{◌≡◌, ◌<◌, ◌≤◌, true, None, is_some, length, slice_get, All};
ghost use Rattle.kernel_model.specs.declared.Need.{Need as Needed};
ghost use Rattle.kernel_model.specs.Laws.{IsInRange};
ghost use Rattle.graft_levels.specs.Masks.{held};
ghost use Rattle.placed_laws.specs.Placed.{has_some, placed_blocker};
ghost use Rattle.placed_laws.specs.PlacedSteps.{placed_step};
ghost use Rattle.placed_laws.specs.Resting.{KeepsHolds};
ghost use Rattle.kernel_steps.specs.Grips.{IsHold, IsGrip};
ghost use Rattle.kernel_steps.specs.Moments.{kernel_moment};
ghost use Rattle.running_kernel.specs.Sound.{AreNeeds};
ghost use Rattle.kernel_steps.specs.Runs.{CanRun, RefinesAndKeeps};
ghost use Rattle.running_kernel.specs.Views.{placed_of, call_at};

use crate::steps::step;
use crate::trace::Trace;
use call_pieces::{Calls, Disk, Policy};
use graft_levels::{Holds, LockTable};
use kernel_model::Need;
use running_kernel::Running;

/// How the levels of a call hold up to three objects.
#[derive(Clone, Copy, PartialEq, Eq)]
struct HoldSnapshot {
    first: Option<Holds>,
    second: Option<Holds>,
    third: Option<Holds>,
}

/// How the levels of process p's call hold the object of need i, if there is this need.
fn hold_at(locks: &LockTable, p: u8, needs: &[Need], i: usize) -> Option<Holds>
    requires { All (λ (n : Needed). IsInRange n.object) needs.now }
    ensures { IsHold (held locks.now p) (slice_get needs.now i) result }
{
    match needs.get(i) {
        Some(need) => Some(locks.holds(p, need.object)),
        None => None,
    }
}

/// How the levels of process p's call hold the objects of the first three needs.
fn grip_of(locks: &LockTable, p: u8, needs: &[Need]) -> HoldSnapshot
    requires { All (λ (n : Needed). IsInRange n.object) needs.now }
    ensures { IsGrip (held locks.now p) needs.now result }
{
    HoldSnapshot {
        first: hold_at(locks, p, needs, 0),
        second: hold_at(locks, p, needs, 1),
        third: hold_at(locks, p, needs, 2),
    }
}

/// Whether two grips are one.
fn is_same_grip(a: HoldSnapshot, b: HoldSnapshot) -> bool
    ensures { result ≡ true → a ≡ b }
{
    a == b
}

/// One step of process p's call, which is in a graft, needs this, and which nothing blocks. Whether
/// it left the call's levels, and how these hold what it needed.
pub fn step_in_graft<C: Calls, B: Policy, D: Disk>(
    running: &mut Running<C, B>,
    p: u8,
    needs: &[Need],
    disk: &mut D,
    trace: &mut Trace,
) -> bool
    requires at { CanRun C.Meaning.meaning running.old (D.seen disk.old) p }
    requires call { is_some (call_at running.old p) ≡ true }
    requires level { has_some ((placed_of running.old).levels p) ≡ true }
    requires free { placed_blocker C.Meaning.meaning (placed_of running.old) p ≡ None }
    requires needs { AreNeeds C.Meaning.meaning running.old p needs.now }
    requires few { length needs.now ≤ 3 }
    ensures kept { result ≡ true → KeepsHolds C.Meaning.meaning (placed_of running.old)
        (placed_of running.new) p }
    ensures went { RefinesAndKeeps C.Meaning.meaning (placed_step C.Meaning.meaning p)
        (kernel_moment running.old trace.old.notes (D.seen disk.old))
        (kernel_moment running.new trace.new.notes (D.seen disk.new)) }
{
    let count = running.level_count(p);
    let before = grip_of(&running.locks, p, needs);
    step(running, p, disk, trace);
    let after = grip_of(&running.locks, p, needs);
    running.level_count(p) == count && is_same_grip(before, after)
}
