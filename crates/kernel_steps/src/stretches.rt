//! Stretches: quiet instructions of a call in a graft, one after another.

ghost use Rattle.std.specs.Prelude.{◌≡◌, ◌≤◌, true, false};
ghost use Rattle.kernel_model.specs.Events.{in_order};
ghost use Rattle.placed_laws.specs.Placed.{has_some};
ghost use Rattle.placed_laws.specs.Stretch.{IsStretched};
ghost use Rattle.running_kernel.specs.Sound.{IsSoundFor};
ghost use Rattle.kernel_steps.specs.Runs.{KeepsRunning};
ghost use Rattle.running_kernel.specs.Views.{placed_of};

use call_pieces::{Calls, Policy};
use running_kernel::Running;

/// A stretch of process p's call, which is in a graft and doesn't wait: at most n quiet
/// instructions, which each go on and call nothing, or only read an object that their level holds
/// already. How many there were. It may stop early, even at none.
pub fn stretch<C: Calls, B: Policy>(running: &mut Running<C, B>, p: u8, n: u32) -> u32
    requires at { IsSoundFor C.Meaning.meaning running.old p }
    requires level { has_some ((placed_of running.old).levels p) ≡ true }
    requires away { in_order p (placed_of running.old).order ≡ false }
    ensures most { result ≤ n }
    ensures is { IsStretched (placed_of running.old) (placed_of running.new) p result }
    ensures on { KeepsRunning C.Meaning.meaning running.old running.new }
{
    let flight = &mut running.calls[p as usize];
    graft_calls::stretch(
        &mut flight.chain,
        p,
        &mut running.store,
        &running.locks,
        &running.images,
        n,
    )
}
