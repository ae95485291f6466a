//! Stretches: instructions of a call that leave no step to take, one after another.

ghost use Rattle.std.specs.Prelude.{◌<◌, ◌≤◌};
ghost use Rattle.running_kernel.specs.Sound.{IsSoundFor};
ghost use Rattle.kernel_steps.specs.Runs.{KeepsRunning};
ghost use Rattle.kernel_core.specs.EventParts.{Leads};
ghost use Rattle.running_kernel.specs.Views.{placed_of};

use call_pieces::{Calls, Policy};
use running_kernel::Running;

/// A stretch of process p's call, where it is in a graft and doesn't wait: at most n quiet
/// instructions, which each go on and call nothing, or only read an object that their level holds
/// already. How many there were. They leave no step to take.
pub(crate) fn stretch<C: Calls, B: Policy>(running: &mut Running<C, B>, p: u8, n: u32) -> u32
    requires { IsSoundFor C.Meaning.meaning running.old p }
    ensures most { result ≤ n }
    ensures leads { Leads C.Meaning.meaning p result (placed_of running.old)
        (placed_of running.new) }
    ensures on { KeepsRunning C.Meaning.meaning running.old running.new }
{
    if !running.in_graft(p) {
        return 0;
    }
    if running.waits(p) {
        return 0;
    }
    kernel_steps::stretch(running, p, n)
}
