//! Where a call stands at the end of an event.

ghost use Rattle.std.specs.Prelude.{◌<◌};
ghost use Rattle.call_pieces.specs.Disks.{DiskSeen};
ghost use Rattle.placed_laws.specs.PlacedEvents.{placed_last, placed_waits_note};
ghost use Rattle.placed_laws.specs.Placed.{placed_blocker};
ghost use Rattle.kernel_steps.specs.Moments.{kernel_moment};
ghost use Rattle.running_kernel.specs.Sound.{IsSoundFor};
ghost use Rattle.kernel_steps.specs.Refines.{Refines};
ghost use Rattle.running_kernel.specs.Views.{placed_of};

use call_pieces::{Calls, Policy};
use kernel_model::BareNote;
use kernel_steps::Notes;
use running_kernel::Running;

/// Says for what process p's call of this number waits, if something blocks it. It stands apart,
/// since most calls have ended.
#[inline(never)]
fn say_wait<C: Calls, B: Policy>(running: &Running<C, B>, p: u8, number: u32, notes: &mut Notes)
    requires { IsSoundFor C.Meaning.meaning running.now p }
    ensures said { (d : DiskSeen) → let x = placed_of running.now in
        Refines (placed_waits_note number (placed_blocker C.Meaning.meaning x p))
        (kernel_moment x notes.old d) (kernel_moment x notes.new d) }
{
    if let Some(found) = running.blocker(p) {
        notes.push(BareNote::Waits {
            number,
            object: found.object,
            holder: found.holder,
        });
    }
}

/// Says where process p's call stands, if it is still in flight: it waits, or it is in a graft. It is
/// always inlined, since mostly nothing is said.
#[inline(always)]
pub(crate) fn say_last<C: Calls, B: Policy>(running: &Running<C, B>, p: u8, notes: &mut Notes)
    requires { IsSoundFor C.Meaning.meaning running.now p }
    ensures said { (d : DiskSeen) → let x = placed_of running.now in
        Refines (placed_last C.Meaning.meaning p) (kernel_moment x notes.old d) (kernel_moment x notes.new d) }
{
    let Some(number) = running.call_number(p) else {
        return;
    };
    if running.waits(p) {
        return say_wait(running, p, number, notes);
    }
    if let Some(note) = running.graft_note(p, number) {
        notes.push(note);
    }
}
