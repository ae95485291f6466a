//! Masks of processes.

ghost use Rattle.std.specs.Prelude.{◌≡◌, ℕ, ◌||◌, ◌&&◌, ◌==◌, not, cond, true, false, find};
ghost use Rattle.kernel_model.specs.World.{processes};
ghost use Rattle.lock_table.specs.Takers.{has_process, HasSome};

use crate::holder::Holder;

/// Whether a mask has no process.
pub(crate) fn is_empty(mask: u16) -> bool
    ensures none { result ≡ true → (q : ℕ) → has_process mask q ≡ false }
    ensures some { result ≡ false → HasSome mask }
{
    mask == 0
}

/// A mask with a process.
pub(crate) fn with(mask: u16, by: Holder) -> u16
    ensures { (q : ℕ) → has_process result q ≡ (q == by.process || has_process mask q) }
{
    mask | 1 << by.process
}

/// A mask without a process.
fn without(mask: u16, by: Holder) -> u16
    ensures { (q : ℕ) → has_process result q ≡ (not (q == by.process) && has_process mask q) }
{
    mask & !(1 << by.process)
}

/// A mask that has a process exactly if this is so.
pub(crate) fn marked(mask: u16, by: Holder, is: bool) -> u16
    ensures { (q : ℕ) → has_process result q ≡ cond (q == by.process) is (has_process mask q) }
{
    if is {
        with(mask, by)
    } else {
        without(mask, by)
    }
}

/// A mask without a process, which may be one that no mask has.
pub(crate) fn others(mask: u16, p: u8) -> u16
    ensures { (q : ℕ) → has_process result q ≡ (not (q == p) && has_process mask q) }
{
    if p < 16 { mask & !(1 << p) } else { mask }
}

/// The lowest process of a mask.
pub(crate) fn lowest(mask: u16) -> Option<u8>
    ensures { result ≡ find (has_process mask) processes }
{
    if mask == 0 {
        return None;
    }
    Some(mask.trailing_zeros() as u8)
}
