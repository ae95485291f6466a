//! Numbers that have room.

ghost use Rattle.std.specs.Prelude.{◌≡◌, ◌+◌, IfOk};

use kernel_model::NoMemory;

/// One more, if it has room.
pub(crate) fn one_more(n: u32) -> Result<u32, NoMemory>
    ensures { IfOk result (λ m. m ≡ n + 1) }
{
    match n.checked_add(1) {
        Some(m) => Ok(m),
        None => Err(NoMemory),
    }
}
