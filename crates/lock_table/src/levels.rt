//! What the levels of one process hold of one object.

ghost use Rattle.std.specs.Prelude.{◌≡◌, ℕ, ◌-◌, ◌==◌, ◌&&◌, not, find, [], ◌∷◌};
ghost use Rattle.std.specs.Prelude.{◌||◌};
ghost use Rattle.kernel_model.specs.Locks.{conflicts, held_as, is_held, stronger};
ghost use Rattle.kernel_model.specs.Objects.{at};
ghost use Rattle.lock_table.specs.Masks.{has_level, held_by, is_used, merged, released};

use crate::Holds;
use crate::holder::Depth;
use crate::masks::{has, outermost, outside, union, with, without};
use kernel_model::Mode;

/// No level holds.
pub(crate) const NO_HOLDS: Holds = Holds {
    shared: 0,
    exclusive: 0,
};

/// Whether some level holds.
pub(crate) fn any_holds(holds: Holds) -> bool
    ensures { result ≡ is_used holds }
{
    outermost(union(holds.shared, holds.exclusive)).is_some()
}

/// Whether a level holds.
pub(crate) fn is_holding(holds: Holds, depth: Depth) -> bool
    ensures { result ≡ is_held (held_by holds depth.level) }
{
    has(holds.exclusive, depth) || has(holds.shared, depth)
}

/// The outermost level whose hold conflicts with a mode.
pub(crate) fn conflicting(holds: Holds, mode: Mode) -> Option<u8>
    ensures { result ≡ find (λ d. conflicts (held_by holds d) mode) (0 ∷ 1 ∷ 2 ∷ 3 ∷ []) }
{
    match mode {
        Mode::Shared => outermost(holds.exclusive),
        Mode::Exclusive => outermost(union(holds.shared, holds.exclusive)),
    }
}

/// A level holds in a mode; where it held, the stronger way stays.
pub(crate) fn touched(holds: Holds, depth: Depth, mode: Mode) -> Holds
    ensures { (e : ℕ) → held_by result e
        ≡ at depth.level (stronger (held_by holds depth.level) (held_as mode)) (held_by holds) e }
{
    match mode {
        Mode::Shared => Holds {
            shared: with(holds.shared, depth),
            ..holds
        },
        Mode::Exclusive => Holds {
            exclusive: with(holds.exclusive, depth),
            ..holds
        },
    }
}

/// A mask in which a level has gone to the level outside it, and level 0 is let go.
fn moved_out(mask: u8, depth: Depth) -> u8
    ensures { (e : ℕ) → has_level result e
        ≡ (not (e == depth.level)
        && (has_level mask e || (e == depth.level - 1 && has_level mask depth.level))) }
{
    let rest = without(mask, depth);
    if depth.level > 0 && has(mask, depth) {
        let outer = Depth {
            level: depth.level - 1,
        };
        with(rest, outer)
    } else {
        rest
    }
}

/// What a level holds goes to the level outside it; where both hold, the stronger way stays. What
/// level 0 holds is let go.
pub(crate) fn merged_out(holds: Holds, depth: Depth) -> Holds
    ensures { (e : ℕ) → held_by result e ≡ merged depth.level (held_by holds) e }
{
    Holds {
        shared: moved_out(holds.shared, depth),
        exclusive: moved_out(holds.exclusive, depth),
    }
}

/// A level and those further inward let go.
pub(crate) fn released_from(holds: Holds, depth: Depth) -> Holds
    ensures { (e : ℕ) → held_by result e ≡ released depth.level (held_by holds) e }
{
    Holds {
        shared: outside(holds.shared, depth),
        exclusive: outside(holds.exclusive, depth),
    }
}
