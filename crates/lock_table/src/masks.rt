//! Masks of levels.

ghost use Rattle.std.specs.Prelude.{◌≡◌, ℕ, ◌==◌, ◌&&◌, not, nat_lt, find, [], ◌∷◌};
ghost use Rattle.std.specs.Prelude.{◌||◌};
ghost use Rattle.lock_table.specs.Masks.{has_level};

use crate::holder::Depth;

/// Whether a mask has a level.
#[tactic(auto, unfolding(crate::specs::Masks::has_level))]
pub(crate) fn has(mask: u8, depth: Depth) -> bool
    ensures { result ≡ has_level mask depth.level }
{
    mask >> depth.level & 1 == 1
}

/// A mask with a level.
pub(crate) fn with(mask: u8, depth: Depth) -> u8
    ensures { (e : ℕ) → has_level result e ≡ (e == depth.level || has_level mask e) }
{
    mask | 1 << depth.level
}

/// A mask without a level.
pub(crate) fn without(mask: u8, depth: Depth) -> u8
    ensures { (e : ℕ) → has_level result e ≡ (not (e == depth.level) && has_level mask e) }
{
    mask & !(1 << depth.level)
}

/// A mask with those of its levels that lie outside a level.
pub(crate) fn outside(mask: u8, depth: Depth) -> u8
    ensures { (e : ℕ) → has_level result e ≡ (nat_lt e depth.level && has_level mask e) }
{
    mask & ((1 << depth.level) - 1)
}

/// The levels of two masks.
pub(crate) fn union(a: u8, b: u8) -> u8
    ensures { (e : ℕ) → has_level result e ≡ (has_level a e || has_level b e) }
{
    a | b
}

/// The outermost level of a mask.
pub(crate) fn outermost(mask: u8) -> Option<u8>
    ensures { result ≡ find (has_level mask) (0 ∷ 1 ∷ 2 ∷ 3 ∷ []) }
{
    if has(mask, Depth { level: 0 }) {
        Some(0)
    } else if has(mask, Depth { level: 1 }) {
        Some(1)
    } else if has(mask, Depth { level: 2 }) {
        Some(2)
    } else if has(mask, Depth { level: 3 }) {
        Some(3)
    } else {
        None
    }
}
