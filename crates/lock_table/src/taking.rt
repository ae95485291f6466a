//! The processes that hold each object: masks in the order of the objects' numbers.

ghost use Rattle.std.specs.Prelude.{◌≡◌, ℕ, ◌<◌, ◌||◌, ◌&&◌, ◌==◌, not, cond, length, find, is_some, IfOk, [], ◌∷◌};
ghost use Rattle.kernel_model.specs.World.{processes};
ghost use Rattle.kernel_model.specs.Locks.{conflicts, held_as};
ghost use Rattle.kernel_model.specs.declared.Mode.{Mode as Wanted};
ghost use Rattle.lock_table.specs.Masks.{held_by};
ghost use Rattle.lock_table.specs.Takers.{against, is_against, no_takers, takers_at};

use crate::holder::Holder;
use crate::levels::conflicting;
use crate::process_masks::{lowest, marked, others, with};
use crate::{Holds, Takers};
use fixed_room::Room;
use kernel_model::Mode;
use std::alloc::{AllocError, Global};

/// No process holds.
const NO_TAKERS: Takers = Takers {
    holding: 0,
    exclusive: 0,
};

/// So many objects that no process holds.
pub(crate) fn nobody(alloc: Global, count: usize) -> Result<Room<Takers>, AllocError>
    ensures free { IfOk result (λ v. (n : ℕ) → takers_at v.items n ≡ no_takers) }
    ensures size { IfOk result (λ v. length v.items ≡ count) }
    ensures room { IfOk result (λ v. v.room ≡ count) }
{
    Room::filled(alloc, NO_TAKERS, count)
}

/// The processes of which some level's hold conflicts with a mode.
fn hindering(takers: Takers, mode: Mode) -> u16
    ensures { result ≡ against takers mode }
{
    match mode {
        Mode::Shared => takers.exclusive,
        Mode::Exclusive => takers.holding,
    }
}

/// The lowest process but p of which some level's hold conflicts with a mode.
pub(crate) fn lowest_other(takers: &[Takers], number: u16, p: u8, mode: Mode) -> Option<u8>
    requires { number < length takers.now }
    ensures { result
        ≡ find (λ q. not (q == p) && is_against (takers_at takers.now number) mode q) processes }
{
    lowest(others(hindering(takers[number as usize], mode), p))
}

/// Some level of a process's call holds in a mode, besides what it held.
fn taken(takers: Takers, by: Holder, mode: Mode) -> Takers
    ensures { (wanted : Wanted) (q : ℕ) → is_against result wanted q
        ≡ (is_against takers wanted q || (q == by.process && conflicts (held_as mode) wanted)) }
{
    match mode {
        Mode::Shared => Takers {
            holding: with(takers.holding, by),
            ..takers
        },
        Mode::Exclusive => Takers {
            holding: with(takers.holding, by),
            exclusive: with(takers.exclusive, by),
        },
    }
}

/// The levels of a process's call hold so, whatever they held.
pub(crate) fn holding_so(takers: Takers, by: Holder, holds: Holds) -> Takers
    ensures { (wanted : Wanted) (q : ℕ) → is_against result wanted q ≡ cond (q == by.process)
        (is_some (find (λ d. conflicts (held_by holds d) wanted) (0 ∷ 1 ∷ 2 ∷ 3 ∷ [])))
        (is_against takers wanted q) }
{
    Takers {
        holding: marked(
            takers.holding,
            by,
            conflicting(holds, Mode::Exclusive).is_some(),
        ),
        exclusive: marked(
            takers.exclusive,
            by,
            conflicting(holds, Mode::Shared).is_some(),
        ),
    }
}

/// Some level of a process's call holds an object in a mode, besides what it held.
pub(crate) fn take_at(takers: &mut [Takers], number: u16, by: Holder, mode: Mode)
    requires { number < length takers.old }
    ensures { (wanted : Wanted) (n q : ℕ) →
        is_against (takers_at takers.new n) wanted q
        ≡ (is_against (takers_at takers.old n) wanted q
        || (n == number && q == by.process && conflicts (held_as mode) wanted)) }
{
    let taker = &mut takers[number as usize];
    *taker = taken(*taker, by, mode);
}
