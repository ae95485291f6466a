//! `CallHolds`.

ghost use Rattle.std.specs.Prelude.{◌≡◌, ℕ, ◌<◌, ◌&&◌, ◌==◌, cond, length, true, false, IfOk};
ghost use Rattle.kernel_model.specs.Locks.{held_as, stronger};
ghost use Rattle.kernel_model.specs.declared.Held.TheVariants.{Free};

use crate::holder::{Depth, Holder};
use crate::rows::{
    OBJECTS, conflicting_at, forget_unused, holding_at, merge_all, note, nothing_held, release_all,
    touch_at,
};
use crate::{Holds, Takers};
use arrayvec::ArrayVec;
use fixed_room::Room;
use kernel_model::Mode;
use std::alloc::{AllocError, Global};
use std::marker::Model;

/// What the levels of one process's call hold of the objects, by the objects' numbers.
///
/// Contracts see the masks. The numbers of the objects that are held stand in a list beside them,
/// so that all of these are found without a look at the others.
#[derive(Drop)]
pub(crate) struct CallHolds {
    masks: Room<Holds>,
    numbers: ArrayVec<u16, OBJECTS>,
}

impl Model for CallHolds {
    ghost use Rattle.std.specs.Prelude.{◌≡◌, List, length};
    ghost use Rattle.lock_table.specs.declared.Holds.{Holds};
    ghost use Rattle.lock_table.specs.Noted.{IsNoted};

    ghost Value = { List Holds };

    ghost view = { λ c. c.masks.items };

    ghost invariant = { λ c. (length c.masks.items ≡ 421) × IsNoted c.masks.items c.numbers.items
        × (c.masks.room ≡ 421) };
}

impl CallHolds {
    ghost use Rattle.lock_table.specs.Takers.{AreOthersSame, HasTaker};
    ghost use Rattle.lock_table.specs.Masks.{HoldsSome, conflicting_level, holds_at, levels_at, merged, released};

    /// Nothing is held.
    pub(crate) fn new(alloc: Global) -> Result<CallHolds, AllocError>
        ensures { IfOk result (λ c. (n e : ℕ) → levels_at c n e ≡ Free) }
    {
        let masks = nothing_held(alloc, OBJECTS)?;
        Ok(CallHolds {
            masks,
            numbers: ArrayVec::new(),
        })
    }

    /// Whether nothing is held.
    pub(crate) fn is_free(&self) -> bool
        ensures free { result ≡ true → (n e : ℕ) → levels_at self.now n e ≡ Free }
        ensures held { result ≡ false → HoldsSome self.now }
    {
        self.numbers.is_empty()
    }

    /// The levels that hold an object.
    pub(crate) fn holds(&self, number: u16) -> Holds
        requires { number < 421 }
        ensures { result ≡ holds_at self.now number }
    {
        holding_at(&self.masks, number)
    }

    /// The outermost level whose hold on an object conflicts with a mode.
    pub(crate) fn level_of(&self, number: u16, wanted: Mode) -> Option<u8>
        requires { number < 421 }
        ensures { result ≡ conflicting_level self.now number wanted }
    {
        conflicting_at(&self.masks, number, wanted)
    }

    /// A level holds an object in a mode; where it held, the stronger way stays.
    pub(crate) fn touch(&mut self, number: u16, depth: Depth, mode: Mode)
        requires { number < 421 }
        ensures { (n e : ℕ) →
            levels_at self.new n e ≡ cond (n == number && e == depth.level)
            (stronger (levels_at self.old n e) (held_as mode)) (levels_at self.old n e) }
    {
        note(&mut self.numbers, &self.masks, number);
        touch_at(&mut self.masks, number, depth, mode);
    }

    /// What a level above 0 holds goes to the level outside it.
    pub(crate) fn merge_level(&mut self, depth: Depth)
        requires { 0 < depth.level }
        ensures { (n e : ℕ) → levels_at self.new n e ≡ merged depth.level (levels_at self.old n) e }
    {
        merge_all(&mut self.masks, &self.numbers, depth);
    }

    /// A level of a process and those further inward let go, of what the masks of processes say
    /// too.
    pub(crate) fn release_from(&mut self, takers: &mut [Takers], by: Holder)
        requires size { length takers.old ≡ 421 }
        requires taker { HasTaker takers.old by.process self.old }
        ensures released { (n e : ℕ) →
            levels_at self.new n e ≡ released by.level (levels_at self.old n) e }
        ensures taker { HasTaker takers.new by.process self.new }
        ensures others { AreOthersSame by.process takers.old takers.new }
    {
        release_all(&mut self.masks, &self.numbers, takers, by);
        forget_unused(&mut self.numbers, &self.masks);
    }
}
