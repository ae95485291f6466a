//! `LockTable`.

ghost use Rattle.std.specs.Prelude.{◌≡◌, ℕ, ◌<◌, ◌↔◌, true, None, length, IfOk};
ghost use Rattle.kernel_model.specs.World.{processes};
ghost use Rattle.kernel_model.specs.Laws.{IsInRange};
ghost use Rattle.kernel_model.specs.Locks.{is_held, no_locks, lowest_holder, outermost_holding};
ghost use Rattle.kernel_model.specs.Locks.{with_touch, merge_level as level_merged};
ghost use Rattle.kernel_model.specs.Locks.{release_from as released_inward};
ghost use Rattle.kernel_model.specs.declared.Held.TheVariants.{Free};
ghost use Rattle.kernel_model.specs.declared.Mode.{Mode as Wanted};
ghost use Rattle.kernel_model.specs.declared.Object.{Object as Thing};
ghost use Rattle.lock_table.specs.Masks.{held_by, levels_at, masks_of};

use crate::call::CallHolds;
use crate::holder::{Depth, Holder};
use crate::levels::{NO_HOLDS, is_holding};
use crate::numbers::object_number;
use crate::process_masks::{is_empty, marked, others, with};
use crate::rows::OBJECTS;
use crate::taking::{lowest_other, nobody, take_at};
use crate::{Holds, Takers};
use fixed_room::Room;
use kernel_model::{Mode, NoMemory, Object, PROCESSES};
use std::alloc::{AllocError, Global};
use std::marker::Model;

/// What each level of each process's call holds of each object.
///
/// Contracts see the masks, through `held`: a function from process, level and object to free,
/// shared or exclusive.
#[derive(Drop)]
pub struct LockTable {
    calls: Room<CallHolds>,
    /// What the masks of the calls say, object by object.
    takers: Room<Takers>,
    /// The processes whose calls hold something, as a mask.
    holding: u16,
}

impl Model for LockTable {
    ghost use Rattle.std.specs.Prelude.{◌≡◌, List, length};
    ghost use Rattle.lock_table.specs.declared.Holds.{Holds};
    ghost use Rattle.lock_table.specs.Takers.{AreHolding, AreTakers};

    ghost Value = { List (List Holds) };

    ghost view = { λ t. t.calls.items };

    ghost invariant = { λ t. (length t.calls.items ≡ 16) × AreHolding t.holding t.calls.items
        × (length t.takers.items ≡ 421) × AreTakers t.takers.items t.calls.items
        × (t.calls.room ≡ 16) × (t.takers.room ≡ 421) };
}

/// So many calls that hold nothing.
fn no_calls(alloc: Global, count: usize) -> Result<Room<CallHolds>, AllocError>
    ensures size { IfOk result (λ v. length v.items ≡ count) }
    ensures room { IfOk result (λ v. v.room ≡ count) }
    ensures free { IfOk result (λ v. (p n e : ℕ) → levels_at (masks_of v.items p) n e ≡ Free) }
{
    let mut calls = Room::with_capacity(alloc, count)?;
    while calls.len() < count {
        let call = CallHolds::new(alloc)?;
        calls.push(call);
    }
    Ok(calls)
}

impl LockTable {
    ghost use Rattle.lock_table.specs.Masks.{held};

    /// Nothing is held. Takes all the memory that the table ever does.
    pub fn new(alloc: Global) -> Result<LockTable, NoMemory>
        ensures { IfOk result (λ t. held t ≡ no_locks) }
    {
        let Ok(calls) = no_calls(alloc, PROCESSES) else {
            return Err(NoMemory);
        };
        match nobody(alloc, OBJECTS) {
            Ok(takers) => Ok(LockTable {
                calls,
                takers,
                holding: 0,
            }),
            Err(_) => Err(NoMemory),
        }
    }

    /// Whether nothing is held. Looks at one mask of processes.
    pub fn is_free(&self) -> bool
        ensures { (result ≡ true) ↔ (held self.now ≡ no_locks) }
    {
        is_empty(self.holding)
    }

    /// Whether no process but p holds anything. Looks at one mask of processes.
    pub fn is_free_but(&self, p: u8) -> bool
        ensures { result ≡ true → (o : Thing) (mode : Wanted) →
            lowest_holder (held self.now) p o mode ≡ None }
    {
        is_empty(others(self.holding, p))
    }

    /// The lowest other process whose hold on an object conflicts with a mode. Looks at one mask of
    /// processes.
    pub fn ask(&self, p: u8, o: Object, mode: Mode) -> Option<u8>
        requires range { IsInRange o }
        ensures { result ≡ lowest_holder (held self.now) p o mode }
    {
        lowest_other(&self.takers, object_number(&o), p, mode)
    }

    /// The outermost level of process p whose hold on an object conflicts with a mode.
    pub fn level_of(&self, p: u8, o: Object, wanted: Mode) -> Option<u8>
        requires range { IsInRange o }
        ensures { result ≡ outermost_holding o wanted (held self.now p) }
    {
        match self.calls.get(p as usize) {
            Some(call) => call.level_of(object_number(&o), wanted),
            None => None,
        }
    }

    /// The levels of process p that hold an object, and how. Looks at one pair of masks.
    pub fn holds(&self, p: u8, o: Object) -> Holds
        requires range { IsInRange o }
        ensures { (d : ℕ) → held_by result d ≡ held self.now p d o }
    {
        match self.calls.get(p as usize) {
            Some(call) => call.holds(object_number(&o)),
            None => NO_HOLDS,
        }
    }

    /// Whether a level holds an object, in either mode.
    pub fn is_held(&self, by: Holder, o: Object) -> bool
        requires range { IsInRange o }
        ensures { result ≡ is_held (held self.now by.process by.level o) }
    {
        is_holding(self.holds(by.process, o), Depth { level: by.level })
    }

    /// A level holds an object in a mode. Where it holds the object already, the stronger way
    /// stays.
    pub fn touch(&mut self, by: Holder, o: Object, mode: Mode)
        requires range { IsInRange o }
        ensures { held self.new ≡ with_touch by.process by.level o mode (held self.old) }
    {
        let number = object_number(&o);
        let call = &mut self.calls[by.process as usize];
        call.touch(number, Depth { level: by.level }, mode);
        take_at(&mut self.takers, number, by, mode);
        self.holding = with(self.holding, by);
    }

    /// What a level above level 0 holds goes to the level outside it. Where both hold an object,
    /// the stronger way stays.
    pub fn merge_level(&mut self, by: Holder)
        requires { 0 < by.level }
        ensures { held self.new ≡ level_merged by.process by.level (held self.old) }
    {
        let call = &mut self.calls[by.process as usize];
        call.merge_level(Depth { level: by.level });
    }

    /// A level and those further inward hold nothing.
    pub fn release_from(&mut self, by: Holder)
        ensures { held self.new ≡ released_inward by.process by.level (held self.old) }
    {
        let call = &mut self.calls[by.process as usize];
        call.release_from(&mut self.takers, by);
        let holds_some = !call.is_free();
        self.holding = marked(self.holding, by, holds_some);
    }
}
