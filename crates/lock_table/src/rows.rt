//! The work on what the levels of one process hold: a list of masks in the order of the objects'
//! numbers, and a list of the numbers of the objects that some level holds.

ghost use Rattle.std.specs.Prelude.{◌≡◌, ℕ, ◌<◌, ◌++◌, ◌&&◌, ◌==◌, true, cond, length, filter, IfOk, [], ◌∷◌};
ghost use Rattle.kernel_model.specs.Locks.{held_as, stronger};
ghost use Rattle.lock_table.specs.Masks.{conflicting_level, holds_at, is_used, levels_at, merged, no_holds, released};
ghost use Rattle.lock_table.specs.Noted.{IsNoted};
ghost use Rattle.lock_table.specs.Takers.{AreOthersSame, HasTaker};

use crate::holder::{Depth, Holder};
use crate::levels::{NO_HOLDS, any_holds, conflicting, merged_out, released_from, touched};
use crate::taking::holding_so;
use crate::{Holds, Takers};
use arrayvec::ArrayVec;
use fixed_room::Room;
use kernel_model::Mode;
use std::alloc::{AllocError, Global};

/// The objects that have numbers.
pub(crate) const OBJECTS: usize = 421;

/// So many objects of which nothing is held.
pub(crate) fn nothing_held(alloc: Global, count: usize) -> Result<Room<Holds>, AllocError>
    ensures free { IfOk result (λ v. (n : ℕ) → holds_at v.items n ≡ no_holds) }
    ensures size { IfOk result (λ v. length v.items ≡ count) }
    ensures room { IfOk result (λ v. v.room ≡ count) }
{
    Room::filled(alloc, NO_HOLDS, count)
}

/// The levels that hold an object.
pub(crate) fn holding_at(masks: &[Holds], number: u16) -> Holds
    requires { number < length masks.now }
    ensures { result ≡ holds_at masks.now number }
{
    masks[number as usize]
}

/// The outermost level whose hold on an object conflicts with a mode.
pub(crate) fn conflicting_at(masks: &[Holds], number: u16, mode: Mode) -> Option<u8>
    requires { number < length masks.now }
    ensures { result ≡ conflicting_level masks.now number mode }
{
    conflicting(masks[number as usize], mode)
}

/// A level holds an object in a mode; where it held, the stronger way stays.
pub(crate) fn touch_at(masks: &mut [Holds], number: u16, depth: Depth, mode: Mode)
    requires { number < length masks.old }
    ensures touched { (n e : ℕ) →
        levels_at masks.new n e ≡ cond (n == number && e == depth.level)
        (stronger (levels_at masks.old n e) (held_as mode)) (levels_at masks.old n e) }
    ensures used { (n : ℕ) →
        is_used (holds_at masks.new n) ≡ cond (n == number) true (is_used (holds_at masks.old n)) }
{
    let holds = &mut masks[number as usize];
    *holds = touched(*holds, depth, mode);
}

/// Notes an object, unless some level holds it already.
pub(crate) fn note(numbers: &mut ArrayVec<u16, OBJECTS>, masks: &[Holds], number: u16)
    requires noted { IsNoted masks.now numbers.old.items }
    requires size { length masks.now ≡ 421 }
    requires number { number < 421 }
    ensures { numbers.new.items ≡ cond (is_used (holds_at masks.now number)) numbers.old.items
        (numbers.old.items ++ number ∷ []) }
{
    if !any_holds(masks[number as usize]) {
        numbers.push(number);
    }
}

/// What a level above 0 holds goes to the level outside it. All that is held is noted.
pub(crate) fn merge_all(masks: &mut [Holds], numbers: &[u16], depth: Depth)
    requires noted { IsNoted masks.old numbers.now }
    requires inner { 0 < depth.level }
    ensures merged { (n e : ℕ) →
        levels_at masks.new n e ≡ merged depth.level (levels_at masks.old n) e }
    ensures noted { IsNoted masks.new numbers.now }
{
    for number in numbers {
        let holds = &mut masks[*number as usize];
        *holds = merged_out(*holds, depth);
    }
}

/// A level of a process and those further inward let go, of what the masks of processes say too.
/// All that is held is noted.
pub(crate) fn release_all(masks: &mut [Holds], numbers: &[u16], takers: &mut [Takers], by: Holder)
    requires noted { IsNoted masks.old numbers.now }
    requires size { length takers.old ≡ length masks.old }
    requires taker { HasTaker takers.old by.process masks.old }
    ensures released { (n e : ℕ) →
        levels_at masks.new n e ≡ released by.level (levels_at masks.old n) e }
    ensures taker { HasTaker takers.new by.process masks.new }
    ensures others { AreOthersSame by.process takers.old takers.new }
{
    for number in numbers {
        let holds = &mut masks[*number as usize];
        let kept = released_from(*holds, Depth { level: by.level });
        *holds = kept;
        let taker = &mut takers[*number as usize];
        *taker = holding_so(*taker, by, kept);
    }
}

/// Whether some level holds an object.
fn is_used_at(masks: &[Holds], number: u16) -> bool
    ensures { result ≡ is_used (holds_at masks.now number) }
{
    match masks.get(number as usize) {
        Some(holds) => any_holds(*holds),
        None => false,
    }
}

/// Takes out the numbers of the objects that no level holds any more.
pub(crate) fn forget_unused(numbers: &mut ArrayVec<u16, OBJECTS>, masks: &[Holds])
    ensures { numbers.new.items ≡ filter (λ n. is_used (holds_at masks.now n)) numbers.old.items }
{
    numbers.retain(|number| is_used_at(masks, *number));
}
