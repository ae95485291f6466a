//! Answers that levels get, and what level 0 touches.

ghost use Rattle.std.specs.Prelude.{◌≡◌, ◌∷◌, [], ◌++◌, ℕ, List, OnOk, IfSome, IsNone};
ghost use Rattle.kernel_model.specs.declared.Mode.TheVariants.{Exclusive};
ghost use Rattle.kernel_model.specs.Levels as model;
ghost use Rattle.kernel_model.specs.Locks as locks;
ghost use Rattle.kernel_model.specs.Policies.{default_of};
ghost use Rattle.audit_state.specs.Things.{things_of};
ghost use Rattle.audit_state.specs.Worlds.{world_of};
ghost use Rattle.audit_levels.specs.Levels.{level_of, levels_of};

use crate::machines::answer;
use crate::touched::touch;
use crate::{Level, Place};
use audit_state::Things;
use audit_table::{put_first, put_last, take_first};
use kernel_model::{Mode, NoMemory, Object};

/// The innermost level gets the answer of a point.
pub fn answer_innermost(levels: &mut Vec<Level>, pt: u8, r0: u32, r1: u32) -> Result<(), NoMemory>
    ensures { OnOk result ((bytes : ℕ → List ℕ) → levels_of bytes levels.new.items
        ≡ model.answer_innermost pt r0 r1 (levels_of bytes levels.old.items)) }
{
    match take_first(levels) {
        None => Ok(()),
        Some(l) => {
            put_answered(levels, l, pt, r0, r1)?;
            Ok(())
        }
    }
}

/// A level before the others, with the answer of a point.
fn put_answered(
    levels: &mut Vec<Level>,
    mut l: Level,
    pt: u8,
    r0: u32,
    r1: u32,
) -> Result<(), NoMemory>
    ensures { OnOk result ((bytes : ℕ → List ℕ) → levels_of bytes levels.new.items
        ≡ model.answer_innermost pt r0 r1 (level_of bytes l ∷ levels_of bytes levels.old.items)) }
{
    answer(&mut l.machine, pt, r0, r1);
    put_first(levels, l)?;
    Ok(())
}

/// Level 0 touches one more object.
pub fn touch_outermost(levels: &mut Vec<Level>, object: Object) -> Result<(), NoMemory>
    ensures { OnOk result ((bytes : ℕ → List ℕ) → levels_of bytes levels.new.items
        ≡ model.touch_outermost object (levels_of bytes levels.old.items)) }
{
    match take_last(levels) {
        None => Ok(()),
        Some(l) => {
            put_touched(levels, l, object)?;
            Ok(())
        }
    }
}

/// The outermost level, which is taken out, if there is one.
fn take_last(levels: &mut Vec<Level>) -> Option<Level>
    ensures some { IfSome result (λ l. levels.old.items ≡ levels.new.items ++ l ∷ []) }
    ensures none { IsNone result → levels.old.items ≡ [] }
    ensures same { IsNone result → levels.new.items ≡ levels.old.items }
{
    if levels.is_empty() {
        return None;
    }
    levels.pop()
}

/// A level behind the others, which touches one more object.
fn put_touched(levels: &mut Vec<Level>, mut l: Level, object: Object) -> Result<(), NoMemory>
    ensures { OnOk result ((bytes : ℕ → List ℕ) → levels_of bytes levels.new.items
        ≡ levels_of bytes levels.old.items ++ record (level_of bytes l) {
          touched = locks.touch object Exclusive (level_of bytes l).touched;
        } ∷ []) }
{
    touch(&mut l.touched, object, Mode::Exclusive)?;
    put_last(levels, l)?;
    Ok(())
}

/// The innermost of some levels gets the default answer of a point that it asked.
pub fn answer_by_default(
    place: &Place<'_>,
    things: &Things,
    levels: &mut Vec<Level>,
    q: u8,
    pt: u8,
) -> Result<(), NoMemory>
    ensures { OnOk result ((bytes : ℕ → List ℕ) →
        let d = default_of (world_of place.now.world.now) (things_of bytes things.now) q pt in
        levels_of bytes levels.new.items
        ≡ model.answer_innermost pt d.0 d.1 (levels_of bytes levels.old.items)) }
{
    let default = things.default_of(place.alloc, place.world, q, pt)?;
    answer_innermost(levels, pt, default.0, default.1)?;
    Ok(())
}
