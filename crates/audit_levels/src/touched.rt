//! How a level holds objects.

ghost use Rattle.std.specs.Prelude.{◌≡◌, OnOk};
ghost use Rattle.kernel_model.specs.Objects.{same_object};
ghost use Rattle.kernel_model.specs.Locks as model;
ghost use Rattle.audit_levels.specs.Levels.{touched_of, touches_before, held_at};

use crate::Touch;
use kernel_model::{Held, Mode, Need, NoMemory, Object};

/// Two objects are one.
#[tactic(auto, unfolding(kernel_data::specs::Objects::same_object))]
fn is_same(a: Object, b: Object) -> bool
    ensures { result ≡ same_object a b }
{
    match (a, b) {
        (Object::Graft(q, pt), Object::Graft(r, pu)) => q == r && pt == pu,
        (Object::Acct(q), Object::Acct(r)) => q == r,
        (Object::Cell(q, k), Object::Cell(r, l)) => q == r && k == l,
        (Object::OpenFile(q, k), Object::OpenFile(r, l)) => q == r && k == l,
        (Object::Queue, Object::Queue) | (Object::Cache, Object::Cache) => true,
        (Object::Lock(u), Object::Lock(v)) => u == v,
        (Object::Pol(k), Object::Pol(l)) => k == l,
        _ => false,
    }
}

/// How many rows stand before the first of an object.
fn before(rows: &[Touch], object: Object) -> usize
    ensures { result ≡ touches_before object rows.now }
{
    let mut n = 0;
    for row in rows {
        if is_same(object, row.object) {
            return n;
        }
        n += 1;
    }
    n
}

/// How an object is held.
pub fn hold_of(rows: &[Touch], object: Object) -> Held
    ensures { result ≡ touched_of rows.now object }
{
    let n = before(rows, object);
    if n < rows.len() {
        rows[n].held
    } else {
        Held::Free
    }
}

/// Whether an object is held.
pub fn is_held(rows: &[Touch], object: Object) -> bool
    ensures { result ≡ model.is_held (touched_of rows.now object) }
{
    match hold_of(rows, object) {
        Held::Free => false,
        Held::Shared | Held::Exclusive => true,
    }
}

/// The stronger of two ways to hold an object.
fn stronger(a: Held, b: Held) -> Held
    ensures { result ≡ model.stronger a b }
{
    match (a, b) {
        (Held::Free, b) => b,
        (Held::Shared, Held::Exclusive) => Held::Exclusive,
        (Held::Shared, _) => Held::Shared,
        (Held::Exclusive, _) => Held::Exclusive,
    }
}

/// How an object is held that was touched in a mode.
fn held_as(mode: Mode) -> Held
    ensures { result ≡ model.held_as mode }
{
    match mode {
        Mode::Shared => Held::Shared,
        Mode::Exclusive => Held::Exclusive,
    }
}

/// An object is held so from here on.
fn hold(rows: &mut Vec<Touch>, object: Object, held: Held) -> Result<(), NoMemory>
    ensures { OnOk result (touched_of rows.new.items
        ≡ held_at object held (touched_of rows.old.items)) }
{
    let n = before(rows, object);
    let row = Touch { object, held };
    if n < rows.len() {
        rows[n] = row;
        Ok(())
    } else {
        match rows.push(row) {
            Ok(()) => Ok(()),
            Err(_) => Err(NoMemory),
        }
    }
}

/// An object is touched in a mode.
pub(crate) fn touch(rows: &mut Vec<Touch>, object: Object, mode: Mode) -> Result<(), NoMemory>
    ensures { OnOk result (touched_of rows.new.items
        ≡ model.touch object mode (touched_of rows.old.items)) }
{
    let held = stronger(hold_of(rows, object), held_as(mode));
    hold(rows, object, held)?;
    Ok(())
}

/// Objects are touched, each in the mode in which it is needed.
pub fn touch_all(rows: &mut Vec<Touch>, needs: &[Need]) -> Result<(), NoMemory>
    ensures { OnOk result (touched_of rows.new.items
        ≡ model.touch_all needs.now (touched_of rows.old.items)) }
{
    for need in needs {
        touch(rows, need.object, need.mode)?;
    }
    Ok(())
}

/// An object of one level is held by another in the stronger way.
fn join_object(rows: &mut Vec<Touch>, from: &[Touch], object: Object) -> Result<(), NoMemory>
    ensures { OnOk result (touched_of rows.new.items ≡ held_at object
        (model.stronger (touched_of from.now object) (touched_of rows.old.items object))
        (touched_of rows.old.items)) }
{
    let held = stronger(hold_of(from, object), hold_of(rows, object));
    hold(rows, object, held)?;
    Ok(())
}

/// What one level holds goes to another, each object in the stronger way.
pub(crate) fn join(rows: &mut Vec<Touch>, from: &[Touch]) -> Result<(), NoMemory>
    ensures { OnOk result (touched_of rows.new.items
        ≡ model.joined (touched_of from.now) (touched_of rows.old.items)) }
{
    for row in from {
        join_object(rows, from, row.object)?;
    }
    Ok(())
}
