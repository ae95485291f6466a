//! The order of waiting.

ghost use Rattle.std.specs.Prelude.{◌≡◌, ◌++◌, ◌∷◌, [], OnOk, None, map, option_map, cond};
ghost use Rattle.kernel_model.specs.Blocking as blocking;
ghost use Rattle.kernel_model.specs.Events as events;
ghost use Rattle.kernel_model.specs.Kernel as model;
ghost use Rattle.kernel_model.specs.Objects.{same_object};
ghost use Rattle.kernel_model.specs.Settle as settle;
ghost use Rattle.audit_kernel.specs.Runs.{waiter_of, blocker_of};

use crate::{Blocker, Waiter};
use audit_table::put_last;
use kernel_model::{NoMemory, Object};

/// Two objects are one.
#[tactic(auto, unfolding(kernel_data::specs::Objects::same_object))]
pub(crate) fn is_same(a: Object, b: Object) -> bool
    ensures { result ≡ same_object a b }
{
    a == b
}

/// Two calls, or none, are one.
fn is_same_call(a: Option<u32>, b: Option<u32>) -> bool
    ensures { result ≡ blocking.same_call a b }
{
    match (a, b) {
        (Some(a), Some(b)) => a == b,
        (None, None) => true,
        _ => false,
    }
}

/// Two blockers, or none, are one.
fn is_same_blocker(a: Option<Blocker>, b: Option<Blocker>) -> bool
    ensures { result
        ≡ blocking.same_blocker (option_map blocker_of a) (option_map blocker_of b) }
{
    match (a, b) {
        (Some(a), Some(b)) => {
            is_same(a.object, b.object) && a.holder == b.holder && is_same_call(a.call, b.call)
        }
        (None, None) => true,
        _ => false,
    }
}

/// An entry with its blocker: it stays as it is where the blocker is the kept one, and else counts
/// from 0.
pub(crate) fn with_blocker(entry: Waiter, blocker: Option<Blocker>) -> Waiter
    ensures { waiter_of result
        ≡ settle.entry_with (waiter_of entry) (option_map blocker_of blocker) }
{
    if is_same_blocker(entry.blocker, blocker) {
        return entry;
    }
    Waiter {
        process: entry.process,
        blocker,
        count: 0,
    }
}

/// The number of an object's kind.
pub(crate) fn kind_of(object: Object) -> u32
    ensures { result ≡ events.object_kind object }
{
    match object {
        Object::Graft(..) => 0,
        Object::Acct(_) => 1,
        Object::Cell(..) => 2,
        Object::OpenFile(..) => 3,
        Object::Queue => 4,
        Object::Cache => 5,
        Object::Lock(_) => 6,
        Object::Pol(_) => 7,
    }
}

/// A process joins at the end.
pub(crate) fn join(order: &mut Vec<Waiter>, p: u8) -> Result<(), NoMemory>
    ensures { OnOk result (map waiter_of order.new.items
        ≡ map waiter_of order.old.items ++ model.new_entry p ∷ []) }
{
    let entry = Waiter {
        process: p,
        blocker: None,
        count: 0,
    };
    put_last(order, entry)?;
    Ok(())
}

/// A process leaves.
fn leave(order: &mut Vec<Waiter>, p: u8)
    ensures { map waiter_of order.new.items
        ≡ model.less_entry p (map waiter_of order.old.items) }
{
    order.retain(|e| e.process != p);
}

/// A process leaves, and joins at the end where its next step is a piece.
pub(crate) fn requeue(order: &mut Vec<Waiter>, p: u8, joins: bool) -> Result<(), NoMemory>
    ensures { OnOk result (map waiter_of order.new.items
        ≡ model.less_entry p (map waiter_of order.old.items)
        ++ cond joins (model.new_entry p ∷ []) []) }
{
    leave(order, p);
    if joins {
        join(order, p)?;
        return Ok(());
    }
    Ok(())
}

/// A process stands in the order.
pub(crate) fn is_in(order: &[Waiter], p: u8) -> bool
    ensures { result ≡ events.in_order p (map waiter_of order.now) }
{
    match order {
        [] => false,
        [e, rest @ ..] => e.process == p || is_in(rest, p),
    }
}
