//! Lists of needed objects.

ghost use Rattle.std.specs.Prelude.{◌≡◌, ◌∷◌, [], ◌++◌, ℕ, List, OnOk, map};
ghost use Rattle.std.specs.List.{range_with_len};
ghost use Rattle.kernel_model.specs.declared.Object.TheVariants.{Graft, OpenFile, Cell, Lock};
ghost use Rattle.kernel_model.specs.Needs as model;
ghost use Rattle.audit_state.specs.Accounts.{accounts_of};

use audit_state::Accounts;
use audit_state::access::needed;
use kernel_model::{Mode, Need, NoMemory, Object};

/// One more need.
pub(crate) fn add(out: &mut Vec<Need>, need: Need) -> Result<(), NoMemory>
    ensures { OnOk result (out.new.items ≡ out.old.items ++ need ∷ []) }
{
    match out.push(need) {
        Ok(()) => Ok(()),
        Err(_) => Err(NoMemory),
    }
}

/// One more object, which is needed shared.
pub(crate) fn shared(out: &mut Vec<Need>, object: Object) -> Result<(), NoMemory>
    ensures { OnOk result (out.new.items ≡ out.old.items ++ model.shared object ∷ []) }
{
    add(out, needed(object, Mode::Shared))
}

/// One more object, which is needed exclusively.
pub(crate) fn exclusive(out: &mut Vec<Need>, object: Object) -> Result<(), NoMemory>
    ensures { OnOk result (out.new.items ≡ out.old.items ++ model.exclusive object ∷ []) }
{
    add(out, needed(object, Mode::Exclusive))
}

/// The objects of a point: its graft, and its installer's account where one stands.
pub(crate) fn point(out: &mut Vec<Need>, accounts: &Accounts, q: u8, pt: u8) -> Result<(), NoMemory>
    ensures { OnOk result (out.new.items
        ≡ out.old.items ++ model.point_needs (accounts_of accounts.now) q pt) }
{
    exclusive(out, Object::Graft(q, pt))?;
    match accounts.graft(q, pt) {
        None => Ok(()),
        Some(_) => {
            exclusive(out, Object::Acct(q))?;
            Ok(())
        }
    }
}

/// The grafts at all points of a process.
pub(crate) fn grafts(out: &mut Vec<Need>, p: u8) -> Result<(), NoMemory>
    ensures { OnOk result (out.new.items
        ≡ out.old.items ++ map (λ pt. model.exclusive (Graft p pt)) (range_with_len 0 16)) }
{
    for pt in 0..16u8 {
        exclusive(out, Object::Graft(p, pt))?;
    }
    Ok(())
}

/// All open files of a process.
pub(crate) fn files(out: &mut Vec<Need>, p: u8) -> Result<(), NoMemory>
    ensures { OnOk result (out.new.items
        ≡ out.old.items ++ map (λ fd. model.exclusive (OpenFile p fd)) (range_with_len 0 4)) }
{
    for fd in 0..4u8 {
        exclusive(out, Object::OpenFile(p, fd))?;
    }
    Ok(())
}

/// All cells of a process.
pub(crate) fn cells(out: &mut Vec<Need>, p: u8) -> Result<(), NoMemory>
    ensures { OnOk result (out.new.items
        ≡ out.old.items ++ map (λ k. model.exclusive (Cell p k)) (range_with_len 0 4)) }
{
    for k in 0..4u8 {
        exclusive(out, Object::Cell(p, k))?;
    }
    Ok(())
}

/// All user locks.
pub(crate) fn locks(out: &mut Vec<Need>) -> Result<(), NoMemory>
    ensures { OnOk result (out.new.items
        ≡ out.old.items ++ map (λ u. model.exclusive (Lock u)) (range_with_len 0 16)) }
{
    for u in 0..16u8 {
        exclusive(out, Object::Lock(u))?;
    }
    Ok(())
}
