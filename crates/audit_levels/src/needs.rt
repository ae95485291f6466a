//! The objects that an instruction needs.

ghost use Rattle.std.specs.Prelude.{◌≡◌, ◌∷◌, ◌++◌, [], ℕ, List, IfOk, Some, cond};
ghost use Rattle.kernel_model.specs.Access as access;
ghost use Rattle.kernel_model.specs.GraftStep as model;
ghost use Rattle.kernel_model.specs.Levels as levels;
ghost use Rattle.graft_loader.specs.Slots.{table_of};
ghost use Rattle.audit_state.specs.Accounts.{accounts_of};
ghost use Rattle.audit_state.specs.Worlds.{world_of};
ghost use Rattle.audit_levels.specs.Levels.{level_of, levels_of};

use crate::images::code_of;
use crate::{Config, Level, Place};
use audit_state::Accounts;
use audit_state::access::{accessed, asked_graft, asked_objects, early_refusal, is_ask};
use audit_table::{copy, put_last};
use kernel_model::{Kind, LAST_CALLABLE, Need, NoMemory};

/// The limit of the graft at a point, 0 where none stands.
fn limit_of(accounts: &Accounts, q: u8, pt: u8) -> u32
    ensures { result ≡ levels.limit_in ((accounts_of accounts.now).graft q pt) }
{
    match accounts.graft(q, pt) {
        None => 0,
        Some(g) => g.limit,
    }
}

/// Whether no step is left: the level's count is at its graft's limit, or its payer has none.
pub(crate) fn is_spent(accounts: &Accounts, l: &Level) -> bool
    ensures { (bytes : ℕ → List ℕ) →
        result ≡ model.is_spent (accounts_of accounts.now) (level_of bytes l.now) }
{
    l.count == limit_of(accounts, l.owner, l.point)
        || accounts.funds(l.owner, l.point, Kind::Steps) == 0
}

/// The objects that an ask needs.
fn ask_needs(place: &Place<'_>, id: u32, r0: u32, q: u8) -> Result<Vec<Need>, NoMemory>
    ensures { IfOk result (λ ns.
        ns.items ≡ access.asked_objects id r0 q ++ access.asked_graft id r0 q ∷ []) }
{
    let objects = asked_objects(id, r0, q)?;
    let graft = asked_graft(id, r0, q)?;
    let mut needs = copy(place.alloc, &objects)?;
    put_last(&mut needs, graft)?;
    Ok(needs)
}

/// The object that a plain accessor needs.
fn accessor_needs(place: &Place<'_>, id: u32, r0: u32, q: u8) -> Result<Vec<Need>, NoMemory>
    ensures { IfOk result (λ ns. ns.items ≡ access.accessed id r0 q ∷ []) }
{
    let need = accessed(id, r0, q)?;
    copy(place.alloc, &[need])
}

/// The objects that a call needs which isn't refused by its arguments.
fn granted_needs(place: &Place<'_>, id: u32, r0: u32, q: u8) -> Result<Vec<Need>, NoMemory>
    ensures { IfOk result (λ ns. ns.items ≡ cond (access.is_ask id)
        (access.asked_objects id r0 q ++ access.asked_graft id r0 q ∷ [])
        (access.accessed id r0 q ∷ [])) }
{
    if is_ask(id) {
        ask_needs(place, id, r0, q)
    } else {
        accessor_needs(place, id, r0, q)
    }
}

/// The objects that a call needs, none where it is refused by its arguments.
fn call_needs(place: &Place<'_>, l: &Level, id: u32) -> Result<Vec<Need>, NoMemory>
    ensures { IfOk result (λ ns. (bytes : ℕ → List ℕ) → ns.items
        ≡ model.instruction_needs (world_of place.now.world.now) (level_of bytes l.now)
        (Some id)) }
{
    let r0 = l.machine.regs[0];
    match early_refusal(LAST_CALLABLE, id, r0, l.machine.regs[1], l.owner) {
        Some(_) => Ok(Vec::new(place.alloc)),
        None => granted_needs(place, id, r0, l.owner),
    }
}

/// The objects that the next instruction of a level needs, none where no step is left.
fn level_needs(place: &Place<'_>, accounts: &Accounts, l: &Level) -> Result<Vec<Need>, NoMemory>
    ensures { IfOk result (λ ns. (bytes : ℕ → List ℕ) (outer : List levels.Level) → ns.items
        ≡ model.next_needs (world_of place.now.world.now) (table_of place.now.images.now)
        (accounts_of accounts.now) (level_of bytes l.now ∷ outer)) }
{
    if is_spent(accounts, l) {
        return Ok(Vec::new(place.alloc));
    }
    match l
        .machine
        .next_call(code_of(place, accounts, l.owner, l.point))
    {
        None => Ok(Vec::new(place.alloc)),
        Some(id) => call_needs(place, l, id),
    }
}

/// The objects that the next instruction of a graft call needs.
pub fn next_needs(place: &Place<'_>, config: &Config) -> Result<Vec<Need>, NoMemory>
    ensures { IfOk result (λ ns. (bytes : ℕ → List ℕ) → ns.items
        ≡ model.next_needs (world_of place.now.world.now) (table_of place.now.images.now)
        (accounts_of config.now.accounts) (levels_of bytes config.now.levels.items)) }
{
    match config.levels.as_slice() {
        [] => Ok(Vec::new(place.alloc)),
        [l, ..] => level_needs(place, &config.accounts, l),
    }
}

/// Whose user locks don't hinder: the installer of the innermost level, or else the process itself.
pub fn lock_user(process: u8, levels: &[Level]) -> u8
    ensures { (bytes : ℕ → List ℕ) →
        result ≡ model.lock_user process (levels_of bytes levels.now) }
{
    match levels {
        [] => process,
        [l, ..] => l.owner,
    }
}
