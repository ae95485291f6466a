//! One instruction of the innermost level.

ghost use Rattle.std.specs.Prelude.{◌≡◌, ◌∷◌, [], ℕ, List, IfOk, OnOk, Option, true, false, ◌+◌};
ghost use Rattle.kernel_model.specs.Machine as machine;
ghost use Rattle.kernel_model.specs.Levels as levels;
ghost use Rattle.kernel_model.specs.GraftStep as model;
ghost use Rattle.graft_loader.specs.Slots.{table_of};
ghost use Rattle.audit_table.specs.Tables.{by_place};
ghost use Rattle.audit_machine.specs.Machine.{machine_of, done_of};
ghost use Rattle.audit_state.specs.Accounts.{accounts_of};
ghost use Rattle.audit_state.specs.Worlds.{world_of};
ghost use Rattle.audit_levels.specs.Levels.{level_of, levels_of, now_of, config_of, outcome_of};
ghost use Rattle.audit_levels.specs.Levels.{HasMachine};

use crate::accessors::call_accessor;
use crate::asks::call_ask;
use crate::drops::{drop_innermost, goes_on};
use crate::endings::after_return;
use crate::images::code_of;
use crate::needs::is_spent;
use crate::{Config, Effect, Level, Outcome, Place};
use audit_machine::Done;
use audit_state::access::{early_refusal, is_ask};
use audit_table::{put_first, take_first};
use kernel_model::{Cause, Kind, LAST_CALLABLE, NoMemory};

/// A call of a level that isn't refused by its arguments: an ask, or a plain accessor.
fn granted_call(
    place: &Place<'_>,
    config: &mut Config,
    l: Level,
    id: u32,
) -> Result<Outcome, NoMemory>
    ensures { IfOk result (λ o. (bytes : ℕ → List ℕ) →
        outcome_of o (config_of bytes config.new)
        ≡ model.after_call (world_of place.now.world.now) (table_of place.now.images.now)
        (now_of bytes config.old) place.now.process (level_of bytes l)
        (levels_of bytes config.old.levels.items) (machine_of l.machine) id None) }
{
    if is_ask(id) {
        call_ask(place, config, l, id)
    } else {
        call_accessor(place, config, l, id)
    }
}

/// A call of a level whose machine has made it.
fn call(place: &Place<'_>, config: &mut Config, l: Level, id: u32) -> Result<Outcome, NoMemory>
    ensures { IfOk result (λ o. (bytes : ℕ → List ℕ) →
        outcome_of o (config_of bytes config.new)
        ≡ model.after_machine (world_of place.now.world.now) (table_of place.now.images.now)
        place.now.process (now_of bytes config.old) (level_of bytes l)
        (levels_of bytes config.old.levels.items) (machine.Called id (machine_of l.machine))) }
{
    match early_refusal(
        LAST_CALLABLE,
        id,
        l.machine.regs[0],
        l.machine.regs[1],
        l.owner,
    ) {
        Some(cause) => drop_innermost(place, config, l, cause),
        None => granted_call(place, config, l, id),
    }
}

/// A call of a level, whose machine before it was another with these registers.
fn after_call(
    place: &Place<'_>,
    config: &mut Config,
    l: Level,
    id: u32,
) -> Result<Outcome, NoMemory>
    ensures { IfOk result (λ o. (bytes : ℕ → List ℕ) (old : machine.Machine) →
        by_place l.machine.regs ≡ old.regs →
        outcome_of o (config_of bytes config.new)
        ≡ model.after_machine (world_of place.now.world.now) (table_of place.now.images.now)
        place.now.process (now_of bytes config.old) (record (level_of bytes l) { machine = old })
        (levels_of bytes config.old.levels.items) (machine.Called id (machine_of l.machine))) }
{
    call(place, config, l, id)
}

/// The level goes on.
fn goes_on_with(place: &Place<'_>, config: &mut Config, l: Level) -> Result<Outcome, NoMemory>
    ensures { IfOk result (λ o. (bytes : ℕ → List ℕ) →
        outcome_of o (config_of bytes config.new)
        ≡ levels.goes_on (now_of bytes config.old)
        (level_of bytes l ∷ levels_of bytes config.old.levels.items)) }
{
    put_first(&mut config.levels, l)?;
    Ok(goes_on(place))
}

/// What follows from what the machine of a level did; the levels outside it are those of the call.
fn after_machine(
    place: &Place<'_>,
    config: &mut Config,
    l: Level,
    done: Done,
) -> Result<Outcome, NoMemory>
    ensures { IfOk result (λ o. (bytes : ℕ → List ℕ) (old : machine.Machine) →
        HasMachine done l.machine old →
        outcome_of o (config_of bytes config.new)
        ≡ model.after_machine (world_of place.now.world.now) (table_of place.now.images.now)
        place.now.process (now_of bytes config.old) (record (level_of bytes l) { machine = old })
        (levels_of bytes config.old.levels.items) (done_of done (machine_of l.machine))) }
{
    match done {
        Done::Went => goes_on_with(place, config, l),
        Done::Called(id) => after_call(place, config, l, id),
        Done::Returned => after_return(place, config, l),
        Done::Trapped(code) => drop_innermost(place, config, l, Cause::Trap(code)),
        Done::DividedByZero | Done::Outside | Done::PastEnd => {
            drop_innermost(place, config, l, Cause::DivideByZero)
        }
    }
}

/// One more, if it has room.
pub fn one_more(n: u32) -> Result<u32, NoMemory>
    ensures { IfOk result (λ m. m ≡ n + 1) }
{
    match n.checked_add(1) {
        Some(m) => Ok(m),
        None => Err(NoMemory),
    }
}

/// The instruction of a level is charged, counted and done; the levels outside it are those of the
/// call.
fn charge_and_do(place: &Place<'_>, config: &mut Config, mut l: Level) -> Result<Outcome, NoMemory>
    ensures { IfOk result (λ o. (bytes : ℕ → List ℕ) →
        outcome_of o (config_of bytes config.new)
        ≡ model.charged_step (world_of place.now.world.now) (table_of place.now.images.now)
        place.now.process (now_of bytes config.old) (level_of bytes l)
        (levels_of bytes config.old.levels.items) false) }
{
    let point = l.point;
    let code = code_of(place, &config.accounts, l.owner, point);
    config.accounts.charge(l.owner, point, Kind::Steps)?;
    l.count = one_more(l.count)?;
    let done = l.machine.step(code);
    let mut outcome = after_machine(place, config, l, done)?;
    put_first(&mut outcome.effects, Effect::Charged(point, Kind::Steps))?;
    Ok(outcome)
}

/// The instruction of a level is charged and done, or the level is dropped, uncharged, where no
/// step is left; the levels outside it are those of the call.
fn charged_step(
    place: &Place<'_>,
    config: &mut Config,
    l: Level,
    spent: bool,
) -> Result<Outcome, NoMemory>
    ensures { IfOk result (λ o. (bytes : ℕ → List ℕ) →
        outcome_of o (config_of bytes config.new)
        ≡ model.charged_step (world_of place.now.world.now) (table_of place.now.images.now)
        place.now.process (now_of bytes config.old) (level_of bytes l)
        (levels_of bytes config.old.levels.items) spent) }
{
    if spent {
        drop_innermost(place, config, l, Cause::SpentSteps)
    } else {
        charge_and_do(place, config, l)
    }
}

/// One instruction of the innermost level of a graft call: it goes on, or is answered, or a level
/// is dropped. A graft call without a level goes on as it is.
pub fn micro(place: &Place<'_>, config: &mut Config) -> Result<Outcome, NoMemory>
    ensures { IfOk result (λ o. (bytes : ℕ → List ℕ) →
        outcome_of o (config_of bytes config.new)
        ≡ model.micro (world_of place.now.world.now) (table_of place.now.images.now)
        place.now.process (config_of bytes config.old)) }
{
    let Some(l) = take_first(&mut config.levels) else {
        return Ok(goes_on(place));
    };
    let spent = is_spent(&config.accounts, &l);
    charged_step(place, config, l, spent)
}
