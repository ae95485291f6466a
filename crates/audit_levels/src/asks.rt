//! What an ask of another point of the same process makes of its level.

ghost use Rattle.std.specs.Prelude.{◌≡◌, ◌∷◌, [], ℕ, List, IfOk, OnOk, None, true, length};
ghost use Rattle.kernel_model.specs.GraftStep as model;
ghost use Rattle.kernel_model.specs.Levels as levels;
ghost use Rattle.kernel_model.specs.Locks.{untouched};
ghost use Rattle.kernel_model.specs.Policies.{kind_of, args_by};
ghost use Rattle.graft_loader.specs.Slots.{table_of};
ghost use Rattle.audit_machine.specs.Machine.{machine_of};
ghost use Rattle.audit_state.specs.Accounts.{accounts_of, standing};
ghost use Rattle.audit_state.specs.Things.{things_of};
ghost use Rattle.audit_state.specs.Points.{point_kind};
ghost use Rattle.audit_state.specs.Worlds.{world_of};
ghost use Rattle.audit_levels.specs.Levels.{level_of, levels_of, now_of, config_of, outcome_of};

use crate::answers::{answer_by_default, touch_outermost};
use crate::drops::{drop_innermost, goes_on};
use crate::levels::{Begins, depth_of, new_level};
use crate::touched::touch_all;
use crate::{Config, Effect, Level, Outcome, Place};
use audit_state::access::{asked_graft, asked_objects, asked_point};
use audit_state::policies::kind_of;
use audit_state::{Graft, PointKind, Things};
use audit_table::put_first;
use kernel_model::{Cause, NoMemory};

/// The most levels of a call.
const MOST_LEVELS: usize = 4;

/// Whether an ask can't be answered, as the values show: its file isn't open, or the process has no
/// frame.
fn is_vain(
    place: &Place<'_>,
    kind: PointKind,
    things: &Things,
    q: u8,
    pt: u8,
) -> Result<bool, NoMemory>
    ensures { IfOk result (λ vain. (bytes : ℕ → List ℕ) →
        vain ≡ model.is_vain_ask (point_kind kind) (things_of bytes things.now) q pt) }
{
    match kind {
        PointKind::Ahead => Ok(!things.file(q, u32::from(pt)).is_some()),
        PointKind::Victim => Ok(things.frames_of(place.alloc, q)?.is_empty()),
        PointKind::Next | PointKind::Serve | PointKind::Stream => Ok(false),
    }
}

/// Whether the graft of a point is one of these levels.
fn is_running(levels: &[Level], q: u8, pt: u8) -> bool
    ensures { (bytes : ℕ → List ℕ) → result ≡ model.is_running (levels_of bytes levels.now) q pt }
{
    match levels {
        [] => false,
        [l, rest @ ..] => l.owner == q && l.point == pt || is_running(rest, q, pt),
    }
}

/// Why an ask is refused by the values: a bad argument, a graft that is a level of this call
/// already, or too many levels. The level that asks stands before those outside it.
fn ask_refusal(
    place: &Place<'_>,
    config: &Config,
    l: &Level,
    pt: u8,
    id: u32,
) -> Result<Option<Cause>, NoMemory>
    ensures { IfOk result (λ cause. (bytes : ℕ → List ℕ) → cause ≡ model.ask_refusal
        (now_of bytes config.now) l.now.owner pt id
        (level_of bytes l.now ∷ levels_of bytes config.now.levels.items)) }
{
    let q = l.owner;
    if is_vain(place, kind_of(pt), &config.things, q, pt)? {
        return Ok(Some(Cause::BadArgument(id)));
    }
    if l.point == pt || is_running(&config.levels, q, pt) {
        return Ok(Some(Cause::Reentered));
    }
    if config.accounts.graft(q, pt).is_some() && config.levels.len() == MOST_LEVELS - 1 {
        return Ok(Some(Cause::TooDeep));
    }
    Ok(None)
}

/// A level begins at a point, asked by the innermost one.
fn begin_level(place: &Place<'_>, config: &mut Config, q: u8, pt: u8) -> Result<(), NoMemory>
    ensures { OnOk result ((bytes : ℕ → List ℕ) → config_of bytes config.new
        ≡ record (config_of bytes config.old) {
          levels = levels.new_level (table_of place.now.images.now) (now_of bytes config.old)
              place.now.process (length (levels_of bytes config.old.levels.items)) q pt
              (args_by (kind_of pt) (world_of place.now.world.now)
              (things_of bytes config.old.things) q pt) [] untouched
              ∷ levels_of bytes config.old.levels.items;
        }) }
{
    let args = config
        .things
        .args_by(place.alloc, kind_of(pt), place.world, q, pt)?;
    let begins = Begins {
        depth: depth_of(&config.levels)?,
        owner: q,
        point: pt,
        args,
        fed: &[],
        touched: Vec::new(place.alloc),
    };
    let l = new_level(place, &config.accounts, &config.things, begins)?;
    put_first(&mut config.levels, l)?;
    Ok(())
}

/// A new innermost level where a graft stands, else the default answer.
fn answer_ask(
    place: &Place<'_>,
    config: &mut Config,
    q: u8,
    pt: u8,
    graft: Option<Graft>,
) -> Result<Outcome, NoMemory>
    ensures { IfOk result (λ o. (bytes : ℕ → List ℕ) →
        outcome_of o (config_of bytes config.new)
        ≡ model.ask_answered (world_of place.now.world.now) (table_of place.now.images.now)
        (now_of bytes config.old) place.now.process q pt
        (levels_of bytes config.old.levels.items) (standing graft)) }
{
    match graft {
        None => {
            answer_by_default(place, &config.things, &mut config.levels, q, pt)?;
            Ok(goes_on(place))
        }
        Some(_) => {
            begin_level(place, config, q, pt)?;
            Ok(goes_on(place))
        }
    }
}

/// An ask that isn't refused.
fn ask_on(
    place: &Place<'_>,
    config: &mut Config,
    mut l: Level,
    id: u32,
    pt: u8,
) -> Result<Outcome, NoMemory>
    ensures { IfOk result (λ o. (bytes : ℕ → List ℕ) →
        outcome_of o (config_of bytes config.new)
        ≡ model.after_ask (world_of place.now.world.now) (table_of place.now.images.now)
        (now_of bytes config.old) place.now.process (level_of bytes l)
        (levels_of bytes config.old.levels.items) (machine_of l.machine) id pt None) }
{
    let q = l.owner;
    let r0 = l.machine.regs[0];
    let objects = asked_objects(id, r0, q)?;
    let graft = asked_graft(id, r0, q)?;
    touch_all(&mut l.touched, &objects)?;
    put_first(&mut config.levels, l)?;
    touch_outermost(&mut config.levels, graft.object)?;
    let standing = config.accounts.graft(q, pt);
    let mut outcome = answer_ask(place, config, q, pt, standing)?;
    put_first(&mut outcome.effects, Effect::Asked(pt))?;
    Ok(outcome)
}

/// An ask of a level, whose machine has made the call.
pub(crate) fn call_ask(
    place: &Place<'_>,
    config: &mut Config,
    l: Level,
    id: u32,
) -> Result<Outcome, NoMemory>
    ensures { IfOk result (λ o. (bytes : ℕ → List ℕ) →
        outcome_of o (config_of bytes config.new)
        ≡ model.granted_call (world_of place.now.world.now) (table_of place.now.images.now)
        (now_of bytes config.old) place.now.process (level_of bytes l)
        (levels_of bytes config.old.levels.items) (machine_of l.machine) id true) }
{
    let pt = asked_point(id, l.machine.regs[0])?;
    match ask_refusal(place, config, &l, pt, id)? {
        Some(cause) => drop_innermost(place, config, l, cause),
        None => ask_on(place, config, l, id, pt),
    }
}
