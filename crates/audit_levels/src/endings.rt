//! What an answer makes of its level.

ghost use Rattle.std.specs.Prelude.{◌≡◌, ◌∷◌, ◌++◌, [], ℕ, List, IfOk, OnOk, Some, map, slice_index, true, false};
ghost use Rattle.kernel_model.specs.Access.{found_segment, set_segment};
ghost use Rattle.kernel_model.specs.GraftStep as model;
ghost use Rattle.kernel_model.specs.Levels as levels;
ghost use Rattle.kernel_model.specs.Locks.{joined};
ghost use Rattle.kernel_model.specs.Machine as machine;
ghost use Rattle.kernel_model.specs.Policies.{kind_of};
ghost use Rattle.graft_loader.specs.Slots.{table_of};
ghost use Rattle.audit_machine.specs.Machine.{machine_of};
ghost use Rattle.audit_state.specs.Accounts.{accounts_of};
ghost use Rattle.audit_state.specs.Things.{things_of};
ghost use Rattle.audit_state.specs.Worlds.{world_of};
ghost use Rattle.audit_levels.specs.Levels.{level_of, levels_of, now_of, config_of, outcome_of};
ghost use Rattle.audit_levels.specs.Levels.{touched_of, found_of};

use crate::accessors::is_record_spent;
use crate::drops::{drop_innermost, goes_on};
use crate::images::{image_of, keeps_in};
use crate::machines::answer;
use crate::touched::join;
use crate::{Config, Effect, Level, Outcome, Place, Record};
use audit_state::{Kept, Things, share_if};
use audit_table::{put_first, take_first};
use kernel_model::{Cause, Inverse, Kind, Micro, NoMemory};
use std::mem::swap;

/// The answer of level 0 is the call's.
fn complete_call(place: &Place<'_>, l: &Level) -> Outcome
    ensures { (bytes : ℕ → List ℕ) (c : levels.Config) → c.levels ≡ [] →
        outcome_of result c ≡ model.completed c.now (level_of bytes l.now) [] }
{
    let regs = &l.machine.regs;
    Outcome {
        said: Micro::Completed([regs[0], regs[1], regs[2], regs[3]]),
        effects: Vec::new(place.alloc),
    }
}

/// A level takes over what a level that it asked leaves: its answer, what it holds, its records.
fn take_over(asker: &mut Level, mut l: Level) -> Result<(), NoMemory>
    ensures { OnOk result ((bytes : ℕ → List ℕ) → level_of bytes asker.new
        ≡ record (level_of bytes asker.old) {
          machine = levels.answered (kind_of l.point) (slice_index l.machine.regs 0)
              (slice_index l.machine.regs 1) (machine_of asker.old.machine);
          touched = joined (touched_of l.touched.items) (touched_of asker.old.touched.items);
          records = map found_of l.records.items ++ map found_of asker.old.records.items;
        }) }
{
    answer(
        &mut asker.machine,
        l.point,
        l.machine.regs[0],
        l.machine.regs[1],
    );
    join(&mut asker.touched, &l.touched)?;
    put_before(&mut l.records, &mut asker.records)?;
    Ok(())
}

/// Records before others, which get them all.
fn put_before(first: &mut Vec<Record>, records: &mut Vec<Record>) -> Result<(), NoMemory>
    ensures { OnOk result (records.new.items ≡ first.old.items ++ records.old.items) }
{
    match first.append(records) {
        Ok(()) => {}
        Err(_) => return Err(NoMemory),
    }
    swap(first, records);
    Ok(())
}

/// A valid answer ends a level.
fn completed(place: &Place<'_>, config: &mut Config, l: Level) -> Result<Outcome, NoMemory>
    ensures { IfOk result (λ o. (bytes : ℕ → List ℕ) →
        outcome_of o (config_of bytes config.new)
        ≡ model.completed (now_of bytes config.old) (level_of bytes l)
        (levels_of bytes config.old.levels.items)) }
{
    match take_first(&mut config.levels) {
        None => Ok(complete_call(place, &l)),
        Some(mut asker) => {
            take_over(&mut asker, l)?;
            put_first(&mut config.levels, asker)?;
            Ok(goes_on(place))
        }
    }
}

/// The segment of a level is kept; the record has what was kept before.
fn keep(place: &Place<'_>, things: &mut Things, l: &Level) -> Result<Record, NoMemory>
    ensures found { IfOk result (λ r. (bytes : ℕ → List ℕ) → found_of r
        ≡ found_segment l.now.owner l.now.point (things_of bytes things.old)) }
    ensures kept { IfOk result (λ _. (bytes : ℕ → List ℕ) → things_of bytes things.new
        ≡ set_segment l.now.owner l.now.point (Some (machine_of l.now.machine).memory)
        (things_of bytes things.old)) }
{
    let found = Record {
        inverse: Inverse::Segment(l.owner, l.point),
        kept: share_if(things.kept(l.owner, l.point))?,
    };
    let segment = Kept::new(place.alloc, &l.machine.memory)?;
    things.set_kept(l.owner, l.point, Some(segment))?;
    Ok(found)
}

/// The segment of a level is kept and recorded, and the level ends with its answer.
fn keep_segment(place: &Place<'_>, config: &mut Config, mut l: Level) -> Result<Outcome, NoMemory>
    ensures { IfOk result (λ o. (bytes : ℕ → List ℕ) →
        outcome_of o (config_of bytes config.new)
        ≡ model.after_keeping (world_of place.now.world.now) (now_of bytes config.old)
        (level_of bytes l) (levels_of bytes config.old.levels.items) false) }
{
    let point = l.point;
    config.accounts.charge(l.owner, point, Kind::Records)?;
    let found = keep(place, &mut config.things, &l)?;
    put_first(&mut l.records, found)?;
    let mut outcome = completed(place, config, l)?;
    put_first(&mut outcome.effects, Effect::Charged(point, Kind::Records))?;
    Ok(outcome)
}

/// The segment of a level is kept where a record can be made.
fn after_keeping(place: &Place<'_>, config: &mut Config, l: Level) -> Result<Outcome, NoMemory>
    ensures { IfOk result (λ o. (bytes : ℕ → List ℕ) →
        outcome_of o (config_of bytes config.new)
        ≡ model.after_answer (world_of place.now.world.now) (now_of bytes config.old)
        (level_of bytes l) (levels_of bytes config.old.levels.items) true) }
{
    let spent = is_record_spent(&config.accounts, &l, &config.levels)?;
    if spent {
        drop_innermost(place, config, l, Cause::SpentRecords)
    } else {
        keep_segment(place, config, l)
    }
}

/// An answer that its point accepts.
fn after_answer(place: &Place<'_>, config: &mut Config, l: Level) -> Result<Outcome, NoMemory>
    ensures { IfOk result (λ o. (bytes : ℕ → List ℕ) →
        outcome_of o (config_of bytes config.new)
        ≡ model.after_return (world_of place.now.world.now) (table_of place.now.images.now)
        (now_of bytes config.old) (level_of bytes l) (levels_of bytes config.old.levels.items)
        true) }
{
    let keeps = keeps_in(image_of(place, &config.accounts, l.owner, l.point));
    if keeps {
        after_keeping(place, config, l)
    } else {
        completed(place, config, l)
    }
}

/// An answer of a level, which its point accepts or not.
pub(crate) fn after_return(
    place: &Place<'_>,
    config: &mut Config,
    l: Level,
) -> Result<Outcome, NoMemory>
    ensures { IfOk result (λ o. (bytes : ℕ → List ℕ) →
        outcome_of o (config_of bytes config.new)
        ≡ model.after_machine (world_of place.now.world.now) (table_of place.now.images.now)
        place.now.process (now_of bytes config.old) (level_of bytes l)
        (levels_of bytes config.old.levels.items) machine.Returned) }
{
    let r0 = l.machine.regs[0];
    let r1 = l.machine.regs[1];
    if config.things.is_valid(l.owner, l.point, l.args, r0, r1) {
        after_answer(place, config, l)
    } else {
        drop_innermost(place, config, l, Cause::RefusedAnswer(r0, r1))
    }
}
