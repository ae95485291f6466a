//! Histories are run again from the committed state.

ghost use Rattle.std.specs.Prelude.{◌≡◌, ◌++◌, ◌∷◌, [], ℕ, suc, List, IfOk, OnOk, length, map, option_map, true, false};
ghost use Rattle.kernel_model.specs.History as model;
ghost use Rattle.kernel_model.specs.Levels as levels;
ghost use Rattle.graft_loader.specs.Slots.{table_of};
ghost use Rattle.kernel_model.specs.Locks.{touch_all, untouched};
ghost use Rattle.audit_state.specs.Accounts.{accounts_of};
ghost use Rattle.audit_state.specs.Things.{things_of};
ghost use Rattle.audit_state.specs.Worlds.{world_of};
ghost use Rattle.kernel_model.specs.GraftStep as steps;
ghost use Rattle.audit_levels.specs.Levels.{effect_of, config_of, outcome_of};
ghost use Rattle.audit_replay.specs.Traces.{trace_of, mark_of, pasts_of, led, led_from, GoesOn};
ghost use Rattle.audit_levels.specs.Levels.{level_of, levels_of, now_of};

use crate::effects::make_all_again;
use crate::pasts::{put_effects, step_pasts};
use crate::{Mark, Past, Trace};
use audit_levels::{
    Begins, Config, Effect, Level, Outcome, Place, answer_by_default, micro, new_level, one_more,
    touch_all,
};
use audit_state::{Accounts, Things};
use audit_table::{put_last, take_first};
use kernel_model::{Micro, Need, NoMemory, Point};

/// The trace goes on by an instruction that had these effects, before which there were so many
/// levels.
fn go_on(
    place: &Place<'_>,
    trace: &mut Trace,
    before: usize,
    effects: &[Effect],
) -> Result<(), NoMemory>
    ensures { OnOk result ((bytes : ℕ → List ℕ) → trace_of bytes trace.new ≡ record {
      config = config_of bytes trace.old.config;
      marks = suc trace.old.marks;
      pasts = model.pasts_after trace.old.marks before
          (length (levels_of bytes trace.old.config.levels.items))
          (model.with_effects (map effect_of effects.now) (pasts_of trace.old.pasts.items));
    }) }
{
    let after = trace.config.levels.len();
    put_effects(&mut trace.pasts, effects)?;
    step_pasts(place.alloc, &mut trace.pasts, trace.marks, before, after)?;
    trace.marks = one_more(trace.marks)?;
    Ok(())
}

/// An instruction on a trace; false where it ended a level otherwise than by an answer to its
/// asker.
fn step_trace(place: &Place<'_>, trace: &mut Trace) -> Result<bool, NoMemory>
    ensures { IfOk result (λ there. (bytes : ℕ → List ℕ) →
        led there (trace_of bytes trace.new)
        ≡ model.mark_on (world_of place.now.world.now) (table_of place.now.images.now)
        place.now.process model.Stepped (trace_of bytes trace.old)) }
{
    let before = trace.config.levels.len();
    let outcome = micro(place, &mut trace.config)?;
    if !is_going_on(&outcome.said) {
        return Ok(false);
    }
    go_on(place, trace, before, &outcome.effects)?;
    Ok(true)
}

/// Whether a call goes on after an instruction that came to this.
pub fn is_going_on(said: &Micro) -> bool
    ensures { result ≡ levels.is_going_on said.now }
{
    match said {
        Micro::Went => true,
        Micro::Blocked { .. } | Micro::Completed(_) | Micro::Dropped { .. } => false,
    }
}

/// The innermost level ends, and its asker gets the default.
fn end_level(place: &Place<'_>, config: &mut Config) -> Result<(), NoMemory>
    ensures { OnOk result ((bytes : ℕ → List ℕ) → config_of bytes config.new
        ≡ model.level_ends (world_of place.now.world.now) (now_of bytes config.old)
        (levels_of bytes config.old.levels.items)) }
{
    match take_first(&mut config.levels) {
        None => Ok(()),
        Some(l) => {
            answer_by_default(place, &config.things, &mut config.levels, l.owner, l.point)?;
            Ok(())
        }
    }
}

/// The installer of the innermost level, 0 where there is none.
fn owner_among(levels: &[Level]) -> u8
    ensures { (bytes : ℕ → List ℕ) →
        result ≡ model.owner_among (levels_of bytes levels.now) }
{
    match levels {
        [] => 0,
        [l, ..] => l.owner,
    }
}

/// The past of the innermost level is gone.
fn leave_past(pasts: &mut Vec<Past>)
    ensures { pasts_of pasts.new.items ≡ model.outer_pasts (pasts_of pasts.old.items) }
{
    let _ = take_first(pasts);
}

/// The level that an ask began falls, with these effects; false where they can't be made again.
fn fall(place: &Place<'_>, trace: &mut Trace, effects: &[Effect]) -> Result<bool, NoMemory>
    ensures { IfOk result (λ there. (bytes : ℕ → List ℕ) →
        led there (trace_of bytes trace.new)
        ≡ model.fallen_if (world_of place.now.world.now) (map effect_of effects.now)
        (trace_of bytes trace.old)
        (model.effects_on (model.owner_among (levels_of bytes trace.old.config.levels.items))
        (map effect_of effects.now) (config_of bytes trace.old.config))) }
{
    let q = owner_among(&trace.config.levels);
    if !make_all_again(&mut trace.config, q, effects)? {
        return Ok(false);
    }
    end_level(place, &mut trace.config)?;
    leave_past(&mut trace.pasts);
    put_effects(&mut trace.pasts, effects)?;
    Ok(true)
}

/// An ask whose level fell, on a trace; false where it leads nowhere.
fn fall_trace(place: &Place<'_>, trace: &mut Trace, effects: &[Effect]) -> Result<bool, NoMemory>
    ensures { IfOk result (λ there. (bytes : ℕ → List ℕ) →
        led there (trace_of bytes trace.new)
        ≡ model.mark_on (world_of place.now.world.now) (table_of place.now.images.now)
        place.now.process (model.Fell (map effect_of effects.now)) (trace_of bytes trace.old)) }
{
    let before = trace.config.levels.len();
    if !step_trace(place, trace)? {
        return Ok(false);
    }
    let after = trace.config.levels.len();
    if before < after && after - before == 1 {
        fall(place, trace, effects)
    } else {
        Ok(false)
    }
}

/// A mark on a trace; false where it leads nowhere.
fn mark_on(place: &Place<'_>, mark: &Mark, trace: &mut Trace) -> Result<bool, NoMemory>
    ensures { IfOk result (λ there. (bytes : ℕ → List ℕ) →
        led there (trace_of bytes trace.new)
        ≡ model.mark_on (world_of place.now.world.now) (table_of place.now.images.now)
        place.now.process (mark_of mark.now) (trace_of bytes trace.old)) }
{
    match mark {
        Mark::Stepped => step_trace(place, trace),
        Mark::Fell(effects) => fall_trace(place, trace, effects),
    }
}

/// Marks in order, on a trace; false where they lead nowhere.
pub fn marks_on(place: &Place<'_>, marks: &[Mark], trace: &mut Trace) -> Result<bool, NoMemory>
    ensures { IfOk result (λ there. (bytes : ℕ → List ℕ) →
        led there (trace_of bytes trace.new)
        ≡ model.marks_on (world_of place.now.world.now) (table_of place.now.images.now)
        place.now.process (map mark_of marks.now) (trace_of bytes trace.old)) }
{
    for mark in marks {
        let there = mark_on(place, mark, trace)?;
        if !there {
            return Ok(false);
        }
    }
    Ok(true)
}

/// One instruction more; what it came to is told. Where the call goes on, the history is longer by
/// its mark, and the trace that is kept beside it leads where that does.
pub fn step_on(
    place: &Place<'_>,
    history: &mut Vec<Mark>,
    trace: &mut Trace,
) -> Result<Outcome, NoMemory>
    ensures outcome { IfOk result (λ o. (bytes : ℕ → List ℕ) →
        outcome_of o (config_of bytes trace.new.config)
        ≡ steps.micro (world_of place.now.world.now) (table_of place.now.images.now)
        place.now.process (config_of bytes trace.old.config)) }
    ensures kept { IfOk result (λ o. levels.is_going_on o.said ≡ true →
        GoesOn (world_of place.now.world.now) (table_of place.now.images.now) place.now.process
        history.old.items history.new.items trace.old trace.new) }
    ensures longer { IfOk result (λ o. levels.is_going_on o.said ≡ true →
        history.new.items ≡ history.old.items ++ Mark.Stepped ∷ []) }
    ensures history { IfOk result (λ o. levels.is_going_on o.said ≡ false →
        history.new.items ≡ history.old.items) }
    ensures pasts { IfOk result (λ o. levels.is_going_on o.said ≡ false →
        pasts_of trace.new.pasts.items ≡ pasts_of trace.old.pasts.items) }
{
    let before = trace.config.levels.len();
    let outcome = micro(place, &mut trace.config)?;
    if !is_going_on(&outcome.said) {
        return Ok(outcome);
    }
    go_on(place, trace, before, &outcome.effects)?;
    put_last(history, Mark::Stepped)?;
    Ok(outcome)
}

/// Where an empty history leads: a graft call whose one level has just begun.
fn first_trace(place: &Place<'_>, config: Config) -> Result<Trace, NoMemory>
    ensures { IfOk result (λ t. (bytes : ℕ → List ℕ) →
        trace_of bytes t ≡ model.first_trace (config_of bytes config)) }
{
    let past = Past {
        began: 0,
        effects: Vec::new(place.alloc),
    };
    let mut pasts = Vec::new(place.alloc);
    put_last(&mut pasts, past)?;
    Ok(Trace {
        config,
        marks: 0,
        pasts,
    })
}

/// The one level of a graft call that begins on these objects at the asked point. It holds the
/// objects of its piece, and is fed the piece's bytes.
fn first_level(
    place: &Place<'_>,
    accounts: &Accounts,
    things: &Things,
    base: &[Need],
    fed: &[u8],
    point: &Point,
) -> Result<Level, NoMemory>
    ensures { IfOk result (λ l. (bytes : ℕ → List ℕ) → level_of bytes l
        ≡ levels.new_level (table_of place.now.images.now)
        (record { accounts = accounts_of accounts.now; things = things_of bytes things.now })
        place.now.process 0 point.now.installer point.now.point point.now.args fed.now
        (touch_all base.now untouched)) }
{
    let mut touched = Vec::new(place.alloc);
    touch_all(&mut touched, base)?;
    let begins = Begins {
        depth: 0,
        owner: point.installer,
        point: point.point,
        args: point.args,
        fed,
        touched,
    };
    new_level(place, accounts, things, begins)
}

/// A graft call that begins on a copy of the committed objects, and has no mark yet: level 0 stands
/// at the asked point, holds the objects of the piece, and is fed the piece's bytes.
pub fn begin(
    place: &Place<'_>,
    accounts: &Accounts,
    things: &Things,
    base: &[Need],
    fed: &[u8],
    point: &Point,
) -> Result<Trace, NoMemory>
    ensures { IfOk result (λ t. (bytes : ℕ → List ℕ) → trace_of bytes t
        ≡ model.first_trace (model.begin_at (table_of place.now.images.now)
        (record { accounts = accounts_of accounts.now; things = things_of bytes things.now })
        place.now.process base.now fed.now point.now)) }
{
    let l = first_level(place, accounts, things, base, fed, point)?;
    let mut levels = Vec::new(place.alloc);
    put_last(&mut levels, l)?;
    let config = Config {
        accounts: accounts.copy(place.alloc)?,
        things: things.copy(place.alloc)?,
        levels,
    };
    first_trace(place, config)
}

/// Where a history leads, which is run again from the committed objects, for a piece that needs
/// these objects, feeds its graft these bytes and asks this point. None where no point is asked, or
/// where the history leads nowhere.
pub fn replay(
    place: &Place<'_>,
    accounts: &Accounts,
    things: &Things,
    base: &[Need],
    fed: &[u8],
    point: &Option<Point>,
    marks: &[Mark],
) -> Result<Option<Trace>, NoMemory>
    ensures { IfOk result (λ t. (bytes : ℕ → List ℕ) → option_map (trace_of bytes) t ≡ led_from
        (world_of place.now.world.now) (table_of place.now.images.now) place.now.process
        (map mark_of marks.now) (model.begin_with (table_of place.now.images.now)
        (record { accounts = accounts_of accounts.now; things = things_of bytes things.now })
        place.now.process base.now fed.now point.now)) }
{
    match point {
        None => Ok(None),
        Some(point) => {
            let mut trace = begin(place, accounts, things, base, fed, point)?;
            let there = marks_on(place, marks, &mut trace)?;
            Ok(trace_if(there, trace))
        }
    }
}

/// A trace, where it is one.
fn trace_if(there: bool, trace: Trace) -> Option<Trace>
    ensures { (bytes : ℕ → List ℕ) →
        option_map (trace_of bytes) result ≡ led there (trace_of bytes trace) }
{
    if there { Some(trace) } else { None }
}
