//! What came about since each level of a graft call began.

ghost use Rattle.std.specs.Prelude.{◌≡◌, ◌∷◌, ◌++◌, [], ◌==◌, ◌+◌, ℕ, List, IfOk, OnOk, map, reverse};
ghost use Rattle.kernel_model.specs.History as model;
ghost use Rattle.audit_levels.specs.Levels.{effect_of};
ghost use Rattle.audit_replay.specs.Traces.{pasts_of, past_of};

use crate::Past;
use audit_levels::Effect;
use audit_table::{put_first, take_first};
use kernel_model::NoMemory;
use std::alloc::Global;

/// Effects behind others.
pub(crate) fn put_all(effects: &mut Vec<Effect>, more: &[Effect]) -> Result<(), NoMemory>
    ensures { OnOk result (effects.new.items ≡ effects.old.items ++ more.now) }
{
    match effects.extend_from_slice(more) {
        Ok(()) => Ok(()),
        Err(_) => Err(NoMemory),
    }
}

/// A past that more effects come to.
fn extended(mut past: Past, more: &[Effect]) -> Result<Past, NoMemory>
    ensures { IfOk result (λ p. past_of p ≡ record (past_of past) {
      effects = reverse (map effect_of more.now) ++ (past_of past).effects;
    }) }
{
    put_all(&mut past.effects, more)?;
    Ok(past)
}

/// Effects come to the innermost level's past.
pub(crate) fn put_effects(pasts: &mut Vec<Past>, more: &[Effect]) -> Result<(), NoMemory>
    ensures { OnOk result (pasts_of pasts.new.items
        ≡ model.with_effects (map effect_of more.now) (pasts_of pasts.old.items)) }
{
    match take_first(pasts) {
        None => Ok(()),
        Some(past) => {
            let longer = extended(past, more)?;
            put_first(pasts, longer)?;
            Ok(())
        }
    }
}

/// The innermost level completed: its past becomes part of its asker's.
fn join_pasts(pasts: &mut Vec<Past>) -> Result<(), NoMemory>
    ensures { OnOk result (pasts_of pasts.new.items
        ≡ model.joined_pasts (pasts_of pasts.old.items)) }
{
    match take_first(pasts) {
        None => Ok(()),
        Some(past) => join_past(pasts, past),
    }
}

/// The past of a level that completed becomes part of its asker's, or stays where there is none.
fn join_past(pasts: &mut Vec<Past>, past: Past) -> Result<(), NoMemory>
    ensures { OnOk result (pasts_of pasts.new.items
        ≡ model.joined_pasts (past_of past ∷ pasts_of pasts.old.items)) }
{
    match take_first(pasts) {
        None => {
            put_first(pasts, past)?;
            Ok(())
        }
        Some(asker) => {
            let longer = extended(asker, &past.effects)?;
            put_first(pasts, longer)?;
            Ok(())
        }
    }
}

/// A level began, before which so many marks stand.
fn begin_past(alloc: Global, pasts: &mut Vec<Past>, began: u32) -> Result<(), NoMemory>
    ensures { OnOk result (pasts_of pasts.new.items
        ≡ record { began = began; effects = [] } ∷ pasts_of pasts.old.items) }
{
    let past = Past {
        began,
        effects: Vec::new(alloc),
    };
    put_first(pasts, past)?;
    Ok(())
}

/// The pasts after an instruction, by how many levels there were before it and are after it; so
/// many marks stand before it.
pub(crate) fn step_pasts(
    alloc: Global,
    pasts: &mut Vec<Past>,
    marks: u32,
    before: usize,
    after: usize,
) -> Result<(), NoMemory>
    ensures { OnOk result (pasts_of pasts.new.items
        ≡ model.pasts_after marks before after (pasts_of pasts.old.items)) }
{
    if before < after && after - before == 1 {
        begin_past(alloc, pasts, marks)
    } else if after < before && before - after == 1 {
        join_pasts(pasts)
    } else {
        Ok(())
    }
}
