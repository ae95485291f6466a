//! A history after the drop of a level above 0.

ghost use Rattle.std.specs.Prelude.{◌≡◌, ℕ, List, IfOk, OnOk, map, reverse};
ghost use Rattle.kernel_model.specs.History as model;
ghost use Rattle.audit_levels.specs.Levels.{effect_of};
ghost use Rattle.audit_replay.specs.Traces.{trace_of, mark_of, pasts_of};

use crate::pasts::put_all;
use crate::{Mark, Past, Trace};
use audit_levels::{Effect, Place};
use audit_table::put_last;
use kernel_model::NoMemory;

/// How many marks stand before the ask that began level d, where the pasts are innermost first.
fn marks_before(d: u8, pasts: &[Past]) -> u32
    ensures { result ≡ model.marks_before d (pasts_of pasts.now) }
{
    match pasts {
        [] => 0,
        [past, outer @ ..] => {
            if outer.len() == usize::from(d) {
                past.began
            } else {
                marks_before(d, outer)
            }
        }
    }
}

/// The effects since level d began, oldest first.
fn effects_since(place: &Place<'_>, d: u8, pasts: &[Past]) -> Result<Vec<Effect>, NoMemory>
    ensures { IfOk result (λ es.
        map effect_of es.items ≡ reverse (model.effects_since d (pasts_of pasts.now))) }
{
    match pasts {
        [] => Ok(Vec::new(place.alloc)),
        [past, outer @ ..] => {
            if usize::from(d) <= outer.len() {
                let mut effects = effects_since(place, d, outer)?;
                put_all(&mut effects, &past.effects)?;
                Ok(effects)
            } else {
                Ok(Vec::new(place.alloc))
            }
        }
    }
}

/// Level d above 0, of a graft call that its history leads to, is dropped: the marks from its ask
/// on are replaced by one, which holds what its levels and those inside asked, were charged and
/// lost, in order, and behind them the drop's own effects.
pub fn fall_back(
    place: &Place<'_>,
    trace: &Trace,
    history: &mut Vec<Mark>,
    last: &[Effect],
    d: u8,
) -> Result<(), NoMemory>
    ensures { OnOk result ((bytes : ℕ → List ℕ) → map mark_of history.new.items
        ≡ model.fallen (trace_of bytes trace.now) (map mark_of history.old.items)
        (map effect_of last.now) d) }
{
    let mut effects = effects_since(place, d, &trace.pasts)?;
    put_all(&mut effects, last)?;
    history.truncate(marks_before(d, &trace.pasts) as usize);
    put_last(history, Mark::Fell(effects))?;
    Ok(())
}
