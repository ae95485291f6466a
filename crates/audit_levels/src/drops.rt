//! How a level is dropped.

ghost use Rattle.std.specs.Prelude.{◌≡◌, ◌∷◌, [], ℕ, List, IfOk};
ghost use Rattle.kernel_model.specs.Levels as model;
ghost use Rattle.audit_state.specs.Worlds.{world_of};
ghost use Rattle.audit_levels.specs.Levels.{level_of, levels_of, now_of, config_of, outcome_of};

use crate::answers::answer_by_default;
use crate::levels::depth_of;
use crate::{Config, Effect, Level, Outcome, Place};
use audit_table::{put_last, take_first};
use kernel_model::{Cause, Micro, NoMemory};

/// An effect alone.
pub(crate) fn only(place: &Place<'_>, effect: Effect) -> Result<Vec<Effect>, NoMemory>
    ensures { IfOk result (λ es. es.items ≡ effect ∷ []) }
{
    let mut effects = Vec::new(place.alloc);
    put_last(&mut effects, effect)?;
    Ok(effects)
}

/// A level is dropped; the levels outside it are those of the call.
pub(crate) fn drop_innermost(
    place: &Place<'_>,
    config: &mut Config,
    l: Level,
    cause: Cause,
) -> Result<Outcome, NoMemory>
    ensures { IfOk result (λ o. (bytes : ℕ → List ℕ) →
        outcome_of o (config_of bytes config.new)
        ≡ model.drop_innermost (world_of place.now.world.now) (now_of bytes config.old)
        (level_of bytes l) (levels_of bytes config.old.levels.items) cause) }
{
    let Level {
        owner,
        point,
        kept,
        ..
    } = l;
    let depth = depth_of(&config.levels)?;
    config.accounts.remove(owner, point)?;
    config.things = kept;
    answer_by_default(place, &config.things, &mut config.levels, owner, point)?;
    let effects = only(place, Effect::Removed(point))?;
    Ok(Outcome {
        said: Micro::Dropped {
            depth,
            installer: owner,
            point,
            cause,
        },
        effects,
    })
}

/// Level d, counted from the outermost, is dropped with all levels further inward.
pub fn drop_level(
    place: &Place<'_>,
    config: &mut Config,
    d: u8,
    cause: Cause,
) -> Result<Outcome, NoMemory>
    ensures { IfOk result (λ o. (bytes : ℕ → List ℕ) →
        outcome_of o (config_of bytes config.new)
        ≡ model.drop_level (world_of place.now.world.now) (now_of bytes config.old)
        (levels_of bytes config.old.levels.items) d cause) }
{
    let Some(l) = take_first(&mut config.levels) else {
        return Ok(goes_on(place));
    };
    if config.levels.len() == usize::from(d) {
        drop_innermost(place, config, l, cause)
    } else {
        drop_level(place, config, d, cause)
    }
}

/// The call goes on.
pub(crate) fn goes_on(place: &Place<'_>) -> Outcome
    ensures { (c : model.Config) → outcome_of result c ≡ model.goes_on c.now c.levels }
{
    Outcome {
        said: Micro::Went,
        effects: Vec::new(place.alloc),
    }
}
