//! What the levels of a fallen one did, made again.

ghost use Rattle.std.specs.Prelude.{◌≡◌, ◌==◌, ◌&&◌, not, ℕ, List, IfOk, map};
ghost use Rattle.kernel_model.specs.History as model;
ghost use Rattle.kernel_model.specs.Levels as calls;
ghost use Rattle.kernel_model.specs.Locks as locks;
ghost use Rattle.kernel_model.specs.Charges.{funds, charge, removed};
ghost use Rattle.audit_state.specs.Accounts.{accounts_of};
ghost use Rattle.audit_levels.specs.Levels.{levels_of, config_of, effect_of, touched_of};
ghost use Rattle.audit_replay.specs.Traces.{led, last_touched};

use audit_levels::{Config, Effect, Level, Touch, is_held, touch_outermost};
use kernel_model::{Kind, NoMemory, Object};

/// What the outermost of some levels holds, or else these objects.
fn outermost_in<'a>(first: &'a [Touch], levels: &'a [Level]) -> &'a [Touch]
    ensures { (bytes : ℕ → List ℕ) → touched_of result.now
        ≡ last_touched (touched_of first.now) (levels_of bytes levels.now) }
{
    match levels {
        [] => first,
        [l, rest @ ..] => outermost_in(&l.touched, rest),
    }
}

/// Whether level 0 holds an object.
fn is_held_outermost(levels: &[Level], object: Object) -> bool
    ensures { (bytes : ℕ → List ℕ) → result ≡ locks.is_held
        (calls.outermost_touched (levels_of bytes levels.now) object) }
{
    is_held(outermost_in(&[], levels), object)
}

/// Whether a graft of a process stands that level 0 holds.
fn is_found(config: &Config, q: u8, pt: u8) -> bool
    ensures { (bytes : ℕ → List ℕ) → result ≡ model.is_found q pt (config_of bytes config.now) }
{
    config.accounts.graft(q, pt).is_some()
        && is_held_outermost(&config.levels, Object::Graft(q, pt))
}

/// Whether a charge can be made again: its graft is found, and something is left to charge.
fn is_chargeable(config: &Config, q: u8, pt: u8, kind: Kind) -> bool
    ensures { (bytes : ℕ → List ℕ) → result ≡ (model.is_found q pt (config_of bytes config.now)
        && not (funds (accounts_of config.now.accounts) q pt kind == 0)) }
{
    is_found(config, q, pt) && config.accounts.funds(q, pt, kind) != 0
}

/// A charge is made, where it can be.
fn charge_if(config: &mut Config, q: u8, pt: u8, kind: Kind, there: bool) -> Result<bool, NoMemory>
    ensures { IfOk result (λ made. (bytes : ℕ → List ℕ) →
        led made (config_of bytes config.new) ≡ model.config_if there
        (model.with_accounts_of (charge kind q pt (accounts_of config.old.accounts))
        (config_of bytes config.old))) }
{
    if !there {
        return Ok(false);
    }
    config.accounts.charge(q, pt, kind)?;
    Ok(true)
}

/// A charge is made again; false where it can't be.
fn charge_again(config: &mut Config, q: u8, pt: u8, kind: Kind) -> Result<bool, NoMemory>
    ensures { IfOk result (λ made. (bytes : ℕ → List ℕ) →
        led made (config_of bytes config.new)
        ≡ model.effect q (effect_of (Effect.Charged pt kind)) (config_of bytes config.old)) }
{
    let there = is_chargeable(config, q, pt, kind);
    charge_if(config, q, pt, kind, there)
}

/// A graft is taken out, where it can be.
fn remove_if(config: &mut Config, q: u8, pt: u8, there: bool) -> Result<bool, NoMemory>
    ensures { IfOk result (λ made. (bytes : ℕ → List ℕ) →
        led made (config_of bytes config.new) ≡ model.config_if there
        (model.with_accounts_of (removed q pt (accounts_of config.old.accounts))
        (config_of bytes config.old))) }
{
    if !there {
        return Ok(false);
    }
    config.accounts.remove(q, pt)?;
    Ok(true)
}

/// A graft is taken out again; false where it can't be.
fn remove_again(config: &mut Config, q: u8, pt: u8) -> Result<bool, NoMemory>
    ensures { IfOk result (λ made. (bytes : ℕ → List ℕ) →
        led made (config_of bytes config.new)
        ≡ model.effect q (effect_of (Effect.Removed pt)) (config_of bytes config.old)) }
{
    let there = is_found(config, q, pt);
    remove_if(config, q, pt, there)
}

/// An ask touches its graft again.
fn ask_again(config: &mut Config, q: u8, pt: u8) -> Result<bool, NoMemory>
    ensures { IfOk result (λ there. (bytes : ℕ → List ℕ) →
        led there (config_of bytes config.new)
        ≡ model.effect q (effect_of (Effect.Asked pt)) (config_of bytes config.old)) }
{
    touch_outermost(&mut config.levels, Object::Graft(q, pt))?;
    Ok(true)
}

/// An effect of a graft of a process is made again; false where it can't be.
fn make_again(config: &mut Config, q: u8, effect: Effect) -> Result<bool, NoMemory>
    ensures { IfOk result (λ there. (bytes : ℕ → List ℕ) →
        led there (config_of bytes config.new)
        ≡ model.effect q (effect_of effect) (config_of bytes config.old)) }
{
    match effect {
        Effect::Asked(pt) => ask_again(config, q, pt),
        Effect::Charged(pt, kind) => charge_again(config, q, pt, kind),
        Effect::Removed(pt) => remove_again(config, q, pt),
    }
}

/// Effects are made again in order; false where one can't be.
pub(crate) fn make_all_again(
    config: &mut Config,
    q: u8,
    effects: &[Effect],
) -> Result<bool, NoMemory>
    ensures { IfOk result (λ there. (bytes : ℕ → List ℕ) →
        led there (config_of bytes config.new)
        ≡ model.effects_on q (map effect_of effects.now) (config_of bytes config.old)) }
{
    for effect in effects {
        if !make_again(config, q, *effect)? {
            return Ok(false);
        }
    }
    Ok(true)
}
