//! Calls in flight, and where their histories lead.

ghost use Rattle.std.specs.Prelude.{◌≡◌, ◌==◌, ◌++◌, ℕ, [], false, Option, Some, None};
ghost use Rattle.std.specs.Prelude.{IfOk, OnOk, cond, map, option_map, slice_index_or, length};
ghost use Rattle.kernel_model.specs.AllCalls.{all_calls};
ghost use Rattle.kernel_model.specs.Kernel as model;
ghost use Rattle.graft_loader.specs.Slots.{table_of};
ghost use Rattle.audit_state.specs.Worlds.{world_of};
ghost use Rattle.audit_needs.specs.Stages.{stage_of};
ghost use Rattle.audit_pieces.specs.Stores.{objects_of, page_of};
ghost use Rattle.audit_replay.specs.Traces.{mark_of, trace_of};
ghost use Rattle.audit_kernel.specs.Runs.{call_of, call_at, leads, IsKept, AreAllKept};

use crate::{Flight, History, Setting};
use audit_levels::Place;
use audit_needs::asks::asks;
use audit_needs::needs::{feed, needs};
use audit_needs::{Scene, Stage};
use audit_pieces::Store;
use audit_replay::{Mark, Trace, replay};
use audit_state::policies::{byte_of, word_of};
use kernel_model::{Need, NoMemory, Point};
use std::alloc::Global;
use std::mem::replace;

/// How many objects most pieces need at most.
const USUAL_NEEDS: usize = 8;

/// The call of a process is taken out, if one is in flight.
pub(crate) fn take(flights: &mut Vec<Option<Flight>>, p: u8) -> Option<Flight>
    ensures took { result ≡ slice_index_or flights.old.items p None }
    ensures left { (q : ℕ) → slice_index_or flights.new.items q None
        ≡ cond (q == p) None (slice_index_or flights.old.items q None) }
    ensures size { length flights.new.items ≡ length flights.old.items }
{
    let i = usize::from(p);
    if i < flights.len() {
        replace(&mut flights[i], None)
    } else {
        None
    }
}

/// A process gets a call, or has none any more. There are places for processes 0 to 15.
pub(crate) fn put(
    flights: &mut Vec<Option<Flight>>,
    p: u8,
    flight: Option<Flight>,
) -> Result<(), NoMemory>
    ensures put { OnOk result ((q : ℕ) → slice_index_or flights.new.items q None
        ≡ cond (q == p) flight (slice_index_or flights.old.items q None)) }
    ensures size { OnOk result (length flights.new.items ≡ length flights.old.items) }
{
    let i = usize::from(p);
    if i < flights.len() {
        flights[i] = flight;
        Ok(())
    } else {
        Err(NoMemory)
    }
}

/// No needs yet, with room for those of most pieces.
pub(crate) fn no_needs(alloc: Global) -> Result<Vec<Need>, NoMemory>
    ensures { IfOk result (λ needs. needs.items ≡ []) }
{
    match Vec::with_capacity(alloc, USUAL_NEEDS) {
        Ok(needs) => Ok(needs),
        Err(_) => Err(NoMemory),
    }
}

/// The objects that the next piece of a call needs, behind those that the list has.
#[tactic(auto, unfolding(audit_pieces::specs::Stores::objects_of))]
pub(crate) fn put_base(
    base: &mut Vec<Need>,
    setting: &Setting,
    store: &Store,
    p: u8,
    stage: &Stage,
) -> Result<(), NoMemory>
    ensures { OnOk result (base.new.items ≡ base.old.items
        ++ all_calls.need (world_of setting.now.world) (objects_of store.now) p
        (stage_of stage.now)) }
{
    let scene = Scene {
        alloc: setting.alloc,
        world: &setting.world,
        accounts: &store.accounts,
        things: &store.things,
    };
    let done = needs(base, &scene, p, stage);
    let Scene {
        alloc: _alloc,
        world: _world,
        accounts: _accounts,
        things: _things,
    } = scene;
    match done {
        Ok(()) => Ok(()),
        Err(_) => Err(NoMemory),
    }
}

/// The objects that the next piece of a call needs.
pub(crate) fn base_of(
    setting: &Setting,
    store: &Store,
    p: u8,
    stage: &Stage,
) -> Result<Vec<Need>, NoMemory>
    ensures { IfOk result (λ base. base.items ≡ all_calls.need (world_of setting.now.world)
        (objects_of store.now) p (stage_of stage.now)) }
{
    let mut base = no_needs(setting.alloc)?;
    put_base(&mut base, setting, store, p, stage)?;
    Ok(base)
}

/// The point that the next piece of a call asks.
#[tactic(auto, unfolding(audit_pieces::specs::Stores::objects_of))]
pub(crate) fn point_of(
    setting: &Setting,
    store: &Store,
    p: u8,
    stage: &Stage,
) -> Result<Option<Point>, NoMemory>
    ensures { IfOk result (λ point. point ≡ all_calls.asks (world_of setting.now.world)
        (objects_of store.now) p (stage_of stage.now)) }
{
    let scene = Scene {
        alloc: setting.alloc,
        world: &setting.world,
        accounts: &store.accounts,
        things: &store.things,
    };
    let asked = asks(&scene, p, stage);
    let Scene {
        alloc: _alloc,
        world: _world,
        accounts: _accounts,
        things: _things,
    } = scene;
    asked
}

/// Where a history leads, which is run again from what is committed.
#[tactic(auto, unfolding(audit_pieces::specs::Stores::objects_of))]
pub(crate) fn lead(
    setting: &Setting,
    store: &Store,
    p: u8,
    stage: &Stage,
    marks: &[Mark],
) -> Result<Option<Trace>, NoMemory>
    ensures { IfOk result (λ t. (n : ℕ) → option_map (trace_of (page_of store.now)) t
        ≡ leads (world_of setting.now.world) (table_of setting.now.images) (objects_of store.now) p
        (Some (record {
          number = n;
          stage = stage_of stage.now;
          marks = Some (map mark_of marks.now);
        }))) }
{
    let place = Place {
        alloc: setting.alloc,
        world: &setting.world,
        images: &setting.images,
        process: p,
    };
    let base = base_of(setting, store, p, stage)?;
    let point = point_of(setting, store, p, stage)?;
    let fed = feed(stage);
    replay(
        &place,
        &store.accounts,
        &store.things,
        base.as_slice(),
        fed,
        &point,
        marks,
    )
}

/// A call in a graft, whose history is run again.
pub(crate) fn in_graft(
    setting: &Setting,
    store: &Store,
    p: u8,
    number: u32,
    stage: Stage,
    marks: Vec<Mark>,
) -> Result<Flight, NoMemory>
    ensures call { IfOk result (λ f. call_of f ≡ record {
      number = number;
      stage = stage_of stage;
      marks = Some (map mark_of marks.items);
    }) }
    ensures kept { IfOk result (λ f. IsKept setting.now store.now p (Some f)) }
{
    let trace = lead(setting, store, p, &stage, &marks)?;
    Ok(Flight {
        number,
        stage,
        graft: Some(History { marks, trace }),
    })
}

/// A call, whose history is run again, if it has one.
fn again(setting: &Setting, store: &Store, p: u8, flight: Flight) -> Result<Flight, NoMemory>
    ensures call { IfOk result (λ f. call_of f ≡ call_of flight) }
    ensures kept { IfOk result (λ f. IsKept setting.now store.now p (Some f)) }
{
    let Flight {
        number,
        stage,
        graft,
    } = flight;
    match graft {
        None => Ok(Flight {
            number,
            stage,
            graft: None,
        }),
        Some(history) => {
            let flight = in_graft(setting, store, p, number, stage, history.marks)?;
            Ok(flight)
        }
    }
}

/// Whether the call of a process has a history.
pub(crate) fn has_history(flights: &[Option<Flight>], p: u8) -> bool
    ensures { result ≡ model.has_level (call_at flights.now p) }
{
    match flights.get(usize::from(p)) {
        Some(Some(flight)) => flight.graft.is_some(),
        _ => false,
    }
}

/// The call of a process is taken out of its place and put back with its history run again, if it
/// has one.
fn replace_call(
    setting: &Setting,
    store: &Store,
    flights: &mut Vec<Option<Flight>>,
    p: u8,
) -> Result<(), NoMemory>
    ensures call { OnOk result ((q : ℕ) →
        call_at flights.new.items q ≡ call_at flights.old.items q) }
    ensures kept { OnOk result (IsKept setting.now store.now p
        (slice_index_or flights.new.items p None)) }
    ensures others { OnOk result ((q : ℕ) → (q == p) ≡ false →
        slice_index_or flights.new.items q None ≡ slice_index_or flights.old.items q None) }
    ensures size { OnOk result (length flights.new.items ≡ length flights.old.items) }
{
    match take(flights, p) {
        None => Ok(()),
        Some(flight) => {
            let flight = again(setting, store, p, flight)?;
            put(flights, p, Some(flight))?;
            Ok(())
        }
    }
}

/// The history of the call of a process is run again, if it has one. A call without one stays in
/// its place.
fn run_again(
    setting: &Setting,
    store: &Store,
    flights: &mut Vec<Option<Flight>>,
    p: u8,
) -> Result<(), NoMemory>
    ensures call { OnOk result ((q : ℕ) →
        call_at flights.new.items q ≡ call_at flights.old.items q) }
    ensures kept { OnOk result (IsKept setting.now store.now p
        (slice_index_or flights.new.items p None)) }
    ensures others { OnOk result ((q : ℕ) → (q == p) ≡ false →
        slice_index_or flights.new.items q None ≡ slice_index_or flights.old.items q None) }
    ensures size { OnOk result (length flights.new.items ≡ length flights.old.items) }
{
    if has_history(flights, p) {
        replace_call(setting, store, flights, p)?;
        Ok(())
    } else {
        Ok(())
    }
}

/// The histories of all calls are run again.
pub(crate) fn run_all_again(
    setting: &Setting,
    store: &Store,
    flights: &mut Vec<Option<Flight>>,
) -> Result<(), NoMemory>
    ensures call { OnOk result ((q : ℕ) →
        call_at flights.new.items q ≡ call_at flights.old.items q) }
    ensures kept { OnOk result (AreAllKept setting.now store.now flights.new.items) }
{
    for i in 0..flights.len() {
        let p = byte_of(word_of(i)?)?;
        run_again(setting, store, flights, p)?;
    }
    Ok(())
}
