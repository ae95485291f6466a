//! The levels of one call move: a level begins, an instruction, the drop of a level.

ghost use Rattle.std.specs.Prelude.{◌≡◌, ◌<◌, [], length};
ghost use Rattle.kernel_model.specs.History.{begin_at};
ghost use Rattle.kernel_model.specs.GraftStep.{micro};
ghost use Rattle.kernel_model.specs.Levels.{drop_level as level_dropped};
ghost use Rattle.graft_levels.specs.Chains.{HasAnswer};
ghost use Rattle.call_pieces.specs.Stores.{objects_of};
ghost use Rattle.placed_laws.specs.Placed.{placed_config, placed_levels};
ghost use Rattle.placed_laws.specs.Undone.{LeadsToStoreBelow};
ghost use Rattle.running_kernel.specs.Sound.{HasProcess, IsSoundFor};
ghost use Rattle.running_kernel.specs.Views.{placed_of, chain_of};
ghost use Rattle.kernel_steps.specs.Moves.{come_to, fed_by, needed_by, HasGraft, Moved};

use crate::entering::begin_graft;
use call_pieces::{Calls, Policy};
use graft_calls::instruction;
use kernel_model::{Cause, Micro, Point};
use running_kernel::Running;

/// Level d of process p's call is dropped, counted from the outermost: those further inward end
/// with it. The store is what it was below that level, without the level's graft.
pub fn fall<C: Calls, B: Policy>(running: &mut Running<C, B>, p: u8, d: u8, cause: Cause) -> Micro
    requires at { HasProcess running.old p }
    requires level { d < length (chain_of running.old p).levels }
    ensures said { let x = placed_of running.old in
        result ≡ (level_dropped x.world x.objects (placed_levels x p) d cause).said }
    ensures config { let x = placed_of running.old in
        placed_of running.new ≡ come_to p
        (level_dropped x.world x.objects (placed_levels x p) d cause).config x }
    ensures below { LeadsToStoreBelow C.Meaning.meaning (placed_of running.old) p d
        (objects_of running.new.store) }
    ensures moved { Moved running.old running.new p }
{
    let flight = &mut running.calls[p as usize];
    flight
        .chain
        .drop_level(p, &mut running.store, &mut running.locks, d, cause)
}

/// One instruction of the innermost level of process p's call, whatever another call holds. What an
/// answer gives stands in memory then.
pub fn instruct<C: Calls, B: Policy>(running: &mut Running<C, B>, p: u8) -> Micro
    requires { HasProcess running.old p }
    ensures said { let x = placed_of running.old in
        result ≡ (micro x.world x.images p (placed_config x p)).said }
    ensures config { let x = placed_of running.old in
        placed_of running.new ≡ come_to p (micro x.world x.images p (placed_config x p)).config x }
    ensures answer { HasAnswer result running.new.store.ram p
        (placed_levels (placed_of running.old) p) }
    ensures moved { Moved running.old running.new p }
{
    let flight = &mut running.calls[p as usize];
    instruction(
        &mut flight.chain,
        p,
        &mut running.store,
        &mut running.locks,
        &running.images,
    )
}

/// The call of process p enters a graft, where its piece asks a point at which one stands: level 0
/// holds what the piece needs, and is fed the piece's bytes.
pub(crate) fn enter<C: Calls, B: Policy>(running: &mut Running<C, B>, p: u8, at: &Point)
    requires at { IsSoundFor C.Meaning.meaning running.old p }
    requires none { (chain_of running.old p).levels ≡ [] }
    requires graft { HasGraft running.old.store at.now }
    ensures config { let x = placed_of running.old in
        placed_of running.new ≡ come_to p (begin_at x.images x.objects p
        (needed_by C.Meaning.meaning x.world x.objects p (x.call p))
        (fed_by C.Meaning.meaning (x.call p)) at.now) x }
    ensures moved { Moved running.old running.new p }
{
    let flight = &mut running.calls[p as usize];
    begin_graft::<C, B>(
        flight,
        p,
        &mut running.store,
        &mut running.locks,
        &running.images,
        at,
    );
}
