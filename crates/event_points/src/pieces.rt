//! The next piece of a call. None makes a call of the disk.

ghost use Rattle.std.specs.Prelude.{◌≡◌, ℕ, true, false, List, Option};
ghost use Rattle.kernel_model.specs.World.{Blocks};
ghost use Rattle.kernel_model.specs.EventPoints.{event_points, event_piece};
ghost use Rattle.call_pieces.specs.Calls.{Knows};
ghost use Rattle.call_pieces.specs.Stores.{world_of_store, objects_of, SegmentsStay};
ghost use Rattle.call_pieces.specs.Works.{IsDue, call_of, stage_of, answer_seen};
ghost use Rattle.call_pieces.specs.Matching.{comes_after, PieceMatches, ContinuesFrom, is_fault, goes_on};

use crate::handlers::{install, remove};
use crate::serving::serve;
use call_pieces::laws::living_are_numbered;
use call_pieces::{Gift, Next, Policy, Store, Work, bill, fund};
use kernel_model::{BareCall, Refusal};

/// The next piece of a call, with an answer or by default. The gift has what it gave then, whatever
/// it had.
pub(crate) fn piece<B: Policy>(
    work: &mut Work,
    store: &mut Store<B>,
    answer: Option<[u32; 4]>,
    gave: &mut Gift,
) -> Next
    requires ready { IsDue event_points (world_of_store store.old) (objects_of store.old)
        work.old.caller (stage_of work.old) }
    ensures does { (blocks : Blocks) (known : Option (List (List ℕ))) → Knows known blocks →
        PieceMatches (event_piece (call_of work.old) (stage_of work.old) (objects_of store.old)
        blocks work.old.caller (answer_seen store.old.ram work.old.caller answer))
        (objects_of store.new) known gave.new (comes_after result (stage_of work.new)) 0 }
    ensures gone { goes_on result ≡ true →
        ContinuesFrom event_points (world_of_store store.old) (objects_of store.old)
        (objects_of store.new) work.old.caller work.new.caller (stage_of work.old)
        (stage_of work.new) }
    ensures no_fault { is_fault result ≡ false }
    ensures world { world_of_store store.new ≡ world_of_store store.old }
    ensures memory { SegmentsStay store.old.ram store.new.ram }
{
    gave.clear();
    let p = work.caller;
    living_are_numbered(store);
    match work.call {
        BareCall::Serve(port) => serve(work, store, port, answer, gave),
        BareCall::Install {
            point: pt,
            slot: image,
            limit,
        } => install(store, p, pt, image, limit),
        BareCall::Remove(pt) => remove(store, p, pt),
        BareCall::Fund {
            point: pt,
            kind,
            amount: n,
        } => fund(store, p, pt, kind, n),
        BareCall::Bill(pt) => bill(store, p, pt),
        _ => Next::Fails(Refusal::BadPoint),
    }
}
