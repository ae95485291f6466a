//! The next piece of a call.

ghost use Rattle.std.specs.Prelude.{◌≡◌, ◌≤◌, true, List, Bool, [], ◌++◌, length};
ghost use Rattle.kernel_model.specs.World.{Blocks};
ghost use Rattle.kernel_model.specs.Laws.{IsRightAnswer};
ghost use Rattle.kernel_model.specs.StreamPoints.{stream_points, stream_ask, stream_piece};
ghost use Rattle.call_pieces.specs.Calls.{Knows, Made};
ghost use Rattle.call_pieces.specs.Stores.{world_of_store, objects_of, SegmentsStay};
ghost use Rattle.call_pieces.specs.Works.{IsDue, call_of, stage_of, answer_seen};
ghost use Rattle.call_pieces.specs.Matching.{comes_after, PieceMatches, PieceMatchesSome};
ghost use Rattle.call_pieces.specs.Matching.{ContinuesFrom, is_fault, goes_on};
ghost use Rattle.call_pieces.specs.Fetching.{has_failed};

use crate::streams::{change, give_out, take_block};
use call_pieces::laws::living_are_numbered;
use call_pieces::{
    Access, Disk, DiskLog, Gift, Next, Policy, Store, Work, piece as plain_piece, write,
};
use kernel_model::{BareCall, Reply};

/// The next piece of a call, with an answer to the point that it asks, or by default. The log starts
/// empty and has this piece's calls of the disk then; the gift has what the piece gave, whatever it
/// had.
pub(crate) fn piece<B: Policy, D: Disk>(
    work: &mut Work,
    store: &mut Store<B>,
    answer: Option<[u32; 4]>,
    disk: &mut D,
    log: &mut DiskLog,
    gave: &mut Gift,
) -> Next
    requires ready { IsDue stream_points (world_of_store store.old) (objects_of store.old)
        work.old.caller (stage_of work.old) }
    requires right { IsRightAnswer (objects_of store.old)
        (stream_ask (call_of work.old) (stage_of work.old) (world_of_store store.old)
        (objects_of store.old).things work.old.caller) answer }
    requires disk { store.old.size ≡ (D.seen disk.old).size }
    requires fresh { log.old ≡ [] }
    ensures does { (blocks : Blocks) (rest : List Bool) → Knows (D.seen disk.old).known blocks →
        PieceMatches (stream_piece (call_of work.old) (stage_of work.old)
        (world_of_store store.old) (objects_of store.old) blocks work.old.caller
        (answer_seen store.old.ram work.old.caller answer) (log.new ++ rest))
        (objects_of store.new) (D.seen disk.new).known gave.new
        (comes_after result (stage_of work.new)) (length log.new) }
    ensures some { PieceMatchesSome (world_of_store store.old) (λ blocks io.
        stream_piece (call_of work.old) (stage_of work.old)
        (world_of_store store.old) (objects_of store.old) blocks work.old.caller
        (answer_seen store.old.ram work.old.caller answer) io)
        (objects_of store.new) gave.new (comes_after result (stage_of work.new)) log.new }
    ensures gone { goes_on result ≡ true →
        ContinuesFrom stream_points (world_of_store store.old) (objects_of store.old)
        (objects_of store.new) work.old.caller work.new.caller (stage_of work.old)
        (stage_of work.new) }
    ensures failed { is_fault result ≡ true → has_failed log.new ≡ true }
    ensures world { world_of_store store.new ≡ world_of_store store.old }
    ensures memory { SegmentsStay store.old.ram store.new.ram }
    ensures calls { Made (D.seen disk.old) (D.seen disk.new) log.new }
    ensures few { length log.new ≤ 256 }
{
    gave.clear();
    let p = work.caller;
    living_are_numbered(store);
    match work.call {
        BareCall::StreamRead {
            descriptor: fd,
            block: i,
            offset: off,
            length: len,
        } if work.piece == 0 => {
            let access = Access {
                p,
                fd,
                i,
                off,
                len,
                answer,
            };
            take_block(work, store, disk, log, access)
        }
        BareCall::StreamRead { .. } => {
            give_out(gave, store, p, answer, work.carried.as_slice());
            Next::Ends(Reply::Plain)
        }
        BareCall::StreamWrite {
            descriptor: fd,
            block: i,
            offset: off,
        } if work.piece == 0 => { change(work, store, fd, i, off, answer) }
        BareCall::StreamWrite {
            descriptor: fd,
            block: i,
            offset: off,
        } => {
            let bytes = work.carried.as_slice();
            let len = bytes.len() as u32;
            let access = Access {
                p,
                fd,
                i,
                off,
                len,
                answer,
            };
            write(store, disk, log, access, bytes)
        }
        _ => plain_piece(work, store, answer, disk, log, gave),
    }
}
