//! What a kernel runs: a table of calls.

use crate::{Next, piece};
use arrayvec::ArrayVec;
use call_laws::PlainRules;
use call_needs::{Gift, Needs, TOP_POINT, Work, asks, early_upto, need};
use kernel_model::{BLOCK_BYTES, BareCall, Point, Refusal, Rules};
use kernel_state::{Disk, DiskLog, Policy, Store};

/// A table of system calls, each of which is refused at once or is in flight until a piece ends it.
pub trait Calls {
    ghost use Rattle.std.specs.Prelude.{◌≡◌, ℕ, ◌<◌, ◌≤◌, ◌+◌, true, List, Bool, [], ◌∷◌, ◌++◌, None, length};
    ghost use Rattle.std.specs.Prelude.{IfOk, IfErr, IfSome};
    ghost use Rattle.kernel_model.specs.World.{World, ImageTable, Blocks};
    ghost use Rattle.kernel_model.specs.Objects.{Objects};
    ghost use Rattle.kernel_model.specs.declared.SysCall.{SysCall};
    ghost use Rattle.kernel_model.specs.Laws.{IsRightAnswer};
    ghost use Rattle.kernel_model.specs.Bare.{call_with};
    ghost use Rattle.kernel_model.specs.Policies.{lives};
    ghost use Rattle.kernel_state.specs.Calls.{Knows, Made};
    ghost use Rattle.kernel_state.specs.Stores.{world_of_store, objects_of, queue_of, SegmentsStay};
    ghost use Rattle.call_needs.specs.Fetching.{has_failed};
    ghost use Rattle.kernel_model.specs.ImageMask.{TellsImages};
    ghost use Rattle.call_pieces.specs.EarlyFaults.{HasNoEarlyFault};
    ghost use Rattle.call_pieces.specs.Taking.{taking};
    ghost use Rattle.call_needs.specs.Works.{IsDue, stage_of, stage_granted, answer_seen};
    ghost use Rattle.call_pieces.specs.Matching.{PieceMatches, PieceMatchesSome, ContinuesFrom};
    ghost use Rattle.call_pieces.specs.Matching.{comes_after, is_fault, goes_on};

    /// What the calls mean.
    type Meaning: Rules;

    /// The calls that are this table's own.
    ghost owns: { SysCall → Bool };

    /// Whether a call is this table's own, whatever bytes it has.
    fn owns(call: BareCall) -> bool
        ensures { (bytes : List ℕ) → result ≡ owns (call_with call bytes) };

    /// A call of process p, which lives, before its first piece; or its refusal of least number
    /// that needs no object, and the work stays as it was. Bit k of `images` tells whether image k
    /// is loaded.
    fn early<B: Policy>(
        store: &Store<B>,
        images: u32,
        p: u8,
        call: BareCall,
        bytes: &ArrayVec<u8, BLOCK_BYTES>,
        work: &mut Work,
    ) -> Result<(), Refusal>
        requires alive { lives (queue_of store.now) p ≡ true }
        ensures value { (table : ImageTable) → TellsImages images table →
            stage_granted (stage_of work.new) result
            ≡ Self.Meaning.meaning.early (world_of_store store.now) table p
            (call_with call bytes.now.items) }
        ensures ready { IfOk result (λ _. IsDue Self.Meaning.meaning (world_of_store store.now)
            (objects_of store.now) work.new.caller (stage_of work.new)) }
        ensures caller { IfOk result (λ _. work.new.caller ≡ p) }
        ensures few { IfOk result (λ _. Self.Meaning.meaning.left (world_of_store store.now)
            (objects_of store.now) work.new.caller (stage_of work.new) ≤ 15) }
        ensures kept { IfErr result (λ _. work.new ≡ work.old) };

    /// The objects that the next piece of a call needs, in order. They take the place of what the
    /// list had.
    fn need<B: Policy>(work: &Work, store: &Store<B>, needs: &mut Needs)
        requires ready { IsDue Self.Meaning.meaning (world_of_store store.now)
            (objects_of store.now) work.now.caller (stage_of work.now) }
        ensures { needs.new ≡ Self.Meaning.meaning.need (world_of_store store.now)
            (objects_of store.now) work.now.caller (stage_of work.now) };

    /// The user lock that the next piece of a call takes, if that is all that it needs, whatever the
    /// store. None is always correct: the kernel then computes the needs of each waiting call.
    #[inline(always)]
    fn lock_taken(work: &Work) -> Option<u32>
        ensures { IfSome result (λ u. (v : World) (s : Objects) (p : ℕ) →
            Self.Meaning.meaning.need v s p (stage_of work.now) ≡ taking u ∷ []) }
    {
        None
    }

    /// The point that the next piece of a call asks, with its arguments.
    fn asks<B: Policy>(work: &Work, store: &Store<B>) -> Option<Point>
        requires ready { IsDue Self.Meaning.meaning (world_of_store store.now)
            (objects_of store.now) work.now.caller (stage_of work.now) }
        ensures { result ≡ Self.Meaning.meaning.asks (world_of_store store.now)
            (objects_of store.now) work.now.caller (stage_of work.now) };

    /// The bytes that the graft is fed which the next piece of a call asks.
    fn feed(work: &Work) -> &[u8]
        ensures value { result.now ≡ Self.Meaning.meaning.feed (stage_of work.now) }
        ensures few { length result.now ≤ 512 };

    /// The next piece of a call, with an answer that the point accepts which it asks, or by
    /// default. What an answer gives stands in memory still (`copy_body`). The log starts empty and
    /// has this piece's calls of the disk then; the gift has what the piece gave, whatever it had.
    fn piece<B: Policy, D: Disk>(
        work: &mut Work,
        store: &mut Store<B>,
        answer: Option<[u32; 4]>,
        disk: &mut D,
        log: &mut DiskLog,
        gave: &mut Gift,
    ) -> Next
        requires ready { IsDue Self.Meaning.meaning (world_of_store store.old)
            (objects_of store.old) work.old.caller (stage_of work.old) }
        requires right { IsRightAnswer (objects_of store.old)
            (Self.Meaning.meaning.asks (world_of_store store.old) (objects_of store.old)
            work.old.caller (stage_of work.old)) answer }
        requires disk { store.old.size ≡ (D.seen disk.old).size }
        requires fresh { log.old ≡ [] }
        ensures does { (images : ImageTable) (blocks : Blocks) (rest : List Bool) →
            Knows (D.seen disk.old).known blocks →
            PieceMatches (Self.Meaning.meaning.piece (world_of_store store.old) images
            (objects_of store.old) blocks work.old.caller (stage_of work.old)
            (answer_seen store.old.ram work.old.caller answer) (log.new ++ rest))
            (objects_of store.new) (D.seen disk.new).known gave.new
            (comes_after result (stage_of work.new)) (length log.new) }
        ensures some { (images : ImageTable) →
            PieceMatchesSome (world_of_store store.old) (λ blocks io.
            Self.Meaning.meaning.piece (world_of_store store.old) images
            (objects_of store.old) blocks work.old.caller (stage_of work.old)
            (answer_seen store.old.ram work.old.caller answer) io)
            (objects_of store.new) gave.new
            (comes_after result (stage_of work.new)) log.new }
        ensures gone { goes_on result ≡ true →
            ContinuesFrom Self.Meaning.meaning (world_of_store store.old) (objects_of store.old)
            (objects_of store.new) work.old.caller work.new.caller (stage_of work.old)
            (stage_of work.new) }
        ensures failed { is_fault result ≡ true → has_failed log.new ≡ true }
        ensures world { world_of_store store.new ≡ world_of_store store.old }
        ensures memory { SegmentsStay store.old.ram store.new.ram }
        ensures calls { Made (D.seen disk.old) (D.seen disk.new) log.new }
        ensures few { length log.new ≤ 256 };

    /// No call is refused at once because the disk failed.
    ghost no_early_fault: { HasNoEarlyFault Self.Meaning.meaning };
}

/// The table of the system calls.
#[derive(Clone, Copy, Drop)]
pub struct Plain;

impl Calls for Plain {
    type Meaning = PlainRules;

    ghost use Rattle.std.specs.Prelude.{true};
    ghost use Rattle.call_pieces.specs.EarlyFaults.{plain_has_no_early_fault};

    ghost owns = { λ c. true };

    ghost no_early_fault = { plain_has_no_early_fault 5 };

    fn owns(_call: BareCall) -> bool {
        true
    }

    fn early<B: Policy>(
        store: &Store<B>,
        images: u32,
        p: u8,
        call: BareCall,
        bytes: &ArrayVec<u8, BLOCK_BYTES>,
        work: &mut Work,
    ) -> Result<(), Refusal> {
        early_upto::<TOP_POINT, B>(store, images, p, call, bytes, work)
    }

    fn need<B: Policy>(work: &Work, store: &Store<B>, needs: &mut Needs) {
        need(work, store, needs);
    }

    #[inline(always)]
    fn lock_taken(work: &Work) -> Option<u32> {
        match work.call {
            BareCall::TakeLock(u) => Some(u),
            _ => None,
        }
    }

    fn asks<B: Policy>(work: &Work, store: &Store<B>) -> Option<Point> {
        asks(work, store)
    }

    fn feed(_work: &Work) -> &[u8] {
        &[]
    }

    #[inline(always)]
    fn piece<B: Policy, D: Disk>(
        work: &mut Work,
        store: &mut Store<B>,
        answer: Option<[u32; 4]>,
        disk: &mut D,
        log: &mut DiskLog,
        gave: &mut Gift,
    ) -> Next {
        piece(work, store, answer, disk, log, gave)
    }
}
