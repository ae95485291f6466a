//! A table of calls whose cells are high-water marks: an example of calls of one's own beside the
//! plain ones.
#![tactic(auto)]

ghost use Rattle.high_marks.specs.HighMarks.{high_marks};
ghost use Rattle.high_marks.specs.MarkLaws.{laws_of_high_marks};

mod beside;
mod marks;

use arrayvec::ArrayVec;
pub use beside::{MarkedCalls, poke_once};
use call_pieces::{
    Calls, Disk, DiskLog, Gift, Needs, Next, Policy, Store, TOP_POINT, Work, asks, early_upto,
    need, piece,
};
use kernel_model::{BLOCK_BYTES, BareCall, Point, Refusal, Rules};
use marks::{as_plain, told};

/// The table of high marks: `poke` raises a cell and never lowers it, and answers what it is then;
/// `peek` tells it.
#[derive(Clone, Copy, Drop)]
pub struct HighMarks;

impl Rules for HighMarks {
    ghost meaning = { high_marks };

    ghost laws = { laws_of_high_marks };
}

impl Calls for HighMarks {
    type Meaning = HighMarks;

    ghost use Rattle.call_pieces.specs.EarlyFaults.{plain_has_no_early_fault};
    ghost use Rattle.high_marks.specs.HighMarks.{is_mark_call};

    ghost owns = { is_mark_call };

    ghost no_early_fault = { plain_has_no_early_fault 5 };

    fn owns(call: BareCall) -> bool {
        matches!(call, BareCall::Poke(_, _) | BareCall::Peek(_))
    }

    fn early<B: Policy>(
        store: &Store<B>,
        images: u32,
        p: u8,
        call: BareCall,
        bytes: &ArrayVec<u8, BLOCK_BYTES>,
        work: &mut Work,
    ) -> Result<(), Refusal> {
        early_upto::<TOP_POINT, B>(store, images, p, call, bytes, work)
    }

    fn need<B: Policy>(work: &Work, store: &Store<B>, needs: &mut Needs) {
        need(work, store, needs);
    }

    fn asks<B: Policy>(work: &Work, store: &Store<B>) -> Option<Point> {
        asks(work, store)
    }

    fn feed(_work: &Work) -> &[u8] {
        &[]
    }

    fn piece<B: Policy, D: Disk>(
        work: &mut Work,
        store: &mut Store<B>,
        answer: Option<[u32; 4]>,
        disk: &mut D,
        log: &mut DiskLog,
        gave: &mut Gift,
    ) -> Next {
        let call = as_plain(work, store);
        work.call = call;
        let next = piece(work, store, answer, disk, log, gave);
        told(call, next)
    }
}
