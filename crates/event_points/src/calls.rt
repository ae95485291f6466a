//! `EventPoints`.

ghost use Rattle.kernel_model.specs.EventPoints.{is_event_call};

use crate::begin::{admit, is_event_call};
use crate::needs::{asks, feed, need};
use crate::pieces::piece;
use arrayvec::ArrayVec;
use call_pieces::{Calls, Disk, DiskLog, EventRules, Gift, Needs, Next, Policy, Store, Work};
use kernel_model::{BLOCK_BYTES, BareCall, Point, Refusal};

/// The table of event points: `serve`, and `install`, `remove`, `fund` and `bill` at points 6 to
/// 13.
#[derive(Clone, Copy, Drop)]
pub struct EventPoints;

impl Calls for EventPoints {
    type Meaning = EventRules;

    ghost use Rattle.event_points.specs.EarlyFaults.{events_have_no_early_fault};

    ghost owns = { is_event_call };

    ghost no_early_fault = { events_have_no_early_fault };

    fn owns(call: BareCall) -> bool {
        is_event_call(call)
    }

    fn early<B: Policy>(
        store: &Store<B>,
        images: u32,
        p: u8,
        call: BareCall,
        bytes: &ArrayVec<u8, BLOCK_BYTES>,
        work: &mut Work,
    ) -> Result<(), Refusal> {
        admit(store, images, p, call, bytes, work)
    }

    fn need<B: Policy>(work: &Work, store: &Store<B>, needs: &mut Needs) {
        need(work, store, needs);
    }

    fn asks<B: Policy>(work: &Work, _store: &Store<B>) -> Option<Point> {
        asks(work)
    }

    fn feed(work: &Work) -> &[u8] {
        feed(work)
    }

    fn piece<B: Policy, D: Disk>(
        work: &mut Work,
        store: &mut Store<B>,
        answer: Option<[u32; 4]>,
        _disk: &mut D,
        _log: &mut DiskLog,
        gave: &mut Gift,
    ) -> Next {
        piece(work, store, answer, gave)
    }
}
