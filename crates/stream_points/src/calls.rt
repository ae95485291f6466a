//! `StreamPoints`.

ghost use Rattle.kernel_model.specs.StreamPoints.{is_stream_call};

use crate::begin::{admit, is_stream_call};
use crate::needs::{asks, feed, need};
use crate::pieces::piece;
use arrayvec::ArrayVec;
use call_pieces::{Calls, Disk, DiskLog, Gift, Needs, Next, Policy, Store, StreamRules, Work};
use kernel_model::{BLOCK_BYTES, BareCall, Point, Refusal};

/// The table of stream points: `sread` and `swrite`, and `install`, `remove`, `fund` and `bill` at
/// points 14 and 15.
#[derive(Clone, Copy, Drop)]
pub struct StreamPoints;

impl Calls for StreamPoints {
    type Meaning = StreamRules;

    ghost use Rattle.stream_points.specs.EarlyFaults.{streams_have_no_early_fault};

    ghost owns = { is_stream_call };

    ghost no_early_fault = { streams_have_no_early_fault };

    fn owns(call: BareCall) -> bool {
        is_stream_call(call)
    }

    fn early<B: Policy>(
        store: &Store<B>,
        images: u32,
        p: u8,
        call: BareCall,
        bytes: &ArrayVec<u8, BLOCK_BYTES>,
        work: &mut Work,
    ) -> Result<(), Refusal> {
        admit(store, images, p, call, bytes, work)
    }

    fn need<B: Policy>(work: &Work, store: &Store<B>, needs: &mut Needs) {
        need(work, store, needs);
    }

    fn asks<B: Policy>(work: &Work, store: &Store<B>) -> Option<Point> {
        asks(work, store)
    }

    fn feed(work: &Work) -> &[u8] {
        feed(work)
    }

    fn piece<B: Policy, D: Disk>(
        work: &mut Work,
        store: &mut Store<B>,
        answer: Option<[u32; 4]>,
        disk: &mut D,
        log: &mut DiskLog,
        gave: &mut Gift,
    ) -> Next {
        piece(work, store, answer, disk, log, gave)
    }
}
