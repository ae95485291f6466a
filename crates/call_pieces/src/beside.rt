//! Two tables of calls as one.

ghost use Rattle.std.specs.Prelude.{◌||◌};
ghost use Rattle.kernel_model.specs.Beside.{beside};
ghost use Rattle.call_laws.specs.BesideLaws.{laws_of_beside};

use crate::{Calls, Next};
use arrayvec::ArrayVec;
use call_needs::{Gift, Needs, Work};
use kernel_model::{BLOCK_BYTES, BareCall, Point, Refusal, Rules};
use kernel_state::{Disk, DiskLog, Policy, Store};
use std::marker::PhantomData;

/// Two tables of calls as one: the calls that `A` owns are `A`'s, all others `B`'s.
///
/// Who owns a call is asked where its piece is done, so that a table within another takes no call of
/// its own.
#[derive(Clone, Copy, Drop)]
pub struct Beside<A, B>(PhantomData<(A, B)>);

impl<A: Calls, B: Calls> Rules for Beside<A, B> {
    ghost meaning = { beside A.owns A.Meaning.meaning B.Meaning.meaning };

    ghost laws = { laws_of_beside A.owns A.Meaning.meaning B.Meaning.meaning A.Meaning.laws B.Meaning.laws };
}

impl<A: Calls, B: Calls> Calls for Beside<A, B> {
    type Meaning = Beside<A, B>;

    ghost use Rattle.call_pieces.specs.EarlyFaults.{one_has_no_early_fault};

    ghost owns = { λ c. A.owns c || B.owns c };

    ghost no_early_fault = { λ v images p c. one_has_no_early_fault (A.owns c)
        (A.Meaning.meaning.early v images p c) (B.Meaning.meaning.early v images p c)
        (A.no_early_fault v images p c) (B.no_early_fault v images p c) };

    #[inline(always)]
    fn owns(call: BareCall) -> bool {
        A::owns(call) || B::owns(call)
    }

    fn early<P: Policy>(
        store: &Store<P>,
        images: u32,
        p: u8,
        call: BareCall,
        bytes: &ArrayVec<u8, BLOCK_BYTES>,
        work: &mut Work,
    ) -> Result<(), Refusal> {
        if A::owns(call) {
            A::early(store, images, p, call, bytes, work)
        } else {
            B::early(store, images, p, call, bytes, work)
        }
    }

    fn need<P: Policy>(work: &Work, store: &Store<P>, needs: &mut Needs) {
        if A::owns(work.call) {
            A::need(work, store, needs);
        } else {
            B::need(work, store, needs);
        }
    }

    #[inline(always)]
    fn lock_taken(work: &Work) -> Option<u32> {
        if A::owns(work.call) {
            A::lock_taken(work)
        } else {
            B::lock_taken(work)
        }
    }

    fn asks<P: Policy>(work: &Work, store: &Store<P>) -> Option<Point> {
        if A::owns(work.call) {
            A::asks(work, store)
        } else {
            B::asks(work, store)
        }
    }

    fn feed(work: &Work) -> &[u8] {
        if A::owns(work.call) {
            A::feed(work)
        } else {
            B::feed(work)
        }
    }

    #[inline(always)]
    fn piece<P: Policy, D: Disk>(
        work: &mut Work,
        store: &mut Store<P>,
        answer: Option<[u32; 4]>,
        disk: &mut D,
        log: &mut DiskLog,
        gave: &mut Gift,
    ) -> Next {
        if A::owns(work.call) {
            A::piece(work, store, answer, disk, log, gave)
        } else {
            B::piece(work, store, answer, disk, log, gave)
        }
    }
}
