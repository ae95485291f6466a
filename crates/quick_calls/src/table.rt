//! `QuickCalls`.

ghost use Rattle.std.specs.Prelude.{◌≡◌, ◌<◌, true, None};
ghost use Rattle.kernel_model.specs.Policies.{lives};
ghost use Rattle.call_pieces.specs.Stores.{world_of_store, objects_of, queue_of};
ghost use Rattle.call_pieces.specs.Works.{IsDue, call_of, stage_of};
ghost use Rattle.quick_calls.specs.QuickTables.{quick_meaning};
ghost use Rattle.quick_calls.specs.QuickLaws.{laws_of_quick};

use crate::quick::Quick;
use arrayvec::ArrayVec;
use call_pieces::laws::living_are_numbered;
use call_pieces::{Calls, Disk, DiskLog, Gift, Needs, Next, Policy, Store, Work};
use kernel_model::{BLOCK_BYTES, BareCall, Point, Refusal, Rules};
use std::marker::PhantomData;

/// A table of quick calls as a table as any other: what every one of them does alike is done here.
#[derive(Clone, Copy, Drop)]
pub struct QuickCalls<T>(PhantomData<T>);

impl<T: Quick> Rules for QuickCalls<T> {
    ghost meaning = { quick_meaning T.table };

    ghost laws = { laws_of_quick T.table T.laws };
}

impl<T: Quick> Calls for QuickCalls<T> {
    type Meaning = QuickCalls<T>;

    ghost use Rattle.quick_calls.specs.Granting.{quick_has_no_early_fault};

    ghost owns = { T.table.owns };

    ghost no_early_fault = { quick_has_no_early_fault T.table T.laws };

    fn owns(call: BareCall) -> bool {
        T::owns(call)
    }

    fn early<B: Policy>(
        store: &Store<B>,
        _images: u32,
        p: u8,
        call: BareCall,
        bytes: &ArrayVec<u8, BLOCK_BYTES>,
        work: &mut Work,
    ) -> Result<(), Refusal> {
        if let Some(refusal) = T::refusal(p, call) {
            return Err(refusal);
        }
        work.set_call(p, call, bytes);
        Ok(())
    }

    fn need<B: Policy>(work: &Work, store: &Store<B>, needs: &mut Needs) {
        living_are_numbered(store);
        needs.clear();
        T::need(work, store, needs);
    }

    fn asks<B: Policy>(_work: &Work, _store: &Store<B>) -> Option<Point> {
        None
    }

    fn feed(_work: &Work) -> &[u8] {
        &[]
    }

    fn piece<B: Policy, D: Disk>(
        work: &mut Work,
        store: &mut Store<B>,
        _answer: Option<[u32; 4]>,
        _disk: &mut D,
        _log: &mut DiskLog,
        gave: &mut Gift,
    ) -> Next {
        living_are_numbered(store);
        gave.clear();
        T::piece(work, store)
    }
}
