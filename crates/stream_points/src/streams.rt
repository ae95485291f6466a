//! The pieces of stream reads, and the first of stream writes.

ghost use Rattle.std.specs.Prelude.{◌≡◌, ◌+◌, ◌<◌, ◌≤◌, ℕ, true, false, List, [], Option, Some, None, length};
ghost use Rattle.kernel_model.specs.declared.SysCall.TheVariants.{StreamRead, StreamWrite};
ghost use Rattle.kernel_model.specs.World.{Blocks};
ghost use Rattle.kernel_model.specs.Needs.{fetch_ask};
ghost use Rattle.kernel_model.specs.Laws.{IsRightAnswer};
ghost use Rattle.kernel_model.specs.Policies.{lives};
ghost use Rattle.kernel_model.specs.StreamPoints.{through, stream_changed, stream_write_asks};
ghost use Rattle.call_pieces.specs.Calls.{Knows};
ghost use Rattle.call_pieces.specs.Stores.{world_of_store, objects_of, queue_of};
ghost use Rattle.call_pieces.specs.Shared.{Serves};
ghost use Rattle.call_pieces.specs.Needing.{block_meant};
ghost use Rattle.call_pieces.specs.Fetching.{store_moment};
ghost use Rattle.call_pieces.specs.Works.{call_of, stage_of, answer_seen};
ghost use Rattle.call_pieces.specs.Matching.{comes_after, PieceMatches, is_fault, goes_on};
ghost use Rattle.stream_points.specs.Streams.{StreamContinues, taken_of, with_carried};

use arrayvec::ArrayVec;
use call_pieces::laws::living_are_numbered;
use call_pieces::{
    Access, Disk, DiskLog, Gift, Next, Policy, Store, Work, copy_body, copy_bytes_of, fetch,
    plan_block,
};
use kernel_model::{BLOCK_BYTES, Refusal};

/// What a stream read asks for: bytes off to off + len of block i of the file at a descriptor.
#[derive(Clone, Copy)]
pub(crate) struct Range {
    pub fd: u32,
    pub i: u32,
    pub off: u32,
    pub len: u32,
}

/// The first piece of a stream read: the bytes go into the call, and the open file stays as it is.
pub(crate) fn take_block<B: Policy, D: Disk>(
    work: &mut Work,
    store: &mut Store<B>,
    disk: &mut D,
    log: &mut DiskLog,
    r: Access,
) -> Next
    requires alive { lives (queue_of store.old) r.p ≡ true }
    requires call { call_of work.old ≡ StreamRead r.fd r.i r.off r.len }
    requires first { work.old.piece ≡ 0 }
    requires descriptor { r.fd < 4 }
    requires inside { r.off + r.len ≤ 512 }
    requires right { IsRightAnswer (objects_of store.old) (fetch_ask (world_of_store store.old)
        (objects_of store.old).things (block_meant store.old r.p r.fd r.i r.off r.len)) r.answer }
    requires disk { store.old.size ≡ (D.seen disk.old).size }
    requires fresh { log.old ≡ [] }
    ensures done { Serves (taken_of store.old work.old r)
        (store_moment store.old (D.seen disk.old) log.old) (store_moment store.new (D.seen disk.new) log.new)
        None result (stage_of work.new) }
    ensures gone { goes_on result ≡ true → StreamContinues work.old work.new }
{
    let plan = match plan_block(store, r.p, r.fd as u8, r.i, r.off, r.len) {
        Ok(plan) => plan,
        Err(refusal) => return Next::Fails(refusal),
    };
    match fetch(store, disk, log, r, plan) {
        Ok(f) => {
            work.carry_nothing();
            copy_bytes_of(store, f, r.off, r.len, &mut work.carried);
            work.piece = 1;
            Next::Goes
        }
        Err(_) => Next::Fails(Refusal::DiskFault),
    }
}

/// Gives what comes out of a point of process p: what its answer gives, or by default the bytes
/// that went in.
pub(crate) fn give_out<B: Policy>(
    gave: &mut Gift,
    store: &Store<B>,
    p: u8,
    answer: Option<[u32; 4]>,
    bytes: &[u8],
)
    requires process { p < 16 }
    requires few { length bytes.now ≤ 512 }
    ensures { gave.new ≡ Some (through (answer_seen store.now.ram p answer) bytes.now) }
{
    match answer {
        Some(a) => gave.give_body(store, p, a),
        None => gave.give_bytes(bytes),
    }
}

/// The first piece of a stream write: what comes out of the point goes into the call, unless the
/// file refuses.
pub(crate) fn change<B: Policy>(
    work: &mut Work,
    store: &Store<B>,
    fd: u32,
    i: u32,
    off: u32,
    answer: Option<[u32; 4]>,
) -> Next
    requires alive { lives (queue_of store.now) work.old.caller ≡ true }
    requires call { call_of work.old ≡ StreamWrite fd i off work.old.bytes.items }
    requires first { work.old.piece ≡ 0 }
    requires descriptor { fd < 4 }
    requires inside { off + length work.old.bytes.items ≤ 512 }
    requires right { IsRightAnswer (objects_of store.now) (stream_write_asks work.old.caller fd i off
        (length work.old.bytes.items) (block_meant store.now work.old.caller fd i off
        (length work.old.bytes.items))) answer }
    ensures does { (blocks : Blocks) (known : Option (List (List ℕ))) → Knows known blocks →
        PieceMatches (stream_changed (block_meant store.now work.old.caller fd i off
        (length work.old.bytes.items)) (call_of work.old) (objects_of store.now) blocks
        (through (answer_seen store.now.ram work.old.caller answer) work.old.bytes.items))
        (objects_of store.now) known None (comes_after result (stage_of work.new)) 0 }
    ensures gone { goes_on result ≡ true → StreamContinues work.old work.new }
    ensures no_fault { is_fault result ≡ false }
{
    living_are_numbered(store);
    let p = work.caller;
    let len = work.bytes.as_slice().len() as u32;
    if let Err(refusal) = store.block_of(p, fd as u8, i, off, len) {
        return Next::Fails(refusal);
    }
    carry_out(work, store, answer);
    Next::Goes
}

/// What comes out of a point goes into the call, before its second piece: what the answer gives, or
/// by default the call's bytes.
fn carry_out<B: Policy>(work: &mut Work, store: &Store<B>, answer: Option<[u32; 4]>)
    requires { work.old.caller < 16 }
    ensures { work.new ≡ with_carried
        (through (answer_seen store.now.ram work.old.caller answer) work.old.bytes.items) work.old }
{
    work.carry_nothing();
    work.piece = 1;
    match answer {
        Some(a) => copy_body(store, work.caller, a, &mut work.carried),
        None => copy_bytes(&mut work.carried, &work.bytes),
    }
}

/// The same bytes once more.
fn copy_bytes(to: &mut ArrayVec<u8, BLOCK_BYTES>, from: &ArrayVec<u8, BLOCK_BYTES>)
    ensures { to.new.items ≡ from.now.items }
{
    to.clear();
    let _ = to.try_extend_from_slice(from.as_slice());
}
