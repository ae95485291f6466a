//! The pieces of a read: the block itself, how far to read ahead, and each block ahead.

ghost use Rattle.std.specs.Prelude.{◌≡◌, ◌+◌, ◌<◌, ◌≤◌, true, Some, None, slice_index, IfSome};
ghost use Rattle.kernel_model.specs.World.{blocks_of};
ghost use Rattle.kernel_model.specs.declared.SysCall.TheVariants.{Read};
ghost use Rattle.kernel_model.specs.Policies.{ahead_default};
ghost use Rattle.kernel_model.specs.FilePieces.{ahead_by};
ghost use Rattle.kernel_model.specs.Laws.{IsRightAnswer};
ghost use Rattle.kernel_model.specs.Pieces.{piece_fits};
ghost use Rattle.kernel_model.specs.Needs.{read_ask};
ghost use Rattle.kernel_model.specs.Sound.{IsSoundFile};
ghost use Rattle.kernel_state.specs.Places.{HasDescriptor};
ghost use Rattle.kernel_state.specs.Stores.{world_of_store, objects_of, queue_of, policies_of};
ghost use Rattle.call_needs.specs.Fetching.{NamesFrame, store_moment};
ghost use Rattle.call_pieces.specs.Shared.{AccessReady, ComesAtOnce, Serves, read_stage, read_of};
ghost use Rattle.call_pieces.specs.Shared.{first_of, second_of, later_of};
ghost use Rattle.call_pieces.specs.Matching.{ReadContinues, goes_on};

use crate::Next;
use call_needs::{Access, Gift, fetch, fetch_ahead, plan_ahead, plan_block};
use kernel_model::{OpenRow, Refusal, Reply};
use kernel_state::{Ahead, Disk, DiskLog, Policy, Store};

/// The next piece of a read.
#[inline(always)]
pub(crate) fn read<B: Policy, D: Disk>(
    piece: &mut u8,
    store: &mut Store<B>,
    disk: &mut D,
    log: &mut DiskLog,
    gave: &mut Gift,
    r: Access,
) -> Next
    requires ready { AccessReady (store_moment store.old (D.seen disk.old) log.old) r }
    requires fits { piece_fits (Read r.fd r.i r.off r.len) piece.old (objects_of store.old).things
        r.p ≡ true }
    requires right { IsRightAnswer (objects_of store.old) (read_ask piece.old
        (world_of_store store.old) (objects_of store.old).things r.p r.fd r.i r.off r.len)
        r.answer }
    requires nothing { gave.old ≡ None }
    ensures done { Serves (read_of store.old piece.old r)
        (store_moment store.old (D.seen disk.old) log.old) (store_moment store.new (D.seen disk.new) log.new)
        gave.new result (read_stage r piece.new) }
    ensures next { goes_on result ≡ true → ReadContinues piece.old piece.new
        ((objects_of store.old).things.file r.p r.fd)
        ((objects_of store.new).things.file r.p r.fd) }
{
    let Some(opened) = store.file(r.p, r.fd as u8) else {
        return Next::Fails(Refusal::BadFd);
    };
    match *piece {
        0 => {
            *piece = 1;
            first(store, disk, log, gave, r, opened)
        }
        1 => {
            *piece = 2;
            second(store, r, opened)
        }
        _ => later(store, disk, log, r, opened),
    }
}

/// The first piece: the block is fetched, and its bytes are given.
fn first<B: Policy, D: Disk>(
    store: &mut Store<B>,
    disk: &mut D,
    log: &mut DiskLog,
    gave: &mut Gift,
    r: Access,
    opened: OpenRow,
) -> Next
    requires ready { AccessReady (store_moment store.old (D.seen disk.old) log.old) r }
    requires right { NamesFrame store.old r.answer }
    requires file { (objects_of store.old).things.file r.p r.fd ≡ Some opened }
    requires nothing { gave.old ≡ None }
    ensures done { Serves (first_of store.old r opened)
        (store_moment store.old (D.seen disk.old) log.old) (store_moment store.new (D.seen disk.new) log.new)
        gave.new result (read_stage r 1) }
    ensures next { goes_on result ≡ true →
        ReadContinues 0 1 (Some opened) ((objects_of store.new).things.file r.p r.fd) }
{
    let plan = match plan_block(store, r.p, r.fd as u8, r.i, r.off, r.len) {
        Ok(plan) => plan,
        Err(refusal) => return Next::Fails(refusal),
    };
    let Ok(f) = fetch(store, disk, log, r, plan) else {
        return Next::Fails(Refusal::DiskFault);
    };
    gave.give(store, f, r.off, r.len);
    store.read_on(r.p, r.fd as u8, r.i);
    Next::Goes
}

/// What is to be read ahead of an open file: what the answer says, or by default the policy.
fn reach<B: Policy>(store: &Store<B>, answer: Option<[u32; 4]>, opened: &OpenRow) -> Ahead
    requires opened { IsSoundFile (world_of_store store.now) opened.now }
    requires right { IfSome answer (λ a. (slice_index a 1 ≤ 8) ×
        (slice_index a 0 + slice_index a 1 ≤ blocks_of
        (world_of_store store.now) opened.now.file)) }
    ensures value { let pol = policies_of store.now 0 in
        ahead_by answer (ahead_default (world_of_store store.now) pol (Some opened.now)) ≡
        (result.start, result.count) }
    ensures sound { IsSoundFile (world_of_store store.now)
        (record (opened.now) { start = result.start; count = result.count }) }
{
    match answer {
        Some(a) => Ahead {
            start: a[0],
            count: a[1] as u8,
        },
        None => store.ahead(opened),
    }
}

/// The second piece: the answer, or by default the policy, says what is to be read ahead.
fn second<B: Policy>(store: &mut Store<B>, r: Access, opened: OpenRow) -> Next
    requires place { HasDescriptor (queue_of store.old) r.p r.fd }
    requires file { (objects_of store.old).things.file r.p r.fd ≡ Some opened }
    requires opened { IsSoundFile (world_of_store store.old) opened }
    requires right { IfSome r.answer (λ a. (slice_index a 1 ≤ 8) ×
        (slice_index a 0 + slice_index a 1 ≤ blocks_of (world_of_store store.old) opened.file)) }
    ensures done { ComesAtOnce (second_of store.old r opened) (queue_of store.old)
        store.old store.new result (read_stage r 2) }
    ensures next { goes_on result ≡ true →
        ReadContinues 1 2 (Some opened) ((objects_of store.new).things.file r.p r.fd) }
{
    let ahead = reach(store, r.answer, &opened);
    store.set_ahead(r.p, r.fd as u8, ahead.start, ahead.count);
    if ahead.count == 0 {
        return Next::Ends(Reply::Plain);
    }
    Next::Goes
}

/// A later piece: one block more is fetched ahead.
fn later<B: Policy, D: Disk>(
    store: &mut Store<B>,
    disk: &mut D,
    log: &mut DiskLog,
    r: Access,
    opened: OpenRow,
) -> Next
    requires ready { AccessReady (store_moment store.old (D.seen disk.old) log.old) r }
    requires right { NamesFrame store.old r.answer }
    requires file { (objects_of store.old).things.file r.p r.fd ≡ Some opened }
    requires opened { IsSoundFile (world_of_store store.old) opened }
    requires some { 1 ≤ opened.count }
    ensures done { Serves (later_of store.old r opened)
        (store_moment store.old (D.seen disk.old) log.old) (store_moment store.new (D.seen disk.new) log.new)
        None result (read_stage r 2) }
    ensures next { goes_on result ≡ true →
        ReadContinues 2 2 (Some opened) ((objects_of store.new).things.file r.p r.fd) }
{
    let plan = plan_ahead(store, &opened);
    let Ok(_) = fetch_ahead(store, disk, log, r, plan) else {
        return Next::Fails(Refusal::DiskFault);
    };
    let count = opened.count - 1;
    store.set_ahead(r.p, r.fd as u8, opened.start + 1, count);
    if count == 0 {
        return Next::Ends(Reply::Plain);
    }
    Next::Goes
}
