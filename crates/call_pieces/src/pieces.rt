//! `piece`.

ghost use Rattle.std.specs.Prelude.{◌≡◌, true, false, None};
ghost use Rattle.kernel_model.specs.Needs.{piece_ask};
ghost use Rattle.kernel_model.specs.Laws.{IsRightAnswer};
ghost use Rattle.kernel_state.specs.Calls.{Made};
ghost use Rattle.kernel_state.specs.Stores.{world_of_store, objects_of};
ghost use Rattle.call_needs.specs.Fetching.{store_moment};
ghost use Rattle.call_needs.specs.Works.{bare_stage_of, call_of, stage_of, IsPlainDue};
ghost use Rattle.call_pieces.specs.Shared.{DiskReady, PieceReady, ServesWithQueue, piece_on, queue_on};
ghost use Rattle.call_pieces.specs.Matching.{HasContinued, goes_on, is_frequent, is_read};

use crate::Next;
use crate::amounts::{bill, fund, give, install, remove};
use crate::locks::{free_lock, take_lock};
use crate::one_piece::{close, exit, open, peek, poke, spawn, yield_turn};
use crate::policies::{choose, tune};
use crate::reads::read;
use crate::syncs::sync;
use crate::writes::write;
use call_needs::{Access, Gift, Work};
use kernel_model::{BareCall, Refusal};
use kernel_state::{Disk, DiskLog, Policy, Store};

/// The next piece of a call, with an answer to the point that it asks, or by default.
///
/// The log starts empty and has this piece's calls of the disk then; the gift has what the piece
/// gave, whatever it had. Where the call goes on, it carries nothing. It is always inlined, so that an
/// answer and what follows a piece aren't moved.
#[inline(always)]
pub fn piece<B: Policy, D: Disk>(
    work: &mut Work,
    store: &mut Store<B>,
    answer: Option<[u32; 4]>,
    disk: &mut D,
    log: &mut DiskLog,
    gave: &mut Gift,
) -> Next
    requires ready { IsPlainDue (world_of_store store.old) (objects_of store.old) work.old.caller
        (stage_of work.old) }
    requires right { IsRightAnswer (objects_of store.old)
        (piece_ask (call_of work.old) work.old.piece (world_of_store store.old)
        (objects_of store.old).things work.old.caller) answer }
    requires disk { DiskReady (store_moment store.old (D.seen disk.old) log.old) }
    ensures done { ServesWithQueue (piece_on work.old store.old answer)
        (queue_on work.old store.old answer) (store_moment store.old (D.seen disk.old) log.old)
        (store_moment store.new (D.seen disk.new) log.new) gave.new result (stage_of work.new) }
    ensures gone { goes_on result ≡ true →
        HasContinued work.old work.new (objects_of store.old) (objects_of store.new) }
    ensures calls { Made (D.seen disk.old) (D.seen disk.new) log.new }
{
    work.carry_nothing();
    bare_piece(work, store, answer, disk, log, gave)
}

/// The same, but for what the call carries, which stays. The pieces that come most often are done here,
/// so that what follows a piece stands in a register.
#[inline(always)]
fn bare_piece<B: Policy, D: Disk>(
    work: &mut Work,
    store: &mut Store<B>,
    answer: Option<[u32; 4]>,
    disk: &mut D,
    log: &mut DiskLog,
    gave: &mut Gift,
) -> Next
    requires can { PieceReady work.old answer (store_moment store.old (D.seen disk.old) log.old) }
    ensures done { ServesWithQueue (piece_on work.old store.old answer)
        (queue_on work.old store.old answer) (store_moment store.old (D.seen disk.old) log.old)
        (store_moment store.new (D.seen disk.new) log.new) gave.new result (bare_stage_of work.new) }
    ensures gone { goes_on result ≡ true →
        HasContinued work.old work.new (objects_of store.old) (objects_of store.new) }
    ensures carries { work.new ≡ record (work.old) { piece = work.new.piece } }
{
    gave.clear();
    let p = work.caller;
    match work.call {
        BareCall::Yield => yield_turn(&mut work.piece, store, p, answer),
        BareCall::TakeLock(u) => take_lock(store, p, u),
        BareCall::FreeLock(u) => free_lock(store, p, u),
        BareCall::Poke(k, v) => poke(store, p, k, v),
        BareCall::Peek(k) => peek(store, p, k),
        BareCall::Read { .. } => {
            let next = read_file(work, store, answer, disk, log, gave);
            next
        }
        _ => {
            let next = rarer_piece(work, store, answer, disk, log, gave);
            next
        }
    }
}

/// A piece of a read, where no bytes were given yet.
#[inline(never)]
fn read_file<B: Policy, D: Disk>(
    work: &mut Work,
    store: &mut Store<B>,
    answer: Option<[u32; 4]>,
    disk: &mut D,
    log: &mut DiskLog,
    gave: &mut Gift,
) -> Next
    requires can { PieceReady work.old answer (store_moment store.old (D.seen disk.old) log.old) }
    requires nothing { gave.old ≡ None }
    requires kind { is_read work.old.call ≡ true }
    ensures done { ServesWithQueue (piece_on work.old store.old answer)
        (queue_on work.old store.old answer) (store_moment store.old (D.seen disk.old) log.old)
        (store_moment store.new (D.seen disk.new) log.new) gave.new result (bare_stage_of work.new) }
    ensures gone { goes_on result ≡ true →
        HasContinued work.old work.new (objects_of store.old) (objects_of store.new) }
    ensures carries { work.new ≡ record (work.old) { piece = work.new.piece } }
{
    let BareCall::Read {
        descriptor: fd,
        block: i,
        offset: off,
        length: len,
    } = work.call
    else {
        return Next::Fails(Refusal::BadPoint);
    };
    let access = Access {
        p: work.caller,
        fd,
        i,
        off,
        len,
        answer,
    };
    read(&mut work.piece, store, disk, log, gave, access)
}

/// A piece of a call that `bare_piece` doesn't do itself, where no bytes were given yet.
#[inline(never)]
fn rarer_piece<B: Policy, D: Disk>(
    work: &mut Work,
    store: &mut Store<B>,
    answer: Option<[u32; 4]>,
    disk: &mut D,
    log: &mut DiskLog,
    gave: &mut Gift,
) -> Next
    requires can { PieceReady work.old answer (store_moment store.old (D.seen disk.old) log.old) }
    requires nothing { gave.old ≡ None }
    requires rarer { is_frequent work.old.call ≡ false }
    ensures done { ServesWithQueue (piece_on work.old store.old answer)
        (queue_on work.old store.old answer) (store_moment store.old (D.seen disk.old) log.old)
        (store_moment store.new (D.seen disk.new) log.new) gave.new result (bare_stage_of work.new) }
    ensures gone { goes_on result ≡ true →
        HasContinued work.old work.new (objects_of store.old) (objects_of store.new) }
    ensures carries { work.new ≡ record (work.old) { piece = work.new.piece } }
{
    let p = work.caller;
    match work.call {
        BareCall::Write {
            descriptor: fd,
            block: i,
            offset: off,
        } => {
            let bytes = work.bytes.as_slice();
            let len = bytes.len() as u32;
            let access = Access {
                p,
                fd,
                i,
                off,
                len,
                answer,
            };
            write(store, disk, log, access, bytes)
        }
        BareCall::Give {
            receiver: q,
            kind,
            amount: n,
        } => give(store, p, q, kind, n),
        BareCall::Spawn => spawn(store),
        BareCall::Exit => exit(store, p),
        BareCall::OpenName => open(store, p, work.bytes.as_slice()),
        BareCall::CloseFd(fd) => close(store, p, fd),
        BareCall::Sync => sync(store, disk, log),
        BareCall::Tune {
            kind,
            parameter: k,
            value: v,
        } => tune(store, kind, k, v),
        BareCall::Choose(kind, j) => choose(store, kind, j),
        BareCall::Install {
            point: pt,
            slot: image,
            limit,
        } => install(store, p, pt, image, limit),
        BareCall::Remove(pt) => remove(store, p, pt),
        BareCall::Fund {
            point: pt,
            kind,
            amount: n,
        } => fund(store, p, pt, kind, n),
        BareCall::Bill(pt) => bill(store, p, pt),
        BareCall::Serve(_) | BareCall::StreamRead { .. } | BareCall::StreamWrite { .. } => {
            Next::Fails(Refusal::BadPoint)
        }
        // None of the others comes here.
        BareCall::Yield
        | BareCall::Read { .. }
        | BareCall::TakeLock(_)
        | BareCall::FreeLock(_)
        | BareCall::Poke(_, _)
        | BareCall::Peek(_) => Next::Fails(Refusal::BadPoint),
    }
}
