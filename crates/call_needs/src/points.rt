//! The points that pieces ask.

ghost use Rattle.std.specs.Prelude.{◌≡◌, ◌<◌, true, Some, Ok, length, option_map};
ghost use Rattle.kernel_model.specs.Policies.{frames_of};
ghost use Rattle.kernel_model.specs.Pieces.{read_fits};
ghost use Rattle.kernel_model.specs.Needs as spec;
ghost use Rattle.kernel_state.specs.Frames.{in_use};
ghost use Rattle.kernel_state.specs.Places.{HasDescriptor};
ghost use Rattle.kernel_state.specs.Stores.{world_of_store, objects_of, cache_of, queue_of, policies_of};
ghost use Rattle.call_needs.specs.Needing.{block_meant, fetch_ask_of};
ghost use Rattle.call_needs.specs.Planning.{IsPlan};
ghost use Rattle.call_needs.specs.Works.{IsPlainDue, call_of, stage_of};

use crate::plans::{Plan, plan_ahead, plan_block};
use crate::{Access, Work};
use kernel_model::{BareCall, Point};
use kernel_state::{Policy, Store};

/// The point that the next piece of a call asks, with its arguments.
pub fn asks<B: Policy>(work: &Work, store: &Store<B>) -> Option<Point>
    requires ready { IsPlainDue (world_of_store store.now) (objects_of store.now) work.now.caller
        (stage_of work.now) }
    ensures { result ≡ spec.piece_ask (call_of work.now) work.now.piece (world_of_store store.now)
        (objects_of store.now).things work.now.caller }
{
    let p = work.caller;
    match work.call {
        BareCall::Yield => turn_ask(work.piece, store),
        BareCall::Read {
            descriptor: fd,
            block: i,
            offset: off,
            length: len,
        } => {
            let answer = None;
            let access = Access {
                p,
                fd,
                i,
                off,
                len,
                answer,
            };
            read_ask(work.piece, store, access)
        }
        BareCall::Write {
            descriptor: fd,
            block: i,
            offset: off,
        } => {
            let len = work.bytes.as_slice().len() as u32;
            block_ask(store, p, fd as u8, i, off, len)
        }
        _ => None,
    }
}

/// The scheduling point of the candidate, before the second piece of a yield.
fn turn_ask<B: Policy>(piece: u8, store: &Store<B>) -> Option<Point>
    ensures { result ≡ spec.yield_ask piece (world_of_store store.now)
        (objects_of store.now).things }
{
    if piece == 0 {
        return None;
    }
    let c = store.next();
    let living = store.procs.rows().len() as u32;
    Some(Point {
        installer: c,
        point: 5,
        args: [u32::from(c), u32::from(store.nice(c)), living, 0],
    })
}

/// The points of the three kinds of pieces of a read.
fn read_ask<B: Policy>(piece: u8, store: &Store<B>, r: Access) -> Option<Point>
    requires file { HasDescriptor (queue_of store.now) r.p r.fd }
    requires fits { read_fits piece ((objects_of store.now).things.file r.p r.fd) ≡ true }
    ensures { result ≡ spec.read_ask piece (world_of_store store.now)
        (objects_of store.now).things r.p r.fd r.i r.off r.len }
{
    let p = r.p;
    let fd = r.fd as u8;
    match piece {
        0 => block_ask(store, p, fd, r.i, r.off, r.len),
        1 => file_ask(store, p, fd),
        _ => match store.file(p, fd) {
            Some(opened) => victim_ask(store, plan_ahead(store, &opened)),
            None => None,
        },
    }
}

/// The point of an open file, which says what is to be read ahead.
fn file_ask<B: Policy>(store: &Store<B>, p: u8, fd: u8) -> Option<Point>
    requires file { HasDescriptor (queue_of store.now) p fd }
    requires fits { read_fits 1 ((objects_of store.now).things.file p fd) ≡ true }
    ensures { result ≡ spec.read_ask 1 (world_of_store store.now)
        (objects_of store.now).things p fd 0 0 0 }
{
    let opened = store.file(p, fd)?;
    let default = store.ahead(&opened);
    Some(Point {
        installer: p,
        point: fd,
        args: [
            default.start,
            u32::from(default.count),
            store.blocks(&opened),
            u32::from(fd),
        ],
    })
}

/// The point that a fetch of block i of an open file asks, of which bytes off to off + len are
/// meant.
pub fn block_ask<B: Policy>(
    store: &Store<B>,
    p: u8,
    fd: u8,
    i: u32,
    off: u32,
    len: u32,
) -> Option<Point>
    requires { HasDescriptor (queue_of store.now) p fd }
    ensures { result ≡ fetch_ask_of store.now (block_meant store.now p fd i off len) }
{
    match plan_block(store, p, fd, i, off, len) {
        Ok(plan) => victim_ask(store, plan),
        Err(_) => None,
    }
}

/// The point of the owner of the candidate, where a frame must be chosen for the block of a plan.
fn victim_ask<B: Policy>(store: &Store<B>, plan: Plan) -> Option<Point>
    requires { IsPlan store.now plan }
    ensures { result ≡ fetch_ask_of store.now (Ok plan.block) }
{
    let f = plan.candidate()?;
    let owner = store.owner(f);
    let frames = store.owned_count(owner);
    Some(Point {
        installer: owner,
        point: 4,
        args: [u32::from(f), plan.block, frames, 0],
    })
}
