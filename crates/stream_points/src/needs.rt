//! The objects that pieces need, the points that they ask, and what the grafts of streams are fed.

ghost use Rattle.std.specs.Prelude.{◌≡◌, ◌<◌, ◌≤◌, true, [], Some, length};
ghost use Rattle.kernel_model.specs.StreamPoints as spec;
ghost use Rattle.kernel_model.specs.Policies.{lives};
ghost use Rattle.call_pieces.specs.Stores.{world_of_store, objects_of, queue_of};
ghost use Rattle.call_pieces.specs.Works.{IsDue, call_of, stage_of};

use crate::begin::{READ_POINT, WRITE_POINT};
use crate::streams::Range;
use call_pieces::{Access, Needs, Policy, Store, Work, block_ask};
use kernel_model::{BareCall, Object, Point};

/// The objects that the next piece of a call needs, in order. They take the place of what the list
/// had.
pub(crate) fn need<B: Policy>(work: &Work, store: &Store<B>, needs: &mut Needs)
    requires ready { IsDue spec.stream_points (world_of_store store.now) (objects_of store.now)
        work.now.caller (stage_of work.now) }
    ensures { needs.new ≡ spec.stream_needs (call_of work.now) (stage_of work.now)
        (world_of_store store.now) (objects_of store.now) work.now.caller }
{
    needs.clear();
    let p = work.caller;
    match work.call {
        BareCall::StreamRead {
            descriptor: fd,
            block: i,
            offset: off,
            length: len,
        } => {
            let range = Range { fd, i, off, len };
            read_needs(work.piece, store, p, range, needs);
        }
        BareCall::StreamWrite {
            descriptor: fd,
            block: i,
            offset: off,
        } => write_needs(work, store, fd, i, off, needs),
        BareCall::Install { point: pt, .. } | BareCall::Bill(pt) => {
            needs.exclusive(Object::Graft(p, pt as u8))
        }
        BareCall::Remove(pt) | BareCall::Fund { point: pt, .. } => needs.point(store, p, pt as u8),
        _ => {}
    }
}

/// The open file and the block that is read, then the point of stream reads.
fn read_needs<B: Policy>(piece: u8, store: &Store<B>, p: u8, r: Range, needs: &mut Needs)
    requires alive { lives (queue_of store.now) p ≡ true }
    requires descriptor { r.fd < 4 }
    requires empty { needs.old ≡ [] }
    ensures { needs.new ≡ spec.stream_read_needs piece (world_of_store store.now)
        (objects_of store.now) p r.fd r.i r.off r.len }
{
    if piece > 0 {
        return needs.point(store, p, READ_POINT);
    }
    needs.shared(Object::OpenFile(p, r.fd as u8));
    let answer = None;
    let Range { fd, i, off, len } = r;
    needs.block(
        store,
        Access {
            p,
            fd,
            i,
            off,
            len,
            answer,
        },
    );
}

/// The open file and the point of stream writes, then the open file and the block that is written.
fn write_needs<B: Policy>(
    work: &Work,
    store: &Store<B>,
    fd: u32,
    i: u32,
    off: u32,
    needs: &mut Needs,
)
    requires alive { lives (queue_of store.now) work.now.caller ≡ true }
    requires descriptor { fd < 4 }
    requires empty { needs.old ≡ [] }
    ensures { needs.new ≡ spec.stream_write_needs work.now.piece (world_of_store store.now)
        (objects_of store.now) work.now.caller fd i off work.now.bytes.items work.now.carried.items }
{
    let p = work.caller;
    needs.shared(Object::OpenFile(p, fd as u8));
    if work.piece > 0 {
        let len = work.carried.as_slice().len() as u32;
        let answer = None;
        return needs.block(
            store,
            Access {
                p,
                fd,
                i,
                off,
                len,
                answer,
            },
        );
    }
    let len = work.bytes.as_slice().len() as u32;
    if store.block_of(p, fd as u8, i, off, len).is_ok() {
        needs.point(store, p, WRITE_POINT);
    }
}

/// The point that the next piece of a call asks, with its arguments.
pub(crate) fn asks<B: Policy>(work: &Work, store: &Store<B>) -> Option<Point>
    requires ready { IsDue spec.stream_points (world_of_store store.now) (objects_of store.now)
        work.now.caller (stage_of work.now) }
    ensures { result ≡ spec.stream_ask (call_of work.now) (stage_of work.now)
        (world_of_store store.now) (objects_of store.now).things work.now.caller }
{
    match work.call {
        BareCall::StreamRead {
            descriptor: fd,
            block: i,
            offset: off,
            length: len,
        } => {
            let range = Range { fd, i, off, len };
            read_ask(work, store, range)
        }
        BareCall::StreamWrite {
            descriptor: fd,
            block: i,
            offset: off,
        } => write_ask(work, store, fd, i, off),
        _ => None,
    }
}

/// The point of the fetch, then that of stream reads.
fn read_ask<B: Policy>(work: &Work, store: &Store<B>, r: Range) -> Option<Point>
    requires alive { lives (queue_of store.now) work.now.caller ≡ true }
    requires descriptor { r.fd < 4 }
    ensures { result ≡ spec.stream_read_ask work.now.piece (world_of_store store.now)
        (objects_of store.now).things work.now.caller r.fd r.i r.off r.len
        (length work.now.carried.items) }
{
    let p = work.caller;
    if work.piece == 0 {
        return block_ask(store, p, r.fd as u8, r.i, r.off, r.len);
    }
    let count = work.carried.as_slice().len() as u32;
    Some(stream_point(p, READ_POINT, count, r.i, r.off, r.fd))
}

/// The point of stream writes, where the file has the bytes; then that of the fetch.
fn write_ask<B: Policy>(work: &Work, store: &Store<B>, fd: u32, i: u32, off: u32) -> Option<Point>
    requires alive { lives (queue_of store.now) work.now.caller ≡ true }
    requires descriptor { fd < 4 }
    ensures { result ≡ spec.stream_write_ask work.now.piece (world_of_store store.now)
        (objects_of store.now).things work.now.caller fd i off work.now.bytes.items
        work.now.carried.items }
{
    let p = work.caller;
    if work.piece > 0 {
        let len = work.carried.as_slice().len() as u32;
        return block_ask(store, p, fd as u8, i, off, len);
    }
    let count = work.bytes.as_slice().len() as u32;
    match store.block_of(p, fd as u8, i, off, count) {
        Ok(_) => Some(stream_point(p, WRITE_POINT, count, i, off, fd)),
        Err(_) => None,
    }
}

/// A point of streams of process p, which is asked with how many bytes there are, the block, the
/// offset and the descriptor.
fn stream_point(p: u8, pt: u8, count: u32, i: u32, off: u32, fd: u32) -> Point
    ensures { result ≡ spec.stream_point p pt count i off fd }
{
    Point {
        installer: p,
        point: pt,
        args: [count, i, off, fd],
    }
}

/// The bytes that the graft is fed which the next piece of a call asks: those that were read, or are
/// to be written.
pub(crate) fn feed(work: &Work) -> &[u8]
    ensures value { result.now ≡ spec.stream_feed (call_of work.now) work.now.piece
        work.now.carried.items }
    ensures few { length result.now ≤ 512 }
{
    match work.call {
        BareCall::StreamRead { .. } => work.carried.as_slice(),
        BareCall::StreamWrite { .. } if work.piece == 0 => work.bytes.as_slice(),
        _ => &[],
    }
}
