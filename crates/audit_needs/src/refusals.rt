//! Refusals that need no object, the least number first.

ghost use Rattle.std.specs.Prelude.{◌≡◌, ◌+◌, ◌||◌, ◌==◌, ℕ, List, Option, None, not};
ghost use Rattle.std.specs.Prelude.{nat_lt, nat_le, is_some, length};
ghost use Rattle.kernel_model.specs.declared.Refusal.TheVariants.{BadFd, BadIndex, BadPoint};
ghost use Rattle.kernel_model.specs.declared.Refusal.TheVariants.{Denied, NoImage};
ghost use Rattle.kernel_model.specs.Bare.{call_with};
ghost use Rattle.kernel_model.specs.Early as model;
ghost use Rattle.kernel_model.specs.EventPoints.{event_refusal as of_events};
ghost use Rattle.kernel_model.specs.StreamPoints.{stream_refusal as of_streams};
ghost use Rattle.graft_loader.specs.Slots.{table_of};
ghost use Rattle.audit_state.specs.Worlds.{world_of};

use crate::calls::{is_event_call, is_stream_call};
use audit_state::World;
use graft_loader::Images;
use kernel_model::{BareCall, Refusal};

/// The highest points of the three tables of calls.
pub(crate) const LAST_PLAIN_POINT: u32 = 5;

const LAST_EVENT_POINT: u32 = 13;

const LAST_STREAM_POINT: u32 = 15;

/// The most bytes that a call reads, writes or serves: those of a block.
const MOST_BYTES: usize = 512;

/// A refusal where it holds, else the next one.
fn refused(holds: bool, refusal: Refusal, next: Option<Refusal>) -> Option<Refusal>
    ensures { result ≡ model.refused holds refusal next }
{
    if holds { Some(refusal) } else { next }
}

/// Whether an offset and a length together are more than a block has.
fn is_beyond_block(offset: u32, count: usize) -> bool
    ensures { result ≡ nat_lt 512 (offset + count) }
{
    count > MOST_BYTES || offset as usize + count > MOST_BYTES
}

/// The refusal of a descriptor, or of a range of a block's bytes.
fn range_refusal(fd: u32, offset: u32, count: usize) -> Option<Refusal>
    ensures { result ≡ model.refused (nat_lt 3 fd) BadFd
        (model.refused (nat_lt 512 (offset + count)) BadIndex None) }
{
    let range = refused(is_beyond_block(offset, count), Refusal::BadIndex, None);
    refused(3 < fd, Refusal::BadFd, range)
}

/// How many policies a kind has.
fn policy_count(kind: u32) -> u32
    ensures { result ≡ model.policy_count kind }
{
    if kind == 0 { 3 } else { 2 }
}

/// The refusal of a call on policies, which only root may make.
fn policy_refusal(p: u8, unknown: bool) -> Option<Refusal>
    ensures { result
        ≡ model.refused (not (p == 0)) Denied (model.refused unknown BadPoint None) }
{
    refused(
        p != 0,
        Refusal::Denied,
        refused(unknown, Refusal::BadPoint, None),
    )
}

/// The refusal of a graft that is to be installed: its point, its limit, its image.
fn install_refusal(top: u32, images: &Images, pt: u32, slot: u32, limit: u32) -> Option<Refusal>
    ensures { result ≡ model.refused (nat_lt top pt) BadPoint
        (model.refused (limit == 0 || nat_lt 65536 limit) BadIndex
        (model.refused (nat_lt 31 slot || not (is_some (table_of images.now slot))) NoImage None)) }
{
    let image = refused(
        31 < slot || images.get(slot).is_none(),
        Refusal::NoImage,
        None,
    );
    let size = refused(limit == 0 || 65536 < limit, Refusal::BadIndex, image);
    refused(top < pt, Refusal::BadPoint, size)
}

/// The refusal of a call of process p, where points go up to `top`.
pub(crate) fn call_refusal(
    top: u32,
    world: &World,
    images: &Images,
    p: u8,
    call: BareCall,
    given: &[u8],
) -> Option<Refusal>
    ensures { result ≡ model.call_refusal top (world_of world.now) (table_of images.now) p
        (call_with call given.now) }
{
    match call {
        BareCall::Exit => refused(p == 0, Refusal::Denied, None),
        BareCall::OpenName => refused(world.named(given).is_none(), Refusal::NoFile, None),
        BareCall::CloseFd(fd) => refused(3 < fd, Refusal::BadFd, None),
        BareCall::Read {
            descriptor,
            offset,
            length,
            ..
        } => range_refusal(descriptor, offset, length as usize),
        BareCall::Write {
            descriptor,
            offset,
            ..
        } => range_refusal(descriptor, offset, given.len()),
        BareCall::TakeLock(u) | BareCall::FreeLock(u) => refused(15 < u, Refusal::BadIndex, None),
        BareCall::Poke(k, _) | BareCall::Peek(k) => refused(3 < k, Refusal::BadIndex, None),
        BareCall::Tune { kind, .. } => policy_refusal(p, 2 < kind),
        BareCall::Choose(kind, j) => policy_refusal(p, 2 < kind || policy_count(kind) <= j),
        BareCall::Give { receiver, .. } => refused(15 < receiver, Refusal::NoProcess, None),
        BareCall::Install { point, slot, limit } => {
            install_refusal(top, images, point, slot, limit)
        }
        BareCall::Remove(point) | BareCall::Fund { point, .. } | BareCall::Bill(point) => {
            refused(top < point, Refusal::BadPoint, None)
        }
        BareCall::Serve(_) | BareCall::StreamRead { .. } | BareCall::StreamWrite { .. } => {
            Some(Refusal::BadPoint)
        }
        BareCall::Spawn | BareCall::Yield | BareCall::Sync => None,
    }
}

/// The refusal of a call of event points.
pub(crate) fn event_refusal(
    world: &World,
    images: &Images,
    p: u8,
    call: BareCall,
    given: &[u8],
) -> Option<Refusal>
    ensures { result ≡ of_events (world_of world.now) (table_of images.now) p
        (call_with call given.now) }
{
    match call {
        BareCall::Serve(port) => refused(
            8 <= port || given.len() > MOST_BYTES,
            Refusal::BadIndex,
            None,
        ),
        _ => {
            if is_event_call(call) {
                call_refusal(LAST_EVENT_POINT, world, images, p, call, given)
            } else {
                Some(Refusal::BadPoint)
            }
        }
    }
}

/// The refusal of a call of stream points.
pub(crate) fn stream_refusal(
    world: &World,
    images: &Images,
    p: u8,
    call: BareCall,
    given: &[u8],
) -> Option<Refusal>
    ensures { result ≡ of_streams (world_of world.now) (table_of images.now) p
        (call_with call given.now) }
{
    match call {
        BareCall::StreamRead {
            descriptor,
            offset,
            length,
            ..
        } => range_refusal(descriptor, offset, length as usize),
        BareCall::StreamWrite {
            descriptor,
            offset,
            ..
        } => range_refusal(descriptor, offset, given.len()),
        _ => {
            if is_stream_call(call) {
                call_refusal(LAST_STREAM_POINT, world, images, p, call, given)
            } else {
                Some(Refusal::BadPoint)
            }
        }
    }
}
