//! Which calls are those of stream points, and which of them are refused at once.

ghost use Rattle.std.specs.Prelude.{◌≡◌, ◌≤◌, ℕ, true, List, length, IfOk, IfErr};
ghost use Rattle.kernel_model.specs.World.{ImageTable};
ghost use Rattle.kernel_model.specs.ImageMask.{TellsImages};
ghost use Rattle.kernel_model.specs.Bare.{call_with};
ghost use Rattle.kernel_model.specs.StreamPoints as spec;
ghost use Rattle.kernel_model.specs.Policies.{lives};
ghost use Rattle.call_pieces.specs.Stores.{world_of_store, objects_of, queue_of};
ghost use Rattle.call_pieces.specs.Works.{IsDue, begun, stage_of, stage_granted};

use arrayvec::ArrayVec;
use call_pieces::{Policy, Store, Work, refusal_upto};
use kernel_model::{BLOCK_BYTES, BareCall, Refusal};

/// The point of stream reads.
pub(crate) const READ_POINT: u8 = 14;

/// The point of stream writes, the highest of all.
pub(crate) const WRITE_POINT: u8 = 15;

/// The same, as calls name it: points go up to it.
const TOP_POINT: u32 = WRITE_POINT as u32;

/// Whether a point is one of streams.
fn is_stream_point(pt: u32) -> bool
    ensures { result ≡ spec.is_stream_point pt }
{
    pt == u32::from(READ_POINT) || pt == u32::from(WRITE_POINT)
}

/// Whether a call is one of stream points, whatever bytes it has.
pub(crate) fn is_stream_call(call: BareCall) -> bool
    ensures { (bytes : List ℕ) → result ≡ spec.is_stream_call (call_with call bytes) }
{
    match call {
        BareCall::StreamRead { .. } | BareCall::StreamWrite { .. } => true,
        BareCall::Install { point: pt, .. }
        | BareCall::Remove(pt)
        | BareCall::Fund { point: pt, .. }
        | BareCall::Bill(pt) => is_stream_point(pt),
        _ => false,
    }
}

/// A call of process p, which lives, before its first piece; or its refusal of least number that
/// needs no object, and the work stays as it was. Bit k of `images` tells whether image k is loaded.
pub(crate) fn admit<B: Policy>(
    store: &Store<B>,
    images: u32,
    p: u8,
    call: BareCall,
    bytes: &ArrayVec<u8, BLOCK_BYTES>,
    work: &mut Work,
) -> Result<(), Refusal>
    requires alive { lives (queue_of store.now) p ≡ true }
    ensures value { (table : ImageTable) → TellsImages images table →
        stage_granted (stage_of work.new) result ≡ spec.stream_points.early
        (world_of_store store.now) table p (call_with call bytes.now.items) }
    ensures ready { IfOk result (λ _. IsDue spec.stream_points (world_of_store store.now)
        (objects_of store.now) work.new.caller (stage_of work.new)) }
    ensures work { IfOk result (λ _. work.new ≡ begun p call bytes.now) }
    ensures kept { IfErr result (λ _. work.new ≡ work.old) }
{
    if let Some(refusal) = refusal(store, images, p, call, bytes.as_slice()) {
        return Err(refusal);
    }
    work.set_call(p, call, bytes);
    Ok(())
}

/// The refusal of least number of a call of process p that needs no object. Bit k of `images` tells
/// whether image k is loaded.
fn refusal<B: Policy>(
    store: &Store<B>,
    images: u32,
    p: u8,
    call: BareCall,
    bytes: &[u8],
) -> Option<Refusal>
    requires few { length bytes.now ≤ 512 }
    ensures { (table : ImageTable) → TellsImages images table →
        result ≡ spec.stream_refusal (world_of_store store.now) table p (call_with call bytes.now) }
{
    match call {
        BareCall::StreamRead {
            descriptor: fd,
            block: i,
            offset: off,
            length: len,
        } => {
            let read = BareCall::Read {
                descriptor: fd,
                block: i,
                offset: off,
                length: len,
            };
            refusal_upto::<TOP_POINT, B>(store, images, p, read, bytes)
        }
        BareCall::StreamWrite {
            descriptor: fd,
            block: i,
            offset: off,
        } => {
            let write = BareCall::Write {
                descriptor: fd,
                block: i,
                offset: off,
            };
            refusal_upto::<TOP_POINT, B>(store, images, p, write, bytes)
        }
        _ if is_stream_call(call) => { refusal_upto::<TOP_POINT, B>(store, images, p, call, bytes) }
        _ => Some(Refusal::BadPoint),
    }
}
