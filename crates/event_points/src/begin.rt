//! Which calls are those of event points, and which of them are refused at once.

ghost use Rattle.std.specs.Prelude.{◌≡◌, ◌≤◌, ℕ, true, List, length, IfOk, IfErr};
ghost use Rattle.kernel_model.specs.World.{ImageTable};
ghost use Rattle.kernel_model.specs.ImageMask.{TellsImages};
ghost use Rattle.kernel_model.specs.Bare.{call_with};
ghost use Rattle.kernel_model.specs.EventPoints as spec;
ghost use Rattle.kernel_model.specs.Policies.{lives};
ghost use Rattle.call_pieces.specs.Stores.{world_of_store, objects_of, queue_of};
ghost use Rattle.call_pieces.specs.Works.{IsDue, begun, stage_of, stage_granted};

use arrayvec::ArrayVec;
use call_pieces::{Policy, Store, Work, refusal_upto};
use kernel_model::{BLOCK_BYTES, BareCall, Refusal};

/// How many ports there are.
const PORTS: u32 = 8;

/// The point of port 0.
pub(crate) const FIRST_POINT: u32 = 6;

/// The point of the last port.
pub(crate) const LAST_POINT: u32 = 13;

/// Whether a point is that of a port.
fn is_event_point(pt: u32) -> bool
    ensures { result ≡ spec.is_event_point pt }
{
    FIRST_POINT <= pt && pt <= LAST_POINT
}

/// Whether a call is one of event points, whatever bytes it has.
pub(crate) fn is_event_call(call: BareCall) -> bool
    ensures { (bytes : List ℕ) → result ≡ spec.is_event_call (call_with call bytes) }
{
    match call {
        BareCall::Serve(_) => true,
        BareCall::Install { point: pt, .. }
        | BareCall::Remove(pt)
        | BareCall::Fund { point: pt, .. }
        | BareCall::Bill(pt) => is_event_point(pt),
        _ => false,
    }
}

/// A call of process p, which lives, before its first piece; or its refusal of least number that
/// needs no object, and the work stays as it was. Bit k of `images` tells whether image k is loaded.
pub(crate) fn admit<B: Policy>(
    store: &Store<B>,
    images: u32,
    p: u8,
    call: BareCall,
    bytes: &ArrayVec<u8, BLOCK_BYTES>,
    work: &mut Work,
) -> Result<(), Refusal>
    requires alive { lives (queue_of store.now) p ≡ true }
    ensures value { (table : ImageTable) → TellsImages images table →
        stage_granted (stage_of work.new) result ≡ spec.event_points.early
        (world_of_store store.now) table p (call_with call bytes.now.items) }
    ensures ready { IfOk result (λ _. IsDue spec.event_points (world_of_store store.now)
        (objects_of store.now) work.new.caller (stage_of work.new)) }
    ensures work { IfOk result (λ _. work.new ≡ begun p call bytes.now) }
    ensures kept { IfErr result (λ _. work.new ≡ work.old) }
{
    if let Some(refusal) = refusal(store, images, p, call, bytes.as_slice()) {
        return Err(refusal);
    }
    work.set_call(p, call, bytes);
    Ok(())
}

/// The refusal of least number of a call of process p that needs no object. Bit k of `images` tells
/// whether image k is loaded.
fn refusal<B: Policy>(
    store: &Store<B>,
    images: u32,
    p: u8,
    call: BareCall,
    bytes: &[u8],
) -> Option<Refusal>
    requires few { length bytes.now ≤ 512 }
    ensures { (table : ImageTable) → TellsImages images table →
        result ≡ spec.event_refusal (world_of_store store.now) table p (call_with call bytes.now) }
{
    match call {
        BareCall::Serve(port) if port < PORTS => None,
        BareCall::Serve(_) => Some(Refusal::BadIndex),
        _ if is_event_call(call) => { refusal_upto::<LAST_POINT, B>(store, images, p, call, bytes) }
        _ => Some(Refusal::BadPoint),
    }
}
