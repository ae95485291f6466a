//! What the next piece of a call needs, and what the graft is fed that it asks.

ghost use Rattle.std.specs.Prelude.{◌≡◌, ◌++◌, ℕ, List, OnOk};
ghost use Rattle.kernel_model.specs.AllCalls.{all_calls};
ghost use Rattle.kernel_model.specs.EventPoints.{event_feed};
ghost use Rattle.kernel_model.specs.StreamPoints.{stream_feed};
ghost use Rattle.audit_state.specs.Worlds.{world_of};
ghost use Rattle.audit_needs.specs.Stages.{call_of, stage_of, objects_of};

use crate::calls::{is_event_call, is_stream_call};
use crate::events::event_needs;
use crate::plain_needs::piece_needs;
use crate::streams::stream_needs;
use crate::{Scene, Stage};
use kernel_model::{BareCall, Need, NoMemory};

/// The objects that the next piece of a call of process p needs, in order, behind those that the
/// list has.
pub fn needs(out: &mut Vec<Need>, scene: &Scene<'_>, p: u8, stage: &Stage) -> Result<(), NoMemory>
    ensures { OnOk result ((bytes : ℕ → List ℕ) → out.new.items ≡ out.old.items
        ++ all_calls.need (world_of scene.now.world.now)
        (objects_of bytes scene.now.accounts.now scene.now.things.now) p (stage_of stage.now)) }
{
    if is_stream_call(stage.call) {
        stream_needs(out, scene, p, stage)
    } else if is_event_call(stage.call) {
        event_needs(out, scene, p, stage.call, stage.piece, &stage.handlers)
    } else {
        piece_needs(out, scene, p, stage.call, &stage.given, stage.piece)
    }
}

/// What a stream's graft is fed: the bytes that were read, or are to be written.
fn fed_by_stream(stage: &Stage) -> &[u8]
    ensures { result.now
        ≡ stream_feed (call_of stage.now) stage.now.piece stage.now.bytes.items }
{
    match stage.call {
        BareCall::StreamRead { .. } => &stage.bytes,
        BareCall::StreamWrite { .. } => { if stage.piece == 0 { &stage.given } else { &[] } }
        _ => &[],
    }
}

/// What a handler is fed: the event.
fn fed_by_event(stage: &Stage) -> &[u8]
    ensures { result.now ≡ event_feed (call_of stage.now) }
{
    match stage.call {
        BareCall::Serve(_) => &stage.given,
        _ => &[],
    }
}

/// The bytes that the graft is fed which the next piece of a call asks.
pub fn feed(stage: &Stage) -> &[u8]
    ensures { result.now ≡ all_calls.feed (stage_of stage.now) }
{
    if is_stream_call(stage.call) {
        fed_by_stream(stage)
    } else if is_event_call(stage.call) {
        fed_by_event(stage)
    } else {
        &[]
    }
}
