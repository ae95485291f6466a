//! The point that the next piece of a call asks.

ghost use Rattle.std.specs.Prelude.{◌≡◌, ℕ, List, IfOk};
ghost use Rattle.kernel_model.specs.AllCalls.{all_calls};
ghost use Rattle.audit_state.specs.Worlds.{world_of};
ghost use Rattle.audit_needs.specs.Stages.{stage_of, objects_of};

use crate::calls::{is_event_call, is_stream_call};
use crate::events::event_ask;
use crate::plain_asks::piece_ask;
use crate::streams::stream_ask;
use crate::{Scene, Stage};
use kernel_model::{NoMemory, Point};

/// The point that the next piece of a call of process p asks, with its arguments.
pub fn asks(scene: &Scene<'_>, p: u8, stage: &Stage) -> Result<Option<Point>, NoMemory>
    ensures { IfOk result (λ a. (bytes : ℕ → List ℕ) → a ≡ all_calls.asks
        (world_of scene.now.world.now)
        (objects_of bytes scene.now.accounts.now scene.now.things.now) p (stage_of stage.now)) }
{
    if is_stream_call(stage.call) {
        stream_ask(scene, p, stage)
    } else if is_event_call(stage.call) {
        event_ask(p, stage.call, &stage.given, stage.piece, &stage.handlers)
    } else {
        piece_ask(scene, p, stage.call, &stage.given, stage.piece)
    }
}
