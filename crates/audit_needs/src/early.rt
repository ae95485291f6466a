//! How a call begins, or is refused at once.

ghost use Rattle.std.specs.Prelude.{◌≡◌, ℕ, List};
ghost use Rattle.kernel_model.specs.Bare.{call_with};
ghost use Rattle.kernel_model.specs.AllCalls.{all_calls};
ghost use Rattle.kernel_model.specs.Early.{begins_unless};
ghost use Rattle.graft_loader.specs.Slots.{table_of};
ghost use Rattle.audit_state.specs.Worlds.{world_of};
ghost use Rattle.audit_needs.specs.Stages.{begun_of};

use crate::Stage;
use crate::calls::{is_event_call, is_stream_call};
use crate::refusals::{LAST_PLAIN_POINT, call_refusal, event_refusal, stream_refusal};
use audit_state::World;
use graft_loader::Images;
use kernel_model::{BareCall, Refusal};
use std::alloc::Global;

/// The refusal of least number of a call of process p that needs no object.
fn refusal(world: &World, images: &Images, p: u8, call: BareCall, given: &[u8]) -> Option<Refusal>
    ensures { begins_unless (call_with call given.now) result
        ≡ all_calls.early (world_of world.now) (table_of images.now) p (call_with call given.now) }
{
    if is_stream_call(call) {
        stream_refusal(world, images, p, call, given)
    } else if is_event_call(call) {
        event_refusal(world, images, p, call, given)
    } else {
        call_refusal(LAST_PLAIN_POINT, world, images, p, call, given)
    }
}

/// The stage at which a call of process p begins, or its refusal of least number that needs no
/// object. The call comes with its bytes. No memory is taken.
pub fn early(
    alloc: Global,
    world: &World,
    images: &Images,
    p: u8,
    call: BareCall,
    given: Vec<u8>,
) -> Result<Stage, Refusal>
    ensures { begun_of result ≡ all_calls.early (world_of world.now) (table_of images.now) p
        (call_with call given.items) }
{
    match refusal(world, images, p, call, &given) {
        Some(refusal) => Err(refusal),
        None => Ok(Stage {
            call,
            given,
            piece: 0,
            handlers: Vec::new(alloc),
            answers: 0,
            bytes: Vec::new(alloc),
        }),
    }
}
