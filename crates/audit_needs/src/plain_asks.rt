//! The points that the pieces of plain calls ask.

ghost use Rattle.std.specs.Prelude.{◌≡◌, ℕ, List, Some, IfOk};
ghost use Rattle.kernel_model.specs.Bare.{call_with};
ghost use Rattle.kernel_model.specs.Needs as model;
ghost use Rattle.kernel_model.specs.Policies.{args_by, Ahead};
ghost use Rattle.audit_state.specs.Things.{things_of};
ghost use Rattle.audit_state.specs.Worlds.{world_of};

use crate::Scene;
use crate::blocks::{Place, ahead_at, block_at, candidate_for, owner_asked, word_of_block};
use audit_state::PointKind;
use audit_state::policies::{byte_of, word_of};
use kernel_model::{BareCall, NoMemory, Point, Refusal};

/// The point of the candidate's owner, for a block to come.
fn victim_ask(scene: &Scene<'_>, b: u64, candidate: Option<u32>) -> Result<Option<Point>, NoMemory>
    ensures { IfOk result (λ a. (bytes : ℕ → List ℕ) →
        a ≡ model.victim_ask (things_of bytes scene.now.things.now).cache b candidate) }
{
    match candidate {
        None => Ok(None),
        Some(f) => {
            let owner = owner_asked(scene.things, f);
            let frames = scene.things.frames_of(scene.alloc, owner)?;
            let count = word_of(frames.len())?;
            let block = word_of_block(b)?;
            Ok(Some(Point {
                installer: owner,
                point: 4,
                args: [f, block, count, 0],
            }))
        }
    }
}

/// The point that a fetch asks.
pub(crate) fn fetch_ask(
    scene: &Scene<'_>,
    block: Result<u64, Refusal>,
) -> Result<Option<Point>, NoMemory>
    ensures { IfOk result (λ a. (bytes : ℕ → List ℕ) → a ≡ model.fetch_ask
        (world_of scene.now.world.now) (things_of bytes scene.now.things.now) block) }
{
    match block {
        Err(_) => Ok(None),
        Ok(b) => victim_ask(scene, b, candidate_for(scene.world, scene.things, b)),
    }
}

/// The point of the candidate for a slice.
fn slice_ask(scene: &Scene<'_>, candidate: Option<u8>) -> Result<Option<Point>, NoMemory>
    ensures { IfOk result (λ a. (bytes : ℕ → List ℕ) → a ≡ model.slice_ask
        (world_of scene.now.world.now) (things_of bytes scene.now.things.now) candidate) }
{
    match candidate {
        None => Ok(None),
        Some(c) => {
            let args = scene
                .things
                .args_by(scene.alloc, PointKind::Next, scene.world, c, 5)?;
            Ok(Some(Point {
                installer: c,
                point: 5,
                args,
            }))
        }
    }
}

/// The points of the two pieces of a yield.
fn yield_ask(scene: &Scene<'_>, piece: u32) -> Result<Option<Point>, NoMemory>
    ensures { IfOk result (λ a. (bytes : ℕ → List ℕ) → a ≡ model.yield_ask piece
        (world_of scene.now.world.now) (things_of bytes scene.now.things.now)) }
{
    if piece == 0 {
        Ok(None)
    } else {
        let asked = slice_ask(scene, scene.things.next_process())?;
        Ok(asked)
    }
}

/// The point of reading ahead of an open file.
fn ahead_ask(scene: &Scene<'_>, p: u8, fd: u32) -> Result<Option<Point>, NoMemory>
    ensures { IfOk result (λ a. (bytes : ℕ → List ℕ) → a ≡ Some (record {
      installer = p;
      point = fd;
      args = args_by Ahead (world_of scene.now.world.now)
          (things_of bytes scene.now.things.now) p fd;
    })) }
{
    let point = byte_of(fd)?;
    let args = scene
        .things
        .args_by(scene.alloc, PointKind::Ahead, scene.world, p, point)?;
    Ok(Some(Point {
        installer: p,
        point,
        args,
    }))
}

/// The point that a fetch of a place in an open file asks.
pub(crate) fn block_ask(
    scene: &Scene<'_>,
    p: u8,
    place: Place,
    count: usize,
) -> Result<Option<Point>, NoMemory>
    ensures { IfOk result (λ a. (bytes : ℕ → List ℕ) →
        let w = things_of bytes scene.now.things.now in
        a ≡ model.fetch_ask (world_of scene.now.world.now) w
        (model.file_block (world_of scene.now.world.now) (w.file p place.descriptor)
        place.block place.offset count)) }
{
    let block = block_at(scene, p, place, count);
    let asked = fetch_ask(scene, block)?;
    Ok(asked)
}

/// The point that a fetch of the block asks which is to be read ahead next.
fn next_ask(scene: &Scene<'_>, p: u8, fd: u32) -> Result<Option<Point>, NoMemory>
    ensures { IfOk result (λ a. (bytes : ℕ → List ℕ) →
        let w = things_of bytes scene.now.things.now in
        a ≡ model.fetch_ask (world_of scene.now.world.now) w
        (model.ahead_block (world_of scene.now.world.now) (w.file p fd))) }
{
    let block = ahead_at(scene, p, fd);
    let asked = fetch_ask(scene, block)?;
    Ok(asked)
}

/// The points of the three kinds of pieces of a read.
fn read_ask(
    scene: &Scene<'_>,
    p: u8,
    piece: u32,
    place: Place,
    count: usize,
) -> Result<Option<Point>, NoMemory>
    ensures { IfOk result (λ a. (bytes : ℕ → List ℕ) → a ≡ model.read_ask piece
        (world_of scene.now.world.now) (things_of bytes scene.now.things.now) p
        place.descriptor place.block place.offset count) }
{
    match piece {
        0 => block_ask(scene, p, place, count),
        1 => ahead_ask(scene, p, place.descriptor),
        _ => next_ask(scene, p, place.descriptor),
    }
}

/// The point that the piece of this number of a plain call asks.
pub(crate) fn piece_ask(
    scene: &Scene<'_>,
    p: u8,
    call: BareCall,
    given: &[u8],
    piece: u32,
) -> Result<Option<Point>, NoMemory>
    ensures { IfOk result (λ a. (bytes : ℕ → List ℕ) →
        a ≡ model.piece_ask (call_with call given.now) piece
        (world_of scene.now.world.now) (things_of bytes scene.now.things.now) p) }
{
    match call {
        BareCall::Yield => yield_ask(scene, piece),
        BareCall::Read {
            descriptor,
            block,
            offset,
            length,
        } => {
            let place = Place {
                descriptor,
                block,
                offset,
            };
            read_ask(scene, p, piece, place, length as usize)
        }
        BareCall::Write {
            descriptor,
            block,
            offset,
        } => {
            let place = Place {
                descriptor,
                block,
                offset,
            };
            block_ask(scene, p, place, given.len())
        }
        _ => Ok(None),
    }
}
