//! What the pieces of the calls of stream points need, and which points they ask.

ghost use Rattle.std.specs.Prelude.{◌≡◌, ◌++◌, ℕ, List, OnOk, IfOk};
ghost use Rattle.std.specs.Prelude.{length as length_of};
ghost use Rattle.kernel_model.specs.declared.SysCall.TheVariants.{Write};
ghost use Rattle.kernel_model.specs.Bare.{call_with};
ghost use Rattle.kernel_model.specs.StreamPoints as model;
ghost use Rattle.kernel_model.specs.Objects.{Things};
ghost use Rattle.audit_state.specs.Accounts.{accounts_of};
ghost use Rattle.audit_state.specs.Things.{things_of};
ghost use Rattle.audit_state.specs.Worlds.{world_of};
ghost use Rattle.audit_needs.specs.Stages.{call_of, stage_of, objects_of};

use crate::blocks::{Place, block_at};
use crate::lists::{point, shared};
use crate::plain_asks::{block_ask, piece_ask};
use crate::plain_needs::{block_needs, piece_needs};
use crate::{Scene, Stage};
use audit_state::Accounts;
use audit_state::policies::{byte_of, word_of};
use kernel_model::{BareCall, Need, NoMemory, Object, Point, Refusal};

/// The point of stream reads, and that of stream writes.
const READ_POINT: u8 = 14;

const WRITE_POINT: u8 = 15;

/// A write at a place.
fn write_at(place: Place) -> BareCall
    ensures { (bytes : List ℕ) →
        call_with result bytes ≡ Write place.descriptor place.block place.offset bytes }
{
    BareCall::Write {
        descriptor: place.descriptor,
        block: place.block,
        offset: place.offset,
    }
}

/// First the file and the block, then the point.
fn stream_read_needs(
    out: &mut Vec<Need>,
    scene: &Scene<'_>,
    p: u8,
    piece: u32,
    place: Place,
    count: usize,
) -> Result<(), NoMemory>
    ensures { OnOk result ((bytes : ℕ → List ℕ) → out.new.items ≡ out.old.items
        ++ model.stream_read_needs piece (world_of scene.now.world.now)
        (objects_of bytes scene.now.accounts.now scene.now.things.now) p
        place.descriptor place.block place.offset count) }
{
    if piece == 0 {
        shared(out, Object::OpenFile(p, byte_of(place.descriptor)?))?;
        block_needs(out, scene, p, place, count)?;
        Ok(())
    } else {
        point(out, scene.accounts, p, READ_POINT)?;
        Ok(())
    }
}

/// The point of stream writes, where the file has these bytes.
fn stream_point_needs(
    out: &mut Vec<Need>,
    accounts: &Accounts,
    p: u8,
    block: Result<u64, Refusal>,
) -> Result<(), NoMemory>
    ensures { OnOk result ((w : Things) → out.new.items ≡ out.old.items
        ++ model.stream_point_needs
        (record { accounts = accounts_of accounts.now; things = w }) p block) }
{
    match block {
        Err(_) => Ok(()),
        Ok(_) => point(out, accounts, p, WRITE_POINT),
    }
}

/// First the file and the point, then the objects of a write of what came out.
fn stream_write_needs(
    out: &mut Vec<Need>,
    scene: &Scene<'_>,
    p: u8,
    place: Place,
    stage: &Stage,
) -> Result<(), NoMemory>
    ensures { OnOk result ((bytes : ℕ → List ℕ) → out.new.items ≡ out.old.items
        ++ model.stream_write_needs stage.now.piece (world_of scene.now.world.now)
        (objects_of bytes scene.now.accounts.now scene.now.things.now) p
        place.descriptor place.block place.offset stage.now.given.items stage.now.bytes.items) }
{
    if stage.piece == 0 {
        shared(out, Object::OpenFile(p, byte_of(place.descriptor)?))?;
        let count = stage.given.as_slice().len();
        let block = block_at(scene, p, place, count);
        stream_point_needs(out, scene.accounts, p, block)?;
        Ok(())
    } else {
        piece_needs(out, scene, p, write_at(place), &stage.bytes, 0)?;
        Ok(())
    }
}

/// The objects of the next piece of a call of stream points.
pub(crate) fn stream_needs(
    out: &mut Vec<Need>,
    scene: &Scene<'_>,
    p: u8,
    stage: &Stage,
) -> Result<(), NoMemory>
    ensures { OnOk result ((bytes : ℕ → List ℕ) → out.new.items ≡ out.old.items
        ++ model.stream_needs (call_of stage.now) (stage_of stage.now)
        (world_of scene.now.world.now)
        (objects_of bytes scene.now.accounts.now scene.now.things.now) p) }
{
    match stage.call {
        BareCall::StreamRead {
            descriptor,
            block,
            offset,
            length,
        } => {
            let place = Place {
                descriptor,
                block,
                offset,
            };
            stream_read_needs(out, scene, p, stage.piece, place, length as usize)
        }
        BareCall::StreamWrite {
            descriptor,
            block,
            offset,
        } => {
            let place = Place {
                descriptor,
                block,
                offset,
            };
            stream_write_needs(out, scene, p, place, stage)
        }
        call => {
            piece_needs(out, scene, p, call, &stage.given, stage.piece)?;
            Ok(())
        }
    }
}

/// A point is asked with how many bytes there are, the block, the offset and the descriptor.
fn stream_point(p: u8, pt: u8, count: u32, place: Place) -> Point
    ensures { result
        ≡ model.stream_point p pt count place.block place.offset place.descriptor }
{
    Point {
        installer: p,
        point: pt,
        args: [count, place.block, place.offset, place.descriptor],
    }
}

/// The point of a fetch, then that of the stream.
fn stream_read_ask(
    scene: &Scene<'_>,
    p: u8,
    place: Place,
    count: usize,
    stage: &Stage,
) -> Result<Option<Point>, NoMemory>
    ensures { IfOk result (λ a. (bytes : ℕ → List ℕ) → a ≡ model.stream_read_ask stage.now.piece
        (world_of scene.now.world.now) (things_of bytes scene.now.things.now) p place.descriptor
        place.block place.offset count (length_of stage.now.bytes.items)) }
{
    if stage.piece == 0 {
        block_ask(scene, p, place, count)
    } else {
        let carried = word_of(stage.bytes.len())?;
        Ok(Some(stream_point(p, READ_POINT, carried, place)))
    }
}

/// The point of stream writes, where the file has these bytes.
fn stream_write_asks(
    p: u8,
    place: Place,
    count: usize,
    block: Result<u64, Refusal>,
) -> Result<Option<Point>, NoMemory>
    ensures { IfOk result (λ a. a ≡ model.stream_write_asks p place.descriptor place.block
        place.offset count block) }
{
    match block {
        Err(_) => Ok(None),
        Ok(_) => {
            let count = word_of(count)?;
            Ok(Some(stream_point(p, WRITE_POINT, count, place)))
        }
    }
}

/// The point of stream writes, then that of a write of what came out.
fn stream_write_ask(
    scene: &Scene<'_>,
    p: u8,
    place: Place,
    stage: &Stage,
) -> Result<Option<Point>, NoMemory>
    ensures { IfOk result (λ a. (bytes : ℕ → List ℕ) → a ≡ model.stream_write_ask stage.now.piece
        (world_of scene.now.world.now) (things_of bytes scene.now.things.now) p place.descriptor
        place.block place.offset stage.now.given.items stage.now.bytes.items) }
{
    if stage.piece == 0 {
        let count = stage.given.as_slice().len();
        let block = block_at(scene, p, place, count);
        let asked = stream_write_asks(p, place, count, block)?;
        Ok(asked)
    } else {
        let asked = piece_ask(scene, p, write_at(place), &stage.bytes, 0)?;
        Ok(asked)
    }
}

/// The point that the next piece of a call of stream points asks.
pub(crate) fn stream_ask(scene: &Scene<'_>, p: u8, stage: &Stage) -> Result<Option<Point>, NoMemory>
    ensures { IfOk result (λ a. (bytes : ℕ → List ℕ) → a ≡ model.stream_ask (call_of stage.now)
        (stage_of stage.now) (world_of scene.now.world.now)
        (things_of bytes scene.now.things.now) p) }
{
    match stage.call {
        BareCall::StreamRead {
            descriptor,
            block,
            offset,
            length,
        } => {
            let place = Place {
                descriptor,
                block,
                offset,
            };
            stream_read_ask(scene, p, place, length as usize, stage)
        }
        BareCall::StreamWrite {
            descriptor,
            block,
            offset,
        } => {
            let place = Place {
                descriptor,
                block,
                offset,
            };
            stream_write_ask(scene, p, place, stage)
        }
        _ => Ok(None),
    }
}
