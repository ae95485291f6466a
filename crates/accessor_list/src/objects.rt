//! What the arguments of a callable alone decide: a refusal, or the object that it needs.

ghost use Rattle.std.specs.Prelude.{◌≡◌, ℕ, ◌<◌, ◌≤◌, false, not, is_none, slice_index, IfOk, IfSome};
ghost use Rattle.std.specs.Result.{result_err};
ghost use Rattle.kernel_model.specs.Access.{accessed, early_refusal, is_ask, is_out_of_range, is_tuning};
ghost use Rattle.kernel_model.specs.Laws.{IsInRange};

use crate::ids::{
    ASK_RA, CELL_GET, CELL_SET, FRAME_MARK, FRAMES_MINE, NICE_GET, NICE_SET, TAKE_LOCK, TUNE_GET,
    TUNE_SET, WINDOW_GET, WINDOW_SET,
};
use kernel_model::{Cause, Mode, Object};

/// The process that may tune policies.
const ROOT: u8 = 0;

const HIGHEST_CELL: u32 = 3;

const HIGHEST_DESCRIPTOR: u32 = 3;

const HIGHEST_NICE: u32 = 39;

const LARGEST_WINDOW: u32 = 8;

const HIGHEST_MARK: u32 = 255;

const HIGHEST_KIND: u32 = 2;

const HIGHEST_LOCK: u32 = 15;

/// Whether a callable gets or sets a parameter of a policy.
fn tunes(id: u32) -> bool
    ensures { result ≡ is_tuning id }
{
    id == TUNE_GET || id == TUNE_SET
}

/// Whether the first two arguments are in their ranges, as far as the numbers alone show.
fn in_range(id: u32, first: u32, second: u32) -> bool
    requires { id ≤ 15 }
    ensures { result ≡ not (is_out_of_range id first second) }
{
    match id {
        CELL_GET | CELL_SET => first <= HIGHEST_CELL,
        NICE_SET => first <= HIGHEST_NICE,
        WINDOW_GET | ASK_RA => first <= HIGHEST_DESCRIPTOR,
        WINDOW_SET => first <= HIGHEST_DESCRIPTOR && second <= LARGEST_WINDOW,
        FRAME_MARK => second <= HIGHEST_MARK,
        TUNE_GET | TUNE_SET => first <= HIGHEST_KIND,
        TAKE_LOCK => first <= HIGHEST_LOCK,
        _ => true,
    }
}

/// How a plain accessor needs its object: one that changes it, and the lock, exclusively.
fn mode_of(id: u32) -> Mode
    requires { id ≤ 12 }
    ensures { (first q : ℕ) → result ≡ (accessed id first q).mode }
{
    match id {
        CELL_SET | NICE_SET | WINDOW_SET | FRAME_MARK | TUNE_SET | TAKE_LOCK => Mode::Exclusive,
        _ => Mode::Shared,
    }
}

/// The object of a plain accessor. An ask has none.
fn object_of(id: u32, first: u32, second: u32, q: u8) -> Option<Object>
    requires highest { id ≤ 15 }
    requires process { q < 16 }
    requires range { is_out_of_range id first second ≡ false }
    ensures ask { is_none result ≡ is_ask id }
    ensures object { IfSome result (λ o. o ≡ (accessed id first q).object) }
    ensures range { IfSome result IsInRange }
{
    match id {
        CELL_GET | CELL_SET => Some(Object::Cell(q, first as u8)),
        NICE_GET | NICE_SET => Some(Object::Queue),
        WINDOW_GET | WINDOW_SET => Some(Object::OpenFile(q, first as u8)),
        FRAMES_MINE..=FRAME_MARK => Some(Object::Cache),
        TUNE_GET | TUNE_SET => Some(Object::Pol(first as u8)),
        TAKE_LOCK => Some(Object::Lock(first as u8)),
        _ => None,
    }
}

/// What a call with these arguments comes to before its object is looked at, for a graft of process
/// q: a plain accessor's object and how it is needed, nothing for a call that asks another point,
/// or the refusal that needs no object.
pub fn early(id: u32, args: [u32; 3], q: u8) -> Result<Option<(Object, Mode)>, Cause>
    requires highest { id ≤ 15 }
    requires process { q < 16 }
    ensures refused { result_err result
        ≡ early_refusal 15 id (slice_index args 0) (slice_index args 1) q }
    ensures ask { IfOk result (λ found. is_none found ≡ is_ask id) }
    ensures object { IfOk result
        (λ found. IfSome found (λ f. f.0 ≡ (accessed id (slice_index args 0) q).object)) }
    ensures mode { IfOk result
        (λ found. IfSome found (λ f. f.1 ≡ (accessed id (slice_index args 0) q).mode)) }
    ensures range { IfOk result (λ found. IfSome found (λ f. IsInRange f.0)) }
{
    let [first, second, _] = args;
    if tunes(id) && q != ROOT {
        return Err(Cause::NotAllowed(id));
    }
    if !in_range(id, first, second) {
        return Err(Cause::BadArgument(id));
    }
    Ok(object_of(id, first, second, q).map(|o| (o, mode_of(id))))
}
