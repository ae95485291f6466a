//! The work on rows and on the order of use, as functions over plain lists.

ghost use Rattle.std.specs.Prelude.{◌≡◌, ℕ, true, false, IfSome, IfNone, ◌<◌, ◌≤◌, ◌==◌, not};
ghost use Rattle.std.specs.Prelude.{length, take, filter, map, cond, Some, None, Option, replicate};
ghost use Rattle.std.specs.Prelude.{slice_index, slice_set, option_map, remove, [], ◌∷◌, ◌++◌};
ghost use Rattle.std.specs.List.{position};
ghost use Rattle.std.specs.Option.{is_none, is_some};
ghost use Rattle.kernel_data.specs.declared.FrameRow.{FrameRow as Row};
ghost use Rattle.buffer_cache.specs.Frames.{newest, uses, exchanged, handed, holds, row_at};

use arrayvec::ArrayVec;
use kernel_data::{FRAMES, FrameRow};

/// Rows of frames that aren't in use.
pub(crate) fn no_rows() -> [Option<FrameRow>; FRAMES]
    ensures { result ≡ replicate 64 None }
{
    [None; FRAMES]
}

/// Whether a frame holds this block.
pub(crate) fn is_holding(row: &Option<FrameRow>, block: u32) -> bool
    ensures { result ≡ holds block row.now }
{
    match row {
        Some(row) => row.block == block,
        None => false,
    }
}

/// The lowest of the first frames that isn't in use.
pub(crate) fn free_frame(rows: &[Option<FrameRow>], count: u8) -> Option<u8>
    requires { count ≤ length rows.now }
    ensures value { result ≡ position (λ (r : Option Row). is_none r) (take count rows.now) }
    ensures below { IfSome result (λ f. f < count) }
    ensures unused { IfSome result (λ f. is_some (row_at rows.now f) ≡ false) }
    ensures full { IfNone result ((f : ℕ) → f < count → is_some (row_at rows.now f) ≡ true) }
{
    for (f, row) in rows[..count as usize].iter().enumerate() {
        if row.is_none() {
            return Some(f as u8);
        }
    }
    None
}

/// What a frame holds, if it is in use.
pub(crate) fn held_in(rows: &[Option<FrameRow>], f: u8) -> Option<FrameRow>
    ensures { result ≡ row_at rows.now f }
{
    match rows.get(f as usize) {
        Some(row) => *row,
        None => None,
    }
}

/// What a frame in use holds.
pub(crate) fn row_of(rows: &[Option<FrameRow>], f: u8) -> FrameRow
    requires { is_some (row_at rows.now f) ≡ true }
    ensures { row_at rows.now f ≡ Some result }
{
    match rows[f as usize] {
        Some(row) => row,
        None => unreachable!(),
    }
}

/// Where a frame stands first in the order of use; behind all, where it doesn't.
fn place_of(order: &[u8], f: u8) -> usize
    ensures within { result ≤ length order.now }
    ensures before { uses f (take result order.now) ≡ 0 }
    ensures here { result < length order.now → slice_index order.now result ≡ f }
{
    for (i, g) in order.iter().enumerate() {
        if *g == f {
            return i;
        }
    }
    order.len()
}

/// The frame at a place goes behind all others.
fn put_last(order: &mut [u8], at: usize)
    requires { at < length order.old }
    ensures { order.new ≡ remove order.old at ++ slice_index order.old at ∷ [] }
{
    order[at..].rotate_left(1);
}

/// Makes a frame the newest, which stands once at most in the order of use.
pub(crate) fn make_newest(order: &mut ArrayVec<u8, FRAMES>, f: u8)
    requires room { length (filter (λ g. not (g == f)) order.old.items) < 64 }
    requires once { uses f order.old.items ≤ 1 }
    ensures { order.new.items ≡ newest f order.old.items }
{
    let at = place_of(order.as_slice(), f);
    if at < order.len() {
        put_last(order.as_mut_slice(), at);
    } else {
        order.push(f);
    }
}

/// A frame, or the other one of two.
fn other(h: u8, f: u8, g: u8) -> u8
    ensures { result ≡ exchanged f g h }
{
    if h == f {
        g
    } else if h == g {
        f
    } else {
        h
    }
}

/// Two frames change places in the order of use. A frame and itself do at once.
pub(crate) fn exchange(order: &mut ArrayVec<u8, FRAMES>, f: u8, g: u8)
    ensures { order.new.items ≡ map (exchanged f g) order.old.items }
{
    if f == g {
        return;
    }
    exchange_all(order.as_mut_slice(), f, g);
}

/// Puts for each frame the other one of two.
fn exchange_all(order: &mut [u8], f: u8, g: u8)
    ensures { order.new ≡ map (exchanged f g) order.old }
{
    for h in order.iter_mut() {
        *h = other(*h, f, g);
    }
}

/// Puts what a frame holds.
pub(crate) fn put_row(rows: &mut [Option<FrameRow>], f: u8, row: FrameRow)
    requires { f < length rows.old }
    ensures { rows.new ≡ slice_set rows.old f (Some row) }
{
    rows[f as usize] = Some(row);
}

/// A row with another owner, if it is that of the process.
fn row_for(row: &Option<FrameRow>, from: u8, to: u8) -> Option<FrameRow>
    ensures { result ≡ option_map (handed from to) row.now }
{
    match row {
        Some(row) if row.owner == from => Some(FrameRow { owner: to, ..*row }),
        _ => *row,
    }
}

/// A process becomes the owner of what another one owned.
pub(crate) fn change_owner(rows: &mut [Option<FrameRow>], from: u8, to: u8)
    ensures { rows.new ≡ map (λ (r : Option Row). option_map (handed from to) r) rows.old }
{
    for row in rows.iter_mut() {
        *row = row_for(row, from, to);
    }
}
