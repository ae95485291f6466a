//! Segments by number: each has 4,096 bytes and is there or not. What grafts keep lies in them, and
//! what was kept before.

ghost use Rattle.std.specs.Prelude.{◌≡◌, ℕ, ◌<◌, ◌≤◌, ◌*◌, ◌+◌, ◌++◌, true, false, List, None};
ghost use Rattle.std.specs.Prelude.{Some, take, drop, length, replicate, slice_set, slice_index_or};
ghost use Rattle.std.specs.Prelude.{slice_range, ◌-◌, IfOk, IfSome};
ghost use Rattle.std.specs.Option.{option_copied};
ghost use Rattle.ram_space.specs.Tables.{AreSegments, segments_of};

use fixed_room::Room;
use kernel_data::NoMemory;
use std::alloc::Global;
use std::marker::Model;

/// The bytes of a segment.
pub const SEGMENT_BYTES: usize = 4096;

/// The most segments of one table.
pub const MOST_SEGMENTS: usize = 256;

/// Segments by number, from 0. Contracts see a list of them: the bytes of each that is there, and
/// None of the others. The memory for all is taken at first, and stays what it was, but no byte of
/// it is written before it is needed.
#[derive(Drop)]
pub struct Segments {
    there: Room<bool>,
    bytes: Room<u8>,
}

impl Model for Segments {
    ghost use Rattle.std.specs.Prelude.{◌≡◌, ℕ, ◌*◌, List, Option, length};
    ghost use Rattle.ram_space.specs.Tables.{AreSegments, segments_of};

    ghost Value = { List (Option (List ℕ)) };

    ghost view = { λ s. segments_of s.there.items s.bytes.items };

    ghost invariant = { λ s. AreSegments s.there.items s.bytes.items
        × (s.there.room ≡ length s.there.items) × (s.bytes.room ≡ 4096 * length s.there.items) };
}

/// Segment i of these flags and bytes, if it is there.
#[tactic(auto, using(crate::proofs::Padded::segment_at))]
fn segment_in<'a>(there: &[bool], bytes: &'a [u8], i: usize) -> Option<&'a [u8]>
    requires number { i < length there.now }
    requires size { AreSegments there.now bytes.now }
    ensures value { option_copied result ≡ slice_index_or (segments_of there.now bytes.now) i None }
    ensures whole { IfSome result (λ s. length s.now ≡ 4096) }
{
    if there[i] {
        Some(&bytes[SEGMENT_BYTES * i..SEGMENT_BYTES * i + SEGMENT_BYTES])
    } else {
        None
    }
}

/// Puts bytes in place of those of segment i.
fn put_bytes(bytes: &mut [u8], i: usize, from: &[u8])
    requires number { i < 256 }
    requires inside { 4096 * i + 4096 ≤ length bytes.old }
    requires whole { length from.now ≡ 4096 }
    ensures value { bytes.new
        ≡ take (4096 * i) bytes.old ++ from.now ++ drop (4096 * i + 4096) bytes.old }
    ensures size { length bytes.new ≡ length bytes.old }
{
    bytes[SEGMENT_BYTES * i..SEGMENT_BYTES * i + SEGMENT_BYTES].copy_from_slice(from);
}

/// Bytes are in the place of segment i, where there is room for them.
fn put_at(bytes: &mut Room<u8>, i: usize, from: &[u8])
    requires number { i < 256 }
    requires room { 4096 * i + 4096 ≤ bytes.old.room }
    requires whole { length from.now ≡ 4096 }
    ensures value { let ys = bytes.old.items
        ++ replicate (4096 * i + 4096 - length bytes.old.items) 0 in
        bytes.new.items ≡ take (4096 * i) ys ++ from.now ++ drop (4096 * i + 4096) ys }
    ensures room { bytes.new.room ≡ bytes.old.room }
{
    bytes.reach(SEGMENT_BYTES * i + SEGMENT_BYTES, 0);
    put_bytes(bytes, i, from);
}

/// Segment i becomes these bytes.
#[tactic(auto, using(crate::proofs::Padded::segment_put, crate::proofs::Padded::put_sound))]
fn put_in(there: &mut [bool], bytes: &mut Room<u8>, i: usize, from: &[u8])
    requires number { i < length there.old }
    requires sound { AreSegments there.old bytes.old.items }
    requires room { bytes.old.room ≡ 4096 * length there.old }
    requires whole { length from.now ≡ 4096 }
    ensures value { segments_of there.new bytes.new.items
        ≡ slice_set (segments_of there.old bytes.old.items) i (Some from.now) }
    ensures sound { AreSegments there.new bytes.new.items }
    ensures room { bytes.new.room ≡ bytes.old.room }
    ensures size { length there.new ≡ length there.old }
{
    put_at(bytes, i, from);
    there[i] = true;
}

/// Segment i isn't there any more.
#[tactic(auto, using(crate::proofs::Padded::segment_unset, crate::proofs::Padded::unset_sound))]
fn take_out(there: &mut [bool], i: usize)
    requires { i < length there.old }
    ensures value { (bytes : List ℕ) →
        segments_of there.new bytes ≡ slice_set (segments_of there.old bytes) i None }
    ensures sound { (bytes : List ℕ) → AreSegments there.old bytes → AreSegments there.new bytes }
    ensures size { length there.new ≡ length there.old }
{
    there[i] = false;
}

/// No segment is there any more.
#[tactic(auto, using(crate::proofs::Padded::segments_clear, crate::proofs::Padded::clear_sound))]
fn clear_flags(there: &mut [bool])
    ensures value { (bytes : List ℕ) →
        segments_of there.new bytes ≡ replicate (length (segments_of there.old bytes)) None }
    ensures sound { (bytes : List ℕ) → AreSegments there.old bytes → AreSegments there.new bytes }
    ensures size { length there.new ≡ length there.old }
{
    there.fill(false);
}

impl Segments {
    /// So many segments, at most 256, of which none is there. Takes all the memory that it ever
    /// does.
    #[tactic(auto, using(crate::proofs::TableLemmas::table_clear))]
    pub fn new(alloc: Global, count: usize) -> Result<Segments, NoMemory>
        requires { count ≤ MOST_SEGMENTS }
        ensures { IfOk result (λ s. s ≡ replicate count None) }
    {
        let Ok(there) = Room::filled(alloc, false, count) else {
            return Err(NoMemory);
        };
        match Room::with_capacity(alloc, SEGMENT_BYTES * count) {
            Ok(bytes) => Ok(Segments { there, bytes }),
            Err(_) => Err(NoMemory),
        }
    }

    /// The 4,096 bytes of segment i, if it is there.
    #[tactic(auto, using(crate::proofs::Padded::segments_length))]
    pub fn get(&self, i: usize) -> Option<&[u8]>
        requires { i < length self.now }
        ensures value { option_copied result ≡ slice_index_or self.now i None }
        ensures whole { IfSome result (λ s. length s.now ≡ 4096) }
    {
        segment_in(&self.there, &self.bytes, i)
    }

    /// Segment i becomes these 4,096 bytes, or isn't there any more.
    #[tactic(auto, using(crate::proofs::Padded::segments_length))]
    pub fn put(&mut self, i: usize, from: Option<&[u8]>)
        requires number { i < length self.old }
        requires whole { IfSome from (λ s. length s.now ≡ 4096) }
        ensures { self.new ≡ slice_set self.old i (option_copied from.entry) }
    {
        match from {
            Some(bytes) => put_in(&mut self.there, &mut self.bytes, i, bytes),
            None => take_out(&mut self.there, i),
        }
    }

    /// No segment is there any more.
    pub fn clear(&mut self)
        ensures { self.new ≡ replicate (length self.old) None }
    {
        clear_flags(&mut self.there);
    }
}
