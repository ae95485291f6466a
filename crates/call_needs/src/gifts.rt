//! The bytes that a piece gives.

ghost use Rattle.std.specs.Prelude.{◌≡◌, ◌≤◌, ◌<◌, ◌+◌, ◌++◌, true, Some, None, drop, length};
ghost use Rattle.std.specs.Prelude.{slice_range, take, is_some, IfSome, IfNone};
ghost use Rattle.kernel_model.specs.Fetch.{bytes_of};
ghost use Rattle.kernel_state.specs.Frames.{in_use};
ghost use Rattle.kernel_state.specs.Stores.{body_at, cache_of};

use crate::bodies::{body_len, body_place, frame_bytes};
use kernel_model::BLOCK_BYTES;
use kernel_state::{Policy, Store};
use std::marker::Model;

/// So few bytes are copied together with those behind them, as many as these: then what is done doesn't
/// hang on how many they are.
const FEW: usize = 16;

/// The bytes that a piece gave, if it gave some: a part of a block. Contracts see their list, or
/// none.
#[derive(Drop)]
pub struct Gift {
    given: bool,
    block: [u8; BLOCK_BYTES],
    count: usize,
}

impl Model for Gift {
    ghost use Rattle.std.specs.Prelude.{ℕ, ◌≤◌, List, Option, Some, None, cond, take};

    ghost Value = { Option (List ℕ) };

    ghost view = { λ g. cond g.given (Some (take g.count g.block)) None };

    ghost invariant = { λ g. g.count ≤ 512 };
}

impl Gift {
    /// No bytes.
    pub fn new() -> Gift
        ensures { result ≡ None }
    {
        Gift {
            given: false,
            block: [0; BLOCK_BYTES],
            count: 0,
        }
    }

    /// Forgets what was given. Takes a store of one byte.
    pub fn clear(&mut self)
        ensures { self.new ≡ None }
    {
        self.given = false;
    }

    /// The bytes, if some were given.
    pub fn bytes(&self) -> Option<&[u8]>
        ensures some { IfSome result (λ b. self.now ≡ Some b.now) }
        ensures none { IfNone result (self.now ≡ None) }
        ensures few { IfSome result (λ b. length b.now ≤ 512) }
    {
        if self.given {
            Some(&self.block[..self.count])
        } else {
            None
        }
    }

    /// Gives these bytes.
    pub fn give_bytes(&mut self, bytes: &[u8])
        requires { length bytes.now ≤ 512 }
        ensures { self.new ≡ Some bytes.now }
    {
        put_first(&mut self.block, bytes);
        self.given = true;
        self.count = bytes.len();
    }

    /// Gives the bytes that an answer of process p gives.
    pub fn give_body<B: Policy>(&mut self, store: &Store<B>, p: u8, answer: [u32; 4])
        requires process { p < 16 }
        ensures { self.new ≡ Some (body_at store.now.ram p answer) }
    {
        self.give_bytes(store.ram.bytes(body_place(p), body_len(answer)));
    }

    /// Gives bytes off to off + len of frame f, which is in use.
    pub fn give<B: Policy>(&mut self, store: &Store<B>, f: u8, off: u32, len: u32)
        requires in_cache { in_use f store.now.cache ≡ true }
        requires inside { off + len ≤ 512 }
        ensures { self.new ≡ Some (slice_range (bytes_of (cache_of store.now) f) off (off + len)) }
    {
        put_range(
            &mut self.block,
            frame_bytes(store, f),
            off as usize,
            len as usize,
        );
        self.given = true;
        self.count = len as usize;
    }

    /// Puts the bytes that were given from a place on, behind which a block fits. What stands
    /// before the place stays.
    #[inline(always)]
    pub fn copy_to(&self, bytes: &mut [u8], at: usize)
        requires given { is_some self.now ≡ true }
        requires fits { at + 512 ≤ length bytes.old }
        ensures bytes { IfSome self.now (λ b. take (at + length b) bytes.new
            ≡ take at bytes.old ++ b) }
        ensures size { length bytes.new ≡ length bytes.old }
    {
        put_at(bytes, at, &self.block, self.count);
    }
}

/// Puts bytes in place of as many from the first on.
fn put_first(block: &mut [u8], bytes: &[u8])
    requires { length bytes.now ≤ length block.old }
    ensures { block.new ≡ bytes.now ++ drop (length bytes.now) block.old }
{
    block[..bytes.len()].copy_from_slice(bytes);
}

/// Puts bytes off to off + len of a frame in front of a block.
fn put_range(block: &mut [u8], frame: &[u8], off: usize, len: usize)
    requires block { length block.old ≡ 512 }
    requires frame { length frame.now ≡ 512 }
    requires inside { off + len ≤ 512 }
    ensures value { take len block.new ≡ slice_range frame.now off (off + len) }
    ensures size { length block.new ≡ 512 }
{
    if len <= FEW && off <= BLOCK_BYTES - FEW {
        put_first(block, &frame[off..off + FEW]);
    } else {
        put_first(block, &frame[off..off + len]);
    }
}

/// Puts bytes in place of those from a place on.
#[inline(always)]
fn put_over(bytes: &mut [u8], at: usize, from: &[u8])
    requires { at + length from.now ≤ length bytes.old }
    ensures { bytes.new ≡ take at bytes.old ++ from.now ++ drop (at + length from.now) bytes.old }
{
    bytes[at..at + from.len()].copy_from_slice(from);
}

/// Puts the first bytes of a block, so many, from a place on, behind which the block fits.
#[inline(always)]
fn put_at(bytes: &mut [u8], at: usize, block: &[u8], count: usize)
    requires block { length block.now ≡ 512 }
    requires count { count ≤ 512 }
    requires fits { at + 512 ≤ length bytes.old }
    ensures bytes { take (at + count) bytes.new ≡ take at bytes.old ++ take count block.now }
    ensures size { length bytes.new ≡ length bytes.old }
{
    if count > FEW {
        put_over(bytes, at, &block[..count]);
    } else {
        put_over(bytes, at, &block[..FEW]);
    }
}
