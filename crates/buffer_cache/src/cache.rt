//! `Cache`.

ghost use Rattle.std.specs.Prelude.{◌≡◌, ℕ, ◌+◌, ◌*◌, ◌<◌, ◌≤◌, ◌++◌, true, false, [], length};
ghost use Rattle.std.specs.Prelude.{take, drop, replicate, Option, Some, None, IfSome, IfNone};
ghost use Rattle.std.specs.Prelude.{slice_index};
ghost use Rattle.std.specs.List.{position};
ghost use Rattle.std.specs.Option.{is_none};
ghost use Rattle.kernel_data.specs.declared.FrameRow.{FrameRow as Row};
ghost use Rattle.buffer_cache.specs.Frames.{filled_row};

use crate::frames::{
    change_owner, exchange, free_frame, held_in, make_newest, no_rows, put_row, row_of,
};
use crate::index::{BLOCKS, find_frame, first_index, lead};
use arrayvec::ArrayVec;
use kernel_data::{BLOCK_BYTES, FRAMES, FrameRow};
use ram_space::Ram;
use std::marker::Model;

/// The frames, of which frame f has the 512 bytes of memory from 512 * f on.
///
/// Contracts see what each frame holds, the order of use, and how many frames there are.
#[derive(Drop)]
pub struct Cache {
    rows: [Option<FrameRow>; FRAMES],
    order: ArrayVec<u8, FRAMES>,
    count: u8,
    index: [u8; BLOCKS],
}

impl Model for Cache {
    ghost use Rattle.buffer_cache.specs.Frames.{Frames, IsFrames};
    ghost use Rattle.buffer_cache.specs.BlockIndex.{IsIndex};

    ghost Value = { Frames };

    ghost view = { λ c. record { rows = c.rows; order = c.order.items; count = c.count } };

    ghost invariant = { λ c.
        IsFrames (record { rows = c.rows; order = c.order.items; count = c.count })
        × IsIndex c.index c.rows };
}

/// Where a frame's bytes begin.
fn start_of(f: u8) -> u32
    ensures { result ≡ 512 * f }
{
    BLOCK_BYTES as u32 * f as u32
}

/// What a frame holds that was just filled.
fn new_row(frame: u8, owner: u8, block: u32) -> FrameRow
    ensures { result ≡ filled_row frame owner block }
{
    FrameRow {
        frame,
        owner,
        block,
        dirty: false,
        mark: 0,
    }
}

impl Cache {
    ghost use Rattle.buffer_cache.specs.Frames.{row_at, in_use, holds, filled, touched, swapped};
    ghost use Rattle.buffer_cache.specs.Frames.{with_row, handed_over, IsFrames};

    /// So many frames, 2 to 64, none in use.
    pub fn new(frames: u8) -> Cache
        requires least { 2 ≤ frames }
        requires most { frames ≤ 64 }
        ensures { result ≡ record { rows = replicate 64 None; order = []; count = frames } }
    {
        Cache {
            rows: no_rows(),
            order: ArrayVec::new(),
            count: frames,
            index: first_index(),
        }
    }

    /// The frame that holds a block.
    pub fn find(&self, block: u32) -> Option<u8>
        ensures value { result ≡ position (holds block) self.now.rows }
        ensures found { IfSome result (λ f. holds block (row_at self.now.rows f) ≡ true) }
        ensures used { IfSome result (λ f. in_use f self.now ≡ true) }
        ensures below { IfSome result (λ f. f < self.now.count) }
        ensures missing { IfNone result ((f : ℕ) → holds block (row_at self.now.rows f) ≡ false) }
    {
        find_frame(&self.index, &self.rows, block)
    }

    /// The lowest frame that isn't in use.
    pub fn free(&self) -> Option<u8>
        ensures value { result
            ≡ position (λ (r : Option Row). is_none r) (take self.now.count self.now.rows) }
        ensures below { IfSome result (λ f. f < self.now.count) }
        ensures unused { IfSome result (λ f. in_use f self.now ≡ false) }
        ensures full { IfNone result ((f : ℕ) → f < self.now.count → in_use f self.now ≡ true) }
    {
        if self.order.len() == usize::from(self.count) {
            return None;
        }
        free_frame(&self.rows, self.count)
    }

    /// The frames in use, oldest first.
    pub fn lru(&self) -> &[u8]
        ensures value { result.now ≡ self.now.order }
        ensures used { (i : ℕ) → i < length result.now →
            in_use (slice_index result.now i) self.now ≡ true }
        ensures sound { IsFrames self.now }
    {
        self.order.as_slice()
    }

    /// What frame f holds, if it is in use.
    pub fn held(&self, f: u8) -> Option<FrameRow>
        ensures { result ≡ row_at self.now.rows f }
    {
        held_in(&self.rows, f)
    }

    /// What frame f holds, which is in use.
    pub fn row(&self, f: u8) -> FrameRow
        requires { in_use f self.now ≡ true }
        ensures value { row_at self.now.rows f ≡ Some result }
        ensures number { result.frame ≡ f }
    {
        row_of(&self.rows, f)
    }

    /// Fills frame f with a block that no other frame holds: it is clean, has mark 0 and is the
    /// newest. The owner is a process, 0 to 15, and blocks are below 4,096.
    pub fn fill(&mut self, ram: &mut Ram, f: u8, owner: u8, block: u32, bytes: &[u8; 512])
        requires frame { f < self.old.count }
        requires owner { owner < 16 }
        requires range { block < 4096 }
        requires no_other { (g : ℕ) → holds block (row_at self.old.rows g) ≡ true → g ≡ f }
        ensures cache { self.new ≡ filled f (filled_row f owner block) self.old }
        ensures memory { ram.new ≡ take (512 * f) ram.old ++ bytes.now
            ++ drop (512 * f + 512) ram.old }
    {
        put_row(&mut self.rows, f, new_row(f, owner, block));
        make_newest(&mut self.order, f);
        lead(&mut self.index, block, f);
        ram.copy_in(start_of(f), bytes);
    }

    /// Makes frame f the newest, which is in use.
    pub fn touch(&mut self, f: u8)
        requires { in_use f self.old ≡ true }
        ensures { self.new ≡ touched f self.old }
    {
        make_newest(&mut self.order, f);
    }

    /// Two frames in use change places in the order of use.
    pub fn swap_places(&mut self, f: u8, g: u8)
        requires first { in_use f self.old ≡ true }
        requires second { in_use g self.old ≡ true }
        ensures { self.new ≡ swapped f g self.old }
    {
        exchange(&mut self.order, f, g);
    }

    /// Puts bytes into frame f, which is in use, from a place in it on. It is dirty then.
    pub fn patch(&mut self, ram: &mut Ram, f: u8, off: u32, bytes: &[u8])
        requires used { in_use f self.old ≡ true }
        requires inside { off + length bytes.now ≤ 512 }
        ensures cache { self.new ≡ with_row f (λ r. record r { dirty = true }) self.old }
        ensures memory { ram.new ≡ take (512 * f + off) ram.old ++ bytes.now
            ++ drop (512 * f + off + length bytes.now) ram.old }
    {
        let row = row_of(&self.rows, f);
        put_row(&mut self.rows, f, FrameRow { dirty: true, ..row });
        ram.copy_in(start_of(f) + off, bytes);
    }

    /// Frame f, which is in use, is clean.
    pub fn clean(&mut self, f: u8)
        requires { in_use f self.old ≡ true }
        ensures { self.new ≡ with_row f (λ r. record r { dirty = false }) self.old }
    {
        let row = row_of(&self.rows, f);
        put_row(
            &mut self.rows,
            f,
            FrameRow {
                dirty: false,
                ..row
            },
        );
    }

    /// Gives frame f, which is in use, a mark.
    pub fn mark(&mut self, f: u8, v: u8)
        requires { in_use f self.old ≡ true }
        ensures { self.new ≡ with_row f (λ r. record r { mark = v }) self.old }
    {
        let row = row_of(&self.rows, f);
        put_row(&mut self.rows, f, FrameRow { mark: v, ..row });
    }

    /// A process, 0 to 15, becomes the owner of what another one owned.
    pub fn hand_over(&mut self, from: u8, to: u8)
        requires from { from < 16 }
        requires to { to < 16 }
        ensures value { self.new ≡ handed_over from to self.old }
        ensures used { (f : ℕ) → in_use f self.new ≡ in_use f self.old }
    {
        change_owner(&mut self.rows, from, to);
    }
}
