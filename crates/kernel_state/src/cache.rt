//! The cache of a store, with the bytes of its frames.

ghost use Rattle.std.specs.Prelude.{◌≡◌, ℕ, ◌+◌, ◌*◌, ◌<◌, ◌≤◌, true, false, length, Some, None};
ghost use Rattle.std.specs.Prelude.{IfSome, IfNone, slice_range, option_map, map, filter_map};
ghost use Rattle.kernel_data.specs.Objects.{FrameValue};
ghost use Rattle.kernel_model.specs.Needs.{frame_of_block, free_frame, owner_asked};
ghost use Rattle.kernel_data.specs.Policies.{lives, victim_among};
ghost use Rattle.kernel_model.specs.Fetch.{used, filled, new_frame, replaced, with_patch, cleaned};
ghost use Rattle.kernel_model.specs.Fetch.{bytes_of, dirty_value};
ghost use Rattle.kernel_model.specs.FilePieces.{with_cache};
ghost use Rattle.kernel_model.specs.RawRows.{frame_row_of};
ghost use Rattle.kernel_data.specs.declared.FrameRow.{FrameRow as Row};
ghost use Rattle.buffer_cache.specs.Frames.{in_use, row_at};
ghost use Rattle.kernel_state.specs.CacheViews.{IsCandidate, IsLeastKey};
ghost use Rattle.kernel_state.specs.Changes.{Changes, ChangesFrames};
ghost use Rattle.kernel_state.specs.Stores.{world_of_store, objects_of, cache_of, queue_of, policies_of};

use crate::Store;
use buffer_cache::Cache;
use graft_points::Policy;
use kernel_data::{BLOCK_BYTES, Bytes, FrameRow, FrameRows};
use ram_space::Ram;

impl<B: Policy> Store<B> {
    /// The frame that holds a block.
    pub fn find(&self, block: u32) -> Option<u8>
        ensures value { result ≡ frame_of_block (cache_of self.now) block }
        ensures in_cache { IfSome result (λ f. in_use f self.now.cache ≡ true) }
    {
        self.cache.lru();
        self.cache.find(block)
    }

    /// The lowest frame that isn't in use.
    pub fn free(&self) -> Option<u8>
        ensures value { result ≡ free_frame (cache_of self.now) (world_of_store self.now).frames 0 }
        ensures some { 2 ≤ self.now.cache.count }
        ensures below { IfSome result (λ f. f < self.now.cache.count) }
        ensures full { IfNone result ((f : ℕ) → f < self.now.cache.count →
            in_use f self.now.cache ≡ true) }
    {
        self.cache.lru();
        self.cache.free()
    }

    /// The frames in use, oldest first.
    pub fn frame_rows(&self) -> FrameRows
        ensures value { map (λ (r : Row). Some r) result
            ≡ map (row_at self.now.cache.rows) self.now.cache.order }
        ensures shown { result
            ≡ filter_map (frame_row_of (objects_of self.now)) (cache_of self.now).lru }
    {
        let mut rows = FrameRows::new();
        for f in self.cache.lru() {
            let _ = rows.push(self.cache.row(*f));
        }
        rows
    }

    /// The candidate for eviction by default: the frame that the chosen policy evicts of those in
    /// use, if there are some.
    pub fn candidate(&self) -> Option<u8>
        ensures value { result
            ≡ victim_among (policies_of self.now 1) (cache_of self.now) (cache_of self.now).lru }
        ensures in_cache { IfSome result (λ f. in_use f self.now.cache ≡ true) }
        ensures none { IfNone result ((f : ℕ) → in_use f self.now.cache ≡ false) }
    {
        if let Some(f) = self.oldest() {
            return Some(f);
        }
        self.candidate_of_all()
    }

    /// Whether the chosen policy would rather evict frame f than a newer one, whatever that is: it
    /// goes by the order of use alone, or the mark of f isn't above the policy's floor.
    fn is_least(&self, f: u8) -> bool
        requires { in_use f self.now.cache ≡ true }
        ensures { result ≡ true → IsLeastKey (policies_of self.now 1) (cache_of self.now) f }
    {
        if self.choice.of(1) == 0 {
            return true;
        }
        match self.param(1) {
            Some(floor) => u32::from(self.cache.row(f).mark) <= floor,
            None => false,
        }
    }

    /// The oldest frame in use, where it is the candidate whatever the others are, so that no row
    /// of theirs is looked at.
    fn oldest(&self) -> Option<u8>
        ensures { IfSome result (λ f. IsCandidate (policies_of self.now 1) (cache_of self.now)
            self.now.cache (Some f)) }
    {
        match self.cache.lru() {
            [f, ..] if self.is_least(*f) => Some(*f),
            _ => None,
        }
    }

    /// The same by a look at all frames in use. It stands apart since room for their rows is cleared
    /// here.
    #[inline(never)]
    fn candidate_of_all(&self) -> Option<u8>
        ensures { IsCandidate (policies_of self.now 1) (cache_of self.now) self.now.cache result }
    {
        let rows = self.frame_rows();
        self.evicted(rows.as_slice())
    }

    /// The frame that the chosen policy evicts of those in use, which have these rows.
    fn evicted(&self, rows: &[FrameRow]) -> Option<u8>
        requires { map (λ (r : Row). Some r) rows.now
            ≡ map (row_at self.now.cache.rows) self.now.cache.order }
        ensures { IsCandidate (policies_of self.now 1) (cache_of self.now) self.now.cache result }
    {
        self.cache.lru();
        if rows.is_empty() {
            return None;
        }
        Some(self.shelf.victim(&self.choice, rows))
    }

    /// Whether frame f is in use.
    pub fn is_used(&self, f: u8) -> bool
        ensures { result ≡ in_use f self.now.cache }
    {
        self.cache.held(f).is_some()
    }

    /// The process of frame f, which is in use.
    pub fn owner(&self, f: u8) -> u8
        requires { in_use f self.now.cache ≡ true }
        ensures { result ≡ owner_asked (cache_of self.now) f }
    {
        self.cache.lru();
        self.cache.row(f).owner
    }

    /// Makes frame f, which is in use, the newest.
    pub fn touch(&mut self, f: u8)
        requires in_cache { in_use f self.old.cache ≡ true }
        ensures changed { Changes (λ s. with_cache (used f s.things.cache) s) self.old self.new }
        ensures kept { (g : ℕ) → in_use g self.new.cache ≡ in_use g self.old.cache }
    {
        self.cache.touch(f);
    }

    /// Fills frame f with a block that no frame holds: it is clean, has mark 0 and is the newest.
    pub fn fill(&mut self, f: u8, owner: u8, block: u32, bytes: &[u8; 512])
        requires frame { f < self.old.cache.count }
        requires alive { lives (queue_of self.old) owner ≡ true }
        requires block { block < self.old.size }
        requires missing { frame_of_block (cache_of self.old) block ≡ None }
        ensures changed { ChangesFrames (filled f (new_frame owner block bytes.now))
            self.old self.new }
        ensures in_cache { in_use f self.new.cache ≡ true }
    {
        self.procs.rows();
        self.cache.lru();
        whole(&self.ram);
        self.cache.fill(&mut self.ram, f, owner, block, bytes);
    }

    /// Fills frame f, which is in use, with a block that no frame holds, once it changed places
    /// with the candidate.
    pub fn replace(&mut self, f: u8, candidate: u8, owner: u8, block: u32, bytes: &[u8; 512])
        requires frame { in_use f self.old.cache ≡ true }
        requires candidate { in_use candidate self.old.cache ≡ true }
        requires alive { lives (queue_of self.old) owner ≡ true }
        requires block { block < self.old.size }
        requires missing { frame_of_block (cache_of self.old) block ≡ None }
        ensures changed { ChangesFrames (replaced f candidate (new_frame owner block bytes.now))
            self.old self.new }
        ensures in_cache { in_use f self.new.cache ≡ true }
    {
        self.procs.rows();
        self.cache.lru();
        whole(&self.ram);
        self.cache.swap_places(f, candidate);
        self.cache.lru();
        self.cache.fill(&mut self.ram, f, owner, block, bytes);
    }

    /// Puts bytes into frame f, which is in use, from a place in it on. It is dirty then.
    pub fn patch(&mut self, f: u8, off: u32, bytes: &[u8])
        requires in_cache { in_use f self.old.cache ≡ true }
        requires inside { off + length bytes.now ≤ 512 }
        ensures { ChangesFrames (with_patch f off bytes.now) self.old self.new }
    {
        self.cache.lru();
        whole(&self.ram);
        self.cache.patch(&mut self.ram, f, off, bytes);
    }

    /// The block of frame f, where it is in use and dirty.
    pub fn dirty_block(&self, f: u8) -> Option<u32>
        ensures value { result
            ≡ option_map (λ (x : FrameValue). x.block) (dirty_value ((cache_of self.now).frame f)) }
        ensures in_cache { IfSome result (λ b. (b < self.now.size)
            × (in_use f self.now.cache ≡ true)) }
    {
        if !self.is_used(f) {
            return None;
        }
        let row = self.cache.row(f);
        if row.dirty { Some(row.block) } else { None }
    }

    /// Frame f, which is in use, is clean.
    pub fn clean(&mut self, f: u8)
        requires in_cache { in_use f self.old.cache ≡ true }
        ensures objects { (x : FrameValue) → (cache_of self.old).frame f ≡ Some x →
            objects_of self.new
            ≡ with_cache (cleaned f x (cache_of self.old)) (objects_of self.old) }
        ensures processes { self.new.procs ≡ self.old.procs }
        ensures world { world_of_store self.new ≡ world_of_store self.old }
        ensures memory { self.new.ram ≡ self.old.ram }
    {
        self.cache.lru();
        self.cache.clean(f);
    }

    /// Bytes off to off + len of frame f, which is in use.
    pub fn bytes(&self, f: u8, off: u32, len: u32) -> Bytes
        requires in_cache { in_use f self.now.cache ≡ true }
        requires inside { off + len ≤ 512 }
        ensures { result ≡ slice_range (bytes_of (cache_of self.now) f) off (off + len) }
    {
        self.cache.lru();
        let frame = self.ram.bytes(start_of(f), BLOCK_BYTES as u32);
        bytes_from(&frame[off as usize..(off + len) as usize])
    }
}

/// The memory has the bytes of all frames.
fn whole(ram: &Ram)
    ensures { length ram.now ≡ 524288 }
{
    ram.byte(0);
}

/// Where a frame's bytes begin.
fn start_of(f: u8) -> u32
    ensures { result ≡ 512 * f }
{
    BLOCK_BYTES as u32 * u32::from(f)
}

/// At most 512 bytes as a list.
fn bytes_from(from: &[u8]) -> Bytes
    requires { length from.now ≤ 512 }
    ensures { result ≡ from.now }
{
    let mut bytes = Bytes::new();
    for byte in from {
        let _ = bytes.push(*byte);
    }
    bytes
}
