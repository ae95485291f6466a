//! Values of a store that only grafts look at and change: nices, windows, marks, and the frames of
//! one process.

ghost use Rattle.std.specs.Prelude.{◌≡◌, ◌<◌, ◌≤◌, true, Some, [], length, nat_le, map, is_some};
ghost use Rattle.std.specs.Prelude.{slice_get, IfSome, IfNone};
ghost use Rattle.std.specs.List.{list_all};
ghost use Rattle.kernel_data.specs.declared.FrameRow.{FrameRow as Row};
ghost use Rattle.kernel_data.specs.declared.QueueRow.{QueueRow as Waiting};
ghost use Rattle.kernel_model.specs.Access.{set_nice as nice_set, set_window as window_set, set_mark as mark_set};
ghost use Rattle.kernel_data.specs.Objects.{with_things};
ghost use Rattle.kernel_data.specs.Policies.{lives, nice_of, is_owned, frames_of, victim_among};
ghost use Rattle.buffer_cache.specs.Frames.{in_use, row_at};
ghost use Rattle.kernel_state.specs.Changes.{Changes};
ghost use Rattle.kernel_state.specs.Places.{HasDescriptor};
ghost use Rattle.kernel_state.specs.Stores.{objects_of, cache_of, queue_of, policies_of};

use crate::Store;
use graft_points::Policy;
use kernel_data::{FRAMES, FrameRow, FrameRows, OpenRow, QueueRow};

impl<B: Policy> Store<B> {
    /// The nice of process q. 0 where it doesn't live.
    pub fn nice(&self, q: u8) -> u8
        ensures value { result ≡ nice_of (queue_of self.now) q }
        ensures range { result ≤ 39 }
    {
        nice_in(self.procs.rows(), q)
    }

    /// Gives process q, which lives, another nice.
    pub fn set_nice(&mut self, q: u8, v: u8)
        requires lives { lives (queue_of self.old) q ≡ true }
        requires range { v ≤ 39 }
        ensures { Changes (λ s. with_things (nice_set q v s.things) s) self.old self.new }
    {
        self.procs.set_nice(q, v);
    }

    /// Gives the file that is open at descriptor fd of process q another window.
    pub fn set_window(&mut self, q: u8, fd: u8, v: u8)
        requires place { HasDescriptor (queue_of self.old) q fd }
        requires opened { is_some ((objects_of self.old).things.file q fd) ≡ true }
        requires range { v ≤ 8 }
        ensures { Changes (λ s. with_things (window_set q fd v s.things) s) self.old self.new }
    {
        if let Some(row) = self.file(q, fd) {
            self.put_file(q, fd, Some(OpenRow { window: v, ..row }));
        }
    }

    /// Gives frame f, which is in use, another mark.
    pub fn set_mark(&mut self, f: u32, v: u8)
        requires in_cache { in_use f self.old.cache ≡ true }
        ensures { Changes (λ s. with_things (mark_set f v s.things) s) self.old self.new }
    {
        self.cache.lru();
        if let Some(row) = self.row(f) {
            self.cache.mark(row.frame, v);
        }
    }

    /// What frame f holds, if it is in use.
    pub fn row(&self, f: u32) -> Option<FrameRow>
        ensures value { result ≡ row_at self.now.cache.rows f }
        ensures number { IfSome result (λ r. r.frame ≡ f) }
    {
        self.cache.lru();
        if f < FRAMES as u32 && self.is_used(f as u8) {
            Some(self.cache.row(f as u8))
        } else {
            None
        }
    }

    /// The number of frame f, which is in use, as one byte.
    pub fn frame_number(&self, f: u32) -> u8
        requires { is_some ((cache_of self.now).frame f) ≡ true }
        ensures value { result ≡ f }
        ensures in_cache { in_use result self.now.cache ≡ true }
    {
        match self.row(f) {
            Some(row) => row.frame,
            None => unreachable!(),
        }
    }

    /// The frames of process q, oldest first.
    pub fn owned_rows(&self, q: u8) -> FrameRows
        ensures rows { map (λ (r : Row). Some r) result ≡
            map (row_at self.now.cache.rows) (frames_of (cache_of self.now) q) }
        ensures frames { map (λ (r : Row). r.frame) result ≡ frames_of (cache_of self.now) q }
    {
        let mut rows = FrameRows::new();
        for f in self.cache.lru() {
            let row = self.cache.row(*f);
            if row.owner == q {
                let _ = rows.push(row);
            }
        }
        rows
    }

    /// How many frames process q has.
    pub fn owned_count(&self, q: u8) -> u32
        ensures { result ≡ length (frames_of (cache_of self.now) q) }
    {
        let mut count = 0;
        for f in self.cache.lru() {
            if self.cache.row(*f).owner == q {
                count += 1;
            }
        }
        count
    }

    /// Frame n of process q, from 0, oldest first. None where it has no more than n.
    pub fn owned_frame(&self, q: u8, n: u32) -> Option<u8>
        ensures { result ≡ slice_get (frames_of (cache_of self.now) q) n }
    {
        let mut left = n;
        for f in self.cache.lru() {
            if self.cache.row(*f).owner != q {
                continue;
            }
            if left == 0 {
                return Some(*f);
            }
            left -= 1;
        }
        None
    }

    /// Whether frame f is in use and of process q.
    pub fn is_owner(&self, q: u8, f: u32) -> bool
        ensures { result ≡ is_owned (cache_of self.now) q f }
    {
        match self.row(f) {
            Some(row) => row.owner == q,
            None => false,
        }
    }

    /// The candidate for eviction of process q: the frame that the chosen policy evicts of those of
    /// q, if it has some.
    pub fn candidate_of(&self, q: u8) -> Option<u8>
        ensures value { let c = cache_of self.now in
            result ≡ victim_among (policies_of self.now 1) c (frames_of c q) }
        ensures in_cache { IfSome result (λ f. in_use f self.now.cache ≡ true) }
        ensures owned { IfSome result (λ f. is_owned (cache_of self.now) q f ≡ true) }
        ensures none { IfNone result (frames_of (cache_of self.now) q ≡ []) }
    {
        self.cache.lru();
        let rows = self.owned_rows(q);
        if rows.as_slice().is_empty() {
            return None;
        }
        Some(self.shelf.victim(&self.choice, rows.as_slice()))
    }
}

/// The nice of a process of the queue, or 0.
#[tactic(auto, using(crate::proofs::Accessing::nice_below))]
fn nice_in(rows: &[QueueRow], p: u8) -> u8
    requires { list_all (λ (r : Waiting). nat_le r.nice 39) rows.now ≡ true }
    ensures value { result ≡ nice_of rows.now p }
    ensures range { result ≤ 39 }
{
    for row in rows {
        if row.process == p {
            return row.nice;
        }
    }
    0
}
