//! The stock policies, and what points are asked with and answer by default.

ghost use Rattle.std.specs.Prelude.{◌≡◌, ◌+◌, ◌&&◌, ℕ, List, Option, IfOk, cond, min, nat_le, nat_lt};
ghost use Rattle.std.specs.Prelude.{length, slice_index, [], ◌∷◌};
ghost use Rattle.kernel_model.specs.Policies as model;
ghost use Rattle.audit_state.specs.Things.{things_of};
ghost use Rattle.audit_state.specs.Worlds.{world_of};
ghost use Rattle.audit_state.specs.Points.{point_kind};

use crate::{PointKind, Things, World};
use kernel_model::{NoMemory, OpenRow, QueueRow};
use std::alloc::Global;

/// The most blocks that an answer reads ahead.
const MOST_AHEAD: u32 = 8;

/// The most bytes that an answer gives.
const MOST_GIVEN: u32 = 512;

/// What kind of point a number names.
pub fn kind_of(pt: u8) -> PointKind
    ensures { point_kind result ≡ model.kind_of pt }
{
    if pt < 4 {
        PointKind::Ahead
    } else if pt == 4 {
        PointKind::Victim
    } else if pt == 5 {
        PointKind::Next
    } else if pt < 14 {
        PointKind::Serve
    } else {
        PointKind::Stream
    }
}

/// A number, or 0.
fn or_zero(number: Option<u32>) -> u32
    ensures { result ≡ model.or_zero number }
{
    match number {
        None => 0,
        Some(n) => n,
    }
}

/// A count as a word, if it has room.
pub fn word_of(count: usize) -> Result<u32, NoMemory>
    ensures { IfOk result (λ n. n ≡ count) }
{
    match u32::try_from(count) {
        Ok(n) => Ok(n),
        Err(_) => Err(NoMemory),
    }
}

/// A number as a byte, if it has room.
pub fn byte_of(number: u32) -> Result<u8, NoMemory>
    ensures { IfOk result (λ n. n ≡ number) }
{
    match u8::try_from(number) {
        Ok(n) => Ok(n),
        Err(_) => Err(NoMemory),
    }
}

impl Things {
    /// What the scheduling policy goes by.
    fn turn_key(&self, row: &QueueRow) -> u32
        ensures { (bytes : ℕ → List ℕ) →
            result ≡ model.turn_key ((things_of bytes self.now).pol 2) row.now }
    {
        if self.chosen(2) == 0 {
            0
        } else {
            u32::from(row.nice).max(self.param(2, 1))
        }
    }

    /// The first of some rows with the least key.
    fn least_turn(&self, rows: &[QueueRow]) -> Option<QueueRow>
        ensures { (bytes : ℕ → List ℕ) →
            result ≡ model.least (model.turn_key ((things_of bytes self.now).pol 2)) rows.now }
    {
        match rows {
            [] => None,
            [x, rest @ ..] => match self.least_turn(rest) {
                None => Some(*x),
                Some(y) => {
                    if self.turn_key(&y) < self.turn_key(x) {
                        Some(y)
                    } else {
                        Some(*x)
                    }
                }
            },
        }
    }

    /// The candidate for the processor.
    pub fn next_process(&self) -> Option<u8>
        ensures { (bytes : ℕ → List ℕ) → let w = things_of bytes self.now in
            result ≡ model.next_process (w.pol 2) w.queue }
    {
        match self.least_turn(&self.queue) {
            None => None,
            Some(row) => Some(row.process),
        }
    }

    /// The owner of a frame, if that is in use.
    pub fn frame_owner(&self, f: u32) -> Option<u8>
        ensures { (bytes : ℕ → List ℕ) →
            result ≡ model.frame_owner (things_of bytes self.now).cache f }
    {
        match self.frame(f) {
            None => None,
            Some(v) => Some(v.owner),
        }
    }

    /// The mark of a frame.
    fn mark_of(&self, f: u32) -> u8
        ensures { (bytes : ℕ → List ℕ) →
            result ≡ model.mark_of (things_of bytes self.now).cache f }
    {
        match self.frame(f) {
            None => 0,
            Some(v) => v.mark,
        }
    }

    /// What the eviction policy goes by.
    fn victim_key(&self, f: u32) -> u32
        ensures { (bytes : ℕ → List ℕ) → let w = things_of bytes self.now in
            result ≡ model.victim_key (w.pol 1) w.cache f }
    {
        if self.chosen(1) == 0 {
            0
        } else {
            u32::from(self.mark_of(f)).max(self.param(1, 1))
        }
    }

    /// The candidate for eviction among some frames.
    pub fn victim_among(&self, frames: &[u32]) -> Option<u32>
        ensures { (bytes : ℕ → List ℕ) → let w = things_of bytes self.now in
            result ≡ model.victim_among (w.pol 1) w.cache frames.now }
    {
        match frames {
            [] => None,
            [x, rest @ ..] => match self.victim_among(rest) {
                None => Some(*x),
                Some(y) => {
                    if self.victim_key(y) < self.victim_key(*x) {
                        Some(y)
                    } else {
                        Some(*x)
                    }
                }
            },
        }
    }

    /// How many blocks the chosen policy reads ahead.
    fn ahead_count(&self, sequential: bool, window: u8, left: u32) -> u32
        ensures { (bytes : ℕ → List ℕ) →
            result ≡ model.ahead_count ((things_of bytes self.now).pol 0) sequential window left }
    {
        let chosen = self.chosen(0);
        if chosen == 0 {
            0
        } else if chosen == 1 {
            if sequential {
                self.param(0, 1).min(u32::from(window).min(left))
            } else {
                0
            }
        } else {
            self.param(0, 2).min(u32::from(window).min(left))
        }
    }

    /// Where reading ahead starts in a file of so many blocks, and by how many.
    fn ahead_in(&self, opened: &OpenRow, blocks: u32) -> (u32, u32)
        ensures { (bytes : ℕ → List ℕ) →
            result ≡ model.ahead_in ((things_of bytes self.now).pol 0) opened.now blocks }
    {
        let start = opened.next.min(blocks);
        (
            start,
            self.ahead_count(opened.seq, opened.window, blocks - start),
        )
    }

    /// The default answer of reading ahead of an open file.
    pub fn ahead_default(&self, world: &World, file: &Option<OpenRow>) -> (u32, u32)
        ensures { (bytes : ℕ → List ℕ) → result ≡ model.ahead_default (world_of world.now)
            ((things_of bytes self.now).pol 0) file.now }
    {
        match file {
            None => (0, 0),
            Some(opened) => self.ahead_in(opened, world.blocks_of(opened.file)),
        }
    }

    /// The candidate for eviction among the frames of a process, or 0.
    fn own_victim(&self, alloc: Global, q: u8) -> Result<u32, NoMemory>
        ensures { IfOk result (λ f. (bytes : ℕ → List ℕ) → let w = things_of bytes self.now in
            f ≡ model.or_zero (model.victim_among (w.pol 1) w.cache
            (model.frames_of w.cache q))) }
    {
        let frames = self.frames_of(alloc, q)?;
        Ok(or_zero(self.victim_among(&frames)))
    }

    /// The default answer of a kind of point.
    fn default_by(
        &self,
        alloc: Global,
        kind: PointKind,
        world: &World,
        q: u8,
        pt: u8,
    ) -> Result<(u32, u32), NoMemory>
        ensures { IfOk result (λ d. (bytes : ℕ → List ℕ) → d ≡ model.default_by
            (point_kind kind) (world_of world.now) (things_of bytes self.now) q pt) }
    {
        match kind {
            PointKind::Ahead => Ok(self.ahead_default(world, &self.file(q, u32::from(pt)))),
            PointKind::Victim => Ok((self.own_victim(alloc, q)?, 0)),
            PointKind::Next => Ok((u32::from(q), 0)),
            PointKind::Serve | PointKind::Stream => Ok((0, 0)),
        }
    }

    /// The default answer of a point of a process.
    pub fn default_of(
        &self,
        alloc: Global,
        world: &World,
        q: u8,
        pt: u8,
    ) -> Result<(u32, u32), NoMemory>
        ensures { IfOk result (λ d. (bytes : ℕ → List ℕ) →
            d ≡ model.default_of (world_of world.now) (things_of bytes self.now) q pt) }
    {
        self.default_by(alloc, kind_of(pt), world, q, pt)
    }

    /// The arguments of reading ahead.
    fn ahead_args(&self, world: &World, q: u8, pt: u8) -> [u32; 4]
        ensures { (bytes : ℕ → List ℕ) → result ≡ model.args_by model.Ahead
            (world_of world.now) (things_of bytes self.now) q pt }
    {
        let file = self.file(q, u32::from(pt));
        let default = self.ahead_default(world, &file);
        [
            default.0,
            default.1,
            world.open_blocks(&file),
            u32::from(pt),
        ]
    }

    /// The arguments of eviction.
    fn victim_args(&self, alloc: Global, q: u8) -> Result<[u32; 4], NoMemory>
        ensures { IfOk result (λ args. (bytes : ℕ → List ℕ) →
            let w = things_of bytes self.now in
            let frames = model.frames_of w.cache q in
            args ≡ model.or_zero (model.victim_among (w.pol 1) w.cache frames) ∷ 0
            ∷ length frames ∷ 0 ∷ []) }
    {
        let frames = self.frames_of(alloc, q)?;
        let count = word_of(frames.len())?;
        Ok([or_zero(self.victim_among(&frames)), 0, count, 0])
    }

    /// The arguments of scheduling.
    fn turn_args(&self, q: u8) -> Result<[u32; 4], NoMemory>
        ensures { let queue = self.now.queue.items in IfOk result (λ args.
            args ≡ q ∷ model.nice_of queue q ∷ length queue ∷ 0 ∷ []) }
    {
        let count = word_of(self.queue.len())?;
        Ok([u32::from(q), u32::from(self.nice(q)), count, 0])
    }

    /// The arguments that a kind of point of a process is asked with.
    pub fn args_by(
        &self,
        alloc: Global,
        kind: PointKind,
        world: &World,
        q: u8,
        pt: u8,
    ) -> Result<[u32; 4], NoMemory>
        ensures { IfOk result (λ args. (bytes : ℕ → List ℕ) → args ≡ model.args_by
            (point_kind kind) (world_of world.now) (things_of bytes self.now) q pt) }
    {
        match kind {
            PointKind::Ahead => Ok(self.ahead_args(world, q, pt)),
            PointKind::Victim => self.victim_args(alloc, q),
            PointKind::Next => self.turn_args(q),
            PointKind::Serve | PointKind::Stream => Ok([0, 0, 0, 0]),
        }
    }

    /// Whether the process of this number lives.
    fn has_process(&self, p: u32) -> bool
        ensures { result ≡ model.lives self.now.queue.items p }
    {
        self.queue.iter().any(|r| u32::from(r.process) == p)
    }

    /// Whether a kind of point of a process accepts the answer r0, r1, once it was asked with these
    /// arguments.
    fn is_valid_by(&self, kind: PointKind, q: u8, args: [u32; 4], r0: u32, r1: u32) -> bool
        ensures { (bytes : ℕ → List ℕ) →
            result ≡ model.valid_by (point_kind kind) (things_of bytes self.now) q args r0 r1 }
    {
        match kind {
            PointKind::Ahead => {
                r1 <= MOST_AHEAD && u64::from(r0) + u64::from(r1) <= u64::from(args[2])
            }
            PointKind::Victim => self.is_owned(q, r0),
            PointKind::Next => self.has_process(r0),
            PointKind::Serve => r0 <= MOST_GIVEN,
            PointKind::Stream => r0 == args[0],
        }
    }

    /// Whether a point of a process accepts the answer r0, r1, once it was asked with these
    /// arguments.
    pub fn is_valid(&self, q: u8, pt: u8, args: [u32; 4], r0: u32, r1: u32) -> bool
        ensures { (bytes : ℕ → List ℕ) →
            result ≡ model.valid (things_of bytes self.now) q pt args r0 r1 }
    {
        self.is_valid_by(kind_of(pt), q, args, r0, r1)
    }
}
