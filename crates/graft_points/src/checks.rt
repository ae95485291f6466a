//! Which answers a point accepts.

ghost use Rattle.std.specs.Prelude.{◌≡◌, ◌+◌, ◌&&◌, ℕ, List, nat_le, slice_index};
ghost use Rattle.kernel_model.specs.Objects.{Things};
ghost use Rattle.kernel_model.specs.Policies.{PointKind, kind_of, valid, lives};
ghost use Rattle.kernel_model.specs.Policies.PointKind.{Ahead, Victim, Next};
ghost use Rattle.graft_points.specs.Views.{OwnersOf, is_owned_row};

use kernel_model::{FrameRow, QueueRow};

/// The most blocks that are read ahead.
const AHEAD_BLOCKS: u32 = 8;

/// Whether a point of reading ahead accepts this start and count in a file of so many blocks.
pub fn valid_ahead(blocks: u32, start: u32, count: u32) -> bool
    ensures value { result ≡ (nat_le count 8 && nat_le (start + count) blocks) }
    ensures accepted { (w : Things) (q pt : ℕ) (args : List ℕ) →
        kind_of pt ≡ PointKind.Ahead → slice_index args 2 ≡ blocks → result ≡ valid w q pt args start count }
{
    count <= AHEAD_BLOCKS && start <= blocks && count <= blocks - start
}

/// Whether one of the rows shows frame f with this owner.
fn has_frame(rows: &[FrameRow], owner: u8, f: u32) -> bool
    ensures { result ≡ is_owned_row rows.now owner f }
{
    rows.iter()
        .any(|r| u32::from(r.frame) == f && r.owner == owner)
}

/// Whether the point of eviction of a process accepts frame f, where these are the frames in use.
pub fn valid_victim(rows: &[FrameRow], owner: u8, f: u32) -> bool
    ensures value { result ≡ is_owned_row rows.now owner f }
    ensures accepted { (w : Things) (pt : ℕ) (args : List ℕ) (r1 : ℕ) →
        kind_of pt ≡ PointKind.Victim → OwnersOf w.cache rows.now → result ≡ valid w owner pt args f r1 }
{
    has_frame(rows, owner, f)
}

/// Whether process p is in the queue.
fn has_process(rows: &[QueueRow], p: u32) -> bool
    ensures { result ≡ lives rows.now p }
{
    rows.iter().any(|r| u32::from(r.process) == p)
}

/// Whether the point of scheduling accepts process p, where this is the queue.
pub fn valid_next(rows: &[QueueRow], p: u32) -> bool
    ensures value { result ≡ lives rows.now p }
    ensures accepted { (w : Things) (q pt : ℕ) (args : List ℕ) (r1 : ℕ) →
        kind_of pt ≡ PointKind.Next → w.queue ≡ rows.now → result ≡ valid w q pt args p r1 }
{
    has_process(rows, p)
}
