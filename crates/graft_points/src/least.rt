//! The first rows with the least key.

ghost use Rattle.std.specs.Prelude.{◌≡◌, ◌<◌, max, length, Some};
ghost use Rattle.kernel_model.specs.declared.FrameRow.{FrameRow as Frame};
ghost use Rattle.kernel_model.specs.declared.QueueRow.{QueueRow as Row};
ghost use Rattle.kernel_model.specs.Policies.{least};
ghost use Rattle.graft_points.specs.Views.{lesser};

use kernel_model::{FrameRow, QueueRow};

/// The frame of two with the lower mark, where each mark is taken as at least the floor; the first
/// at a tie.
fn lower_marked(best: FrameRow, row: FrameRow, floor: u32) -> FrameRow
    ensures { result ≡ lesser (λ (r : Frame). max r.mark floor) best row }
{
    if u32::from(row.mark).max(floor) < u32::from(best.mark).max(floor) {
        row
    } else {
        best
    }
}

/// The first frame with the lowest mark, where each mark is taken as at least the floor.
pub(crate) fn lowest_marked(rows: &[FrameRow], floor: u32) -> FrameRow
    requires { 0 < length rows.now }
    ensures { Some result ≡ least (λ (r : Frame). max r.mark floor) rows.now }
{
    let mut best = rows[0];
    for row in rows {
        best = lower_marked(best, *row, floor);
    }
    best
}

/// The process of two with the lower nice, where each nice is taken as at least the floor; the
/// first at a tie.
fn nicer(best: QueueRow, row: QueueRow, floor: u32) -> QueueRow
    ensures { result ≡ lesser (λ (r : Row). max r.nice floor) best row }
{
    if u32::from(row.nice).max(floor) < u32::from(best.nice).max(floor) {
        row
    } else {
        best
    }
}

/// The first process with the lowest nice, where each nice is taken as at least the floor.
pub(crate) fn lowest_nice(rows: &[QueueRow], floor: u32) -> QueueRow
    requires { 0 < length rows.now }
    ensures { Some result ≡ least (λ (r : Row). max r.nice floor) rows.now }
{
    let mut best = rows[0];
    for row in rows {
        best = nicer(best, *row, floor);
    }
    best
}
