//! What a policy is asked.

use kernel_model::{FrameRow, QueueRow};

/// What a policy is asked.
#[derive(Clone, Copy)]
pub enum Ask<'a> {
    /// Reading ahead: whether the last read followed the one before, the file's window (0 to 8),
    /// and how many blocks of the file are left.
    Ahead {
        sequential: bool,
        window: u32,
        left: u32,
    },
    /// Eviction: frames in use, oldest first.
    Victim(&'a [FrameRow]),
    /// Scheduling: the queue, front first.
    Next(&'a [QueueRow]),
}
