//! The short lists of the plain data. They are stored in the value itself, so no call takes memory.

ghost use Rattle.std.specs.Prelude.{◌≡◌, ◌≤◌, [], ◌∷◌, ◌++◌, length, nat_lt, if◌then◌else◌};

use crate::{
    BLOCK_BYTES, Bytes, FRAMES, FrameRow, FrameRows, NAME_BYTES, Name, PROCESSES, QueueRow,
    QueueRows,
};
use arrayvec::ArrayVec;

/// A copy with the same elements.
fn copy_of<T: Copy + Default, const N: usize>(from: &ArrayVec<T, N>) -> ArrayVec<T, N>
    ensures { result.items ≡ from.now.items }
{
    let mut to = ArrayVec::new();
    let _ = to.try_extend_from_slice(from.as_slice());
    to
}

impl Name {
    /// The empty list.
    pub fn new() -> Name
        ensures { result ≡ [] }
    {
        Name {
            text: ArrayVec::new(),
        }
    }

    /// Appends one. Returns false, and changes nothing, exactly when the list is full.
    pub fn push(&mut self, v: u8) -> bool
        ensures fits { result ≡ nat_lt (length self.old) NAME_BYTES }
        ensures value { self.new ≡ (if result then self.old ++ v ∷ [] else self.old) }
    {
        self.text.try_push(v).is_ok()
    }

    /// The bytes, first to last.
    pub fn as_slice(&self) -> &[u8]
        ensures value { result.now ≡ self.now }
        ensures fits { length result.now ≤ NAME_BYTES }
    {
        self.text.as_slice()
    }

    /// A copy of the list.
    pub fn copy(&self) -> Name
        ensures { result ≡ self.now }
    {
        Name {
            text: copy_of(&self.text),
        }
    }
}

impl Bytes {
    /// The empty list.
    pub fn new() -> Bytes
        ensures { result ≡ [] }
    {
        Bytes {
            data: ArrayVec::new(),
        }
    }

    /// Appends one. Returns false, and changes nothing, exactly when the list is full.
    pub fn push(&mut self, v: u8) -> bool
        ensures fits { result ≡ nat_lt (length self.old) BLOCK_BYTES }
        ensures value { self.new ≡ (if result then self.old ++ v ∷ [] else self.old) }
    {
        self.data.try_push(v).is_ok()
    }

    /// The bytes, first to last.
    pub fn as_slice(&self) -> &[u8]
        ensures value { result.now ≡ self.now }
        ensures fits { length result.now ≤ BLOCK_BYTES }
    {
        self.data.as_slice()
    }

    /// A copy of the list.
    pub fn copy(&self) -> Bytes
        ensures { result ≡ self.now }
    {
        Bytes {
            data: copy_of(&self.data),
        }
    }
}

impl QueueRows {
    /// The empty list.
    pub fn new() -> QueueRows
        ensures { result ≡ [] }
    {
        QueueRows {
            rows: ArrayVec::new(),
        }
    }

    /// Appends one. Returns false, and changes nothing, exactly when the list is full.
    pub fn push(&mut self, row: QueueRow) -> bool
        ensures fits { result ≡ nat_lt (length self.old) PROCESSES }
        ensures value { self.new ≡ (if result then self.old ++ row ∷ [] else self.old) }
    {
        self.rows.try_push(row).is_ok()
    }

    /// The rows, front first.
    pub fn as_slice(&self) -> &[QueueRow]
        ensures value { result.now ≡ self.now }
        ensures fits { length result.now ≤ PROCESSES }
    {
        self.rows.as_slice()
    }

    /// A copy of the list.
    pub fn copy(&self) -> QueueRows
        ensures { result ≡ self.now }
    {
        QueueRows {
            rows: copy_of(&self.rows),
        }
    }
}

impl FrameRows {
    /// The empty list.
    pub fn new() -> FrameRows
        ensures { result ≡ [] }
    {
        FrameRows {
            rows: ArrayVec::new(),
        }
    }

    /// Appends one. Returns false, and changes nothing, exactly when the list is full.
    pub fn push(&mut self, row: FrameRow) -> bool
        ensures fits { result ≡ nat_lt (length self.old) FRAMES }
        ensures value { self.new ≡ (if result then self.old ++ row ∷ [] else self.old) }
    {
        self.rows.try_push(row).is_ok()
    }

    /// The rows, oldest first.
    pub fn as_slice(&self) -> &[FrameRow]
        ensures value { result.now ≡ self.now }
        ensures fits { length result.now ≤ FRAMES }
    {
        self.rows.as_slice()
    }

    /// A copy of the list.
    pub fn copy(&self) -> FrameRows
        ensures { result ≡ self.now }
    {
        FrameRows {
            rows: copy_of(&self.rows),
        }
    }
}
