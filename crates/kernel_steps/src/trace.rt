//! What the calls of one event leave behind.

ghost use Rattle.std.specs.Prelude.{◌≡◌, [], IfOk};

use crate::notes::Notes;
use call_pieces::{DiskLog, Gift};
use kernel_model::NoMemory;
use std::alloc::Global;

/// What the calls of one event leave behind: its notes. Beside them stand the calls of the disk of
/// the last piece, and the bytes that it gave.
#[derive(Drop)]
pub struct Trace {
    /// The notes, in order.
    pub notes: Notes,
    /// The calls of the disk of the last piece, or of a boot.
    pub log: DiskLog,
    pub(crate) gave: Gift,
}

impl Trace {
    /// Nothing yet. Takes the memory for the notes of one event.
    pub fn new(alloc: Global) -> Result<Trace, NoMemory>
        ensures { IfOk result (λ t. t.notes ≡ []) }
    {
        match Notes::new(alloc) {
            Ok(notes) => Ok(Trace {
                notes,
                log: DiskLog::new(),
                gave: Gift::new(),
            }),
            Err(lacks) => Err(lacks),
        }
    }
}
