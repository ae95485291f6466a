//! A disk with the list of its calls.

ghost use Rattle.std.specs.Prelude.{◌≡◌};

use std::alloc::Global;
use vino_base::{Disk, Failed};

/// A call of a disk.
#[derive(Clone, Copy)]
pub struct DiskCall {
    pub block: u32,
    pub is_write: bool,
    pub failed: bool,
}

/// A disk, with its calls since they were last forgotten.
#[derive(Drop)]
pub struct Counted<D: Disk + Drop> {
    disk: D,
    calls: Vec<DiskCall>,
    /// Whether there was no memory for a call.
    is_short: bool,
}

impl<D: Disk + Drop> Counted<D> {
    /// No call was made yet.
    pub fn new(alloc: Global, disk: D) -> Counted<D> {
        Counted {
            disk,
            calls: Vec::new(alloc),
            is_short: false,
        }
    }

    /// The calls, in their order.
    pub fn calls(&self) -> &[DiskCall] {
        self.calls.as_slice()
    }

    /// Whether a call is missing, since there was no memory for it.
    pub fn is_short(&self) -> bool {
        self.is_short
    }

    /// Forgets the calls.
    pub fn forget(&mut self)
        ensures { self.new.disk ≡ self.old.disk }
    {
        self.calls.clear();
    }

    /// Notes a call.
    fn note(&mut self, block: u32, is_write: bool, failed: bool)
        ensures { self.new.disk ≡ self.old.disk }
    {
        let call = DiskCall {
            block,
            is_write,
            failed,
        };
        if self.calls.push(call).is_err() {
            self.is_short = true;
        }
    }
}

impl<D: Disk + Drop> Disk for Counted<D> {
    ghost seen = { λ d. D.seen d.disk };

    ghost lent = { λ d. D.lent d.disk };

    fn size(&self) -> u32 {
        self.disk.size()
    }

    fn read_block(&mut self, b: u32) -> Result<(), Failed> {
        let result = self.disk.read_block(b);
        self.note(b, false, result.is_err());
        result
    }

    fn block(&self) -> &[u8; 512] {
        self.disk.block()
    }

    fn write_block(&mut self, b: u32, from: &[u8; 512]) -> Result<(), Failed> {
        let result = self.disk.write_block(b, from);
        self.note(b, true, result.is_err());
        result
    }
}
