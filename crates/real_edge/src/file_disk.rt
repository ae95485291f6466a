//! A file as a disk.

ghost use Rattle.std.specs.Prelude.{◌≡◌, ◌≤◌, ◌<◌, ◌*◌, None, length};
ghost use Rattle.std.specs.Result.{IsErr};
ghost use Rattle.vino_base.specs.Faults.{HasCause, Rose};

use std::fs::File;
use std::os::unix::fs::FileExt;
use vino_base::{Disk, Failed};

/// The bytes of a block.
const BLOCK_BYTES: u64 = 512;

/// A disk whose block b stands in a file from byte 512 * b on. A block that the file doesn't give
/// or take whole is a fault; the bytes of a failed write may have reached the file in part.
#[derive(Drop)]
pub struct FileDisk {
    file: Option<File>,
    size: u32,
    faults: u64,
    /// What the last read left.
    block: [u8; 512],
    ghost least: { 1 ≤ size },
    ghost most: { size ≤ 4096 },
}

impl FileDisk {
    /// The first blocks of a file, 1 to 4,096 of them. The file is open for reading and writing. No
    /// fault was counted yet.
    pub fn new(file: File, size: u32) -> FileDisk
        requires least { 1 ≤ size }
        requires most { size ≤ 4096 }
        ensures size { result.size ≡ size }
        ensures faults { result.faults ≡ 0 }
    {
        FileDisk {
            file: Some(file),
            size,
            faults: 0,
            block: [0; 512],
        }
    }

    /// A disk of one block, of which each call fails: it stands for a file that can't be opened. No
    /// fault was counted yet.
    pub fn closed() -> FileDisk
        ensures size { result.size ≡ 1 }
        ensures file { result.file ≡ None }
        ensures faults { result.faults ≡ 0 }
    {
        FileDisk {
            file: None,
            size: 1,
            faults: 0,
            block: [0; 512],
        }
    }

    /// Counts a fault.
    pub(crate) fn failed(&mut self) -> Failed
        ensures size { self.new.size ≡ self.old.size }
        ensures file { self.new.file ≡ self.old.file }
        ensures later { self.old.faults ≤ self.new.faults }
        ensures rose { Rose self.old.faults self.new.faults }
    {
        self.faults = self.faults.saturating_add(1);
        Failed
    }
}

/// Where block b begins.
fn start_of(b: u32) -> u64
    ensures { result ≡ 512 * b }
{
    BLOCK_BYTES * u64::from(b)
}

impl Disk for FileDisk {
    ghost seen = { λ d. record { size = d.size; known = None; plan = None; faults = d.faults } };

    ghost lent = { λ d. d.block };

    fn size(&self) -> u32 {
        self.size
    }

    fn read_block(&mut self, b: u32) -> Result<(), Failed>
        requires { b < self.old.size }
        ensures cause { HasCause self.old.faults self.new.faults result }
        ensures same_size { self.new.size ≡ self.old.size }
        ensures same_file { self.new.file ≡ self.old.file }
        ensures closed { self.old.file ≡ None → IsErr result }
    {
        let read = match &self.file {
            Some(file) => file.read_exact_at(&mut self.block, start_of(b)).is_ok(),
            None => false,
        };
        if read { Ok(()) } else { Err(self.failed()) }
    }

    fn block(&self) -> &[u8; 512]
        ensures value { result.now ≡ self.now.block }
        ensures whole { length self.now.block ≡ 512 }
    {
        &self.block
    }

    fn write_block(&mut self, b: u32, from: &[u8; 512]) -> Result<(), Failed>
        requires { b < self.old.size }
        ensures cause { HasCause self.old.faults self.new.faults result }
        ensures same_size { self.new.size ≡ self.old.size }
        ensures same_file { self.new.file ≡ self.old.file }
        ensures closed { self.old.file ≡ None → IsErr result }
    {
        let written = match &self.file {
            Some(file) => file.write_all_at(from, start_of(b)).is_ok(),
            None => false,
        };
        if written { Ok(()) } else { Err(self.failed()) }
    }
}
