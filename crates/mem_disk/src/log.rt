//! The calls of a disk, with a list of which of them failed.

ghost use Rattle.std.specs.Prelude.{◌≡◌, ℕ, ◌+◌, ◌<◌, ◌≤◌, List, [], ◌∷◌, ◌++◌, length, take, cond, is_ok};
ghost use Rattle.std.specs.Result.{is_err, OnOk};
ghost use Rattle.kernel_data.specs.World.{Blocks};
ghost use Rattle.kernel_data.specs.Objects.{at};
ghost use Rattle.mem_disk.specs.Calls.{Knows, CallsExtend};

use std::marker::Model;
use vino_base::{Disk, Failed};

/// The most calls that one log notes. A piece of a system call makes at most so many.
pub const CALLS: usize = 256;

/// Which calls of a disk failed, in order. What stands behind them isn't looked at, so that to forget
/// them writes a count alone.
#[derive(Drop)]
pub struct DiskLog {
    failed: [bool; CALLS],
    count: usize,
}

impl Model for DiskLog {
    ghost use Rattle.std.specs.Prelude.{List, Bool, ◌≤◌, take};

    ghost Value = { List Bool };

    ghost view = { λ l. take l.count l.failed };

    ghost invariant = { λ l. l.count ≤ 256 };
}

impl DiskLog {
    /// No call was made.
    pub fn new() -> DiskLog
        ensures { result ≡ [] }
    {
        DiskLog {
            failed: [false; CALLS],
            count: 0,
        }
    }

    /// Forgets all calls.
    pub fn clear(&mut self)
        ensures { self.new ≡ [] }
    {
        self.count = 0;
    }

    /// The calls so far: whether each failed.
    pub fn calls(&self) -> &[bool]
        ensures { result.now ≡ self.now }
    {
        &self.failed[..self.count]
    }

    /// Reads block b, which the disk lends then. It is always inlined: no answer is moved then.
    #[inline(always)]
    pub fn read<D: Disk>(&mut self, disk: &mut D, b: u32) -> Result<(), Failed>
        requires room { length self.old < CALLS }
        requires block { b < (D.seen disk.old).size }
        ensures noted { self.new ≡ self.old ++ is_err result ∷ [] }
        ensures known { (blocks : Blocks) → Knows (D.seen disk.old).known blocks →
            Knows (D.seen disk.new).known blocks × OnOk result (D.lent disk.new ≡ blocks b) }
        ensures calls { CallsExtend (D.seen disk.old) (D.seen disk.new) self.old self.new }
    {
        let result = disk.read_block(b);
        self.note(result.is_err());
        result
    }

    /// Replaces block b.
    pub fn write<D: Disk>(&mut self, disk: &mut D, b: u32, from: &[u8; 512]) -> Result<(), Failed>
        requires room { length self.old < CALLS }
        requires block { b < (D.seen disk.old).size }
        ensures noted { self.new ≡ self.old ++ is_err result ∷ [] }
        ensures known { (blocks : Blocks) → Knows (D.seen disk.old).known blocks →
            Knows (D.seen disk.new).known (cond (is_ok result) (at b from.now blocks) blocks) }
        ensures calls { CallsExtend (D.seen disk.old) (D.seen disk.new) self.old self.new }
    {
        disk.size();
        let result = disk.write_block(b, from);
        self.note(result.is_err());
        result
    }

    /// Notes one call.
    #[inline(always)]
    fn note(&mut self, fails: bool)
        requires { length self.old < CALLS }
        ensures { self.new ≡ self.old ++ fails ∷ [] }
    {
        put_behind(&mut self.failed, self.count, fails);
        self.count += 1;
    }
}

/// An entry behind the first ones.
fn put_behind(failed: &mut [bool], count: usize, fails: bool)
    requires { count < length failed.old }
    ensures long { length failed.new ≡ length failed.old }
    ensures value { take (count + 1) failed.new ≡ take count failed.old ++ fails ∷ [] }
{
    failed[count] = fails;
}
