//! A disk in memory.

ghost use Rattle.std.specs.Prelude.{◌≡◌, ℕ, ◌<◌, ◌≤◌, ◌*◌, ◌/◌, ◌%◌, ◌+◌, ◌++◌, List, Some, length};
ghost use Rattle.std.specs.Prelude.{cond, take, drop, slice_get, slice_set, slice_range, vec_len};
ghost use Rattle.std.specs.Prelude.{if◌then◌else◌, is_ok, slice_index_or, []};
ghost use Rattle.std.specs.Option.{IfSome};
ghost use Rattle.std.specs.Result.{is_err, OnOk};
ghost use Rattle.vino_base.specs.Faults.{HasCause, counted};
ghost use Rattle.vino_base.specs.Calls.{Plan, after_call, call_fails};
ghost use Rattle.mem_disk.specs.DiskState.{blocks_of, disk_after, disk_seen, last_block};

use kernel_data::BLOCK_BYTES;
use std::marker::Model;
use vino_base::{CallPlan, Disk, Failed};

/// A disk in memory. Chosen calls of it fail, and no other.
///
/// Contracts see the list of its blocks, its calls, its count of faults, and which block was read
/// last.
#[derive(Drop)]
pub struct MemDisk {
    bytes: Vec<u8>,
    size: u32,
    plan: CallPlan,
    faults: u64,
    /// The block that was read last.
    last: u32,
}

impl Model for MemDisk {
    ghost use Rattle.std.specs.Prelude.{◌≡◌, ◌≤◌, ◌<◌, ◌/◌, vec_len};
    ghost use Rattle.mem_disk.specs.DiskState.{DiskState, blocks_of};

    ghost Value = { DiskState };

    ghost view = { λ d. record {
      blocks = blocks_of d.bytes.items;
      plan = d.plan;
      faults = d.faults;
      last = d.last;
    } };

    ghost invariant = { λ d. (d.size ≡ vec_len d.bytes / 512) × (1 ≤ d.size) × (d.size ≤ 4096)
        × (d.last < d.size) };
}

impl MemDisk {
    /// The disk of these blocks, one after another: 1 to 4,096 of 512 bytes. The k-th call of read
    /// and write, counted from 1, fails exactly where k is in `fails`. No fault was counted yet.
    pub fn from_bytes(bytes: Vec<u8>, fails: Vec<u64>) -> MemDisk
        requires whole { vec_len bytes % 512 ≡ 0 }
        requires least { 512 ≤ vec_len bytes }
        requires most { vec_len bytes ≤ 512 * 4096 }
        ensures { result ≡ record {
          blocks = blocks_of bytes.items;
          plan = record { made = 0; failing = fails.items };
          faults = 0;
          last = 0;
        } }
    {
        let size = (bytes.len() / BLOCK_BYTES) as u32;
        MemDisk {
            bytes,
            size,
            plan: CallPlan::new(fails),
            faults: 0,
            last: 0,
        }
    }
}

impl Disk for MemDisk {
    ghost seen = { disk_seen };

    ghost lent = { last_block };

    fn size(&self) -> u32 {
        self.size
    }

    fn read_block(&mut self, b: u32) -> Result<(), Failed>
        requires { b < length self.old.blocks }
        ensures cause { HasCause self.old.faults self.new.faults result }
        ensures fails { is_err result ≡ call_fails self.old.plan }
        ensures after { self.new ≡ record (disk_after self.old self.old.blocks) { last = b } }
        ensures given { OnOk result (slice_get self.old.blocks b ≡ Some (last_block self.new)) }
    {
        self.last = b;
        if self.plan.next_fails() {
            self.faults = counted_up(self.faults);
            return Err(Failed);
        }
        Ok(())
    }

    fn block(&self) -> &[u8; 512]
        ensures value { result.now ≡ last_block self.now }
        ensures whole { length (last_block self.now) ≡ 512 }
    {
        block_at(&self.bytes, self.last)
    }

    fn write_block(&mut self, b: u32, from: &[u8; 512]) -> Result<(), Failed>
        requires { b < length self.old.blocks }
        ensures cause { HasCause self.old.faults self.new.faults result }
        ensures fails { is_err result ≡ call_fails self.old.plan }
        ensures after { self.new ≡ disk_after self.old (slice_set self.old.blocks b from.now) }
    {
        if !self.plan.next_fails() {
            put_block(&mut self.bytes, b, from);
            return Ok(());
        }
        self.faults = counted_up(self.faults);
        Err(Failed)
    }
}

/// A count after one more, which stands still at its end.
fn counted_up(count: u64) -> u64
    ensures { result ≡ counted count }
{
    count.saturating_add(1)
}

/// Where block b begins.
fn start_of(bytes: &[u8], b: u32) -> usize
    requires { b < length (blocks_of bytes.now) }
    ensures value { result ≡ 512 * b }
    ensures bound { result + 512 ≤ length bytes.now }
{
    BLOCK_BYTES * b as usize
}

/// Block b, lent.
fn block_at(bytes: &[u8], b: u32) -> &[u8; 512]
    requires { b < length (blocks_of bytes.now) }
    ensures { result.now ≡ slice_index_or (blocks_of bytes.now) b [] }
{
    let start = start_of(bytes, b);
    match <&[u8; 512]>::try_from(&bytes[start..start + BLOCK_BYTES]) {
        Ok(block) => block,
        Err(_) => unreachable!(),
    }
}

/// Replaces block b.
fn put_block(bytes: &mut [u8], b: u32, from: &[u8; 512])
    requires { b < length (blocks_of bytes.old) }
    ensures { blocks_of bytes.new ≡ slice_set (blocks_of bytes.old) b from.now }
{
    let start = start_of(bytes, b);
    bytes[start..start + BLOCK_BYTES].copy_from_slice(from);
}
