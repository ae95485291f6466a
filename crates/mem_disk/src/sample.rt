//! The sample disk.

ghost use Rattle.std.specs.Prelude.{◌≡◌, ℕ, ◌+◌, ◌-◌, ◌*◌, ◌<◌, ◌≤◌, ◌++◌, IfOk, length, map, replicate, vec_len};
ghost use Rattle.std.specs.List.{range_with_len};
ghost use Rattle.std.specs.Result.{OnOk};
ghost use Rattle.kernel_data.specs.Bytes.{word_bytes};
ghost use Rattle.kernel_data.specs.Directory.{sample_entry, sample_directory, sample_byte};
ghost use Rattle.kernel_data.specs.Directory.{sample_block, sample_disk, blocks_of_disk};
ghost use Rattle.mem_disk.specs.DiskState.{blocks_in};

use crate::disk::MemDisk;
use kernel_data::{BLOCK_BYTES, NoMemory};
use std::alloc::{AllocError, Global};

/// The blocks of the sample disk.
const SAMPLE_BLOCKS: u32 = 64;

impl MemDisk {
    /// The sample disk: 64 blocks, with the files `alpha`, `beta` and `gamma`. The k-th call of
    /// read and write, counted from 1, fails exactly where k is in `fails`. No fault was counted
    /// yet.
    pub fn sample(alloc: Global, fails: Vec<u64>) -> Result<MemDisk, NoMemory>
        ensures { IfOk result (λ d. d ≡ record {
          blocks = blocks_of_disk sample_disk;
          plan = record { made = 0; failing = fails.items };
          faults = 0;
          last = 0;
        }) }
    {
        match sample_bytes(alloc, SAMPLE_BLOCKS) {
            Ok(bytes) => Ok(MemDisk::from_bytes(bytes, fails)),
            Err(_) => Err(NoMemory),
        }
    }
}

/// So many blocks of the sample disk, one after another.
fn sample_bytes(alloc: Global, count: u32) -> Result<Vec<u8>, AllocError>
    requires some { 1 ≤ count }
    requires few { count ≤ 4096 }
    ensures value { IfOk result (λ v. blocks_in v.items count
        ≡ map sample_block (range_with_len 0 count)) }
    ensures len { IfOk result (λ v. vec_len v ≡ 512 * count) }
{
    let mut bytes = Vec::with_capacity(alloc, BLOCK_BYTES * count as usize)?;
    append_directory(&mut bytes)?;
    for b in 1..count {
        append_block(&mut bytes, b)?;
    }
    Ok(bytes)
}

/// Appends block b of the sample disk, for b of at least 1.
fn append_block(bytes: &mut Vec<u8>, b: u32) -> Result<(), AllocError>
    requires not_first { 0 < b }
    requires range { b < 4096 }
    ensures { OnOk result (bytes.new.items ≡ bytes.old.items ++ sample_block b) }
{
    let mut block = [0u8; BLOCK_BYTES];
    fill_block(&mut block, b);
    bytes.extend_from_slice(&block)
}

/// Makes the bytes those of block b of the sample disk, for b of at least 1.
fn fill_block(block: &mut [u8], b: u32)
    requires not_first { 0 < b }
    requires range { b < 4096 }
    requires size { length block.old ≡ 512 }
    ensures { block.new ≡ sample_block b }
{
    for (i, byte) in block.iter_mut().enumerate() {
        *byte = ((31 * b as usize + i) % 256) as u8;
    }
}

/// Appends block 0 of the sample disk.
#[tactic(auto, unfolding(kernel_data::specs::Directory::sample_directory))]
fn append_directory(bytes: &mut Vec<u8>) -> Result<(), AllocError>
    ensures { OnOk result (bytes.new.items ≡ bytes.old.items ++ sample_directory) }
{
    append_entry(bytes, b"alpha", 1, 8, 4096)?;
    append_entry(bytes, b"beta", 9, 40, 20480)?;
    append_entry(bytes, b"gamma", 49, 3, 1100)?;
    append_zeros(bytes, 416)
}

/// Appends an entry of a directory, with owner 0.
fn append_entry(
    bytes: &mut Vec<u8>,
    name: &[u8],
    start: u32,
    blocks: u32,
    file_bytes: u32,
) -> Result<(), AllocError>
    requires { length name.now ≤ 16 }
    ensures { OnOk result (bytes.new.items ≡ bytes.old.items
        ++ sample_entry name.now start blocks file_bytes) }
{
    bytes.extend_from_slice(name)?;
    append_zeros(bytes, 16 - name.len())?;
    append_word(bytes, start)?;
    append_word(bytes, blocks)?;
    append_word(bytes, file_bytes)?;
    append_word(bytes, 0)
}

/// Appends a word, its lowest byte first.
fn append_word(bytes: &mut Vec<u8>, n: u32) -> Result<(), AllocError>
    ensures { OnOk result (bytes.new.items ≡ bytes.old.items ++ word_bytes n) }
{
    bytes.extend_from_slice(&n.to_le_bytes())
}

/// Appends so many zeros.
fn append_zeros(bytes: &mut Vec<u8>, count: usize) -> Result<(), AllocError>
    requires { count ≤ 512 }
    ensures { OnOk result (bytes.new.items ≡ bytes.old.items ++ replicate count 0) }
{
    bytes.resize(bytes.len() + count, 0)
}
