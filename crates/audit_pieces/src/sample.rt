//! The blocks of the sample disk.

ghost use Rattle.std.specs.Prelude.{◌≡◌, ◌<◌, ◌≤◌, ◌++◌, IfOk, OnOk, map, replicate};
ghost use Rattle.std.specs.List.{range_with_len};
ghost use Rattle.kernel_model.specs.Directory.{sample_byte, sample_block as block_of};
ghost use Rattle.kernel_model.specs.Directory.{sample_directory};

use crate::bytes::append;
use audit_table::put_last;
use kernel_model::NoMemory;
use std::alloc::Global;

/// The bytes of a block.
const BLOCK_BYTES: u32 = 512;

/// Appends so many zeros.
fn append_zeros(bytes: &mut Vec<u8>, count: usize) -> Result<(), NoMemory>
    requires { count ≤ 512 }
    ensures { OnOk result (bytes.new.items ≡ bytes.old.items ++ replicate count 0) }
{
    match bytes.resize(bytes.len() + count, 0) {
        Ok(()) => Ok(()),
        Err(_) => Err(NoMemory),
    }
}

/// Block 0: the entries of the three files, each a name, its zeros, the first block, how many
/// blocks, how many bytes, and an owner.
fn directory(alloc: Global) -> Result<Vec<u8>, NoMemory>
    ensures { IfOk result (λ bytes. bytes.items ≡ sample_directory) }
{
    let mut bytes = Vec::new(alloc);
    append(
        &mut bytes,
        b"alpha\0\0\0\0\0\0\0\0\0\0\0\x01\0\0\0\x08\0\0\0\0\x10\0\0\0\0\0\0",
    )?;
    append(
        &mut bytes,
        b"beta\0\0\0\0\0\0\0\0\0\0\0\0\x09\0\0\0\x28\0\0\0\0\x50\0\0\0\0\0\0",
    )?;
    append(
        &mut bytes,
        b"gamma\0\0\0\0\0\0\0\0\0\0\0\x31\0\0\0\x03\0\0\0\x4c\x04\0\0\0\0\0\0",
    )?;
    append_zeros(&mut bytes, 416)?;
    Ok(bytes)
}

/// The first bytes of block b, for b of at least 1.
fn later_bytes(alloc: Global, b: u32, count: u32) -> Result<Vec<u8>, NoMemory>
    ensures { IfOk result (λ bytes.
        bytes.items ≡ map (sample_byte b) (range_with_len 0 count)) }
{
    let mut bytes = Vec::new(alloc);
    for i in 0..count {
        let byte = (31 * u64::from(b) + u64::from(i)) % 256;
        put_last(&mut bytes, byte as u8)?;
    }
    Ok(bytes)
}

/// Block b of the sample disk.
pub(crate) fn sample_block(alloc: Global, b: u32) -> Result<Vec<u8>, NoMemory>
    ensures { IfOk result (λ bytes. bytes.items ≡ block_of b) }
{
    if b == 0 {
        let bytes = directory(alloc)?;
        Ok(bytes)
    } else {
        let bytes = later_bytes(alloc, b, BLOCK_BYTES)?;
        Ok(bytes)
    }
}
