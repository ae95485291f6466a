//! Parts of bytes.

ghost use Rattle.std.specs.Prelude.{◌≡◌, ◌+◌, ◌++◌, IfOk, OnOk, take, drop, slice_range};
ghost use Rattle.kernel_model.specs.Fetch.{bytes_with};

use audit_table::copy;
use kernel_model::NoMemory;
use std::alloc::Global;

/// The first bytes, or all where there are fewer.
fn front(bytes: &[u8], count: usize) -> &[u8]
    ensures { result.now ≡ take count bytes.now }
{
    &bytes[..count.min(bytes.len())]
}

/// The bytes behind the first.
fn behind(bytes: &[u8], count: usize) -> &[u8]
    ensures { result.now ≡ drop count bytes.now }
{
    &bytes[count.min(bytes.len())..]
}

/// So many bytes from a place on, as far as there are.
pub(crate) fn range_of(
    alloc: Global,
    bytes: &[u8],
    place: u32,
    count: u32,
) -> Result<Vec<u8>, NoMemory>
    ensures { IfOk result (λ range. range.items ≡ slice_range bytes.now place (place + count)) }
{
    copy(alloc, front(behind(bytes, place as usize), count as usize))
}

/// More bytes behind.
pub(crate) fn append(to: &mut Vec<u8>, bytes: &[u8]) -> Result<(), NoMemory>
    ensures { OnOk result (to.new.items ≡ to.old.items ++ bytes.now) }
{
    match to.extend_from_slice(bytes) {
        Ok(()) => Ok(()),
        Err(_) => Err(NoMemory),
    }
}

/// Bytes with others put at a place.
pub(crate) fn patched(
    alloc: Global,
    place: u32,
    put: &[u8],
    before: &[u8],
) -> Result<Vec<u8>, NoMemory>
    ensures { IfOk result (λ bytes. bytes.items ≡ bytes_with place put.now before.now) }
{
    let from = place as usize;
    let mut bytes = copy(alloc, front(before, from))?;
    append(&mut bytes, put)?;
    append(&mut bytes, behind(behind(before, from), put.len()))?;
    Ok(bytes)
}
