//! Bytes of a memory compared with others, many at a time.

ghost use Rattle.std.specs.Prelude.{◌≡◌, ◌≤◌, ◌+◌, length, nat_eq, slice_range};
ghost use Rattle.std.specs.Cmp.Lexicographic.{pointwise};

use ram_space::{RAM_BYTES, Ram};

/// The bytes of a page.
const PAGE_BYTES: usize = 4096;

/// Whether these bytes are the same. All of them are looked at, with no way out at the first
/// difference, so that a machine compares many at a time.
#[tactic(auto, using(crate::proofs::Same::same_step, crate::proofs::Same::same_end, crate::proofs::Same::not_same))]
pub fn are_same(a: &[u8], b: &[u8]) -> bool
    ensures { result ≡ pointwise nat_eq a.now b.now }
{
    if a.len() != b.len() {
        return false;
    }
    let mut same = true;
    for i in 0..a.len() {
        same &= a[i] == b[i];
    }
    same
}

/// Whether these bytes stand in a memory from an address on.
#[tactic(auto, using(ram_space::proofs::Lists::has_parts))]
pub fn has_bytes(memory: &Ram, a: u32, wanted: &[u8]) -> bool
    requires { a + length wanted.now ≤ RAM_BYTES }
    ensures { result ≡ pointwise nat_eq
        (slice_range memory.now a (a + length wanted.now)) wanted.now }
{
    if wanted.is_empty() {
        return true;
    }
    let room = PAGE_BYTES - a as usize % PAGE_BYTES;
    if wanted.len() <= room {
        return are_same(memory.bytes(a, wanted.len() as u32), wanted);
    }
    let (first, rest) = wanted.split_at(room);
    are_same(memory.bytes(a, room as u32), first) && has_bytes(memory, a + room as u32, rest)
}
