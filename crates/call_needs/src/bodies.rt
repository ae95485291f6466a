//! Bytes in memory: those that the answer of a graft gives, which stand in the segment of the
//! outermost level of its call, and those of a frame.

ghost use Rattle.std.specs.Prelude.{◌≡◌, ◌+◌, ◌*◌, ◌<◌, ◌≤◌, true, length, min, slice_index, slice_range};
ghost use Rattle.kernel_model.specs.Fetch.{bytes_of};
ghost use Rattle.kernel_model.specs.Levels.{base_of};
ghost use Rattle.kernel_model.specs.Machine.{FED_AT};
ghost use Rattle.kernel_state.specs.Frames.{in_use};
ghost use Rattle.kernel_state.specs.Stores.{body_at, cache_of};

use arrayvec::ArrayVec;
use kernel_model::BLOCK_BYTES;
use kernel_state::{Policy, RAM_BYTES, Store};

/// Where the segment of the outermost level of process 0 begins.
const FIRST_SEGMENT: u32 = 262_144;

/// The bytes of the segments of a process: one for each of four levels.
const PROCESS_BYTES: u32 = 16_384;

/// Where in a segment the bytes stand that a graft gives.
const GIVEN_AT: u32 = 2048;

/// Where in memory the bytes stand that an answer of process p gives.
pub(crate) fn body_place(p: u8) -> u32
    requires { p < 16 }
    ensures place { result ≡ base_of p 0 + FED_AT }
    ensures inside { result + 512 ≤ RAM_BYTES }
{
    FIRST_SEGMENT + PROCESS_BYTES * u32::from(p) + GIVEN_AT
}

/// How many bytes an answer gives: as many as its r0 says, and at most a block's.
pub(crate) fn body_len(answer: [u32; 4]) -> u32
    ensures { result ≡ min (slice_index answer 0) 512 }
{
    answer[0].min(BLOCK_BYTES as u32)
}

/// The bytes that an answer of process p gives take the place of what a list had.
pub fn copy_body<B: Policy>(
    store: &Store<B>,
    p: u8,
    answer: [u32; 4],
    to: &mut ArrayVec<u8, BLOCK_BYTES>,
)
    requires process { p < 16 }
    ensures { to.new.items ≡ body_at store.now.ram p answer }
{
    take_bytes(to, store.ram.bytes(body_place(p), body_len(answer)));
}

/// Bytes off to off + len of frame f, which is in use, take the place of what a list had.
pub fn copy_bytes_of<B: Policy>(
    store: &Store<B>,
    f: u8,
    off: u32,
    len: u32,
    to: &mut ArrayVec<u8, BLOCK_BYTES>,
)
    requires in_cache { in_use f store.now.cache ≡ true }
    requires inside { off + len ≤ 512 }
    ensures { to.new.items ≡ slice_range (bytes_of (cache_of store.now) f) off (off + len) }
{
    take_bytes(to, frame_range(store, f, off, len));
}

/// Bytes off to off + len of frame f, which is in use, where they stand.
pub(crate) fn frame_range<B: Policy>(store: &Store<B>, f: u8, off: u32, len: u32) -> &[u8]
    requires in_cache { in_use f store.now.cache ≡ true }
    requires inside { off + len ≤ 512 }
    ensures value { result.now
        ≡ slice_range (bytes_of (cache_of store.now) f) off (off + len) }
    ensures few { length result.now ≤ 512 }
{
    store.ram.bytes(start_of(f) + off, len)
}

/// Where in memory the bytes of a frame begin.
fn start_of(f: u8) -> u32
    ensures { result ≡ 512 * f }
{
    BLOCK_BYTES as u32 * u32::from(f)
}

/// The bytes of frame f, which is in use, where they stand.
pub fn frame_bytes<B: Policy>(store: &Store<B>, f: u8) -> &[u8; BLOCK_BYTES]
    requires { in_use f store.now.cache ≡ true }
    ensures { result.now ≡ bytes_of (cache_of store.now) f }
{
    let bytes = store.ram.bytes(start_of(f), BLOCK_BYTES as u32);
    match bytes.as_array() {
        Some(bytes) => bytes,
        None => unreachable!(),
    }
}

/// These bytes take the place of what a list had.
fn take_bytes(to: &mut ArrayVec<u8, BLOCK_BYTES>, bytes: &[u8])
    requires { length bytes.now ≤ 512 }
    ensures { to.new.items ≡ bytes.now }
{
    to.clear();
    let _ = to.try_extend_from_slice(bytes);
}
