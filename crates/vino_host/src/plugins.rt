//! Loaded plug-ins: bytes of the caller's, whatever stands there.

ghost use Rattle.std.specs.Prelude.{◌≡◌, ◌≤◌, ℕ, ◌+◌, ◌*◌, length, take, drop, slice_index};
ghost use Rattle.graft_code.specs.Bytes.{word_at};
ghost use Rattle.vino_host.specs.Plugins as spec;

use crate::{MOST_BODY, MOST_CODE};
use sha2::{Digest, Sha256};

/// The bytes of the mark.
pub(crate) const MARK: usize = 32;

/// The bytes before the code.
pub(crate) const HEAD: usize = 44;

/// The byte at a place; 0 where there is none.
fn byte_at(bytes: &[u8], i: usize) -> u8
    ensures { result ≡ slice_index bytes.now i }
{
    match bytes.get(i) {
        Some(byte) => *byte,
        None => 0,
    }
}

/// The word at a place, its lowest byte first.
fn word_at(bytes: &[u8], i: usize) -> u32
    requires { i ≤ 8 }
    ensures { result ≡ word_at bytes.now i }
{
    u32::from_le_bytes([
        byte_at(bytes, i),
        byte_at(bytes, i + 1),
        byte_at(bytes, i + 2),
        byte_at(bytes, i + 3),
    ])
}

/// What is behind the first bytes.
fn behind(bytes: &[u8], n: usize) -> &[u8]
    ensures { result.now ≡ drop n bytes.now }
{
    &bytes[n.min(bytes.len())..]
}

/// The first bytes.
fn first(bytes: &[u8], n: usize) -> &[u8]
    ensures { result.now ≡ take n bytes.now }
{
    &bytes[..n.min(bytes.len())]
}

/// How many instructions there are.
fn size(plugin: &[u8]) -> usize
    ensures size { result ≡ spec.size_of plugin.now }
    ensures few { result ≤ 1024 }
{
    (word_at(behind(plugin, MARK), 0) as usize).min(MOST_CODE)
}

/// How many data bytes there are.
fn body_size(plugin: &[u8]) -> usize
    ensures size { result ≡ spec.body_size_of plugin.now }
    ensures few { result ≤ 4096 }
{
    (word_at(behind(plugin, MARK), 4) as usize).min(MOST_BODY)
}

/// The bytes of the code of a plug-in.
pub(crate) fn code(plugin: &[u8]) -> &[u8]
    ensures code { result.now ≡ spec.code_part plugin.now }
    ensures few { length result.now ≤ 8192 }
{
    first(behind(plugin, HEAD), 8 * size(plugin))
}

/// The data of a plug-in.
pub(crate) fn body(plugin: &[u8]) -> &[u8]
    ensures body { result.now ≡ spec.body_of plugin.now }
    ensures few { length result.now ≤ 4096 }
{
    first(behind(plugin, HEAD + 8 * size(plugin)), body_size(plugin))
}

/// All that is behind the mark of a plug-in.
fn content(plugin: &[u8]) -> &[u8]
    ensures { result.now ≡ spec.content_of plugin.now }
{
    first(
        behind(plugin, MARK),
        12 + 8 * size(plugin) + body_size(plugin),
    )
}

/// Whether a loaded plug-in is still what was loaded: whether its mark is that of its content.
pub fn is_whole(plugin: &[u8]) -> bool
    ensures { result ≡ spec.is_whole plugin.now }
{
    Sha256::digest(content(plugin)).as_slice() == first(plugin, MARK)
}
