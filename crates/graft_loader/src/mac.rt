//! HMAC with SHA-256 (RFC 2104, FIPS 180-4), and comparing two codes.

ghost use Rattle.std.specs.Prelude.{◌≡◌, ◌≤◌, ◌-◌, ◌++◌, length, map, replicate, bit_xor};
ghost use Rattle.graft_code.specs.World.{same_bytes};
ghost use Rattle.graft_code.specs.Images as spec;

use sha2::{Digest, Sha256};

/// The bytes of a block of SHA-256, to which the key is filled.
const BLOCK: usize = 64;

/// What the key is xored with before the inner text, byte by byte.
const INNER: u8 = 0x36;

/// What the key is xored with before the outer text, byte by byte.
const OUTER: u8 = 0x5c;

/// The key, filled with zeros to a block.
fn filled(key: &[u8]) -> [u8; 64]
    requires { length key.now ≤ 64 }
    ensures { result ≡ key.now ++ replicate (64 - length key.now) 0 }
{
    let mut block = [0; BLOCK];
    block[..key.len()].copy_from_slice(key);
    block
}

/// The block with each byte xored.
fn masked(block: &[u8; 64], with_byte: u8) -> [u8; 64]
    ensures { result ≡ map (λ b. bit_xor b with_byte) block.now }
{
    let mut masked = [0; BLOCK];
    for i in 0..BLOCK {
        masked[i] = block[i] ^ with_byte;
    }
    masked
}

/// HMAC with SHA-256 of a text, under a key of at most 64 bytes.
pub fn hmac(key: &[u8], text: &[u8]) -> [u8; 32]
    requires { length key.now ≤ 64 }
    ensures { result ≡ spec.hmac key.now text.now }
{
    let key = filled(key);
    let mut inner = Sha256::new();
    inner.update(masked(&key, INNER));
    inner.update(text);
    let mut outer = Sha256::new();
    outer.update(masked(&key, OUTER));
    outer.update(inner.finalize());
    outer.finalize()
}

/// Whether two codes are one. Each byte of both is looked at, whichever differ.
pub(crate) fn is_same(x: &[u8; 32], y: &[u8; 32]) -> bool
    ensures { result ≡ same_bytes x.now y.now }
{
    let mut differing = 0;
    for i in 0..32 {
        differing |= x[i] ^ y[i];
    }
    differing == 0
}
