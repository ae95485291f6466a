//! Data bytes of assembler text.

ghost use Rattle.std.specs.Prelude.{◌≡◌, ◌≤◌, Some, None, IfOk, MatchBool, vec_len};
ghost use Rattle.graft_texts.specs.Assembler as spec;
ghost use Rattle.graft_texts.specs.Bytes.{hex_bytes};
ghost use Rattle.gm_asm.specs.Views.{bytes_view};

use graft_texts::NoMemory;
use hex::FromHexError;
use std::alloc::Global;

/// The most data bytes of an image.
const MAX_BODY: usize = 4096;

/// The most digits of a hex word.
const MAX_DIGITS: usize = 65_534;

/// The bytes that hex digits write, if they are hex.
fn bytes_of(alloc: Global, digits: &[u8]) -> Result<Option<Vec<u8>>, NoMemory>
    ensures { IfOk result (λ found. bytes_view found ≡ hex_bytes digits.now) }
{
    match hex::decode(alloc, digits) {
        Ok(bytes) => Ok(Some(bytes)),
        Err(fault) => match fault {
            FromHexError::OutOfMemory => Err(NoMemory),
            _ => Ok(None),
        },
    }
}

/// Puts the bytes of hex digits behind the data. False, with nothing changed, where they are no hex
/// word or there would be more than 4,096 bytes.
pub fn add_data(alloc: Global, body: &mut Vec<u8>, digits: &[u8]) -> Result<bool, NoMemory>
    ensures added { IfOk result (λ added.
        MatchBool added (spec.data_after body.old.items digits.now ≡ Some body.new.items)
        (spec.data_after body.old.items digits.now ≡ None)) }
    ensures len { vec_len body.old ≤ 4096 → vec_len body.new ≤ 4096 }
{
    if digits.len() < 2 || digits.len() > MAX_DIGITS {
        return Ok(false);
    }
    let Some(bytes) = bytes_of(alloc, digits)? else {
        return Ok(false);
    };
    if body.len() + bytes.len() > MAX_BODY {
        return Ok(false);
    }
    match body.extend_from_slice(bytes.as_slice()) {
        Ok(()) => Ok(true),
        Err(_) => Err(NoMemory),
    }
}
