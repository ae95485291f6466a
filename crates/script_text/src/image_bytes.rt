//! `ImageBytes`: the bytes that an `image` line carries.

ghost use Rattle.std.specs.Prelude.{◌≡◌, [], IfOk};
ghost use Rattle.hex.specs.declared.error.FromHexError.TheVariants.{OutOfMemory};
ghost use Rattle.script_model.specs.Bytes.{hex_bytes};
ghost use Rattle.script_text.specs.Words.{bytes_or_none};

use hex::FromHexError;
use script_model::NoMemory;
use std::alloc::Global;
use std::marker::Model;

/// The bytes of an image, which stand in the line as hex digits. Contracts see their list.
#[derive(Drop)]
pub struct ImageBytes<'a> {
    digits: &'a [u8],
}

impl<'a> Model for ImageBytes<'a> {
    ghost use Rattle.std.specs.Prelude.{ℕ, List};
    ghost use Rattle.script_model.specs.Bytes.{hex_bytes};
    ghost use Rattle.script_text.specs.Words.{bytes_or_none};

    ghost Value = { List ℕ };

    ghost view = { λ b. bytes_or_none (hex_bytes b.digits.now) };
}

/// No bytes, but for want of memory.
fn no_bytes(alloc: Global, fault: FromHexError) -> Result<Vec<u8>, NoMemory>
    ensures { IfOk result (λ bytes. (bytes.items ≡ []) × (fault ≡ OutOfMemory → ⊥)) }
{
    match fault {
        FromHexError::OutOfMemory => Err(NoMemory),
        FromHexError::InvalidHexCharacter { .. }
        | FromHexError::OddLength
        | FromHexError::InvalidStringLength => Ok(Vec::new(alloc)),
    }
}

impl<'a> ImageBytes<'a> {
    /// The bytes that these digits write.
    pub(crate) fn new(digits: &'a [u8]) -> ImageBytes<'a>
        ensures { result ≡ bytes_or_none (hex_bytes digits.now) }
    {
        ImageBytes { digits }
    }

    /// The bytes, first to last. Memory is taken for them alone.
    pub fn decode(&self, alloc: Global) -> Result<Vec<u8>, NoMemory>
        ensures { IfOk result (λ bytes. bytes.items ≡ self.now) }
    {
        match hex::decode(alloc, self.digits) {
            Ok(bytes) => Ok(bytes),
            Err(fault) => no_bytes(alloc, fault),
        }
    }
}
