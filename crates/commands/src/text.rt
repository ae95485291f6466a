//! Pieces of text.

ghost use Rattle.std.specs.Prelude.{◌≡◌, ◌++◌, OnOk, IfOk};
ghost use Rattle.script_model.specs.Bytes.{hex_text};
ghost use Rattle.script_model.specs.Bytes.{spaced};

use script_model::NoMemory;
use std::alloc::Global;

/// Appends bytes.
pub(crate) fn add(out: &mut Vec<u8>, bytes: &[u8]) -> Result<(), NoMemory>
    ensures { OnOk result (out.new.items ≡ out.old.items ++ bytes.now) }
{
    match out.extend_from_slice(bytes) {
        Ok(()) => Ok(()),
        Err(_) => Err(NoMemory),
    }
}

/// Appends a space and a number.
pub(crate) fn add_spaced(out: &mut Vec<u8>, n: u32) -> Result<(), NoMemory>
    ensures { OnOk result (out.new.items ≡ out.old.items ++ spaced n) }
{
    let mut digits = itoa::Buffer::new();
    add(out, b" ")?;
    add(out, digits.format(n).as_bytes())
}

/// The hex digits of bytes, in lower case.
pub(crate) fn hex_of(alloc: Global, bytes: &[u8]) -> Result<Vec<u8>, NoMemory>
    ensures { IfOk result (λ digits. digits.items ≡ hex_text bytes.now) }
{
    match hex::encode(alloc, bytes) {
        Ok(digits) => Ok(digits.into_bytes()),
        Err(_) => Err(NoMemory),
    }
}
