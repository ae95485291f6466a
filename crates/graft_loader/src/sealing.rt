//! Sealed images, written.

ghost use Rattle.std.specs.Prelude.{◌≡◌, ◌≤◌, ◌++◌, length, true, codes, OnOk, IfOk};
ghost use Rattle.std.specs.List.{list_all};
ghost use Rattle.graft_code.specs.Instructions.{fits};
ghost use Rattle.graft_code.specs.Bytes.{word_bytes};
ghost use Rattle.graft_code.specs.Images as spec;

use crate::mac::hmac;
use gm_isa::{Instr, encode};
use graft_code::{Keys, NoMemory};
use std::alloc::Global;
use text_words::append;

const MAGIC: &[u8; 4] = b"VGR1";

/// The version of the sealed images that are written.
const VERSION: u32 = 2;

/// Appends the four bytes of a number.
fn append_word(out: &mut Vec<u8>, n: u32) -> Result<(), NoMemory>
    ensures { OnOk result (out.new.items ≡ out.old.items ++ word_bytes n) }
{
    append(out, &n.to_le_bytes())
}

/// Appends the bytes of instructions.
fn append_code(out: &mut Vec<u8>, code: &[Instr]) -> Result<(), NoMemory>
    requires { list_all fits code.now ≡ true }
    ensures { OnOk result (out.new.items ≡ out.old.items ++ spec.code_bytes code.now) }
{
    for instr in code {
        append(out, &encode(instr))?;
    }
    Ok(())
}

/// The flags of an image that keeps the segments of its grafts, or doesn't.
pub(crate) fn flags_with(keep: bool) -> u32
    ensures { result ≡ spec.flags_with keep }
{
    if keep { 1 } else { 0 }
}

/// What a seal is over: magic, version, sizes, flags and the number of the key, then code and data.
fn sealed_text(
    alloc: Global,
    number: u32,
    flags: u32,
    code: &[Instr],
    body: &[u8],
) -> Result<Vec<u8>, NoMemory>
    requires code_len { length code.now ≤ 1024 }
    requires code_fits { list_all fits code.now ≡ true }
    requires body_len { length body.now ≤ 4096 }
    ensures { IfOk result (λ bytes. bytes.items ≡ spec.sealed_text number flags code.now body.now) }
{
    let mut out = Vec::new(alloc);
    append(&mut out, MAGIC)?;
    append_word(&mut out, VERSION)?;
    append_word(&mut out, code.len() as u32)?;
    append_word(&mut out, body.len() as u32)?;
    append_word(&mut out, flags)?;
    append_word(&mut out, number)?;
    append_code(&mut out, code)?;
    append(&mut out, body)?;
    Ok(out)
}

/// The bytes of the image of this code and data, sealed under a key with its number, 0 or 1.
/// Whether the code is boxed isn't looked at. The flags are 1 where the image keeps the segments of
/// its grafts, else 0.
pub fn seal(
    alloc: Global,
    key: &[u8; 32],
    number: u32,
    flags: u32,
    code: &[Instr],
    body: &[u8],
) -> Result<Vec<u8>, NoMemory>
    requires number { number ≤ 1 }
    requires flags { flags ≤ 1 }
    requires code_len { length code.now ≤ 1024 }
    requires code_fits { list_all fits code.now ≡ true }
    requires body_len { length body.now ≤ 4096 }
    ensures { IfOk result (λ bytes. bytes.items
        ≡ spec.sealed_image key.now number flags code.now body.now) }
{
    let mut out = sealed_text(alloc, number, flags, code, body)?;
    let seal = hmac(key, out.as_slice());
    append(&mut out, &seal)?;
    Ok(out)
}

/// The bytes of the image of this code and data, sealed under the last key that was given. It keeps
/// the segments of its grafts where that is asked.
pub fn seal_under(
    alloc: Global,
    keys: &Keys,
    keep: bool,
    code: &[Instr],
    body: &[u8],
) -> Result<Vec<u8>, NoMemory>
    requires code_len { length code.now ≤ 1024 }
    requires code_fits { list_all fits code.now ≡ true }
    requires body_len { length body.now ≤ 4096 }
    ensures { IfOk result (λ bytes. bytes.items ≡
        spec.sealed_under keys.now (record { code = code.now; body = body.now; keep = keep })) }
{
    let flags = flags_with(keep);
    match &keys.second {
        Some(key) => seal(alloc, key, 1, flags, code, body),
        None => seal(alloc, &keys.first, 0, flags, code, body),
    }
}
