//! Raw and sealed images of graft code: their bytes, read and written (docs/FORMATS.md).
#![tactic(auto)]

ghost use Rattle.std.specs.Prelude.{◌≡◌, ◌≤◌, ◌+◌, ◌*◌, ◌++◌, [], ◌∷◌, length, true, IfOk, IfErr, OnOk};
ghost use Rattle.std.specs.List.{list_all};
ghost use Rattle.graft_code.specs.Instructions.{fits};
ghost use Rattle.graft_code.specs.Bytes as model;
ghost use Rattle.graft_code.specs.World.{plain_image};
ghost use Rattle.graft_code.specs.Images as spec;
ghost use Rattle.gm_image.specs.Faults.{Refuses};

use gm_isa::{decode, encode};
use std::alloc::{AllocError, Global};
use std::marker::Model;
use text_words::append;
use thiserror::Error;

pub mod laws;
mod sealed;

pub use gm_isa::{
    Instr, Op, access_mask, ends_well, form_of, is_jump, name_of, names_register, op_named,
};
pub use graft_code::NoMemory;
pub use sealed::{SealedImage, read_sealed};

/// The most instructions of an image.
pub const MAX_CODE: u32 = 1024;

/// The most data bytes of an image.
pub const MAX_BODY: u32 = 4096;

/// The bytes before the code of a raw image: magic, and two sizes.
const RAW_HEAD: usize = 12;

const RAW_MAGIC: &[u8; 4] = b"VGR0";

/// Why bytes are no image, with the place of the first instruction that doesn't decode.
/// `Version` is for sealed images alone.
#[derive(Clone, Copy, PartialEq, Eq, Debug, Error)]
pub enum ImageFault {
    #[error("the length is not that of an image")]
    Length,
    #[error("the magic is not that of an image")]
    Magic,
    #[error("the version is not known")]
    Version,
    #[error("more instructions or data bytes than an image may have")]
    TooLarge,
    #[error("instruction {0} does not decode")]
    BadOp(u32),
    #[error("out of memory")]
    NoMemory,
}

impl From<AllocError> for ImageFault {
    ghost use Rattle.gm_image.specs.declared.ImageFault.{ImageFault};

    ghost from_gives = { λ _ e. e ≡ ImageFault.NoMemory };

    fn from(_: AllocError) -> ImageFault {
        ImageFault::NoMemory
    }
}

/// An image as its code and its data bytes, within the limits and with code that encodes. It keeps
/// nothing: whether the segments of grafts are kept is said where an image is sealed.
#[derive(Drop)]
pub struct RawImage {
    code: Vec<Instr>,
    body: Vec<u8>,
}

impl Model for RawImage {
    ghost use Rattle.graft_code.specs.World.{Image, plain_image};
    ghost use Rattle.graft_code.specs.Images.{IsRawImage};

    ghost Value = { Image };

    ghost view = { λ i. plain_image i.code.items i.body.items };

    ghost invariant = { λ i. IsRawImage (plain_image i.code.items i.body.items) };
}

impl RawImage {
    /// An image of this code and data.
    pub fn new(code: Vec<Instr>, body: Vec<u8>) -> RawImage
        requires code_len { length code.items ≤ 1024 }
        requires body_len { length body.items ≤ 4096 }
        requires code_fits { list_all fits code.items ≡ true }
        ensures { result ≡ plain_image code.items body.items }
    {
        RawImage { code, body }
    }

    /// The instructions.
    pub fn code(&self) -> &[Instr]
        ensures code { result.now ≡ self.now.code }
        ensures code_len { length result.now ≤ 1024 }
        ensures code_fits { list_all fits result.now ≡ true }
    {
        self.code.as_slice()
    }

    /// The data bytes.
    pub fn body(&self) -> &[u8]
        ensures body { result.now ≡ self.now.body }
        ensures body_len { length result.now ≤ 4096 }
    {
        self.body.as_slice()
    }
}

fn push(code: &mut Vec<Instr>, instr: Instr) -> Result<(), ImageFault>
    ensures ok { OnOk result (code.new.items ≡ code.old.items ++ instr ∷ []) }
    ensures err { IfErr result (λ e. e ≡ ImageFault.NoMemory) }
{
    match code.push(instr) {
        Ok(()) => Ok(()),
        Err(_) => Err(ImageFault::NoMemory),
    }
}

/// The instructions of so many words of eight bytes. `BadOp` has the place of the first that
/// doesn't decode.
fn read_code(alloc: Global, n: u32, bytes: &[u8]) -> Result<Vec<Instr>, ImageFault>
    requires { length bytes.now ≡ 8 * n }
    ensures ok { IfOk result (λ code. spec.decoded n 0 bytes.now ≡ Ok code.items) }
    ensures len { IfOk result (λ code. length code.items ≡ n) }
    ensures code_fits { IfOk result (λ code. list_all fits code.items ≡ true) }
    ensures err { IfErr result (λ e. Refuses e (spec.decoded n 0 bytes.now)) }
{
    let mut code = Vec::with_capacity(alloc, n as usize)?;
    let mut rest = bytes;
    let mut pc = 0;
    while let Some((word, more)) = rest.split_first_chunk::<8>() {
        match decode(word) {
            Ok(instr) => push(&mut code, instr)?,
            Err(_) => return Err(ImageFault::BadOp(pc)),
        }
        rest = more;
        pc += 1;
    }
    Ok(code)
}

/// The image of so many instructions, and the data behind them.
fn read_parts(alloc: Global, n: u32, bytes: &[u8]) -> Result<RawImage, ImageFault>
    requires few { n ≤ 1024 }
    requires code { 8 * n ≤ length bytes.now }
    requires body { length bytes.now ≤ 8 * n + 4096 }
    ensures ok { IfOk result (λ i. spec.parts_of n bytes.now ≡ Ok i) }
    ensures err { IfErr result (λ e. Refuses e (spec.parts_of n bytes.now)) }
{
    let (code, body) = bytes.split_at(8 * n as usize);
    let code = read_code(alloc, n, code)?;
    let body = Vec::from_slice(alloc, body)?;
    Ok(RawImage::new(code, body))
}

/// The little-endian word at a place.
fn word_at(bytes: &[u8], at: usize) -> u32
    requires { at + 4 ≤ length bytes.now }
    ensures { result ≡ model.word_at bytes.now at }
{
    u32::from_le_bytes([bytes[at], bytes[at + 1], bytes[at + 2], bytes[at + 3]])
}

/// The image that the bytes of a raw image write, or the first refusal: `Length` below 12 bytes,
/// `Magic`, `TooLarge`, `Length` where it isn't that of the two sizes, `BadOp` with the place of the
/// first instruction that doesn't decode.
pub fn read_raw(alloc: Global, bytes: &[u8]) -> Result<RawImage, ImageFault>
    ensures ok { IfOk result (λ i. spec.read_raw bytes.now ≡ Ok i) }
    ensures err { IfErr result (λ e. Refuses e (spec.read_raw bytes.now)) }
{
    if bytes.len() < RAW_HEAD {
        return Err(ImageFault::Length);
    }
    if &bytes[..4] != RAW_MAGIC.as_slice() {
        return Err(ImageFault::Magic);
    }
    let n = word_at(bytes, 4);
    let d = word_at(bytes, 8);
    if n > MAX_CODE || d > MAX_BODY {
        return Err(ImageFault::TooLarge);
    }
    if bytes.len() != RAW_HEAD + 8 * n as usize + d as usize {
        return Err(ImageFault::Length);
    }
    let (_, parts) = bytes.split_at(RAW_HEAD);
    read_parts(alloc, n, parts)
}

/// Appends the bytes of instructions.
fn write_code(out: &mut Vec<u8>, code: &[Instr]) -> Result<(), NoMemory>
    requires { list_all fits code.now ≡ true }
    ensures { OnOk result (out.new.items ≡ out.old.items ++ spec.code_bytes code.now) }
{
    for instr in code {
        append(out, &encode(instr))?;
    }
    Ok(())
}

/// The bytes of an image.
pub fn write_raw(alloc: Global, img: &RawImage) -> Result<Vec<u8>, NoMemory>
    ensures { IfOk result (λ bytes. bytes.items ≡ spec.raw_image img.now.code img.now.body) }
{
    let code = img.code();
    let body = img.body();
    let mut out = Vec::with_capacity(alloc, RAW_HEAD + 8 * code.len() + body.len()).map_err(
        |_| NoMemory,
    )?;
    append(&mut out, RAW_MAGIC)?;
    append(&mut out, &(code.len() as u32).to_le_bytes())?;
    append(&mut out, &(body.len() as u32).to_le_bytes())?;
    write_code(&mut out, code)?;
    append(&mut out, body)?;
    Ok(out)
}
