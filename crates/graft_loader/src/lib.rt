//! The seal of images of graft code, and the loader: code and data of sealed bytes whose seal is
//! right and whose code is boxed (docs/FORMATS.md).
#![tactic(auto)]

ghost use Rattle.std.specs.Prelude.{◌≡◌, ◌≤◌, ◌-◌, ◌++◌, [], ◌∷◌, length, true, take, Some, Ok};
ghost use Rattle.std.specs.Prelude.{IfOk, IfErr, OnOk, option_copied};
ghost use Rattle.std.specs.List.{list_all};
ghost use Rattle.graft_code.specs.Instructions.{fits};
ghost use Rattle.graft_code.specs.Boxed.{IsBoxed, box_fault};
ghost use Rattle.graft_code.specs.Images as spec;
ghost use Rattle.graft_loader.specs.Faults.{Refuses, of_image, of_verifier};
ghost use Rattle.gm_image.specs.Sealed as image;
ghost use Rattle.graft_loader.specs.Loading.{IsLoaded, decoded_words, loaded, sealed_by, unsealed};

use box_verify::{Verified, VerifyFault, verify};
use gm_image::{ImageFault, SealedImage, read_sealed};
use gm_isa::decode;
use std::alloc::{AllocError, Global};
use std::marker::Model;
use thiserror::Error;

mod codes;
mod images;
mod keys;
pub mod laws;
mod mac;
mod sealing;

pub use codes::FaultCode;
pub use gm_isa::{Instr, Op};
pub use graft_code::{Keys, NoMemory};
pub use images::Images;
pub use keys::read_keys;
pub use mac::hmac;
use mac::is_same;
use sealing::flags_with;
pub use sealing::{seal, seal_under};

/// The bytes of a seal.
const SEAL: usize = 32;

/// Why bytes are no image that can be used, in the order in which it is decided; with the place of
/// the first instruction that is refused.
#[derive(Clone, Copy, PartialEq, Eq, Debug, Error)]
pub enum LoadFault {
    #[error("the length is not that of an image")]
    Length,
    #[error("the magic is not that of a sealed image")]
    Magic,
    #[error("the version is not known")]
    Version,
    #[error("more instructions or data bytes than an image may have")]
    TooLarge,
    #[error("a flag is set that is not known")]
    BadFlags,
    #[error("the seal is under a key that was not given")]
    NoKey,
    #[error("the seal is not right")]
    Seal,
    #[error("instruction {0} does not decode")]
    BadOp(u32),
    #[error("instruction {0} names r14 or r15 outside a triple")]
    Register(u32),
    #[error("instruction {0} jumps past the code or into a triple")]
    Jump(u32),
    #[error("instruction {0} is an access outside a triple")]
    Memory(u32),
    #[error("instruction {0} calls an id above 15")]
    Call(u32),
    #[error("the last instruction is not ret, jmp or trap")]
    End,
    #[error("out of memory")]
    NoMemory,
}

impl From<AllocError> for LoadFault {
    ghost use Rattle.graft_loader.specs.declared.LoadFault.{LoadFault};

    ghost from_gives = { λ _ e. e ≡ LoadFault.NoMemory };

    fn from(_: AllocError) -> LoadFault {
        LoadFault::NoMemory
    }
}

/// The code and data of an image that was loaded: boxed code, within the limits of images; and
/// whether its grafts keep their segments.
#[derive(Drop)]
pub struct Loaded {
    code: Verified,
    body: Vec<u8>,
    keep: bool,
}

impl Model for Loaded {
    ghost use Rattle.graft_code.specs.World.{Image};
    ghost use Rattle.graft_loader.specs.Loading.{IsLoaded};

    ghost Value = { Image };

    ghost view = { λ l. record { code = l.code; body = l.body.items; keep = l.keep } };

    ghost invariant = { λ l.
        IsLoaded (record { code = l.code; body = l.body.items; keep = l.keep }) };
}

impl Loaded {
    /// The code.
    pub fn code(&self) -> &Verified
        ensures code { result.now ≡ self.now.code }
        ensures usable { IsLoaded self.now }
    {
        &self.code
    }

    /// Whether its grafts keep their segments from one completed call to the next.
    pub fn keep(&self) -> bool
        ensures { result ≡ self.now.keep }
    {
        self.keep
    }

    /// The flags: 1 where its grafts keep their segments, else 0.
    pub fn flags(&self) -> u32
        ensures { result ≡ spec.flags_with self.now.keep }
    {
        flags_with(self.keep)
    }

    /// The data bytes.
    pub fn body(&self) -> &[u8]
        ensures body { result.now ≡ self.now.body }
        ensures usable { IsLoaded self.now }
    {
        self.body.as_slice()
    }
}

fn push(code: &mut Vec<Instr>, instr: Instr) -> Result<(), LoadFault>
    ensures ok { OnOk result (code.new.items ≡ code.old.items ++ instr ∷ []) }
    ensures err { IfErr result (λ e. e ≡ LoadFault.NoMemory) }
{
    match code.push(instr) {
        Ok(()) => Ok(()),
        Err(_) => Err(LoadFault::NoMemory),
    }
}

/// The instructions of words. `BadOp` has the place of the first that doesn't decode.
fn decode_words(alloc: Global, words: &[[u8; 8]]) -> Result<Vec<Instr>, LoadFault>
    requires { length words.now ≤ 1024 }
    ensures ok { IfOk result (λ code. decoded_words 0 words.now ≡ Ok code.items) }
    ensures code_len { IfOk result (λ code. length code.items ≤ 1024) }
    ensures code_fits { IfOk result (λ code. list_all fits code.items ≡ true) }
    ensures err { IfErr result (λ e. Refuses e (decoded_words 0 words.now)) }
{
    let mut code = Vec::with_capacity(alloc, words.len())?;
    for (pc, word) in words.iter().enumerate() {
        match decode(word) {
            Ok(instr) => push(&mut code, instr)?,
            Err(_) => return Err(LoadFault::BadOp(pc as u32)),
        }
    }
    Ok(code)
}

/// What the verifier refuses, as a fault of the image.
fn unboxed(fault: VerifyFault) -> LoadFault
    ensures { result ≡ of_verifier fault }
{
    match fault {
        VerifyFault::Register(pc) => LoadFault::Register(pc),
        VerifyFault::Jump(pc) => LoadFault::Jump(pc),
        VerifyFault::Memory(pc) => LoadFault::Memory(pc),
        VerifyFault::Call(pc) => LoadFault::Call(pc),
        VerifyFault::End => LoadFault::End,
    }
}

/// What is refused of an image before its seal is looked at.
fn unread(fault: ImageFault) -> LoadFault
    ensures { result ≡ of_image fault }
{
    match fault {
        ImageFault::Length => LoadFault::Length,
        ImageFault::Magic => LoadFault::Magic,
        ImageFault::Version => LoadFault::Version,
        ImageFault::TooLarge => LoadFault::TooLarge,
        ImageFault::BadOp(pc) => LoadFault::BadOp(pc),
        ImageFault::NoMemory => LoadFault::NoMemory,
    }
}

/// The image of parts whose seal is right.
fn unseal(alloc: Global, image: &SealedImage) -> Result<Loaded, LoadFault>
    ensures ok { IfOk result (λ l. unsealed image.now ≡ Ok l) }
    ensures usable { IfOk result IsLoaded }
    ensures err { IfErr result (λ e. Refuses e (unsealed image.now)) }
{
    let body = Vec::from_slice(alloc, image.body())?;
    let code = decode_words(alloc, image.words())?;
    let keep = image.flags() == 1;
    match verify(code) {
        Ok(code) => Ok(Loaded { code, body, keep }),
        Err(fault) => Err(unboxed(fault)),
    }
}

/// What a seal is over: all bytes but the last 32.
fn sealed_part(bytes: &[u8]) -> &[u8]
    requires { 32 ≤ length bytes.now }
    ensures { result.now ≡ image.sealed_part bytes.now }
{
    &bytes[..bytes.len() - SEAL]
}

/// The key of a number, if there is one.
fn key_of(keys: &Keys, number: u32) -> Option<&[u8; 32]>
    ensures { option_copied result ≡ spec.key_of keys.now number }
{
    match number {
        0 => Some(&keys.first),
        1 => keys.second.as_ref(),
        _ => None,
    }
}

/// The image of parts whose seal is to be over this text, under this key.
fn check_seal(
    alloc: Global,
    key: &[u8; 32],
    text: &[u8],
    image: &SealedImage,
) -> Result<Loaded, LoadFault>
    ensures ok { IfOk result (λ l. sealed_by (Some key.now) text.now image.now ≡ Ok l) }
    ensures usable { IfOk result IsLoaded }
    ensures err { IfErr result (λ e. Refuses e (sealed_by (Some key.now) text.now image.now)) }
{
    if is_same(&hmac(key, text), image.seal()) {
        unseal(alloc, image)
    } else {
        Err(LoadFault::Seal)
    }
}

/// The image of parts whose seal is to be over this text, under one of these keys.
fn check_parts(
    alloc: Global,
    keys: &Keys,
    text: &[u8],
    image: &SealedImage,
) -> Result<Loaded, LoadFault>
    ensures ok { IfOk result (λ l. loaded keys.now text.now (Ok image.now) ≡ Ok l) }
    ensures usable { IfOk result IsLoaded }
    ensures err { IfErr result (λ e. Refuses e (loaded keys.now text.now (Ok image.now))) }
{
    if image.flags() > 1 {
        return Err(LoadFault::BadFlags);
    }
    match key_of(keys, image.number()) {
        None => Err(LoadFault::NoKey),
        Some(key) => check_seal(alloc, key, text, image),
    }
}

/// The image of sealed bytes of either version, or the first refusal: `Length` below 48 bytes,
/// `Magic`,
/// `Version`, `Length` below 56 bytes in version 2, `TooLarge`, `Length` where it isn't that of the two
/// sizes, `BadFlags`, `NoKey`, `Seal`, `BadOp` with the first instruction that doesn't decode; then the
/// first place with `Register`, `Jump`, `Memory` or `Call`, in this order at one place; then `End`.
///
/// Comparing the seal takes the same steps whichever bytes differ.
pub fn load(alloc: Global, keys: &Keys, bytes: &[u8]) -> Result<Loaded, LoadFault>
    ensures ok { IfOk result (λ l. spec.load keys.now bytes.now ≡ Ok l) }
    ensures usable { IfOk result IsLoaded }
    ensures err { IfErr result (λ e. Refuses e (spec.load keys.now bytes.now)) }
{
    match read_sealed(alloc, bytes) {
        Ok(image) => check_parts(alloc, keys, sealed_part(bytes), &image),
        Err(fault) => Err(unread(fault)),
    }
}

/// The bytes of an image that was loaded, sealed under the last key. `NoMemory` alone comes.
fn sealed_again(alloc: Global, keys: &Keys, image: &Loaded) -> Result<Vec<u8>, LoadFault>
    ensures ok { IfOk result (λ sealed. spec.resealed keys.now (Ok image.now) ≡ Ok sealed.items) }
    ensures err { IfErr result (λ e. e ≡ LoadFault.NoMemory) }
{
    match seal_under(alloc, keys, image.keep(), image.code().code(), image.body()) {
        Ok(bytes) => Ok(bytes),
        Err(_) => Err(LoadFault::NoMemory),
    }
}

/// The bytes of an image of version 2 with the code, data and flags of a sealed one, under the last
/// key that was given. It refuses exactly as `load`.
pub fn reseal(alloc: Global, keys: &Keys, bytes: &[u8]) -> Result<Vec<u8>, LoadFault>
    ensures ok { IfOk result (λ sealed. spec.reseal keys.now bytes.now ≡ Ok sealed.items) }
    ensures err { IfErr result (λ e. Refuses e (spec.reseal keys.now bytes.now)) }
{
    let image = load(alloc, keys, bytes)?;
    sealed_again(alloc, keys, &image)
}
