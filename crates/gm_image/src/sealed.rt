//! Sealed images: their parts, read. Whether flags, key and seal are right is not looked at here.

ghost use Rattle.std.specs.Prelude.{◌≡◌, ◌≤◌, ◌+◌, ◌-◌, ◌*◌, ◌++◌, ◌==◌, ◌||◌, [], ◌∷◌, cond};
ghost use Rattle.std.specs.Prelude.{length, take, drop, Ok, IfOk, IfErr, IfNone, OnOk};
ghost use Rattle.graft_code.specs.Bytes as model;
ghost use Rattle.graft_code.specs.Images as images;
ghost use Rattle.gm_image.specs.Faults.{Refuses, refusal_of};
ghost use Rattle.gm_image.specs.Sealed as spec;

use crate::{ImageFault, MAX_BODY, MAX_CODE, word_at};
use std::alloc::Global;
use std::marker::Model;

/// The bytes before the code of a sealed image of version 1: magic, version, and two sizes.
const FIRST_HEAD: usize = 16;

/// Those of version 2: flags and the number of the key besides.
const SECOND_HEAD: usize = 24;

/// The bytes of a seal.
const SEAL: usize = 32;

const SEALED_MAGIC: &[u8; 4] = b"VGR1";

/// The parts of a sealed image within the limits. The words need not decode.
#[derive(Drop)]
pub struct SealedImage {
    version: u32,
    flags: u32,
    number: u32,
    words: Vec<[u8; 8]>,
    body: Vec<u8>,
    seal: [u8; 32],
}

impl Model for SealedImage {
    ghost use Rattle.gm_image.specs.Sealed.{Parts, AreFew};

    ghost Value = { Parts };

    ghost view = { λ i. record {
      version = i.version;
      flags = i.flags;
      number = i.number;
      words = i.words.items;
      body = i.body.items;
      seal = i.seal;
    } };

    ghost invariant = { λ i. AreFew (record {
      version = i.version;
      flags = i.flags;
      number = i.number;
      words = i.words.items;
      body = i.body.items;
      seal = i.seal;
    }) };
}

impl SealedImage {
    /// The version, 1 or 2.
    pub fn version(&self) -> u32
        ensures { result ≡ self.now.version }
    {
        self.version
    }

    /// The flags; none in version 1.
    pub fn flags(&self) -> u32
        ensures { result ≡ self.now.flags }
    {
        self.flags
    }

    /// The number of the key of the seal; 0 in version 1.
    pub fn number(&self) -> u32
        ensures { result ≡ self.now.number }
    {
        self.number
    }

    /// The eight bytes of each instruction.
    pub fn words(&self) -> &[[u8; 8]]
        ensures words { result.now ≡ self.now.words }
        ensures words_len { length result.now ≤ 1024 }
    {
        self.words.as_slice()
    }

    /// The data bytes.
    pub fn body(&self) -> &[u8]
        ensures body { result.now ≡ self.now.body }
        ensures body_len { length result.now ≤ 4096 }
    {
        self.body.as_slice()
    }

    /// The seal.
    pub fn seal(&self) -> &[u8; 32]
        ensures { result.now ≡ self.now.seal }
    {
        &self.seal
    }
}

fn push(words: &mut Vec<[u8; 8]>, word: &[u8; 8]) -> Result<(), ImageFault>
    ensures ok { OnOk result (words.new.items ≡ words.old.items ++ word.now ∷ []) }
    ensures err { IfErr result (λ e. e ≡ ImageFault.NoMemory) }
{
    match words.push(*word) {
        Ok(()) => Ok(()),
        Err(_) => Err(ImageFault::NoMemory),
    }
}

/// So many words of eight bytes.
fn read_words(alloc: Global, n: u32, bytes: &[u8]) -> Result<Vec<[u8; 8]>, ImageFault>
    requires { length bytes.now ≡ 8 * n }
    ensures words { IfOk result (λ words. words.items ≡ spec.words_of n bytes.now) }
    ensures len { IfOk result (λ words. length words.items ≡ n) }
    ensures err { IfErr result (λ e. e ≡ ImageFault.NoMemory) }
{
    let mut words = Vec::with_capacity(alloc, n as usize)?;
    let mut rest = bytes;
    while let Some((word, more)) = rest.split_first_chunk::<8>() {
        push(&mut words, word)?;
        rest = more;
    }
    Ok(words)
}

/// What stands before the seal, and the seal.
fn split_seal(bytes: &[u8]) -> (&[u8], &[u8; 32])
    requires { 32 ≤ length bytes.now }
    ensures text { result.0.now ≡ spec.sealed_part bytes.now }
    ensures seal { result.1.now ≡ drop (length bytes.now - 32) bytes.now }
{
    match bytes.split_last_chunk::<SEAL>() {
        Some(parts) => parts,
        None => unreachable!(),
    }
}

/// A version that can be read.
fn is_version(version: u32) -> bool
    ensures { result ≡ images.is_version version }
{
    version == 1 || version == 2
}

/// How many bytes stand before the code of this version.
fn head_length(version: u32) -> usize
    ensures value { result ≡ images.head_length version }
    ensures least { 16 ≤ result }
    ensures most { result ≤ 24 }
{
    if version == 2 {
        SECOND_HEAD
    } else {
        FIRST_HEAD
    }
}

/// The word of the head of version 2 at a place, 0 in version 1.
fn second_word(version: u32, bytes: &[u8], at: usize) -> u32
    requires { at + 4 ≤ length bytes.now }
    ensures { result ≡ cond (version == 2) (model.word_at bytes.now at) 0 }
{
    if version == 2 { word_at(bytes, at) } else { 0 }
}

/// What is wrong with the sizes of an image with so many bytes before its code.
fn size_fault(head: usize, bytes: &[u8]) -> Option<ImageFault>
    requires room { 48 ≤ length bytes.now }
    requires head { head ≡ images.head_of bytes.now }
    requires few { head ≤ 24 }
    ensures value { refusal_of result ≡ images.size_fault head bytes.now }
    ensures whole { IfNone result (spec.IsWhole bytes.now) }
{
    if bytes.len() < head + SEAL {
        return Some(ImageFault::Length);
    }
    let n = word_at(bytes, 8);
    let d = word_at(bytes, 12);
    if n > MAX_CODE || d > MAX_BODY {
        return Some(ImageFault::TooLarge);
    }
    if bytes.len() != head + SEAL + 8 * n as usize + d as usize {
        return Some(ImageFault::Length);
    }
    None
}

/// What is wrong with sealed bytes before flags, key and seal are looked at.
fn head_fault(bytes: &[u8]) -> Option<ImageFault>
    ensures value { refusal_of result ≡ images.head_fault bytes.now }
    ensures whole { IfNone result (spec.IsWhole bytes.now) }
    ensures len { IfNone result (48 ≤ length bytes.now) }
{
    if bytes.len() < FIRST_HEAD + SEAL {
        return Some(ImageFault::Length);
    }
    if &bytes[..4] != SEALED_MAGIC.as_slice() {
        return Some(ImageFault::Magic);
    }
    let version = word_at(bytes, 4);
    if !is_version(version) {
        return Some(ImageFault::Version);
    }
    size_fault(head_length(version), bytes)
}

/// The parts of sealed bytes whose head is right.
fn read_parts(alloc: Global, bytes: &[u8]) -> Result<SealedImage, ImageFault>
    requires whole { spec.IsWhole bytes.now }
    requires len { 48 ≤ length bytes.now }
    ensures ok { IfOk result (λ i. i ≡ spec.parts_of bytes.now) }
    ensures err { IfErr result (λ e. e ≡ ImageFault.NoMemory) }
{
    let version = word_at(bytes, 4);
    let n = word_at(bytes, 8);
    let (text, seal) = split_seal(bytes);
    let (_, parts) = text.split_at(head_length(version));
    let (code, body) = parts.split_at(8 * n as usize);
    Ok(SealedImage {
        version,
        flags: second_word(version, bytes, 16),
        number: second_word(version, bytes, 20),
        words: read_words(alloc, n, code)?,
        body: Vec::from_slice(alloc, body)?,
        seal: *seal,
    })
}

/// The parts of the bytes of a sealed image, or the first refusal: `Length` below 48 bytes,
/// `Magic`,
/// `Version` above 2 or 0, `Length` below 56 bytes in version 2, `TooLarge`, `Length` where it isn't that
/// of the two sizes.
pub fn read_sealed(alloc: Global, bytes: &[u8]) -> Result<SealedImage, ImageFault>
    ensures ok { IfOk result (λ i. spec.read_sealed bytes.now ≡ Ok i) }
    ensures err { IfErr result (λ e. Refuses e (spec.read_sealed bytes.now)) }
    ensures len { OnOk result (48 ≤ length bytes.now) }
{
    match head_fault(bytes) {
        Some(fault) => Err(fault),
        None => read_parts(alloc, bytes),
    }
}
