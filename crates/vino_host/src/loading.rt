//! Images loaded into the caller's struct.

ghost use Rattle.std.specs.Prelude.{◌≡◌, ◌≤◌, ◌<◌, ◌≢◌, ◌+◌, ◌*◌, ◌++◌, ℕ, length, take, drop, true, Ok};
ghost use Rattle.std.specs.List.{list_all};
ghost use Rattle.graft_code.specs.Images as model;
ghost use Rattle.graft_code.specs.Images.{code_bytes};
ghost use Rattle.graft_code.specs.Instructions.{fits};
ghost use Rattle.graft_loader.specs.Loading.{IsLoaded};
ghost use Rattle.vino_host.specs.Loaded.{verdict_of};
ghost use Rattle.vino_host.specs.Loaded as loads;
ghost use Rattle.vino_host.specs.Plugins.{image_of, is_whole, content_by, content_of, needed, with_image};
ghost use Rattle.vino_host.specs.Plugins as spec;

use crate::KeyPair;
use crate::plugins::{HEAD, MARK};
use gm_isa::encode;
use graft_code::Instr;
use graft_loader::{Keys, LoadFault, Loaded};
use sha2::{Digest, Sha256};
use std::alloc::Global;

/// The image was loaded.
pub const LOADED: u32 = 0;

/// There was no memory left.
pub const NO_MEMORY: u32 = 14;

/// The image needs more bytes than there are.
pub const NO_ROOM: u32 = 15;

/// Bytes go to a place.
fn put(to: &mut [u8], at: usize, bytes: &[u8])
    requires { at + length bytes.now ≤ length to.old }
    ensures front { take (at + length bytes.now) to.new ≡ take at to.old ++ bytes.now }
    ensures back { (n : ℕ) → at + length bytes.now ≤ n → drop n to.new ≡ drop n to.old }
    ensures size { length to.new ≡ length to.old }
{
    to[at..at + bytes.len()].copy_from_slice(bytes);
}

/// The three words before the code.
fn first_words(image: &Loaded) -> [u8; 12]
    ensures { result ≡ spec.first_words image.now }
{
    let [a, b, c, d] = (image.code().code().len() as u32).to_le_bytes();
    let [e, f, g, h] = (image.body().len() as u32).to_le_bytes();
    [a, b, c, d, e, f, g, h, image.flags() as u8, 0, 0, 0]
}

/// Code goes to a place, eight bytes for each instruction.
fn put_code(to: &mut [u8], at: usize, code: &[Instr])
    requires few { at + 8 * length code.now ≤ length to.old }
    requires fit { list_all fits code.now ≡ true }
    ensures front { take (at + 8 * length code.now) to.new ≡ take at to.old ++ code_bytes code.now }
    ensures back { (n : ℕ) → at + 8 * length code.now ≤ n → drop n to.new ≡ drop n to.old }
    ensures size { length to.new ≡ length to.old }
{
    for (k, i) in code.iter().enumerate() {
        put(to, at + 8 * k, &encode(i));
    }
}

/// The content of an image goes behind the place of the mark.
fn put_content(plugin: &mut [u8], image: &Loaded)
    requires { needed image.now ≤ length plugin.old }
    ensures front { take (needed image.now) plugin.new
        ≡ take 32 plugin.old ++ content_by image.now }
    ensures back { drop (needed image.now) plugin.new ≡ drop (needed image.now) plugin.old }
    ensures size { length plugin.new ≡ length plugin.old }
{
    let code = image.code().code();
    put(plugin, MARK, &first_words(image));
    put_code(plugin, HEAD, code);
    put(plugin, HEAD + 8 * code.len(), image.body());
}

/// How many bytes an image needs.
fn room_for(image: &Loaded) -> usize
    ensures room { result ≡ needed image.now }
    ensures usable { IsLoaded image.now }
{
    HEAD + 8 * image.code().code().len() + image.body().len()
}

/// An image goes into a plug-in's bytes.
fn put_image(plugin: &mut [u8], image: &Loaded)
    requires { needed image.now ≤ length plugin.old }
    ensures { plugin.new ≡ with_image image.now plugin.old }
{
    put_content(plugin, image);
    let room = room_for(image);
    let digest = Sha256::digest(&plugin[MARK..room]);
    put(plugin, 0, &digest);
}

/// Puts an image into a plug-in's bytes, where there is room; else says how much it needs.
fn store(plugin: &mut [u8], image: &Loaded, place: &mut u32) -> u32
    ensures says { verdict_of (length plugin.old) (Ok image.now) ≡ (result, place.new) }
    ensures loaded { result ≡ LOADED → image_of plugin.new ≡ image.now }
    ensures whole { result ≡ LOADED → is_whole plugin.new ≡ true }
    ensures behind { result ≡ LOADED → drop (32 + length (content_of plugin.new)) plugin.new
        ≡ drop (32 + length (content_of plugin.new)) plugin.old }
    ensures size { length plugin.new ≡ length plugin.old }
    ensures kept { result ≢ LOADED → plugin.new ≡ plugin.old }
    ensures known { result ≢ NO_MEMORY }
{
    let needed = room_for(image);
    if needed > plugin.len() {
        *place = needed as u32;
        return NO_ROOM;
    }
    put_image(plugin, image);
    *place = 0;
    LOADED
}

/// The keys of a caller.
fn keys_of(pair: &KeyPair) -> Keys
    ensures { result ≡ loads.keys_of pair.now }
{
    let second = if pair.count == 2 {
        Some(pair.second)
    } else {
        None
    };
    Keys {
        first: pair.first,
        second,
    }
}

/// The number of a refusal, and the place of the instruction. Want of memory has the number 14.
fn number_and_place(fault: LoadFault) -> (u32, u32)
    ensures { result ≡ loads.number_of fault }
{
    match fault {
        LoadFault::Length => (1, 0),
        LoadFault::Magic => (2, 0),
        LoadFault::Version => (3, 0),
        LoadFault::TooLarge => (4, 0),
        LoadFault::Seal => (5, 0),
        LoadFault::BadOp(pc) => (6, pc),
        LoadFault::Register(pc) => (7, pc),
        LoadFault::Jump(pc) => (8, pc),
        LoadFault::Memory(pc) => (9, pc),
        LoadFault::Call(pc) => (10, pc),
        LoadFault::End => (11, 0),
        LoadFault::BadFlags => (12, 0),
        LoadFault::NoKey => (13, 0),
        LoadFault::NoMemory => (14, 0),
    }
}

/// Loads a sealed image of either version under one or two keys: 0 where it was loaded, else the
/// number of its refusal L1 to L13 with the place of the instruction that is refused (0 where none
/// is), 14 where there was no memory, or 15 where the image needs more bytes than the plug-in has,
/// with how many it needs: 44, 8 for each instruction, and its data. Where it isn't 0, the plug-in's
/// bytes stay as they were; else those behind what the image needs do. Nothing but this call takes
/// memory, and it gives back what it took.
pub fn load(alloc: Global, keys: &KeyPair, image: &[u8], plugin: &mut [u8], place: &mut u32) -> u32
    ensures loaded { result ≡ LOADED →
        model.load (loads.keys_of keys.now) image.now ≡ Ok (image_of plugin.new) }
    ensures whole { result ≡ LOADED → is_whole plugin.new ≡ true }
    ensures says { result ≢ NO_MEMORY → verdict_of (length plugin.old)
        (model.load (loads.keys_of keys.now) image.now) ≡ (result, place.new) }
    ensures kept { result ≢ LOADED → plugin.new ≡ plugin.old }
    ensures behind { result ≡ LOADED → drop (32 + length (content_of plugin.new)) plugin.new
        ≡ drop (32 + length (content_of plugin.new)) plugin.old }
    ensures size { length plugin.new ≡ length plugin.old }
{
    match graft_loader::load(alloc, &keys_of(keys), image) {
        Ok(image) => store(plugin, &image, place),
        Err(fault) => {
            let (number, at) = number_and_place(fault);
            *place = at;
            number
        }
    }
}
