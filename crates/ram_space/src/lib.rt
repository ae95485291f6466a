//! The memory of the kernel: 524,288 bytes, read and written by byte, by word and by piece.
#![tactic(auto)]

ghost use Rattle.std.specs.Prelude.{◌≡◌, ℕ, ◌+◌, ◌*◌, ◌/◌, ◌≤◌, ◌<◌, ◌%◌, ◌++◌, ◌-◌, IfOk, length};
ghost use Rattle.std.specs.Prelude.{nat_eq, replicate, take, drop, slice_index, slice_range};
ghost use Rattle.std.specs.Prelude.{slice_set};
ghost use Rattle.std.specs.Cmp.Lexicographic.{pointwise};
ghost use Rattle.std.specs.Int.{w32, from_le_bytes, to_le_bytes};
ghost use Rattle.ram_space.specs.Pages.{ArePages, Becomes, IsPart, IsPiece, IsSpace, cleared, memory_of, put};

mod segments;

use fixed_room::Room;
pub use segments::{MOST_SEGMENTS, SEGMENT_BYTES, Segments};
use std::alloc::{AllocError, Global};
use std::marker::Model;

/// The bytes of the memory.
pub const RAM_BYTES: u32 = 524_288;

/// There was no memory left.
#[derive(Clone, Copy, Debug)]
pub struct NoMemory;

/// The bytes of a page.
const PAGE_BYTES: usize = 4096;

/// How many pages the memory has.
const PAGES: usize = 128;

/// The memory, which contracts see as the list of its bytes, each 0 to 255. Addresses count from 0.
///
/// Until a page is written, a page of zeros stands for it, which all such pages share: the memory
/// for all is taken at first, and stays what it was, but no byte of a page is written before it is
/// needed.
#[derive(Drop)]
pub struct Ram {
    /// The place of each page in `bytes`, counted in pages; 0 for one that wasn't written.
    places: [u8; PAGES],
    /// The page of zeros, and the pages that were written.
    bytes: Room<u8>,
}

impl Model for Ram {
    ghost use Rattle.std.specs.Prelude.{ℕ, List};
    ghost use Rattle.ram_space.specs.Pages.{IsSpace, memory_of};

    ghost Value = { List ℕ };

    ghost view = { λ r. memory_of r.places r.bytes.items };

    ghost invariant = { λ r. IsSpace r.places r.bytes.items r.bytes.room };
}

impl Ram {
    /// Zeros. Takes all the memory that it ever does.
    #[tactic(auto, using(crate::proofs::Pages::begins))]
    pub fn new(alloc: Global) -> Result<Ram, NoMemory>
        ensures zeros { IfOk result (λ r. (a : ℕ) → slice_index r a ≡ 0) }
        ensures size { IfOk result (λ r. length r ≡ RAM_BYTES) }
    {
        match zero_page(alloc) {
            Ok(bytes) => Ok(Ram {
                places: no_places(),
                bytes,
            }),
            Err(_) => Err(NoMemory),
        }
    }

    /// The byte at an address.
    pub fn byte(&self, a: u32) -> u8
        requires { a < RAM_BYTES }
        ensures value { result ≡ slice_index self.now a }
        ensures size { length self.now ≡ RAM_BYTES }
    {
        byte_at(&self.places, &self.bytes, a)
    }

    /// Puts a byte at an address.
    pub fn put_byte(&mut self, a: u32, v: u8)
        requires { a < RAM_BYTES }
        ensures value { self.new ≡ slice_set self.old a v }
        ensures size { length self.new ≡ RAM_BYTES }
    {
        self.whole();
        self.put_in_page(a, &[v]);
    }

    /// The word of the four bytes from an address on, the lowest byte first. The address is a
    /// multiple of 4.
    pub fn word(&self, a: u32) -> u32
        requires aligned { a % 4 ≡ 0 }
        requires inside { a < RAM_BYTES }
        ensures value { result ≡ from_le_bytes w32 (slice_range self.now a (a + 4)) }
        ensures size { length self.now ≡ RAM_BYTES }
    {
        get_word(self.bytes(a, 4), 0)
    }

    /// Puts a word in the four bytes from an address on, the lowest byte first. The address is a
    /// multiple of 4.
    pub fn put_word(&mut self, a: u32, v: u32)
        requires aligned { a % 4 ≡ 0 }
        requires inside { a < RAM_BYTES }
        ensures value { self.new ≡ take a self.old ++ to_le_bytes w32 v ++ drop (a + 4) self.old }
        ensures size { length self.new ≡ RAM_BYTES }
    {
        self.put_in_page(a, &v.to_le_bytes());
    }

    /// The memory has all its bytes.
    fn whole(&self)
        ensures { length self.now ≡ RAM_BYTES }
    {
        byte_at(&self.places, &self.bytes, 0);
    }

    /// Puts bytes from an address on, which lie in one page. It is always inlined, so that the bytes
    /// of a word are put without a loop.
    #[inline(always)]
    fn put_in_page(&mut self, a: u32, from: &[u8])
        requires { IsPiece a (length from.now) }
        ensures { Becomes (put a from.now) self.old self.new }
    {
        own_page(&mut self.places, &mut self.bytes, a as usize / PAGE_BYTES);
        put_at(&self.places, &mut self.bytes, a, from);
    }

    /// Copies bytes in, the first to an address. It is inlined, as most bytes lie in one page.
    #[inline(always)]
    #[tactic(auto, using(crate::proofs::Pages::copies))]
    pub fn copy_in(&mut self, a: u32, from: &[u8])
        requires { a + length from.now ≤ RAM_BYTES }
        ensures value { self.new ≡ take a self.old ++ from.now
            ++ drop (a + length from.now) self.old }
        ensures size { length self.new ≡ RAM_BYTES }
    {
        self.whole();
        if from.is_empty() {
            return;
        }
        let room = PAGE_BYTES - a as usize % PAGE_BYTES;
        if from.len() <= room {
            self.put_in_page(a, from);
            return;
        }
        let (first, rest) = from.split_at(room);
        self.put_in_page(a, first);
        self.copy_in(a + room as u32, rest);
    }

    /// Zeros from an address to another, in one page.
    fn clear_in_page(&mut self, from: u32, to: u32)
        requires { IsPart from to }
        ensures { Becomes (cleared from to) self.old self.new }
    {
        clear_at(&self.places, &mut self.bytes, from, to);
    }

    /// Zeros from an address to another. Pages that weren't written stay so.
    #[tactic(auto, using(crate::proofs::Pages::clears_pages))]
    pub fn clear(&mut self, from: u32, to: u32)
        requires order { from ≤ to }
        requires inside { to ≤ RAM_BYTES }
        ensures value { self.new ≡ take from self.old ++ replicate (to - from) 0
            ++ drop to self.old }
        ensures size { length self.new ≡ RAM_BYTES }
    {
        self.whole();
        if from == to {
            return;
        }
        let end = from - from % PAGE_BYTES as u32 + PAGE_BYTES as u32;
        if to <= end {
            self.clear_in_page(from, to);
            return;
        }
        self.clear_in_page(from, end);
        self.clear(end, to);
    }

    /// The bytes from an address on, so many, which lie in one page of 4,096 bytes.
    pub fn bytes(&self, a: u32, count: u32) -> &[u8]
        requires inside { a < RAM_BYTES }
        requires page { a % 4096 + count ≤ 4096 }
        ensures value { result.now ≡ slice_range self.now a (a + count) }
        ensures size { length self.now ≡ RAM_BYTES }
    {
        piece_at(&self.places, &self.bytes, a, count as usize)
    }

    /// Whether these bytes stand from an address on.
    #[tactic(auto, using(crate::proofs::Lists::has_parts))]
    pub fn has(&self, a: u32, wanted: &[u8]) -> bool
        requires { a + length wanted.now ≤ RAM_BYTES }
        ensures { result ≡ pointwise nat_eq
            (slice_range self.now a (a + length wanted.now)) wanted.now }
    {
        if wanted.is_empty() {
            return true;
        }
        let room = PAGE_BYTES - a as usize % PAGE_BYTES;
        if wanted.len() <= room {
            return self.bytes(a, wanted.len() as u32) == wanted;
        }
        let (first, rest) = wanted.split_at(room);
        self.bytes(a, room as u32) == first && self.has(a + room as u32, rest)
    }
}

/// No page was written.
fn no_places() -> [u8; PAGES]
    ensures { result ≡ replicate PAGES 0 }
{
    [0; PAGES]
}

/// A page of zeros, with room for all pages behind it.
#[tactic(auto, using(crate::proofs::Pages::first_page))]
fn zero_page(alloc: Global) -> Result<Room<u8>, AllocError>
    ensures zeros { IfOk result (λ v. v.items ≡ replicate 4096 0) }
    ensures room { IfOk result (λ v. v.room ≡ 528384) }
{
    let mut bytes = Room::with_capacity(alloc, PAGE_BYTES + RAM_BYTES as usize)?;
    bytes.reach(PAGE_BYTES, 0);
    Ok(bytes)
}

/// Where the byte of an address stands.
fn place_of(places: &[u8; PAGES], a: u32) -> usize
    requires { a < RAM_BYTES }
    ensures { result ≡ 4096 * slice_index places.now (a / 4096) + a % 4096 }
{
    PAGE_BYTES * places[a as usize / PAGE_BYTES] as usize + a as usize % PAGE_BYTES
}

/// The byte at an address.
#[tactic(auto, using(crate::proofs::Pages::reads))]
fn byte_at(places: &[u8; PAGES], bytes: &[u8], a: u32) -> u8
    requires inside { a < RAM_BYTES }
    requires sound { ArePages places.now bytes.now }
    ensures value { result ≡ slice_index (memory_of places.now bytes.now) a }
    ensures size { length (memory_of places.now bytes.now) ≡ RAM_BYTES }
{
    bytes[place_of(places, a)]
}

/// The bytes from an address on, so many, which lie in one page.
#[tactic(auto, using(crate::proofs::Pages::reads))]
fn piece_at<'a>(places: &[u8; PAGES], bytes: &'a [u8], a: u32, count: usize) -> &'a [u8]
    requires piece { IsPiece a count }
    requires sound { ArePages places.now bytes.now }
    ensures value { result.now ≡ slice_range (memory_of places.now bytes.now) a (a + count) }
    ensures size { length (memory_of places.now bytes.now) ≡ RAM_BYTES }
{
    get_piece(bytes, place_of(places, a), count)
}

/// Page i, which has no place of its own, gets the next one.
#[tactic(auto, using(crate::proofs::Pages::gives))]
#[inline(never)]
fn give_place(places: &mut [u8; PAGES], bytes: &mut Room<u8>, i: usize)
    requires page { i < PAGES }
    requires none { slice_index places.old i ≡ 0 }
    requires space { IsSpace places.old bytes.old.items bytes.old.room }
    ensures same { memory_of places.new bytes.new.items ≡ memory_of places.old bytes.old.items }
    ensures own { 0 < slice_index places.new i }
    ensures space { IsSpace places.new bytes.new.items bytes.new.room }
{
    let end = bytes.len();
    places[i] = (end / PAGE_BYTES) as u8;
    bytes.reach(end + PAGE_BYTES, 0);
}

/// Page i gets a place of its own where it has none.
#[inline(always)]
fn own_page(places: &mut [u8; PAGES], bytes: &mut Room<u8>, i: usize)
    requires page { i < PAGES }
    requires space { IsSpace places.old bytes.old.items bytes.old.room }
    ensures same { memory_of places.new bytes.new.items ≡ memory_of places.old bytes.old.items }
    ensures own { 0 < slice_index places.new i }
    ensures space { IsSpace places.new bytes.new.items bytes.new.room }
{
    if places[i] == 0 {
        give_place(places, bytes, i);
    }
}

/// Puts bytes from an address on, which lie in one page that has a place of its own.
#[tactic(auto, using(crate::proofs::Pages::puts))]
#[inline(always)]
fn put_at(places: &[u8; PAGES], bytes: &mut [u8], a: u32, from: &[u8])
    requires piece { IsPiece a (length from.now) }
    requires own { 0 < slice_index places.now (a / 4096) }
    requires sound { ArePages places.now bytes.old }
    ensures value { memory_of places.now bytes.new
        ≡ put a from.now (memory_of places.now bytes.old) }
    ensures sound { ArePages places.now bytes.new }
    ensures size { length (memory_of places.now bytes.new) ≡ RAM_BYTES }
{
    set_piece(bytes, place_of(places, a), from);
}

/// Zeros from an address to another, in one page.
#[tactic(auto, using(crate::proofs::Pages::clears))]
fn clear_at(places: &[u8; PAGES], bytes: &mut [u8], from: u32, to: u32)
    requires part { IsPart from to }
    requires sound { ArePages places.now bytes.old }
    ensures value { memory_of places.now bytes.new
        ≡ cleared from to (memory_of places.now bytes.old) }
    ensures sound { ArePages places.now bytes.new }
    ensures size { length (memory_of places.now bytes.new) ≡ RAM_BYTES }
{
    if places[from as usize / PAGE_BYTES] > 0 {
        let at = place_of(places, from);
        clear_piece(bytes, at, at + (to - from) as usize);
    }
}

/// The word of the four bytes from a place on, the lowest byte first.
fn get_word(bytes: &[u8], at: usize) -> u32
    requires { at + 4 ≤ length bytes.now }
    ensures { result ≡ from_le_bytes w32 (slice_range bytes.now at (at + 4)) }
{
    u32::from_le_bytes([bytes[at], bytes[at + 1], bytes[at + 2], bytes[at + 3]])
}

/// Puts bytes in place of those from a place on.
#[inline(always)]
fn set_piece(bytes: &mut [u8], at: usize, from: &[u8])
    requires { at + length from.now ≤ length bytes.old }
    ensures { bytes.new ≡ take at bytes.old ++ from.now ++ drop (at + length from.now) bytes.old }
{
    bytes[at..at + from.len()].copy_from_slice(from);
}

/// Puts zeros in place of the bytes from a place to another.
fn clear_piece(bytes: &mut [u8], from: usize, to: usize)
    requires order { from ≤ to }
    requires inside { to ≤ length bytes.old }
    ensures { bytes.new ≡ cleared from to bytes.old }
{
    bytes[from..to].fill(0);
}

/// The bytes from a place on, so many.
fn get_piece(bytes: &[u8], at: usize, count: usize) -> &[u8]
    requires { at + count ≤ length bytes.now }
    ensures { result.now ≡ slice_range bytes.now at (at + count) }
{
    &bytes[at..at + count]
}
