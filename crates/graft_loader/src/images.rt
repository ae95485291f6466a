//! The table of loaded images.

ghost use Rattle.std.specs.Prelude.{◌≡◌, ℕ, ◌<◌, ◌==◌, ◌||◌, length, map, replicate, is_some, Some};
ghost use Rattle.std.specs.Prelude.{None, IfOk, IfSome, option_copied, not};
ghost use Rattle.graft_code.specs.ImageMask.{TellsImages, has_bit};

use crate::{Loaded, NoMemory};
use std::alloc::{AllocError, Global};
use std::marker::Model;

/// How many images can be loaded.
const SLOTS: usize = 32;

/// The loaded images by slot, 0 to 31, and one bit for each slot that tells whether it has one.
/// Contracts see the list of the slots.
#[derive(Drop)]
pub struct Images {
    slots: Vec<Option<Loaded>>,
    mask: u32,
}

impl Model for Images {
    ghost use Rattle.std.specs.Prelude.{List, Option};
    ghost use Rattle.graft_code.specs.World.{Image};
    ghost use Rattle.graft_loader.specs.Slots.{IsTable};

    ghost Value = { List (Option Image) };

    ghost view = { λ t. t.slots.items };

    ghost invariant = { λ t. IsTable t.slots.items t.mask };
}

impl Loaded {
    ghost use Rattle.graft_loader.specs.Loading.{IsLoaded};

    /// The image, of which is said what it keeps.
    fn usable(&self) -> &Loaded
        ensures same { result.now ≡ self.now }
        ensures usable { IsLoaded self.now }
    {
        let _body = self.body();
        self
    }
}

/// So many free slots.
fn free_slots(alloc: Global, count: usize) -> Result<Vec<Option<Loaded>>, AllocError>
    ensures { IfOk result (λ v. v.items ≡ replicate count None) }
{
    let mut slots = Vec::with_capacity(alloc, count)?;
    for _ in 0..count {
        slots.push(None)?;
    }
    Ok(slots)
}

/// Frees each slot.
fn free_all(slots: &mut [Option<Loaded>])
    ensures { slots.new ≡ replicate (length slots.old) None }
{
    for slot in slots.iter_mut() {
        *slot = None;
    }
}

/// A mask with one more bit.
fn with_bit(mask: u32, k: u32) -> u32
    requires { k < 32 }
    ensures { (j : ℕ) → j < 32 → has_bit j result ≡ (j == k || has_bit j mask) }
{
    mask | 1 << k
}

impl Images {
    ghost use Rattle.std.specs.Prelude.{slice_set};
    ghost use Rattle.graft_code.specs.Objects.{at};
    ghost use Rattle.graft_loader.specs.Loading.{IsLoaded};
    ghost use Rattle.graft_loader.specs.Slots.{no_slots, no_images, table_of};

    /// Each slot is free. No other call takes memory.
    pub fn new(alloc: Global) -> Result<Images, NoMemory>
        ensures slots { IfOk result (λ t. t ≡ no_slots) }
        ensures table { IfOk result (λ t. table_of t ≡ no_images) }
    {
        match free_slots(alloc, SLOTS) {
            Ok(slots) => Ok(Images { slots, mask: 0 }),
            Err(_) => Err(NoMemory),
        }
    }

    /// The image of a slot; none where the slot is free or above 31.
    pub fn get(&self, slot: u32) -> Option<&Loaded>
        ensures value { option_copied result ≡ table_of self.now slot }
        ensures usable { IfSome result (λ i. IsLoaded i.now) }
    {
        match self.slots.get(slot as usize) {
            Some(Some(image)) => Some(image.usable()),
            _ => None,
        }
    }

    /// Whether a slot has no image.
    pub fn is_free(&self, slot: u32) -> bool
        requires { slot < 32 }
        ensures { result ≡ not (is_some (table_of self.now slot)) }
    {
        self.slots[slot as usize].is_none()
    }

    /// The number whose bit k tells whether slot k has an image.
    pub fn mask(&self) -> u32
        ensures { TellsImages result (table_of self.now) }
    {
        self.mask
    }

    /// Puts an image into a slot. What the slot had before is gone, and the other slots stay.
    pub fn add(&mut self, slot: u32, image: Loaded)
        requires { slot < 32 }
        ensures slots { self.new ≡ slice_set self.old slot (Some image) }
        ensures table { table_of self.new ≡ at slot (Some image) (table_of self.old) }
    {
        self.slots[slot as usize] = Some(image);
        self.mask = with_bit(self.mask, slot);
    }

    /// Frees each slot.
    pub fn clear(&mut self)
        ensures slots { self.new ≡ no_slots }
        ensures table { table_of self.new ≡ no_images }
    {
        free_all(self.slots.as_mut_slice());
        self.mask = 0;
    }
}
