//! Images: loaded under keys, into slots of the kernel.

ghost use Rattle.std.specs.Prelude.{◌≡◌, Result, Err, None, true, IfSome, OnErr};
ghost use Rattle.kernel_model.specs.Images as images;
ghost use Rattle.kernel_model.specs.World.{Image};
ghost use Rattle.kernel_model.specs.Kernel.{Kernel as Abstract};
ghost use Rattle.kernel_model.specs.Sound.{IsAtRest};
ghost use Rattle.graft_loader.specs.declared.LoadFault.TheVariants.{NoMemory};
ghost use Rattle.placed_laws.specs.Stands.{StandsFor};
ghost use Rattle.running_kernel.specs.Views.{placed_of, IsRunning, HasAbstraction};
ghost use Rattle.kernel_core.specs.declared.images.ImageRefusal.TheVariants.{Unloaded};
ghost use Rattle.kernel_core.specs.AddedImages.{slot_refused, has_memory, refusal_said, image_said, ImageIsAdded};

use crate::kernel::Kernel;
use call_pieces::{Calls, Policy};
use graft_loader::{Keys, LoadFault, load};
use std::alloc::Global;

/// The last slot of the table of images.
const LAST_SLOT: u32 = 31;

/// Why an image isn't added, in the order in which it is decided.
#[derive(Clone, Copy)]
pub enum ImageRefusal {
    /// There is no such slot.
    BadSlot,
    /// The slot has an image.
    Taken,
    /// The bytes are refused, or there was no memory for the image.
    Unloaded(LoadFault),
}

impl<C: Calls, B: Policy> Kernel<C, B> {
    /// Why no image can stand in a slot, if it can't: `BadSlot` above 31, `Taken` where it has one.
    pub fn slot_refusal(&self, slot: u32) -> Option<ImageRefusal>
        ensures value { result ≡ slot_refused (placed_of self.now.running).images slot }
        ensures refused { IfSome result
            (λ refusal. (k : Abstract) (loaded : Result Image images.LoadFault) →
            StandsFor C.Meaning.meaning (placed_of self.now.running) k →
            IsAtRest C.Meaning.meaning k →
            ImageIsAdded C.Meaning.meaning slot loaded k
            (placed_of self.now.running) (refusal_said refusal)) }
    {
        if slot > LAST_SLOT {
            return Some(ImageRefusal::BadSlot);
        }
        if self.has_image(slot) {
            return Some(ImageRefusal::Taken);
        }
        None
    }

    /// Loads sealed bytes under these keys into a slot, and answers how many instructions and data
    /// bytes the image has; nothing else changes. It is refused as its slot is, and then as `load`
    /// refuses its bytes, and then nothing changes. The keys aren't kept. Memory is taken for the
    /// image alone; without it nothing changes.
    pub fn add_image(
        &mut self,
        alloc: Global,
        keys: &Keys,
        slot: u32,
        bytes: &[u8],
    ) -> Result<(u32, u32), ImageRefusal>
        requires running { IsRunning self.old.running }
        requires abstraction { HasAbstraction C.Meaning.meaning (placed_of self.old.running) }
        ensures added { has_memory result ≡ true → (k : Abstract) →
            StandsFor C.Meaning.meaning (placed_of self.old.running) k →
            IsAtRest C.Meaning.meaning k →
            ImageIsAdded C.Meaning.meaning slot (images.load keys.now bytes.now) k
            (placed_of self.new.running) (image_said result) }
        ensures memory { result ≡ Err (Unloaded NoMemory) →
            slot_refused (placed_of self.old.running).images slot ≡ None }
        ensures refused { OnErr result (self.new ≡ self.old) }
        ensures running { IsRunning self.new.running }
        ensures abstraction { HasAbstraction C.Meaning.meaning (placed_of self.new.running) }
        ensures same { let x = self.old.running in self.new
            ≡ record self.old { running = record x { images = self.new.running.images } } }
    {
        if let Some(refusal) = self.slot_refusal(slot) {
            return Err(refusal);
        }
        match load(alloc, keys, bytes) {
            Err(fault) => Err(ImageRefusal::Unloaded(fault)),
            Ok(image) => {
                let instructions = image.code().code().len() as u32;
                let data = image.body().len() as u32;
                self.put_image(slot, image);
                Ok((instructions, data))
            }
        }
    }
}
