//! How a kernel begins again, and how images are added.

ghost use Rattle.std.specs.Prelude.{◌≡◌, ℕ, ◌<◌, ◌≤◌, true, None, Some, is_some, length, slice_index_or, slice_set};
ghost use Rattle.kernel_data.specs.declared.FileRow.{FileRow};
ghost use Rattle.kernel_data.specs.Directory.{lies_on_disk};
ghost use Rattle.kernel_model.specs.Kernel.{Kernel};
ghost use Rattle.kernel_model.specs.Opening.{opening_kernel, opening_policy};
ghost use Rattle.kernel_model.specs.ImageLines as image_lines;
ghost use Rattle.kernel_model.specs.Sound.{IsAtRest};
ghost use Rattle.call_pieces.specs.Shelf.{pol_of, first_choice};
ghost use Rattle.call_pieces.specs.Stores.{world_of_store, views_of};
ghost use Rattle.call_pieces.specs.Sound.{world_for};
ghost use Rattle.placed_laws.specs.Stands.{StandsFor};
ghost use Rattle.running_kernel.specs.Sound.{IsSound};
ghost use Rattle.running_kernel.specs.Views.{placed_of, IsRunning, IsQuiet};

use crate::running::Running;
use call_pieces::{Calls, Directory, Policy, Setup};
use graft_levels::Loaded;

impl<C: Calls, B: Policy> Running<C, B> {
    /// The kernel begins again, on a disk of this size with this directory: no call is in flight,
    /// and none waits. The policies stay, with the parameters of boot.
    pub fn restart(&mut self, setup: Setup, size: u32, dir: Directory)
        requires frames_least { 2 ≤ setup.frames }
        requires frames_most { setup.frames ≤ 64 }
        requires size_least { 1 ≤ size }
        requires size_most { size ≤ 4096 }
        requires rows { length dir ≤ 16 }
        requires files { (n : ℕ) (r : FileRow) → slice_index_or dir n None ≡ Some r →
            lies_on_disk size r ≡ true }
        requires stock { pol_of (views_of self.old.store) first_choice ≡ opening_policy }
        requires running { IsRunning self.old }
        requires quiet { IsQuiet self.old }
        ensures stands { StandsFor C.Meaning.meaning (placed_of self.new)
            (opening_kernel (world_for setup size dir)) }
        ensures running { IsRunning self.new }
        ensures quiet { IsQuiet self.new }
        ensures clock { self.new.clock ≡ 0 }
        ensures world { world_of_store self.new.store ≡ world_for setup size dir }
        ensures views { views_of self.new.store ≡ views_of self.old.store }
    {
        self.store.restart(setup, size, dir);
        self.images.clear();
        self.clock = 0;
    }

    /// Whether a slot has an image.
    pub fn has_image(&self, slot: u32) -> bool
        requires { slot < 32 }
        ensures { result ≡ is_some ((placed_of self.now).images slot) }
    {
        !self.images.is_free(slot)
    }

    /// A slot that is free has this image from now on, and nothing else changes. Every call stays
    /// where it is, and what blocks it. No memory is taken.
    pub fn add_image(&mut self, slot: u32, image: Loaded)
        requires sound { IsSound C.Meaning.meaning self.old }
        requires slot { slot < 32 }
        requires free { (placed_of self.old).images slot ≡ None }
        ensures stands { (k : Kernel) → StandsFor C.Meaning.meaning (placed_of self.old) k →
            StandsFor C.Meaning.meaning (placed_of self.new)
            (image_lines.add_image slot image k) }
        ensures rests { (k : Kernel) → StandsFor C.Meaning.meaning (placed_of self.old) k →
            IsAtRest C.Meaning.meaning k →
            IsAtRest C.Meaning.meaning (image_lines.add_image slot image k) }
        ensures sound { IsSound C.Meaning.meaning self.new }
        ensures changed { self.new
            ≡ record self.old { images = slice_set self.old.images slot (Some image) } }
    {
        self.images.add(slot, image);
    }
}
