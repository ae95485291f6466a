//! A kernel for programs of one's own: over any table of calls, driven by events, with no text.
//!
//! It is opened over a disk, takes events one after another, and reports in notes what happened at
//! each event.
//! The contracts are those of the kernel below (`kernel_core`), for this table.
#![tactic(auto)]

ghost use Rattle.std.specs.Prelude.{◌≡◌, ◌≤◌, ◌<◌, ◌-◌, ◌^◌, ℕ, map, true, [], None, slice_get, length, IfOk, OnErr};
ghost use Rattle.std.specs.Prelude.{option_map};
ghost use Rattle.kernel_model.specs.Bare.{event_with, notes_with};
ghost use Rattle.kernel_model.specs.Images as images;
ghost use Rattle.kernel_model.specs.Kernel.{Kernel as Abstract};
ghost use Rattle.kernel_model.specs.Sound.{IsAtRest};
ghost use Rattle.placed_laws.specs.Placed.{PlacedCall};
ghost use Rattle.placed_laws.specs.PlacedRows.{placed_rows};
ghost use Rattle.placed_laws.specs.Stands.{StandsFor};
ghost use Rattle.placed_laws.specs.Undone.{UndoesToCommitted};
ghost use Rattle.kernel_core.specs.AddedImages.{has_memory, image_said, ImageIsAdded};
ghost use Rattle.kernel_core.specs.Standing.{Booted};
ghost use Rattle.kernel_host.specs.Hosts.{IsHost, Happened, kernel_of};
ghost use Rattle.kernel_host.specs.Shelves.{IsStockShelf};

use arrayvec::ArrayVec;
use call_pieces::Ram;
pub use call_pieces::{Calls, Disk, Policy, Setup};
use graft_loader::Images;
pub use graft_loader::{Keys, LoadFault};
pub use kernel_core::{BootNote, ImageRefusal};
use kernel_core::{Kernel, Trace};
use kernel_model::{BLOCK_BYTES, RawRow};
pub use kernel_model::{BareCall, BareEvent, BareNote, NoMemory, Refusal, Reply};
use std::alloc::Global;

/// The last number that an event may have.
const LAST_EVENT: u32 = 4_294_967_294;

/// A kernel over a table of calls, and the notes of its last event.
#[derive(Drop)]
pub struct Host<C: Calls, B: Policy> {
    pub(crate) kernel: Kernel<C, B>,
    pub(crate) count: u32,
    pub(crate) trace: Trace,
}

impl<C: Calls, B: Policy> Host<C, B> {
    /// A kernel that was booted over this disk, with these stock policies, and what it says of the
    /// boot. It takes all the memory that it ever takes, except for images.
    pub fn open<D: Disk>(
        alloc: Global,
        setup: Setup,
        shelf: Vec<B>,
        disk: &mut D,
    ) -> Result<(Host<C, B>, BootNote), NoMemory>
        requires frames_least { 2 ≤ setup.frames }
        requires frames_most { setup.frames ≤ 64 }
        requires stock { IsStockShelf (map B.seen shelf.items) }
        ensures host { IfOk result (λ r. IsHost C.Meaning.meaning (D.seen disk.new).size r.0) }
        ensures booted { IfOk result (λ r. Booted C.Meaning.meaning setup (D.seen disk.old).size
            (kernel_of r.0) r.1 (D.seen disk.old) (D.seen disk.new)) }
        ensures none { IfOk result (λ r. (r.0.count ≡ 0) × (r.0.trace.notes ≡ [])) }
        ensures disk { OnErr result (D.seen disk.new ≡ D.seen disk.old) }
    {
        let images = Images::new(alloc)?;
        let trace = Trace::new(alloc)?;
        let Ok(ram) = Ram::new(alloc) else {
            return Err(NoMemory);
        };
        match Kernel::new(alloc, setup, ram, images, shelf) {
            Err(lacks) => Err(lacks),
            Ok(mut kernel) => {
                let note = kernel.boot(setup, disk);
                Ok((
                    Host {
                        kernel,
                        count: 0,
                        trace,
                    },
                    note,
                ))
            }
        }
    }

    /// Loads a sealed image under these keys into a free slot. It returns how many instructions and
    /// data bytes the image has, or why the image is refused; if it is refused, nothing changes. No
    /// event is counted.
    pub fn load(
        &mut self,
        alloc: Global,
        keys: &Keys,
        slot: u32,
        bytes: &[u8],
    ) -> Result<(u32, u32), ImageRefusal>
        requires host { (size : ℕ) × IsHost C.Meaning.meaning size self.old }
        ensures host { (size : ℕ) → IsHost C.Meaning.meaning size self.old →
            IsHost C.Meaning.meaning size self.new }
        ensures added { has_memory result ≡ true → (k : Abstract) →
            StandsFor C.Meaning.meaning (kernel_of self.old) k →
            IsAtRest C.Meaning.meaning k →
            ImageIsAdded C.Meaning.meaning slot (images.load keys.now bytes.now) k
            (kernel_of self.new) (image_said result) }
        ensures refused { OnErr result (self.new ≡ self.old) }
        ensures same { (self.new.count ≡ self.old.count) × (self.new.trace ≡ self.old.trace) }
    {
        self.kernel.add_image(alloc, keys, slot, bytes)
    }

    /// One event, with the bytes of its call. It leaves its notes (`notes`). It returns false, and
    /// nothing changes, if no number is left for it: after 4,294,967,294 events. No memory is
    /// taken.
    pub fn event<D: Disk>(
        &mut self,
        what: BareEvent,
        bytes: &ArrayVec<u8, BLOCK_BYTES>,
        disk: &mut D,
    ) -> bool
        requires host { IsHost C.Meaning.meaning (D.seen disk.old).size self.old }
        ensures host { IsHost C.Meaning.meaning (D.seen disk.new).size self.new }
        ensures happened { Happened C.Meaning.meaning self.old self.new
            (event_with what bytes.now.items) (D.seen disk.old) (D.seen disk.new) result }
        ensures undone { result ≡ true →
            UndoesToCommitted C.Meaning.meaning (kernel_of self.new) }
    {
        if self.count == LAST_EVENT {
            return false;
        }
        self.count += 1;
        self.trace.notes.clear();
        self.kernel
            .event(self.count, what, bytes, disk, &mut self.trace);
        true
    }

    /// How many events happened. The last has this number, and so have the notes of its call.
    pub fn count(&self) -> u32
        ensures { result ≡ self.now.count }
    {
        self.count
    }

    /// The notes of the last event, in order, and the bytes that they gave, one after the other. No
    /// event has more than 530 notes.
    pub fn notes(&self) -> (&[BareNote], &[u8])
        ensures value { self.now.trace.notes ≡ notes_with result.0.now result.1.now }
        ensures few { length result.0.now ≤ 530 }
    {
        self.trace.notes.parts()
    }

    /// The number of the call that process p has in flight. None if it has none, or if p is past
    /// the last process.
    pub fn in_flight(&self, p: u8) -> Option<u32>
        ensures { result ≡ option_map (λ (c : PlacedCall). c.number) ((kernel_of self.now).call p) }
    {
        self.kernel.left(p)
    }

    /// The i-th of the rows that show the kernel's whole state. None past the last.
    pub fn row(&self, i: u32) -> Option<RawRow>
        requires host { (size : ℕ) × IsHost C.Meaning.meaning size self.now }
        ensures { result ≡ slice_get (placed_rows (kernel_of self.now)) i }
    {
        self.kernel.raw(i)
    }
}
