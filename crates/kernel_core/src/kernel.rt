//! The kernel: a running kernel over a disk. It is booted, takes events one after another, and
//! shows what it is.

ghost use Rattle.std.specs.Prelude.{◌≡◌, ◌<◌, ◌≤◌, ◌-◌, ◌^◌, [], map, None, Some, is_some};
ghost use Rattle.std.specs.Prelude.{option_map, slice_get, slice_set, IfOk, IfSome};
ghost use Rattle.kernel_model.specs.Bare.{event_with};
ghost use Rattle.kernel_model.specs.Kernel.{Kernel as Abstract};
ghost use Rattle.kernel_model.specs.Opening.{opening_policy};
ghost use Rattle.kernel_model.specs.RawRows.{raw_rows};
ghost use Rattle.kernel_model.specs.ImageLines as image_lines;
ghost use Rattle.kernel_model.specs.Sound.{IsAtRest};
ghost use Rattle.call_pieces.specs.Shelf.{IsShelf, pol_of, first_choice};
ghost use Rattle.call_pieces.specs.Stores.{world_of_store};
ghost use Rattle.placed_laws.specs.Placed.{PlacedCall};
ghost use Rattle.placed_laws.specs.PlacedRows.{placed_rows};
ghost use Rattle.placed_laws.specs.Stands.{StandsFor};
ghost use Rattle.running_kernel.specs.Sound.{IsSound};
ghost use Rattle.running_kernel.specs.Views.{placed_of, IsRunning};
ghost use Rattle.placed_laws.specs.Undone.{UndoesToCommitted};
ghost use Rattle.kernel_core.specs.EventRefines.{EventRefines, IsKernel};
ghost use Rattle.kernel_core.specs.PlacedSections.{row_found, row_if_found, IsRow, TakesRow};
ghost use Rattle.kernel_core.specs.Standing.{IsBlank, Booted};

use crate::events::event;
use crate::placed_rows::{self, FoundRow, RowPlace};
use arrayvec::ArrayVec;
use call_pieces::{
    Calls, Directory, Disk, DiskLog, Policy, Ram, Segments, Setup, Shelf, Store, read_directory,
};
use graft_loader::{Images, Loaded};
use kernel_model::{BLOCK_BYTES, BareEvent, NoMemory, RawRow};
use kernel_steps::Trace;
use running_kernel::Running;
use std::alloc::Global;

/// How many segments can be kept: one for each point of each process.
const KEPT_SEGMENTS: usize = 256;

/// The kernel over a table of calls.
#[derive(Drop)]
pub struct Kernel<C: Calls, B: Policy> {
    /// The store, the clock and all that is in flight.
    pub running: Running<C, B>,
    /// The calls of the disk of a boot.
    log: DiskLog,
}

/// What a kernel says when it was booted.
#[derive(Clone, Copy)]
pub enum BootNote {
    /// How many frames the cache has, blocks the disk, and usable files the directory.
    Up { frames: u8, blocks: u32, files: u8 },
    /// The directory couldn't be read, and no file is usable.
    Fault,
}

impl<C: Calls, B: Policy> Kernel<C, B> {
    /// A kernel before boot, with its memory, the table of images and the stock policies. Takes all
    /// the memory that it ever does.
    pub fn new(
        alloc: Global,
        setup: Setup,
        ram: Ram,
        images: Images,
        shelf: Vec<B>,
    ) -> Result<Kernel<C, B>, NoMemory>
        requires frames_least { 2 ≤ setup.frames }
        requires frames_most { setup.frames ≤ 64 }
        requires shelf { IsShelf (map B.seen shelf.items) }
        requires stock { pol_of (map B.seen shelf.items) first_choice ≡ opening_policy }
        ensures blank { IfOk result (λ k. IsBlank k.running) }
    {
        let kept = Segments::new(alloc, KEPT_SEGMENTS)?;
        let store = Store::new(setup, 1, Directory::empty(), ram, kept, Shelf::of(shelf));
        match Running::new(alloc, store, images) {
            Ok(running) => Ok(Kernel {
                running,
                log: DiskLog::new(),
            }),
            Err(lacks) => Err(lacks),
        }
    }

    /// The kernel begins: block 0 of the disk has the directory. Where it can't be read there are
    /// no files. All slots of images are free.
    pub fn boot<D: Disk>(&mut self, setup: Setup, disk: &mut D) -> BootNote
        requires frames_least { 2 ≤ setup.frames }
        requires frames_most { setup.frames ≤ 64 }
        requires blank { IsBlank self.old.running }
        ensures booted { Booted C.Meaning.meaning setup (D.seen disk.old).size
            (placed_of self.new.running) result
            (D.seen disk.old) (D.seen disk.new) }
        ensures kernel { IsKernel C.Meaning.meaning 0 self.new.running }
        ensures size { self.new.running.store.size ≡ (D.seen disk.old).size }
    {
        let size = disk.size();
        self.log.clear();
        match self.log.read(disk, 0) {
            Ok(()) => {
                let directory = read_directory(disk.block(), size);
                let files = directory.count();
                self.running.restart(setup, size, directory);
                BootNote::Up {
                    frames: setup.frames,
                    blocks: size,
                    files,
                }
            }
            Err(_) => {
                self.running.restart(setup, size, Directory::empty());
                BootNote::Fault
            }
        }
    }

    /// Whether a slot has an image.
    pub(crate) fn has_image(&self, slot: u32) -> bool
        requires { slot < 32 }
        ensures { result ≡ is_some ((placed_of self.now.running).images slot) }
    {
        self.running.has_image(slot)
    }

    /// A slot that is free has this image from now on, and nothing else changes. No memory is
    /// taken.
    pub(crate) fn put_image(&mut self, slot: u32, image: Loaded)
        requires sound { IsSound C.Meaning.meaning self.old.running }
        requires slot { slot < 32 }
        requires free { (placed_of self.old.running).images slot ≡ None }
        ensures stands { (k : Abstract) →
            StandsFor C.Meaning.meaning (placed_of self.old.running) k →
            StandsFor C.Meaning.meaning (placed_of self.new.running)
            (image_lines.add_image slot image k) }
        ensures rests { (k : Abstract) → StandsFor C.Meaning.meaning
            (placed_of self.old.running) k → IsAtRest C.Meaning.meaning k →
            IsAtRest C.Meaning.meaning (image_lines.add_image slot image k) }
        ensures sound { IsSound C.Meaning.meaning self.new.running }
        ensures changed { let x = self.old.running in self.new ≡ record self.old {
          running = record x { images = slice_set x.images slot (Some image) };
        } }
    {
        self.running.add_image(slot, image);
    }

    /// The number of the call that process p has in flight. None past the last process.
    pub fn left(&self, p: u8) -> Option<u32>
        ensures { result ≡ option_map (λ (c : PlacedCall). c.number)
            ((placed_of self.now.running).call p) }
    {
        self.running.call_number(p)
    }

    /// One event, which has this number, and the bytes of its system call. Its notes are left
    /// behind. No memory is taken. Undoing the calls in flight then would lead back to what is
    /// committed.
    pub fn event<D: Disk>(
        &mut self,
        number: u32,
        what: BareEvent,
        bytes: &ArrayVec<u8, BLOCK_BYTES>,
        disk: &mut D,
        trace: &mut Trace,
    )
        requires first { 0 < number }
        requires room { number < 2 ^ 32 - 1 }
        requires kernel { IsKernel C.Meaning.meaning (number - 1) self.old.running }
        requires disk { self.old.running.store.size ≡ (D.seen disk.old).size }
        requires no_notes { trace.old.notes ≡ [] }
        ensures happened { EventRefines C.Meaning.meaning (placed_of self.old.running)
            (placed_of self.new.running) number (event_with what bytes.now.items)
            trace.new.notes
            (D.seen disk.old) (D.seen disk.new) }
        ensures undone { UndoesToCommitted C.Meaning.meaning (placed_of self.new.running) }
        ensures kernel { IsKernel C.Meaning.meaning number self.new.running }
        ensures world { world_of_store self.new.running.store
            ≡ world_of_store self.old.running.store }
    {
        event(&mut self.running, number, what, bytes, disk, trace);
    }

    /// The i-th of the rows that show the whole state, which are those of each abstract kernel that
    /// the kernel stands for. None past the last.
    pub fn raw(&self, i: u32) -> Option<RawRow>
        requires running { IsRunning self.now.running }
        ensures value { result ≡ slice_get (placed_rows (placed_of self.now.running)) i }
        ensures stands { (k : Abstract) →
            StandsFor C.Meaning.meaning (placed_of self.now.running) k →
            result ≡ slice_get (raw_rows C.Meaning.meaning k) i }
        ensures few { 1478 ≤ i → result ≡ None }
    {
        let mut at = RowPlace::first();
        for before in 0..i {
            self.next_row(&mut at)?;
        }
        self.next_row(&mut at)
    }

    /// The next row from a place on, which then is behind that row. None where no row is left.
    pub fn next_row(&self, at: &mut RowPlace) -> Option<RawRow>
        requires running { IsRunning self.now.running }
        ensures { TakesRow (placed_of self.now.running) at.old at.new result }
    {
        placed_rows::next_row(&self.running, at)
    }

    /// Where the next row from a place on stands, which then is behind that row. None where no row
    /// is left.
    pub fn find_row(&self, at: &mut RowPlace) -> Option<FoundRow>
        requires running { IsRunning self.now.running }
        ensures taken { TakesRow (placed_of self.now.running) at.old at.new
            (row_if_found (placed_of self.now.running) result) }
        ensures found { IfSome result (IsRow (placed_of self.now.running)) }
    {
        placed_rows::find_row(&self.running, at)
    }

    /// The row that stands there.
    pub fn row_at(&self, found: &FoundRow) -> Option<RawRow>
        requires running { IsRunning self.now.running }
        requires found { IsRow (placed_of self.now.running) found.now }
        ensures { result ≡ row_found (placed_of self.now.running) found.now }
    {
        placed_rows::row_at(&self.running, found)
    }
}
