//! How a script runs, line by line.

ghost use Rattle.std.specs.Prelude.{◌≡◌, ℕ, ◌+◌, ◌<◌, ◌≤◌, ◌-◌, ◌++◌, ◌^◌, true, false, List, []};
ghost use Rattle.std.specs.Prelude.{length, map, codes, decimal, slice_index_or, None, Ok, Err};
ghost use Rattle.std.specs.Prelude.{IfOk, OnOk, OnErr};
ghost use Rattle.vino_base.specs.Disks.{DiskSeen};
ghost use Rattle.script_model.specs.declared.Keys.{Keys};
ghost use Rattle.kernel_data.specs.Bare.{event_with};
ghost use Rattle.kernel_data.specs.Objects.{at};
ghost use Rattle.script_model.specs.Text.{line};
ghost use Rattle.kernel_data.specs.Bytes.{spaced};
ghost use Rattle.script_model.specs.Script.{Happens, Boot, Loads, Raw, Unfinished};
ghost use Rattle.script_model.specs.Session.{fault_text};
ghost use Rattle.script_text.specs.Answers.{entry_seen, SetsWithin};
ghost use Rattle.script_text.specs.Syntax.{words_seen};
ghost use Rattle.script_model.specs.Images as images;
ghost use Rattle.script_model.specs.Kernel.{Kernel as Abstract};
ghost use Rattle.script_model.specs.Sound.{IsAtRest};
ghost use Rattle.running_kernel.specs.Views.{placed_of, IsRunning, HasAbstraction};
ghost use Rattle.placed_laws.specs.Stands as kernels;
ghost use Rattle.kernel_core.specs.declared.images.ImageRefusal.TheVariants.{Unloaded};
ghost use Rattle.kernel_core.specs.AddedImages.{slot_refused, has_memory, image_said, ImageIsAdded};
ghost use Rattle.vino_top.specs.Bounds.{IsStock, IsSessionOver, IsOnLine, CanRunEntry};
ghost use Rattle.vino_top.specs.Standing.{seen_of, IsBegun, last_bytes, code_seen};
ghost use Rattle.vino_top.specs.Run.{Place, place_with, place_over, LoadsFree, WantsAt, RunsLine};
ghost use Rattle.vino_top.specs.Run.{RunsEntry, LeavesText, boot_line, left_in};

use crate::lines::Lines;
use crate::loading::say_image;
use arrayvec::ArrayVec;
use call_pieces::{Calls, Policy, Ram};
use graft_loader::{Images, Keys, LoadFault};
use kernel_core::{BootNote, ImageRefusal, Kernel, Setup, Trace};
use kernel_data::{BLOCK_BYTES, BareEvent, BareNote, NoMemory, Refusal};
use line_text::{Text, print_boot, print_fault, print_note};
use script_text::{Entry, ImageBytes, OwnWord, ScriptFault, no_words, parse_line};
use std::alloc::Global;
use vino_base::Disk;

/// What a line leaves behind: the notes of its event, and the bytes that are written. Beside them
/// stand the bytes of its call. Memory is taken once, before the first line.
#[derive(Drop)]
pub struct Buffers {
    pub trace: Trace,
    /// The name of an `open`, or what a `write` writes.
    pub bytes: ArrayVec<u8, BLOCK_BYTES>,
    pub text: Text,
    pub lines: Lines,
}

impl Buffers {
    /// Empty ones.
    pub fn new(alloc: Global) -> Result<Buffers, NoMemory>
        ensures { IfOk result (λ b. LeavesText (left_in b) []) }
    {
        Ok(Buffers {
            trace: Trace::new(alloc)?,
            bytes: ArrayVec::new(),
            text: Text::new(),
            lines: Lines::new(alloc)?,
        })
    }

    /// Forgets what the last line left.
    fn clear(&mut self)
        ensures { LeavesText (left_in self.new) [] }
    {
        self.trace.notes.clear();
        self.lines.clear();
    }
}

/// How far a script has come, in a kernel over a table of calls.
#[derive(Drop)]
pub struct Session<C: Calls, B: Policy> {
    /// What the set-up lines set.
    pub setup: Setup,
    /// Whether `boot` was run.
    pub booted: bool,
    /// What `boot` begins anew.
    pub kernel: Kernel<C, B>,
    /// How many lines were taken.
    pub lines: u32,
    /// How many events were counted.
    pub events: u32,
    /// Whether a line was refused: no other is run.
    pub refused: bool,
}

impl<C: Calls, B: Policy> Session<C, B> {
    /// Before the first line, with the stock policies.
    pub fn new(alloc: Global, shelf: Vec<B>) -> Result<Session<C, B>, NoMemory>
        requires { IsStock (map B.seen shelf.items) }
        ensures within { IfOk result (λ s. (size : ℕ) → IsSessionOver C.Meaning.meaning size s) }
        ensures begun { IfOk result (λ s. IsBegun (seen_of s)) }
    {
        let setup = Setup {
            frames: 8,
            patience: [10; 8],
            grant: 1_000_000,
        };
        let images = Images::new(alloc)?;
        let Ok(ram) = Ram::new(alloc) else {
            return Err(NoMemory);
        };
        match Kernel::new(alloc, setup, ram, images, shelf) {
            Err(lacks) => Err(lacks),
            Ok(kernel) => Ok(Session {
                setup,
                booted: false,
                kernel,
                lines: 0,
                events: 0,
                refused: false,
            }),
        }
    }

    /// Runs the next line, under the keys of the images. What it writes stands in the buffers.
    ///
    /// Memory is wanted for an image whose slot is in range and free, and for nothing else; where
    /// there is none, nothing changes.
    pub fn run_line<D: Disk>(
        &mut self,
        alloc: Global,
        keys: &Keys,
        text: &[u8],
        disk: &mut D,
        out: &mut Buffers,
    ) -> Result<(), NoMemory>
        requires room { self.old.lines < 2 ^ 32 - 2 }
        requires within { IsSessionOver C.Meaning.meaning (D.seen disk.old).size self.old }
        requires short { length text.now ≤ 65536 }
        ensures within { IsSessionOver C.Meaning.meaning (D.seen disk.new).size self.new }
        ensures counted { self.new.lines ≤ self.old.lines + 1 }
        ensures ok { OnOk result (RunsLine
            (place_over C.Meaning.meaning keys.now (D.seen disk.old).size) text.now
            (seen_of self.old) (seen_of self.new) (D.seen disk.old) (D.seen disk.new)
            (left_in out.new)) }
        ensures err { OnErr result ((self.new ≡ self.old)
            × WantsAt [] C.Meaning.meaning (seen_of self.old) text.now) }
        ensures same_disk { OnErr result (D.seen disk.new ≡ D.seen disk.old) }
    {
        self.run_line_with(alloc, keys, no_words(), text, disk, out)
    }

    /// Runs the next line as `run_line` does, with these words added to the fixed ones.
    pub fn run_line_with<D: Disk>(
        &mut self,
        alloc: Global,
        keys: &Keys,
        own: &[OwnWord<'_>],
        text: &[u8],
        disk: &mut D,
        out: &mut Buffers,
    ) -> Result<(), NoMemory>
        requires room { self.old.lines < 2 ^ 32 - 2 }
        requires within { IsSessionOver C.Meaning.meaning (D.seen disk.old).size self.old }
        requires short { length text.now ≤ 65536 }
        ensures within { IsSessionOver C.Meaning.meaning (D.seen disk.new).size self.new }
        ensures counted { self.new.lines ≤ self.old.lines + 1 }
        ensures ok { OnOk result (RunsLine
            (place_with (words_seen own.now) C.Meaning.meaning keys.now (D.seen disk.old).size)
            text.now (seen_of self.old) (seen_of self.new) (D.seen disk.old) (D.seen disk.new)
            (left_in out.new)) }
        ensures err { OnErr result ((self.new ≡ self.old)
            × WantsAt (words_seen own.now) C.Meaning.meaning (seen_of self.old) text.now) }
        ensures same_disk { OnErr result (D.seen disk.new ≡ D.seen disk.old) }
    {
        out.clear();
        if self.refused {
            return Ok(());
        }
        let mut entry = Entry::Blank;
        match parse_line(own, text, self.booted, &mut out.bytes, &mut entry) {
            Err(fault) => {
                self.lines += 1;
                self.refuse(fault_code(fault), out);
            }
            Ok(()) => {
                self.lines += 1;
                if let Err(lacks) = self.run_entry(alloc, keys, &entry, disk, out) {
                    // A line that wanted memory isn't counted.
                    self.lines -= 1;
                    return Err(lacks);
                }
            }
        }
        Ok(())
    }

    /// Takes a line that is longer than a line may be.
    pub fn refuse_long(&mut self, out: &mut Buffers)
        requires room { self.old.lines < 2 ^ 32 - 2 }
        ensures within { (size : ℕ) → IsSessionOver C.Meaning.meaning size self.old →
            IsSessionOver C.Meaning.meaning size self.new }
        ensures counted { self.new.lines ≤ self.old.lines + 1 }
        ensures runs { (c : Place) (text : List ℕ) (d : DiskSeen) → 65536 < length text →
            RunsLine c text (seen_of self.old) (seen_of self.new) d d (left_in out.new) }
    {
        out.clear();
        if self.refused {
            return;
        }
        self.lines += 1;
        self.refuse(3, out);
    }

    /// Refuses the line: its S code is this.
    fn refuse(&mut self, code: u8, out: &mut Buffers)
        requires { LeavesText (left_in out.old) [] }
        ensures state { self.new ≡ record self.old { refused = true } }
        ensures text { LeavesText (left_in out.new)
            (line (codes "script" ++ spaced self.old.lines ++ codes " S" ++ decimal code)) }
    {
        self.refused = true;
        print_fault(self.lines, code, &mut out.text);
        out.lines.add(&out.text);
    }

    /// Runs an entry of the line that was counted. Only an image wants memory; where there is none,
    /// nothing changes.
    fn run_entry<D: Disk>(
        &mut self,
        alloc: Global,
        keys: &Keys,
        entry: &Entry,
        disk: &mut D,
        out: &mut Buffers,
    ) -> Result<(), NoMemory>
        requires can { CanRunEntry C.Meaning.meaning (D.seen disk.old).size self.old out.old }
        requires limits { SetsWithin (Ok entry.now) }
        requires place { entry_seen entry.now out.old.bytes.items ≡ Boot →
            self.old.booted ≡ false }
        ensures within { IsSessionOver C.Meaning.meaning (D.seen disk.new).size self.new }
        ensures counted { self.new.lines ≡ self.old.lines }
        ensures runs { OnOk result (RunsEntry
            (place_over C.Meaning.meaning keys.now (D.seen disk.old).size)
            (entry_seen entry.now out.old.bytes.items) (seen_of self.old) (seen_of self.new)
            (D.seen disk.old) (D.seen disk.new) (left_in out.new)) }
        ensures err { OnErr result ((self.new ≡ self.old)
            × LoadsFree (seen_of self.old) (entry_seen entry.now out.old.bytes.items)) }
        ensures same_disk { OnErr result (D.seen disk.new ≡ D.seen disk.old) }
    {
        match entry {
            Entry::Blank => Ok(()),
            Entry::Frames(n) => {
                self.setup.frames = *n;
                Ok(())
            }
            Entry::Patience(kind, ticks) => {
                set_patience(&mut self.setup.patience, *kind, *ticks);
                Ok(())
            }
            Entry::Grant(n) => {
                self.setup.grant = *n;
                Ok(())
            }
            Entry::Boot => {
                self.boot(disk, out);
                Ok(())
            }
            Entry::Happens(event) => {
                self.happen(*event, disk, out);
                Ok(())
            }
            Entry::Image(slot, bytes) => self.image(alloc, keys, *slot, bytes, out),
            Entry::Raw => {
                self.raw(out);
                Ok(())
            }
        }
    }

    /// The kernel begins.
    fn boot<D: Disk>(&mut self, disk: &mut D, out: &mut Buffers)
        requires first { self.old.booted ≡ false }
        requires within { IsSessionOver C.Meaning.meaning (D.seen disk.old).size self.old }
        requires empty { LeavesText (left_in out.old) [] }
        ensures within { IsSessionOver C.Meaning.meaning (D.seen disk.new).size self.new }
        ensures runs { (keys : Keys) → RunsEntry
            (place_over C.Meaning.meaning keys (D.seen disk.old).size) Boot
            (seen_of self.old) (seen_of self.new) (D.seen disk.old) (D.seen disk.new)
            (left_in out.new) }
    {
        let note = self.kernel.boot(self.setup, disk);
        self.booted = true;
        say_boot(note, &mut out.text);
        out.lines.add(&out.text);
    }

    /// An image for a slot of the kernel. Memory is taken only where the slot is in range and free;
    /// without it nothing changes.
    fn add_image(
        &mut self,
        alloc: Global,
        keys: &Keys,
        slot: u32,
        bytes: &ImageBytes,
    ) -> Result<Result<(u32, u32), ImageRefusal>, NoMemory>
        requires running { IsRunning self.old.kernel.running }
        requires abstraction { HasAbstraction C.Meaning.meaning
            (placed_of self.old.kernel.running) }
        ensures memory { IfOk result (λ answer. has_memory answer ≡ true) }
        ensures added { IfOk result (λ answer. (k : Abstract) →
            kernels.StandsFor C.Meaning.meaning (placed_of self.old.kernel.running) k →
            IsAtRest C.Meaning.meaning k →
            ImageIsAdded C.Meaning.meaning slot (images.load keys.now bytes.now) k
            (placed_of self.new.kernel.running) (image_said answer)) }
        ensures err { OnErr result ((self.new ≡ self.old)
            × (slot_refused (placed_of self.old.kernel.running).images slot ≡ None)) }
        ensures state { self.new ≡ record self.old { kernel = self.new.kernel } }
        ensures running { IsRunning self.new.kernel.running }
        ensures abstraction { HasAbstraction C.Meaning.meaning
            (placed_of self.new.kernel.running) }
        ensures store { self.new.kernel.running.store ≡ self.old.kernel.running.store }
        ensures clock { self.new.kernel.running.clock ≡ self.old.kernel.running.clock }
    {
        if let Some(refusal) = self.kernel.slot_refusal(slot) {
            return Ok(Err(refusal));
        }
        let sealed = bytes.decode(alloc)?;
        match known(self.kernel.add_image(alloc, keys, slot, sealed.as_slice())) {
            Err(lacks) => Err(lacks),
            Ok(answer) => Ok(answer),
        }
    }

    /// The line of an image, as an event: the bytes are loaded under the keys into a slot that is
    /// free. Where there is no memory for them or for the image, nothing changes.
    fn image(
        &mut self,
        alloc: Global,
        keys: &Keys,
        slot: u32,
        bytes: &ImageBytes,
        out: &mut Buffers,
    ) -> Result<(), NoMemory>
        requires counted { (size : ℕ) × IsOnLine C.Meaning.meaning size self.old }
        requires empty { LeavesText (left_in out.old) [] }
        ensures within { (size : ℕ) → IsSessionOver C.Meaning.meaning size self.old →
            IsSessionOver C.Meaning.meaning size self.new }
        ensures counted { self.new.lines ≡ self.old.lines }
        ensures runs { OnOk result ((size : ℕ) (d : DiskSeen) →
            RunsEntry (place_over C.Meaning.meaning keys.now size) (Loads slot bytes.now)
            (seen_of self.old) (seen_of self.new) d d (left_in out.new)) }
        ensures err { OnErr result ((self.new ≡ self.old)
            × LoadsFree (seen_of self.old) (Loads slot bytes.now)) }
    {
        if !self.booted {
            return Ok(());
        }
        let n = self.events + 1;
        match self.add_image(alloc, keys, slot, bytes) {
            Err(lacks) => Err(lacks),
            Ok(answer) => {
                say_image(n, answer, &mut out.text);
                self.answer_image(out);
                Ok(())
            }
        }
    }

    /// The lines of the calls that are left in flight, at the end of the input.
    pub fn left(&self, out: &mut Buffers)
        ensures { out.new.lines ≡ last_bytes (seen_of self.now) [] }
    {
        out.clear();
        if self.booted {
            out.lines.add_left(&self.kernel, &mut out.text);
        }
    }

    /// The line of a last line that has no newline.
    pub fn say_unfinished(&self, out: &mut Buffers)
        requires { self.now.lines < 2 ^ 32 - 2 }
        ensures { out.new.lines ≡ line (fault_text (self.now.lines + 1) Unfinished) }
    {
        out.clear();
        print_fault(self.lines + 1, 6, &mut out.text);
        out.lines.add(&out.text);
    }

    /// An image line is counted as an event, and its answer is written.
    fn answer_image(&mut self, out: &mut Buffers)
        requires room { self.old.events < 2 ^ 32 - 1 }
        requires empty { LeavesText (left_in out.old) [] }
        ensures state { self.new ≡ record self.old { events = self.old.events + 1 } }
        ensures text { LeavesText (left_in out.new) out.old.text }
    {
        self.events += 1;
        out.lines.add(&out.text);
    }

    /// The rows that show the kernel's whole state, as an event.
    fn raw(&mut self, out: &mut Buffers)
        requires counted { (size : ℕ) × IsOnLine C.Meaning.meaning size self.old }
        requires empty { LeavesText (left_in out.old) [] }
        ensures within { (size : ℕ) → IsSessionOver C.Meaning.meaning size self.old →
            IsSessionOver C.Meaning.meaning size self.new }
        ensures counted { self.new.lines ≡ self.old.lines }
        ensures runs { (keys : Keys) (size : ℕ) (d : DiskSeen) →
            RunsEntry (place_over C.Meaning.meaning keys size) Raw (seen_of self.old)
            (seen_of self.new) d d (left_in out.new) }
    {
        if self.booted {
            self.events += 1;
            out.lines.add_rows(&self.kernel, self.events, &mut out.text);
        }
    }

    /// An event of the kernel.
    fn happen<D: Disk>(&mut self, event: BareEvent, disk: &mut D, out: &mut Buffers)
        requires { CanRunEntry C.Meaning.meaning (D.seen disk.old).size self.old out.old }
        ensures within { IsSessionOver C.Meaning.meaning (D.seen disk.new).size self.new }
        ensures runs { (keys : Keys) → RunsEntry
            (place_over C.Meaning.meaning keys (D.seen disk.old).size)
            (Happens (event_with event out.old.bytes.items)) (seen_of self.old) (seen_of self.new)
            (D.seen disk.old) (D.seen disk.new) (left_in out.new) }
    {
        if self.booted {
            self.events += 1;
            let n = self.events;
            self.kernel
                .event(n, event, &out.bytes, disk, &mut out.trace);
            out.lines.add_notes(&out.trace.notes, &mut out.text);
        }
    }
}

/// An answer about an image, apart from want of memory.
fn known(
    answer: Result<(u32, u32), ImageRefusal>,
) -> Result<Result<(u32, u32), ImageRefusal>, NoMemory>
    ensures same { IfOk result (λ a. (a ≡ answer) × (has_memory a ≡ true)) }
    ensures lacks { OnErr result (answer ≡ Err (Unloaded LoadFault.NoMemory)) }
{
    match answer {
        Err(ImageRefusal::Unloaded(LoadFault::NoMemory)) => Err(NoMemory),
        answer => Ok(answer),
    }
}

/// What is said of a boot.
fn say_boot(note: BootNote, text: &mut Text)
    ensures { text.new ≡ line (boot_line note) }
{
    match note {
        BootNote::Up {
            frames,
            blocks: size,
            files,
        } => print_boot(frames, size, u32::from(files), text),
        BootNote::Fault => print_note(&BareNote::Refused(0, Refusal::DiskFault), &[], text),
    }
}

/// A call waits for a kind of object for so many ticks.
fn set_patience(patience: &mut [u32], kind: u8, ticks: u32)
    requires { kind < length patience.old }
    ensures value { (λ k. slice_index_or patience.new k 10)
        ≡ at kind ticks (λ k. slice_index_or patience.old k 10) }
{
    patience[kind as usize] = ticks;
}

/// The S code of a refusal.
fn fault_code(fault: ScriptFault) -> u8
    ensures { result ≡ code_seen fault }
{
    match fault {
        ScriptFault::BadWord => 1,
        ScriptFault::BadNumber => 2,
        ScriptFault::WrongPlace => 4,
        ScriptFault::UnknownCommand => 5,
    }
}
