//! What a line makes of a session.

ghost use Rattle.std.specs.Prelude.{◌≡◌, ◌+◌, ◌++◌, [], true, false, length, is_some, codes, decimal};
ghost use Rattle.std.specs.Prelude.{Some, IfOk, OnOk};
ghost use Rattle.script_model.specs.Bare.{event_with};
ghost use Rattle.script_model.specs.Bytes.{spaced};
ghost use Rattle.script_model.specs.Script.{Happens, Boot, Loads, Raw};
ghost use Rattle.script_model.specs.Outcome.{left_line, left_lines};
ghost use Rattle.script_model.specs.Session as model;
ghost use Rattle.script_model.specs.Session.{whole};
ghost use Rattle.script_model.specs.Directory.{sample_disk};
ghost use Rattle.script_model.specs.Text.{line};
ghost use Rattle.audit_kernel.specs.Runs.{kernel_of};
ghost use Rattle.script_text.specs.Answers.{entry_seen};
ghost use Rattle.audit_session.specs.Sessions.{session_of, RunIsKept, Leaves, code_seen};
ghost use Rattle.audit_session.specs.Sessions.{last_bytes};

use crate::images::add_image;
use crate::{LINE_BYTES, Output, Session};
use arrayvec::ArrayVec;
use audit_kernel::Run;
use audit_state::World;
use audit_state::sample::rows_are;
use audit_table::{copy, put_one};
use graft_loader::Keys;
use script_model::{BLOCK_BYTES, BareEvent, NoMemory};
use script_text::{Entry, ImageBytes, ScriptFault, no_words, parse_line};
use std::alloc::Global;

/// One more.
fn one_more(n: u32) -> Result<u32, NoMemory>
    ensures { IfOk result (λ m. m ≡ n + 1) }
{
    match n.checked_add(1) {
        Some(m) => Ok(m),
        None => Err(NoMemory),
    }
}

/// The S code of a refusal.
fn fault_code(fault: ScriptFault) -> u8
    ensures { result ≡ code_seen fault }
{
    match fault {
        ScriptFault::BadWord => 1,
        ScriptFault::BadNumber => 2,
        ScriptFault::WrongPlace => 4,
        ScriptFault::UnknownCommand => 5,
    }
}

/// The line of the call of a process, if one is left in flight.
fn add_left_of(run: &Run, p: u8, out: &mut Output) -> Result<(), NoMemory>
    ensures { OnOk result (out.new ≡ out.old ++ left_line p ((kernel_of run.now).call p)) }
{
    match run.call_number(p) {
        None => Ok(()),
        Some(number) => out.add_left(p, number),
    }
}

/// The lines of the calls that are left in flight, by process.
fn add_left(run: &Run, out: &mut Output) -> Result<(), NoMemory>
    ensures { OnOk result (out.new ≡ out.old ++ left_lines (Some (kernel_of run.now))) }
{
    for p in 0..16 {
        add_left_of(run, p, out)?;
    }
    Ok(())
}

impl Session {
    /// Before the first line.
    pub fn new(alloc: Global) -> Session
        ensures first { session_of result ≡ model.first_session sample_disk }
        ensures kept { RunIsKept result.run }
    {
        Session {
            setup: World {
                frames: 8,
                patience: Vec::new(alloc),
                grant: 1_000_000,
            },
            run: None,
            lines: 0,
            events: 0,
            refused: false,
        }
    }

    /// Runs the next line, which stands without its newline, under the keys of the images. What it
    /// writes stands in `out`.
    pub fn run_line(
        &mut self,
        alloc: Global,
        keys: &Keys,
        text: &[u8],
        out: &mut Output,
    ) -> Result<(), NoMemory>
        requires { RunIsKept self.old.run }
        ensures { OnOk result (Leaves (model.after_line whole keys.now 64 (session_of self.old)
            text.now []) self.new out.new) }
    {
        out.clear();
        if self.refused {
            return Ok(());
        }
        self.lines = one_more(self.lines)?;
        if text.len() > LINE_BYTES {
            return self.refuse(3, out);
        }
        let mut bytes = ArrayVec::new();
        let mut entry = Entry::Blank;
        match parse_line(no_words(), text, self.run.is_some(), &mut bytes, &mut entry) {
            Err(fault) => self.refuse(fault_code(fault), out),
            Ok(()) => self.run_entry(alloc, keys, &entry, &bytes, out),
        }
    }

    /// Refuses the line: its S code is this.
    fn refuse(&mut self, code: u8, out: &mut Output) -> Result<(), NoMemory>
        requires { out.old ≡ [] }
        ensures state { OnOk result (self.new ≡ record self.old { refused = true }) }
        ensures text { OnOk result (out.new
            ≡ line (codes "script" ++ spaced self.old.lines ++ codes " S" ++ decimal code)) }
    {
        self.refused = true;
        out.add_fault(self.lines, code)
    }

    /// Runs an entry of the line that was counted.
    fn run_entry(
        &mut self,
        alloc: Global,
        keys: &Keys,
        entry: &Entry,
        bytes: &[u8],
        out: &mut Output,
    ) -> Result<(), NoMemory>
        requires first { entry_seen entry.now bytes.now ≡ Boot → is_some self.old.run ≡ false }
        requires kept { RunIsKept self.old.run }
        requires empty { out.old ≡ [] }
        ensures { OnOk result (Leaves (model.after_entry whole keys.now 64 (session_of self.old)
            (entry_seen entry.now bytes.now) []) self.new out.new) }
    {
        match entry {
            Entry::Blank => Ok(()),
            Entry::Frames(n) => {
                self.setup.frames = *n;
                Ok(())
            }
            Entry::Patience(kind, ticks) => {
                put_one(&mut self.setup.patience, u32::from(*kind), *ticks)?;
                Ok(())
            }
            Entry::Grant(n) => {
                self.setup.grant = *n;
                Ok(())
            }
            Entry::Boot => self.boot(alloc, out),
            Entry::Happens(event) => self.happen(*event, bytes, out),
            Entry::Image(slot, bytes) => self.image(alloc, keys, *slot, bytes, out),
            Entry::Raw => self.raw(out),
        }
    }

    /// The kernel begins, over the sample disk.
    fn boot(&mut self, alloc: Global, out: &mut Output) -> Result<(), NoMemory>
        requires first { is_some self.old.run ≡ false }
        requires empty { out.old ≡ [] }
        ensures { OnOk result (Leaves (model.boots 64 15 (session_of self.old) []) self.new out.new) }
    {
        let patience = copy(alloc, &self.setup.patience)?;
        let world = World {
            frames: self.setup.frames,
            patience,
            grant: self.setup.grant,
        };
        rows_are();
        let begun = Run::boot(alloc, world)?;
        self.run = Some(begun);
        out.add_boot(self.setup.frames)
    }

    /// An event of the kernel.
    fn happen(&mut self, event: BareEvent, bytes: &[u8], out: &mut Output) -> Result<(), NoMemory>
        requires kept { RunIsKept self.old.run }
        requires empty { out.old ≡ [] }
        ensures { (keys : Keys) → OnOk result (Leaves (model.after_entry whole keys 64
            (session_of self.old) (Happens (event_with event bytes.now)) []) self.new out.new) }
    {
        let Some(run) = &mut self.run else {
            return Ok(());
        };
        let n = one_more(self.events)?;
        self.events = n;
        run.event(n, event, bytes)?;
        out.add_notes(&run.notes)
    }

    /// The line of an image, as an event.
    fn image(
        &mut self,
        alloc: Global,
        keys: &Keys,
        slot: u32,
        bytes: &ImageBytes,
        out: &mut Output,
    ) -> Result<(), NoMemory>
        requires kept { RunIsKept self.old.run }
        requires empty { out.old ≡ [] }
        ensures { OnOk result (Leaves (model.after_entry whole keys.now 64 (session_of self.old)
            (Loads slot bytes.now) []) self.new out.new) }
    {
        let Some(run) = &mut self.run else {
            return Ok(());
        };
        let n = one_more(self.events)?;
        self.events = n;
        add_image(alloc, keys, run, n, slot, bytes, out)
    }

    /// The rows that show the kernel's whole state, as an event.
    fn raw(&mut self, out: &mut Output) -> Result<(), NoMemory>
        requires kept { RunIsKept self.old.run }
        requires empty { out.old ≡ [] }
        ensures { (keys : Keys) → OnOk result (Leaves (model.after_entry whole keys 64
            (session_of self.old) Raw []) self.new out.new) }
    {
        let Some(run) = &self.run else {
            return Ok(());
        };
        let n = one_more(self.events)?;
        self.events = n;
        let rows = run.raw_rows()?;
        out.add_rows(n, &rows)
    }

    /// What is written behind the last line, where these bytes stand there: where a line was
    /// refused, nothing; the refusal of a line without its newline; or a line for each call that is
    /// left in flight.
    pub fn last(&self, rest: &[u8], out: &mut Output) -> Result<(), NoMemory>
        ensures { OnOk result (out.new ≡ last_bytes (session_of self.now) rest.now) }
    {
        out.clear();
        if self.refused {
            return Ok(());
        }
        if rest.is_empty() {
            return self.left(out);
        }
        out.add_fault(one_more(self.lines)?, 6)
    }

    /// The lines of the calls that are left in flight.
    fn left(&self, out: &mut Output) -> Result<(), NoMemory>
        requires { out.old ≡ [] }
        ensures { OnOk result (out.new ≡ left_lines (session_of self.now).kernel) }
    {
        match &self.run {
            None => Ok(()),
            Some(run) => add_left(run, out),
        }
    }
}
