//! The lines that a line of a script writes.

ghost use Rattle.std.specs.Prelude.{◌≡◌, ◌≤◌, ◌++◌, ◌∷◌, [], length, codes, decimal, is_some, true};
ghost use Rattle.std.specs.Prelude.{OnOk};
ghost use Rattle.script_model.specs.Bare.{note_with};
ghost use Rattle.script_model.specs.Bytes.{spaced};
ghost use Rattle.script_model.specs.Text.{line, note_text, note_lines, row_text, row_lines};
ghost use Rattle.script_model.specs.Text.{boot_text, left_text};
ghost use Rattle.graft_loader.specs.Faults.{fault_text, refusal_of};
ghost use Rattle.audit_session.specs.Outputs.{given_in};

use graft_loader::{FaultCode, LoadFault};
use line_text::{
    Text, print_boot, print_fault, print_left, print_loaded, print_note, print_row, print_unloaded,
    print_unloaded_at,
};
use script_model::{BareNote, NoMemory, Note, RawRow, Refusal};
use std::alloc::Global;
use std::marker::Model;

/// The bytes that a line writes. Contracts see their list.
#[derive(Drop)]
pub struct Output {
    /// The line that was printed last.
    text: Text,
    bytes: Vec<u8>,
}

impl Model for Output {
    ghost use Rattle.std.specs.Prelude.{List, ℕ};

    ghost Value = { List ℕ };

    ghost view = { λ o. o.bytes.items };
}

/// A note without its bytes.
fn bare(note: &Note) -> BareNote
    ensures { note_with result (given_in note.now) ≡ note.now }
{
    match note {
        Note::Ticked(n, clock) => BareNote::Ticked(*n, *clock),
        Note::Ended(m, reply) => BareNote::Ended(*m, *reply),
        Note::Refused(m, refusal) => BareNote::Refused(*m, *refusal),
        Note::Gave(m, bytes) => BareNote::Gave(*m, bytes.as_slice().len() as u16),
        Note::Dropped {
            number,
            installer,
            point,
            cause,
        } => BareNote::Dropped {
            number: *number,
            installer: *installer,
            point: *point,
            cause: *cause,
        },
        Note::Ran(n, taken) => BareNote::Ran(*n, *taken),
        Note::Waits {
            number,
            object,
            holder,
        } => BareNote::Waits {
            number: *number,
            object: *object,
            holder: *holder,
        },
        Note::InGraft {
            number,
            installer,
            point,
            depth,
        } => BareNote::InGraft {
            number: *number,
            installer: *installer,
            point: *point,
            depth: *depth,
        },
    }
}

/// The bytes that a note gives, none where it gives none.
fn given(note: &Note) -> &[u8]
    ensures given { result.now ≡ given_in note.now }
    ensures block { length result.now ≤ 512 }
{
    match note {
        Note::Gave(_, bytes) => bytes.as_slice(),
        _ => &[],
    }
}

/// Bytes are put behind.
fn add(out: &mut Vec<u8>, bytes: &[u8]) -> Result<(), NoMemory>
    ensures { OnOk result (out.new.items ≡ out.old.items ++ bytes.now) }
{
    match out.extend_from_slice(bytes) {
        Ok(()) => Ok(()),
        Err(_) => Err(NoMemory),
    }
}

impl Output {
    /// No bytes.
    pub fn new(alloc: Global) -> Output
        ensures { result ≡ [] }
    {
        Output {
            text: Text::new(),
            bytes: Vec::new(alloc),
        }
    }

    /// Forgets all bytes.
    pub(crate) fn clear(&mut self)
        ensures { self.new ≡ [] }
    {
        self.bytes.clear();
    }

    /// The bytes, first to last.
    pub fn as_slice(&self) -> &[u8]
        ensures { result.now ≡ self.now }
    {
        self.bytes.as_slice()
    }

    /// The line of `boot`, of so many frames over the sample disk: 64 blocks, and three files that
    /// can be used.
    pub(crate) fn add_boot(&mut self, frames: u8) -> Result<(), NoMemory>
        ensures { OnOk result (self.new ≡ self.old ++ line (boot_text frames 64 3)) }
    {
        print_boot(frames, 64, 3, &mut self.text);
        add(&mut self.bytes, self.text.as_slice())
    }

    /// The line of a refused line: its number, from 1, and its S code.
    pub(crate) fn add_fault(&mut self, n: u32, code: u8) -> Result<(), NoMemory>
        ensures { OnOk result (self.new ≡ self.old
            ++ line (codes "script" ++ spaced n ++ codes " S" ++ decimal code)) }
    {
        print_fault(n, code, &mut self.text);
        add(&mut self.bytes, self.text.as_slice())
    }

    /// The line of a call that is left in flight: its process and its number.
    pub(crate) fn add_left(&mut self, p: u8, number: u32) -> Result<(), NoMemory>
        ensures { OnOk result (self.new ≡ self.old ++ line (left_text p number)) }
    {
        print_left(p, number, &mut self.text);
        add(&mut self.bytes, self.text.as_slice())
    }

    /// The line of a note.
    fn add_note(&mut self, note: &Note) -> Result<(), NoMemory>
        ensures { OnOk result (self.new ≡ self.old ++ line (note_text note.now)) }
    {
        print_note(&bare(note), given(note), &mut self.text);
        add(&mut self.bytes, self.text.as_slice())
    }

    /// The lines of notes, in order.
    pub(crate) fn add_notes(&mut self, notes: &[Note]) -> Result<(), NoMemory>
        ensures { OnOk result (self.new ≡ self.old ++ note_lines notes.now) }
    {
        for note in notes {
            self.add_note(note)?;
        }
        Ok(())
    }

    /// The line of a row, for event n.
    fn add_row(&mut self, n: u32, row: &RawRow) -> Result<(), NoMemory>
        ensures { OnOk result (self.new ≡ self.old
            ++ line (decimal n ++ codes " raw " ++ row_text row.now)) }
    {
        print_row(n, row, &mut self.text);
        add(&mut self.bytes, self.text.as_slice())
    }

    /// The lines of rows, for event n.
    pub(crate) fn add_rows(&mut self, n: u32, rows: &[RawRow]) -> Result<(), NoMemory>
        ensures { OnOk result (self.new ≡ self.old ++ row_lines n rows.now) }
    {
        for row in rows {
            self.add_row(n, row)?;
        }
        Ok(())
    }

    /// The line of event n for an image that is loaded: how many instructions and data bytes it
    /// has.
    pub(crate) fn add_loaded(&mut self, n: u32, code: u32, bytes: u32) -> Result<(), NoMemory>
        ensures { OnOk result (self.new ≡ self.old
            ++ line (decimal n ++ 32 ∷ (codes "ok" ++ spaced code ++ spaced bytes))) }
    {
        print_loaded(n, code, bytes, &mut self.text);
        add(&mut self.bytes, self.text.as_slice())
    }

    /// The line of event n for an image whose slot isn't there: `E8`.
    pub(crate) fn add_bad_slot(&mut self, n: u32) -> Result<(), NoMemory>
        ensures { OnOk result (self.new ≡ self.old ++ line (decimal n ++ 32 ∷ codes "E8")) }
    {
        print_note(
            &BareNote::Refused(n, Refusal::BadIndex),
            &[],
            &mut self.text,
        );
        add(&mut self.bytes, self.text.as_slice())
    }

    /// The line of event n for an image whose slot isn't free: `E10`.
    pub(crate) fn add_taken(&mut self, n: u32) -> Result<(), NoMemory>
        ensures { OnOk result (self.new ≡ self.old ++ line (decimal n ++ 32 ∷ codes "E10")) }
    {
        print_note(&BareNote::Refused(n, Refusal::Taken), &[], &mut self.text);
        add(&mut self.bytes, self.text.as_slice())
    }

    /// The line of event n for bytes that are refused: the code of the fault, and its place. Want of
    /// memory is none, and has no line.
    pub(crate) fn add_unloaded(&mut self, n: u32, fault: LoadFault) -> Result<(), NoMemory>
        ensures line { OnOk result (self.new ≡ self.old
            ++ line (decimal n ++ 32 ∷ fault_text fault)) }
        ensures some { OnOk result (is_some (refusal_of fault) ≡ true) }
    {
        match fault.code() {
            None => return Err(NoMemory),
            Some(FaultCode { text, place: None }) => print_unloaded(n, text, &mut self.text),
            Some(
                FaultCode {
                    text,
                    place: Some(pc),
                },
            ) => print_unloaded_at(n, text, pc, &mut self.text),
        }
        add(&mut self.bytes, self.text.as_slice())
    }
}
