//! The notes of an event.

ghost use Rattle.std.specs.Prelude.{◌≡◌, ◌≤◌, ◌<◌, ◌*◌, ◌+◌, ◌++◌, true, Some, [], ◌∷◌, length};
ghost use Rattle.std.specs.Prelude.{take, is_some, IfOk, IfSome};
ghost use Rattle.kernel_model.specs.Kernel.{gave_note};
ghost use Rattle.kernel_model.specs.Bare.{given_count, note_with, notes_with};
ghost use Rattle.kernel_steps.specs.Noting.{AreGiven, NotesFit};
ghost use Rattle.kernel_steps.specs.Refines.{Adds};

use call_pieces::Gift;
use fixed_room::Room;
use kernel_model::{BLOCK_BYTES, BareNote, NoMemory};
use std::alloc::Global;
use std::marker::Model;

/// The most notes of one event of a sound kernel (`graft_laws::notes`).
const NOTES: usize = 530;

/// The most bytes that these notes give.
const NOTE_BYTES: usize = NOTES * BLOCK_BYTES;

/// The notes of an event, in order: small rows, and the bytes that were given, one behind the
/// other. Contracts see the list of the notes with their bytes. Memory is taken once, and stays
/// what it was.
///
/// Only the first bytes, so many as the size, are those of the notes: bytes of an event before stay
/// behind them until others are given, so that to forget them is one store.
#[derive(Drop)]
pub struct Notes {
    list: Room<BareNote>,
    bytes: Room<u8>,
    size: usize,
}

impl Model for Notes {
    ghost use Rattle.std.specs.Prelude.{List, take, length, ◌≤◌};
    ghost use Rattle.kernel_model.specs.declared.Note.{Note};
    ghost use Rattle.kernel_model.specs.Bare.{notes_with};
    ghost use Rattle.kernel_steps.specs.Noting.{NotesFit};

    ghost Value = { List Note };

    ghost view = { λ n. notes_with n.list.items (take n.size n.bytes.items) };

    ghost invariant = { λ n.
        NotesFit n.list.items (take n.size n.bytes.items) n.list.room n.bytes.room
        × n.size ≤ length n.bytes.items };
}

/// The same note, without bytes.
fn without_bytes(note: BareNote) -> BareNote
    ensures count { given_count result ≡ 0 }
    ensures same { note_with result [] ≡ note_with note [] }
{
    match note {
        BareNote::Gave(number, _) => BareNote::Gave(number, 0),
        _ => note,
    }
}

/// Puts the bytes that a piece gave behind the first so many.
fn put_behind(bytes: &mut Room<u8>, size: usize, gave: &Gift)
    requires given { is_some gave.now ≡ true }
    requires within { size ≤ length bytes.old.items }
    requires fits { size + 512 ≤ 271360 }
    requires room { bytes.old.room ≡ 271360 }
    ensures bytes { IfSome gave.now (λ b. take (size + length b) bytes.new.items
        ≡ take size bytes.old.items ++ b) }
    ensures size { size + 512 ≤ length bytes.new.items }
    ensures room { bytes.new.room ≡ bytes.old.room }
{
    bytes.reach(size + BLOCK_BYTES, 0);
    gave.copy_to(bytes, size);
}

impl Notes {
    /// No notes, with room for those of one event.
    pub fn new(alloc: Global) -> Result<Notes, NoMemory>
        ensures { IfOk result (λ n. n ≡ []) }
    {
        let Ok(list) = Room::with_capacity(alloc, NOTES) else {
            return Err(NoMemory);
        };
        match Room::with_capacity(alloc, NOTE_BYTES) {
            Ok(bytes) => Ok(Notes {
                list,
                bytes,
                size: 0,
            }),
            Err(_) => Err(NoMemory),
        }
    }

    /// Forgets all notes.
    pub fn clear(&mut self)
        ensures { self.new ≡ [] }
    {
        self.list.clear();
        self.size = 0;
    }

    /// The notes without their bytes, in order, and the bytes that they gave, one behind the other.
    pub fn parts(&self) -> (&[BareNote], &[u8])
        ensures value { self.now ≡ notes_with result.0.now result.1.now }
        ensures few { length result.0.now ≤ 530 }
        ensures few_notes { length self.now ≤ 530 }
        ensures given { AreGiven result.0.now result.1.now }
    {
        (self.list.as_slice(), &self.bytes[..self.size])
    }

    /// One more note, without bytes. No event of a sound kernel has more than 530; of more
    /// the first are kept.
    pub fn push(&mut self, note: BareNote)
        ensures { Adds (note_with note [] ∷ []) self.old self.new }
    {
        if self.list.len() < NOTES {
            self.list.push(without_bytes(note));
        }
    }

    /// The note of bytes that a piece gave, if it gave some. It is always inlined, since mostly it
    /// gave none.
    #[inline(always)]
    pub fn push_bytes(&mut self, number: u32, gave: &Gift)
        ensures { Adds (gave_note number gave.now) self.old self.new }
    {
        let Some(bytes) = gave.bytes() else {
            return;
        };
        if self.list.len() < NOTES {
            let count = bytes.len();
            self.list.push(BareNote::Gave(number, count as u16));
            put_behind(&mut self.bytes, self.size, gave);
            self.size += count;
        }
    }
}
