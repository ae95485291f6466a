//! The lines that are written of an event.

ghost use Rattle.std.specs.Prelude.{◌≡◌, ◌+◌, ◌*◌, ◌<◌, ◌≤◌, ◌++◌, [], length, vec_capacity, IfOk};
ghost use Rattle.kernel_data.specs.Bare.{given_count, note_with, notes_with};
ghost use Rattle.script_model.specs.Text.{line, note_lines, note_text, row_lines};
ghost use Rattle.placed_laws.specs.PlacedRows.{placed_rows};
ghost use Rattle.kernel_steps.specs.Noting.{AreGiven};
ghost use Rattle.running_kernel.specs.Views.{placed_of, IsRunning};
ghost use Rattle.vino_top.specs.Held.{first_or_all};
ghost use Rattle.vino_top.specs.Standing.{placed_left_line, placed_left_lines};

use crate::rows::print_found;
use call_pieces::{Calls, Policy};
use kernel_core::{Kernel, Notes, RowPlace};
use kernel_data::{BareNote, NoMemory, PROCESSES};
use line_text::{Text, append_note, print_left, print_note};
use std::alloc::Global;
use std::marker::Model;

/// Room for a line of at most 2,048 bytes for each of the 1,478 rows that there are at most, and
/// one more.
const LINES_BYTES: usize = 3_028_992;

/// Behind so many bytes the line of a note finds room in the first text.
const FEW_BYTES: usize = 960;

/// The bytes that are written at once. Contracts see their list. Memory is taken once.
///
/// Most events write a few short lines, which stand where they were printed. They are copied to the
/// others only when more come.
#[derive(Drop)]
pub struct Lines {
    /// The first lines, while there are no others.
    first: Text,
    /// All lines, where there are more; else none.
    bytes: Vec<u8>,
}

impl Model for Lines {
    ghost use Rattle.std.specs.Prelude.{List, ℕ, ◌≤◌, length, vec_capacity};
    ghost use Rattle.vino_top.specs.Held.{first_or_all};

    ghost Value = { List ℕ };

    ghost view = { λ l. first_or_all l.first l.bytes.items };

    ghost invariant = { λ l. (length l.bytes.items ≤ 3028992) × (3028992 ≤ vec_capacity l.bytes) };
}

/// Puts a line behind the bytes of others. Where there are none, the first lines come before it.
fn put_behind(bytes: &mut Vec<u8>, first: &Text, text: &Text)
    requires room { length (first_or_all first.now bytes.old.items) + 2048 ≤ 3028992 }
    requires capacity { 3028992 ≤ vec_capacity bytes.old }
    ensures value { first_or_all first.now bytes.new.items
        ≡ first_or_all first.now bytes.old.items ++ text.now }
    ensures fits { length bytes.new.items ≤ 3028992 }
    ensures capacity { 3028992 ≤ vec_capacity bytes.new }
    ensures short { length text.now ≤ 2048 }
{
    if bytes.is_empty() {
        let _ = bytes.extend_from_slice(first.as_slice());
    }
    let _ = bytes.extend_from_slice(text.as_slice());
}

/// The line of a note, with the bytes that it gives, comes behind the first lines.
fn append_first(note: &BareNote, given: &[u8], first: &mut Text)
    requires room { length first.old ≤ 960 }
    requires block { length given.now ≤ 512 }
    ensures value { first.new ≡ first.old ++ line (note_text (note_with note.now given.now)) }
    ensures fits { length first.new ≤ length first.old + 2048 }
{
    append_note(note, given, first);
    let _ = first.as_slice();
}

/// How many bytes a note gives.
fn count_given(note: BareNote) -> usize
    ensures { result ≡ given_count note }
{
    match note {
        BareNote::Gave(_, count) => count as usize,
        _ => 0,
    }
}

impl Lines {
    /// No bytes, with room for those of one event.
    pub fn new(alloc: Global) -> Result<Lines, NoMemory>
        ensures { IfOk result (λ l. l ≡ []) }
    {
        match Vec::with_capacity(alloc, LINES_BYTES) {
            Ok(bytes) => Ok(Lines {
                first: Text::new(),
                bytes,
            }),
            Err(_) => Err(NoMemory),
        }
    }

    /// Forgets all bytes.
    pub fn clear(&mut self)
        ensures { self.new ≡ [] }
    {
        self.first.clear();
        self.bytes.clear();
    }

    /// The bytes, in order.
    pub fn as_slice(&self) -> &[u8]
        ensures value { result.now ≡ self.now }
        ensures few { length result.now ≤ 3028992 }
    {
        if self.bytes.is_empty() {
            return self.first.as_slice();
        }
        self.bytes.as_slice()
    }

    /// A line more.
    pub fn add(&mut self, text: &Text)
        requires { length self.old + 2048 ≤ 3028992 }
        ensures value { self.new ≡ self.old ++ text.now }
        ensures fits { length self.new ≤ length self.old + 2048 }
    {
        put_behind(&mut self.bytes, &self.first, text);
    }

    /// The line of a note, where there is none yet.
    fn add_first(&mut self, note: &BareNote, given: &[u8])
        requires none { self.old ≡ [] }
        requires block { length given.now ≤ 512 }
        ensures value { self.new ≡ line (note_text (note_with note.now given.now)) }
        ensures fits { length self.new ≤ 2048 }
    {
        append_first(note, given, &mut self.first);
    }

    /// The line of a note more. It comes behind the first lines, while they are few bytes.
    fn add_note(&mut self, note: &BareNote, given: &[u8], text: &mut Text)
        requires room { length self.old + 2048 ≤ 3028992 }
        requires block { length given.now ≤ 512 }
        ensures value { self.new ≡ self.old ++ line (note_text (note_with note.now given.now)) }
        ensures fits { length self.new ≤ length self.old + 2048 }
    {
        if self.bytes.is_empty() && self.first.as_slice().len() <= FEW_BYTES {
            append_first(note, given, &mut self.first);
            return;
        }
        print_note(note, given, text);
        self.add(text);
    }

    /// The lines of the notes of an event.
    pub fn add_notes(&mut self, notes: &Notes, text: &mut Text)
        requires { self.old ≡ [] }
        ensures { self.new ≡ note_lines notes.now }
    {
        let (list, bytes) = notes.parts();
        let Some((note, rest)) = list.split_first() else {
            return;
        };
        let (given, others) = bytes.split_at(count_given(*note));
        self.add_first(note, given);
        if rest.is_empty() {
            return;
        }
        self.add_each(rest, others, text);
    }

    /// The lines of these notes, which gave these bytes, one behind the other. It isn't inlined: most
    /// events have one note.
    #[inline(never)]
    fn add_each(&mut self, list: &[BareNote], bytes: &[u8], text: &mut Text)
        requires given { AreGiven list.now bytes.now }
        requires room { length self.old + 2048 * length list.now ≤ 3028992 }
        ensures { self.new ≡ self.old ++ note_lines (notes_with list.now bytes.now) }
    {
        let Some((note, rest)) = list.split_first() else {
            return;
        };
        let (given, others) = bytes.split_at(count_given(*note));
        self.add_note(note, given, text);
        self.add_each(rest, others, text);
    }

    /// The line of process p's call, if it has one in flight.
    fn add_left_of<C: Calls, B: Policy>(&mut self, kernel: &Kernel<C, B>, p: u8, text: &mut Text)
        requires room { length self.old + 2048 ≤ 3028992 }
        ensures value { self.new ≡ self.old
            ++ placed_left_line p ((placed_of kernel.now.running).call p) }
        ensures fits { length self.new ≤ length self.old + 2048 }
    {
        if let Some(number) = kernel.left(p) {
            print_left(p, number, text);
            self.add(text);
        }
    }

    /// The lines of the calls that a kernel has left in flight, one for each.
    pub fn add_left<C: Calls, B: Policy>(&mut self, kernel: &Kernel<C, B>, text: &mut Text)
        requires { self.old ≡ [] }
        ensures { self.new ≡ placed_left_lines (placed_of kernel.now.running) }
    {
        for p in 0..PROCESSES as u8 {
            self.add_left_of(kernel, p, text);
        }
    }

    /// The lines of the rows that show a kernel's whole state, for event n.
    pub fn add_rows<C: Calls, B: Policy>(&mut self, kernel: &Kernel<C, B>, n: u32, text: &mut Text)
        requires empty { self.old ≡ [] }
        requires running { IsRunning kernel.now.running }
        ensures { self.new ≡ row_lines n (placed_rows (placed_of kernel.now.running)) }
    {
        let mut at = RowPlace::first();
        while let Some(found) = kernel.find_row(&mut at) {
            print_found(kernel, n, &found, text);
            self.add(text);
        }
    }
}
