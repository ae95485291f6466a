//! What is known of each level of each process from one moment to the next.
//!
//! The kernel doesn't tell at which instruction a level stands. A level begins at the first one,
//! and takes at most one between two moments, so each place follows from the one before.

ghost use Rattle.std.specs.Prelude.{◌≡◌, ◌<◌, ◌+◌, ◌*◌, ◌^◌, ◌-◌};
ghost use Rattle.lab_levels.specs.Places as spec;
ghost use Rattle.lab_levels.specs.Seats as seats;

use crate::compare::are_same;
use crate::own_lines::count_of;
use crate::view::{LevelRow, PROCESSES, REGISTERS, View};
use gm_isa::{Instr, Op};
use script_model::NoMemory;
use std::alloc::{AllocError, Global};
use std::marker::Model;
use text_words::append_with;

/// The most levels of a call.
pub const LEVELS: u8 = 4;

/// The seats: one for each level of each process.
const SEATS: usize = 64;

/// The registers of all seats.
const SEAT_REGISTERS: usize = 1024;

/// The bytes of all seats' segments.
const SEAT_BYTES: usize = 262_144;

/// The most changed bytes that are told at once.
const MOST_BYTES: usize = 16;

/// A level as it was last seen.
#[derive(Clone, Copy)]
pub struct Seat {
    /// Whether there is a level.
    pub live: bool,
    /// How many instructions it had taken.
    pub count: u32,
    /// The number of its next instruction, if that is known.
    pub place: Option<u32>,
}

/// What was last seen of each level: the registers 16 behind 16, the segments one behind another.
#[derive(Drop)]
pub struct Seats {
    seats: Vec<Seat>,
    registers: Vec<u32>,
    bytes: Vec<u8>,
}

impl Model for Seats {
    ghost use Rattle.lab_levels.specs.Seats.{Known};

    ghost Value = { Known };

    ghost view = { λ s. record {
      seats = s.seats.items;
      registers = s.registers.items;
      bytes = s.bytes.items;
    } };
}

/// No level.
const NOBODY: Seat = Seat {
    live: false,
    count: 0,
    place: None,
};

/// No level in any of so many seats, with so many registers and bytes of all of them.
fn seats_of(
    alloc: Global,
    seats: usize,
    registers: usize,
    bytes: usize,
) -> Result<Seats, AllocError> {
    Ok(Seats {
        seats: vec![in alloc; NOBODY; seats]?,
        registers: vec![in alloc; 0u32; registers]?,
        bytes: vec![in alloc; 0u8; bytes]?,
    })
}

/// The number of the seat of a level.
fn seat_number(p: u8, depth: u8) -> usize
    ensures { result ≡ 4 * p + depth }
{
    4 * usize::from(p) + usize::from(depth)
}

/// The place behind an instruction that doesn't end the run, where its first register has this
/// value.
fn next_place(instr: &Instr, place: u32, value: u32) -> u32
    requires { place < 2 ^ 32 - 1 }
    ensures { result ≡ spec.next_place instr.now place value }
{
    match instr.op {
        Op::Jmp => instr.imm,
        Op::Jz => { if value == 0 { instr.imm } else { place + 1 } }
        Op::Jnz => { if value == 0 { place + 1 } else { instr.imm } }
        _ => place + 1,
    }
}

/// The seat of a level that is at this count now; `taken` is the instruction at which it was last
/// seen, with the value of its first register.
fn seat_after(seat: Seat, count: u32, taken: Option<(Instr, u32)>) -> Seat
    ensures { result ≡ spec.seat_after seat count taken }
{
    let place = if count == 0 {
        Some(0)
    } else if seat.live && seat.count == count {
        seat.place
    } else if seat.live && seat.count == count - 1 {
        place_after(seat.place, taken)
    } else {
        None
    };
    Seat {
        live: true,
        count,
        place,
    }
}

/// The place behind an instruction, with the value of its first register.
fn place_after(place: Option<u32>, taken: Option<(Instr, u32)>) -> Option<u32>
    ensures { result ≡ spec.place_behind place taken }
{
    match (place, taken) {
        (Some(place), Some((instr, value))) if place < u32::MAX => {
            Some(next_place(&instr, place, value))
        }
        _ => None,
    }
}

impl Seats {
    /// No level was seen.
    pub fn new(alloc: Global) -> Result<Seats, NoMemory> {
        match seats_of(alloc, SEATS, SEAT_REGISTERS, SEAT_BYTES) {
            Ok(seats) => Ok(seats),
            Err(_) => Err(NoMemory),
        }
    }

    /// What was last seen of a level.
    pub fn seat(&self, p: u8, depth: u8) -> Seat
        ensures { result ≡ seats.seat_of p depth self.now }
    {
        match self.seats.get(seat_number(p, depth)) {
            Some(seat) => *seat,
            None => NOBODY,
        }
    }

    fn put(&mut self, p: u8, depth: u8, seat: Seat)
        ensures { self.new ≡ seats.with_seat p depth seat self.old }
    {
        if let Some(place) = self.seats.get_mut(seat_number(p, depth)) {
            *place = seat;
        }
    }

    /// A register of a level as it was last seen.
    pub fn register(&self, p: u8, depth: u8, i: u8) -> u32
        ensures { result ≡ seats.register_of p depth i self.now }
    {
        match self
            .registers
            .get(16 * seat_number(p, depth) + usize::from(i))
        {
            Some(value) => *value,
            None => 0,
        }
    }

    /// A process's levels took instructions that nobody saw.
    pub fn forget(&mut self, p: u8) {
        for depth in 0..LEVELS {
            self.put(p, depth, NOBODY);
        }
    }

    /// A level is there now; `taken` is the instruction at which it was last seen, which it took if
    /// its count rose. Whether it is new.
    pub fn follow(&mut self, level: &LevelRow, taken: Option<Instr>) -> bool
        ensures seat { self.new ≡ seats.followed level.now taken self.old }
        ensures is_new { result ≡ seats.is_new level.now self.old }
    {
        let (p, depth) = (level.process, level.depth);
        let seat = self.seat(p, depth);
        let with_value = match taken {
            Some(instr) => Some((instr, self.register(p, depth, instr.a))),
            None => None,
        };
        self.put(p, depth, seat_after(seat, level.count, with_value));
        !seat.live || level.count < seat.count
    }

    /// There is no such level now.
    pub fn leave(&mut self, p: u8, depth: u8)
        ensures { self.new ≡ seats.with_seat p depth seats.nobody self.old }
    {
        self.put(p, depth, NOBODY);
    }

    /// A new level's registers were zeros, and its segment what it is.
    pub fn begin_level(&mut self, p: u8, depth: u8, segment: &[u8]) {
        for i in 0..REGISTERS {
            self.keep_register(p, depth, i, 0);
        }
        for (at, byte) in segment.iter().enumerate() {
            self.keep_byte(p, depth, at, *byte);
        }
    }

    fn keep_register(&mut self, p: u8, depth: u8, i: u8, value: u32)
        ensures { self.new ≡ seats.with_register p depth i value self.old }
    {
        let at = 16 * seat_number(p, depth) + usize::from(i);
        if let Some(place) = self.registers.get_mut(at) {
            *place = value;
        }
    }

    /// Keeps a byte of a segment: whether it is another than before.
    fn keep_byte(&mut self, p: u8, depth: u8, at: usize, byte: u8) -> bool {
        let number = (4096 * seat_number(p, depth)).saturating_add(at);
        match self.bytes.get_mut(number) {
            Some(place) => {
                let changed = *place != byte;
                *place = byte;
                changed
            }
            None => false,
        }
    }

    /// Appends the registers of an innermost level that changed, and keeps them.
    pub fn append_registers(
        &mut self,
        out: &mut Vec<u8>,
        level: &LevelRow,
        view: &View,
    ) -> Result<(), NoMemory> {
        for i in 0..REGISTERS {
            let value = view.register(level.process, i);
            if value != self.register(level.process, level.depth, i) {
                self.keep_register(level.process, level.depth, i, value);
                append_with(out, b"  r", u32::from(i))?;
                append_with(out, b" = ", value)?;
            }
        }
        Ok(())
    }

    /// Whether the kept bytes of a level are these.
    fn has_kept(&self, p: u8, depth: u8, segment: &[u8]) -> bool {
        let from = 4096 * seat_number(p, depth);
        let to = from.saturating_add(segment.len());
        to <= self.bytes.len() && are_same(&self.bytes[from..to], segment)
    }

    /// Appends the bytes of an innermost level's segment that changed, at most 16 of them, and
    /// keeps them.
    pub fn append_bytes(
        &mut self,
        out: &mut Vec<u8>,
        level: &LevelRow,
        segment: &[u8],
    ) -> Result<(), NoMemory> {
        if self.has_kept(level.process, level.depth, segment) {
            return Ok(());
        }
        let mut count: usize = 0;
        for (at, byte) in segment.iter().enumerate() {
            if self.keep_byte(level.process, level.depth, at, *byte) {
                count = count.saturating_add(1);
                if count <= MOST_BYTES {
                    append_with(out, b"  byte ", count_of(at))?;
                    append_with(out, b" = ", u32::from(*byte))?;
                }
            }
        }
        if count > MOST_BYTES {
            append_with(out, b"  and more bytes: ", count_of(count - MOST_BYTES))?;
        }
        Ok(())
    }
}
