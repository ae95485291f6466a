//! At which instruction each level stands. The kernel doesn't tell it: a level begins at the first
//! one, and takes at most one between two looks, so each place follows from the one before.

ghost use Rattle.std.specs.Prelude.{◌<◌, ◌-◌, ◌^◌};

use crate::calls::slot_of;
use gm_isa::{Instr, Op};
use graft_levels::GraftLevel;
use graft_loader::Images;
use graft_points::Policy;
use kernel_data::NoMemory;
use running_kernel::Running;
use std::alloc::{AllocError, Global};
use vino_top::AllCalls;

/// The levels of all processes.
const LEVELS: usize = 64;

/// The registers of all levels.
const REGISTERS: usize = 1024;

/// A level as it was last seen.
#[derive(Clone, Copy)]
struct Seat {
    /// Whether there is a level.
    live: bool,
    /// How many instructions it had taken.
    count: u32,
    /// The number of its next instruction, if that is known.
    next: Option<u32>,
}

/// No level.
const NOBODY: Seat = Seat {
    live: false,
    count: 0,
    next: None,
};

/// Where each level stands, and its registers, 16 behind 16: level d of process p has number
/// 4 p + d.
#[derive(Drop)]
pub struct Places {
    seats: Vec<Seat>,
    registers: Vec<u32>,
}

fn places_of(alloc: Global, levels: usize, registers: usize) -> Result<Places, AllocError> {
    Ok(Places {
        seats: vec![in alloc; NOBODY; levels]?,
        registers: vec![in alloc; 0u32; registers]?,
    })
}

/// The place behind an instruction that doesn't end the run, where its first register had this
/// value.
fn place_behind(instr: &Instr, place: u32, value: u32) -> u32
    requires { place < 2 ^ 32 - 1 }
{
    match instr.op {
        Op::Jmp => instr.imm,
        Op::Jz => { if value == 0 { instr.imm } else { place + 1 } }
        Op::Jnz => { if value == 0 { place + 1 } else { instr.imm } }
        _ => place + 1,
    }
}

/// The instruction at a place of the image of a slot.
pub fn instr_at(images: &Images, slot: Option<u32>, place: Option<u32>) -> Option<Instr> {
    let image = images.get(slot?)?;
    match image.code().code().get(place? as usize) {
        Some(instr) => Some(*instr),
        None => None,
    }
}

impl Places {
    /// No level was seen.
    pub fn new(alloc: Global) -> Result<Places, NoMemory> {
        match places_of(alloc, LEVELS, REGISTERS) {
            Ok(places) => Ok(places),
            Err(_) => Err(NoMemory),
        }
    }

    fn seat(&self, item: u32) -> Seat {
        match self.seats.get(item as usize) {
            Some(seat) => *seat,
            None => NOBODY,
        }
    }

    fn keep_seat(&mut self, item: u32, seat: Seat) {
        if let Some(place) = self.seats.get_mut(item as usize) {
            *place = seat;
        }
    }

    /// The number of the next instruction of a level, if that is known.
    pub fn next(&self, item: u32) -> Option<u32> {
        self.seat(item).next
    }

    /// A register of a level as it was last seen.
    fn register(&self, item: u32, i: u8) -> u32
        requires { item < 64 }
    {
        match self.registers.get(16 * item as usize + usize::from(i)) {
            Some(value) => *value,
            None => 0,
        }
    }

    /// Keeps the registers of a level.
    fn keep_registers(&mut self, item: u32, level: &GraftLevel)
        requires { item < 64 }
    {
        for i in 0..16 {
            if let Some(place) = self.registers.get_mut(16 * item as usize + usize::from(i)) {
                *place = level.machine.reg(i);
            }
        }
    }

    /// The place behind the instruction at which a level was last seen.
    fn behind(&self, item: u32, images: &Images, slot: Option<u32>) -> Option<u32>
        requires { item < 64 }
    {
        let place = self.next(item)?;
        let instr = instr_at(images, slot, Some(place))?;
        if place == u32::MAX {
            return None;
        }
        Some(place_behind(&instr, place, self.register(item, instr.a)))
    }

    /// Where a level stands that is there now.
    fn next_of(&self, item: u32, count: u32, images: &Images, slot: Option<u32>) -> Option<u32>
        requires { item < 64 }
    {
        let seat = self.seat(item);
        if count == 0 {
            Some(0)
        } else if seat.live && seat.count == count {
            seat.next
        } else if seat.live && seat.count == count - 1 {
            self.behind(item, images, slot)
        } else {
            None
        }
    }

    /// A level is there now.
    fn follow_level(&mut self, item: u32, level: &GraftLevel, images: &Images, slot: Option<u32>)
        requires { item < 64 }
    {
        let next = self.next_of(item, level.count, images, slot);
        let seat = Seat {
            live: true,
            count: level.count,
            next,
        };
        self.keep_seat(item, seat);
        self.keep_registers(item, level);
    }

    /// Follows the levels of a process.
    fn follow_process<B: Policy>(&mut self, running: &Running<AllCalls, B>, p: u8)
        requires { p < 16 }
    {
        for d in 0..4 {
            let item = 4 * u32::from(p) + d;
            match level_at(running, p, d) {
                None => self.keep_seat(item, NOBODY),
                Some(level) => {
                    let slot = slot_of(running, level);
                    self.follow_level(item, level, &running.images, slot);
                }
            }
        }
    }

    /// Follows all levels, of which each took at most one instruction since the last time.
    pub fn follow<B: Policy>(&mut self, running: &Running<AllCalls, B>) {
        for p in 0..16 {
            self.follow_process(running, p);
        }
    }
}

/// A level of a process's call.
pub fn level_at<'a, B: Policy>(
    running: &'a Running<AllCalls, B>,
    p: u8,
    d: u32,
) -> Option<&'a GraftLevel> {
    match running.calls.get(p as usize) {
        Some(flight) => flight.chain.levels.as_slice().get(d as usize),
        None => None,
    }
}
