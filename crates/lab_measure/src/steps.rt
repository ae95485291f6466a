//! The instruction that a call takes up.

ghost use Rattle.std.specs.Prelude.{◌<◌};

use crate::tally::{Tally, with_more};
use gm_isa::{Instr, Op};
use graft_levels::GraftLevel;
use graft_points::Policy;
use kernel_data::RawRow;
use running_kernel::Running;
use text_words::{Parts, number_of, word_at};
use vino_top::AllCalls;

/// The register that boxed code keeps for masked addresses.
const MASKED: u8 = 14;

/// The point at which a process's graft chooses the frame that is evicted.
const VICTIM_POINT: u8 = 4;

/// What an instruction does, as far as it is told.
#[derive(Clone, Copy, PartialEq, Eq, Debug)]
pub enum Class {
    /// It masks an address for an access to memory.
    Mask,
    /// It calls an accessor of the kernel.
    Accessor,
    /// Anything else.
    Other,
}

/// The class of an instruction of boxed code.
fn class_of(instr: &Instr) -> Class {
    match instr.op {
        Op::Call | Op::Callr => Class::Accessor,
        Op::Andi | Op::Or if instr.a == MASKED => Class::Mask,
        _ => Class::Other,
    }
}

/// Where the call of a process stands that takes a step: the point of its innermost level, what its
/// next instruction does, and the outermost level, where that chooses a frame.
#[derive(Clone, Copy)]
pub struct Standing {
    pub point: u8,
    pub class: Class,
    pub chooses: Option<Chooser>,
}

/// An outermost level that chooses a frame: who installed its graft, and how many instructions it had
/// taken.
#[derive(Clone, Copy)]
pub struct Chooser {
    pub owner: u8,
    pub count: u32,
}

/// A level of the call of a process.
fn level_at<'a, B: Policy>(
    running: &'a Running<AllCalls, B>,
    p: u8,
    depth: u8,
) -> Option<&'a GraftLevel> {
    match running.calls.get(p as usize) {
        Some(flight) => flight.chain.levels.as_slice().get(depth as usize),
        None => None,
    }
}

/// What the next instruction of a level does.
fn next_class<B: Policy>(running: &Running<AllCalls, B>, level: &GraftLevel) -> Class {
    let Some(RawRow::Graft { slot, .. }) = running.store.shown_graft(level.owner, level.point)
    else {
        return Class::Other;
    };
    let Some(image) = running.images.get(u32::from(slot)) else {
        return Class::Other;
    };
    match image.code().code().get(level.machine.place()) {
        Some(instr) => class_of(instr),
        None => Class::Other,
    }
}

/// The outermost level of the call of a process, where that chooses a frame.
fn chooser_of<B: Policy>(running: &Running<AllCalls, B>, p: u8) -> Option<Chooser> {
    let level = level_at(running, p, 0)?;
    if level.point != VICTIM_POINT {
        return None;
    }
    Some(Chooser {
        owner: level.owner,
        count: level.count,
    })
}

/// Where the call of a process stands, if it is in a graft.
pub fn standing_of<B: Policy>(running: &Running<AllCalls, B>, p: u8) -> Option<Standing> {
    let count = running.level_count(p);
    if count == 0 {
        return None;
    }
    let level = level_at(running, p, count - 1)?;
    Some(Standing {
        point: level.point,
        class: next_class(running, level),
        chooses: chooser_of(running, p),
    })
}

/// Counts the instruction that was taken up there.
pub fn count_instruction(tally: &mut Tally, standing: &Standing) {
    if let Some(point) = tally.points.get_mut(standing.point as usize) {
        point.instructions = with_more(point.instructions, 1);
        match standing.class {
            Class::Mask => point.masks = with_more(point.masks, 1),
            Class::Accessor => point.accessors = with_more(point.accessors, 1),
            Class::Other => (),
        }
    }
}

/// Whether written lines say that the graft is dropped that chose.
fn is_dropped(written: &[u8], owner: u8) -> bool {
    let mut lines = Parts::new(written, b'\n');
    while let Some(line) = lines.next() {
        if word_at(line, 1) == b"drop".as_slice()
            && number_of(word_at(line, 2)) == Some(u32::from(owner))
            && number_of(word_at(line, 3)) == Some(u32::from(VICTIM_POINT))
        {
            return true;
        }
    }
    false
}

/// Whether a level that chose has answered since, and its answer was accepted: it is gone, or
/// another one has begun in its place, and it wasn't dropped.
pub fn has_chosen<B: Policy>(
    running: &Running<AllCalls, B>,
    p: u8,
    chooser: Chooser,
    written: &[u8],
) -> bool {
    if is_dropped(written, chooser.owner) {
        return false;
    }
    match level_at(running, p, 0) {
        None => true,
        Some(level) => level.count <= chooser.count,
    }
}
