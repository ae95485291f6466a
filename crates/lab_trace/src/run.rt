//! The run of a lab file, told moment by moment.

ghost use Rattle.std.specs.Prelude.{◌≡◌, ◌<◌, map, true};
ghost use Rattle.graft_code.specs.Instructions.{fits};
ghost use Rattle.vino_top.specs.Bounds.{IsSessionWithin, IsStock};

use crate::calls::slot_of;
use crate::grafts::{GraftCode, codes_of};
use crate::head::{count_of, head_of};
use crate::looks::state_of;
use crate::moments::{Ending, Kind, Moment, Taken, end_of, moment_of};
use crate::origins::{Known, Origin};
use crate::places::{Places, instr_at, level_at};
use crate::wrote::{has_drop, split_lines};
use gm_asm::disassemble;
use gm_isa::{Instr, fits};
use graft_loader::read_keys;
use graft_points::Policy;
use kernel_data::NoMemory;
use lab_lines::{LineSink, Piece, pieces_of};
use lab_lowering::{Item, Lowered, RawImage};
use lab_session::{OwnSession, StepLine, has_run, notes_before_ran, single_step, steps_of};
use lab_state::State;
use std::alloc::Global;
use text_words::{Parts, append};
use vino_base::{Disk, Sink, write_all};

/// Why a trace isn't whole.
#[derive(Clone, Copy, PartialEq, Eq)]
pub enum Stop {
    /// A write failed.
    SinkFailed,
    /// There was no memory.
    NoMemory,
}

impl From<NoMemory> for Stop {
    fn from(_: NoMemory) -> Stop {
        Stop::NoMemory
    }
}

/// What is traced: a lab file with its name and its bytes, what its run wrote and the status of the
/// run, and which moments are chosen.
#[derive(Clone, Copy)]
pub struct Given<'a> {
    pub lowered: &'a Lowered,
    pub name: &'a [u8],
    pub text: &'a [u8],
    pub written: &'a LineSink,
    pub status: u8,
    /// The first moment, from 1.
    pub from: u32,
    /// The last moment.
    pub to: u32,
}

/// A trace that is being written.
#[derive(Drop)]
struct Tracer<'a> {
    given: Given<'a>,
    codes: Vec<GraftCode>,
    known: Known<'a>,
    places: Places,
    /// The state that is told.
    told: State,
    /// How many moments there were.
    count: u32,
    /// Whether a moment was written.
    begun: bool,
}

/// The first line of a text.
fn first_line(alloc: Global, text: &[u8]) -> Result<Vec<u8>, NoMemory> {
    let mut line = Vec::new(alloc);
    append(
        &mut line,
        Parts::new(text, b'\n').next().unwrap_or(b"".as_slice()),
    )?;
    Ok(line)
}

/// The text of an instruction whose fields fit.
fn fitting_text(alloc: Global, instr: Instr) -> Result<Vec<u8>, NoMemory>
    requires { fits instr ≡ true }
{
    let Ok(code) = Vec::from_slice(alloc, &[instr]) else {
        return Err(NoMemory);
    };
    let text = disassemble(alloc, &RawImage::new(code, Vec::new(alloc)))?;
    first_line(alloc, text.as_slice())
}

/// The text of an instruction.
fn text_of(alloc: Global, instr: Instr) -> Result<Vec<u8>, NoMemory> {
    if fits(&instr) {
        fitting_text(alloc, instr)
    } else {
        Ok(Vec::new(alloc))
    }
}

impl<'a> Tracer<'a> {
    /// Nothing was run yet.
    fn new(alloc: Global, given: Given<'a>) -> Result<Tracer<'a>, NoMemory> {
        Ok(Tracer {
            given,
            codes: codes_of(alloc, given.lowered)?,
            known: Known::new(alloc, given.lowered)?,
            places: Places::new(alloc)?,
            told: State::new(alloc),
            count: 0,
            begun: false,
        })
    }

    /// The line of the file that wrote the instruction at a place of the image of a slot.
    fn line_of(&self, slot: Option<u32>, place: Option<u32>) -> Option<u32> {
        let origin = self.known.origin(slot?)?;
        let code = self.codes.as_slice().get(origin.graft)?;
        Some(count_of(code.line_at(place?, origin.raw)?))
    }

    /// The instruction that the call of a process takes up next, if it is in a graft.
    fn next_taken<B: Policy, D: Disk + Drop>(
        &self,
        alloc: Global,
        slow: &OwnSession<B, D>,
        p: u8,
    ) -> Result<Option<Taken>, NoMemory>
        requires { p < 16 }
    {
        let running = &slow.session.kernel.running;
        let count = running.level_count(p);
        if count == 0 {
            return Ok(None);
        }
        let depth = count - 1;
        let Some(level) = level_at(running, p, u32::from(depth)) else {
            return Ok(None);
        };
        let slot = slot_of(running, level);
        let place = self.places.next(4 * u32::from(p) + u32::from(depth));
        let text = match instr_at(&running.images, slot, place) {
            Some(instr) => text_of(alloc, instr)?,
            None => Vec::new(alloc),
        };
        Ok(Some(Taken {
            process: p,
            depth,
            number: level.count.saturating_add(1),
            slot,
            place,
            line: self.line_of(slot, place),
            text,
        }))
    }

    /// Whether the moment that comes next is chosen.
    fn is_chosen(&self) -> bool {
        let at = self.count.saturating_add(1);
        self.given.from <= at && at <= self.given.to
    }

    /// The instruction that the call of a process takes up next, where it will be told of.
    fn chosen_taken<B: Policy, D: Disk + Drop>(
        &self,
        alloc: Global,
        slow: &OwnSession<B, D>,
        p: u8,
    ) -> Result<Option<Taken>, NoMemory>
        requires { p < 16 }
    {
        if self.is_chosen() {
            self.next_taken(alloc, slow, p)
        } else {
            Ok(None)
        }
    }

    /// Tells a moment, if it is chosen.
    fn tell<B: Policy, D: Disk + Drop, K: Sink>(
        &mut self,
        alloc: Global,
        slow: &OwnSession<B, D>,
        moment: &Moment,
        out: &mut K,
    ) -> Result<(), Stop>
        requires within { IsSessionWithin (D.seen slow.now.disk).size slow.now.session }
    {
        let is_chosen = self.is_chosen();
        self.count = self.count.saturating_add(1);
        if !is_chosen {
            return Ok(());
        }
        let now = state_of(alloc, slow, &self.known, &self.places)?;
        let told = std::mem::replace(&mut self.told, State::new(alloc));
        let mut line = Vec::new(alloc);
        self.told = moment_of(alloc, &mut line, self.count, moment, told, now, !self.begun)?;
        self.begun = true;
        write_line(out, line.as_slice())
    }

    /// Something was run of a line of the file: follows the levels and the events.
    fn follow<B: Policy, D: Disk + Drop>(
        &mut self,
        slow: &OwnSession<B, D>,
        line: usize,
    ) -> Result<(), NoMemory> {
        self.known
            .follow_events(slow.session.events, count_of(line))?;
        self.places.follow(&slow.session.kernel.running);
        Ok(())
    }
}

/// Writes a line.
fn write_line<K: Sink>(out: &mut K, line: &[u8]) -> Result<(), Stop> {
    match write_all(out, line) {
        Ok(()) => Ok(()),
        Err(_) => Err(Stop::SinkFailed),
    }
}

/// Whether a step went on: it took up an instruction, or the call waits.
fn kind_of(wrote: &[u8], kind: Kind) -> Kind {
    if has_drop(wrote) { Kind::Drop } else { kind }
}

/// Runs a line of the script that isn't one of steps, and tells of it. It wrote these bytes.
fn trace_plain<B: Policy, D: Disk + Drop, K: Sink>(
    alloc: Global,
    tracer: &mut Tracer,
    slow: &mut OwnSession<B, D>,
    number: usize,
    line: &[u8],
    wrote: &[u8],
    out: &mut K,
) -> Result<(), Stop>
    requires within { IsSessionWithin (D.seen slow.old.disk).size slow.old.session }
    ensures { IsSessionWithin (D.seen slow.new.disk).size slow.new.session }
{
    let events = slow.session.events;
    slow.run_line(alloc, line)?;
    if slow.session.refused {
        return Ok(());
    }
    let is_event = slow.session.events > events;
    if is_event {
        tracer.known.begin_event();
    }
    tracer.follow(slow, number)?;
    let moment = Moment {
        kind: kind_of(wrote, Kind::Line),
        line: number,
        event: if is_event {
            Some(tracer.known.events)
        } else {
            None
        },
        taken: None,
        wrote,
    };
    tracer.tell(alloc, slow, &moment, out)
}

/// A line of steps that is being run: its number in the file, the process, the single step as a
/// line, and what of its lines isn't told yet.
#[derive(Clone, Copy)]
struct Stepping<'a> {
    number: usize,
    process: u8,
    line: &'a [u8],
    left: &'a [u8],
}

/// Takes a process on by one instruction, and tells of it: what is left to be told, or nothing
/// where the line has come to its end. `is_last` says that no other may follow, `is_first` that
/// none came before.
fn trace_step<'s, B: Policy, D: Disk + Drop, K: Sink>(
    alloc: Global,
    tracer: &mut Tracer,
    slow: &mut OwnSession<B, D>,
    stepping: Stepping<'s>,
    is_first: bool,
    is_last: bool,
    out: &mut K,
) -> Result<Option<&'s [u8]>, Stop>
    requires process { stepping.process < 16 }
    requires within { IsSessionWithin (D.seen slow.old.disk).size slow.old.session }
    ensures { IsSessionWithin (D.seen slow.new.disk).size slow.new.session }
{
    let p = stepping.process;
    let taken = tracer.chosen_taken(alloc, slow, p)?;
    slow.run_line(alloc, stepping.line)?;
    tracer.follow(slow, stepping.number)?;
    let went = has_run(slow.out.lines.as_slice());
    let waits = slow.session.kernel.running.waits(p);
    if !went && !is_first && !waits {
        // The call came to its end with the instruction before.
        return Ok(None);
    }
    let goes_on = went && !is_last && slow.session.kernel.running.in_graft(p);
    let notes = if goes_on {
        notes_before_ran(slow.out.lines.as_slice())
    } else {
        usize::MAX
    };
    let (wrote, left) = split_lines(stepping.left, notes);
    let kind = if went {
        Kind::Instruction
    } else if waits {
        Kind::Wait
    } else {
        Kind::Line
    };
    let moment = Moment {
        kind: kind_of(wrote, kind),
        line: stepping.number,
        event: Some(tracer.known.events),
        taken: if went { taken } else { None },
        wrote,
    };
    tracer.tell(alloc, slow, &moment, out)?;
    Ok(if goes_on { Some(left) } else { None })
}

/// Runs a line of steps, one by one, and tells of each. It wrote these bytes.
fn trace_steps<B: Policy, D: Disk + Drop, K: Sink>(
    alloc: Global,
    tracer: &mut Tracer,
    slow: &mut OwnSession<B, D>,
    number: usize,
    steps: StepLine,
    wrote: &[u8],
    out: &mut K,
) -> Result<(), Stop>
    requires process { steps.process < 16 }
    requires within { IsSessionWithin (D.seen slow.old.disk).size slow.old.session }
    ensures { IsSessionWithin (D.seen slow.new.disk).size slow.new.session }
{
    let line = single_step(alloc, steps.process)?;
    tracer.known.begin_event();
    let mut left = wrote;
    for i in 0..steps.count {
        let stepping = Stepping {
            number,
            process: steps.process,
            line: line.as_slice(),
            left,
        };
        let is_last = i + 1 == steps.count;
        match trace_step(alloc, tracer, slow, stepping, i == 0, is_last, out)? {
            Some(rest) => left = rest,
            None => return Ok(()),
        }
    }
    Ok(())
}

/// Runs a line of the script, and tells of it, if it says something. It wrote these bytes.
fn trace_line<B: Policy, D: Disk + Drop, K: Sink>(
    alloc: Global,
    tracer: &mut Tracer,
    slow: &mut OwnSession<B, D>,
    number: usize,
    line: &[u8],
    wrote: &[u8],
    out: &mut K,
) -> Result<(), Stop>
    requires within { IsSessionWithin (D.seen slow.old.disk).size slow.old.session }
    ensures { IsSessionWithin (D.seen slow.new.disk).size slow.new.session }
{
    if line.is_empty() || line[0] == b'#' {
        slow.run_line(alloc, line)?;
        return Ok(());
    }
    match steps_of(line) {
        Some(steps) if slow.session.booted => {
            trace_steps(alloc, tracer, slow, number, steps, wrote, out)
        }
        _ => trace_plain(alloc, tracer, slow, number, line, wrote, out),
    }
}

/// What a line of the script wrote, and the number of the next piece.
fn written_by<'p>(pieces: &[Piece<'p>], first: usize, owner: usize) -> (&'p [u8], usize) {
    if first < pieces.len() && pieces[first].owner == owner {
        return (pieces[first].bytes, first + 1);
    }
    (b"".as_slice(), first)
}

/// Keeps what an image was made of that a line of the file loads into a slot, if it is loaded.
fn keep_origin(tracer: &mut Tracer, item: &Item, was_free: bool) {
    if let Item::Sealed { slot, graft, raw } = item {
        if was_free {
            let origin = Origin {
                graft: *graft,
                raw: *raw,
            };
            tracer.known.keep_origin(*slot, origin);
        }
    }
}

/// Whether the slot of a line of the file that loads an image is free.
fn is_free<B: Policy, D: Disk + Drop>(slow: &OwnSession<B, D>, item: &Item) -> bool {
    match item {
        Item::Plain(_) => false,
        Item::Sealed { slot, .. } => slow.session.kernel.running.images.get(*slot).is_none(),
    }
}

/// Runs the script of a lab file, whose run wrote these pieces, and tells of it: the line that was
/// refused, if one was, and how many pieces were told.
fn trace_lines<B: Policy, D: Disk + Drop, K: Sink>(
    alloc: Global,
    tracer: &mut Tracer,
    slow: &mut OwnSession<B, D>,
    pieces: &[Piece],
    out: &mut K,
) -> Result<(Option<usize>, usize), Stop>
    requires within { IsSessionWithin (D.seen slow.old.disk).size slow.old.session }
    ensures { IsSessionWithin (D.seen slow.new.disk).size slow.new.session }
{
    let lowered = tracer.given.lowered;
    let mut lines = Parts::new(lowered.script.as_slice(), b'\n');
    let mut first = 0;
    for (i, item) in lowered.lab.sheet().items().iter().enumerate() {
        let Some(line) = lines.next() else {
            return Ok((None, first));
        };
        let number = i.saturating_add(1);
        let was_free = is_free(slow, item);
        keep_origin(tracer, item, was_free);
        let (wrote, next) = written_by(pieces, first, number);
        trace_line(alloc, tracer, slow, number, line, wrote, out)?;
        if slow.session.refused {
            return Ok((Some(number), first));
        }
        first = next;
    }
    Ok((None, first))
}

/// What was written from a piece on.
fn last_written(alloc: Global, pieces: &[Piece], first: usize) -> Result<Vec<u8>, NoMemory> {
    let mut wrote = Vec::new(alloc);
    for (i, piece) in pieces.iter().enumerate() {
        if i >= first {
            append(&mut wrote, piece.bytes)?;
        }
    }
    Ok(wrote)
}

/// Writes the end of a trace.
fn write_end<B: Policy, D: Disk + Drop, K: Sink>(
    alloc: Global,
    tracer: Tracer,
    slow: &OwnSession<B, D>,
    ending: Ending,
    out: &mut K,
) -> Result<(), Stop>
    requires within { IsSessionWithin (D.seen slow.now.disk).size slow.now.session }
{
    // What isn't chosen isn't told by the end either.
    let is_told = tracer.begun && tracer.count <= tracer.given.to;
    let now = if is_told {
        state_of(alloc, slow, &tracer.known, &tracer.places)?
    } else {
        State::new(alloc)
    };
    let told = if is_told {
        tracer.told
    } else {
        State::new(alloc)
    };
    let end = end_of(alloc, ending, told, now)?;
    write_line(out, end.as_slice())
}

/// The same where the run ended with a refused line or behind its last one; else no moment is told.
fn trace_chosen<B: Policy, D: Disk + Drop, K: Sink>(
    alloc: Global,
    tracer: &mut Tracer,
    slow: &mut OwnSession<B, D>,
    pieces: &[Piece],
    out: &mut K,
) -> Result<(Option<usize>, usize), Stop>
    requires within { IsSessionWithin (D.seen slow.old.disk).size slow.old.session }
    ensures { IsSessionWithin (D.seen slow.new.disk).size slow.new.session }
{
    if tracer.given.status == 0 || tracer.given.status == 2 {
        return trace_lines(alloc, tracer, slow, pieces, out);
    }
    Ok((None, 0))
}

/// Tells the moments of a run, and its end.
fn trace_moments<B: Policy, D: Disk + Drop, K: Sink>(
    alloc: Global,
    mut tracer: Tracer,
    mut slow: OwnSession<B, D>,
    out: &mut K,
) -> Result<(), Stop>
    requires within { IsSessionWithin (D.seen slow.disk).size slow.session }
{
    let given = tracer.given;
    let pieces = pieces_of(alloc, given.lowered.script.as_slice(), given.written)?;
    let (refused, first) = trace_chosen(alloc, &mut tracer, &mut slow, pieces.as_slice(), out)?;
    let wrote = last_written(alloc, pieces.as_slice(), first)?;
    let ending = Ending {
        refused,
        status: given.status,
        wrote: wrote.as_slice(),
    };
    write_end(alloc, tracer, &slow, ending, out)
}

/// Writes the trace of the run of a lab file. What is told is seen in a session of its own over this
/// disk and these policies, which are to be as those of the run were at its beginning.
pub fn trace_run<B: Policy, D: Disk + Drop, K: Sink>(
    alloc: Global,
    given: Given,
    disk: D,
    shelf: Vec<B>,
    out: &mut K,
) -> Result<(), Stop>
    // The shelf has the seven stock policies, with their parameters at boot.
    requires { IsStock (map B.seen shelf.items) }
{
    let tracer = Tracer::new(alloc, given)?;
    let head = head_of(
        alloc,
        given.lowered,
        tracer.codes.as_slice(),
        given.name,
        given.text,
    )?;
    write_line(out, head.as_slice())?;
    let Some(keys) = read_keys(given.lowered.lab.settings().word()) else {
        return Ok(());
    };
    let slow = OwnSession::new(alloc, keys, disk, shelf)?;
    trace_moments(alloc, tracer, slow, out)
}
