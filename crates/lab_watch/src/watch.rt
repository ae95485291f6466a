//! The watcher: it goes through a script and tells what it sees.

ghost use Rattle.std.specs.Prelude.{◌≡◌, ◌<◌, IfOk, map};
ghost use Rattle.vino_top.specs.Bounds.{IsSessionWithin, IsStock};
ghost use Rattle.lab_levels.specs.Woven.{Weaves};

use crate::looks::images_of;
use crate::slow::Slow;
use crate::steps::watch_line;
use graft_loader::{Images, read_keys};
use graft_points::Policy;
use kernel_model::NoMemory;
use lab_levels::{
    LevelRow, Origin, Outside, OwnLines, Seats, View, append_level, count_of, segment_in,
    standing_of, weave,
};
use lab_lines::{LineSink, Piece, pieces_of};
use lab_lowering::{Item, Lowered};
use ram_space::Ram;
use std::alloc::{AllocError, Global};
use text_words::{Parts, append, append_number, append_with};
use vino_base::Disk;

/// The slots of images.
const SLOTS: usize = 32;

/// What was seen so far, and what is told of it.
#[derive(Drop)]
pub(crate) struct Watch<'a> {
    pub lowered: &'a Lowered,
    /// What was seen last.
    pub view: View,
    pub seats: Seats,
    /// What each slot's image was made of.
    origins: Vec<Option<Origin>>,
    /// The lines of what stands, as they were last told.
    standing: Vec<u8>,
    /// The memory outside the segments of grafts.
    pub outside: Outside,
    /// What is told so far.
    pub told: OwnLines,
}

fn no_origins(alloc: Global, slots: usize) -> Result<Vec<Option<Origin>>, AllocError> {
    vec![in alloc; None; slots]
}

impl<'a> Watch<'a> {
    /// Nothing was seen yet.
    fn new(alloc: Global, lowered: &'a Lowered) -> Result<Watch<'a>, NoMemory> {
        let Ok(origins) = no_origins(alloc, SLOTS) else {
            return Err(NoMemory);
        };
        Ok(Watch {
            lowered,
            view: View::new(alloc),
            seats: Seats::new(alloc)?,
            origins,
            standing: Vec::new(alloc),
            outside: Outside::new(alloc),
            told: OwnLines::new(alloc),
        })
    }

    /// What the image of a slot was made of.
    pub fn origin(&self, slot: u32) -> Option<Origin> {
        match self.origins.get(slot as usize) {
            Some(origin) => *origin,
            None => None,
        }
    }

    /// The image of a slot was made of this.
    fn keep_origin(&mut self, origin: Option<(u32, Origin)>) {
        if let Some((slot, origin)) = origin {
            if let Some(place) = self.origins.get_mut(slot as usize) {
                *place = Some(origin);
            }
        }
    }

    /// Tells the lines of what stands that weren't told last.
    pub fn tell_standing(&mut self, alloc: Global) -> Result<(), NoMemory> {
        let standing = standing_of(alloc, &self.view)?;
        tell_new(
            alloc,
            &mut self.told,
            self.standing.as_slice(),
            standing.as_slice(),
        )?;
        self.standing = standing;
        Ok(())
    }

    /// Tells a line of the file that says something in the script, with its number.
    fn tell_line(&mut self, alloc: Global, number: usize, item: &Item) -> Result<(), NoMemory> {
        let mut text = Vec::new(alloc);
        append_number(&mut text, count_of(number))?;
        append(&mut text, b"  ")?;
        match item {
            Item::Plain(line) => {
                let bytes = line.bytes();
                if bytes.is_empty() || bytes[0] == b'#' {
                    return Ok(());
                }
                append(&mut text, bytes)?;
            }
            Item::Sealed { slot, graft, raw } => {
                append_with(&mut text, b"image ", *slot)?;
                append(&mut text, b" ")?;
                if let Some(graft) = self.lowered.lab.grafts().get(*graft) {
                    append(&mut text, graft.name())?;
                }
                if *raw {
                    append(&mut text, b" raw")?;
                }
            }
        }
        self.told.add(text.as_slice())
    }

    /// Tells what changed in the innermost level of a process, whose segment stands in this memory.
    pub fn tell_changes(&mut self, alloc: Global, p: u8, memory: &Ram) -> Result<(), NoMemory> {
        match self.view.innermost(p) {
            None => Ok(()),
            Some(level) => self.tell_level(alloc, &level, segment_in(memory, &level)),
        }
    }

    /// Tells the registers and bytes of an innermost level that changed.
    fn tell_level(
        &mut self,
        alloc: Global,
        level: &LevelRow,
        segment: &[u8],
    ) -> Result<(), NoMemory> {
        let mut text = Vec::new(alloc);
        append(&mut text, b"  ")?;
        append_level(&mut text, level.process, level.depth)?;
        append(&mut text, b":")?;
        let from = text.len();
        self.seats.append_registers(&mut text, level, &self.view)?;
        self.seats.append_bytes(&mut text, level, segment)?;
        if text.len() > from {
            self.told.add(text.as_slice())?;
        }
        Ok(())
    }

    /// Tells at the end, behind all that the kernel wrote, whether memory outside the segments of
    /// grafts was changed by them.
    fn tell_outside(&mut self, alloc: Global) -> Result<(), NoMemory> {
        let mut text = Vec::new(alloc);
        self.outside.append_told(&mut text)?;
        self.told.pass(usize::MAX);
        if text.is_empty() {
            return Ok(());
        }
        self.told.add(text.as_slice())
    }
}

/// Whether a text has a line.
fn has_line(text: &[u8], line: &[u8]) -> bool {
    let mut lines = Parts::new(text, b'\n');
    while let Some(other) = lines.next() {
        if other == line {
            return true;
        }
    }
    false
}

/// Tells the lines of a text that another doesn't have.
fn tell_new(alloc: Global, told: &mut OwnLines, before: &[u8], now: &[u8]) -> Result<(), NoMemory> {
    let mut lines = Parts::new(now, b'\n');
    while let Some(line) = lines.next() {
        if !line.is_empty() && !has_line(before, line) {
            let mut text = Vec::new(alloc);
            append(&mut text, b"  ")?;
            append(&mut text, line)?;
            told.add(text.as_slice())?;
        }
    }
    Ok(())
}

/// How many bytes the pieces of a line have, and how many pieces that are.
fn written_by(pieces: &[Piece], first: usize, owner: usize) -> (usize, usize) {
    let mut bytes: usize = 0;
    let mut next = first;
    while next < pieces.len() && pieces[next].owner == owner {
        bytes = bytes.saturating_add(pieces[next].bytes.len());
        next += 1;
    }
    (bytes, next)
}

/// The slot that a line of the file loads an image into, if that is free, and what the image is made
/// of.
fn origin_of(images: &Images, item: &Item) -> Option<(u32, Origin)> {
    match item {
        Item::Plain(_) => None,
        Item::Sealed { slot, graft, raw } => {
            if images.get(*slot).is_some() {
                return None;
            }
            let origin = Origin {
                graft: *graft,
                raw: *raw,
            };
            Some((*slot, origin))
        }
    }
}

/// Runs the script of a lab file, of which the kernel wrote these pieces, and tells of it.
fn watch_lines<B: Policy, D: Disk + Drop>(
    alloc: Global,
    watch: &mut Watch,
    slow: &mut Slow<B, D>,
    pieces: &[Piece],
) -> Result<(), NoMemory>
    requires within { IsSessionWithin (D.seen slow.old.disk).size slow.old.session }
{
    let lowered = watch.lowered;
    let mut lines = Parts::new(lowered.script.as_slice(), b'\n');
    let mut first = 0;
    for (i, item) in lowered.lab.sheet().items().iter().enumerate() {
        let Some(line) = lines.next() else {
            return Ok(());
        };
        if slow.session.refused {
            return Ok(());
        }
        let number = i.saturating_add(1);
        watch.tell_line(alloc, number, item)?;
        let origin = origin_of(images_of(slow), item);
        let (written, next) = written_by(pieces, first, number);
        watch_line(alloc, watch, slow, line, written)?;
        watch.keep_origin(origin);
        first = next;
    }
    Ok(())
}

/// What is told of a run, beside what the kernel wrote.
fn watch_all<B: Policy, D: Disk + Drop>(
    alloc: Global,
    lowered: &Lowered,
    written: &LineSink,
    disk: D,
    shelf: Vec<B>,
) -> Result<OwnLines, NoMemory>
    requires { IsStock (map B.seen shelf.items) }
{
    let mut watch = Watch::new(alloc, lowered)?;
    let Some(keys) = read_keys(lowered.lab.settings().word()) else {
        return Ok(watch.told);
    };
    let pieces = pieces_of(alloc, lowered.script.as_slice(), written)?;
    let mut slow = Slow::new(alloc, keys, disk, shelf)?;
    watch_lines(alloc, &mut watch, &mut slow, pieces.as_slice())?;
    watch.tell_outside(alloc)?;
    Ok(watch.told)
}

/// What the run of a lab file wrote, and between its lines where each graft stood before each of
/// its instructions. That is seen in a session of its own over this disk and these policies, which
/// are to be as those of the run were at its beginning.
pub fn tell_watched<B: Policy, D: Disk + Drop>(
    alloc: Global,
    lowered: &Lowered,
    written: &LineSink,
    disk: D,
    shelf: Vec<B>,
) -> Result<Vec<u8>, NoMemory>
    // The shelf has the seven stock policies, with their parameters at boot.
    requires { IsStock (map B.seen shelf.items) }
    // All that was written, unchanged and in its order, and behind whole lines of it lines that begin
    // with a bar.
    ensures { IfOk result (λ text. Weaves text.items written.now.got) }
{
    let told = watch_all(alloc, lowered, written, disk, shelf)?;
    weave(alloc, written.bytes(), &told)
}
