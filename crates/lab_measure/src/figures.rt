//! The figures of a run, in their order (docs/MEASURE.md).

ghost use Rattle.std.specs.Prelude.{◌<◌};

use crate::tally::Tally;
use kernel_data::NoMemory;
use lab_counts::{
    CALLS, Column, End, Figure, Note, Value, count_calls, count_drops, count_of_call, sum_taken,
};
use std::alloc::Global;
use text_words::{append, append_with, put};

/// The points of a process.
const POINTS: usize = 16;

/// The causes of drops.
const CAUSES: u32 = 13;

/// The figures so far.
#[derive(Drop)]
struct Figures {
    alloc: Global,
    list: Vec<Figure>,
}

impl Figures {
    /// Adds a figure.
    fn add(&mut self, name: &[u8], value: Value) -> Result<(), NoMemory> {
        let mut text = Vec::new(self.alloc);
        append(&mut text, name)?;
        self.add_figure(text, value, false)
    }

    /// Adds a count.
    fn count(&mut self, name: &[u8], count: u64) -> Result<(), NoMemory> {
        self.add(name, Value::Count(count))
    }

    /// Adds a count of a call, or of something like it.
    fn detail(&mut self, what: &[u8], of: &[u8], count: u64) -> Result<(), NoMemory> {
        let mut text = Vec::new(self.alloc);
        append(&mut text, what)?;
        append(&mut text, of)?;
        self.add_figure(text, Value::Count(count), true)
    }

    /// Adds a count of the graft at a point.
    fn at_point(&mut self, point: usize, of: &[u8], count: u64) -> Result<(), NoMemory>
        requires { point < 16 }
    {
        let mut text = Vec::new(self.alloc);
        append_with(&mut text, b"point_", point as u32)?;
        append(&mut text, of)?;
        self.add_figure(text, Value::Count(count), true)
    }

    /// Adds a figure of this name.
    fn add_figure(&mut self, name: Vec<u8>, value: Value, detail: bool) -> Result<(), NoMemory> {
        put(
            &mut self.list,
            Figure {
                name,
                value,
                detail,
            },
        )
    }
}

/// Adds what came of calls, all together and by command.
fn add_calls(figures: &mut Figures, notes: &[Note]) -> Result<(), NoMemory> {
    figures.count(b"calls_ok", count_calls(notes, End::Ended) as u64)?;
    figures.count(b"calls_refused", count_calls(notes, End::Refused) as u64)?;
    figures.count(b"calls_left", count_calls(notes, End::Left) as u64)?;
    for (call, name) in CALLS.as_slice().iter().enumerate() {
        add_call(figures, notes, call, name.as_bytes())?;
    }
    Ok(())
}

/// Adds what came of the calls of a command.
fn add_call(
    figures: &mut Figures,
    notes: &[Note],
    call: usize,
    name: &[u8],
) -> Result<(), NoMemory> {
    let ended = count_of_call(notes, call, End::Ended);
    let refused = count_of_call(notes, call, End::Refused);
    let left = count_of_call(notes, call, End::Left);
    figures.detail(name, b"_ok", ended as u64)?;
    figures.detail(name, b"_refused", refused as u64)?;
    figures.detail(name, b"_left", left as u64)
}

/// Adds what came of blocks.
fn add_blocks(figures: &mut Figures, tally: &Tally) -> Result<(), NoMemory> {
    let known = tally.found.saturating_add(tally.fetched);
    figures.count(b"blocks_asked", known.saturating_add(tally.untold))?;
    figures.count(b"blocks_found", tally.found)?;
    figures.count(b"blocks_fetched", tally.fetched)?;
    figures.detail(b"blocks_untold", b"", tally.untold)?;
    figures.add(b"hit_percent", Value::Share(tally.found, known))?;
    figures.count(b"blocks_ahead", tally.ahead)?;
    figures.count(b"ahead_used", tally.used)?;
    figures.count(b"ahead_unused", tally.ahead.saturating_sub(tally.used))?;
    figures.count(b"disk_reads", tally.reads)?;
    figures.count(b"disk_writes", tally.writes)?;
    figures.detail(b"disk_failures", b"", tally.failures)?;
    figures.count(b"evictions", tally.evictions)?;
    figures.count(
        b"evictions_by_policies",
        tally.evictions.saturating_sub(tally.by_grafts),
    )?;
    figures.count(b"evictions_by_grafts", tally.by_grafts)
}

/// The instructions of grafts at all points that mask, and those that call an accessor.
fn shares_of(tally: &Tally) -> (u64, u64) {
    let mut masks: u64 = 0;
    let mut accessors: u64 = 0;
    for point in tally.points.as_slice() {
        masks = masks.saturating_add(point.masks);
        accessors = accessors.saturating_add(point.accessors);
    }
    (masks, accessors)
}

/// Adds the instructions of grafts, all together and by point.
fn add_instructions(figures: &mut Figures, notes: &[Note], tally: &Tally) -> Result<(), NoMemory> {
    let all = sum_taken(notes);
    let (masks, accessors) = shares_of(tally);
    figures.count(b"instructions", all)?;
    figures.count(b"masks", masks)?;
    figures.add(b"mask_percent", Value::Share(masks, all))?;
    figures.count(b"accessors", accessors)?;
    figures.add(b"accessor_percent", Value::Share(accessors, all))?;
    for point in 0..POINTS {
        let counted = tally.point(point);
        figures.at_point(point, b"_instructions", counted.instructions)?;
        figures.at_point(point, b"_masks", counted.masks)?;
        figures.at_point(point, b"_accessors", counted.accessors)?;
    }
    Ok(())
}

/// Adds what was spent, and the drops by their cause.
fn add_drops(figures: &mut Figures, notes: &[Note], tally: &Tally) -> Result<(), NoMemory> {
    let [steps, records, locks] = tally.spent;
    figures.count(b"steps", steps)?;
    figures.count(b"records", records)?;
    figures.count(b"locks", locks)?;
    let mut drops: u64 = 0;
    for cause in 1..CAUSES + 1 {
        drops = drops.saturating_add(count_drops(notes, cause) as u64);
    }
    figures.count(b"drops", drops)?;
    for cause in 1..CAUSES + 1 {
        let mut text = Vec::new(figures.alloc);
        append_with(&mut text, b"drops_c", cause)?;
        figures.add_figure(text, Value::Count(count_drops(notes, cause) as u64), true)?;
    }
    Ok(())
}

/// The figures of a run with so many events, of which this was written and counted.
pub fn column_of(
    alloc: Global,
    name: &[u8],
    events: usize,
    notes: &[Note],
    tally: &Tally,
) -> Result<Column, NoMemory> {
    let mut figures = Figures {
        alloc,
        list: Vec::new(alloc),
    };
    figures.count(b"events", events as u64)?;
    add_calls(&mut figures, notes)?;
    add_blocks(&mut figures, tally)?;
    figures.count(b"ticks", tally.ticks)?;
    figures.count(b"ticks_waited", tally.waited)?;
    add_instructions(&mut figures, notes, tally)?;
    add_drops(&mut figures, notes, tally)?;
    let mut file = Vec::new(alloc);
    append(&mut file, name)?;
    Ok(Column {
        file,
        figures: figures.list,
    })
}
