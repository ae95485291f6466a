//! What stands below a strip: what its grafts are, which were dropped and why, and what was put back.

use crate::layout::{RECORDS, Strip, count_records};
use crate::records::append_record;
use kernel_data::NoMemory;
use lab_story::{Bar, DroppedGraft, Kind, Story, text_of_number};
use lab_words::sentence_of;
use std::alloc::Global;
use text_words::{append, append_number, append_with, number_of, put, word_at};

/// The first point of a port.
const FIRST_PORT_POINT: u32 = 6;

/// A line below a strip.
#[derive(Drop)]
pub struct Told {
    /// Whether it tells of a drop.
    pub is_drop: bool,
    /// Its text.
    pub text: Vec<u8>,
}

/// Appends what a graft at a point is asked.
fn append_asked(out: &mut Vec<u8>, point: u32) -> Result<(), NoMemory> {
    match point {
        0..=3 => append_with(out, b"what to read ahead of descriptor ", point),
        4 => append(out, b"which frame to evict"),
        5 => append(out, b"who runs next"),
        14 => append(out, b"to change what is read"),
        15 => append(out, b"to change what is written"),
        _ => {
            append(out, b"to handle events of port ")?;
            append_number(out, point.saturating_sub(FIRST_PORT_POINT))
        }
    }
}

/// Appends a graft in few words, as `process 0, point 5`.
pub fn append_short_graft(out: &mut Vec<u8>, graft: &[u8]) -> Result<(), NoMemory> {
    append(out, b"process ")?;
    append(out, word_at(graft, 0))?;
    append(out, b", point ")?;
    append(out, word_at(graft, 1))
}

/// What a graft is, as `0 5: the graft of process 0 at point 5, asked who runs next`.
fn graft_told(alloc: Global, graft: &[u8]) -> Result<Told, NoMemory> {
    let mut text = Vec::new(alloc);
    append(&mut text, graft)?;
    append(&mut text, b": the graft of process ")?;
    append(&mut text, word_at(graft, 0))?;
    append(&mut text, b" at point ")?;
    append(&mut text, word_at(graft, 1))?;
    append(&mut text, b", which is asked ")?;
    append_asked(&mut text, number_of(word_at(graft, 1)).unwrap_or(0))?;
    Ok(Told {
        is_drop: false,
        text,
    })
}

/// Whether a bar is that of a level with a name.
fn is_named(bar: &Bar, texts: &[&[u8]]) -> bool {
    matches!(bar.kind, Kind::Level(_)) && !text_of_number(texts, bar.text).is_empty()
}

/// Whether a text is among others.
fn is_among(text: &[u8], others: &[&[u8]]) -> bool {
    others.iter().any(|other| *other == text)
}

/// Tells each graft of a strip once.
fn tell_grafts(
    alloc: Global,
    out: &mut Vec<Told>,
    strip: &Strip,
    story: &Story,
) -> Result<(), NoMemory> {
    let mut told: Vec<&[u8]> = Vec::new(alloc);
    for bar in &story.bars {
        if strip.shows(bar) && is_named(bar, &story.texts) {
            let graft = text_of_number(&story.texts, bar.text);
            if !is_among(graft, &told) {
                put(&mut told, graft)?;
                let line = graft_told(alloc, graft)?;
                put(out, line)?;
            }
        }
    }
    Ok(())
}

/// The number of an event, before what is told of it.
fn of_event(alloc: Global, event: u32) -> Result<Vec<u8>, NoMemory> {
    let mut text = Vec::new(alloc);
    append_with(&mut text, b"event ", event)?;
    append(&mut text, b": ")?;
    Ok(text)
}

/// Tells a drop.
fn tell_drop(alloc: Global, out: &mut Vec<Told>, drop: &DroppedGraft) -> Result<(), NoMemory> {
    let mut text = of_event(alloc, drop.event)?;
    append(&mut text, drop.code)?;
    append(&mut text, b", ")?;
    match sentence_of(alloc, drop.line)? {
        Some(sentence) => append(&mut text, &sentence)?,
        None => append(&mut text, drop.line)?,
    }
    put(
        out,
        Told {
            is_drop: true,
            text,
        },
    )
}

/// Tells what the drop at a place put back, as far as there is room: how many records there were.
fn tell_records(
    alloc: Global,
    out: &mut Vec<Told>,
    story: &Story,
    place: usize,
    event: u32,
    before: u32,
) -> Result<u32, NoMemory> {
    let mut count = before;
    for record in &story.put_back {
        if record.drop == place {
            if count < RECORDS {
                let mut text = of_event(alloc, event)?;
                append(&mut text, b"put back, ")?;
                append_record(&mut text, record.text)?;
                put(
                    out,
                    Told {
                        is_drop: true,
                        text,
                    },
                )?;
            }
            count = count.saturating_add(1);
        }
    }
    Ok(count)
}

/// Whether a drop put something back.
pub fn puts_back(story: &Story, place: usize) -> bool {
    story.put_back.iter().any(|record| record.drop == place)
}

/// The lines below a strip.
pub fn lines_below(alloc: Global, strip: &Strip, story: &Story) -> Result<Vec<Told>, NoMemory> {
    let mut out = Vec::new(alloc);
    tell_grafts(alloc, &mut out, strip, story)?;
    let mut records = 0;
    for (place, drop) in story.drops.iter().enumerate() {
        if strip.has(drop.event) {
            tell_drop(alloc, &mut out, drop)?;
            records = tell_records(alloc, &mut out, story, place, drop.event, records)?;
        }
    }
    if count_records(strip, story) > RECORDS {
        let mut text = Vec::new(alloc);
        append(&mut text, b"and more was put back")?;
        put(
            &mut out,
            Told {
                is_drop: true,
                text,
            },
        )?;
    }
    Ok(out)
}
