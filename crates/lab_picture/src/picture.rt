//! `draw`: the picture of a story.

use crate::below::lines_below;
use crate::layout::{Grid, LEFT, Strip, TEXT, TOP, grid_of, header_of, lanes_of, levels_of};
use crate::paint::paint_strip;
use crate::shapes::{At, text};
use crate::style::{begin_picture, explain};
use kernel_data::NoMemory;
use lab_story::{Bar, Chosen, MOST_EVENTS, Story};
use std::alloc::Global;
use text_words::{append, put};

/// The height of the row of codes above the levels, where there are drops.
const CODES: u32 = 13;

/// The bars of a story that reach into the events from a first to a last one.
fn bars_within(alloc: Global, story: &Story, first: u32, last: u32) -> Result<Vec<Bar>, NoMemory> {
    let mut bars = Vec::new(alloc);
    for bar in &story.bars {
        if bar.from <= last && bar.to >= first {
            put(&mut bars, *bar)?;
        }
    }
    Ok(bars)
}

/// The strip that begins at an event and, from above, at `top`.
fn strip_at(
    alloc: Global,
    story: &Story,
    grid: Grid,
    first: u32,
    last: u32,
    top: u32,
) -> Result<Strip, NoMemory> {
    let end = first
        .saturating_add(grid.per_strip.saturating_sub(1))
        .min(last);
    let bars = bars_within(alloc, story, first, end)?;
    let dropped = story
        .drops
        .iter()
        .any(|drop| drop.event >= first && drop.event <= end);
    let waiting = story
        .arrows
        .iter()
        .any(|arrow| arrow.event >= first && arrow.event <= end);
    Ok(Strip {
        first,
        last: end,
        top,
        column: grid.column,
        header: header_of(&story.columns, first, end),
        levels: levels_of(&bars),
        codes: if dropped { CODES } else { 0 },
        waits: if waiting { TEXT } else { 0 },
        lanes: lanes_of(&story.bars),
    })
}

/// How many events are drawn.
fn count_chosen(chosen: Chosen) -> u32 {
    chosen.last.saturating_add(1).saturating_sub(chosen.first)
}

/// Draws the strips of the chosen events, or only measures them: where they end, from above.
fn draw_strips(
    alloc: Global,
    out: &mut Vec<u8>,
    story: &Story,
    chosen: Chosen,
    is_drawn: bool,
) -> Result<u32, NoMemory> {
    let grid = grid_of(count_chosen(chosen));
    let mut top = TOP;
    for k in 0..MOST_EVENTS {
        let first = k
            .saturating_mul(grid.per_strip)
            .saturating_add(chosen.first);
        if first > chosen.last {
            break;
        }
        let strip = strip_at(alloc, story, grid, first, chosen.last, top)?;
        let below = lines_below(alloc, &strip, story)?;
        if is_drawn {
            paint_strip(alloc, out, &strip, story, &below)?;
        }
        top = top.saturating_add(strip.height(below.len()));
    }
    Ok(top)
}

/// The picture of the chosen events of a story as SVG, with this title.
pub fn draw(
    alloc: Global,
    story: &Story,
    chosen: Chosen,
    title: &[u8],
) -> Result<Vec<u8>, NoMemory> {
    let mut out = Vec::new(alloc);
    let height = draw_strips(alloc, &mut out, story, chosen, false)?;
    begin_picture(&mut out, height.max(TOP + TEXT), title)?;
    explain(&mut out)?;
    if story.columns.is_empty() {
        text(&mut out, b"note", At { x: LEFT, y: TOP }, b"no event")?;
    }
    let _ = draw_strips(alloc, &mut out, story, chosen, true)?;
    append(&mut out, b"</svg>\n")?;
    Ok(out)
}
