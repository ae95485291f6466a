//! Drawing a strip of a story.

ghost use Rattle.std.specs.Prelude.{◌≡◌};
ghost use Rattle.lab_picture.specs.Strips as spec;

use crate::below::{Told, append_short_graft, puts_back};
use crate::layout::{BAR, EDGE, LEFT, LEVEL, LINE_SIGNS, NOTES, Strip, TEXT};
use crate::places::{bar_left, bar_right, drop_place};
use crate::shapes::{At, cross, fitted_text, line, number, rectangle, rising_text, text};
use kernel_data::NoMemory;
use lab_story::{Arrow, Bar, Column, DroppedGraft, End, Kind, Story, text_of_number};
use lab_words::{CallCode, Code, append_object, text_of};
use std::alloc::Global;
use text_words::{append, append_number, append_with, put, word_at};

/// The width of a sign.
const SIGN: u32 = 7;

/// The width of a small sign.
const SMALL_SIGN: u32 = 6;

/// The height of a call that is refused while another one goes on.
const BUSY: u32 = 5;

/// How many small signs have room in a width.
fn small_signs(width: u32) -> usize {
    (width / SMALL_SIGN) as usize
}

/// The line of a tick, from below its script line through the lanes.
fn paint_tick(out: &mut Vec<u8>, strip: &Strip, from: At) -> Result<(), NoMemory> {
    let to = At {
        x: from.x,
        y: strip.lanes_end(),
    };
    line(out, b"tick", from, to)
}

/// Appends what became of an event that is no call.
fn append_result(out: &mut Vec<u8>, column: &Column) -> Result<(), NoMemory> {
    append(out, column.result)?;
    match column.ran {
        Some(ran) if column.result.is_empty() => append_with(out, b"ran ", ran),
        _ => Ok(()),
    }
}

/// The script line of an event above its column, its number, and what became of it.
fn paint_column(
    alloc: Global,
    out: &mut Vec<u8>,
    strip: &Strip,
    column: &Column,
) -> Result<(), NoMemory> {
    let x = strip.middle(column.event);
    let y = strip.top.saturating_add(strip.header);
    let is_tick = word_at(column.line, 0) == b"tick".as_slice();
    if is_tick {
        let from = At {
            x,
            y: y.saturating_add(NOTES - 2),
        };
        paint_tick(out, strip, from)?;
    }
    let above = At {
        x,
        y: y.saturating_sub(4),
    };
    rising_text(out, b"line", above, column.line, LINE_SIGNS)?;
    let below = At {
        x,
        y: y.saturating_add(10),
    };
    number(out, b"event", below, column.event)?;
    let mut said = Vec::new(alloc);
    append_result(&mut said, column)?;
    if said.is_empty() {
        return Ok(());
    }
    let class: &[u8] = if is_tick { b"clock" } else { b"note" };
    let at = At {
        x,
        y: y.saturating_add(NOTES).saturating_sub(6),
    };
    fitted_text(out, class, at, &said, small_signs(strip.column))
}

/// The name of the lane of a process, and the line below it.
fn paint_lane(out: &mut Vec<u8>, strip: &Strip, process: u32) -> Result<(), NoMemory> {
    let end = strip.y(process).saturating_add(BAR);
    let y = end.saturating_sub(2);
    text(out, b"name", At { x: 8, y }, b"process")?;
    number(out, b"name", At { x: 58, y }, process)?;
    let from = At {
        x: 8,
        y: end.saturating_add(TEXT + 3).saturating_add(strip.waits),
    };
    let to = At { x: EDGE, y: from.y };
    line(out, b"lane", from, to)
}

/// The names of the lanes, and the lines between them.
fn paint_lanes(out: &mut Vec<u8>, strip: &Strip) -> Result<(), NoMemory> {
    for process in 0u32..16 {
        if strip.lane(process) != 0 {
            paint_lane(out, strip, process)?;
        }
    }
    Ok(())
}

/// The class of a bar.
fn class_of(bar: &Bar) -> &'static [u8]
    ensures { result.now ≡ spec.class_of bar.now.kind bar.now.end }
{
    match (bar.kind, bar.end) {
        (Kind::Call, End::Refused) => b"refused",
        (Kind::Call, _) => b"call",
        (Kind::Wait, _) => b"wait",
        (Kind::Level(_), End::Dropped) => b"dropped",
        (Kind::Level(1), _) => b"level1",
        (Kind::Level(2), _) => b"level2",
        (Kind::Level(3), _) => b"level3",
        (Kind::Level(_), _) => b"level4",
    }
}

/// A bar of a strip, or the part of it that stands there: where it begins and ends.
#[derive(Clone, Copy)]
struct Span {
    bar: Bar,
    left: u32,
    right: u32,
}

impl Span {
    fn width(&self) -> u32 {
        self.right.saturating_sub(self.left)
    }
}

/// The bars of a story that a strip shows.
fn bars_of(alloc: Global, strip: &Strip, story: &Story) -> Result<Vec<Bar>, NoMemory> {
    let mut bars = Vec::new(alloc);
    for bar in &story.bars {
        if strip.shows(bar) {
            put(&mut bars, *bar)?;
        }
    }
    Ok(bars)
}

/// Where the bars of a strip begin and end.
fn spans_of(alloc: Global, strip: &Strip, bars: &[Bar]) -> Result<Vec<Span>, NoMemory> {
    let mut spans = Vec::new(alloc);
    for (k, bar) in bars.iter().enumerate() {
        let left = bar_left(strip, bars, k);
        let right = bar_right(strip, bars, k).max(left.saturating_add(6));
        let bar = *bar;
        put(&mut spans, Span { bar, left, right })?;
    }
    Ok(spans)
}

/// Whether no other call of its process has a part in the events of a call.
fn is_alone(spans: &[Span], bar: &Bar) -> bool {
    !spans.iter().any(|other| {
        other.bar.kind == Kind::Call
            && other.bar.process == bar.process
            && other.bar.call != bar.call
            && other.bar.from <= bar.to
            && other.bar.to >= bar.from
    })
}

/// Where the lines begin that go down from those drops of the strip which put something back.
fn undo_starts(
    alloc: Global,
    strip: &Strip,
    bars: &[Bar],
    story: &Story,
) -> Result<Vec<At>, NoMemory> {
    let mut starts = Vec::new(alloc);
    let drops = story.drops.as_slice();
    for (place, drop) in drops.iter().enumerate() {
        if strip.has(drop.event) && puts_back(story, place) {
            put(&mut starts, place_of_drop(strip, bars, drops, place))?;
        }
    }
    Ok(starts)
}

/// The width of a text of small signs.
fn text_width(said: &[u8]) -> u32 {
    u32::try_from(said.len())
        .unwrap_or(u32::MAX)
        .saturating_mul(SMALL_SIGN)
}

/// Where a line from a drop stands, from the left, that a text of this width would cross.
fn crossed_by(undone: &[At], at: At, width: u32) -> Option<u32> {
    for from in undone {
        let is_right = from.x.saturating_add(4) > at.x;
        let is_left = from.x < at.x.saturating_add(width).saturating_add(4);
        if from.y < at.y && is_right && is_left {
            return Some(from.x);
        }
    }
    None
}

/// Where a text ends below the end of a bar: in front of a line from a drop that it would cross.
fn result_end(undone: &[At], span: &Span, y: u32, said: &[u8]) -> u32 {
    let end = span.right.saturating_sub(4);
    let width = text_width(said);
    let begin = At {
        x: end.saturating_sub(width),
        y,
    };
    match crossed_by(undone, begin, width) {
        Some(x) => x.saturating_sub(5),
        None => end,
    }
}

/// How a call ended, below its bar: at its end, or at its beginning where it is short.
fn paint_result(
    out: &mut Vec<u8>,
    strip: &Strip,
    texts: &[&[u8]],
    spans: &[Span],
    undone: &[At],
    span: &Span,
) -> Result<(), NoMemory> {
    let bar = &span.bar;
    let y = strip.bar_y(bar).saturating_add(BAR + TEXT - 4);
    let said = text_of_number(texts, bar.result);
    if bar.end == End::Open || !strip.has(bar.to) {
        return Ok(());
    }
    let most = small_signs(strip.column);
    if span.width() <= strip.column {
        return fitted_text(out, b"result", At { x: span.left, y }, said, most);
    }
    let most = if is_alone(spans, bar) {
        small_signs(span.width())
    } else {
        most
    };
    let x = result_end(undone, span, y, said);
    fitted_text(out, b"result-left", At { x, y }, said, most)
}

/// The line of a call in its bar, where there is room, and how it ended below.
fn paint_call(
    out: &mut Vec<u8>,
    strip: &Strip,
    texts: &[&[u8]],
    spans: &[Span],
    undone: &[At],
    span: &Span,
) -> Result<(), NoMemory> {
    if span.width() > strip.column {
        let at = At {
            x: span.left.saturating_add(4),
            y: strip.bar_y(&span.bar).saturating_add(BAR - 3),
        };
        let most = (span.width().saturating_sub(6) / SIGN) as usize;
        fitted_text(
            out,
            b"inside",
            at,
            text_of_number(texts, span.bar.text),
            most,
        )?;
    }
    paint_result(out, strip, texts, spans, undone, span)
}

/// The graft of a level in its bar, where there is room.
fn paint_graft(
    alloc: Global,
    out: &mut Vec<u8>,
    strip: &Strip,
    texts: &[&[u8]],
    span: &Span,
) -> Result<(), NoMemory> {
    let graft = text_of_number(texts, span.bar.text);
    let taken = if span.bar.end == End::Dropped {
        6 + 16
    } else {
        6
    };
    let most = small_signs(span.width().saturating_sub(taken));
    if graft.is_empty() || most < 2 {
        return Ok(());
    }
    let at = At {
        x: span.left.saturating_add(4),
        y: strip.bar_y(&span.bar).saturating_add(LEVEL - 4),
    };
    let mut said = Vec::new(alloc);
    append_short_graft(&mut said, graft)?;
    if said.len() <= most {
        return text(out, b"graft", at, &said);
    }
    fitted_text(out, b"graft", at, graft, most)
}

/// What stands in and below the bars of the strip.
fn paint_words(
    alloc: Global,
    out: &mut Vec<u8>,
    strip: &Strip,
    texts: &[&[u8]],
    spans: &[Span],
    undone: &[At],
) -> Result<(), NoMemory> {
    for span in spans {
        match span.bar.kind {
            Kind::Call => paint_call(out, strip, texts, spans, undone, span)?,
            Kind::Level(_) => paint_graft(alloc, out, strip, texts, span)?,
            Kind::Wait => {}
        }
    }
    Ok(())
}

/// Whether a call was refused since another one of its process was in flight.
fn is_busy(texts: &[&[u8]], bar: &Bar) -> bool {
    word_at(text_of_number(texts, bar.result), 0) == text_of(Code::Call(CallCode::Busy))
}

/// The height of a bar. A call that is refused while another one of its process goes on is low.
fn bar_height(texts: &[&[u8]], bar: &Bar) -> u32 {
    match bar.kind {
        Kind::Call if is_busy(texts, bar) => BUSY,
        Kind::Call | Kind::Wait => BAR,
        Kind::Level(_) => LEVEL - 2,
    }
}

/// A bar, or the part of it that stands in the strip.
fn paint_bar(
    out: &mut Vec<u8>,
    strip: &Strip,
    texts: &[&[u8]],
    span: &Span,
) -> Result<(), NoMemory> {
    let bar = &span.bar;
    let height = bar_height(texts, bar);
    let y = match bar.kind {
        Kind::Call => strip.bar_y(bar).saturating_add(BAR).saturating_sub(height),
        Kind::Wait | Kind::Level(_) => strip.bar_y(bar),
    };
    rectangle(
        out,
        class_of(bar),
        At { x: span.left, y },
        span.width(),
        height,
    )
}

/// Whether a bar is that of a wait, which lies over that of its call.
fn is_wait(bar: &Bar) -> bool {
    bar.kind == Kind::Wait
}

/// The bars of the strip: waits behind the others, and calls that are refused last.
fn paint_bars(
    out: &mut Vec<u8>,
    strip: &Strip,
    texts: &[&[u8]],
    spans: &[Span],
) -> Result<(), NoMemory> {
    for span in spans {
        if !is_wait(&span.bar) && !is_busy(texts, &span.bar) {
            paint_bar(out, strip, texts, span)?;
        }
    }
    for span in spans {
        if is_wait(&span.bar) {
            paint_bar(out, strip, texts, span)?;
        }
    }
    for span in spans {
        if is_busy(texts, &span.bar) {
            paint_bar(out, strip, texts, span)?;
        }
    }
    Ok(())
}

/// How many drops there are of the same level and process in the event of a drop.
fn drops_before(drops: &[DroppedGraft], drop: &DroppedGraft) -> u32 {
    let mut count: u32 = 0;
    for other in drops {
        if other.event == drop.event && other.process == drop.process && other.level == drop.level {
            count = count.saturating_add(1);
        }
    }
    count
}

/// How many drops a process has in an event.
fn drops_beside(drops: &[DroppedGraft], drop: &DroppedGraft) -> usize {
    drops
        .iter()
        .filter(|other| other.event == drop.event && other.process == drop.process)
        .count()
}

/// Where a drop of a story stands.
fn place_of_drop(strip: &Strip, bars: &[Bar], drops: &[DroppedGraft], place: usize) -> At {
    match drops.get(place) {
        None => At { x: 0, y: 0 },
        Some(drop) => {
            let before = drops_before(&drops[..place], drop);
            At {
                x: drop_place(strip, bars, drop.process, drop.level, drop.event, before),
                y: strip
                    .level_y(drop.process, drop.level)
                    .saturating_add(LEVEL / 2 - 1),
            }
        }
    }
}

/// The code of a drop above the levels; of several in one event the first one, with a mark.
fn paint_code(
    alloc: Global,
    out: &mut Vec<u8>,
    strip: &Strip,
    drops: &[DroppedGraft],
    place: usize,
    x: u32,
) -> Result<(), NoMemory> {
    let Some(drop) = drops.get(place) else {
        return Ok(());
    };
    if drops_beside(&drops[..place], drop) > 0 {
        return Ok(());
    }
    let mut said = Vec::new(alloc);
    append(&mut said, drop.code)?;
    if drops_beside(drops, drop) > 1 {
        append(&mut said, b" ..")?;
    }
    let y = strip.level_y(drop.process, strip.levels).saturating_sub(4);
    text(out, b"code", At { x, y }, &said)
}

/// The mark of a dropped graft, its code, and an arrow down to what was put back.
fn paint_drop(
    alloc: Global,
    out: &mut Vec<u8>,
    strip: &Strip,
    bars: &[Bar],
    story: &Story,
    place: usize,
) -> Result<(), NoMemory> {
    let drops = story.drops.as_slice();
    let at = place_of_drop(strip, bars, drops, place);
    if puts_back(story, place) {
        let from = At {
            x: at.x,
            y: at.y.saturating_add(8),
        };
        let to = At {
            x: at.x,
            y: strip.lanes_end().saturating_add(8),
        };
        line(out, b"undo", from, to)?;
    }
    cross(out, at)?;
    paint_code(alloc, out, strip, drops, place, at.x)
}

/// The drops of the strip.
fn paint_drops(
    alloc: Global,
    out: &mut Vec<u8>,
    strip: &Strip,
    bars: &[Bar],
    story: &Story,
) -> Result<(), NoMemory> {
    for (place, drop) in story.drops.iter().enumerate() {
        if strip.has(drop.event) {
            paint_drop(alloc, out, strip, bars, story, place)?;
        }
    }
    Ok(())
}

/// Where the arrow of a wait stands.
fn arrow_x(strip: &Strip, arrow: &Arrow) -> u32 {
    strip
        .x(arrow.event)
        .saturating_add(strip.column.saturating_mul(3) / 4)
}

/// How much room there is from the arrow of a wait to the next one of its process, or to the edge.
fn room_behind(strip: &Strip, arrows: &[Arrow], arrow: &Arrow) -> u32 {
    let x = arrow_x(strip, arrow);
    let mut end = EDGE;
    for other in arrows {
        if other.from == arrow.from && other.event > arrow.event && strip.has(other.event) {
            end = end.min(arrow_x(strip, other));
        }
    }
    end.saturating_sub(x.saturating_add(8))
}

/// What is waited for, and who has it.
fn object_text(alloc: Global, arrow: &Arrow) -> Result<Vec<u8>, NoMemory> {
    let mut said = Vec::new(alloc);
    append(&mut said, b"for ")?;
    append_object(&mut said, arrow.object)?;
    append_with(&mut said, b", which process ", arrow.to)?;
    append(&mut said, b" has")?;
    Ok(said)
}

/// What is waited for, below the result of the call that waits: behind its arrow, or in front of it
/// where it would cross a line from a drop or the edge.
fn paint_object(
    alloc: Global,
    out: &mut Vec<u8>,
    strip: &Strip,
    arrow: &Arrow,
    undone: &[At],
    room: u32,
) -> Result<(), NoMemory> {
    let x = arrow_x(strip, arrow);
    let y = strip
        .y(arrow.from)
        .saturating_add(BAR + TEXT)
        .saturating_add(strip.waits)
        .saturating_sub(4);
    let said = object_text(alloc, arrow)?;
    let behind = At {
        x: x.saturating_add(5),
        y,
    };
    let is_crossed = crossed_by(undone, behind, text_width(&said)).is_some();
    let is_long = said.len() > small_signs(room);
    if is_crossed || (is_long && room.saturating_add(x) >= EDGE - 8) {
        let at = At {
            x: x.saturating_sub(5),
            y,
        };
        let most = small_signs(x.saturating_sub(LEFT));
        return fitted_text(out, b"object-left", at, &said, most);
    }
    fitted_text(out, b"object", behind, &said, small_signs(room))
}

/// An arrow from who waits to whom it waits for.
fn paint_arrow(out: &mut Vec<u8>, strip: &Strip, arrow: &Arrow) -> Result<(), NoMemory> {
    let x = arrow_x(strip, arrow);
    let from = strip.y(arrow.from);
    let to = strip.y(arrow.to);
    let (start, end) = if from < to {
        (from.saturating_add(BAR), to)
    } else {
        (from, to.saturating_add(BAR))
    };
    line(out, b"waits", At { x, y: start }, At { x, y: end })
}

/// Whether a wait stands in the strip, with a lane for each of its processes.
fn has_lanes(strip: &Strip, arrow: &Arrow) -> bool {
    strip.has(arrow.event) && strip.lane(arrow.from) != 0 && strip.lane(arrow.to) != 0
}

/// The arrows of the strip from who waits to whom.
fn paint_arrows(out: &mut Vec<u8>, strip: &Strip, arrows: &[Arrow]) -> Result<(), NoMemory> {
    for arrow in arrows {
        if has_lanes(strip, arrow) {
            paint_arrow(out, strip, arrow)?;
        }
    }
    Ok(())
}

/// What is waited for in the strip.
fn paint_objects(
    alloc: Global,
    out: &mut Vec<u8>,
    strip: &Strip,
    arrows: &[Arrow],
    undone: &[At],
) -> Result<(), NoMemory> {
    for arrow in arrows {
        if strip.has(arrow.event) && strip.lane(arrow.from) != 0 {
            let room = room_behind(strip, arrows, arrow);
            paint_object(alloc, out, strip, arrow, undone, room)?;
        }
    }
    Ok(())
}

/// The columns of the strip.
fn paint_columns(
    alloc: Global,
    out: &mut Vec<u8>,
    strip: &Strip,
    columns: &[Column],
) -> Result<(), NoMemory> {
    for column in columns {
        if strip.has(column.event) {
            paint_column(alloc, out, strip, column)?;
        }
    }
    Ok(())
}

/// The lines below the strip.
fn paint_below(out: &mut Vec<u8>, strip: &Strip, below: &[Told]) -> Result<(), NoMemory> {
    let mut y = strip.lanes_end().saturating_add(20);
    for told in below {
        let class: &[u8] = if told.is_drop { b"back" } else { b"told" };
        let most = small_signs(EDGE - LEFT);
        fitted_text(out, class, At { x: LEFT, y }, &told.text, most)?;
        y = y.saturating_add(TEXT);
    }
    Ok(())
}

/// A whole strip, with these lines below it.
pub fn paint_strip(
    alloc: Global,
    out: &mut Vec<u8>,
    strip: &Strip,
    story: &Story,
    below: &[Told],
) -> Result<(), NoMemory> {
    let bars = bars_of(alloc, strip, story)?;
    let spans = spans_of(alloc, strip, &bars)?;
    paint_columns(alloc, out, strip, &story.columns)?;
    paint_lanes(out, strip)?;
    paint_bars(out, strip, &story.texts, &spans)?;
    paint_arrows(out, strip, &story.arrows)?;
    paint_drops(alloc, out, strip, &bars, story)?;
    let undone = undo_starts(alloc, strip, &bars, story)?;
    paint_words(alloc, out, strip, &story.texts, &spans, &undone)?;
    paint_objects(alloc, out, strip, &story.arrows, &undone)?;
    paint_below(out, strip, below)
}
