//! Where bars begin and end, from the left. Bars that come one behind the other at one level of a
//! process in one event share its width.

use crate::layout::Strip;
use lab_story::{Bar, End, Kind};

/// What is left free on both sides of an event.
const MARGIN: u32 = 6;

/// What a cross takes of the end of a bar.
const CROSS: u32 = 8;

/// Whether two bars stand in one row: at the same level of one process.
fn is_beside(bar: &Bar, other: &Bar) -> bool {
    bar.process == other.process && bar.kind == other.kind
}

/// Whether a bar has a part in an event.
fn touches(bar: &Bar, event: u32) -> bool {
    bar.from <= event && bar.to >= event
}

/// How many of some bars have a part in an event beside a bar.
fn count_beside(bars: &[Bar], bar: &Bar, event: u32) -> u32 {
    let mut count: u32 = 0;
    for other in bars {
        if is_beside(bar, other) && touches(other, event) {
            count = count.saturating_add(1);
        }
    }
    count
}

/// Where the part of an event ends that bar k of a strip has, or those before it alone.
fn part_end(strip: &Strip, bars: &[Bar], k: usize, event: u32, is_whole: bool) -> u32 {
    let Some(bar) = bars.get(k) else {
        return strip.x(event);
    };
    let all = count_beside(bars, bar, event).max(1);
    let before = count_beside(&bars[..k], bar, event);
    let parts = if is_whole {
        before.saturating_add(1)
    } else {
        before
    };
    let width = strip.column.saturating_sub(2 * MARGIN);
    strip
        .x(event)
        .saturating_add(MARGIN)
        .saturating_add(width.saturating_mul(parts) / all)
}

/// Where bar k of a strip begins.
pub fn bar_left(strip: &Strip, bars: &[Bar], k: usize) -> u32 {
    match bars.get(k) {
        None => 0,
        Some(bar) => {
            if bar.from < strip.first {
                return strip.x(strip.first);
            }
            match bar.kind {
                Kind::Call => strip.x(bar.from).saturating_add(2),
                Kind::Wait | Kind::Level(_) => part_end(strip, bars, k, bar.from, false),
            }
        }
    }
}

/// Where bar k of a strip ends.
pub fn bar_right(strip: &Strip, bars: &[Bar], k: usize) -> u32 {
    match bars.get(k) {
        None => 0,
        Some(bar) => {
            if bar.to > strip.last || bar.end == End::Open {
                return strip.right();
            }
            match bar.kind {
                Kind::Call => strip
                    .x(bar.to)
                    .saturating_add(strip.column.saturating_sub(2)),
                Kind::Wait | Kind::Level(_) => {
                    part_end(strip, bars, k, bar.to, true).saturating_sub(2)
                }
            }
        }
    }
}

/// Where the cross of a dropped graft stands: at the end of its bar, or in the middle of the event
/// where no bar is found. The bar is the n-th one of this level of a process, from 0, that ends so in the event.
pub fn drop_place(
    strip: &Strip,
    bars: &[Bar],
    process: u32,
    level: u32,
    event: u32,
    n: u32,
) -> u32 {
    let mut passed: u32 = 0;
    for (k, bar) in bars.iter().enumerate() {
        if bar.process == process
            && bar.kind == Kind::Level(level)
            && bar.end == End::Dropped
            && bar.to == event
        {
            if passed == n {
                return bar_right(strip, bars, k).saturating_sub(CROSS);
            }
            passed = passed.saturating_add(1);
        }
    }
    strip.middle(event)
}
