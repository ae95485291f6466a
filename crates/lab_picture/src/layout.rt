//! Where things stand in a picture. All lengths are in units of a picture that is 1,000 wide.

ghost use Rattle.std.specs.Prelude.{◌≡◌, ℕ, ◌<◌, slice_index};
ghost use Rattle.lab_picture.specs.Strips as spec;

use lab_story::{Bar, Column, DroppedGraft, Kind, PutBack, Story};

/// The most events beside each other before the picture goes on below.
pub const MOST_COLUMNS: u32 = 20;

/// Where the first event stands.
pub const LEFT: u32 = 74;

/// Where the last event ends. Behind it the lines of the last events have room.
pub const RIGHT: u32 = 920;

/// Where all ends.
pub const EDGE: u32 = 992;

/// The most width of an event.
pub const WIDEST: u32 = 120;

/// The most signs of a script line above its event.
pub const LINE_SIGNS: usize = 26;

/// The height of a sign of such a line, as it rises.
const RISE: u32 = 6;

/// The height of the row of what is no call.
pub const NOTES: u32 = 30;

/// The height of a level above its call.
pub const LEVEL: u32 = 14;

/// The height of the bar of a call.
pub const BAR: u32 = 14;

/// The height of a line of text.
pub const TEXT: u32 = 15;

/// The height of what stands above the first strip.
pub const TOP: u32 = 64;

/// The space below a strip.
pub const GAP: u32 = 22;

/// The most records that are told below a strip.
pub const RECORDS: u32 = 12;

/// The processes.
pub const PROCESSES: usize = 16;

/// How many events a strip has, and how wide each is.
#[derive(Clone, Copy)]
pub struct Grid {
    pub per_strip: u32,
    pub column: u32,
}

/// The grid of so many events: strips of about one length, which take the width.
pub fn grid_of(events: u32) -> Grid {
    let strips = events.saturating_add(MOST_COLUMNS - 1) / MOST_COLUMNS;
    let per_strip = rounded_up(events, strips.max(1)).max(1);
    Grid {
        per_strip,
        column: ((RIGHT - LEFT) / per_strip).min(WIDEST),
    }
}

/// A quotient, rounded up.
fn rounded_up(n: u32, divisor: u32) -> u32
    requires { 0 < divisor }
{
    n.saturating_add(divisor - 1) / divisor
}

/// Some events of a run, and where their lanes stand.
#[derive(Clone, Copy)]
pub struct Strip {
    /// The first event and the last one.
    pub first: u32,
    pub last: u32,
    /// Where it begins, from above.
    pub top: u32,
    /// The width of an event.
    pub column: u32,
    /// The height of the script's lines above.
    pub header: u32,
    /// How many levels the lanes have room for.
    pub levels: u32,
    /// The height of the row above the levels, for the codes of drops.
    pub codes: u32,
    /// The height of the row below the results, for what is waited for.
    pub waits: u32,
    /// The number of the lane of each process, from 1; 0 where it has none.
    pub lanes: [u32; PROCESSES],
}

/// The greatest of some numbers.
fn greatest(numbers: &[u32]) -> u32 {
    let mut most = 0;
    for n in numbers {
        most = most.max(*n);
    }
    most
}

/// The height of the lines above the events from a first to a last one.
pub fn header_of(columns: &[Column], first: u32, last: u32) -> u32 {
    let mut most = 0;
    for column in columns {
        if column.event >= first && column.event <= last {
            most = most.max(column.line.len());
        }
    }
    (most.min(LINE_SIGNS) as u32)
        .saturating_mul(RISE)
        .saturating_add(20)
}

impl Strip {
    /// The height of a lane.
    fn lane_height(&self) -> u32 {
        self.levels
            .saturating_mul(LEVEL)
            .saturating_add(BAR + TEXT + 8)
            .saturating_add(self.codes)
            .saturating_add(self.waits)
    }

    /// Where an event begins, from the left.
    pub fn x(&self, event: u32) -> u32 {
        event
            .saturating_sub(self.first)
            .saturating_mul(self.column)
            .saturating_add(LEFT)
    }

    /// The middle of an event.
    pub fn middle(&self, event: u32) -> u32 {
        self.x(event).saturating_add(self.column / 2)
    }

    /// Where the strip ends to the right.
    pub fn right(&self) -> u32 {
        self.x(self.last).saturating_add(self.column)
    }

    /// Whether an event is one of the strip.
    pub fn has(&self, event: u32) -> bool
        ensures { result ≡ spec.has self.now.first self.now.last event }
    {
        event >= self.first && event <= self.last
    }

    /// Whether a part of a bar stands in the strip.
    pub fn shows(&self, bar: &Bar) -> bool
        ensures { result ≡ spec.shows self.now.first self.now.last bar.now }
    {
        bar.from <= self.last && bar.to >= self.first
    }

    /// Where the lanes begin.
    pub fn lanes_top(&self) -> u32 {
        self.top.saturating_add(self.header).saturating_add(NOTES)
    }

    /// Where the lanes end.
    pub fn lanes_end(&self) -> u32 {
        greatest(&self.lanes)
            .saturating_mul(self.lane_height())
            .saturating_add(self.lanes_top())
    }

    /// The number of the lane of a process, from 1; 0 where it has none.
    pub fn lane(&self, process: u32) -> u32
        ensures { result ≡ slice_index self.now.lanes process }
    {
        match self.lanes.get(process as usize) {
            Some(lane) => *lane,
            None => 0,
        }
    }

    /// Where the bars of the calls of a process begin, from above.
    pub fn y(&self, process: u32) -> u32 {
        self.lane(process)
            .saturating_mul(self.lane_height())
            .saturating_add(self.lanes_top())
            .saturating_sub(BAR + TEXT + 4)
            .saturating_sub(self.waits)
    }

    /// Where a bar begins, from above.
    pub fn bar_y(&self, bar: &Bar) -> u32 {
        match bar.kind {
            Kind::Call | Kind::Wait => self.y(bar.process),
            Kind::Level(level) => self.level_y(bar.process, level),
        }
    }

    /// Where a level of a call begins, from above.
    pub fn level_y(&self, process: u32, level: u32) -> u32 {
        self.y(process).saturating_sub(level.saturating_mul(LEVEL))
    }

    /// The height of the strip with so many lines of text below.
    pub fn height(&self, lines: usize) -> u32 {
        u32::try_from(lines)
            .unwrap_or(u32::MAX)
            .saturating_mul(TEXT)
            .saturating_add(self.lanes_end())
            .saturating_add(GAP)
            .saturating_sub(self.top)
    }
}

/// Whether a record was put back by a drop in an event of a strip.
fn is_put_back(strip: &Strip, drops: &[DroppedGraft], undone: &PutBack) -> bool
    ensures { result ≡ spec.is_put_back strip.now.first strip.now.last drops.now undone.now }
{
    match drops.get(undone.drop) {
        Some(drop) => strip.has(drop.event),
        None => false,
    }
}

/// How many records were put back in the events of a strip.
pub fn count_records(strip: &Strip, story: &Story) -> u32
    ensures { result ≡ spec.records_within strip.now.first strip.now.last
        story.now.drops.items story.now.put_back.items }
{
    let drops = story.drops.as_slice();
    let records = story.put_back.as_slice();
    let count = records
        .iter()
        .filter(|undone| is_put_back(strip, drops, undone))
        .count();
    u32::try_from(count).unwrap_or(u32::MAX)
}

/// Whether a process has a bar.
fn has_bar(bars: &[Bar], process: u32) -> bool
    ensures { result ≡ spec.has_bar bars.now process }
{
    bars.iter().any(|bar| bar.process == process)
}

/// The lanes of the processes that have a bar, in the order of their numbers.
pub fn lanes_of(bars: &[Bar]) -> [u32; PROCESSES]
    ensures { (process : ℕ) → process < 16
        → slice_index result process ≡ spec.lane_of bars.now process }
{
    let mut lanes = [0; PROCESSES];
    let mut count: u32 = 0;
    for process in 0u32..16 {
        if has_bar(bars, process) {
            count += 1;
            lanes[process as usize] = count;
        }
    }
    lanes
}

/// The most levels of a bar.
pub fn levels_of(bars: &[Bar]) -> u32
    ensures { result ≡ spec.most_levels bars.now }
{
    let mut most = 0;
    for bar in bars {
        if let Kind::Level(level) = bar.kind {
            most = most.max(level);
        }
    }
    most
}
