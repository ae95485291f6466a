//! What a run comes to as a picture: bars, marks, arrows and ticks, by the number of their event.

ghost use Rattle.std.specs.Prelude.{◌≡◌, [], ◌∷◌, ◌++◌, length, map, slice_index_or, IfOk, OnOk};
ghost use Rattle.lab_story.specs.Bars as spec;
ghost use Rattle.lab_story.specs.Story.{IsEmpty};

use script_model::NoMemory;
use std::alloc::Global;
use text_words::put;

/// Above all levels.
const WAIT_LEVEL: u32 = 9;

/// How a bar ends.
#[derive(Clone, Copy, PartialEq, Eq)]
pub enum End {
    /// It hasn't ended yet.
    Open,
    /// It went well.
    Done,
    /// The call was refused.
    Refused,
    /// The graft was dropped.
    Dropped,
}

/// What a bar stands for.
#[derive(Clone, Copy, PartialEq, Eq)]
pub enum Kind {
    /// A call.
    Call,
    /// A wait of a call.
    Wait,
    /// A level of grafts, from 1.
    Level(u32),
}

/// A bar in the lane of a process, from one event to another.
#[derive(Clone, Copy)]
pub struct Bar {
    /// The process whose lane it stands in.
    pub process: u32,
    /// The number of the call.
    pub call: u32,
    /// What it stands for.
    pub kind: Kind,
    /// The event in which it begins.
    pub from: u32,
    /// The event in which it ends, from `from` on.
    pub to: u32,
    /// How it ends.
    pub end: End,
    /// The number of the text of it: of a call its script line, of a level its graft.
    pub text: usize,
    /// The number of the text that says how it ended.
    pub result: usize,
}

/// A dropped graft.
#[derive(Clone, Copy)]
pub struct DroppedGraft<'a> {
    /// The event in which it was dropped.
    pub event: u32,
    /// The process whose call asked it.
    pub process: u32,
    /// Its level, from 1.
    pub level: u32,
    /// The code of the cause.
    pub code: &'a [u8],
    /// The line that tells it.
    pub line: &'a [u8],
}

/// A wait of a process for another one.
#[derive(Clone, Copy)]
pub struct Arrow<'a> {
    /// The event in which the wait begins.
    pub event: u32,
    /// The process that waits.
    pub from: u32,
    /// The process that has the object.
    pub to: u32,
    /// The object, as it is written.
    pub object: &'a [u8],
}

/// A record of the undo log, as a raw row writes it.
#[derive(Clone, Copy)]
pub struct Record<'a> {
    /// The process whose call it belongs to.
    pub process: u32,
    /// The level that owns it, from 1.
    pub level: u32,
    /// What it puts back, as it is written.
    pub text: &'a [u8],
}

/// A record that was put back by a drop.
#[derive(Clone, Copy)]
pub struct PutBack<'a> {
    /// The place of the drop among all drops.
    pub drop: usize,
    /// What was put back, as it is written.
    pub text: &'a [u8],
}

/// A line of a script that is an event.
#[derive(Clone, Copy)]
pub struct Column<'a> {
    /// The number of the event, from 1.
    pub event: u32,
    /// Its line, as the file says it.
    pub line: &'a [u8],
    /// Whether it is a call, which has a bar.
    pub is_call: bool,
    /// What became of one that is no call, if that is told.
    pub result: &'a [u8],
    /// How many instructions it took, where it takes some.
    pub ran: Option<u32>,
}

/// A run, or a part of it.
#[derive(Drop)]
pub struct Story<'a> {
    /// The bars of calls that haven't ended.
    pub in_flight: Vec<Bar>,
    /// The bars that ended, as far as they reach into the chosen events.
    pub bars: Vec<Bar>,
    /// The texts that bars name by their numbers.
    pub texts: Vec<&'a [u8]>,
    /// The dropped grafts.
    pub drops: Vec<DroppedGraft<'a>>,
    /// Who waited for whom.
    pub arrows: Vec<Arrow<'a>>,
    /// What was put back.
    pub put_back: Vec<PutBack<'a>>,
    /// The records of the last raw rows.
    pub records: Vec<Record<'a>>,
    /// The events.
    pub columns: Vec<Column<'a>>,
}

impl<'a> Story<'a> {
    /// Nothing yet.
    pub fn new(alloc: Global) -> Story<'a>
        ensures { IsEmpty result }
    {
        Story {
            in_flight: Vec::new(alloc),
            bars: Vec::new(alloc),
            texts: Vec::new(alloc),
            drops: Vec::new(alloc),
            arrows: Vec::new(alloc),
            put_back: Vec::new(alloc),
            records: Vec::new(alloc),
            columns: Vec::new(alloc),
        }
    }
}

/// Keeps a text: its number.
pub fn keep<'a>(story: &mut Story<'a>, text: &'a [u8]) -> Result<usize, NoMemory>
    ensures number { IfOk result (λ number. number ≡ length story.old.texts.items) }
    ensures text { OnOk result (map (λ t. t.now) story.new.texts.items
        ≡ map (λ t. t.now) story.old.texts.items ++ text.now ∷ []) }
    ensures others { story.new ≡ record story.old { texts = story.new.texts } }
{
    let number = story.texts.len();
    put(&mut story.texts, text)?;
    Ok(number)
}

/// The text of a number; none where there is no such text.
pub fn text_of_number<'a>(texts: &[&'a [u8]], number: usize) -> &'a [u8]
    ensures { result.now ≡ slice_index_or (map (λ t. t.now) texts.now) number [] }
{
    match texts.get(number) {
        Some(text) => *text,
        None => [].as_slice(),
    }
}

/// The number of no text.
pub const NO_TEXT: usize = usize::MAX;

/// A bar that ends here, where it is an open one of a call that stands at a level or above.
fn ended(bar: Bar, call: u32, level: u32, event: u32, end: End) -> Bar
    ensures { result ≡ spec.ended call level event end bar }
{
    if bar.call == call && is_open(bar.end) && level_of(bar.kind) >= level {
        Bar {
            to: event,
            end,
            ..bar
        }
    } else {
        bar
    }
}

/// Ends the open bars of a call that stand at a level and above. Calls are level 0.
pub fn end_bars(bars: &mut [Bar], call: u32, level: u32, event: u32, end: End)
    ensures { bars.new ≡ map (spec.ended call level event end) bars.old }
{
    for bar in bars.iter_mut() {
        *bar = ended(*bar, call, level, event, end);
    }
}

/// A bar that goes on to an event, where it hasn't ended.
fn gone_on(bar: Bar, event: u32) -> Bar
    ensures { result ≡ spec.gone_on event bar }
{
    if is_open(bar.end) {
        Bar { to: event, ..bar }
    } else {
        bar
    }
}

/// Bars that haven't ended go on to this event.
pub fn go_on(bars: &mut [Bar], event: u32)
    ensures { bars.new ≡ map (spec.gone_on event) bars.old }
{
    for bar in bars.iter_mut() {
        *bar = gone_on(*bar, event);
    }
}

/// Whether a bar hasn't ended yet.
fn is_open(end: End) -> bool
    ensures { result ≡ spec.is_open end }
{
    matches!(end, End::Open)
}

/// The level of a bar: a wait goes with the innermost.
pub fn level_of(kind: Kind) -> u32
    ensures { result ≡ spec.level_of kind }
{
    match kind {
        Kind::Call => 0,
        Kind::Wait => WAIT_LEVEL,
        Kind::Level(level) => level,
    }
}

/// Bars that ended leave those of calls in flight; of them those are kept that reach to the first
/// chosen event.
fn set_aside(in_flight: &mut Vec<Bar>, bars: &mut Vec<Bar>, first: u32) -> Result<(), NoMemory> {
    let mut at = 0;
    for _ in 0..in_flight.len() {
        if at < in_flight.len() {
            if is_open(in_flight[at].end) {
                at += 1;
            } else {
                let bar = in_flight.remove(at);
                if bar.to >= first {
                    put(bars, bar)?;
                }
            }
        }
    }
    Ok(())
}

/// All bars of calls in flight are put behind those that ended.
fn set_all_aside(in_flight: &[Bar], bars: &mut Vec<Bar>) -> Result<(), NoMemory> {
    for bar in in_flight {
        put(bars, *bar)?;
    }
    Ok(())
}

/// What ended is put aside, as far as it reaches to the first chosen event.
pub fn put_aside(story: &mut Story, first: u32) -> Result<(), NoMemory> {
    set_aside(&mut story.in_flight, &mut story.bars, first)
}

/// All bars are put aside.
pub fn put_all_aside(story: &mut Story) -> Result<(), NoMemory> {
    set_all_aside(&story.in_flight, &mut story.bars)
}
