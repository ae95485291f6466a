//! What a written line adds to the story.

ghost use Rattle.std.specs.Prelude.{◌≡◌, ◌==◌, ◌<◌, ◌-◌, ◌++◌, ◌∷◌, [], length, map, position, IfSome, OnOk};
ghost use Rattle.lab_story.specs.Bars as bars_of;
ghost use Rattle.lab_story.specs.Numbers as spec;
ghost use Rattle.lab_story.specs.Records as undo;

use crate::story::{
    Arrow, Bar, Column, DroppedGraft, End, Kind, NO_TEXT, PutBack, Record, Story, end_bars, keep,
    text_of_number,
};
use script_model::NoMemory;
use text_words::{number_of, put, word_at};

/// The most levels of a call.
const LEVELS: u32 = 4;

/// Where a reader stands: at which event, which number that has among the lines that were written,
/// and whether it is a chosen one.
#[derive(Clone, Copy)]
pub struct Moment {
    pub event: u32,
    pub number: u32,
    pub is_shown: bool,
}

/// The number that the k-th word of a line says; 0 where it says none.
pub fn number_at(line: &[u8], k: usize) -> u32
    ensures { result ≡ spec.number_at line.now k }
{
    match number_of(word_at(line, k)) {
        Some(n) => n,
        None => 0,
    }
}

/// The process of a call.
fn process_of(bars: &[Bar], call: u32) -> Option<u32>
    ensures { result ≡ bars_of.process_of call bars.now }
{
    for bar in bars {
        if bar.call == call && bar.kind == Kind::Call {
            return Some(bar.process);
        }
    }
    None
}

/// What stands in a line from its k-th word on.
fn from_word(line: &[u8], k: usize) -> &[u8]
    ensures { result.now ≡ spec.from_word line.now k }
{
    let mut rest = line;
    for _ in 0..k {
        rest = behind_space(rest);
    }
    rest
}

/// The place of the first space, if there is one.
fn first_space(text: &[u8]) -> Option<usize>
    ensures place { result ≡ position (λ b. b == 32) text.now }
    ensures within { IfSome result (λ at. at < length text.now) }
{
    text.iter().position(|b| *b == b' ')
}

/// What stands behind the first space.
fn behind_space(text: &[u8]) -> &[u8]
    ensures { result.now ≡ spec.behind_space text.now }
{
    match first_space(text) {
        Some(at) => &text[at + 1..],
        None => [].as_slice(),
    }
}

/// Says what became of an event that is no call, where the line is one of that event.
fn note_column<'a>(columns: &mut [Column<'a>], at: Moment, number: u32, text: &'a [u8]) {
    if let [.., last] = columns {
        if last.event == at.event && at.number == number && !last.is_call {
            last.result = text;
        }
    }
}

/// Counts the instructions that an event took.
fn note_ran(columns: &mut [Column], at: Moment, line: &[u8]) {
    if let [.., last] = columns {
        if last.event == at.event {
            let ran = number_at(line, 2);
            last.ran = match last.ran {
                Some(before) => Some(before.saturating_add(ran)),
                None => Some(ran),
            };
        }
    }
}

/// A bar with what is said of how it ended, where it is the one of the call itself.
fn noted(bar: Bar, call: u32, said: usize) -> Bar
    ensures { result ≡ bars_of.noted call said bar }
{
    if bar.call == call && bar.kind == Kind::Call {
        Bar {
            result: said,
            ..bar
        }
    } else {
        bar
    }
}

/// Says how a call ended, at the bar of the call itself.
fn note_result(bars: &mut [Bar], call: u32, said: usize)
    ensures { bars.new ≡ map (bars_of.noted call said) bars.old }
{
    for bar in bars.iter_mut() {
        *bar = noted(*bar, call, said);
    }
}

/// A call ended, with all its levels, and this is said of it.
fn end_call<'a>(
    story: &mut Story<'a>,
    at: Moment,
    call: u32,
    text: &'a [u8],
    end: End,
) -> Result<(), NoMemory> {
    if process_of(&story.in_flight, call).is_none() {
        note_column(&mut story.columns, at, call, text);
        return Ok(());
    }
    let said = keep(story, text)?;
    note_result(&mut story.in_flight, call, said);
    end_bars(&mut story.in_flight, call, 1, at.event, End::Done);
    end_bars(&mut story.in_flight, call, 0, at.event, end);
    Ok(())
}

/// The level of an open bar of a graft; the innermost open level where no bar names the graft.
fn level_of_graft(bars: &[Bar], texts: &[&[u8]], call: u32, graft: &[u8]) -> u32
    ensures { result ≡ bars_of.level_of_graft call (map (λ t. t.now) texts.now) graft.now
        bars.now }
{
    let mut innermost = 1;
    for bar in bars {
        if bar.call == call && bar.end == End::Open {
            if let Kind::Level(level) = bar.kind {
                if text_of_number(texts, bar.text) == graft {
                    return level;
                }
                innermost = level;
            }
        }
    }
    innermost
}

/// The graft of a line `m drop Q PT ..` or `m graft Q PT ..`: `Q PT`.
fn graft_in(line: &[u8]) -> &[u8]
    ensures { result.now ≡ spec.two_words (spec.from_word line.now 2) }
{
    two_words(from_word(line, 2))
}

/// The first two words of a text, as they stand there; all of it where it has fewer.
fn two_words(rest: &[u8]) -> &[u8]
    ensures { result.now ≡ spec.two_words rest.now }
{
    let first = word_at(rest, 0).len();
    let second = word_at(rest, 1).len();
    let end = first.saturating_add(second).saturating_add(1);
    if end <= rest.len() {
        &rest[..end]
    } else {
        rest
    }
}

/// A graft was dropped.
fn drop_graft<'a>(story: &mut Story<'a>, at: Moment, line: &'a [u8]) -> Result<(), NoMemory> {
    let call = number_at(line, 0);
    let Some(process) = process_of(&story.in_flight, call) else {
        return Ok(());
    };
    let level = level_of_graft(&story.in_flight, &story.texts, call, graft_in(line));
    end_bars(&mut story.in_flight, call, level, at.event, End::Dropped);
    if !at.is_shown {
        return Ok(());
    }
    put(
        &mut story.drops,
        DroppedGraft {
            event: at.event,
            process,
            level,
            code: word_at(line, 4),
            line,
        },
    )?;
    put_back(story, process, level)
}

/// The records of a level of a process, and of those above, that the drop at this place puts back.
fn put_records<'a>(
    out: &mut Vec<PutBack<'a>>,
    records: &[Record<'a>],
    place: usize,
    process: u32,
    level: u32,
) -> Result<(), NoMemory>
    ensures { OnOk result (map undo.undone out.new.items ≡ map undo.undone out.old.items
        ++ undo.put_back place process level records.now) }
{
    for record in records {
        if record.process == process && record.level >= level {
            let text = record.text;
            put(out, PutBack { drop: place, text })?;
        }
    }
    Ok(())
}

/// The records of the last raw rows that the last drop puts back.
fn put_back(story: &mut Story, process: u32, level: u32) -> Result<(), NoMemory>
    ensures others { story.new ≡ record story.old { put_back = story.new.put_back } }
    ensures undone { OnOk result (map undo.undone story.new.put_back.items
        ≡ map undo.undone story.old.put_back.items
        ++ undo.put_back (length story.old.drops.items - 1) process level
        story.old.records.items) }
{
    let place = story.drops.len().saturating_sub(1);
    put_records(&mut story.put_back, &story.records, place, process, level)
}

/// Whether a call waits already, and for this: it is told again then.
fn waits_so(story: &Story, call: u32, arrow: &Arrow) -> bool {
    let is_waiting = story.in_flight.iter().any(|bar| {
        bar.call == call && bar.kind == Kind::Wait && bar.end == End::Open
    });
    if !is_waiting {
        return false;
    }
    let mut is_same = true;
    for other in &story.arrows {
        if other.from == arrow.from {
            is_same = other.object == arrow.object && other.to == arrow.to;
        }
    }
    is_same
}

/// A call waits: a bar and an arrow.
fn begin_wait<'a>(story: &mut Story<'a>, at: Moment, line: &'a [u8]) -> Result<(), NoMemory> {
    let call = number_at(line, 0);
    let Some(process) = process_of(&story.in_flight, call) else {
        return Ok(());
    };
    let arrow = Arrow {
        event: at.event,
        from: process,
        to: number_at(line, 3),
        object: word_at(line, 2),
    };
    if waits_so(story, call, &arrow) {
        return Ok(());
    }
    end_bars(&mut story.in_flight, call, LEVELS + 1, at.event, End::Done);
    if at.is_shown {
        put(&mut story.arrows, arrow)?;
    }
    put(
        &mut story.in_flight,
        Bar {
            process,
            call,
            kind: Kind::Wait,
            from: at.event,
            to: at.event,
            end: End::Open,
            text: NO_TEXT,
            result: NO_TEXT,
        },
    )
}

/// Whether a level of a call is open.
fn is_open(bars: &[Bar], call: u32, level: u32) -> bool
    ensures { result ≡ bars_of.has_open call level bars.now }
{
    bars.iter().any(|bar| {
        bar.call == call && bar.end == End::Open && bar.kind == Kind::Level(level)
    })
}

/// Whether an open bar of a level names another graft than this one: a call asks several, one after
/// the other.
fn runs_other(bars: &[Bar], texts: &[&[u8]], call: u32, level: u32, graft: &[u8]) -> bool
    ensures { result ≡ bars_of.runs_other call level (map (λ t. t.now) texts.now) graft.now
        bars.now }
{
    for bar in bars {
        if bar.call == call && bar.end == End::Open && bar.kind == Kind::Level(level) {
            let named = text_of_number(texts, bar.text);
            return !named.is_empty() && named != graft;
        }
    }
    false
}

/// Puts a level of a call over the others.
fn begin_level<'a>(
    story: &mut Story<'a>,
    event: u32,
    line: &'a [u8],
    process: u32,
    level: u32,
) -> Result<(), NoMemory> {
    let graft = if level == number_at(line, 4) {
        keep(story, graft_in(line))?
    } else {
        NO_TEXT
    };
    put(
        &mut story.in_flight,
        Bar {
            process,
            call: number_at(line, 0),
            kind: Kind::Level(level),
            from: event,
            to: event,
            end: End::Open,
            text: graft,
            result: NO_TEXT,
        },
    )
}

/// A call runs a graft, in the innermost of so many levels.
fn run_graft<'a>(story: &mut Story<'a>, event: u32, line: &'a [u8]) -> Result<(), NoMemory> {
    let call = number_at(line, 0);
    let depth = number_at(line, 4).min(LEVELS);
    let Some(process) = process_of(&story.in_flight, call) else {
        return Ok(());
    };
    let ended = if runs_other(&story.in_flight, &story.texts, call, depth, graft_in(line)) {
        depth
    } else {
        depth.saturating_add(1)
    };
    end_bars(&mut story.in_flight, call, ended, event, End::Done);
    for level in 1..LEVELS + 1 {
        if level <= depth && !is_open(&story.in_flight, call, level) {
            begin_level(story, event, line, process, level)?;
        }
    }
    Ok(())
}

/// A row of `raw`, behind its first two words: a record is remembered, and a level is named.
fn read_raw<'a>(story: &mut Story<'a>, line: &'a [u8]) -> Result<(), NoMemory> {
    match word_at(line, 2) {
        b"clock" => {
            story.records.clear();
            Ok(())
        }
        b"undo" => read_record(story, from_word(line, 3)),
        b"level" => read_level(story, line),
        _ => Ok(()),
    }
}

/// Whether a bar is an open one of a level of a process that names no graft.
fn is_nameless(bar: &Bar, process: u32, level: u32) -> bool
    ensures { result ≡ bars_of.is_nameless process level bar.now }
{
    bar.process == process
        && bar.end == End::Open
        && bar.kind == Kind::Level(level)
        && bar.text == NO_TEXT
}

/// A bar that names a graft, where it is a nameless one of this level.
fn named(bar: Bar, process: u32, level: u32, text: usize) -> Bar
    ensures { result ≡ bars_of.named process level text bar }
{
    if is_nameless(&bar, process, level) {
        Bar { text, ..bar }
    } else {
        bar
    }
}

/// Names the graft of the nameless bars of a level of a process.
fn name_level(bars: &mut [Bar], process: u32, level: u32, text: usize)
    ensures { bars.new ≡ map (bars_of.named process level text) bars.old }
{
    for bar in bars.iter_mut() {
        *bar = named(*bar, process, level, text);
    }
}

/// A row `N raw level P D Q PT S` names the graft of a level; levels are counted from 0 there.
fn read_level<'a>(story: &mut Story<'a>, line: &'a [u8]) -> Result<(), NoMemory> {
    let process = number_at(line, 3);
    let level = number_at(line, 4).saturating_add(1);
    if !story
        .in_flight
        .iter()
        .any(|bar| is_nameless(bar, process, level))
    {
        return Ok(());
    }
    let text = keep(story, two_words(from_word(line, 5)))?;
    name_level(&mut story.in_flight, process, level, text);
    Ok(())
}

/// A record `P D I` is remembered.
fn read_record<'a>(story: &mut Story<'a>, text: &'a [u8]) -> Result<(), NoMemory>
    ensures others { story.new ≡ record story.old { records = story.new.records } }
    ensures kept { OnOk result (map undo.kept story.new.records.items
        ≡ map undo.kept story.old.records.items ++ undo.written text.now ∷ []) }
{
    put(
        &mut story.records,
        Record {
            process: number_at(text, 0),
            level: number_at(text, 1).saturating_add(1),
            text: from_word(text, 2),
        },
    )
}

/// Whether a word is the code of a refused call or of a refused image.
fn is_refusal(word: &[u8]) -> bool {
    match word {
        [first, digits @ ..] => (*first == b'E' || *first == b'L') && number_of(digits).is_some(),
        _ => false,
    }
}

/// What a written line adds. Its second word says what it is; a refused line of the script has its code
/// as the third.
pub fn read_line<'a>(story: &mut Story<'a>, at: Moment, line: &'a [u8]) -> Result<(), NoMemory> {
    let call = number_at(line, 0);
    match word_at(line, 1) {
        b"raw" => read_raw(story, line),
        b"ok" => end_call(story, at, call, from_word(line, 1), End::Done),
        b"drop" => drop_graft(story, at, line),
        b"waits" => begin_wait(story, at, line),
        b"graft" => run_graft(story, at.event, line),
        b"tick" => {
            note_column(&mut story.columns, at, call, word_at(line, 2));
            Ok(())
        }
        b"ran" => {
            note_ran(&mut story.columns, at, line);
            Ok(())
        }
        word if is_refusal(word) => { end_call(story, at, call, from_word(line, 1), End::Refused) }
        _ if word_at(line, 0) == b"script".as_slice() => {
            end_call(story, at, at.number, word_at(line, 2), End::Refused)
        }
        _ => Ok(()),
    }
}
