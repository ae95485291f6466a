//! Where a graft stood when it was dropped, by what a watched run tells (docs/LAB.md, "Watching a
//! run").

use text_words::{Parts, word_at};

/// Where a graft stood: the number of the instruction in its call, its text with the line of the
/// file, and how often the call came there.
#[derive(Clone, Copy)]
pub struct Standing<'a> {
    pub number: &'a [u8],
    pub place: &'a [u8],
    pub count: u32,
}

/// The first place of a pattern in a text.
pub fn find(text: &[u8], pattern: &[u8]) -> Option<usize> {
    for i in 0..text.len() {
        if text[i..].starts_with(pattern) {
            return Some(i);
        }
    }
    None
}

/// What stands behind a pattern in a text; nothing where it isn't there.
fn behind<'a>(text: &'a [u8], pattern: &[u8]) -> &'a [u8] {
    match find(text, pattern) {
        Some(at) => {
            let from = at.saturating_add(pattern.len()).min(text.len());
            &text[from..]
        }
        None => &[],
    }
}

/// The process and the level, as `process 2 level 1`, of a line that says that it runs the graft of
/// this process at this point.
fn runner<'a>(line: &'a [u8], process: &[u8], point: &[u8]) -> Option<&'a [u8]> {
    let told = line.strip_prefix(b"|   ".as_slice())?;
    let at = find(told, b" runs the graft at point ")?.min(told.len());
    let graft = &told[at..];
    if word_at(graft, 6) == point && word_at(graft, 9) == process {
        Some(&told[..at])
    } else {
        None
    }
}

/// What a line tells of an instruction of this process and level, from its number on.
fn instruction_of<'a>(line: &'a [u8], runner: &[u8]) -> Option<&'a [u8]> {
    let told = line.strip_prefix(b"| ".as_slice())?;
    let told = told.strip_prefix(runner)?;
    told.strip_prefix(b", instruction ".as_slice())
}

/// The number and the place of an instruction that is told as `3: line 5: ret`.
fn parted(told: &[u8]) -> (&[u8], &[u8]) {
    let number = match Parts::new(told, b':').next() {
        Some(number) => number,
        None => told,
    };
    (number, behind(told, b": "))
}

/// How often this place is told of this process and level since it last began to run this graft, up
/// to this line.
fn count_of(watched: &[u8], dropped: &[u8], graft: (&[u8], &[u8]), place: &[u8]) -> u32 {
    let mut count: u32 = 0;
    let mut level: &[u8] = &[];
    let mut lines = Parts::new(watched, b'\n');
    while let Some(line) = lines.next() {
        if line == dropped {
            return count;
        }
        if let Some(found) = runner(line, graft.0, graft.1) {
            level = found;
            count = 0;
        }
        if !level.is_empty() {
            if let Some(told) = instruction_of(line, level) {
                if parted(told).1 == place {
                    count = count.saturating_add(1);
                }
            }
        }
    }
    count
}

/// Where the graft stood that a written line says was dropped, in a watched run.
pub fn standing_of<'a>(watched: &'a [u8], dropped: &[u8]) -> Option<Standing<'a>> {
    let (process, point) = (word_at(dropped, 2), word_at(dropped, 3));
    let mut last: Option<&'a [u8]> = None;
    let mut level: &[u8] = &[];
    let mut lines = Parts::new(watched, b'\n');
    while let Some(line) = lines.next() {
        if line == dropped {
            let (number, place) = parted(last?);
            let count = count_of(watched, dropped, (process, point), place);
            return Some(Standing {
                number,
                place,
                count,
            });
        }
        if let Some(found) = runner(line, process, point) {
            level = found;
            last = None;
        }
        if !level.is_empty() {
            if let Some(told) = instruction_of(line, level) {
                last = Some(told);
            }
        }
    }
    None
}
