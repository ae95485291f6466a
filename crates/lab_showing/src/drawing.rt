//! `lab picture`.

use kernel_data::NoMemory;
use lab_files::{
    ALL_EVENTS, NO_MEMORY, Opened, REFUSED, open, run_lab, status_of, tell_refused, write_error,
    write_out, wrong_range, wrong_words,
};
use lab_lines::{Piece, pieces_of};
use lab_lowering::{Item, Lab, Lowered};
use lab_picture::{Chosen, PictureFault, Reader, admitted, draw, slow_script};
use lab_watch::Ran;
use std::alloc::Global;
use text_words::{Parts, append, append_with, number_of, part_at, put};

/// A line of the script that loads an image which the file names: its number, and how the file says
/// it.
#[derive(Drop)]
struct Named {
    line: usize,
    text: Vec<u8>,
}

/// How the file says a line that loads an image.
fn image_said(
    alloc: Global,
    lab: &Lab,
    slot: u32,
    graft: usize,
    raw: bool,
) -> Result<Vec<u8>, NoMemory> {
    let mut text = Vec::new(alloc);
    append_with(&mut text, b"image ", slot)?;
    append(&mut text, b" ")?;
    if let Some(graft) = lab.grafts().get(graft) {
        append(&mut text, graft.name())?;
    }
    if raw {
        append(&mut text, b" raw")?;
    }
    Ok(text)
}

/// The lines that load images which the file names.
fn named_lines(alloc: Global, lab: &Lab) -> Result<Vec<Named>, NoMemory> {
    let mut named = Vec::new(alloc);
    for (i, item) in lab.sheet().items().iter().enumerate() {
        if let Item::Sealed { slot, graft, raw } = item {
            let text = image_said(alloc, lab, *slot, *graft, *raw)?;
            let line = i.saturating_add(1);
            put(&mut named, Named { line, text })?;
        }
    }
    Ok(named)
}

/// How the file says a line of the script.
fn said_of<'a>(named: &'a [Named], number: usize, line: &'a [u8]) -> &'a [u8] {
    for name in named {
        if name.line == number {
            return name.text.as_slice();
        }
    }
    line
}

/// The title of a picture: the name of the file, and the remark of its first line.
fn title_of(alloc: Global, path: &str, text: &[u8]) -> Result<Vec<u8>, NoMemory> {
    let mut title = Vec::new(alloc);
    let mut parts = Parts::new(path.as_bytes(), b'/');
    let mut name = path.as_bytes();
    while let Some(part) = parts.next() {
        name = part;
    }
    append(&mut title, name)?;
    let mut words = Parts::new(part_at(part_at(text, b'\n', 0), b'#', 1), b' ');
    let mut is_first = true;
    while let Some(word) = words.next() {
        if !word.is_empty() {
            append(
                &mut title,
                if is_first {
                    b": ".as_slice()
                } else {
                    b" ".as_slice()
                },
            )?;
            append(&mut title, word)?;
            is_first = false;
        }
    }
    Ok(title)
}

/// A run of a script, or of its slow script.
#[derive(Clone, Copy)]
struct Told<'a> {
    script: &'a [u8],
    ran: &'a Ran,
    is_slow: bool,
}

/// Reads the pieces that the lines up to a line of the script wrote, from a place on: the next place.
fn add_pieces<'a>(
    reader: &mut Reader<'a>,
    pieces: &[Piece<'a>],
    from: usize,
    end: usize,
) -> Result<usize, NoMemory> {
    let mut next = from;
    for _ in from..pieces.len() {
        match pieces.get(next) {
            Some(piece) if piece.owner != 0 && piece.owner <= end => {
                reader.add(piece.bytes)?;
                next = next.saturating_add(1);
            }
            _ => return Ok(next),
        }
    }
    Ok(next)
}

/// Reads a run of a script: its chosen events.
fn read_run<'a>(
    alloc: Global,
    script: &'a [u8],
    named: &'a [Named],
    told: Told<'a>,
    chosen: Chosen,
) -> Result<Reader<'a>, NoMemory> {
    let pieces = pieces_of(alloc, told.script, &told.ran.lines)?;
    let mut reader = Reader::new(alloc, chosen, told.is_slow);
    let mut lines = Parts::new(script, b'\n');
    let mut number: usize = 0;
    let mut end: usize = 0;
    let mut next = 0;
    while let Some(line) = lines.next() {
        number = number.saturating_add(1);
        let count = reader.begin(line, said_of(named, number, line))?;
        end = end.saturating_add(count as usize);
        next = add_pieces(&mut reader, &pieces, next, end)?;
    }
    Ok(reader)
}

/// What a picture is made of: the script, the lines of it that the file names otherwise, the chosen
/// events, and the title.
#[derive(Clone, Copy)]
struct Frame<'a> {
    script: &'a [u8],
    named: &'a [Named],
    chosen: Chosen,
    title: &'a [u8],
}

/// The picture of a run.
fn draw_run(alloc: Global, frame: &Frame, told: Told) -> Result<Vec<u8>, NoMemory> {
    let reader = read_run(alloc, frame.script, frame.named, told, frame.chosen)?;
    let mut chosen = frame.chosen;
    chosen.last = chosen.last.min(reader.last());
    let story = reader.finish()?;
    draw(alloc, &story, chosen, frame.title)
}

/// The picture of the chosen events of a run that is made once more, slowly, which shows what each
/// drop puts back; and the status, which is that of the first run, or of want of memory.
fn drawn_slowly(
    rt: &HostRuntime,
    lowered: &mut Lowered,
    named: &[Named],
    chosen: Chosen,
    title: &[u8],
    status: u8,
) -> Result<(Vec<u8>, u8), PictureFault> {
    let slow = slow_script(rt.alloc(), lowered.script.as_slice(), chosen)?;
    let script = std::mem::replace(&mut lowered.script, slow);
    let ran = run_lab(rt, lowered, None)?;
    let frame = Frame {
        script: &script,
        named,
        chosen,
        title,
    };
    let told = Told {
        script: lowered.script.as_slice(),
        ran: &ran,
        is_slow: true,
    };
    let svg = draw_run(rt.alloc(), &frame, told)?;
    let is_short = status_of(&ran) == NO_MEMORY;
    Ok((svg, if is_short { NO_MEMORY } else { status }))
}

/// The picture of a lab file's run, and the status. The run is made once as it is, and once more
/// slowly; but not where the disk is a file, which a run changes.
fn drawn(
    rt: &HostRuntime,
    path: &str,
    mut opened: Opened,
    asked: Chosen,
) -> Result<(Vec<u8>, u8), PictureFault> {
    let alloc = rt.alloc();
    let chosen = admitted(opened.lowered.script.as_slice(), asked)?;
    let title = title_of(alloc, path, opened.text.as_slice())?;
    let named = named_lines(alloc, &opened.lowered.lab)?;
    opened.lowered.lab.forget_lines(alloc);
    let ran = run_lab(rt, &opened.lowered, None)?;
    let status = status_of(&ran);
    if status == REFUSED {
        tell_refused(rt, path, &opened, ran.lines.bytes())?;
    }
    if opened.lowered.lab.settings().disk().is_none() {
        drop(ran);
        opened.text = Vec::new(alloc);
        return drawn_slowly(rt, &mut opened.lowered, &named, chosen, &title, status);
    }
    let script = opened.lowered.script.as_slice();
    let frame = Frame {
        script,
        named: &named,
        chosen,
        title: &title,
    };
    let told = Told {
        script,
        ran: &ran,
        is_slow: false,
    };
    Ok((draw_run(alloc, &frame, told)?, status))
}

/// Writes the picture of the chosen events of a lab file's run: the status, which is that of the run.
fn picture_of(rt: &HostRuntime, path: &str, chosen: Chosen) -> u8 {
    match open(rt, path) {
        Err(status) => status,
        Ok(opened) => match drawn(rt, path, opened, chosen) {
            Ok((svg, status)) => write_out(rt, svg.as_slice(), status),
            Err(PictureFault::NoMemory) => NO_MEMORY,
            Err(PictureFault::TooMany(_)) => {
                write_error(
                    rt,
                    b"lab: a picture shows at most 2,000 events; choose them with --from and --to\n",
                );
                REFUSED
            }
        },
    }
}

/// What `lab picture` is asked: the file, and the events.
fn asked(words: &[String]) -> Option<(&str, Chosen)> {
    let mut path = None;
    let mut chosen = ALL_EVENTS;
    let mut rest = words;
    while let [word, others @ ..] = rest {
        rest = others;
        match (word.as_str(), rest) {
            ("--from", [number, others @ ..]) => {
                chosen.first = number_of(number.as_bytes())?;
                rest = others;
            }
            ("--to", [number, others @ ..]) => {
                chosen.last = number_of(number.as_bytes())?;
                rest = others;
            }
            (name, _) if path.is_none() && !name.starts_with("--") => path = Some(name),
            _ => return None,
        }
    }
    match path {
        Some(path) => Some((path, chosen)),
        None => None,
    }
}

/// `lab picture FILE [--from N] [--to N]`, with the words behind it: the status.
pub fn picture(rt: &HostRuntime, words: &[String]) -> u8 {
    match asked(words) {
        Some((_, chosen)) if chosen.first > chosen.last => wrong_range(rt),
        Some((path, chosen)) => picture_of(rt, path, chosen),
        None => wrong_words(rt, "picture"),
    }
}
