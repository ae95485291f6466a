//! `lab why`.

use kernel_data::NoMemory;
use lab_files::{
    NO_MEMORY, Opened, REFUSED, open, run_lab, spare_disk, spent_causes, status_of, tell_lab,
    write_out, wrong_words,
};
use lab_lines::Hints;
use lab_why::{Run, why};
use text_words::number_of;

/// Says why the lines of an event of a lab file's run were written: the status.
pub fn why_event(rt: &HostRuntime, path: &str, event: &str) -> u8 {
    match number_of(event.as_bytes()) {
        None => wrong_words(rt, "why"),
        Some(event) => match open(rt, path) {
            Err(status) => status,
            Ok(opened) => why_opened(rt, opened, event).unwrap_or(NO_MEMORY),
        },
    }
}

/// The spare disk is made first, since a run changes its disk.
fn why_opened(rt: &HostRuntime, mut opened: Opened, event: u32) -> Result<u8, NoMemory> {
    let alloc = rt.alloc();
    let spare = spare_disk(rt, &opened.lowered)?;
    let ran = run_lab(rt, &opened.lowered, None)?;
    let is_sample = opened.lowered.lab.settings().disk().is_none();
    let watched = tell_lab(alloc, &opened.lowered, &ran, spare)?;
    let causes = spent_causes(rt, &mut opened.lowered, &ran, is_sample)?;
    let script = opened.lowered.script.as_slice();
    let mut hints = Hints::new(alloc, script, is_sample, causes.as_slice())?;
    let run = Run {
        written: ran.lines.bytes(),
        watched: watched.as_slice(),
    };
    let text = why(alloc, run, &mut hints, event)?;
    if text.is_empty() {
        let _ = eprintln!(rt; "lab: event {event} wrote no line");
        return Ok(REFUSED);
    }
    Ok(write_out(rt, text.as_slice(), status_of(&ran)))
}
