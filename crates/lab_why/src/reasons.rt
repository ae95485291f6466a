//! The lines of an event, and why each was written.

use crate::standing::standing_of;
use kernel_data::NoMemory;
use lab_hints::Hints;
use lab_words::{Code, DropCode, Form, form_of, sentence_of, words_of};
use std::alloc::Global;
use text_words::{Parts, append, append_number, number_of, word_at};

/// A run: what it wrote, and the same with what its grafts did, as a watched run tells it.
#[derive(Clone, Copy)]
pub struct Run<'a> {
    pub written: &'a [u8],
    pub watched: &'a [u8],
}

/// Appends a sentence on a line of its own.
fn add_sentence(out: &mut Vec<u8>, sentence: &[u8]) -> Result<(), NoMemory> {
    append(out, b"  ")?;
    append(out, sentence)?;
    append(out, b"\n")
}

/// Appends where a dropped graft stood, and how often.
fn add_standing(out: &mut Vec<u8>, run: Run, line: &[u8]) -> Result<(), NoMemory> {
    let Some(standing) = standing_of(run.watched, line) else {
        return Ok(());
    };
    append(out, b"  It stood at ")?;
    append(out, standing.place)?;
    append(out, b"\n  That was instruction ")?;
    append(out, standing.number)?;
    append(out, b" of its call, which came there ")?;
    if standing.count < 2 {
        return append(out, b"once.\n");
    }
    append_number(out, standing.count)?;
    append(out, b" times.\n")
}

/// Appends that a dropped graft wasn't dropped for its limit, where the line that set it is known.
fn add_not_limit(out: &mut Vec<u8>, run: Run, hints: &Hints, line: &[u8]) -> Result<(), NoMemory> {
    let Some(standing) = standing_of(run.watched, line) else {
        return Ok(());
    };
    let (number, text) = hints.installed(line);
    let Some(limit) = number_of(word_at(text, 4)) else {
        return Ok(());
    };
    append(out, b"  Not its limit: of ")?;
    append_number(out, limit)?;
    append(out, b" instructions (line ")?;
    append_number(out, u32::try_from(number).unwrap_or(u32::MAX))?;
    append(out, b") it had taken ")?;
    append(out, standing.number)?;
    append(out, b".\n")
}

/// Appends what is said of a dropped graft, of which this is left unsaid.
fn add_drop(
    out: &mut Vec<u8>,
    run: Run,
    hints: &Hints,
    code: DropCode,
    line: &[u8],
    hint: &[u8],
) -> Result<(), NoMemory> {
    add_standing(out, run, line)?;
    match code {
        DropCode::SpentSteps => {
            if hint.starts_with(b"the limit") {
                return add_sentence(out, b"Not its pay: there were steps left.");
            }
            add_not_limit(out, run, hints, line)
        }
        DropCode::TimeOut => {
            add_sentence(
                out,
                b"Not its code: it was taken out for what it held or waited for.",
            )
        }
        _ => {
            add_sentence(out, words_of(Code::Drop(code)).cause.as_bytes())?;
            add_not_limit(out, run, hints, line)
        }
    }
}

/// Appends the line of the script that asked for an event.
fn add_asked(out: &mut Vec<u8>, hints: &Hints, line: &[u8]) -> Result<(), NoMemory> {
    let (number, text) = hints.asked(line);
    append(out, b"  Asked by line ")?;
    append_number(out, u32::try_from(number).unwrap_or(u32::MAX))?;
    append(out, b": ")?;
    append(out, &text[..text.len().min(80)])?;
    append(out, b"\n")
}

/// Appends what is said of a line behind its sentence, by its form.
fn add_reason(
    out: &mut Vec<u8>,
    run: Run,
    hints: &Hints,
    form: Form,
    line: &[u8],
    hint: &[u8],
) -> Result<(), NoMemory> {
    match form {
        Form::Coded(Code::Drop(code)) => add_drop(out, run, hints, code, line, hint),
        Form::Coded(Code::Call(code)) => {
            add_asked(out, hints, line)?;
            add_sentence(out, words_of(Code::Call(code)).cause.as_bytes())
        }
        Form::Coded(Code::Image(code)) => {
            add_asked(out, hints, line)?;
            add_sentence(out, words_of(Code::Image(code)).cause.as_bytes())
        }
        Form::Waits => {
            add_asked(out, hints, line)?;
            add_sentence(
                out,
                b"It goes on when that process's call has ended, or what it holds is dropped: after 10 \
                  ticks, unless `patience` says another number.",
            )
        }
        _ => add_asked(out, hints, line),
    }
}

/// Appends a line and why it was written.
fn add_line(
    alloc: Global,
    out: &mut Vec<u8>,
    run: Run,
    hints: &Hints,
    line: &[u8],
    hint: &[u8],
) -> Result<(), NoMemory> {
    append(out, line)?;
    append(out, b"\n")?;
    if let Some(sentence) = sentence_of(alloc, line)? {
        add_sentence(out, sentence.as_slice())?;
    }
    if !hint.is_empty() {
        add_sentence(out, hint)?;
    }
    match form_of(line) {
        Some(form) => add_reason(out, run, hints, form, line, hint),
        None => Ok(()),
    }
}

/// Why each line was written that begins with the number of this event; empty where there is none.
pub fn why(alloc: Global, run: Run, hints: &mut Hints, event: u32) -> Result<Vec<u8>, NoMemory> {
    let mut out = Vec::new(alloc);
    let mut lines = Parts::new(run.written, b'\n');
    while let Some(line) = lines.next() {
        let hint = hints.hint(alloc, line, run.written)?;
        if number_of(word_at(line, 0)) == Some(event) {
            add_line(alloc, &mut out, run, hints, line, hint.as_slice())?;
        }
    }
    Ok(out)
}
