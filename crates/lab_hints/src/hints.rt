//! What a written line leaves unsaid.

use crate::asked::Asked;
use crate::calls::{tell_file, tell_point, tell_range};
use crate::causes::{Cause, is_spent};
use crate::numbers::{add_number, number_at};
use kernel_data::NoMemory;
use lab_words::{CallCode, Code, Form, form_of};
use std::alloc::Global;
use text_words::{Parts, append, word_at};

/// What is known of a run beside its lines: its script, whether its disk is the sample one, and why
/// its grafts had no step left, in the order of their drops.
#[derive(Drop)]
pub struct Hints<'a> {
    asked: Asked<'a>,
    is_sample: bool,
    causes: &'a [Cause],
    /// How many of the causes were told.
    told: usize,
}

impl<'a> Hints<'a> {
    /// Hints for the lines of a run of this script.
    pub fn new(
        alloc: Global,
        script: &'a [u8],
        is_sample: bool,
        causes: &'a [Cause],
    ) -> Result<Hints<'a>, NoMemory> {
        Ok(Hints {
            asked: Asked::new(alloc, script)?,
            is_sample,
            causes,
            told: 0,
        })
    }

    /// What a line leaves unsaid that was written with these others, the lines being taken in their
    /// order; empty where it leaves nothing.
    pub fn hint(&mut self, alloc: Global, line: &[u8], others: &[u8]) -> Result<Vec<u8>, NoMemory> {
        let mut out = Vec::new(alloc);
        match form_of(line) {
            Some(Form::Coded(Code::Call(code))) => self.tell_call(&mut out, code, line)?,
            Some(Form::Ran) if word_at(line, 2) == b"0".as_slice() => {
                self.tell_none(&mut out, line, others)?;
            }
            _ => {
                if is_spent(line) {
                    self.tell_spent(&mut out, line)?;
                }
            }
        }
        Ok(out)
    }

    /// The line of the script that made the call of a written line.
    fn asked_by(&self, line: &[u8]) -> &'a [u8] {
        self.asked(line).1
    }

    /// The line of the script that is the event of a written line, with its number.
    pub fn asked(&self, line: &[u8]) -> (usize, &'a [u8]) {
        let event = number_at(line, 0).unwrap_or(0) as usize;
        let number = self.asked.line_of(event);
        (number, self.asked.line(number))
    }

    /// The last line of the script that installs a graft where a written line says that one was
    /// dropped, with its number.
    pub fn installed(&self, line: &[u8]) -> (usize, &'a [u8]) {
        let number = self.asked.last_with([
            b"install".as_slice(),
            word_at(line, 2),
            word_at(line, 3),
        ]);
        (number, self.asked.line(number))
    }

    /// A refused call.
    fn tell_call(&self, out: &mut Vec<u8>, code: CallCode, line: &[u8]) -> Result<(), NoMemory> {
        let asked = self.asked_by(line);
        match code {
            CallCode::BadPoint => tell_point(out, asked),
            CallCode::BadIndex => tell_range(out, asked),
            CallCode::NoFile => tell_file(out, asked, self.is_sample),
            _ => Ok(()),
        }
    }

    /// Steps that took up no instruction.
    fn tell_none(&self, out: &mut Vec<u8>, line: &[u8], others: &[u8]) -> Result<(), NoMemory> {
        let process = word_at(self.asked_by(line), 1);
        if waits_among(others) {
            append(out, b"the call of process ")?;
            append(out, process)?;
            return append(out, b" waits");
        }
        append(out, b"no call of process ")?;
        append(out, process)?;
        append(
            out,
            b" runs a graft: `step` names the process whose call asks it",
        )
    }

    /// A graft that had no step left.
    fn tell_spent(&mut self, out: &mut Vec<u8>, line: &[u8]) -> Result<(), NoMemory> {
        let cause = match self.causes.get(self.told) {
            Some(cause) => *cause,
            None => Cause::Unseen,
        };
        self.told = self.told.saturating_add(1);
        match cause {
            Cause::Unseen => Ok(()),
            Cause::Limit(limit) => self.tell_limit(out, line, limit),
            Cause::Account => {
                append(out, b"it is billed, and the account of process ")?;
                append(out, word_at(line, 2))?;
                append(out, b" has no steps")
            }
            Cause::Unpaid => {
                append(out, b"it isn't billed and has no steps: `bill ")?;
                append(out, word_at(line, 2))?;
                append(out, b" ")?;
                append(out, word_at(line, 3))?;
                append(out, b"` or `fund`")
            }
        }
    }

    /// A graft that took as many instructions as its limit.
    fn tell_limit(&self, out: &mut Vec<u8>, line: &[u8], limit: u32) -> Result<(), NoMemory> {
        append(out, b"the limit of ")?;
        add_number(out, limit as usize)?;
        append(out, b" instructions is reached")?;
        let (number, _) = self.installed(line);
        if number == 0 {
            return Ok(());
        }
        append(out, b" (line ")?;
        add_number(out, number)?;
        append(out, b")")
    }
}

/// Whether one of these lines says that a call waits.
fn waits_among(lines: &[u8]) -> bool {
    let mut parts = Parts::new(lines, b'\n');
    while let Some(line) = parts.next() {
        if word_at(line, 1) == b"waits".as_slice() {
            return true;
        }
    }
    false
}
