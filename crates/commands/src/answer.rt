//! What a filter answers: a status, and the bytes to write.

ghost use Rattle.std.specs.Prelude.{◌≡◌, ◌≤◌, ◌++◌, length, codes, is_some, true, IfOk, OnOk};
ghost use Rattle.script_model.specs.Outcome.{SCRIPT_BYTES};
ghost use Rattle.script_model.specs.Filters as spec;
ghost use Rattle.script_model.specs.Text.{line};
ghost use Rattle.script_model.specs.Bytes.{spaced};
ghost use Rattle.graft_loader.specs.Faults.{refusal_of, fault_text};

use crate::text::{add, add_spaced};
use graft_loader::{FaultCode, Keys, LoadFault};
use script_model::NoMemory;
use std::alloc::Global;
use std::marker::Model;

/// What is asked of the input.
#[derive(Clone, Copy)]
pub(crate) enum Filter {
    /// A raw image is boxed and sealed under the last key, as one that keeps the segments of its
    /// grafts or doesn't.
    Box(Keys, bool),
    /// A sealed image is loaded under its key.
    Check(Keys),
    /// A sealed image is sealed anew under the last key.
    Reseal(Keys),
    /// A text is assembled.
    Asm,
    /// A raw image is disassembled.
    Dis,
    /// A text of the graft language is compiled.
    Lang,
    /// A claim of what a script writes is compared with what it writes, under these keys.
    Audit(Keys),
}

/// A status, and the bytes to write.
#[derive(Drop)]
pub(crate) struct Answer {
    status: u8,
    text: Vec<u8>,
}

impl Model for Answer {
    ghost use Rattle.script_model.specs.Filters as spec;

    ghost Value = { spec.Answer };

    ghost view = { λ a. record { status = a.status; written = a.text.items } };
}

impl Answer {
    /// An answer of this status, with these bytes.
    pub(crate) fn new(status: u8, text: Vec<u8>) -> Answer
        ensures { result ≡ spec.answer status text.items }
    {
        Answer { status, text }
    }

    /// An answer of this status, with a line of this text.
    pub(crate) fn line(status: u8, mut text: Vec<u8>) -> Result<Answer, NoMemory>
        ensures { IfOk result (λ a. a ≡ spec.answer status (line text.items)) }
    {
        match text.push(b'\n') {
            Ok(()) => Ok(Answer { status, text }),
            Err(_) => Err(NoMemory),
        }
    }

    /// An answer of this status, with a line of this text.
    pub(crate) fn refusal(alloc: Global, status: u8, text: &[u8]) -> Result<Answer, NoMemory>
        ensures { IfOk result (λ a. a ≡ spec.answer status (line text.now)) }
    {
        match Vec::from_slice(alloc, text) {
            Ok(text) => Answer::line(status, text),
            Err(_) => Err(NoMemory),
        }
    }

    /// An answer of this status, with a line of this text, a space and a number.
    pub(crate) fn refusal_at(
        alloc: Global,
        status: u8,
        text: &[u8],
        place: u32,
    ) -> Result<Answer, NoMemory>
        ensures { IfOk result (λ a. a ≡ spec.answer status (line (text.now ++ spaced place))) }
    {
        let mut line = Vec::new(alloc);
        add(&mut line, text)?;
        add_spaced(&mut line, place)?;
        Answer::line(status, line)
    }

    /// The answer to a sealed image that is refused: the code of the fault, and its place.
    pub(crate) fn unloaded(alloc: Global, fault: LoadFault) -> Result<Answer, NoMemory>
        ensures value { IfOk result (λ a. a ≡ spec.answer 6 (line (fault_text fault))) }
        ensures some { OnOk result (is_some (refusal_of fault) ≡ true) }
    {
        match fault.code() {
            None => Err(NoMemory),
            Some(FaultCode { text, place: None }) => Answer::refusal(alloc, 6, text),
            Some(
                FaultCode {
                    text,
                    place: Some(pc),
                },
            ) => Answer::refusal_at(alloc, 6, text, pc),
        }
    }

    /// The answer to a text of which a line is refused: the word, the line and the code of the
    /// refusal.
    pub(crate) fn refused_line(
        alloc: Global,
        word: &[u8],
        number: u32,
        code: &[u8],
    ) -> Result<Answer, NoMemory>
        ensures { IfOk result (λ a. a ≡ spec.answer 2
            (line (word.now ++ spaced number ++ codes " " ++ code.now))) }
    {
        let mut text = Vec::new(alloc);
        add(&mut text, word)?;
        add_spaced(&mut text, number)?;
        add(&mut text, b" ")?;
        add(&mut text, code)?;
        Answer::line(2, text)
    }

    /// The status.
    pub(crate) fn status(&self) -> u8
        ensures { result ≡ self.now.status }
    {
        self.status
    }

    /// The bytes to write.
    pub(crate) fn text(&self) -> &[u8]
        ensures { result.now ≡ self.now.written }
    {
        self.text.as_slice()
    }
}
