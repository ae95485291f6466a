//! The sentence that tells of a fault.

use crate::grafted::{
    compiler, known_names, label_not_set, label_twice, mnemonic, open_graft, unboxed,
};
use crate::operands::{Wrong, check_statement};
use kernel_data::NoMemory;
use lab_likeness::most_like;
use lab_places::{
    Span, bytes_of, code_end, column_of, line_at, line_of, next_part, next_word, word_span,
};
use lab_reader::{AsmKind, LabFault, LabKind};
use lab_words::{Code, text_of, words_of};
use std::alloc::Global;
use text_words::append;

/// A fault in words: its line, where in the line, and what is said.
#[derive(Drop)]
pub struct Sentence {
    pub line: usize,
    pub at: usize,
    pub text: Vec<u8>,
}

/// A file and a line of it.
#[derive(Clone, Copy)]
pub struct Spot<'a> {
    pub text: &'a [u8],
    pub n: usize,
    pub line: &'a [u8],
}

/// A sentence of a place of the file.
pub fn at_place(file: &[u8], place: usize, text: Vec<u8>) -> Sentence {
    let (line, from) = line_of(file, place);
    Sentence {
        line,
        at: place.saturating_sub(from),
        text,
    }
}

/// Appends a word in quotes.
pub fn add_quoted(out: &mut Vec<u8>, word: &[u8]) -> Result<(), NoMemory> {
    append(out, b"'")?;
    append(out, word)?;
    append(out, b"'")
}

/// Appends a number.
pub fn add_number(out: &mut Vec<u8>, n: usize) -> Result<(), NoMemory> {
    let mut digits = itoa::Buffer::new();
    append(out, digits.format(n).as_bytes())
}

/// The first byte of a line that isn't a space.
fn first_of(line: &[u8]) -> usize {
    match next_word(line, 0, line.len()) {
        Some(word) => word.from,
        None => 0,
    }
}

/// Where word k of a line stands, or the place behind its last word.
pub fn place_of_word(line: &[u8], k: usize) -> Span {
    match word_span(line, 0, code_end(line), k) {
        Some(word) => word,
        None => {
            let end = end_of(line);
            Span { from: end, to: end }
        }
    }
}

/// The place behind the last word of a line.
pub fn end_of(line: &[u8]) -> usize {
    let end = code_end(line);
    let mut at = 0;
    for _ in 0..line.len() {
        match next_word(line, at, end) {
            Some(word) => at = word.to,
            None => return at,
        }
    }
    at
}

/// The first statement of a line in which something is wrong by itself.
fn wrong_in(line: &[u8]) -> Option<Wrong> {
    let end = code_end(line);
    let mut from = 0;
    for _ in 0..line.len() {
        let part = next_part(line, from, end);
        if let Some(wrong) = check_statement(line, part.from, part.to) {
            return Some(wrong);
        }
        from = part.to.saturating_add(1);
    }
    None
}

/// Appends what is wrong with a word.
fn add_wrong(out: &mut Vec<u8>, line: &[u8], wrong: Wrong) -> Result<(), NoMemory> {
    if wrong.named {
        add_quoted(out, bytes_of(line, wrong.span))?;
        append(out, b" ")?;
    }
    append(out, wrong.said.as_bytes())?;
    append(out, b" (")?;
    append(out, wrong.hint.as_bytes())?;
    append(out, b")")
}

/// Appends a code, a colon and a space.
pub fn add_code(out: &mut Vec<u8>, code: Code) -> Result<(), NoMemory> {
    append(out, text_of(code))?;
    append(out, b": ")
}

/// What is said of a line that the assembler or the compiler refuses, where no word is to blame.
pub fn coded(alloc: Global, spot: Spot, code: Code) -> Result<Sentence, NoMemory> {
    let mut text = Vec::new(alloc);
    add_code(&mut text, code)?;
    append(&mut text, words_of(code).meaning.as_bytes())?;
    Ok(Sentence {
        line: spot.n,
        at: first_of(spot.line),
        text,
    })
}

/// What is said of a word of a line that the assembler refuses.
fn blamed(alloc: Global, spot: Spot, kind: AsmKind, wrong: Wrong) -> Result<Sentence, NoMemory> {
    let mut text = Vec::new(alloc);
    add_code(&mut text, Code::Assembler(kind))?;
    if !mnemonic(alloc, &mut text, spot, wrong)? {
        add_wrong(&mut text, spot.line, wrong)?;
    }
    Ok(Sentence {
        line: spot.n,
        at: wrong.span.from,
        text,
    })
}

/// What is said of a line that the assembler refuses.
fn assembler(alloc: Global, spot: Spot, kind: AsmKind) -> Result<Sentence, NoMemory> {
    match kind {
        AsmKind::UnknownMnemonic | AsmKind::BadOperands | AsmKind::BadData => {
            match wrong_in(spot.line) {
                None => coded(alloc, spot, Code::Assembler(kind)),
                Some(wrong) => blamed(alloc, spot, kind, wrong),
            }
        }
        AsmKind::LabelNotSet => label_not_set(alloc, spot),
        AsmKind::LabelSetTwice => label_twice(alloc, spot),
        AsmKind::TooManyInstructions => coded(alloc, spot, Code::Assembler(kind)),
    }
}

/// Which word of a line is to blame, from 0, and what is said.
fn said_of(kind: LabKind) -> (usize, &'static str) {
    match kind {
        LabKind::BadGraft => (
            2,
            "after `graft` comes a name, then perhaps `language` for the graft language, then perhaps \
             `keep` for a segment that is kept",
        ),
        LabKind::BadName => (
            1,
            "isn't a name: a letter a to z, then letters, digits and _, up to 16 bytes",
        ),
        LabKind::NameIsHex => (1, "could be the hex digits of an image; take another name"),
        LabKind::GraftTwice => (1, "is the name of a graft above"),
        LabKind::LongGraft => (1, "has more than 16777216 bytes of text"),
        LabKind::NoEnd => (0, "begins here and has no `end`"),
        LabKind::StrayEnd => (0, "is outside of a graft"),
        LabKind::UnknownGraft => (2, "isn't a graft above or the hex digits of an image"),
        LabKind::BadSlot => (1, "isn't a slot: slots are 0 to 31"),
        LabKind::SlotTwice => (1, "is a slot that has the image of a graft already"),
        LabKind::BadKey => (
            1,
            "isn't a key: 64 hex digits, or two keys with a comma between them",
        ),
        LabKind::KeyTwice => (0, "is there twice"),
        LabKind::KeyLate => (0, "comes after an image that it seals; move it up"),
        LabKind::BadDisk => (1, "isn't one file: `disk FILE`"),
        LabKind::DiskTwice => (0, "is there twice"),
        LabKind::BadFails => (2, "isn't a list of calls: `fail disk 3,7`"),
        LabKind::FailsTwice => (
            0,
            "is there twice; name all calls in one line, as `fail disk 3,7`",
        ),
        LabKind::FailsOnFile => (
            0,
            "`fail disk` is for the disk in memory, and not beside `disk FILE`",
        ),
        LabKind::EmptyWant => (0, "nothing follows `=`"),
        LabKind::StrayWant => (
            0,
            "a wanted line comes after a line of the script, or below it",
        ),
        LabKind::BoxTooLong => (
            2,
            "has more than 1024 instructions once it is put into its sandbox",
        ),
        _ => (0, "is refused"),
    }
}

/// Whether word k of a line is this one.
fn is_word(line: &[u8], k: usize, word: &[u8]) -> bool {
    bytes_of(line, place_of_word(line, k)) == word
}

/// Which word of a line that begins a graft is to blame: the first behind the name that isn't one
/// of those that may stand there.
fn blamed_of_graft(line: &[u8]) -> usize {
    let mut k = 2;
    if is_word(line, k, b"language") {
        k += 1;
    }
    if is_word(line, k, b"keep") {
        k += 1;
    }
    k
}

/// Whether the word that is to blame is named in front of what is said.
fn names_word(kind: LabKind) -> bool {
    !matches!(
        kind,
        LabKind::BadGraft | LabKind::FailsOnFile | LabKind::EmptyWant | LabKind::StrayWant
    )
}

/// What is said of another line.
fn plain(alloc: Global, spot: Spot, kind: LabKind) -> Result<Sentence, NoMemory> {
    let (k, said) = said_of(kind);
    let word = match kind {
        LabKind::BadGraft => place_of_word(spot.line, blamed_of_graft(spot.line)),
        _ => place_of_word(spot.line, k),
    };
    let mut text = Vec::new(alloc);
    if names_word(kind) {
        add_quoted(&mut text, bytes_of(spot.line, word))?;
        append(&mut text, b" ")?;
    }
    append(&mut text, said.as_bytes())?;
    Ok(Sentence {
        line: spot.n,
        at: word.from,
        text,
    })
}

/// What is said of an image of a graft that there isn't, and of which graft may be meant.
fn unknown_graft(alloc: Global, spot: Spot) -> Result<Sentence, NoMemory> {
    let mut said = plain(alloc, spot, LabKind::UnknownGraft)?;
    let names = known_names(alloc, spot)?;
    let word = bytes_of(spot.line, place_of_word(spot.line, 2));
    if let Some(i) = most_like(alloc, word, names.as_slice())? {
        append(&mut said.text, b"; did you mean '")?;
        append(&mut said.text, names[i].as_bytes())?;
        append(&mut said.text, b"'?")?;
    }
    Ok(said)
}

/// What is said of a line that is refused for this.
fn sentence_of(alloc: Global, spot: Spot, kind: LabKind) -> Result<Sentence, NoMemory> {
    match kind {
        LabKind::Asm(kind) => assembler(alloc, spot, kind),
        LabKind::Lang(kind) => compiler(alloc, spot, kind),
        LabKind::BoxRegister(_) | LabKind::BoxJump(_) | LabKind::BoxCall(_) | LabKind::BoxEnd => {
            unboxed(alloc, spot, kind)
        }
        LabKind::UnknownGraft => unknown_graft(alloc, spot),
        LabKind::NoEnd => {
            let mut said = plain(alloc, spot, kind)?;
            open_graft(alloc, &mut said.text, spot)?;
            Ok(said)
        }
        other => plain(alloc, spot, other),
    }
}

/// Appends what a byte order mark does, where a file begins with one.
fn add_mark(out: &mut Vec<u8>, text: &[u8]) -> Result<(), NoMemory> {
    if text.starts_with(b"\xef\xbb\xbf") {
        append(
            out,
            b" (the file begins with a byte order mark: save it without one)",
        )?;
    }
    Ok(())
}

/// Appends the line, and below it a caret under the place.
fn add_caret(out: &mut Vec<u8>, line: &[u8], at: usize) -> Result<(), NoMemory> {
    let shown = match line {
        [front @ .., b'\r'] => front,
        _ => line,
    };
    append(out, shown)?;
    append(out, b"\n")?;
    for byte in &line[..at.min(line.len())] {
        if *byte == b'\t' {
            append(out, b"\t")?;
        } else if *byte & 0xc0 != 0x80 {
            append(out, b" ")?;
        }
    }
    append(out, b"^\n")
}

/// Appends `FILE:LINE:COLUMN: SENTENCE`, the line and a caret.
fn add_place(out: &mut Vec<u8>, file: &[u8], text: &[u8], said: &Sentence) -> Result<(), NoMemory> {
    let line = line_at(text, said.line);
    append(out, file)?;
    append(out, b":")?;
    add_number(out, said.line)?;
    append(out, b":")?;
    add_number(out, column_of(line, said.at))?;
    append(out, b": ")?;
    append(out, said.text.as_slice())?;
    append(out, b"\n")?;
    add_caret(out, line, said.at)
}

/// Why a file with this name and text is refused: `FILE:LINE:COLUMN: SENTENCE`, the line, and a
/// caret below it; or a sentence alone of the whole file.
pub fn tell_fault(
    alloc: Global,
    file: &[u8],
    text: &[u8],
    fault: LabFault,
) -> Result<Vec<u8>, NoMemory> {
    let mut out = Vec::new(alloc);
    match fault {
        LabFault::NoMemory => return Err(NoMemory),
        LabFault::TooLong => {
            append(&mut out, file)?;
            append(&mut out, b": the file has more than 16777216 bytes\n")?;
        }
        LabFault::NotUtf8(at) => {
            let (n, from) = line_of(text, at);
            append(&mut out, file)?;
            append(&mut out, b":")?;
            add_number(&mut out, n)?;
            append(&mut out, b":")?;
            add_number(&mut out, at.saturating_sub(from).saturating_add(1))?;
            append(
                &mut out,
                b": the file isn't UTF-8 from this byte of the line on\n",
            )?;
        }
        LabFault::At(n, kind) => {
            let line = line_at(text, n);
            let mut said = sentence_of(alloc, Spot { text, n, line }, kind)?;
            add_mark(&mut said.text, text)?;
            add_place(&mut out, file, text, &said)?;
        }
    }
    Ok(out)
}

/// Tells of word k of a line of a file, counted from 0, or of the place behind its last word:
/// `FILE:LINE:COLUMN: CODE: SENTENCE`, the line, and a caret below it.
pub fn tell_word(
    alloc: Global,
    file: &[u8],
    text: &[u8],
    n: usize,
    k: usize,
    code: Code,
    sentence: &[u8],
) -> Result<Vec<u8>, NoMemory> {
    let line = line_at(text, n);
    let mut said = Vec::new(alloc);
    add_code(&mut said, code)?;
    append(&mut said, words_of(code).meaning.as_bytes())?;
    if !sentence.is_empty() {
        append(&mut said, b": ")?;
        append(&mut said, sentence)?;
    }
    let said = Sentence {
        line: n,
        at: place_of_word(line, k).from,
        text: said,
    };
    let mut out = Vec::new(alloc);
    add_place(&mut out, file, text, &said)?;
    Ok(out)
}
