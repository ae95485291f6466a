//! The head of a trace.

use crate::grafts::GraftCode;
use crate::language::append_variables;
use crate::values::{append_maybe, append_truth};
use accessor_list::name_of;
use kernel_data::NoMemory;
use lab_lowering::{Graft, GraftImage, Lowered, Notation};
use lab_state::{append_hex, append_quoted};
use std::alloc::Global;
use text_words::{Parts, append, append_with};

/// How many callables there are.
const CALLABLES: u32 = 16;

/// A number, as far as 32 bits go.
pub fn count_of(n: usize) -> u32 {
    u32::try_from(n).unwrap_or(u32::MAX)
}

/// The last part of a file's name.
fn last_part(name: &[u8]) -> &[u8] {
    let mut parts = Parts::new(name, b'/');
    let mut last = name;
    while let Some(part) = parts.next() {
        last = part;
    }
    last
}

/// A text without the newline at its end, if it has one.
fn without_newline(text: &[u8]) -> &[u8] {
    match text.split_last() {
        Some((last, rest)) if *last == b'\n' => rest,
        _ => text,
    }
}

/// Appends the lines of a file, each as a string, with commas between them.
fn append_lines(out: &mut Vec<u8>, text: &[u8]) -> Result<(), NoMemory> {
    if text.is_empty() {
        return Ok(());
    }
    let mut lines = Parts::new(without_newline(text), b'\n');
    let mut is_first = true;
    while let Some(line) = lines.next() {
        if !is_first {
            append(out, b",")?;
        }
        is_first = false;
        append_quoted(out, line)?;
    }
    Ok(())
}

/// Appends an instruction as it was written, with its line.
fn append_plain(out: &mut Vec<u8>, text: &[u8], line: Option<u32>) -> Result<(), NoMemory> {
    append(out, b"{\"text\":")?;
    append_quoted(out, text)?;
    append(out, b",\"line\":")?;
    append_maybe(out, line)?;
    append(out, b"}")
}

/// Appends the instructions of a graft as they were written.
fn append_plains(out: &mut Vec<u8>, code: &GraftCode, count: usize) -> Result<(), NoMemory> {
    let mut texts = Parts::new(code.plain.as_slice(), b'\n');
    for i in 0..count {
        if i > 0 {
            append(out, b",")?;
        }
        let line = match code.lines.as_slice().get(i) {
            Some(line) => Some(count_of(*line)),
            None => None,
        };
        append_plain(out, texts.next().unwrap_or(b"".as_slice()), line)?;
    }
    Ok(())
}

/// Appends the instructions of a graft in the sandbox.
fn append_boxed(out: &mut Vec<u8>, code: &GraftCode) -> Result<(), NoMemory> {
    if code.boxed.is_empty() {
        return Ok(());
    }
    let mut texts = Parts::new(code.boxed.as_slice(), b'\n');
    for (i, of) in code.of.iter().enumerate() {
        if i > 0 {
            append(out, b",")?;
        }
        append(out, b"{\"text\":")?;
        append_quoted(out, texts.next().unwrap_or(b"".as_slice()))?;
        append_with(out, b",\"of\":", count_of(*of))?;
        append(out, b"}")?;
    }
    Ok(())
}

/// Appends what a graft is: its name, what it is written in, whether it keeps its segment, and its
/// first line.
fn append_graft_head(out: &mut Vec<u8>, graft: &Graft) -> Result<(), NoMemory> {
    append(out, b"{\"name\":")?;
    append_quoted(out, graft.name())?;
    append(
        out,
        match graft.notation() {
            Notation::Assembler => b",\"notation\":\"assembler\",\"keeps\":".as_slice(),
            Notation::Language => b",\"notation\":\"language\",\"keeps\":".as_slice(),
        },
    )?;
    append_truth(out, graft.keep())?;
    append_with(out, b",\"line\":", count_of(graft.begun()))
}

/// Appends a graft.
fn append_graft(
    alloc: Global,
    out: &mut Vec<u8>,
    graft: &Graft,
    image: &GraftImage,
    code: &GraftCode,
) -> Result<(), NoMemory> {
    append_graft_head(out, graft)?;
    append(out, b",\"plain\":[")?;
    append_plains(out, code, image.plain().code().len())?;
    append(out, b"],\"boxed\":[")?;
    append_boxed(out, code)?;
    append(out, b"],\"data\":\"")?;
    append_hex(out, image.plain().body())?;
    append(out, b"\",\"variables\":[")?;
    if graft.notation() == Notation::Language {
        append_variables(alloc, out, graft)?;
    }
    append(out, b"]}")
}

/// Appends the grafts of a lab file.
fn append_grafts(
    alloc: Global,
    out: &mut Vec<u8>,
    lowered: &Lowered,
    codes: &[GraftCode],
) -> Result<(), NoMemory> {
    for (i, graft) in lowered.lab.grafts().iter().enumerate() {
        if let (Some(image), Some(code)) = (lowered.images.as_slice().get(i), codes.get(i)) {
            if i > 0 {
                append(out, b",")?;
            }
            append_graft(alloc, out, graft, image, code)?;
        }
    }
    Ok(())
}

/// Appends the names of the callables, in the order of their ids.
fn append_callables(out: &mut Vec<u8>) -> Result<(), NoMemory> {
    for id in 0..CALLABLES {
        if id > 0 {
            append(out, b",")?;
        }
        append_quoted(out, name_of(id).unwrap_or("").as_bytes())?;
    }
    Ok(())
}

/// The head of the trace of a lab file with this name and these bytes, as a line.
pub fn head_of(
    alloc: Global,
    lowered: &Lowered,
    codes: &[GraftCode],
    name: &[u8],
    text: &[u8],
) -> Result<Vec<u8>, NoMemory> {
    let mut out = Vec::new(alloc);
    append(
        &mut out,
        b"{\"format\":\"vino-trace\",\"version\":1,\"file\":",
    )?;
    append_quoted(&mut out, last_part(name))?;
    append(&mut out, b",\"lines\":[")?;
    append_lines(&mut out, text)?;
    append(&mut out, b"],\"callables\":[")?;
    append_callables(&mut out)?;
    append(&mut out, b"],\"grafts\":[")?;
    append_grafts(alloc, &mut out, lowered, codes)?;
    append(&mut out, b"]}\n")?;
    Ok(out)
}
