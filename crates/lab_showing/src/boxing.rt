//! `lab box`.

use box_rewriter::{BoxedCode, rewrite};
use gm_asm::disassemble;
use gm_isa::{Instr, access_mask};
use kernel_data::NoMemory;
use lab_files::{NO_MEMORY, Opened, REFUSED, open, write_error, write_out};
use lab_lowering::{RawImage, place_of};
use std::alloc::Global;
use text_words::{Parts, append};

/// Shows the code of a graft, raw and boxed: the status.
pub fn show_box(rt: &HostRuntime, path: &str, name: &str) -> u8 {
    match open(rt, path) {
        Err(status) => status,
        Ok(opened) => show_graft(rt, &opened, name),
    }
}

fn show_graft(rt: &HostRuntime, opened: &Opened, name: &str) -> u8 {
    let lowered = &opened.lowered;
    match place_of(name.as_bytes(), lowered.lab.grafts()) {
        Some(graft) => match lowered.images.as_slice().get(graft) {
            Some(image) => show_image(rt, image.plain()),
            None => NO_MEMORY,
        },
        None => {
            write_error(rt, b"lab: there is no graft '");
            write_error(rt, name.as_bytes());
            write_error(rt, b"' in the file\n");
            REFUSED
        }
    }
}

fn show_image(rt: &HostRuntime, image: &RawImage) -> u8 {
    match rewrite(rt.alloc(), image) {
        Ok(boxed) => match side_by_side(rt.alloc(), image, &boxed) {
            Ok(text) => write_out(rt, text.as_slice(), 0),
            Err(_) => NO_MEMORY,
        },
        Err(fault) => {
            let _ = eprintln!(rt; "the graft can't be put into its sandbox: {fault}");
            REFUSED
        }
    }
}

fn add_number(out: &mut Vec<u8>, n: usize) -> Result<(), NoMemory> {
    let mut digits = itoa::Buffer::new();
    append(out, digits.format(n).as_bytes())
}

/// Appends spaces, so that the line that begins at `from` has so many bytes.
fn pad(out: &mut Vec<u8>, from: usize, width: usize) -> Result<(), NoMemory> {
    let taken = out.len().saturating_sub(from);
    for _ in taken..width {
        append(out, b" ")?;
    }
    Ok(())
}

/// The text of boxed code.
fn boxed_text(alloc: Global, boxed: &BoxedCode) -> Result<Vec<u8>, NoMemory> {
    let Ok(code) = Vec::from_slice(alloc, boxed.code()) else {
        return Err(NoMemory);
    };
    let Ok(body) = Vec::from_slice(alloc, boxed.body()) else {
        return Err(NoMemory);
    };
    disassemble(alloc, &RawImage::new(code, body))
}

/// Appends a line of boxed code with its number, and moves on by one.
fn add_boxed(out: &mut Vec<u8>, lines: &mut Parts, number: usize) -> Result<usize, NoMemory> {
    add_number_right(out, number)?;
    append(out, b"  ")?;
    append(out, lines.next().unwrap_or(b"".as_slice()))?;
    append(out, b"\n")?;
    Ok(number.saturating_add(1))
}

/// Appends a number of at most four digits, set to the right.
fn add_number_right(out: &mut Vec<u8>, n: usize) -> Result<(), NoMemory> {
    if n < 1000 {
        append(out, b" ")?;
    }
    if n < 100 {
        append(out, b" ")?;
    }
    if n < 10 {
        append(out, b" ")?;
    }
    add_number(out, n)
}

/// The width of the column of raw code.
const COLUMN: usize = 32;

/// Appends an instruction of raw code, and beside it what it became in boxed code, from this number
/// on; the number behind it. An access becomes three instructions, of which two mask its address.
fn add_both(
    out: &mut Vec<u8>,
    pc: usize,
    instr: &Instr,
    raw: &mut Parts,
    boxed: &mut Parts,
    number: usize,
) -> Result<usize, NoMemory> {
    let from = out.len();
    add_number_right(out, pc)?;
    append(out, b"  ")?;
    append(out, raw.next().unwrap_or(b"".as_slice()))?;
    pad(out, from, COLUMN)?;
    let mut number = add_boxed(out, boxed, number)?;
    if access_mask(instr.op).is_some() {
        for _ in 0..2 {
            let from = out.len();
            pad(out, from, COLUMN)?;
            number = add_boxed(out, boxed, number)?;
        }
    }
    Ok(number)
}

/// Raw and boxed code side by side, with the numbers of instructions.
fn side_by_side(alloc: Global, image: &RawImage, boxed: &BoxedCode) -> Result<Vec<u8>, NoMemory> {
    let raw = disassemble(alloc, image)?;
    let text = boxed_text(alloc, boxed)?;
    let mut raw = Parts::new(raw.as_slice(), b'\n');
    let mut lines = Parts::new(text.as_slice(), b'\n');
    let mut out = Vec::new(alloc);
    let mut number = 0;
    for (pc, instr) in image.code().iter().enumerate() {
        number = add_both(&mut out, pc, instr, &mut raw, &mut lines, number)?;
    }
    add_number(&mut out, image.code().len())?;
    append(&mut out, b" instructions, in the sandbox ")?;
    add_number(&mut out, boxed.code().len())?;
    append(&mut out, b"; data bytes ")?;
    add_number(&mut out, image.body().len())?;
    append(&mut out, b"\n")?;
    Ok(out)
}
