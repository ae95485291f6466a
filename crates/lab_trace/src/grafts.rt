//! The code of the grafts of a lab file: where each instruction was written, and what it became in
//! the sandbox.

use crate::language::language_lines;
use box_rewriter::rewrite;
use gm_asm::disassemble;
use gm_isa::{Instr, access_mask};
use kernel_data::NoMemory;
use lab_lowering::{Graft, GraftImage, Lowered, Notation, RawImage};
use std::alloc::Global;
use text_words::{Parts, put};

/// The code of a graft.
#[derive(Drop)]
pub struct GraftCode {
    /// The line of the file that wrote each instruction; none where they aren't known.
    pub lines: Vec<usize>,
    /// For each instruction in the sandbox the written one that it is a part of.
    pub of: Vec<usize>,
    /// The texts of the instructions as they were written, each with its newline.
    pub plain: Vec<u8>,
    /// The same of those in the sandbox; none where the code can't be put into it.
    pub boxed: Vec<u8>,
}

/// Whether a line of assembler text is an instruction.
fn is_instruction(line: &[u8]) -> bool {
    !line.is_empty() && line[0] != b'#' && line[0] != b'.' && line[line.len() - 1] != b':'
}

/// The lines of the file that wrote the instructions of a graft in assembler text.
fn assembler_lines(alloc: Global, graft: &Graft) -> Result<Vec<usize>, NoMemory> {
    let mut lines = Vec::new(alloc);
    let mut texts = Parts::new(graft.text(), b'\n');
    for number in graft.lines() {
        if let Some(text) = texts.next() {
            if is_instruction(text) {
                put(&mut lines, *number)?;
            }
        }
    }
    Ok(lines)
}

/// For each instruction in the sandbox the written one that it is a part of: each access became
/// three.
fn parts_of(alloc: Global, code: &[Instr]) -> Result<Vec<usize>, NoMemory> {
    let mut of = Vec::new(alloc);
    for (i, instr) in code.iter().enumerate() {
        put(&mut of, i)?;
        if access_mask(instr.op).is_some() {
            put(&mut of, i)?;
            put(&mut of, i)?;
        }
    }
    Ok(of)
}

/// The texts of the instructions of an image in the sandbox.
fn boxed_texts(alloc: Global, image: &RawImage) -> Result<Vec<u8>, NoMemory> {
    let Ok(boxed) = rewrite(alloc, image) else {
        return Ok(Vec::new(alloc));
    };
    let Ok(code) = Vec::from_slice(alloc, boxed.code()) else {
        return Err(NoMemory);
    };
    disassemble(alloc, &RawImage::new(code, Vec::new(alloc)))
}

/// The code of a graft.
fn code_of(alloc: Global, graft: &Graft, image: &GraftImage) -> Result<GraftCode, NoMemory> {
    let plain = image.plain();
    let lines = match graft.notation() {
        Notation::Assembler => assembler_lines(alloc, graft)?,
        Notation::Language => language_lines(alloc, graft, plain.code().len())?,
    };
    Ok(GraftCode {
        lines,
        of: parts_of(alloc, plain.code())?,
        plain: disassemble(alloc, plain)?,
        boxed: boxed_texts(alloc, plain)?,
    })
}

/// The code of each graft of a lab file, in their order.
pub fn codes_of(alloc: Global, lowered: &Lowered) -> Result<Vec<GraftCode>, NoMemory> {
    let mut codes = Vec::new(alloc);
    for (i, graft) in lowered.lab.grafts().iter().enumerate() {
        if let Some(image) = lowered.images.as_slice().get(i) {
            put(&mut codes, code_of(alloc, graft, image)?)?;
        }
    }
    Ok(codes)
}

impl GraftCode {
    /// The line of the file that wrote an instruction, which stands at a place of the code that
    /// runs: of that in the sandbox, or as it was written.
    pub fn line_at(&self, place: u32, raw: bool) -> Option<usize> {
        let written = if raw {
            place as usize
        } else {
            *self.of.as_slice().get(place as usize)?
        };
        match self.lines.as_slice().get(written) {
            Some(line) => Some(*line),
            None => None,
        }
    }
}
