//! Which instruction stands where, and which line of the lab file wrote it.

ghost use Rattle.std.specs.Prelude.{◌≡◌, ◌++◌, [], true, cond, nat_lt, length, codes, slice_get, OnOk, IfOk};
ghost use Rattle.std.specs.List.{list_all};
ghost use Rattle.std.specs.Option.{option_map_or};
ghost use Rattle.script_model.specs.Instructions.{fits};
ghost use Rattle.lab_levels.specs.Written as written;

use crate::outside::append_numbered;
use crate::own_lines::count_of;
use gm_asm::disassemble;
use gm_isa::{Instr, access_mask};
use graft_loader::Loaded;
use lab_lowering::{Graft, Lowered, Notation, RawImage};
use script_model::NoMemory;
use std::alloc::Global;
use text_words::{Parts, append};

/// The graft that a slot's image was made of, and whether it was sealed as it stands.
#[derive(Clone, Copy)]
pub struct Origin {
    /// The number of the graft in the file.
    pub graft: usize,
    /// Whether it was sealed as it stands, and not boxed first.
    pub raw: bool,
}

/// The number of the instruction as it was written, of which an instruction of boxed code is a
/// part: each access became three.
fn written_place(code: &[Instr], boxed: usize) -> usize
    ensures { result ≡ written.written_place code.now boxed }
{
    let mut behind: usize = 0;
    for (i, instr) in code.iter().enumerate() {
        let width = if access_mask(instr.op).is_some() {
            3
        } else {
            1
        };
        behind = behind.saturating_add(width);
        if boxed < behind {
            return i;
        }
    }
    code.len()
}

/// Whether a line of assembler text is an instruction.
fn is_instruction(line: &[u8]) -> bool
    ensures { result ≡ written.is_instruction line.now }
{
    !line.is_empty() && line[0] != b'#' && line[0] != b'.' && line[line.len() - 1] != b':'
}

#[tactic(auto, unfolding(crate::specs::Written::numbered_line))]
/// Appends a line behind its number.
fn append_line(out: &mut Vec<u8>, number: usize, line: &[u8]) -> Result<(), NoMemory>
    ensures { OnOk result (out.new.items ≡ out.old.items ++ written.numbered_line number line.now) }
{
    append_numbered(out, b"line ", count_of(number))?;
    append(out, b": ")?;
    append(out, line)
}

/// Appends the line of the file with the k-th instruction of a graft, and that instruction as it
/// was written.
fn append_written(out: &mut Vec<u8>, graft: &Graft, k: usize) -> Result<(), NoMemory>
    ensures { OnOk result (out.new.items
        ≡ out.old.items ++ written.written_said graft.now.lines graft.now.text k) }
{
    let mut lines = Parts::new(graft.text(), b'\n');
    let mut count: usize = 0;
    for number in graft.lines() {
        let Some(line) = lines.next() else {
            return Ok(());
        };
        if is_instruction(line) {
            if count == k {
                append_line(out, *number, line)?;
                return Ok(());
            }
            count += 1;
        }
    }
    Ok(())
}

#[tactic(auto, unfolding(crate::specs::Written::text_said))]
/// Appends the text of an instruction.
fn append_text(alloc: Global, out: &mut Vec<u8>, instr: Instr) -> Result<(), NoMemory>
    requires { fits instr ≡ true }
    ensures { OnOk result (out.new.items ≡ out.old.items ++ written.text_said instr) }
{
    let Ok(code) = Vec::from_slice(alloc, &[instr]) else {
        return Err(NoMemory);
    };
    let text = disassemble(alloc, &RawImage::new(code, Vec::new(alloc)))?;
    append(
        out,
        Parts::new(text.as_slice(), b'\n')
            .next()
            .unwrap_or(b"".as_slice()),
    )
}

/// The number of an instruction as it was written.
fn written_of(code: &[Instr], origin: Origin, place: usize) -> usize
    ensures { result ≡ written.place_of code.now origin.raw place }
{
    if origin.raw {
        place
    } else {
        written_place(code, place)
    }
}

/// Appends where an instruction was written. Whether more is to be told: how it runs, since it is
/// one of those that an access became, or its text, since nothing was appended.
fn append_origin(
    out: &mut Vec<u8>,
    lowered: &Lowered,
    origin: Origin,
    place: usize,
) -> Result<bool, NoMemory>
    ensures said { OnOk result (out.new.items ≡ out.old.items ++ written.origin_said
        (written.source_of lowered.now.images.items lowered.now.lab.grafts (Some origin)) place) }
    ensures is_more { IfOk result (λ more. more ≡ written.is_more
        (written.source_of lowered.now.images.items lowered.now.lab.grafts (Some origin)) place) }
{
    let (Some(image), Some(graft)) = (
        lowered.images.as_slice().get(origin.graft),
        lowered.lab.grafts().get(origin.graft),
    ) else {
        return Ok(true);
    };
    if graft.notation() == Notation::Language {
        return Ok(true);
    }
    let code = image.plain().code();
    let k = written_of(code, origin, place);
    append_written(out, graft, k)?;
    match code.get(k) {
        Some(instr) => Ok(!origin.raw && access_mask(instr.op).is_some()),
        None => Ok(true),
    }
}

/// Appends where an instruction was written, if its origin is known. Whether more is to be told.
fn append_source(
    out: &mut Vec<u8>,
    lowered: &Lowered,
    origin: Option<Origin>,
    place: usize,
) -> Result<bool, NoMemory>
    ensures said { OnOk result (out.new.items ≡ out.old.items ++ written.origin_said
        (written.source_of lowered.now.images.items lowered.now.lab.grafts origin) place) }
    ensures is_more { IfOk result (λ more. more ≡ written.is_more
        (written.source_of lowered.now.images.items lowered.now.lab.grafts origin) place) }
{
    match origin {
        Some(origin) => append_origin(out, lowered, origin, place),
        None => Ok(true),
    }
}

/// Appends the words between an instruction as it was written and as it runs, if something stands
/// behind this place.
fn append_as(out: &mut Vec<u8>, from: usize) -> Result<(), NoMemory>
    ensures text { OnOk result (out.new.items
        ≡ out.old.items ++ cond (nat_lt from (length out.old.items)) (codes "  as ") []) }
{
    if out.len() > from {
        return append(out, b"  as ");
    }
    Ok(())
}

#[tactic(auto, using(crate::proofs::Fitting::get_passes))]
/// Appends the text of the instruction at a place.
fn append_text_at(
    alloc: Global,
    out: &mut Vec<u8>,
    code: &[Instr],
    place: usize,
) -> Result<(), NoMemory>
    requires { list_all fits code.now ≡ true }
    ensures text { OnOk result (out.new.items
        ≡ out.old.items ++ option_map_or written.text_said (slice_get code.now place) []) }
{
    match code.get(place) {
        Some(instr) => append_text(alloc, out, *instr),
        None => Ok(()),
    }
}

/// Appends an instruction of an image: where it was written, if that is known, and else its text;
/// both for a part of an access.
pub fn append_instruction(
    alloc: Global,
    out: &mut Vec<u8>,
    lowered: &Lowered,
    origin: Option<Origin>,
    image: &Loaded,
    place: usize,
) -> Result<(), NoMemory>
    ensures { OnOk result (out.new.items ≡ out.old.items ++ written.instruction_said
        (written.source_of lowered.now.images.items lowered.now.lab.grafts origin)
        image.now.code place) }
{
    let from = out.len();
    let more = append_source(out, lowered, origin, place)?;
    if !more {
        return Ok(());
    }
    append_as(out, from)?;
    append_text_at(alloc, out, image.code().code(), place)?;
    Ok(())
}
