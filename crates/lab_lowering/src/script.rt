//! The script of a lab file.

ghost use Rattle.std.specs.Prelude.{◌≡◌, ◌≤◌, [], true, length, Ok, IfOk, IfErr, OnOk};
ghost use Rattle.std.specs.List.{list_all};
ghost use Rattle.script_model.specs.Bytes.{hex_text};
ghost use Rattle.script_model.specs.Instructions.{fits};
ghost use Rattle.script_model.specs.Boxed.{rewrite};
ghost use Rattle.script_model.specs.Images.{sealed_under};
ghost use Rattle.lab_reader.specs.Faults.{Refuses, StepsAs};
ghost use Rattle.lab_lowering.specs.Lowering as spec;

use crate::images::GraftImage;
use box_rewriter::{BoxedCode, RewriteFault, rewrite};
use gm_image::Instr;
use graft_loader::{Keys, read_keys, seal_under};
use lab_reader::{Item, Lab, LabFault, LabKind};
use script_model::NoMemory;
use std::alloc::Global;
use text_words::append;

/// The bytes of an image with this code in place of its own, sealed.
fn sealed(
    alloc: Global,
    keys: &Keys,
    code: &[Instr],
    image: &GraftImage,
) -> Result<Vec<u8>, NoMemory>
    requires code_len { length code.now ≤ 1024 }
    requires code_fits { list_all fits code.now ≡ true }
    ensures { IfOk result (λ bytes. bytes.items
        ≡ sealed_under keys.now (spec.with_code image.now code.now)) }
{
    seal_under(alloc, keys, image.keep(), code, image.body())
}

/// Appends the line that loads an image, which is sealed, into a slot.
fn add_image(alloc: Global, out: &mut Vec<u8>, slot: u32, sealed: &[u8]) -> Result<(), NoMemory>
    ensures { OnOk result (out.new.items ≡ spec.line_added out.old.items
        (spec.load_line slot sealed.now)) }
{
    let mut digits = itoa::Buffer::new();
    let hex = hex_of(alloc, sealed)?;
    append(out, b"image ")?;
    append(out, digits.format(slot).as_bytes())?;
    append(out, b" ")?;
    append(out, hex.as_slice())?;
    append(out, b"\n")
}

/// The hex digits of bytes, in lower case.
fn hex_of(alloc: Global, bytes: &[u8]) -> Result<Vec<u8>, NoMemory>
    ensures { IfOk result (λ digits. digits.items ≡ hex_text bytes.now) }
{
    match hex::encode(alloc, bytes) {
        Ok(digits) => Ok(digits.into_bytes()),
        Err(_) => Err(NoMemory),
    }
}

/// Appends the line of an image as it stands.
#[tactic(auto, unfolding(crate::specs::Lowering::image_line))]
fn add_raw(
    alloc: Global,
    out: &mut Vec<u8>,
    keys: &Keys,
    slot: u32,
    image: &GraftImage,
) -> Result<(), NoMemory>
    ensures { OnOk result (out.new.items ≡ spec.line_added out.old.items
        (spec.image_line keys.now slot image.now)) }
{
    let bytes = sealed(alloc, keys, image.code(), image)?;
    add_image(alloc, out, slot, bytes.as_slice())
}

/// Appends the line of an image with boxed code in place of its own.
#[tactic(auto, unfolding(crate::specs::Lowering::image_line))]
fn add_boxed_code(
    alloc: Global,
    out: &mut Vec<u8>,
    keys: &Keys,
    slot: u32,
    boxed: &BoxedCode,
    image: &GraftImage,
) -> Result<(), NoMemory>
    ensures { OnOk result (out.new.items ≡ spec.line_added out.old.items
        (spec.image_line keys.now slot (spec.with_code image.now boxed.now.code))) }
{
    let bytes = sealed(alloc, keys, boxed.code(), image)?;
    add_image(alloc, out, slot, bytes.as_slice())
}

/// Appends the line of an image that is boxed first, which line n of the file asks for.
fn add_boxed(
    alloc: Global,
    out: &mut Vec<u8>,
    n: usize,
    keys: &Keys,
    slot: u32,
    image: &GraftImage,
) -> Result<(), LabFault>
    ensures { StepsAs result out.new.items (spec.with_line n out.old.items
        (spec.boxed_line keys.now slot image.now (rewrite image.now.code))) }
{
    match rewrite(alloc, image.plain()) {
        Ok(boxed) => Ok(add_boxed_code(alloc, out, keys, slot, &boxed, image)?),
        Err(RewriteFault::Register(pc)) => Err(LabFault::At(n, LabKind::BoxRegister(pc))),
        Err(RewriteFault::Jump(pc)) => Err(LabFault::At(n, LabKind::BoxJump(pc))),
        Err(RewriteFault::Call(pc)) => Err(LabFault::At(n, LabKind::BoxCall(pc))),
        Err(RewriteFault::End) => Err(LabFault::At(n, LabKind::BoxEnd)),
        Err(RewriteFault::TooLarge) => Err(LabFault::At(n, LabKind::BoxTooLong)),
        Err(RewriteFault::NoMemory) => Err(LabFault::NoMemory),
    }
}

/// Appends a line as it stands.
fn add_plain(out: &mut Vec<u8>, text: &[u8]) -> Result<(), NoMemory>
    ensures { OnOk result (out.new.items ≡ spec.line_added out.old.items text.now) }
{
    append(out, text)?;
    append(out, b"\n")
}

/// Appends the line of the script that line n of the file becomes.
fn add_item(
    alloc: Global,
    out: &mut Vec<u8>,
    n: usize,
    keys: &Keys,
    images: &[GraftImage],
    item: &Item,
) -> Result<(), LabFault>
    ensures { StepsAs result out.new.items
        (spec.with_line n out.old.items (spec.item_line keys.now images.now item.now)) }
{
    match item {
        Item::Plain(text) => Ok(add_plain(out, text.bytes())?),
        Item::Sealed { slot, graft, raw } => match images.get(*graft) {
            None => Err(LabFault::At(n, LabKind::UnknownGraft)),
            Some(image) if *raw => Ok(add_raw(alloc, out, keys, *slot, image)?),
            Some(image) => add_boxed(alloc, out, n, keys, *slot, image),
        },
    }
}

/// The script of these items under keys.
fn script_under(
    alloc: Global,
    keys: &Keys,
    images: &[GraftImage],
    items: &[Item],
) -> Result<Vec<u8>, LabFault>
    ensures ok { IfOk result
        (λ script. spec.script_after 1 keys.now images.now [] items.now ≡ Ok script.items) }
    ensures err { IfErr result
        (λ e. Refuses e (spec.script_after 1 keys.now images.now [] items.now)) }
{
    let mut script = Vec::new(alloc);
    for (i, item) in items.iter().enumerate() {
        if let Err(fault) = add_item(alloc, &mut script, i + 1, keys, images, item) {
            return Err(fault);
        }
    }
    Ok(script)
}

/// The script of a lab file whose grafts have these images.
pub fn script_of(alloc: Global, lab: &Lab, images: &[GraftImage]) -> Result<Vec<u8>, LabFault>
    ensures ok { IfOk result (λ script. spec.script_of lab.now images.now ≡ Ok script.items) }
    ensures err { IfErr result (λ e. Refuses e (spec.script_of lab.now images.now)) }
{
    match read_keys(lab.settings().word()) {
        None => Err(LabFault::At(0, LabKind::BadKey)),
        Some(keys) => script_under(alloc, &keys, images, lab.sheet().items()),
    }
}
