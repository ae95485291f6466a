//! The images of grafts.

ghost use Rattle.std.specs.Prelude.{◌≡◌, ◌≤◌, None, true, length, Ok, IfOk, IfErr, OnOk};
ghost use Rattle.std.specs.List.{list_all};
ghost use Rattle.script_model.specs.Instructions.{fits};
ghost use Rattle.lab_reader.specs.Faults.{RefusesWith};
ghost use Rattle.script_model.specs.Assembler as asm;
ghost use Rattle.script_model.specs.LanguageReading as language;
ghost use Rattle.script_model.specs.LanguageImages.{IsCompiled};
ghost use Rattle.lab_lowering.specs.Lowering as spec;

use gm_asm::{AsmFault, assemble};
use gm_image::{Instr, RawImage};
use graft_lang::{LangFault, compile};
use lab_reader::{Graft, LabFault, LabKind, Notation};
use std::alloc::Global;
use std::marker::Model;
use text_words::put;

/// The most bytes of a text.
pub(crate) const TEXT_BYTES: usize = 16_777_216;

/// The image of a graft as it stands, before it is sealed.
#[derive(Drop)]
pub struct GraftImage {
    plain: RawImage,
    keep: bool,
}

impl Model for GraftImage {
    ghost use Rattle.script_model.specs.World.{Image};

    ghost Value = { Image };

    ghost view = { λ i. record { code = i.plain.code; body = i.plain.body; keep = i.keep } };
}

impl GraftImage {
    /// The image of this code and data, as one that keeps the segments of its grafts or doesn't.
    fn new(plain: RawImage, keep: bool) -> GraftImage
        ensures { result ≡ record { code = plain.code; body = plain.body; keep = keep } }
    {
        GraftImage { plain, keep }
    }

    /// Its code and data.
    pub fn plain(&self) -> &RawImage
        ensures code { result.now.code ≡ self.now.code }
        ensures body { result.now.body ≡ self.now.body }
    {
        &self.plain
    }

    /// The instructions.
    pub fn code(&self) -> &[Instr]
        ensures code { result.now ≡ self.now.code }
        ensures code_len { length result.now ≤ 1024 }
        ensures code_fits { list_all fits result.now ≡ true }
    {
        self.plain.code()
    }

    /// The data bytes.
    pub fn body(&self) -> &[u8]
        ensures body { result.now ≡ self.now.body }
        ensures body_len { length result.now ≤ 4096 }
    {
        self.plain.body()
    }

    /// Whether its grafts keep their segments from one completed call to the next.
    pub fn keep(&self) -> bool
        ensures { result ≡ self.now.keep }
    {
        self.keep
    }
}

/// The line of the file that line n of a graft's text comes from, n from 1.
fn file_line(graft: &Graft, n: u32) -> usize
    ensures { result ≡ spec.file_line graft.now n }
{
    match graft.lines().get(n.saturating_sub(1) as usize) {
        Some(line) => *line,
        None => graft.begun(),
    }
}

/// The image of a graft in assembler text.
fn assembled(alloc: Global, graft: &Graft) -> Result<RawImage, LabFault>
    requires { length graft.now.text ≤ 16_777_216 }
    ensures ok { IfOk result (λ image. asm.assemble graft.now.text ≡ Ok image) }
    ensures err { IfErr result (λ e. RefusesWith e
        (spec.asm_refusal graft.now (asm.assemble graft.now.text))) }
{
    match assemble(alloc, graft.text()) {
        Ok(image) => Ok(image),
        Err(AsmFault::At(line, kind)) => {
            Err(LabFault::At(file_line(graft, line), LabKind::Asm(kind)))
        }
        Err(AsmFault::NoMemory) => Err(LabFault::NoMemory),
    }
}

/// The image of a graft in the graft language.
fn compiled(alloc: Global, graft: &Graft) -> Result<RawImage, LabFault>
    requires { length graft.now.text ≤ 16_777_216 }
    ensures ok { IfOk result (λ image. IsCompiled graft.now.text image) }
    ensures err { IfErr result (λ e. RefusesWith e
        (spec.language_refusal graft.now (language.read graft.now.text))) }
{
    match compile(alloc, graft.text()) {
        Ok(image) => Ok(image),
        Err(LangFault::At(line, kind)) => {
            Err(LabFault::At(file_line(graft, line), LabKind::Lang(kind)))
        }
        Err(LangFault::NoMemory) => Err(LabFault::NoMemory),
    }
}

/// The image of a graft's text.
fn plain_image(alloc: Global, graft: &Graft) -> Result<RawImage, LabFault>
    ensures ok { IfOk result
        (λ image. spec.IsWritten graft.now.notation graft.now.text image) }
    ensures taken { OnOk result (spec.graft_refusal graft.now ≡ None) }
    ensures err { IfErr result (λ e. RefusesWith e (spec.graft_refusal graft.now)) }
{
    if graft.text().len() > TEXT_BYTES {
        return Err(LabFault::At(graft.begun(), LabKind::LongGraft));
    }
    match graft.notation() {
        Notation::Assembler => assembled(alloc, graft),
        Notation::Language => compiled(alloc, graft),
    }
}

/// The image of a graft, as one that keeps where the graft does.
fn image_of(alloc: Global, graft: &Graft) -> Result<GraftImage, LabFault>
    ensures ok { IfOk result (λ image. spec.IsImageOf graft.now image) }
    ensures taken { OnOk result (spec.graft_refusal graft.now ≡ None) }
    ensures err { IfErr result (λ e. RefusesWith e (spec.graft_refusal graft.now)) }
{
    let image = plain_image(alloc, graft)?;
    Ok(GraftImage::new(image, graft.keep()))
}

/// The images of grafts, or the first of them that is refused.
pub fn images_of(alloc: Global, grafts: &[Graft]) -> Result<Vec<GraftImage>, LabFault>
    ensures ok { IfOk result (λ images. spec.AreImagesOf grafts.now images.items) }
    ensures err { IfErr result (λ e. RefusesWith e (spec.grafts_refusal grafts.now)) }
{
    let mut images = Vec::new(alloc);
    for graft in grafts {
        let image = image_of(alloc, graft)?;
        put(&mut images, image)?;
    }
    Ok(images)
}
