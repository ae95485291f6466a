//! Lab files: a script with grafts, images and wanted lines, and the plain script that it stands
//! for (docs/LAB.md).
#![tactic(auto)]

ghost use Rattle.std.specs.Prelude.{◌≡◌, ◌≤◌, length, Ok, IfOk, IfErr};
ghost use Rattle.lab_reader.specs.Faults.{ReadsAs, Refuses};
ghost use Rattle.lab_reader.specs.Lab.{lab_of};
ghost use Rattle.lab_lowering.specs.Lowering as spec;

mod images;
mod script;

pub use crate::images::GraftImage;
use crate::images::{TEXT_BYTES, images_of};
use crate::script::script_of;
pub use gm_image::RawImage;
use lab_reader::{read_lab, with_spaces};
pub use lab_reader::{
    Graft, Item, Lab, LabFault, LabKind, Notation, Settings, Sheet, Text, Want, place_of,
    statement_of,
};
pub use script_model::{AsmKind, LangKind};
use std::alloc::Global;

/// What a lab file says, the images of its grafts, and the script that it stands for, which has a
/// line for each line of the file.
#[derive(Drop)]
pub struct Lowered {
    /// What the file says.
    pub lab: Lab,
    /// The images of its grafts as they stand, in the order of the grafts.
    pub images: Vec<GraftImage>,
    /// The script.
    pub script: Vec<u8>,
}

/// Reads a lab file and lowers it, or says why it is refused: more than 16,777,216 bytes, bytes
/// that aren't UTF-8, or the first line that is wrong; first the lines as they are read, then the
/// texts of grafts, then images.
pub fn lower(alloc: Global, text: &[u8]) -> Result<Lowered, LabFault>
    ensures ok { IfOk result (λ l. spec.Lowers text.now l.lab l.images.items l.script.items) }
    ensures err { IfErr result (λ e. spec.HasCause e text.now) }
{
    if text.len() > TEXT_BYTES {
        return Err(LabFault::TooLong);
    }
    if let Err(fault) = str::from_utf8(text) {
        return Err(LabFault::NotUtf8(fault.valid_up_to()));
    }
    lower_text(alloc, text)
}

/// The same of a text that is UTF-8 and short enough.
fn lower_text(alloc: Global, text: &[u8]) -> Result<Lowered, LabFault>
    requires { length text.now ≤ 16_777_216 }
    ensures ok { IfOk result (λ l. spec.LowersText text.now l.lab l.images.items l.script.items) }
    ensures err { IfErr result (λ e. spec.HasTextCause e text.now) }
{
    lower_lab(alloc, read_spaced(alloc, text)?)
}

/// What a text says. Its copy with spaces for tabs is gone when the script is made.
fn read_spaced(alloc: Global, text: &[u8]) -> Result<Lab, LabFault>
    requires { length text.now ≤ 16_777_216 }
    ensures { ReadsAs result (lab_of text.now) }
{
    let spaced = with_spaces(alloc, text)?;
    read_lab(alloc, spaced.as_slice())
}

/// The same of what a file says.
fn lower_lab(alloc: Global, lab: Lab) -> Result<Lowered, LabFault>
    ensures ok { IfOk result (λ l. spec.LowersLab lab l.lab l.images.items l.script.items) }
    ensures err { IfErr result (λ e. spec.HasLabCause e lab) }
{
    let images = images_of(alloc, lab.grafts())?;
    lower_script(alloc, lab, images)
}

/// The same of what a file says whose grafts have these images.
fn lower_script(alloc: Global, lab: Lab, images: Vec<GraftImage>) -> Result<Lowered, LabFault>
    ensures ok { IfOk result (λ l. (l.lab ≡ lab) × (l.images.items ≡ images.items)
        × (spec.script_of lab images.items ≡ Ok l.script.items)) }
    ensures err { IfErr result (λ e. Refuses e (spec.script_of lab images.items)) }
{
    let script = script_of(alloc, &lab, images.as_slice())?;
    Ok(Lowered {
        lab,
        images,
        script,
    })
}
