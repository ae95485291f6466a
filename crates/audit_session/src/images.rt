//! The line of an `image` event.

ghost use Rattle.std.specs.Prelude.{◌≡◌, ◌<◌, [], ◌∷◌, ◌++◌, decimal, Ok, OnOk};
ghost use Rattle.script_model.specs.Images as images;
ghost use Rattle.script_model.specs.ImageLines.{image_added, image_answer};
ghost use Rattle.script_model.specs.Text.{line};
ghost use Rattle.audit_kernel.specs.Runs.{kernel_of, AreKept};
ghost use Rattle.audit_session.specs.Sessions.{AnswersImage};

use crate::Output;
use audit_kernel::Run;
use graft_loader::{Keys, Loaded, load};
use script_model::NoMemory;
use script_text::ImageBytes;
use std::alloc::Global;

/// The most slots of images.
const SLOTS: u32 = 32;

/// An image that was loaded comes into a slot that is free, as event n.
fn add_loaded(
    run: &mut Run,
    n: u32,
    slot: u32,
    image: Loaded,
    out: &mut Output,
) -> Result<(), NoMemory>
    requires slot { slot < 32 }
    requires kept { AreKept run.old }
    requires empty { out.old ≡ [] }
    ensures { OnOk result (AnswersImage n (image_added slot (Ok image) (kernel_of run.old)) run.old
        run.new out.new) }
{
    out.add_loaded(
        n,
        image.code().code().len() as u32,
        image.body().len() as u32,
    )?;
    run.add_image(slot, image)
}

/// An image for a slot, as event n: what it makes of a run, and its line.
pub(crate) fn add_image(
    alloc: Global,
    keys: &Keys,
    run: &mut Run,
    n: u32,
    slot: u32,
    bytes: &ImageBytes,
    out: &mut Output,
) -> Result<(), NoMemory>
    requires kept { AreKept run.old }
    requires empty { out.old ≡ [] }
    ensures { OnOk result (AnswersImage n (image_answer slot (images.load keys.now bytes.now)
        (kernel_of run.old)) run.old run.new out.new) }
{
    if slot >= SLOTS {
        return out.add_bad_slot(n);
    }
    if run.has_image(slot) {
        return out.add_taken(n);
    }
    let sealed = bytes.decode(alloc)?;
    match load(alloc, keys, sealed.as_slice()) {
        Ok(image) => add_loaded(run, n, slot, image, out),
        Err(fault) => out.add_unloaded(n, fault),
    }
}
