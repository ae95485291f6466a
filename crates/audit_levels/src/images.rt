//! The images of grafts.

ghost use Rattle.std.specs.Prelude.{◌≡◌, ◌≤◌, ◌<◌, ◌^◌, length, option_copied};
ghost use Rattle.kernel_model.specs.Levels as model;
ghost use Rattle.graft_loader.specs.Slots.{table_of};
ghost use Rattle.audit_state.specs.Accounts.{accounts_of};

use crate::Place;
use audit_state::Accounts;
use graft_loader::Loaded;
use kernel_model::Instr;

/// The image of the graft at a point, if one stands and it is loaded.
pub(crate) fn image_of<'a>(
    place: &Place<'a>,
    accounts: &Accounts,
    q: u8,
    pt: u8,
) -> Option<&'a Loaded>
    ensures { option_copied result ≡ model.image_of (table_of place.now.images.now)
        ((accounts_of accounts.now).graft q pt) }
{
    match accounts.graft(q, pt) {
        None => None,
        Some(g) => place.images.get(u32::from(g.image)),
    }
}

/// The code of an image, none where there is no image.
fn code_in<'a>(image: Option<&'a Loaded>) -> &'a [Instr]
    ensures code { result.now ≡ model.code_in (option_copied image.entry) }
    ensures short { length result.now ≤ 1024 }
{
    match image {
        None => &[],
        Some(image) => image.code().code(),
    }
}

/// The data bytes of an image, none where there is no image.
pub(crate) fn body_in<'a>(image: Option<&'a Loaded>) -> &'a [u8]
    ensures { result.now ≡ model.body_in (option_copied image.entry) }
{
    match image {
        None => &[],
        Some(image) => image.body(),
    }
}

/// Whether an image keeps the segments of its grafts.
pub(crate) fn keeps_in(image: Option<&Loaded>) -> bool
    ensures { result ≡ model.keeps_in (option_copied image.entry) }
{
    match image {
        None => false,
        Some(image) => image.keep(),
    }
}

/// The code of the graft at a point, none where no graft stands or its image isn't loaded.
pub(crate) fn code_of<'a>(place: &Place<'a>, accounts: &Accounts, q: u8, pt: u8) -> &'a [Instr]
    ensures code { result.now ≡ model.code_of (table_of place.now.images.now)
        (accounts_of accounts.now) q pt }
    ensures short { length result.now < 2 ^ 32 }
{
    code_in(image_of(place, accounts, q, pt))
}
