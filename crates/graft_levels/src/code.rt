//! The image of a graft.

ghost use Rattle.std.specs.Prelude.{◌≡◌, ◌<◌, Some, None, true, length, is_some, IfSome, IfNone};
ghost use Rattle.kernel_model.specs.Boxed.{IsBoxed};
ghost use Rattle.kernel_model.specs.Levels as model;
ghost use Rattle.kernel_state.specs.Table.{accounts_of};
ghost use Rattle.graft_loader.specs.Slots.{table_of};

use box_verify::Verified;
use graft_loader::{Images, Loaded};
use kernel_state::{Accounts, GraftPoint};

/// The image of the graft at a point, if it is loaded.
pub(crate) fn find_image<'a>(
    images: &'a Images,
    accounts: &Accounts,
    at: GraftPoint,
) -> Option<&'a Loaded>
    ensures some { IfSome result (λ l. model.image_of (table_of images.now)
        ((accounts_of accounts.now).graft at.process at.point) ≡ Some l.now) }
    ensures none { IfNone result
        (model.image_of (table_of images.now)
        ((accounts_of accounts.now).graft at.process at.point) ≡ None) }
{
    match accounts.image(at) {
        Some(slot) => images.get(u32::from(slot)),
        None => None,
    }
}

/// The image of the graft that stands at a point, which is loaded.
pub fn image_of<'a>(images: &'a Images, accounts: &Accounts, at: GraftPoint) -> &'a Loaded
    requires { is_some
        (model.image_of (table_of images.now)
        ((accounts_of accounts.now).graft at.process at.point)) ≡ true }
    ensures { model.image_of (table_of images.now)
        ((accounts_of accounts.now).graft at.process at.point)
        ≡ Some result.now }
{
    match find_image(images, accounts, at) {
        Some(image) => image,
        None => unreachable!(),
    }
}

/// The code of the graft that stands at a point, whose image has some.
pub fn code_of<'a>(images: &'a Images, accounts: &Accounts, at: GraftPoint) -> &'a Verified
    requires { 0 < length
        (model.code_of (table_of images.now) (accounts_of accounts.now) at.process at.point) }
    ensures value { result.now
        ≡ model.code_of (table_of images.now) (accounts_of accounts.now) at.process at.point }
    ensures boxed { IsBoxed result.now }
{
    image_of(images, accounts, at).code()
}
