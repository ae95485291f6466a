//! Where a level stands.

ghost use Rattle.std.specs.Prelude.{◌<◌};

use graft_levels::Holder;

/// Where a level stands, and whose it is.
#[derive(Clone, Copy)]
pub(crate) struct Seat {
    /// The process of its call, and its number among that call's levels.
    pub(crate) place: Holder,
    /// The installer of its graft.
    pub(crate) owner: u8,
    ghost is_owner: { owner < 16 },
}
