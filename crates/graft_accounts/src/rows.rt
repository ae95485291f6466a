//! The grafts that stand.

ghost use Rattle.std.specs.Prelude.{◌≡◌, ◌<◌, ℕ, Option, None, is_some, length, count_by};
ghost use Rattle.std.specs.Prelude.{replicate, slice_index_or, slice_set, false, cond, ◌↔◌};

use crate::amounts::POINTS;
use std::marker::Model;

/// A graft that stands at a point, without its amounts.
#[derive(Clone, Copy)]
pub(crate) struct Standing {
    pub(crate) image: u8,
    pub(crate) limit: u32,
    pub(crate) billed: bool,
}

/// The grafts by place. Contracts see the list of the places.
#[derive(Drop)]
pub(crate) struct Standings {
    places: [Option<Standing>; POINTS],
    /// How many grafts stand, so that no place is looked at where none does.
    count: u16,
}

impl Model for Standings {
    ghost use Rattle.std.specs.Prelude.{◌≡◌, List, Option, is_some, count_by};
    ghost use Rattle.graft_accounts.specs.declared.rows.Standing.{Standing};

    ghost Value = { List (Option Standing) };

    ghost view = { λ s. s.places };

    ghost invariant = { λ s. s.count ≡ count_by is_some s.places };
}

/// One for a graft that stands.
fn one_if(stands: bool) -> u16
    ensures { result ≡ cond stands 1 0 }
{
    if stands { 1 } else { 0 }
}

impl Standings {
    /// No graft at all.
    pub(crate) fn new() -> Standings
        ensures { result ≡ replicate 256 None }
    {
        Standings {
            places: [None; POINTS],
            count: 0,
        }
    }

    /// Whether any graft stands.
    pub(crate) fn any(&self) -> bool
        ensures { (result ≡ false) ↔ ((i : ℕ) → slice_index_or self.now i None ≡ None) }
    {
        self.count != 0
    }

    /// The graft that stands at a place.
    pub(crate) fn get(&self, i: usize) -> Option<Standing>
        ensures { result ≡ slice_index_or self.now i None }
    {
        match self.places.get(i) {
            Some(found) => *found,
            None => None,
        }
    }

    /// From here on this graft, or none, stands at a place.
    pub(crate) fn set(&mut self, i: usize, standing: Option<Standing>)
        requires { i < 256 }
        ensures { self.new ≡ slice_set self.old i standing }
    {
        let before = one_if(self.places[i].is_some());
        self.places[i] = standing;
        self.count = self.count + one_if(standing.is_some()) - before;
    }
}

/// A graft that stands at a point, with what it has of each kind.
#[derive(Clone, Copy, PartialEq, Eq, Debug)]
pub struct GraftRow {
    /// The image, 0 to 31.
    pub image: u8,
    /// The most instructions of a level, 1 to 65,536.
    pub limit: u32,
    /// Whether the installer's account pays.
    pub billed: bool,
    pub steps: u64,
    pub records: u64,
    pub locks: u64,
}
