//! The policies of a store: which one of each kind is chosen, and its parameter.

ghost use Rattle.std.specs.Prelude.{◌≡◌, ◌<◌, true, slice_index, IfSome};
ghost use Rattle.kernel_data.specs.Objects.{at, with_things};
ghost use Rattle.kernel_model.specs.Access.{in_range, param_top, set_param as param_set};
ghost use Rattle.kernel_model.specs.Early.{policy_count};
ghost use Rattle.kernel_model.specs.RawRows.{shown_param};
ghost use Rattle.graft_points.specs.Shelf.{code_of, shelf_with};
ghost use Rattle.kernel_state.specs.Changes.{Changes, ChangesThings};
ghost use Rattle.kernel_state.specs.Stores.{objects_of, views_of};

use crate::Store;
use graft_points::Policy;

impl<B: Policy> Store<B> {
    /// Which policy of a kind is chosen.
    pub fn chosen(&self, kind: u8) -> u8
        requires { kind < 3 }
        ensures { result ≡ ((objects_of self.now).things.pol kind).chosen }
    {
        self.choice.of(kind)
    }

    /// The parameter of the chosen policy of a kind. None where it has none.
    pub fn param(&self, kind: u8) -> Option<u32>
        requires kind { kind < 3 }
        ensures value { result ≡ shown_param kind ((objects_of self.now).things.pol kind) }
        ensures range { IfSome result (λ v.
            in_range (param_top kind ((objects_of self.now).things.pol kind).chosen) 0 v ≡ true) }
    {
        self.choice.of(kind);
        self.shelf.param(&self.choice, kind)
    }

    /// Whether parameter k of the chosen policy of a kind takes a value: there is parameter 0 at
    /// most, and it has a range.
    pub fn takes(&self, kind: u8, k: u32, v: u32) -> bool
        requires { kind < 3 }
        ensures { result
            ≡ in_range (param_top kind ((objects_of self.now).things.pol kind).chosen) k v }
    {
        match top_of(kind, self.chosen(kind)) {
            Some(top) => k == 0 && v <= top,
            None => false,
        }
    }

    /// Chooses policy j of a kind. No parameter changes.
    pub fn choose(&mut self, kind: u8, j: u8)
        requires kind { kind < 3 }
        requires number { j < policy_count kind }
        ensures { Changes (λ s. with_things (record (s.things) {
          pol = at kind (record (s.things.pol kind) { chosen = j }) s.things.pol;
        }) s) self.old self.new }
    {
        self.choice.choose(kind, j);
    }

    /// Sets the parameter of the chosen policy of a kind, which has one, to a value in its range.
    /// The other policies stay what they were.
    pub fn set_param(&mut self, kind: u8, v: u32)
        requires kind { kind < 3 }
        requires range { in_range
            (param_top kind ((objects_of self.old).things.pol kind).chosen) 0 v ≡ true }
        ensures changed { ChangesThings (param_set kind v) self.old self.new }
        ensures views { views_of self.new ≡
            shelf_with (code_of kind (slice_index self.old.choice kind)) v (views_of self.old) }
    {
        self.shelf.set_param(&self.choice, kind, v);
    }
}

/// The highest value of the parameter of policy j of a kind, if it has one.
fn top_of(kind: u8, j: u8) -> Option<u32>
    ensures { result ≡ param_top kind j }
{
    match (kind, j) {
        (_, 0) => None,
        (0, _) => Some(8),
        (1, _) => Some(255),
        _ => Some(39),
    }
}
