//! What an event asks of a running kernel.

ghost use Rattle.std.specs.Prelude.{◌≡◌, ◌<◌, true, [], length, is_some, option_map, IfSome};
ghost use Rattle.kernel_data.specs.declared.Note.TheVariants.{InGraft};
ghost use Rattle.kernel_data.specs.Bare.{note_with};
ghost use Rattle.kernel_model.specs.Events.{in_order, wanted};
ghost use Rattle.kernel_model.specs.Locks.{outermost_holding};
ghost use Rattle.lock_table.specs.Numbers.{is_in_range};
ghost use Rattle.placed_laws.specs.Placed.{has_some, placed_holds, placed_needs};
ghost use Rattle.placed_laws.specs.PlacedSteps.{is_placed_at_piece};
ghost use Rattle.running_kernel.specs.Queries.{note_in_graft};
ghost use Rattle.running_kernel.specs.Sound.{AreNeeds, HasProcess, IsSoundFor};
ghost use Rattle.running_kernel.specs.Views.{placed_of, call_at, chain_of};

use crate::flights::{count_of, flight, number_of};
use crate::running::Running;
use crate::waits::is_same_object;
use call_pieces::{Calls, Needs, Policy};
use graft_levels::{GraftLevel, Needs as GraftNeeds};
use kernel_data::{BareNote, Mode, Need, Object};

/// Whether an object's numbers are in their ranges.
#[tactic(auto, unfolding(lock_table::specs::Numbers::is_in_range))]
fn is_in_range(object: Object) -> bool
    ensures { result ≡ is_in_range object }
{
    match object {
        Object::Graft(q, pt) => q < 16 && pt < 16,
        Object::Acct(q) => q < 16,
        Object::Cell(q, k) => q < 16 && k < 4,
        Object::OpenFile(q, fd) => q < 16 && fd < 4,
        Object::Queue | Object::Cache => true,
        Object::Lock(u) => u < 16,
        Object::Pol(kind) => kind < 3,
    }
}

/// The mode in which an object is needed: shared, where it isn't.
fn wanted_in(needs: &[Need], object: Object) -> Mode
    ensures { result ≡ wanted object needs.now }
{
    let Some((first, rest)) = needs.split_first() else {
        return Mode::Shared;
    };
    if is_same_object(first.object, object) {
        return first.mode;
    }
    wanted_in(rest, object)
}

/// The note that a call of this number is in a graft, with so many levels.
fn note_of(innermost: &GraftLevel, number: u32, count: u8) -> BareNote
    ensures { note_with result [] ≡ InGraft number innermost.now.owner innermost.now.point count }
{
    BareNote::InGraft {
        number,
        installer: innermost.owner,
        point: innermost.point,
        depth: count,
    }
}

impl<C: Calls, B: Policy> Running<C, B> {
    /// Whether process p stands in the order.
    pub fn waits(&self, p: u8) -> bool
        ensures { result ≡ in_order p (placed_of self.now).order }
    {
        self.order.has(p)
    }

    /// The number of the call that process p has in flight.
    pub fn call_number(&self, p: u8) -> Option<u32>
        ensures { result ≡ option_map (λ c. c.number) ((placed_of self.now).call p) }
    {
        number_of(&self.calls, p)
    }

    /// How many levels process p's call has.
    pub fn level_count(&self, p: u8) -> u8
        ensures value { result ≡ length ((placed_of self.now).levels p) }
        ensures chain { result ≡ length (chain_of self.now p).levels }
    {
        count_of(&self.calls, p)
    }

    /// Whether process p's call is in a graft.
    pub fn in_graft(&self, p: u8) -> bool
        ensures { result ≡ has_some ((placed_of self.now).levels p) }
    {
        count_of(&self.calls, p) != 0
    }

    /// The note that process p's call, of this number, is in a graft, if it is.
    pub fn graft_note(&self, p: u8, number: u32) -> Option<BareNote>
        requires { HasProcess self.now p }
        ensures { option_map (λ n. note_with n []) result
            ≡ note_in_graft number ((placed_of self.now).levels p) }
    {
        let chain = &flight(&self.calls, p).chain;
        match chain.levels.innermost() {
            Some(level) => Some(note_of(level, number, chain.levels.count())),
            None => None,
        }
    }

    /// Whether the next step of process p's call is a piece.
    pub fn is_at_piece(&self, p: u8) -> bool
        requires { HasProcess self.now p }
        ensures { let x = placed_of self.now in
            result ≡ is_placed_at_piece (x.call p) (x.levels p) }
    {
        let flight = flight(&self.calls, p);
        match flight.call.get() {
            Some(_) => flight.chain.levels.count() == 0,
            None => false,
        }
    }

    /// What the next instruction of process p's call needs, which is in a graft.
    pub fn instruction_needs(&self, p: u8) -> GraftNeeds
        requires at { HasProcess self.now p }
        requires call { is_some (call_at self.now p) ≡ true }
        requires level { has_some ((placed_of self.now).levels p) ≡ true }
        ensures { AreNeeds C.Meaning.meaning self.now p result }
    {
        flight(&self.calls, p)
            .chain
            .needs(&self.store, &self.images)
    }

    /// The mode in which the next step of process p's call needs an object: shared, where it
    /// doesn't.
    fn wanted(&self, p: u8, object: Object) -> Mode
        requires { IsSoundFor C.Meaning.meaning self.now p }
        ensures { result ≡ wanted object (placed_needs C.Meaning.meaning (placed_of self.now) p) }
    {
        let flight = flight(&self.calls, p);
        let Some(call) = flight.call.get() else {
            return Mode::Shared;
        };
        if flight.chain.levels.count() == 0 {
            let mut needs = Needs::new();
            C::need(&call.work, &self.store, &mut needs);
            return wanted_in(needs.as_slice(), object);
        }
        let needs = flight.chain.needs(&self.store, &self.images);
        wanted_in(needs.as_slice(), object)
    }

    /// The outermost level of a holder's call whose hold on an object conflicts with the mode in
    /// which process p needs it.
    pub fn level_in_the_way(&self, p: u8, object: Object, holder: u8) -> Option<u8>
        requires { IsSoundFor C.Meaning.meaning self.now p }
        ensures value { let x = placed_of self.now in
            result ≡ outermost_holding object (wanted object (placed_needs C.Meaning.meaning x p))
            (placed_holds x holder) }
        ensures there { IfSome result (λ d. (holder < 16)
            × (d < length (chain_of self.now holder).levels)) }
    {
        let mode = self.wanted(p, object);
        if holder >= 16 {
            return None;
        }
        if !is_in_range(object) {
            return None;
        }
        self.locks.level_of(holder, object, mode)
    }
}
