//! What the next instruction needs.

ghost use Rattle.std.specs.Prelude.{false, true, ◌≡◌, ℕ, ◌<◌, ◌≤◌, ◌==◌, ◌||◌, ◌∷◌, ◌++◌, []};
ghost use Rattle.std.specs.Prelude.{List, length, slice_index, All};
ghost use Rattle.kernel_model.specs.declared.Kind.TheVariants.{Steps};
ghost use Rattle.kernel_model.specs.declared.Mode.TheVariants.{Shared};
ghost use Rattle.kernel_model.specs.declared.Need.{Need as Needed};
ghost use Rattle.kernel_model.specs.Access.{early_refusal, asked_point as point_asked, asked_objects, asked_graft};
ghost use Rattle.kernel_model.specs.Charges.{funds};
ghost use Rattle.kernel_model.specs.GraftStep.{call_needs as needs_of_call};
ghost use Rattle.kernel_model.specs.GraftStep.{instruction_needs as needs_of_instruction};
ghost use Rattle.kernel_model.specs.GraftStep.{next_needs, lock_user as user_of_locks};
ghost use Rattle.kernel_model.specs.Laws.{IsInRange};
ghost use Rattle.kernel_model.specs.Levels as model;
ghost use Rattle.kernel_model.specs.Levels.{Level};
ghost use Rattle.kernel_model.specs.Locks.{LockTable};
ghost use Rattle.kernel_model.specs.Machine as machines;
ghost use Rattle.kernel_model.specs.Objects.{Things};
ghost use Rattle.kernel_model.specs.World.{World};
ghost use Rattle.undo_calls.specs.UndoLevels.{Logged};
ghost use Rattle.kernel_state.specs.Table.{accounts_of};
ghost use Rattle.kernel_state.specs.Stores.{world_of_store, objects_of, queue_of};
ghost use Rattle.graft_machine.specs.Cpu.{machine_of};
ghost use Rattle.graft_loader.specs.Slots.{table_of};
ghost use Rattle.graft_levels.specs.Chains.{level_in, levels_in};
ghost use Rattle.graft_levels.specs.Calls.{AreSound};
ghost use Rattle.graft_levels.specs.UserNeeds.{needs_no_user};

use crate::answers::arguments;
use crate::code::find_image;
use crate::{Chain, GraftLevel};
use accessor_list::{early, ids};
use graft_loader::Images;
use kernel_model::{Kind, LAST_CALLABLE, Mode, Need, Object};
use kernel_state::{Accounts, GraftPoint, Policy, Store};
use std::marker::Model;

/// The most objects that an instruction needs: those of an ask.
const MOST_NEEDS: usize = 3;

/// The objects that an instruction needs, at most three, in order. Contracts see their list.
#[derive(Drop)]
pub struct Needs {
    needs: [Need; MOST_NEEDS],
    count: usize,
}

impl Model for Needs {
    ghost use Rattle.std.specs.Prelude.{◌≡◌, ◌≤◌, List, length, take};
    ghost use Rattle.kernel_model.specs.declared.Need.{Need};

    ghost Value = { List Need };

    ghost view = { λ n. take n.count n.needs };

    ghost invariant = { λ n. n.count ≤ 3 };
}

/// What stands in a place that isn't used.
const UNUSED: Need = Need {
    object: Object::Queue,
    mode: Mode::Shared,
    by_user: false,
};

impl Needs {
    /// Nothing is needed.
    fn none() -> Needs
        ensures { result ≡ [] }
    {
        Needs {
            needs: [UNUSED, UNUSED, UNUSED],
            count: 0,
        }
    }

    /// One object.
    fn one(need: Need) -> Needs
        ensures { result ≡ need ∷ [] }
    {
        Needs {
            needs: [need, UNUSED, UNUSED],
            count: 1,
        }
    }

    /// Three objects.
    fn three(first: Need, second: Need, third: Need) -> Needs
        ensures { result ≡ first ∷ second ∷ third ∷ [] }
    {
        Needs {
            needs: [first, second, third],
            count: 3,
        }
    }

    /// The objects, each with the mode in which it is needed.
    pub fn as_slice(&self) -> &[Need]
        ensures value { result.now ≡ self.now }
        ensures few { length result.now ≤ 3 }
    {
        &self.needs[..self.count]
    }
}

/// The point that an ask names, of the asker's own process.
pub fn asked_point(id: u32, r0: u32) -> u8
    requires { id ≡ 13 → r0 < 4 }
    ensures value { result ≡ point_asked id r0 }
    ensures range { result < 16 }
{
    match id {
        ids::ASK_RA => r0 as u8,
        ids::ASK_VICTIM => 4,
        _ => 5,
    }
}

/// An object that is looked at.
fn shared(object: Object) -> Need
    ensures { result ≡ record { object = object; mode = Shared; by_user = false } }
{
    Need {
        object,
        mode: Mode::Shared,
        by_user: false,
    }
}

/// The objects that an ask needs, before the graft of its point.
pub fn asked_needs(id: u32, r0: u32, q: u8) -> [Need; 2]
    requires process { q < 16 }
    requires descriptor { id ≡ 13 → r0 < 4 }
    ensures value { result ≡ asked_objects id r0 q }
    ensures range { All (λ (n : Needed). IsInRange n.object) result }
{
    match id {
        ids::ASK_RA => [
            shared(Object::OpenFile(q, r0 as u8)),
            shared(Object::Pol(0)),
        ],
        ids::ASK_VICTIM => [shared(Object::Cache), shared(Object::Pol(1))],
        _ => [shared(Object::Queue), shared(Object::Pol(2))],
    }
}

/// What a call of an id needs: nothing where it is refused by its arguments.
fn call_needs(id: u32, level: &GraftLevel) -> Needs
    ensures value { (v : World) (p d : ℕ) (ram : List ℕ) (t : LockTable) (is : List Logged)
        (w : Things) → v.callable ≡ LAST_CALLABLE →
        let l = level_in p d ram t level.now is w in
        result ≡ needs_of_call v l id
        (early_refusal v.callable id (l.machine.regs 0) (l.machine.regs 1) l.owner) }
    ensures range { All (λ (n : Needed). IsInRange n.object) result }
{
    let args = arguments(&level.machine);
    if id > LAST_CALLABLE {
        return Needs::none();
    }
    match early(id, args, level.owner) {
        Err(_) => Needs::none(),
        Ok(Some((object, mode))) => Needs::one(Need {
            object,
            mode,
            by_user: id == ids::TAKE_LOCK,
        }),
        Ok(None) => ask_needs(id, level.machine.reg(0), level.owner),
    }
}

/// What an ask needs: what the values of its point are, and the graft of the point.
fn ask_needs(id: u32, r0: u32, q: u8) -> Needs
    requires process { q < 16 }
    requires descriptor { id ≡ 13 → r0 < 4 }
    ensures value { result ≡ asked_objects id r0 q ++ asked_graft id r0 q ∷ [] }
    ensures range { All (λ (n : Needed). IsInRange n.object) result }
{
    let [first, second] = asked_needs(id, r0, q);
    let graft = Need {
        object: Object::Graft(q, asked_point(id, r0)),
        mode: Mode::Exclusive,
        by_user: false,
    };
    Needs::three(first, second, graft)
}

/// Whether a level's count is at the limit of its graft, or its payer has no step left.
fn is_spent(level: &GraftLevel, accounts: &Accounts) -> bool
    ensures { result ≡ (level.now.count == model.limit_in
        ((accounts_of accounts.now).graft level.now.owner level.now.point)
        || funds (accounts_of accounts.now) level.now.owner level.now.point Steps == 0) }
{
    let at = GraftPoint {
        process: level.owner,
        point: level.point,
    };
    level.count == accounts.limit(at) || accounts.funds(at, Kind::Steps) == 0
}

/// The id that the next instruction of a level calls, if it is a call.
fn next_call(level: &GraftLevel, accounts: &Accounts, images: &Images) -> Option<u32>
    ensures { (ram : List ℕ) → result ≡ machines.next_call
        (model.code_of (table_of images.now)
        (accounts_of accounts.now) level.now.owner level.now.point)
        (machine_of level.now.machine ram) }
{
    let at = GraftPoint {
        process: level.owner,
        point: level.point,
    };
    match find_image(images, accounts, at) {
        Some(image) => level.machine.next_call(image.code()),
        None => None,
    }
}

/// Whether the next instruction of a level may need a user lock: it is `take_lock`, or no callable.
fn may_take_lock(level: &GraftLevel, accounts: &Accounts, images: &Images) -> bool
    ensures { result ≡ false → (v : World) (p d : ℕ) (ram : List ℕ) (t : LockTable)
        (is : List Logged) (w : Things) (ls : List Level) →
        needs_no_user (next_needs v (table_of images.now) (accounts_of accounts.now)
        (level_in p d ram t level.now is w ∷ ls)) ≡ true }
{
    match next_call(level, accounts, images) {
        Some(id) => id == ids::TAKE_LOCK || id > LAST_CALLABLE,
        None => false,
    }
}

/// What the next instruction of a level needs.
fn level_needs(level: &GraftLevel, accounts: &Accounts, images: &Images) -> Needs
    ensures value { (v : World) (p d : ℕ) (ram : List ℕ) (t : LockTable) (is : List Logged)
        (w : Things) (ls : List Level) → v.callable ≡ LAST_CALLABLE →
        result ≡ next_needs v (table_of images.now) (accounts_of accounts.now)
        (level_in p d ram t level.now is w ∷ ls) }
    ensures range { All (λ (n : Needed). IsInRange n.object) result }
{
    if is_spent(level, accounts) {
        return Needs::none();
    }
    match next_call(level, accounts, images) {
        Some(id) => call_needs(id, level),
        None => Needs::none(),
    }
}

impl Chain {
    /// What the next instruction needs: the objects of its call, if it is one that isn't refused by
    /// its arguments.
    pub fn needs<B: Policy>(&self, store: &Store<B>, images: &Images) -> Needs
        ensures value { (p : ℕ) (ram : List ℕ) (t : LockTable) (log : List (List Logged))
            (w : Things) →
            result ≡ next_needs (world_of_store store.now) (table_of images.now)
            (objects_of store.now).accounts (levels_in p ram t self.now.levels log w) }
        ensures range { All (λ (n : Needed). IsInRange n.object) result }
    {
        match self.levels.innermost() {
            Some(level) => level_needs(level, &store.accounts, images),
            None => Needs::none(),
        }
    }

    /// Whether the next instruction may need a user lock.
    pub fn may_take_lock<B: Policy>(&self, store: &Store<B>, images: &Images) -> bool
        ensures { result ≡ false → (v : World) (p : ℕ) (ram : List ℕ) (t : LockTable)
            (log : List (List Logged)) (w : Things) →
            needs_no_user (next_needs v (table_of images.now) (objects_of store.now).accounts
            (levels_in p ram t self.now.levels log w)) ≡ true }
    {
        match self.levels.innermost() {
            Some(level) => may_take_lock(level, &store.accounts, images),
            None => false,
        }
    }

    /// Whose user locks don't hinder the next instruction: those of the innermost level's
    /// installer, or else of process p.
    pub fn lock_user(&self, p: u8) -> u8
        ensures { (q : ℕ) (ram : List ℕ) (t : LockTable) (log : List (List Logged)) (w : Things) →
            result ≡ user_of_locks p (levels_in q ram t self.now.levels log w) }
    {
        match self.levels.innermost() {
            Some(level) => level.owner,
            None => p,
        }
    }
}
