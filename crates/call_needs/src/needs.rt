//! The objects that pieces need.

ghost use Rattle.std.specs.Prelude.{◌≡◌, ◌+◌, ◌<◌, ◌≤◌, true, List, [], ◌∷◌, ◌++◌, Some, Ok, length, IfSome};
ghost use Rattle.kernel_model.specs.declared.Object.TheVariants.{Graft, OpenFile, Cell, Lock};
ghost use Rattle.kernel_model.specs.declared.Mode.TheVariants.{Exclusive};
ghost use Rattle.kernel_model.specs.Policies.{lives};
ghost use Rattle.kernel_model.specs.Pieces.{read_fits};
ghost use Rattle.kernel_model.specs.Needs as spec;
ghost use Rattle.kernel_state.specs.Frames.{in_use};
ghost use Rattle.kernel_state.specs.Places.{HasDescriptor};
ghost use Rattle.kernel_state.specs.Stores.{world_of_store, objects_of, cache_of, queue_of, policies_of};
ghost use Rattle.call_needs.specs.Needing.{all_of, block_meant, fetch_needs_of};
ghost use Rattle.call_needs.specs.Planning.{IsPlan};
ghost use Rattle.call_needs.specs.Works.{IsPlainDue, call_of, stage_of};

use crate::plans::{Plan, plan_ahead, plan_block};
use crate::{Access, Work};
use arrayvec::ArrayVec;
use kernel_model::{BareCall, Kind, Mode, Need, Object};
use kernel_state::{Policy, Store};
use std::marker::Model;

/// The most objects that a piece needs: those of `exit`.
pub const NEEDS: usize = 44;

/// The objects that a piece needs, in order. Contracts see their list.
#[derive(Drop)]
pub struct Needs {
    list: ArrayVec<Need, NEEDS>,
}

impl Model for Needs {
    ghost use Rattle.std.specs.Prelude.{List};
    ghost use Rattle.kernel_model.specs.declared.Need.{Need as Needed};

    ghost Value = { List Needed };

    ghost view = { λ n. n.list.items };
}

impl Needs {
    /// No object.
    pub fn new() -> Needs
        ensures { result ≡ [] }
    {
        Needs {
            list: ArrayVec::new(),
        }
    }

    /// The objects, in order.
    pub fn as_slice(&self) -> &[Need]
        ensures { result.now ≡ self.now }
    {
        self.list.as_slice()
    }

    /// Forgets all.
    pub fn clear(&mut self)
        ensures { self.new ≡ [] }
    {
        self.list.clear();
    }

    /// One more object, which a piece needs exclusively.
    pub fn exclusive(&mut self, object: Object)
        requires { length self.old < NEEDS }
        ensures { self.new ≡ self.old ++ spec.exclusive object ∷ [] }
    {
        self.list.push(Need {
            object,
            mode: Mode::Exclusive,
            by_user: false,
        });
    }

    /// One more object, which a piece needs shared.
    pub fn shared(&mut self, object: Object)
        requires { length self.old < NEEDS }
        ensures { self.new ≡ self.old ++ spec.shared object ∷ [] }
    {
        self.list.push(Need {
            object,
            mode: Mode::Shared,
            by_user: false,
        });
    }

    /// The user lock that `lock` takes: its holder is a blocker too.
    fn user_lock(&mut self, u: u8)
        requires { length self.old < NEEDS }
        ensures { self.new ≡ self.old
            ++ record { object = Lock u; mode = Exclusive; by_user = true } ∷ [] }
    {
        self.list.push(Need {
            object: Object::Lock(u),
            mode: Mode::Exclusive,
            by_user: true,
        });
    }

    /// The grafts at all points of process p.
    fn grafts(&mut self, p: u8)
        requires { length self.old + 16 ≤ NEEDS }
        ensures { self.new ≡ self.old ++ all_of (Graft p) 16 }
    {
        for pt in 0..16u8 {
            self.exclusive(Object::Graft(p, pt));
        }
    }

    /// All open files of process p.
    fn files(&mut self, p: u8)
        requires { length self.old + 4 ≤ NEEDS }
        ensures { self.new ≡ self.old ++ all_of (OpenFile p) 4 }
    {
        for fd in 0..4u8 {
            self.exclusive(Object::OpenFile(p, fd));
        }
    }

    /// All cells of process p.
    fn cells(&mut self, p: u8)
        requires { length self.old + 4 ≤ NEEDS }
        ensures { self.new ≡ self.old ++ all_of (Cell p) 4 }
    {
        for k in 0..4u8 {
            self.exclusive(Object::Cell(p, k));
        }
    }

    /// All user locks.
    fn locks(&mut self)
        requires { length self.old + 16 ≤ NEEDS }
        ensures { self.new ≡ self.old ++ all_of Lock 16 }
    {
        for u in 0..16u8 {
            self.exclusive(Object::Lock(u));
        }
    }

    /// The graft at point pt of process q, and its installer's account where one stands.
    pub fn point<B: Policy>(&mut self, store: &Store<B>, q: u8, pt: u8)
        requires room { length self.old + 2 ≤ NEEDS }
        requires number { pt < 16 }
        ensures { self.new ≡ self.old ++ spec.point_needs (objects_of store.now).accounts q pt }
    {
        self.exclusive(Object::Graft(q, pt));
        if store.has_graft(q, pt) {
            self.exclusive(Object::Acct(q));
        }
    }

    /// The cache, and where a frame must be chosen for the block of a plan the policy and the point
    /// of the candidate's owner.
    fn fetch<B: Policy>(&mut self, store: &Store<B>, plan: Plan)
        requires plan { IsPlan store.now plan }
        requires room { length self.old + 4 ≤ NEEDS }
        ensures { self.new ≡ self.old ++ fetch_needs_of store.now (Ok plan.block) }
    {
        self.exclusive(Object::Cache);
        if let Some(f) = plan.candidate() {
            self.shared(Object::Pol(1));
            self.point(store, store.owner(f), 4);
        }
    }

    /// What a fetch of the block of an access needs. Nothing where that is refused.
    pub fn block<B: Policy>(&mut self, store: &Store<B>, r: Access)
        requires file { HasDescriptor (queue_of store.now) r.p r.fd }
        requires room { length self.old + 4 ≤ NEEDS }
        ensures { self.new ≡ self.old
            ++ fetch_needs_of store.now (block_meant store.now r.p r.fd r.i r.off r.len) }
    {
        if let Ok(plan) = plan_block(store, r.p, r.fd as u8, r.i, r.off, r.len) {
            self.fetch(store, plan);
        }
    }

    /// What a fetch of the block ahead of an open file needs, which has one.
    fn ahead<B: Policy>(&mut self, store: &Store<B>, p: u8, fd: u8)
        requires file { HasDescriptor (queue_of store.now) p fd }
        requires fits { read_fits 2 ((objects_of store.now).things.file p fd) ≡ true }
        requires room { length self.old + 4 ≤ NEEDS }
        ensures { self.new ≡ self.old
            ++ fetch_needs_of store.now (spec.ahead_block (world_of_store store.now)
            ((objects_of store.now).things.file p fd)) }
    {
        if let Some(opened) = store.file(p, fd) {
            self.fetch(store, plan_ahead(store, &opened));
        }
    }
}

/// The objects that the next piece of a call needs, in order. They take the place of what the list
/// had.
pub fn need<B: Policy>(work: &Work, store: &Store<B>, needs: &mut Needs)
    requires ready { IsPlainDue (world_of_store store.now) (objects_of store.now) work.now.caller
        (stage_of work.now) }
    ensures { needs.new ≡ spec.piece_needs (call_of work.now) work.now.piece
        (world_of_store store.now) (objects_of store.now) work.now.caller }
{
    needs.clear();
    let p = work.caller;
    match work.call {
        BareCall::Spawn => spawn_needs(store, needs),
        BareCall::Exit => exit_needs(p, needs),
        BareCall::Yield => yield_needs(work.piece, store, needs),
        BareCall::OpenName => needs.files(p),
        BareCall::CloseFd(fd) => needs.exclusive(Object::OpenFile(p, fd as u8)),
        BareCall::Read {
            descriptor: fd,
            block: i,
            offset: off,
            length: len,
        } => {
            let answer = None;
            read_needs(
                work.piece,
                store,
                Access {
                    p,
                    fd,
                    i,
                    off,
                    len,
                    answer,
                },
                needs,
            )
        }
        BareCall::Write {
            descriptor: fd,
            block: i,
            offset: off,
        } => {
            let len = work.bytes.as_slice().len() as u32;
            let answer = None;
            needs.shared(Object::OpenFile(p, fd as u8));
            needs.block(
                store,
                Access {
                    p,
                    fd,
                    i,
                    off,
                    len,
                    answer,
                },
            );
        }
        BareCall::Sync => needs.exclusive(Object::Cache),
        BareCall::TakeLock(u) => needs.user_lock(u as u8),
        BareCall::FreeLock(u) => needs.exclusive(Object::Lock(u as u8)),
        BareCall::Poke(k, _) => needs.exclusive(Object::Cell(p, k as u8)),
        BareCall::Peek(k) => needs.shared(Object::Cell(p, k as u8)),
        BareCall::Tune { kind, .. } | BareCall::Choose(kind, _) => {
            needs.exclusive(Object::Pol(kind as u8))
        }
        BareCall::Give {
            receiver: q,
            kind,
            amount: n,
        } => give_needs(store, p, q as u8, kind, n, needs),
        BareCall::Install { point: pt, .. } | BareCall::Bill(pt) => {
            needs.exclusive(Object::Graft(p, pt as u8))
        }
        BareCall::Remove(pt) | BareCall::Fund { point: pt, .. } => needs.point(store, p, pt as u8),
        BareCall::Serve(_) | BareCall::StreamRead { .. } | BareCall::StreamWrite { .. } => {}
    }
}

/// The queue, and the account of the new process if there is room for one.
fn spawn_needs<B: Policy>(store: &Store<B>, needs: &mut Needs)
    requires { needs.old ≡ [] }
    ensures { needs.new ≡ spec.spawn_needs (spec.free_process (queue_of store.now) 16 0) }
{
    needs.exclusive(Object::Queue);
    if let Some(c) = store.free_process() {
        needs.exclusive(Object::Acct(c));
    }
}

/// All that is of a process, and what takes it over.
fn exit_needs(p: u8, needs: &mut Needs)
    requires { needs.old ≡ [] }
    ensures { needs.new ≡ spec.exit_needs p }
{
    needs.exclusive(Object::Queue);
    needs.exclusive(Object::Cache);
    needs.exclusive(Object::Acct(p));
    needs.exclusive(Object::Acct(0));
    needs.grafts(p);
    needs.files(p);
    needs.cells(p);
    needs.locks();
}

/// The queue, and for a slice the policy and the point of the candidate.
fn yield_needs<B: Policy>(piece: u8, store: &Store<B>, needs: &mut Needs)
    requires empty { needs.old ≡ [] }
    ensures { needs.new ≡ spec.yield_needs piece (objects_of store.now) }
{
    needs.exclusive(Object::Queue);
    if piece > 0 {
        needs.shared(Object::Pol(2));
        needs.point(store, store.next(), 5);
    }
}

/// The open file, and the block that is read, the point that is asked, or the block ahead.
fn read_needs<B: Policy>(piece: u8, store: &Store<B>, r: Access, needs: &mut Needs)
    requires file { HasDescriptor (queue_of store.now) r.p r.fd }
    requires fits { read_fits piece ((objects_of store.now).things.file r.p r.fd) ≡ true }
    requires empty { needs.old ≡ [] }
    ensures { needs.new ≡ spec.read_needs piece (world_of_store store.now)
        (objects_of store.now) r.p r.fd r.i r.off r.len }
{
    let p = r.p;
    let fd = r.fd as u8;
    needs.exclusive(Object::OpenFile(p, fd));
    match piece {
        0 => needs.block(store, r),
        1 => {
            needs.shared(Object::Pol(0));
            needs.point(store, p, fd);
        }
        _ => needs.ahead(store, p, fd),
    }
}

/// The queue, which shows whether the receiver lives, and the accounts up to the one that shows the
/// refusal.
fn give_needs<B: Policy>(store: &Store<B>, p: u8, q: u8, kind: Kind, n: u32, needs: &mut Needs)
    requires alive { lives (queue_of store.now) p ≡ true }
    requires empty { needs.old ≡ [] }
    ensures { needs.new ≡ spec.give_needs (objects_of store.now) p q kind n }
{
    needs.shared(Object::Queue);
    if !store.living(u32::from(q)) {
        return;
    }
    needs.exclusive(Object::Acct(p));
    if store.accounts.balance(p, kind) >= u64::from(n) {
        needs.exclusive(Object::Acct(q));
    }
}
