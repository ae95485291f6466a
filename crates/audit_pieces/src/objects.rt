//! What stands in a store, and one object of it changed.

ghost use Rattle.std.specs.Prelude.{◌≡◌, ◌++◌, ◌∷◌, [], Some, true, IfOk, OnOk};
ghost use Rattle.kernel_model.specs.Objects.{at, with_accounts, with_things};
ghost use Rattle.kernel_model.specs.Access.{in_range, param_top, set_cell, set_param};
ghost use Rattle.kernel_model.specs.Charges.{removed};
ghost use Rattle.kernel_model.specs.EventPoints.{with_handlers};
ghost use Rattle.kernel_model.specs.FilePieces.{with_file};
ghost use Rattle.kernel_model.specs.Handlers.{handlers_at, handlers_with, handlers_without};
ghost use Rattle.kernel_model.specs.Handlers.{has_room};
ghost use Rattle.kernel_model.specs.Needs.{free_process as least_free};
ghost use Rattle.kernel_model.specs.Pieces as pieces;
ghost use Rattle.kernel_model.specs.Policies.{ahead_default, lives};
ghost use Rattle.kernel_model.specs.Policies as policies;
ghost use Rattle.kernel_model.specs.Queue.{new_row};
ghost use Rattle.audit_state.specs.Accounts.{standing, graft_of};
ghost use Rattle.audit_state.specs.Worlds.{world_of};
ghost use Rattle.audit_pieces.specs.Stores.{objects_of, Changes};

use crate::Store;
use audit_needs::plain_needs::free_process;
use audit_state::access::in_range_of;
use audit_state::{Graft, World};
use kernel_model::{Kind, NoMemory, OpenRow};
use std::alloc::Global;

#[tactic(auto, unfolding(crate::specs::Stores::objects_of))]
impl Store {
    /// A cell of a process.
    pub(crate) fn cell(&self, p: u8, k: u32) -> u32
        ensures { result ≡ (objects_of self.now).things.cell p k }
    {
        self.things.cell(p, k)
    }

    /// An open file of a process.
    pub(crate) fn file(&self, p: u8, fd: u32) -> Option<OpenRow>
        ensures { result ≡ (objects_of self.now).things.file p fd }
    {
        self.things.file(p, fd)
    }

    /// Whether a process lives.
    pub(crate) fn lives(&self, p: u8) -> bool
        ensures { result ≡ lives (objects_of self.now).things.queue p }
    {
        self.things.lives(p)
    }

    /// The least process that doesn't live.
    pub(crate) fn free_process(&self) -> Option<u8>
        ensures { result ≡ least_free (objects_of self.now).things.queue 16 0 }
    {
        free_process(&self.things)
    }

    /// The candidate for the processor, or 0.
    pub(crate) fn next_process(&self) -> u32
        ensures { let w = (objects_of self.now).things in
            result ≡ policies.or_zero (policies.next_process (w.pol 2) w.queue) }
    {
        match self.things.next_process() {
            None => 0,
            Some(p) => u32::from(p),
        }
    }

    /// Whether a parameter of the chosen policy of a kind takes a value.
    pub(crate) fn takes(&self, kind: u32, k: u32, v: u32) -> bool
        ensures { result ≡ in_range (param_top kind ((objects_of self.now).things.pol kind).chosen)
            k v }
    {
        in_range_of(kind, self.things.chosen(kind), k, v)
    }

    /// Whether a handler stands, or another one has room at its point.
    pub(crate) fn has_room(&self, p: u8, pt: u8) -> bool
        ensures { result ≡ has_room p pt (objects_of self.now).things.handlers }
    {
        self.things.has_room(p, pt)
    }

    /// The handlers at a point, in their order.
    pub(crate) fn handlers_at(&self, alloc: Global, pt: u8) -> Result<Vec<(u8, u8)>, NoMemory>
        ensures { IfOk result (λ list.
            list.items ≡ handlers_at pt (objects_of self.now).things.handlers) }
    {
        self.things.handlers_at(alloc, pt)
    }

    /// The holder of a user lock.
    pub(crate) fn holder(&self, u: u32) -> Option<u8>
        ensures { result ≡ (objects_of self.now).things.lock u }
    {
        self.things.holder(u)
    }

    /// The graft at a point, if one stands there.
    pub(crate) fn graft(&self, p: u8, pt: u8) -> Option<Graft>
        ensures { standing result ≡ (objects_of self.now).accounts.graft p pt }
    {
        self.accounts.graft(p, pt)
    }

    /// The default answer of reading ahead of an open file.
    pub(crate) fn ahead_default(&self, world: &World, opened: &OpenRow) -> (u32, u32)
        ensures { result ≡ ahead_default (world_of world.now) ((objects_of self.now).things.pol 0)
            (Some opened.now) }
    {
        self.things.ahead_default(world, &Some(*opened))
    }

    /// What a process has of a kind.
    pub(crate) fn balance(&self, p: u8, kind: Kind) -> u64
        ensures { result ≡ ((objects_of self.now).accounts.acct p).balance kind }
    {
        self.accounts.account(p).balance.of(kind)
    }
}

#[tactic(auto, unfolding(crate::specs::Stores::objects_of, crate::specs::Stores::blocks_of))]
impl Store {
    /// A cell gets a value.
    pub(crate) fn set_cell(&mut self, p: u8, k: u32, v: u32) -> Result<(), NoMemory>
        ensures { OnOk result (Changes (λ s. with_things (set_cell p k v s.things) s)
            self.old self.new) }
    {
        self.things.set_cell(p, k, v)?;
        Ok(())
    }

    /// A descriptor gets an open file, or becomes free.
    pub(crate) fn set_file(&mut self, p: u8, fd: u32, file: Option<OpenRow>) -> Result<(), NoMemory>
        ensures { OnOk result (Changes (with_file p fd file) self.old self.new) }
    {
        self.things.set_file(p, fd, file)?;
        Ok(())
    }

    /// A user lock gets a holder, or becomes free.
    pub(crate) fn set_holder(&mut self, u: u32, holder: Option<u8>) -> Result<(), NoMemory>
        ensures { OnOk result (Changes (pieces.with_holder u holder) self.old self.new) }
    {
        self.things.set_holder(u, holder)?;
        Ok(())
    }

    /// The parameter of the chosen policy of a kind gets a value.
    pub(crate) fn set_param(&mut self, kind: u32, v: u32) -> Result<(), NoMemory>
        ensures { OnOk result (Changes (λ s. with_things (set_param kind v s.things) s)
            self.old self.new) }
    {
        self.things.set_param(kind, v)?;
        Ok(())
    }

    /// A policy of a kind is chosen.
    pub(crate) fn choose(&mut self, kind: u32, policy: u8) -> Result<(), NoMemory>
        ensures { OnOk result (Changes (λ s. with_things (record (s.things) {
          pol = at kind (record (s.things.pol kind) { chosen = policy }) s.things.pol;
        }) s) self.old self.new) }
    {
        self.things.choose(kind, policy)?;
        Ok(())
    }

    /// A new process joins the queue at the back.
    pub(crate) fn join(&mut self, p: u8) -> Result<(), NoMemory>
        ensures { OnOk result (Changes
            (λ s. pieces.with_queue (s.things.queue ++ new_row p ∷ []) s) self.old self.new) }
    {
        self.things.join(p)?;
        Ok(())
    }

    /// A process goes to the back of the queue.
    pub(crate) fn to_back(&mut self, alloc: Global, p: u8) -> Result<(), NoMemory>
        ensures { OnOk result (Changes
            (λ s. pieces.with_queue (pieces.to_back p s.things.queue) s) self.old self.new) }
    {
        self.things.to_back(alloc, p)?;
        Ok(())
    }

    /// A process gets one slice more.
    pub(crate) fn add_slice(&mut self, p: u8)
        ensures { Changes (λ s. pieces.with_queue (pieces.add_slice p s.things.queue) s)
            self.old self.new }
    {
        self.things.add_slice(p);
    }

    /// A process leaves.
    pub(crate) fn leave(&mut self, p: u8) -> Result<(), NoMemory>
        ensures { OnOk result (Changes (λ s. record {
          accounts = pieces.account_closed p (pieces.without_grafts p 16 s.accounts);
          things = pieces.things_without p s.things;
        }) self.old self.new) }
    {
        self.accounts.close(p)?;
        self.things.leave(p);
        Ok(())
    }

    /// An amount goes from one account to another.
    pub(crate) fn give(&mut self, p: u8, q: u8, kind: Kind, n: u64) -> Result<(), NoMemory>
        ensures { OnOk result (Changes (λ s. with_accounts (record (s.accounts) {
          acct = pieces.accounts_after s.accounts.acct p q kind n;
        }) s) self.old self.new) }
    {
        self.accounts.give(p, q, kind, n)?;
        Ok(())
    }

    /// A graft is put at a point; nothing is kept for it yet.
    pub(crate) fn install(&mut self, p: u8, pt: u8, image: u8, limit: u32) -> Result<(), NoMemory>
        ensures { OnOk result (Changes (pieces.with_new_graft p pt (pieces.new_graft image limit))
            self.old self.new) }
    {
        self.accounts.install(p, pt, image, limit)?;
        self.things.set_kept(p, pt, None)?;
        Ok(())
    }

    /// A graft is taken out, and its balances go back.
    pub(crate) fn remove(&mut self, p: u8, pt: u8) -> Result<(), NoMemory>
        ensures { OnOk result (Changes (λ s. with_accounts (removed p pt s.accounts) s)
            self.old self.new) }
    {
        self.accounts.remove(p, pt)?;
        Ok(())
    }

    /// An amount goes from the account of a process to its graft at a point, which is this one.
    pub(crate) fn fund(
        &mut self,
        p: u8,
        pt: u8,
        kind: Kind,
        n: u64,
        g: &Graft,
    ) -> Result<(), NoMemory>
        ensures { OnOk result (Changes (λ s. with_accounts
            (pieces.accounts_funded p pt kind n (graft_of g.now) s.accounts) s) self.old self.new) }
    {
        self.accounts.fund(p, pt, kind, n, g)?;
        Ok(())
    }

    /// The graft at a point, which is this one, is billed to its installer's account.
    pub(crate) fn bill(&mut self, p: u8, pt: u8, g: &Graft) -> Result<(), NoMemory>
        ensures { OnOk result (Changes (λ s. with_accounts (pieces.with_graft p pt
            (record (graft_of g.now) { billed = true }) s.accounts) s) self.old self.new) }
    {
        self.accounts.bill(p, pt, g)?;
        Ok(())
    }

    /// A handler is put last, where it has room.
    pub(crate) fn put_handler(&mut self, p: u8, pt: u8) -> Result<(), NoMemory>
        ensures { OnOk result (Changes
            (λ s. with_handlers (handlers_with p pt s.things.handlers) s) self.old self.new) }
    {
        self.things.put_handler(p, pt)?;
        Ok(())
    }

    /// A handler is taken out.
    pub(crate) fn remove_handler(&mut self, p: u8, pt: u8)
        ensures { Changes (λ s. with_handlers (handlers_without p pt s.things.handlers) s)
            self.old self.new }
    {
        self.things.remove_handler(p, pt);
    }
}
