//! Steps of calls, until every call in the order is blocked.

ghost use Rattle.std.specs.Prelude.{◌≡◌, ◌++◌, ℕ, Some, None, IfOk, OnOk, map};
ghost use Rattle.kernel_model.specs.AllCalls.{all_calls};
ghost use Rattle.kernel_model.specs.Blocking as blocking;
ghost use Rattle.kernel_model.specs.Kernel as model;
ghost use Rattle.kernel_model.specs.Settle as rules;
ghost use Rattle.audit_kernel.specs.Holders.{AreHolders};
ghost use Rattle.audit_kernel.specs.Runs.{kernel_of, run_of, waiter_of, AreKept};

use crate::flights::no_needs;
use crate::order::{join, requeue, with_blocker};
use crate::{Run, Waiter};
use audit_table::put_last;
use kernel_model::{Need, NoMemory, Note};
use std::mem::swap;

/// How many steps settling takes at most.
const MOST_STEPS: u32 = 256;

impl Run {
    /// One more note.
    pub(crate) fn note(&mut self, note: Note) -> Result<(), NoMemory>
        requires kept { AreKept self.old }
        ensures run { OnOk result (run_of self.new ≡ model.noted note (run_of self.old)) }
        ensures kept { OnOk result (AreKept self.new) }
    {
        put_last(&mut self.notes, note)?;
        Ok(())
    }

    /// The call of a process joins the order at its end.
    pub(crate) fn join(&mut self, p: u8) -> Result<(), NoMemory>
        requires kept { AreKept self.old }
        ensures run { OnOk result (run_of self.new ≡ model.joins p (run_of self.old)) }
        ensures kept { OnOk result (AreKept self.new) }
    {
        join(&mut self.order, p)?;
        Ok(())
    }

    /// Whether the next step of the call of a process is a piece.
    fn is_at_piece(&self, p: u8) -> bool
        ensures { result ≡ model.is_at_piece ((kernel_of self.now).call p) }
    {
        match self.flight(p) {
            None => false,
            Some(flight) => flight.graft.is_none(),
        }
    }

    /// After a step, a process stands in the order exactly where its next step is a piece, and then
    /// at the end.
    pub(crate) fn requeue(&mut self, p: u8) -> Result<(), NoMemory>
        requires kept { AreKept self.old }
        ensures run { OnOk result (run_of self.new ≡ model.requeue p (run_of self.old)) }
        ensures kept { OnOk result (AreKept self.new) }
    {
        let joins = self.is_at_piece(p);
        requeue(&mut self.order, p, joins)?;
        Ok(())
    }

    /// One step of the call of a process, if there is one.
    pub(crate) fn step(&mut self, p: u8) -> Result<(), NoMemory>
        requires kept { AreKept self.old }
        ensures run { OnOk result (run_of self.new ≡ rules.step all_calls p (run_of self.old)) }
        ensures kept { OnOk result (AreKept self.new) }
    {
        self.call_step(p)?;
        self.requeue(p)?;
        Ok(())
    }

    /// These entries with their blockers come behind others. What calls need is put into `needs`.
    fn rest_all(
        &self,
        holders: &[u8],
        entries: &[Waiter],
        order: &mut Vec<Waiter>,
        needs: &mut Vec<Need>,
    ) -> Result<(), NoMemory>
        requires kept { AreKept self.now }
        requires all { AreHolders (kernel_of self.now) holders.now }
        ensures { OnOk result (map waiter_of order.new.items ≡ map waiter_of order.old.items
            ++ rules.order_in all_calls (kernel_of self.now)
            (blocking.holds all_calls (kernel_of self.now)) (map waiter_of entries.now)) }
    {
        match entries {
            [] => Ok(()),
            [e, rest @ ..] => {
                let blocker = self.blocker_among(holders, e.process, needs)?;
                put_last(order, with_blocker(*e, blocker))?;
                self.rest_all(holders, rest, order, needs)?;
                Ok(())
            }
        }
    }

    /// Each entry of the order keeps its blocker.
    fn rest(&mut self) -> Result<(), NoMemory>
        requires kept { AreKept self.old }
        ensures run { OnOk result (run_of self.new ≡ rules.rested all_calls (run_of self.old)) }
        ensures kept { OnOk result (AreKept self.new) }
    {
        let mut order = Vec::new(self.setting.alloc);
        let mut needs = Vec::new(self.setting.alloc);
        let holders = self.holders()?;
        self.rest_all(
            holders.as_slice(),
            self.order.as_slice(),
            &mut order,
            &mut needs,
        )?;
        self.order = order;
        Ok(())
    }

    /// The first of these entries that nothing blocks. Where each is blocked, the entries with their
    /// blockers come behind others. What calls need is put into `needs`.
    fn first_of(
        &self,
        holders: &[u8],
        entries: &[Waiter],
        order: &mut Vec<Waiter>,
        needs: &mut Vec<Need>,
    ) -> Result<Option<u8>, NoMemory>
        requires kept { AreKept self.now }
        requires all { AreHolders (kernel_of self.now) holders.now }
        ensures free { IfOk result (λ p. p ≡ rules.first_free_in all_calls (kernel_of self.now)
            (blocking.holds all_calls (kernel_of self.now)) (map waiter_of entries.now)) }
        ensures rested { IfOk result (λ p. p ≡ None →
            map waiter_of order.new.items ≡ map waiter_of order.old.items
            ++ rules.order_in all_calls (kernel_of self.now)
            (blocking.holds all_calls (kernel_of self.now)) (map waiter_of entries.now)) }
    {
        match entries {
            [] => Ok(None),
            [e, rest @ ..] => match self.blocker_among(holders, e.process, needs)? {
                None => Ok(Some(e.process)),
                Some(b) => {
                    put_last(order, with_blocker(*e, Some(b)))?;
                    let free = self.first_of(holders, rest, order, needs)?;
                    Ok(free)
                }
            },
        }
    }

    /// The first in the order that nothing blocks. Where each is blocked, each keeps its blocker.
    /// `order` and `needs` are rooms to work in.
    fn first_free(
        &mut self,
        order: &mut Vec<Waiter>,
        needs: &mut Vec<Need>,
    ) -> Result<Option<u8>, NoMemory>
        requires kept { AreKept self.old }
        ensures free { IfOk result (λ p. p ≡ rules.first_free all_calls (kernel_of self.old)
            (map waiter_of self.old.order.items)) }
        ensures rested { IfOk result (λ p. p ≡ None →
            run_of self.new ≡ rules.rested all_calls (run_of self.old)) }
        ensures same { IfOk result (λ p. (q : ℕ) → p ≡ Some q →
            run_of self.new ≡ run_of self.old) }
        ensures kept { IfOk result (λ p. AreKept self.new) }
    {
        order.clear();
        let holders = self.holders()?;
        match self.first_of(holders.as_slice(), self.order.as_slice(), order, needs)? {
            None => {
                swap(&mut self.order, order);
                Ok(None)
            }
            Some(p) => Ok(Some(p)),
        }
    }

    /// At most so many steps, each of the first call that nothing blocks, and rest.
    fn settle_by(&mut self, most: u32) -> Result<(), NoMemory>
        requires kept { AreKept self.old }
        ensures run { OnOk result (run_of self.new
            ≡ rules.settle all_calls most (run_of self.old)) }
        ensures kept { OnOk result (AreKept self.new) }
    {
        let mut order = Vec::new(self.setting.alloc);
        let mut needs = no_needs(self.setting.alloc)?;
        for turn in 0..most {
            match self.first_free(&mut order, &mut needs)? {
                None => return Ok(()),
                Some(p) => self.step(p)?,
            }
        }
        self.rest()
    }

    /// All steps that can be taken.
    pub(crate) fn settle(&mut self) -> Result<(), NoMemory>
        requires kept { AreKept self.old }
        ensures run { OnOk result (run_of self.new ≡ rules.settled all_calls (run_of self.old)) }
        ensures kept { OnOk result (AreKept self.new) }
    {
        self.settle_by(MOST_STEPS)
    }
}
