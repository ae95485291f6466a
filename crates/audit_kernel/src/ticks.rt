//! Ticks: counts, and what is done where a call has waited for too long.

ghost use Rattle.std.specs.Prelude.{◌≡◌, ◌<◌, ◌++◌, suc, ℕ, List, Some, None, option_map};
ghost use Rattle.std.specs.Prelude.{IfOk, OnOk, map};
ghost use Rattle.kernel_model.specs.Blocking as blocking;
ghost use Rattle.kernel_model.specs.Kernel as model;
ghost use Rattle.kernel_model.specs.Locks as locks;
ghost use Rattle.kernel_model.specs.AllCalls.{all_calls};
ghost use Rattle.kernel_model.specs.Events as events;
ghost use Rattle.audit_levels.specs.Levels.{levels_of};
ghost use Rattle.audit_kernel.specs.Runs.{kernel_of, run_of, blocker_of, waiter_of, AreKept};

use crate::flights::put;
use crate::holds::outermost_holding;
use crate::order::{is_same, kind_of};
use crate::{Blocker, Run, Waiter};
use audit_levels::{Level, one_more};
use audit_table::{get_one, put_last};
use kernel_model::{Cause, Mode, Need, NoMemory, Note, Object, Refusal};
use std::alloc::Global;

/// These entries with counts one higher, behind others.
fn add_counted(counted: &mut Vec<Waiter>, order: &[Waiter]) -> Result<(), NoMemory>
    ensures { OnOk result (map waiter_of counted.new.items
        ≡ map waiter_of counted.old.items ++ events.counted (map waiter_of order.now)) }
{
    match order {
        [] => Ok(()),
        [e, rest @ ..] => {
            let entry = one_higher(*e)?;
            put_last(counted, entry)?;
            add_counted(counted, rest)?;
            Ok(())
        }
    }
}

/// An entry with a count one higher.
fn one_higher(e: Waiter) -> Result<Waiter, NoMemory>
    ensures { IfOk result (λ x. waiter_of x ≡ record (waiter_of e) { count = suc e.count }) }
{
    let count = one_more(e.count)?;
    Ok(Waiter {
        process: e.process,
        blocker: e.blocker,
        count,
    })
}

/// Each count rises by one.
fn count_all(alloc: Global, order: &[Waiter]) -> Result<Vec<Waiter>, NoMemory>
    ensures { IfOk result (λ es. map waiter_of es.items ≡ events.counted (map waiter_of order.now)) }
{
    let mut counted: Vec<Waiter> = Vec::new(alloc);
    add_counted(&mut counted, order)?;
    Ok(counted)
}

/// The mode in which an object is needed, shared where it isn't needed.
fn wanted(object: Object, needs: &[Need]) -> Mode
    ensures { result ≡ events.wanted object needs.now }
{
    match needs {
        [] => Mode::Shared,
        [n, rest @ ..] => {
            if is_same(n.object, object) {
                n.mode
            } else {
                wanted(object, rest)
            }
        }
    }
}

/// The number of the innermost level, if there is one.
fn innermost(levels: &[Level]) -> Result<Option<u8>, NoMemory>
    ensures { IfOk result (λ d. (bytes : ℕ → List ℕ) →
        d ≡ events.innermost (levels_of bytes levels.now)) }
{
    match levels {
        [] => Ok(None),
        [_, rest @ ..] => match u8::try_from(rest.len()) {
            Ok(depth) => Ok(Some(depth)),
            Err(_) => Err(NoMemory),
        },
    }
}

impl Run {
    /// Whether an entry's count has reached the patience.
    fn is_over(&self, e: Waiter) -> bool
        ensures { result
            ≡ events.is_over (kernel_of self.now) (waiter_of e) (option_map blocker_of e.blocker) }
    {
        match e.blocker {
            None => false,
            Some(b) => get_one(&self.setting.world.patience, kind_of(b.object), 10) <= e.count,
        }
    }

    /// The first of these entries whose count has reached the patience.
    fn expired(&self, order: &[Waiter]) -> Option<Waiter>
        ensures { option_map waiter_of result
            ≡ events.expired (kernel_of self.now) (map waiter_of order.now) }
    {
        match order {
            [] => None,
            [e, rest @ ..] => {
                if self.is_over(*e) {
                    Some(*e)
                } else {
                    self.expired(rest)
                }
            }
        }
    }

    /// The first in the order whose count has reached the patience.
    fn over(&self) -> Option<Waiter>
        ensures { option_map waiter_of result
            ≡ events.expired (kernel_of self.now) (map waiter_of self.now.order.items) }
    {
        self.expired(self.order.as_slice())
    }

    /// The clock and all counts rise by one.
    fn count(&mut self, number: u32) -> Result<(), NoMemory>
        requires kept { AreKept self.old }
        ensures run { OnOk result (run_of self.new ≡ events.ticked number (run_of self.old)) }
        ensures kept { OnOk result (AreKept self.new) }
    {
        self.clock = one_more(self.clock)?;
        self.order = count_all(self.setting.alloc, &self.order)?;
        let clock = self.clock;
        self.note(Note::Ticked(number, clock))?;
        Ok(())
    }

    /// A process has no call any more.
    fn end(&mut self, p: u8) -> Result<(), NoMemory>
        requires kept { AreKept self.old }
        ensures run { OnOk result (run_of self.new ≡ model.with_call p None (run_of self.old)) }
        ensures kept { OnOk result (AreKept self.new) }
    {
        put(&mut self.flights, p, None)?;
        Ok(())
    }

    /// A waiter for a user lock without a level ends.
    fn time_out(&mut self, p: u8, b: Blocker, number: u32) -> Result<(), NoMemory>
        requires kept { AreKept self.old }
        ensures run { OnOk result ((c : model.Call) → c.number ≡ number →
            run_of self.new ≡ events.times_out all_calls p (blocker_of b) c (run_of self.old)) }
        ensures kept { OnOk result (AreKept self.new) }
    {
        self.end(p)?;
        self.note(Note::Refused(number, Refusal::TimedOut(b.object, b.holder)))?;
        self.requeue(p)?;
        Ok(())
    }

    /// Who waits too long for a user lock loses the innermost level or, without a level, is refused.
    fn act_on_waiter(&mut self, p: u8, b: Blocker) -> Result<(), NoMemory>
        requires kept { AreKept self.old }
        ensures run { OnOk result (run_of self.new ≡ events.waiter_action all_calls p
            (blocker_of b) ((kernel_of self.old).call p) (run_of self.old)) }
        ensures kept { OnOk result (AreKept self.new) }
    {
        match self.call_number(p) {
            None => Ok(()),
            Some(number) => {
                if self.has_level(p) {
                    let depth = innermost(self.levels(p))?;
                    self.drop_call(p, depth, Cause::TimeOut(b.object, b.holder))?;
                    Ok(())
                } else {
                    self.time_out(p, b, number)?;
                    Ok(())
                }
            }
        }
    }

    /// The outermost level of the call of a process whose hold on an object conflicts with a mode.
    fn holding_of(&self, q: u8, object: Object, mode: Mode) -> Option<u8>
        requires kept { AreKept self.now }
        requires place { q < 16 }
        ensures { result ≡ locks.outermost_holding object mode
            (blocking.holds all_calls (kernel_of self.now) q) }
    {
        outermost_holding(self.levels(q), object, mode)
    }

    /// The same of any process: none above 15 has a call.
    fn holding(&self, q: u8, object: Object, mode: Mode) -> Option<u8>
        requires kept { AreKept self.now }
        ensures { result ≡ locks.outermost_holding object mode
            (blocking.holds all_calls (kernel_of self.now) q) }
    {
        if q < 16 {
            self.holding_of(q, object, mode)
        } else {
            None
        }
    }

    /// A call that blocks for too long loses the outermost of its levels whose hold conflicts, with
    /// those inside.
    fn act_on_holder(&mut self, p: u8, b: Blocker) -> Result<(), NoMemory>
        requires kept { AreKept self.old }
        ensures run { OnOk result (run_of self.new
            ≡ events.holder_action all_calls p (blocker_of b) (run_of self.old)) }
        ensures kept { OnOk result (AreKept self.new) }
    {
        let needs = self.needs(p)?;
        let mode = wanted(b.object, &needs);
        let depth = self.holding(b.holder, b.object, mode);
        self.drop_call(b.holder, depth, Cause::TimeOut(b.object, p))?;
        Ok(())
    }

    /// What is done for an entry that has waited too long.
    fn act(&mut self, e: Waiter) -> Result<(), NoMemory>
        requires kept { AreKept self.old }
        ensures run { OnOk result (run_of self.new ≡ events.entry_action all_calls (waiter_of e)
            (option_map blocker_of e.blocker) (run_of self.old)) }
        ensures kept { OnOk result (AreKept self.new) }
    {
        match e.blocker {
            None => Ok(()),
            Some(b) => {
                if b.call.is_none() {
                    self.act_on_waiter(e.process, b)?;
                    Ok(())
                } else {
                    self.act_on_holder(e.process, b)?;
                    Ok(())
                }
            }
        }
    }

    /// At most so many of these, as long as a count has reached its patience.
    fn actions(&mut self, most: u32) -> Result<(), NoMemory>
        requires kept { AreKept self.old }
        ensures run { OnOk result (run_of self.new
            ≡ events.actions all_calls most (run_of self.old)) }
        ensures kept { OnOk result (AreKept self.new) }
    {
        for done in 0..most {
            match self.over() {
                None => return Ok(()),
                Some(e) => {
                    self.act(e)?;
                    self.settle()?;
                }
            }
        }
        Ok(())
    }

    /// A tick.
    pub(crate) fn tick(&mut self, number: u32) -> Result<(), NoMemory>
        requires kept { AreKept self.old }
        ensures run { OnOk result (run_of self.new
            ≡ events.tick_event all_calls number (run_of self.old)) }
        ensures kept { OnOk result (AreKept self.new) }
    {
        self.count(number)?;
        self.actions(288)?;
        Ok(())
    }
}
