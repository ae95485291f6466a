//! Events: a system call, instructions, a tick; and where a call stands at the end of one.

ghost use Rattle.std.specs.Prelude.{◌≡◌, suc, ◌&&◌, not, Ok, Some, None, IfOk, OnOk};
ghost use Rattle.kernel_model.specs.Blocking as blocking;
ghost use Rattle.kernel_model.specs.AllCalls.{all_calls};
ghost use Rattle.kernel_model.specs.Bare.{call_with, event_with};
ghost use Rattle.kernel_model.specs.Events as events;
ghost use Rattle.kernel_model.specs.Kernel as kernel;
ghost use Rattle.kernel_model.specs.Policies as policies;
ghost use Rattle.kernel_model.specs.declared.Event.TheVariants.{Step, Sys};
ghost use Rattle.audit_needs.specs.Stages.{stage_of};
ghost use Rattle.audit_kernel.specs.Runs.{kernel_of, run_of, AreKept};

use crate::flights::{has_history, put};
use crate::order::is_in;
use crate::{Flight, Run};
use audit_needs::Stage;
use audit_needs::early::early;
use audit_state::policies::byte_of;
use audit_table::copy;
use kernel_model::{BareCall, BareEvent, NoMemory, Note, QueueRow, Refusal};

/// The most instructions of one `step`.
const MOST_STEPS: u32 = 65_536;

impl Run {
    /// Whether a process stands in the order of waiting.
    fn is_in_order(&self, p: u8) -> bool
        ensures { result ≡ events.in_order p (kernel_of self.now).order }
    {
        is_in(&self.order, p)
    }

    /// Whether a call has a level.
    pub(crate) fn has_level(&self, p: u8) -> bool
        ensures { result ≡ kernel.has_level ((kernel_of self.now).call p) }
    {
        has_history(&self.flights, p)
    }

    /// The note of a call that waits.
    fn note_wait(&mut self, number: u32, p: u8) -> Result<(), NoMemory>
        requires kept { AreKept self.old }
        ensures run { OnOk result (run_of self.new
            ≡ events.waits_note number (blocking.blocker all_calls (kernel_of self.old) p)
            (run_of self.old)) }
        ensures kept { OnOk result (AreKept self.new) }
    {
        match self.blocker(p)? {
            None => Ok(()),
            Some(b) => {
                self.note(Note::Waits {
                    number,
                    object: b.object,
                    holder: b.holder,
                })?;
                Ok(())
            }
        }
    }

    /// The note of a call in a graft.
    fn note_graft(&mut self, number: u32, p: u8) -> Result<(), NoMemory>
        requires kept { AreKept self.old }
        ensures run { OnOk result (run_of self.new
            ≡ events.graft_note number (blocking.levels_of all_calls (kernel_of self.old) p)
            (run_of self.old)) }
        ensures kept { OnOk result (AreKept self.new) }
    {
        match self.levels(p) {
            [] => Ok(()),
            [l, rest @ ..] => {
                let (installer, point) = (l.owner, l.point);
                let depth = depth_of(rest.len())?;
                self.note(Note::InGraft {
                    number,
                    installer,
                    point,
                    depth,
                })?;
                Ok(())
            }
        }
    }

    /// The last line of an event that began or stepped the call of a process: where it stands, if it
    /// is still in flight.
    fn last(&mut self, p: u8) -> Result<(), NoMemory>
        requires kept { AreKept self.old }
        ensures run { OnOk result (run_of self.new ≡ events.last all_calls p (run_of self.old)) }
        ensures kept { OnOk result (AreKept self.new) }
    {
        match self.call_number(p) {
            None => Ok(()),
            Some(number) => {
                if self.is_in_order(p) {
                    self.note_wait(number, p)?;
                    Ok(())
                } else {
                    self.note_graft(number, p)?;
                    Ok(())
                }
            }
        }
    }

    /// A process has a call that has just begun.
    fn start(&mut self, number: u32, p: u8, stage: Stage) -> Result<(), NoMemory>
        requires kept { AreKept self.old }
        ensures run { OnOk result (run_of self.new
            ≡ kernel.with_call p
            (Some (record { number = number; stage = stage_of stage; marks = None }))
            (run_of self.old)) }
        ensures kept { OnOk result (AreKept self.new) }
    {
        put(
            &mut self.flights,
            p,
            Some(Flight {
                number,
                stage,
                graft: None,
            }),
        )
    }

    /// A call begins at this stage, and the run settles.
    fn begin_at(&mut self, number: u32, p: u8, stage: Stage) -> Result<(), NoMemory>
        requires kept { AreKept self.old }
        ensures run { OnOk result (run_of self.new
            ≡ events.begun all_calls number p (Ok (stage_of stage)) (run_of self.old)) }
        ensures kept { OnOk result (AreKept self.new) }
    {
        self.start(number, p, stage)?;
        self.join(p)?;
        self.settle()?;
        Ok(())
    }

    /// A call begins, or is refused at once.
    fn begin(&mut self, number: u32, p: u8, call: BareCall, given: &[u8]) -> Result<(), NoMemory>
        requires kept { AreKept self.old }
        ensures run { OnOk result (run_of self.new ≡ events.begun all_calls number p
            (all_calls.early (kernel_of self.old).world (kernel_of self.old).images p
            (call_with call given.now)) (run_of self.old)) }
        ensures kept { OnOk result (AreKept self.new) }
    {
        let alloc = self.setting.alloc;
        let given = copy(alloc, given)?;
        match early(
            alloc,
            &self.setting.world,
            &self.setting.images,
            p,
            call,
            given,
        ) {
            Err(refusal) => {
                self.note(Note::Refused(number, refusal))?;
                Ok(())
            }
            Ok(stage) => {
                self.begin_at(number, p, stage)?;
                Ok(())
            }
        }
    }

    /// A system call of a living process: busy, refused at once, or begun.
    fn sys_event(
        &mut self,
        number: u32,
        p: u8,
        call: BareCall,
        given: &[u8],
    ) -> Result<(), NoMemory>
        requires kept { AreKept self.old }
        ensures run { OnOk result (run_of self.new ≡ events.sys_event all_calls number p
            (call_with call given.now) ((kernel_of self.old).call p) (run_of self.old)) }
        ensures kept { OnOk result (AreKept self.new) }
    {
        match self.call_number(p) {
            Some(busy) => {
                self.note(Note::Refused(number, Refusal::Busy(busy)))?;
                Ok(())
            }
            None => {
                self.begin(number, p, call, given)?;
                self.last(p)?;
                Ok(())
            }
        }
    }

    /// Whether the call of a process has a level and isn't in the order.
    fn takes_steps(&self, p: u8) -> bool
        ensures { result ≡ (kernel.has_level ((kernel_of self.now).call p)
            && not (events.in_order p (kernel_of self.now).order)) }
    {
        self.has_level(p) && !self.is_in_order(p)
    }

    /// Up to so many instructions of the call of a process, while it has a level and isn't in the
    /// order: how many were taken. One that is blocked joins the order.
    fn steps(&mut self, p: u8, most: u32) -> Result<u32, NoMemory>
        requires kept { AreKept self.old }
        ensures run { IfOk result (λ k. (k, run_of self.new)
            ≡ events.steps all_calls p most 0 (run_of self.old)) }
        ensures kept { IfOk result (λ k. AreKept self.new) }
    {
        for taken in 0..most {
            if self.takes_steps(p) {
                match self.blocker(p)? {
                    None => {
                        self.step(p)?;
                        self.settle()?;
                    }
                    Some(b) => {
                        self.join(p)?;
                        self.settle()?;
                        return Ok(taken);
                    }
                }
            } else {
                return Ok(taken);
            }
        }
        Ok(most)
    }

    /// Instructions of the call of a process.
    fn step_event(&mut self, number: u32, p: u8, most: u32) -> Result<(), NoMemory>
        requires kept { AreKept self.old }
        ensures run { OnOk result (run_of self.new
            ≡ events.step_event all_calls number p most (run_of self.old)) }
        ensures kept { OnOk result (AreKept self.new) }
    {
        let taken = self.steps(p, most)?;
        self.note(Note::Ran(number, taken))?;
        self.last(p)?;
        Ok(())
    }

    /// Whether a process lives.
    #[tactic(auto, unfolding(audit_pieces::specs::Stores::objects_of))]
    fn lives(&self, p: u32) -> bool
        ensures { result ≡ policies.lives (kernel_of self.now).objects.things.queue p }
    {
        is_among(self.store.things.queue.as_slice(), p)
    }

    /// Instructions of the call of a process, or a refusal of the words.
    fn step_line(&mut self, number: u32, p: u32, most: u32) -> Result<(), NoMemory>
        requires kept { AreKept self.old }
        ensures run { OnOk result (run_of self.new
            ≡ events.event_on all_calls number (Step p most) (run_of self.old)) }
        ensures kept { OnOk result (AreKept self.new) }
    {
        if !self.lives(p) {
            self.note(Note::Refused(number, Refusal::NoProcess))?;
            return Ok(());
        }
        let q = byte_of(p)?;
        if 1 <= most && most <= MOST_STEPS {
            self.step_event(number, q, most)?;
            Ok(())
        } else {
            self.note(Note::Refused(number, Refusal::BadIndex))?;
            Ok(())
        }
    }

    /// A system call, which only a living process makes.
    fn call_line(
        &mut self,
        number: u32,
        p: u32,
        call: BareCall,
        given: &[u8],
    ) -> Result<(), NoMemory>
        requires kept { AreKept self.old }
        ensures run { OnOk result (run_of self.new ≡ events.event_on all_calls number
            (Sys p (call_with call given.now)) (run_of self.old)) }
        ensures kept { OnOk result (AreKept self.new) }
    {
        if !self.lives(p) {
            self.note(Note::Refused(number, Refusal::NoProcess))?;
            return Ok(());
        }
        let q = byte_of(p)?;
        self.sys_event(number, q, call, given)?;
        Ok(())
    }

    /// Any event.
    pub(crate) fn any_event(
        &mut self,
        number: u32,
        event: BareEvent,
        given: &[u8],
    ) -> Result<(), NoMemory>
        requires kept { AreKept self.old }
        ensures run { OnOk result (run_of self.new ≡ events.event_on all_calls number
            (event_with event given.now) (run_of self.old)) }
        ensures kept { OnOk result (AreKept self.new) }
    {
        match event {
            BareEvent::Tick => self.tick(number),
            BareEvent::Step(p, most) => self.step_line(number, p, most),
            BareEvent::Sys(p, call) => self.call_line(number, p, call, given),
        }
    }
}

/// Whether a process is one of the queue.
fn is_among(queue: &[QueueRow], p: u32) -> bool
    ensures { result ≡ policies.lives queue.now p }
{
    match queue {
        [] => false,
        [r, rest @ ..] => u32::from(r.process) == p || is_among(rest, p),
    }
}

/// The depth of a level that has so many outside it.
fn depth_of(outside: usize) -> Result<u8, NoMemory>
    ensures { IfOk result (λ d. d ≡ suc outside) }
{
    if outside < 255 {
        Ok(outside as u8 + 1)
    } else {
        Err(NoMemory)
    }
}
