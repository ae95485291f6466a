//! One step of a call, and the drop of one of its levels.

ghost use Rattle.std.specs.Prelude.{◌≡◌, ◌≤◌, ◌+◌, ℕ, List, IfOk, OnOk, Some, None, length, map};
ghost use Rattle.kernel_model.specs.AllCalls.{all_calls};
ghost use Rattle.kernel_model.specs.Events as events;
ghost use Rattle.kernel_model.specs.History as history;
ghost use Rattle.kernel_model.specs.Levels as calls;
ghost use Rattle.kernel_model.specs.Machine.{bytes_given};
ghost use Rattle.kernel_model.specs.Settle as settle;
ghost use Rattle.audit_table.specs.Tables.{by_place};
ghost use Rattle.audit_levels.specs.Levels.{config_of, effect_of, levels_of, outcome_of};
ghost use Rattle.audit_pieces.specs.Stores.{page_of};
ghost use Rattle.audit_replay.specs.Traces.{mark_of, trace_of, pasts_of};
ghost use Rattle.audit_kernel.specs.Runs.{call_of, kernel_of, run_of, AreKept, IsKept};
ghost use Rattle.audit_kernel.specs.Steps.{graft_call, leads_in, with_flight};

use crate::flights::{lead, put, take};
use crate::{Flight, History, Run};
use audit_levels::{Effect, Level, Outcome, Place, drop_level};
use audit_needs::Stage;
use audit_pieces::Answer;
use audit_replay::{Mark, Trace, fall_back, is_going_on, step_on};
use audit_table::{copy, put_last};
use kernel_model::{Cause, Micro, NoMemory, Note};
use std::alloc::Global;

/// The first byte that a graft gives.
const GIVEN_AT: usize = 2048;

/// The most bytes that a graft gives.
const MOST_GIVEN: u32 = 512;

/// So many bytes that a graft gives, of its memory.
fn given_of(alloc: Global, memory: &[u8], count: usize) -> Result<Vec<u8>, NoMemory>
    requires room { 2048 + count ≤ length memory.now }
    ensures { IfOk result (λ body. body.items ≡ bytes_given count (by_place memory.now)) }
{
    let body = copy(alloc, &memory[GIVEN_AT..GIVEN_AT + count])?;
    Ok(body)
}

/// The bytes that an answer with these registers gives, of the innermost of these levels.
fn given(alloc: Global, levels: &[Level], registers: [u32; 4]) -> Result<Vec<u8>, NoMemory>
    ensures { IfOk result (λ body. (bytes : ℕ → List ℕ) → body.items
        ≡ (calls.answer_of registers (levels_of bytes levels.now)).body) }
{
    match levels {
        [] => Ok(Vec::new(alloc)),
        [l, ..] => {
            let count = registers[0].min(MOST_GIVEN) as usize;
            let body = given_of(alloc, &l.machine.memory, count)?;
            Ok(body)
        }
    }
}

impl Run {
    /// The bytes that a graft call gives that ended with these registers, where its history leads
    /// to the trace before its last instruction. The history is run again.
    fn body(
        &self,
        p: u8,
        stage: &Stage,
        marks: &[Mark],
        registers: [u32; 4],
    ) -> Result<Vec<u8>, NoMemory>
        ensures { IfOk result (λ body. (n : ℕ) (t : history.Trace) →
            leads_in self.now p (graft_call n stage.now marks.now) ≡ Some t →
            body.items ≡ (calls.answer_of registers t.config.levels).body) }
    {
        match lead(&self.setting, &self.store, p, stage, marks)? {
            None => Err(NoMemory),
            Some(trace) => {
                let body = given(self.setting.alloc, &trace.config.levels, registers)?;
                Ok(body)
            }
        }
    }

    /// Level d of a call was dropped: level 0's default finishes the piece, and another's history
    /// goes back to the ask that began it. The call itself isn't among those in flight.
    fn after_drop(
        &mut self,
        p: u8,
        number: u32,
        stage: Stage,
        mut marks: Vec<Mark>,
        trace: Trace,
        effects: &[Effect],
        d: u8,
    ) -> Result<(), NoMemory>
        requires kept { AreKept self.old }
        ensures run { OnOk result ((t : history.Trace) (o : calls.Outcome) →
            pasts_of trace.pasts.items ≡ t.pasts →
            config_of (page_of self.old.store) trace.config ≡ o.config →
            map effect_of effects.now ≡ o.effects →
            run_of self.new ≡ settle.after_drop all_calls p
            (graft_call number stage marks.items) t (map mark_of marks.items) o d
            (run_of self.old)) }
        ensures kept { OnOk result (AreKept self.new) }
    {
        if d == 0 {
            self.lose(p, number, stage, trace.config)?;
            Ok(())
        } else {
            let place = Place {
                alloc: self.setting.alloc,
                world: &self.setting.world,
                images: &self.setting.images,
                process: p,
            };
            fall_back(&place, &trace, &mut marks, effects, d)?;
            self.put_marks(p, number, stage, marks)?;
            Ok(())
        }
    }

    /// What an outcome makes of a call in a graft, whose trace has the config of the outcome. The
    /// call itself isn't among those in flight.
    fn after_outcome(
        &mut self,
        p: u8,
        number: u32,
        stage: Stage,
        mut marks: Vec<Mark>,
        trace: Trace,
        outcome: Outcome,
    ) -> Result<(), NoMemory>
        requires kept { AreKept self.old }
        ensures run { OnOk result ((t : history.Trace) →
            leads_in self.old p (graft_call number stage marks.items) ≡ Some t →
            pasts_of trace.pasts.items ≡ t.pasts →
            run_of self.new ≡ settle.outcome_step all_calls p
            (graft_call number stage marks.items) t (map mark_of marks.items)
            (outcome_of outcome (config_of (page_of self.old.store) trace.config))
            (with_flight p (graft_call number stage marks.items) self.old)) }
        ensures kept { OnOk result (AreKept self.new) }
    {
        match outcome.said {
            Micro::Went => {
                put_last(&mut marks, Mark::Stepped)?;
                self.put_marks(p, number, stage, marks)?;
                Ok(())
            }
            Micro::Blocked { .. } => {
                self.put_marks(p, number, stage, marks)?;
                Ok(())
            }
            Micro::Completed(registers) => {
                let body = self.body(p, &stage, &marks, registers)?;
                let answer = Some(Answer { registers, body });
                self.complete(p, number, stage, trace.config, &answer)?;
                Ok(())
            }
            Micro::Dropped {
                depth,
                installer,
                point,
                cause,
            } => {
                let note = Note::Dropped {
                    number,
                    installer,
                    point,
                    cause,
                };
                put_last(&mut self.notes, note)?;
                self.after_drop(p, number, stage, marks, trace, &outcome.effects, depth)?;
                Ok(())
            }
        }
    }

    /// A call is in a graft with this history, which leads to this trace. The call itself isn't
    /// among those in flight before.
    fn put_trace(
        &mut self,
        p: u8,
        number: u32,
        stage: Stage,
        marks: Vec<Mark>,
        trace: Trace,
    ) -> Result<(), NoMemory>
        requires kept { AreKept self.old }
        requires here { leads_in self.old p (graft_call number stage marks.items)
            ≡ Some (trace_of (page_of self.old.store) trace) }
        ensures run { OnOk result (run_of self.new
            ≡ with_flight p (graft_call number stage marks.items) self.old) }
        ensures kept { OnOk result (AreKept self.new) }
    {
        let flight = Flight {
            number,
            stage,
            graft: Some(History {
                marks,
                trace: Some(trace),
            }),
        };
        put(&mut self.flights, p, Some(flight))?;
        Ok(())
    }

    /// One instruction of a call whose history leads to this trace. The call itself isn't among
    /// those in flight.
    fn trace_step(
        &mut self,
        p: u8,
        number: u32,
        stage: Stage,
        mut marks: Vec<Mark>,
        mut trace: Trace,
    ) -> Result<(), NoMemory>
        requires kept { AreKept self.old }
        requires here { leads_in self.old p (graft_call number stage marks.items)
            ≡ Some (trace_of (page_of self.old.store) trace) }
        ensures run { OnOk result (run_of self.new ≡ settle.graft_step all_calls p
            (graft_call number stage marks.items) (map mark_of marks.items)
            (Some (trace_of (page_of self.old.store) trace))
            (with_flight p (graft_call number stage marks.items) self.old)) }
        ensures kept { OnOk result (AreKept self.new) }
    {
        let place = Place {
            alloc: self.setting.alloc,
            world: &self.setting.world,
            images: &self.setting.images,
            process: p,
        };
        let outcome = step_on(&place, &mut marks, &mut trace)?;
        if is_going_on(&outcome.said) {
            self.put_trace(p, number, stage, marks, trace)?;
            Ok(())
        } else {
            self.after_outcome(p, number, stage, marks, trace, outcome)?;
            Ok(())
        }
    }

    /// One step of a call in a graft with a history. The call itself isn't among those in flight.
    fn history_step(
        &mut self,
        p: u8,
        number: u32,
        stage: Stage,
        history: History,
    ) -> Result<(), NoMemory>
        requires kept { AreKept self.old }
        requires here { IsKept self.old.setting self.old.store p
            (Some (record { number = number; stage = stage; graft = Some history })) }
        ensures run { OnOk result (run_of self.new ≡ settle.graft_step all_calls p
            (graft_call number stage history.marks.items) (map mark_of history.marks.items)
            (leads_in self.old p (graft_call number stage history.marks.items))
            (with_flight p (graft_call number stage history.marks.items) self.old)) }
        ensures kept { OnOk result (AreKept self.new) }
    {
        let History { marks, trace } = history;
        match trace {
            None => {
                self.put_marks(p, number, stage, marks)?;
                Ok(())
            }
            Some(trace) => {
                self.trace_step(p, number, stage, marks, trace)?;
                Ok(())
            }
        }
    }

    /// One step of a call, which itself isn't among those in flight.
    fn flight_step(&mut self, p: u8, flight: Flight) -> Result<(), NoMemory>
        requires kept { AreKept self.old }
        requires here { IsKept self.old.setting self.old.store p (Some flight) }
        ensures run { OnOk result (run_of self.new ≡ settle.call_step all_calls p
            (Some (call_of flight)) (with_flight p (call_of flight) self.old)) }
        ensures kept { OnOk result (AreKept self.new) }
    {
        let Flight {
            number,
            stage,
            graft,
        } = flight;
        match graft {
            None => {
                self.piece_step(p, number, stage)?;
                Ok(())
            }
            Some(history) => {
                self.history_step(p, number, stage, history)?;
                Ok(())
            }
        }
    }

    /// One step of the call of a process, which doesn't take its place in the order yet.
    pub(crate) fn call_step(&mut self, p: u8) -> Result<(), NoMemory>
        requires kept { AreKept self.old }
        ensures run { OnOk result (run_of self.new
            ≡ settle.call_step all_calls p ((kernel_of self.old).call p) (run_of self.old)) }
        ensures kept { OnOk result (AreKept self.new) }
    {
        match take(&mut self.flights, p) {
            None => Ok(()),
            Some(flight) => {
                self.flight_step(p, flight)?;
                Ok(())
            }
        }
    }

    /// A call takes its place again.
    fn put_back(&mut self, p: u8, flight: Flight) -> Result<(), NoMemory>
        requires kept { AreKept self.old }
        requires here { IsKept self.old.setting self.old.store p (Some flight) }
        ensures run { OnOk result (run_of self.new ≡ with_flight p (call_of flight) self.old) }
        ensures kept { OnOk result (AreKept self.new) }
    {
        put(&mut self.flights, p, Some(flight))?;
        Ok(())
    }

    /// Level d of a call whose history leads to this trace is dropped, and the call takes its place
    /// in the order. The call itself isn't among those in flight.
    fn drop_trace(
        &mut self,
        p: u8,
        number: u32,
        stage: Stage,
        marks: Vec<Mark>,
        mut trace: Trace,
        d: u8,
        cause: Cause,
    ) -> Result<(), NoMemory>
        requires kept { AreKept self.old }
        requires here { leads_in self.old p (graft_call number stage marks.items)
            ≡ Some (trace_of (page_of self.old.store) trace) }
        ensures run { OnOk result (run_of self.new ≡ events.drop_at all_calls p
            (graft_call number stage marks.items) (map mark_of marks.items)
            (trace_of (page_of self.old.store) trace) (Some d) cause
            (with_flight p (graft_call number stage marks.items) self.old)) }
        ensures kept { OnOk result (AreKept self.new) }
    {
        let place = Place {
            alloc: self.setting.alloc,
            world: &self.setting.world,
            images: &self.setting.images,
            process: p,
        };
        let outcome = drop_level(&place, &mut trace.config, d, cause)?;
        self.after_outcome(p, number, stage, marks, trace, outcome)?;
        self.requeue(p)?;
        Ok(())
    }

    /// Level d of a call in a graft with a history is dropped. The call itself isn't among those in
    /// flight.
    fn drop_history(
        &mut self,
        p: u8,
        number: u32,
        stage: Stage,
        history: History,
        d: u8,
        cause: Cause,
    ) -> Result<(), NoMemory>
        requires kept { AreKept self.old }
        requires here { IsKept self.old.setting self.old.store p
            (Some (record { number = number; stage = stage; graft = Some history })) }
        ensures run { OnOk result (run_of self.new ≡ events.drop_marked all_calls p
            (graft_call number stage history.marks.items) (Some (map mark_of history.marks.items))
            (leads_in self.old p (graft_call number stage history.marks.items)) (Some d) cause
            (with_flight p (graft_call number stage history.marks.items) self.old)) }
        ensures kept { OnOk result (AreKept self.new) }
    {
        let History { marks, trace } = history;
        match trace {
            None => {
                self.put_marks(p, number, stage, marks)?;
                Ok(())
            }
            Some(trace) => {
                self.drop_trace(p, number, stage, marks, trace, d, cause)?;
                Ok(())
            }
        }
    }

    /// Level d of a call is dropped, if it has a history. The call itself isn't among those in
    /// flight.
    fn drop_flight(&mut self, p: u8, flight: Flight, d: u8, cause: Cause) -> Result<(), NoMemory>
        requires kept { AreKept self.old }
        requires here { IsKept self.old.setting self.old.store p (Some flight) }
        ensures run { OnOk result (run_of self.new ≡ events.drop_call all_calls p
            (Some (call_of flight)) (Some d) cause (with_flight p (call_of flight) self.old)) }
        ensures kept { OnOk result (AreKept self.new) }
    {
        let Flight {
            number,
            stage,
            graft,
        } = flight;
        match graft {
            None => {
                let flight = Flight {
                    number,
                    stage,
                    graft: None,
                };
                self.put_back(p, flight)?;
                Ok(())
            }
            Some(history) => {
                self.drop_history(p, number, stage, history, d, cause)?;
                Ok(())
            }
        }
    }

    /// Level d of the call of a process is dropped, if it has a call, and the call takes its place
    /// in the order.
    fn drop_at(&mut self, p: u8, d: u8, cause: Cause) -> Result<(), NoMemory>
        requires kept { AreKept self.old }
        ensures run { OnOk result (run_of self.new ≡ events.drop_call all_calls p
            ((kernel_of self.old).call p) (Some d) cause (run_of self.old)) }
        ensures kept { OnOk result (AreKept self.new) }
    {
        match take(&mut self.flights, p) {
            None => Ok(()),
            Some(flight) => {
                self.drop_flight(p, flight, d, cause)?;
                Ok(())
            }
        }
    }

    /// The same, if a level is given.
    pub(crate) fn drop_call(&mut self, p: u8, d: Option<u8>, cause: Cause) -> Result<(), NoMemory>
        requires kept { AreKept self.old }
        ensures run { OnOk result (run_of self.new ≡ events.drop_call all_calls p
            ((kernel_of self.old).call p) d cause (run_of self.old)) }
        ensures kept { OnOk result (AreKept self.new) }
    {
        match d {
            None => Ok(()),
            Some(d) => {
                self.drop_at(p, d, cause)?;
                Ok(())
            }
        }
    }
}
