//! A piece of a call is done and committed.

ghost use Rattle.std.specs.Prelude.{◌≡◌, ◌++◌, ◌∷◌, [], ℕ, Option};
ghost use Rattle.std.specs.Prelude.{List, IfOk, OnOk, Some, None, option_map};
ghost use Rattle.kernel_model.specs.AllCalls.{all_calls};
ghost use Rattle.kernel_model.specs.History.{Mark};
ghost use Rattle.kernel_model.specs.Kernel as model;
ghost use Rattle.kernel_model.specs.Settle.{finish_on};
ghost use Rattle.audit_needs.specs.Stages.{stage_of};
ghost use Rattle.graft_loader.specs.Slots.{table_of};
ghost use Rattle.audit_state.specs.Worlds.{world_of};
ghost use Rattle.audit_pieces.specs.Stores.{objects_of, blocks_of};
ghost use Rattle.audit_pieces.specs.Ends.{after_of, answer_of, given, IsPiece};
ghost use Rattle.audit_kernel.specs.Runs.{call_of, run_of, AreKept};

use crate::flights::{put, run_all_again};
use crate::{Flight, Run, Setting};
use audit_needs::Stage;
use audit_pieces::{After, Answer, PieceEnd, Store, Turn};
use audit_table::put_last;
use kernel_data::Bytes;
use kernel_model::{NoMemory, Note};

/// These bytes, of which a note has at most 512.
fn bytes_of(items: &[u8]) -> Result<Bytes, NoMemory>
    ensures { IfOk result (λ bytes. bytes ≡ items.now) }
{
    let mut bytes = Bytes::new();
    for item in items {
        if !bytes.push(*item) {
            return Err(NoMemory);
        }
    }
    Ok(bytes)
}

/// The bytes that a piece gives are told, if it does.
fn tell_given(notes: &mut Vec<Note>, number: u32, gave: Option<Vec<u8>>) -> Result<(), NoMemory>
    ensures { OnOk result (notes.new.items
        ≡ notes.old.items ++ model.gave_note number (given gave)) }
{
    match gave {
        None => Ok(()),
        Some(bytes) => {
            let bytes = bytes_of(bytes.as_slice())?;
            put_last(notes, Note::Gave(number, bytes))?;
            Ok(())
        }
    }
}

/// The end of a call is told, if it ended.
fn tell_end(notes: &mut Vec<Note>, number: u32, after: After) -> Result<(), NoMemory>
    ensures { OnOk result ((t : Stage) → notes.new.items
        ≡ notes.old.items ++ model.after_note number (after_of after t)) }
{
    match after {
        After::Continues => Ok(()),
        After::EndsWith(reply) => {
            put_last(notes, Note::Ended(number, reply))?;
            Ok(())
        }
        After::Fails(refusal) => {
            put_last(notes, Note::Refused(number, refusal))?;
            Ok(())
        }
    }
}

/// A call after its piece: it goes on at this stage, or has ended.
fn flight_after(number: u32, stage: Stage, after: After) -> Option<Flight>
    ensures { (marks : Option (List Mark)) → option_map call_of result ≡ model.call_after
        (record { number = number; stage = stage_of stage; marks = marks }) (after_of after stage) }
{
    match after {
        After::Continues => Some(Flight {
            number,
            stage,
            graft: None,
        }),
        After::EndsWith(_) | After::Fails(_) => None,
    }
}

/// The next piece of a call of a process is done on a store, with an answer or by default.
fn piece_of(
    setting: &Setting,
    store: &mut Store,
    p: u8,
    stage: &mut Stage,
    answer: &Option<Answer>,
) -> Result<PieceEnd, NoMemory>
    ensures { IfOk result (λ end. IsPiece (all_calls.piece (world_of setting.now.world)
        (table_of setting.now.images) (objects_of store.old) (blocks_of store.old) p
        (stage_of stage.old) (answer_of answer.now) []) store.new stage.new end) }
{
    let turn = Turn {
        alloc: setting.alloc,
        world: &setting.world,
        process: p,
        answer,
    };
    let done = store.piece(&turn, stage);
    let Turn {
        alloc: _alloc,
        world: _world,
        process: _process,
        answer: _answer,
    } = turn;
    done
}

impl Run {
    /// The next piece of a call of a process is done on what stands in the store, with an answer or
    /// by default, and committed. The call itself isn't among those in flight. All histories are
    /// run again.
    pub(crate) fn finish(
        &mut self,
        p: u8,
        number: u32,
        mut stage: Stage,
        answer: &Option<Answer>,
    ) -> Result<(), NoMemory>
        ensures run { OnOk result ((marks : Option (List Mark)) → run_of self.new
            ≡ finish_on all_calls p
            (record { number = number; stage = stage_of stage; marks = marks })
            (objects_of self.old.store) (answer_of answer.now) (run_of self.old)) }
        ensures kept { OnOk result (AreKept self.new) }
    {
        let end = piece_of(&self.setting, &mut self.store, p, &mut stage, answer)?;
        let PieceEnd { gave, after } = end;
        tell_given(&mut self.notes, number, gave)?;
        tell_end(&mut self.notes, number, after)?;
        let flight = flight_after(number, stage, after);
        put(&mut self.flights, p, flight)?;
        run_all_again(&self.setting, &self.store, &mut self.flights)?;
        Ok(())
    }
}
