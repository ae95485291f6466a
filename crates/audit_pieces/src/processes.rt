//! The pieces of the calls on processes, cells, locks and policies.

ghost use Rattle.std.specs.Prelude.{◌≡◌, IfOk};
ghost use Rattle.kernel_model.specs.declared.SysCall.TheVariants.{Yield};
ghost use Rattle.kernel_model.specs.declared.Reply.TheVariants.{One};
ghost use Rattle.kernel_model.specs.Meaning.{EndsWith, registers_of};
ghost use Rattle.kernel_model.specs.FilePieces.{leaves};
ghost use Rattle.kernel_model.specs.Needs.{free_process as least_free};
ghost use Rattle.kernel_model.specs.Pieces as model;
ghost use Rattle.audit_needs.specs.Stages.{call_of};
ghost use Rattle.audit_pieces.specs.Ends.{answer_of, left_by, left_of};
ghost use Rattle.audit_pieces.specs.Stores.{objects_of, blocks_of};

use crate::ends::{ended, ends_with, go_on, refuses, well};
use crate::fetch::chosen_by;
use crate::{After, PieceEnd, Store, Turn};
use audit_needs::Stage;
use audit_state::policies::byte_of;
use kernel_model::{NoMemory, Refusal, Reply};

impl Store {
    /// A new process joins at the back.
    pub(crate) fn spawn_piece(&mut self) -> Result<PieceEnd, NoMemory>
        ensures { IfOk result (λ e. (t : Stage) → left_of self.new t e ≡ left_by
            (model.spawn_piece (objects_of self.old)
            (least_free (objects_of self.old).things.queue 16 0) (blocks_of self.old))) }
    {
        match self.free_process() {
            None => Ok(refuses(Refusal::Full)),
            Some(c) => {
                self.join(c)?;
                Ok(ends_with(Reply::One(u32::from(c))))
            }
        }
    }

    /// A process leaves.
    pub(crate) fn exit_piece(&mut self, p: u8) -> Result<PieceEnd, NoMemory>
        ensures { IfOk result (λ e. (t : Stage) → left_of self.new t e ≡ left_by
            (model.exit_piece (objects_of self.old) p (blocks_of self.old))) }
    {
        self.leave(p)?;
        Ok(well())
    }

    /// The process of the answer, or the candidate, gets a slice, and is what the call answers.
    fn slice_piece(&mut self, turn: &Turn<'_>) -> Result<PieceEnd, NoMemory>
        ensures { IfOk result (λ e. (t : Stage) → left_of self.new t e ≡ left_by
            (model.yield_piece 1 (objects_of self.old) turn.now.process
            (registers_of (answer_of turn.now.answer.now)) (blocks_of self.old))) }
    {
        let c = chosen_by(turn, self.next_process());
        let process = byte_of(c)?;
        self.add_slice(process);
        Ok(ends_with(Reply::One(c)))
    }

    /// The process goes to the back; then the process of the answer gets a slice.
    pub(crate) fn yield_piece(
        &mut self,
        turn: &Turn<'_>,
        stage: &mut Stage,
    ) -> Result<PieceEnd, NoMemory>
        requires { call_of stage.old ≡ Yield }
        ensures { IfOk result (λ e. left_of self.new stage.new e ≡ left_by
            (model.yield_piece stage.old.piece (objects_of self.old) turn.now.process
            (registers_of (answer_of turn.now.answer.now)) (blocks_of self.old))) }
    {
        if stage.piece == 0 {
            self.to_back(turn.alloc, turn.process)?;
            go_on(stage, 1);
            Ok(ended(After::Continues))
        } else {
            self.slice_piece(turn)
        }
    }

    /// A cell gets a value.
    pub(crate) fn poke_piece(&mut self, p: u8, k: u32, v: u32) -> Result<PieceEnd, NoMemory>
        ensures { IfOk result (λ e. (t : Stage) → left_of self.new t e ≡ left_by
            (model.poke_piece (objects_of self.old) p k v (blocks_of self.old))) }
    {
        self.set_cell(p, k, v)?;
        Ok(well())
    }

    /// What a cell holds is what the call answers.
    pub(crate) fn peek_piece(&self, p: u8, k: u32) -> PieceEnd
        ensures { (t : Stage) → left_of self.now t result ≡ left_by
            (leaves (objects_of self.now) (blocks_of self.now)
            (EndsWith (One ((objects_of self.now).things.cell p k)))) }
    {
        ends_with(Reply::One(self.cell(p, k)))
    }

    /// A user lock is taken; who comes here and finds it held holds it.
    pub(crate) fn lock_piece(&mut self, p: u8, u: u32) -> Result<PieceEnd, NoMemory>
        ensures { IfOk result (λ e. (t : Stage) → left_of self.new t e ≡ left_by
            (model.lock_piece (objects_of self.old) p u ((objects_of self.old).things.lock u)
            (blocks_of self.old))) }
    {
        match self.holder(u) {
            Some(_) => Ok(refuses(Refusal::Held)),
            None => {
                self.set_holder(u, Some(p))?;
                Ok(well())
            }
        }
    }

    /// A user lock is let go by its holder.
    pub(crate) fn unlock_piece(&mut self, p: u8, u: u32) -> Result<PieceEnd, NoMemory>
        ensures { IfOk result (λ e. (t : Stage) → left_of self.new t e ≡ left_by
            (model.unlock_piece (objects_of self.old) p u ((objects_of self.old).things.lock u)
            (blocks_of self.old))) }
    {
        match self.holder(u) {
            None => Ok(refuses(Refusal::NotHeld)),
            Some(h) => {
                if h == p {
                    self.set_holder(u, None)?;
                    Ok(well())
                } else {
                    Ok(refuses(Refusal::NotHeld))
                }
            }
        }
    }

    /// A parameter of the chosen policy gets a value.
    pub(crate) fn tune_piece(&mut self, kind: u32, k: u32, v: u32) -> Result<PieceEnd, NoMemory>
        ensures { IfOk result (λ e. (t : Stage) → left_of self.new t e ≡ left_by
            (model.tune_piece (objects_of self.old) kind k v (blocks_of self.old))) }
    {
        if self.takes(kind, k, v) {
            self.set_param(kind, v)?;
            Ok(well())
        } else {
            Ok(refuses(Refusal::BadIndex))
        }
    }

    /// A policy is chosen; no parameter changes.
    pub(crate) fn choose_piece(&mut self, kind: u32, j: u32) -> Result<PieceEnd, NoMemory>
        ensures { IfOk result (λ e. (t : Stage) → left_of self.new t e ≡ left_by
            (model.choose_piece (objects_of self.old) kind j (blocks_of self.old))) }
    {
        let policy = byte_of(j)?;
        self.choose(kind, policy)?;
        Ok(well())
    }
}
