//! The next piece of any call.

ghost use Rattle.std.specs.Prelude.{◌≡◌, [], IfOk};
ghost use Rattle.kernel_model.specs.AllCalls.{all_calls};
ghost use Rattle.kernel_model.specs.World.{ImageTable};
ghost use Rattle.audit_state.specs.Worlds.{world_of};
ghost use Rattle.audit_needs.specs.Stages.{stage_of};
ghost use Rattle.audit_pieces.specs.Ends.{answer_of, left_by, left_of, IsPiece};
ghost use Rattle.audit_pieces.specs.Stores.{objects_of, blocks_of};

use crate::{PieceEnd, Store, Turn};
use audit_needs::Stage;
use audit_needs::calls::{is_event_call, is_stream_call};
use kernel_model::NoMemory;

impl Store {
    /// The next piece of a call, by the table that it is of.
    fn piece_by_table(&mut self, turn: &Turn<'_>, stage: &mut Stage) -> Result<PieceEnd, NoMemory>
        ensures { IfOk result (λ e. (images : ImageTable) →
            left_of self.new stage.new e ≡ left_by (all_calls.piece (world_of turn.now.world.now)
            images (objects_of self.old) (blocks_of self.old) turn.now.process
            (stage_of stage.old) (answer_of turn.now.answer.now) [])) }
    {
        if is_stream_call(stage.call) {
            self.stream_piece(turn, stage)
        } else if is_event_call(stage.call) {
            self.event_piece(turn, stage)
        } else {
            self.piece_of(turn, stage)
        }
    }

    /// The next piece of a call in one step, with an answer or by default. No call of the disk
    /// fails. The stage becomes that of the next piece, if there is one.
    pub fn piece(&mut self, turn: &Turn<'_>, stage: &mut Stage) -> Result<PieceEnd, NoMemory>
        ensures { IfOk result (λ e. (images : ImageTable) →
            IsPiece (all_calls.piece (world_of turn.now.world.now) images (objects_of self.old)
            (blocks_of self.old) turn.now.process (stage_of stage.old)
            (answer_of turn.now.answer.now) []) self.new stage.new e) }
    {
        let end = self.piece_by_table(turn, stage)?;
        Ok(end)
    }
}
