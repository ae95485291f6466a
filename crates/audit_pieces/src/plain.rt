//! The pieces of plain calls.

ghost use Rattle.std.specs.Prelude.{◌≡◌, [], IfOk};
ghost use Rattle.kernel_model.specs.Meaning.{registers_of};
ghost use Rattle.kernel_model.specs.Pieces as model;
ghost use Rattle.audit_state.specs.Worlds.{world_of};
ghost use Rattle.audit_needs.specs.Stages.{call_of};
ghost use Rattle.audit_pieces.specs.Ends.{answer_of, left_by, left_of};
ghost use Rattle.audit_pieces.specs.Stores.{objects_of, blocks_of};

use crate::ends::refuses;
use crate::{PieceEnd, Store, Turn};
use audit_needs::Stage;
use audit_needs::blocks::Place;
use audit_state::policies::byte_of;
use kernel_model::{BareCall, NoMemory, Refusal};

impl Store {
    /// The piece of a plain call at its stage.
    pub(crate) fn piece_of(
        &mut self,
        turn: &Turn<'_>,
        stage: &mut Stage,
    ) -> Result<PieceEnd, NoMemory>
        ensures { IfOk result (λ e. left_of self.new stage.new e ≡ left_by
            (model.piece_of (call_of stage.old) stage.old.piece (world_of turn.now.world.now)
            (objects_of self.old) (blocks_of self.old) turn.now.process
            (registers_of (answer_of turn.now.answer.now)) [])) }
    {
        let p = turn.process;
        match stage.call {
            BareCall::Spawn => self.spawn_piece(),
            BareCall::Exit => self.exit_piece(p),
            BareCall::Yield => self.yield_piece(turn, stage),
            BareCall::OpenName => self.open_piece(turn, &stage.given),
            BareCall::CloseFd(fd) => self.close_piece(p, fd),
            BareCall::Read {
                descriptor,
                block,
                offset,
                length,
            } => {
                let place = Place {
                    descriptor,
                    block,
                    offset,
                };
                self.read_piece(turn, stage, place, length)
            }
            BareCall::Write {
                descriptor,
                block,
                offset,
            } => {
                let place = Place {
                    descriptor,
                    block,
                    offset,
                };
                self.write_piece(turn, place, &stage.given)
            }
            BareCall::Sync => self.sync_piece(turn),
            BareCall::TakeLock(u) => self.lock_piece(p, u),
            BareCall::FreeLock(u) => self.unlock_piece(p, u),
            BareCall::Poke(k, v) => self.poke_piece(p, k, v),
            BareCall::Peek(k) => Ok(self.peek_piece(p, k)),
            BareCall::Tune {
                kind,
                parameter,
                value,
            } => self.tune_piece(kind, parameter, value),
            BareCall::Choose(kind, j) => self.choose_piece(kind, j),
            BareCall::Give {
                receiver,
                kind,
                amount,
            } => self.give_piece(p, byte_of(receiver)?, kind, amount),
            BareCall::Install { point, slot, limit } => {
                self.install_piece(p, byte_of(point)?, slot, limit)
            }
            BareCall::Remove(point) => self.remove_piece(p, byte_of(point)?),
            BareCall::Fund {
                point,
                kind,
                amount,
            } => self.fund_piece(p, byte_of(point)?, kind, amount),
            BareCall::Bill(point) => self.bill_piece(p, byte_of(point)?),
            BareCall::Serve(_) | BareCall::StreamRead { .. } | BareCall::StreamWrite { .. } => {
                Ok(refuses(Refusal::BadPoint))
            }
        }
    }
}
