//! The pieces of the calls of stream points.

ghost use Rattle.std.specs.Prelude.{◌≡◌, [], Some, IfOk};
ghost use Rattle.kernel_model.specs.Fetch.{fetch};
ghost use Rattle.kernel_model.specs.FilePieces.{leaves, well as ends_well};
ghost use Rattle.kernel_model.specs.Needs.{file_block};
ghost use Rattle.kernel_model.specs.Meaning.{registers_of};
ghost use Rattle.kernel_model.specs.StreamPoints as model;
ghost use Rattle.audit_state.specs.Worlds.{world_of};
ghost use Rattle.audit_needs.specs.Stages.{call_of, stage_of};
ghost use Rattle.audit_pieces.specs.Ends.{answer_of, left_by, left_of};
ghost use Rattle.audit_pieces.specs.Stores.{objects_of, blocks_of};

use crate::bytes::range_of;
use crate::ends::{ended, refuses};
use crate::{After, Answer, PieceEnd, Store, Turn};
use audit_needs::Stage;
use audit_needs::blocks::{Place, file_block as block_meant};
use audit_table::copy;
use kernel_model::{BareCall, NoMemory, Refusal, Reply};
use std::alloc::Global;

/// The bytes that come out of a point: the answer's, or by default those that went in.
fn through(alloc: Global, answer: &Option<Answer>, bytes: &[u8]) -> Result<Vec<u8>, NoMemory>
    ensures { IfOk result (λ out. out.items ≡ model.through (answer_of answer.now) bytes.now) }
{
    match answer {
        None => copy(alloc, bytes),
        Some(a) => copy(alloc, &a.body),
    }
}

/// The second piece is next, and carries these bytes.
fn go_on_with(stage: &mut Stage, bytes: Vec<u8>)
    ensures { stage_of stage.new ≡ record {
      call = call_of stage.old;
      piece = 1;
      handlers = [];
      answers = 0;
      bytes = bytes.items;
    } }
{
    stage.piece = 1;
    stage.handlers.clear();
    stage.answers = 0;
    stage.bytes = bytes;
}

impl Store {
    /// The first piece of a stream's read, for a block: its bytes go into the call.
    fn stream_taken(
        &mut self,
        turn: &Turn<'_>,
        stage: &mut Stage,
        place: Place,
        count: u32,
        b: u64,
    ) -> Result<PieceEnd, NoMemory>
        ensures { let s = objects_of self.old in
            IfOk result (λ e. left_of self.new stage.new e ≡ left_by
            (model.stream_taken (call_of stage.old) s (blocks_of self.old) place.offset count
            (fetch (world_of turn.now.world.now) (s.things.pol 1) turn.now.process b
            (registers_of (answer_of turn.now.answer.now)) s.things.cache (blocks_of self.old)
            []))) }
    {
        let f = self.fetch(turn, b)?;
        let taken = range_of(turn.alloc, self.bytes_of(f), place.offset, count)?;
        go_on_with(stage, taken);
        Ok(ended(After::Continues))
    }

    /// The first piece of a stream's read.
    fn stream_fetches(
        &mut self,
        turn: &Turn<'_>,
        stage: &mut Stage,
        place: Place,
        count: u32,
    ) -> Result<PieceEnd, NoMemory>
        ensures { let s = objects_of self.old in
            IfOk result (λ e. left_of self.new stage.new e ≡ left_by
            (model.stream_fetches (file_block (world_of turn.now.world.now)
            (s.things.file turn.now.process place.descriptor) place.block place.offset count)
            (call_of stage.old) (world_of turn.now.world.now) s (blocks_of self.old)
            turn.now.process place.offset count (answer_of turn.now.answer.now) [])) }
    {
        let file = self.file(turn.process, place.descriptor);
        match block_meant(turn.world, &file, place, count as usize) {
            Err(refusal) => Ok(refuses(refusal)),
            Ok(b) => self.stream_taken(turn, stage, place, count, b),
        }
    }

    /// The second piece of a stream's read gives what comes out of its point.
    fn stream_gives(&self, turn: &Turn<'_>, stage: &Stage) -> Result<PieceEnd, NoMemory>
        ensures { IfOk result (λ e. (t : Stage) → left_of self.now t e ≡ left_by
            (record (leaves (objects_of self.now) (blocks_of self.now) ends_well) {
              gave = Some (model.through (answer_of turn.now.answer.now) stage.now.bytes.items);
            })) }
    {
        let gave = through(turn.alloc, turn.answer, &stage.bytes)?;
        Ok(PieceEnd {
            gave: Some(gave),
            after: After::EndsWith(Reply::Plain),
        })
    }

    /// The pieces of a stream's read.
    fn stream_read_piece(
        &mut self,
        turn: &Turn<'_>,
        stage: &mut Stage,
        place: Place,
        count: u32,
    ) -> Result<PieceEnd, NoMemory>
        ensures { IfOk result (λ e. left_of self.new stage.new e ≡ left_by
            (model.stream_read_piece stage.old.piece (stage_of stage.old)
            (world_of turn.now.world.now) (objects_of self.old) (blocks_of self.old)
            turn.now.process place.descriptor place.block place.offset count
            (answer_of turn.now.answer.now) [])) }
    {
        if stage.piece == 0 {
            self.stream_fetches(turn, stage, place, count)
        } else {
            self.stream_gives(turn, stage)
        }
    }

    /// The first piece of a stream's write: what came out of the point goes into the call, unless
    /// the file refuses.
    fn stream_changed(
        &self,
        turn: &Turn<'_>,
        stage: &mut Stage,
        block: Result<u64, Refusal>,
    ) -> Result<PieceEnd, NoMemory>
        ensures { IfOk result (λ e. left_of self.now stage.new e ≡ left_by
            (model.stream_changed block (call_of stage.old) (objects_of self.now)
            (blocks_of self.now) (model.through (answer_of turn.now.answer.now)
            stage.old.given.items))) }
    {
        match block {
            Err(refusal) => Ok(refuses(refusal)),
            Ok(_) => {
                let out = through(turn.alloc, turn.answer, &stage.given)?;
                go_on_with(stage, out);
                Ok(ended(After::Continues))
            }
        }
    }

    /// The pieces of a stream's write: what comes out of the point is taken into the call; then it
    /// is written.
    fn stream_write_piece(
        &mut self,
        turn: &Turn<'_>,
        stage: &mut Stage,
        place: Place,
    ) -> Result<PieceEnd, NoMemory>
        ensures { IfOk result (λ e. left_of self.new stage.new e ≡ left_by
            (model.stream_write_piece stage.old.piece (stage_of stage.old)
            (world_of turn.now.world.now) (objects_of self.old) (blocks_of self.old)
            turn.now.process place.descriptor place.block place.offset stage.old.given.items
            (answer_of turn.now.answer.now) [])) }
    {
        if stage.piece == 0 {
            let file = self.file(turn.process, place.descriptor);
            let block = block_meant(turn.world, &file, place, stage.given.len());
            self.stream_changed(turn, stage, block)
        } else {
            self.write_piece(turn, place, &stage.bytes)
        }
    }

    /// The next piece of a call of stream points.
    pub(crate) fn stream_piece(
        &mut self,
        turn: &Turn<'_>,
        stage: &mut Stage,
    ) -> Result<PieceEnd, NoMemory>
        ensures { IfOk result (λ e. left_of self.new stage.new e ≡ left_by
            (model.stream_piece (call_of stage.old) (stage_of stage.old)
            (world_of turn.now.world.now) (objects_of self.old) (blocks_of self.old)
            turn.now.process (answer_of turn.now.answer.now) [])) }
    {
        match stage.call {
            BareCall::StreamRead {
                descriptor,
                block,
                offset,
                length,
            } => {
                let place = Place {
                    descriptor,
                    block,
                    offset,
                };
                self.stream_read_piece(turn, stage, place, length)
            }
            BareCall::StreamWrite {
                descriptor,
                block,
                offset,
            } => {
                let place = Place {
                    descriptor,
                    block,
                    offset,
                };
                self.stream_write_piece(turn, stage, place)
            }
            _ => self.piece_of(turn, stage),
        }
    }
}
