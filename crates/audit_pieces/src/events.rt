//! The pieces of the calls of event points.

ghost use Rattle.std.specs.Prelude.{◌≡◌, ◌<◌, None, IfOk, drop, option_map};
ghost use Rattle.kernel_model.specs.Meaning as meaning;
ghost use Rattle.kernel_model.specs.EventPoints as model;
ghost use Rattle.kernel_model.specs.Pieces.{new_graft};
ghost use Rattle.audit_needs.specs.Stages.{call_of, stage_of};
ghost use Rattle.audit_pieces.specs.Ends.{after_of, answer_of, given, left_by, left_of};
ghost use Rattle.audit_pieces.specs.Stores.{objects_of, blocks_of};

use crate::ends::{ended, ends_with, refuses, well};
use crate::numbers::one_more;
use crate::{After, Answer, PieceEnd, Store, Turn};
use audit_needs::Stage;
use audit_state::policies::byte_of;
use audit_table::copy;
use kernel_model::{BareCall, NoMemory, Refusal, Reply};
use std::alloc::Global;

/// The first point of ports: that of port 0.
const FIRST_PORT_POINT: u32 = 6;

/// A `serve` goes on with the handlers of its stage, or ends with how many answered.
fn serves_on(stage: &mut Stage, piece: u32) -> After
    ensures { after_of result stage.new ≡ model.serves_on (call_of stage.old) piece
        stage.old.handlers.items stage.old.answers }
{
    if stage.handlers.is_empty() {
        return After::EndsWith(Reply::One(stage.answers));
    }
    stage.piece = piece;
    stage.bytes.clear();
    After::Continues
}

/// The bytes that an answer gives, if there is one.
fn body_of(alloc: Global, answer: &Option<Answer>) -> Result<Option<Vec<u8>>, NoMemory>
    ensures { IfOk result (λ body. given body
        ≡ option_map (λ (a : meaning.Answer). a.body) (answer_of answer.now)) }
{
    match answer {
        None => Ok(None),
        Some(a) => Ok(Some(copy(alloc, &a.body)?)),
    }
}

/// One more where there is an answer.
fn answers_with(answer: &Option<Answer>, n: u32) -> Result<u32, NoMemory>
    ensures { IfOk result (λ m. m ≡ model.answers_with (answer_of answer.now) n) }
{
    match answer {
        None => Ok(n),
        Some(_) => one_more(n),
    }
}

/// The list without its first, if it has one.
fn drop_first(handlers: &mut Vec<(u8, u8)>)
    ensures { handlers.new.items ≡ drop 1 handlers.old.items }
{
    if !handlers.is_empty() {
        handlers.remove(0);
    }
}

impl Store {
    /// A graft becomes the last handler of its port, where that has room.
    fn handler_at(&mut self, p: u8, pt: u8, slot: u32, limit: u32) -> Result<PieceEnd, NoMemory>
        ensures { IfOk result (λ e. (t : Stage) → left_of self.new t e ≡ left_by
            (model.handler_joins (objects_of self.old) p pt (new_graft slot limit) None
            (blocks_of self.old))) }
    {
        if self.has_room(p, pt) {
            let image = byte_of(slot)?;
            self.install(p, pt, image, limit)?;
            self.put_handler(p, pt)?;
            Ok(well())
        } else {
            Ok(refuses(Refusal::PortFull))
        }
    }

    /// A graft is put at an event point where none stands.
    fn handler_joins(&mut self, p: u8, pt: u8, slot: u32, limit: u32) -> Result<PieceEnd, NoMemory>
        ensures { IfOk result (λ e. (t : Stage) → left_of self.new t e ≡ left_by
            (model.handler_joins (objects_of self.old) p pt (new_graft slot limit)
            ((objects_of self.old).accounts.graft p pt) (blocks_of self.old))) }
    {
        match self.graft(p, pt) {
            Some(_) => Ok(refuses(Refusal::Taken)),
            None => self.handler_at(p, pt, slot, limit),
        }
    }

    /// A graft is taken out, with its handler.
    fn handler_leaves(&mut self, p: u8, pt: u8) -> Result<PieceEnd, NoMemory>
        ensures { IfOk result (λ e. (t : Stage) → left_of self.new t e ≡ left_by
            (model.handler_leaves (objects_of self.old) p pt
            ((objects_of self.old).accounts.graft p pt) (blocks_of self.old))) }
    {
        match self.graft(p, pt) {
            None => Ok(refuses(Refusal::NoGraft)),
            Some(_) => {
                self.remove(p, pt)?;
                self.remove_handler(p, pt);
                Ok(well())
            }
        }
    }

    /// The handlers of a port are taken into the call.
    fn serve_first(
        &self,
        turn: &Turn<'_>,
        stage: &mut Stage,
        port: u32,
    ) -> Result<PieceEnd, NoMemory>
        ensures { IfOk result (λ e. left_of self.now stage.new e ≡ left_by
            (model.serve_piece 0 (call_of stage.old) port stage.old.handlers.items
            stage.old.answers (objects_of self.now) (blocks_of self.now)
            (answer_of turn.now.answer.now))) }
    {
        let pt = byte_of(port)?;
        let point = byte_of(FIRST_PORT_POINT + u32::from(pt))?;
        stage.handlers = self.handlers_at(turn.alloc, point)?;
        stage.answers = 0;
        Ok(ended(serves_on(stage, 1)))
    }

    /// The next handler was asked: its answer's bytes are given, and nothing by default.
    fn serve_next(
        &self,
        turn: &Turn<'_>,
        stage: &mut Stage,
        port: u32,
    ) -> Result<PieceEnd, NoMemory>
        requires { 0 < stage.old.piece }
        ensures { IfOk result (λ e. left_of self.now stage.new e ≡ left_by
            (model.serve_piece stage.old.piece (call_of stage.old) port stage.old.handlers.items
            stage.old.answers (objects_of self.now) (blocks_of self.now)
            (answer_of turn.now.answer.now))) }
    {
        if stage.handlers.is_empty() {
            return Ok(ends_with(Reply::One(stage.answers)));
        }
        let gave = body_of(turn.alloc, turn.answer)?;
        let piece = one_more(stage.piece)?;
        stage.answers = answers_with(turn.answer, stage.answers)?;
        drop_first(&mut stage.handlers);
        let after = serves_on(stage, piece);
        Ok(PieceEnd { gave, after })
    }

    /// The pieces of a `serve`, by their number.
    fn serve_piece(
        &self,
        turn: &Turn<'_>,
        stage: &mut Stage,
        port: u32,
    ) -> Result<PieceEnd, NoMemory>
        ensures { IfOk result (λ e. left_of self.now stage.new e ≡ left_by
            (model.serve_piece stage.old.piece (call_of stage.old) port stage.old.handlers.items
            stage.old.answers (objects_of self.now) (blocks_of self.now)
            (answer_of turn.now.answer.now))) }
    {
        if stage.piece == 0 {
            self.serve_first(turn, stage, port)
        } else {
            self.serve_next(turn, stage, port)
        }
    }

    /// The next piece of a call of event points.
    pub(crate) fn event_piece(
        &mut self,
        turn: &Turn<'_>,
        stage: &mut Stage,
    ) -> Result<PieceEnd, NoMemory>
        ensures { IfOk result (λ e. left_of self.new stage.new e ≡ left_by
            (model.event_piece (call_of stage.old) (stage_of stage.old) (objects_of self.old)
            (blocks_of self.old) turn.now.process (answer_of turn.now.answer.now))) }
    {
        let p = turn.process;
        match stage.call {
            BareCall::Serve(port) => self.serve_piece(turn, stage, port),
            BareCall::Install { point, slot, limit } => {
                self.handler_joins(p, byte_of(point)?, slot, limit)
            }
            BareCall::Remove(point) => self.handler_leaves(p, byte_of(point)?),
            BareCall::Fund {
                point,
                kind,
                amount,
            } => self.fund_piece(p, byte_of(point)?, kind, amount),
            BareCall::Bill(point) => self.bill_piece(p, byte_of(point)?),
            _ => Ok(refuses(Refusal::BadPoint)),
        }
    }
}
