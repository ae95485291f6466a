//! How pieces end.

ghost use Rattle.std.specs.Prelude.{◌≡◌, None};
ghost use Rattle.kernel_model.specs.Meaning as meaning;
ghost use Rattle.kernel_model.specs.Meaning.{stage, registers_of};
ghost use Rattle.kernel_model.specs.FilePieces.{unless_zero, well as ends_well};
ghost use Rattle.audit_needs.specs.Stages.{call_of, stage_of};
ghost use Rattle.audit_pieces.specs.Ends.{after_of, answer_of, gave_of};

use crate::{After, Answer, PieceEnd};
use audit_needs::Stage;
use kernel_model::{Refusal, Reply};

/// A piece that gives nothing.
pub(crate) fn ended(after: After) -> PieceEnd
    ensures gave { gave_of result ≡ None }
    ensures after { (t : Stage) → after_of result.after t ≡ after_of after t }
{
    PieceEnd { gave: None, after }
}

/// A piece that is refused.
pub(crate) fn refuses(why: Refusal) -> PieceEnd
    ensures gave { gave_of result ≡ None }
    ensures after { (t : Stage) → after_of result.after t ≡ meaning.Fails why }
{
    PieceEnd {
        gave: None,
        after: After::Fails(why),
    }
}

/// The call ends with a reply.
pub(crate) fn ends_with(reply: Reply) -> PieceEnd
    ensures gave { gave_of result ≡ None }
    ensures after { (t : Stage) → after_of result.after t ≡ meaning.EndsWith reply }
{
    PieceEnd {
        gave: None,
        after: After::EndsWith(reply),
    }
}

/// The call ends well, with no value.
pub(crate) fn well() -> PieceEnd
    ensures gave { gave_of result ≡ None }
    ensures after { (t : Stage) → after_of result.after t ≡ ends_well }
{
    PieceEnd {
        gave: None,
        after: After::EndsWith(Reply::Plain),
    }
}

/// The next piece is that of this number, and carries nothing.
pub(crate) fn go_on(stage_is: &mut Stage, piece: u32)
    ensures { stage_of stage_is.new ≡ stage (call_of stage_is.old) piece }
{
    stage_is.piece = piece;
    stage_is.handlers.clear();
    stage_is.answers = 0;
    stage_is.bytes.clear();
}

/// The next piece is that of this number, unless a count is 0, which ends the call.
pub(crate) fn go_on_unless_zero(stage_is: &mut Stage, piece: u32, count: u32) -> After
    ensures { after_of result stage_is.new
        ≡ unless_zero (stage (call_of stage_is.old) piece) count }
{
    if count == 0 {
        After::EndsWith(Reply::Plain)
    } else {
        go_on(stage_is, piece);
        After::Continues
    }
}

/// The registers of an answer, if there is one.
pub(crate) fn registers(answer: &Option<Answer>) -> Option<[u32; 4]>
    ensures { result ≡ registers_of (answer_of answer.now) }
{
    match answer {
        None => None,
        Some(a) => Some(a.registers),
    }
}
