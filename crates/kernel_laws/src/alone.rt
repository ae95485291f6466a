//! Laws of a call that is alone in flight, where no graft stands.

ghost use Rattle.kernel_model.specs.Alone.{CallsRunAlone, OthersAreFree, NothingIsLeft};
ghost use Rattle.kernel_laws.specs.Alone.{EventOfOne, EventOfTwo};

use kernel_model::Rules;

/// A call is run to its end at its own event, piece after piece with the default answers, where no
/// user lock of another process hinders a piece.
pub fn calls_run_alone<R: Rules>()
    ensures { CallsRunAlone R.meaning }
{}

/// No user lock hinders a piece of a call other than `lock`.
pub fn others_are_free<R: Rules>()
    ensures { OthersAreFree R.meaning }
{}

/// Such a call leaves no call in flight, and writes the bytes that it gives and its end, so no
/// `waits` and no `graft` line.
pub fn nothing_is_left<R: Rules>()
    ensures { NothingIsLeft R.meaning }
{}

/// The event of a call of one piece is that piece by default, with its notes, and afterwards no
/// call is in flight. No law is asked of the table.
pub fn event_of_one<R: Rules>()
    ensures { EventOfOne R.meaning }
{}

/// So is it of a call of two pieces, one after the other.
pub fn event_of_two<R: Rules>()
    ensures { EventOfTwo R.meaning }
{}
