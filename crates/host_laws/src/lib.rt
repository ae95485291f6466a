//! The laws of hosted plug-ins. A call of one brings its statement into a proof.
#![tactic(auto)]

ghost use Rattle.host_laws.specs.Alone.{RunsHangOnTheirWords};
ghost use Rattle.host_laws.specs.Boxed.{BoxedCallsAreRaw, BoxedPluginsAreRaw};
ghost use Rattle.host_laws.specs.Histories.{CallsAreOneAtATime};
ghost use Rattle.host_laws.specs.Written.{WrittenPluginsDoWhatTheySay};
ghost use Rattle.host_laws.specs.WrittenHistories.{CompletedCallsAreAsWritten};
ghost use Rattle.host_laws.specs.Claims.{StepsAreRaw, RunsAreRaw, RunsKeepTheTable, RunsLeaveOthers};

/// An instruction of a plug-in is one of its code with each address masked.
pub fn steps_are_raw()
    ensures { StepsAreRaw }
{}

/// The run of a plug-in is the run of its code with each address masked, to which the table's words
/// are the answers: after as many instructions it ends in the same way, and where it returns, with
/// the same registers and the same segment.
pub fn runs_are_raw()
    ensures { RunsAreRaw }
{}

/// Where raw code comes to its end within so many instructions, a plug-in whose code the rewriter made of
/// it does, within that many and two more for each access, what the raw code did. The host answers its
/// calls with any words.
pub fn boxed_plugins_are_raw()
    ensures { BoxedPluginsAreRaw }
{
    graft_machine::laws::stays_inside();
    box_rewriter::laws::rewritten_is_boxed();
    box_rewriter::laws::boxed_does_what_raw_does();
}

/// A call of such a plug-in, whose calls the caller answers in turn, answers as the raw code ends: it
/// returns the same registers and leaves the same segment, divides by zero, or traps with the same
/// code.
pub fn boxed_calls_are_raw()
    ensures { BoxedCallsAreRaw }
{
    boxed_plugins_are_raw();
}

/// A call of a plug-in that was compiled from a text of the graft language, boxed, sealed and loaded
/// answers as the text's program ends: with the same r0 and r1, by a division by zero, or by the same trap.
pub fn written_plugins_do_what_they_say()
    ensures { WrittenPluginsDoWhatTheySay }
{
    graft_loader::laws::sealed_images_load();
    boxed_calls_are_raw();
}

/// Whatever a run does, what its records put back is the table with which it began.
pub fn runs_keep_the_table()
    ensures { RunsKeepTheTable }
{}

/// A run leaves each word of the table that belongs to another call as it is.
pub fn runs_leave_others()
    ensures { RunsLeaveOthers }
{}

/// A run that returns or waits hangs on the words that it touched, and on no others: over any table
/// that agrees on these it stops in the same way, with the same machine and the same records, and
/// leaves the same in these words; all else stays as it was there.
pub fn runs_hang_on_their_words()
    ensures { RunsHangOnTheirWords }
{}

/// However beginnings, answers and ends of many calls lie between one another over the same words,
/// each call that completed gave what it gives at once, from its beginning to its end, after those
/// that completed before it; and where none waits, the words are as these calls leave them.
pub fn calls_are_one_at_a_time()
    ensures { CallsAreOneAtATime }
{}

/// However many calls lie between one another over the same words, each call that completed of a
/// plug-in that was compiled from a text of the graft language, boxed, sealed and loaded answered what
/// the text's program answers over the words at the call's place, one call at a time.
pub fn completed_calls_are_as_written()
    ensures { CompletedCallsAreAsWritten }
{
    graft_machine::laws::stays_inside();
    box_rewriter::laws::rewritten_is_boxed();
    box_rewriter::laws::boxed_does_what_raw_does();
    graft_loader::laws::sealed_images_load();
    calls_are_one_at_a_time();
}
