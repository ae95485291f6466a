//! The laws of the language: code does what its program says.

ghost use Rattle.graft_lang.specs.Placing.{ExpressionsRun};
ghost use Rattle.graft_lang.specs.Going.{StatementsRun};
ghost use Rattle.graft_lang.specs.Behaves.{ProgramsRun};
ghost use Rattle.graft_lang.specs.Sizes.{ProgramsAreShort, ProgramsAreBoxed};
ghost use Rattle.graft_lang.specs.Accepted.{AcceptedProgramsRun, AcceptedTextsAreSpelled};

/// The code of an expression comes to its value, or divides by zero where it has none.
pub fn expressions_run()
    ensures { ExpressionsRun }
{}

/// The code of statements does what the statements do.
pub fn statements_run()
    ensures { StatementsRun }
{}

/// The code of a program does what it says, in both directions.
pub fn programs_run()
    ensures { ProgramsRun }
{}

/// Boxed, a program needs at most 8 instructions a token and 32 more.
pub fn programs_are_short()
    ensures { ProgramsAreShort }
{}

/// The rewriter refuses no program of at most 120 tokens.
pub fn programs_are_boxed()
    ensures { ProgramsAreBoxed }
{}

/// The code of the program that an accepted text spells does what the program says, and the
/// rewriter takes it.
pub fn accepted_programs_run()
    ensures { AcceptedProgramsRun }
{}

/// A text that is accepted spells a program.
pub fn accepted_texts_are_spelled()
    ensures { AcceptedTextsAreSpelled }
{}
