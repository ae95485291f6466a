//! The laws of the grammar. By them a token is refused exactly where it is the first with which no
//! program can go on.

ghost use Rattle.graft_syntax.specs.Laws.{SpellingsAreRead, ReadTokensAreSpelled, ReadTokensGoOn};
ghost use Rattle.graft_syntax.specs.Laws.{RefusedTokensDontGoOn};

/// The spelling of a program is read.
pub fn spellings_are_read()
    ensures { SpellingsAreRead }
{}

/// What is read is the spelling of a program.
pub fn read_tokens_are_spelled()
    ensures { ReadTokensAreSpelled }
{}

/// Tokens that are read begin the spelling of a program.
pub fn read_tokens_go_on()
    ensures { ReadTokensGoOn }
{}

/// With a token that is refused no program goes on.
pub fn refused_tokens_do_not_go_on()
    ensures { RefusedTokensDontGoOn }
{}
