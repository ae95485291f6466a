//! Laws of the words that are added to the fixed ones.

ghost use Rattle.script_text.specs.OwnWords.{ReadAsItsCall, OthersStay};

/// A line that begins with an added word is read as the line that begins with the word of its call
/// instead, where the added words differ from all fixed ones and from each other.
pub fn own_words_are_read_as_their_calls()
    ensures { ReadAsItsCall }
{}

/// A line that begins with a fixed word, or with none of the added ones, is read as without added
/// words.
pub fn other_lines_stay()
    ensures { OthersStay }
{}
