//! The laws of text in a picture.

ghost use Rattle.lab_picture.specs.Escapes.{TextIsPlain, WordsAreWhole};

/// A text of a picture has printable signs of ASCII alone, and none that begins or ends a tag or a
/// value.
pub fn text_is_plain()
    ensures { TextIsPlain }
{}

/// What stands of a text that is too long are whole words, so no number of it is cut.
pub fn words_are_whole()
    ensures { WordsAreWhole }
{}
