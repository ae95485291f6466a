//! The words that stand in the lines that the program writes.

ghost use Rattle.std.specs.Prelude.{◌≡◌, is_some};
ghost use Rattle.std.specs.List.{list_all};
ghost use Rattle.script_model.specs.Bytes.{is_digit, hex_value};
ghost use Rattle.lab_words.specs.Forms as spec;

use lab_codes::{Code, text_of};
use text_words::{Parts, place_of};

/// A word that stands for itself.
#[derive(Clone, Copy, PartialEq, Eq)]
pub(crate) enum Verb {
    Boot,
    Tick,
    Done,
    Data,
    Ran,
    Waits,
    Graft,
    Left,
    Script,
    Drop,
    Asm,
    Lang,
}

/// What may stand at a place of a line.
#[derive(Clone, Copy)]
pub(crate) enum Slot {
    /// 1 to 20 digits.
    Number,
    /// Hex digits, one at least.
    HexDigits,
    /// An object, as `Cell(1,0)` or `Queue`.
    ObjectName,
    /// This word.
    Said(Verb),
    /// The text of this code.
    CodeText(Code),
}

/// The most digits of a number.
const DIGITS: usize = 20;

/// The names of objects, as they are written.
const OBJECTS: [&str; 8] = [
    "Graft", "Acct", "Cell", "Open", "Queue", "Cache", "Lock", "Pol",
];

fn is_decimal(byte: u8) -> bool
    ensures { result ≡ is_digit byte }
{
    byte >= b'0' && byte < b':'
}

fn all_digits(word: &[u8]) -> bool
    ensures { result ≡ list_all is_digit word.now }
{
    word.iter().all(|byte| is_decimal(*byte))
}

/// Whether a word is 1 to 20 digits.
pub(crate) fn is_number(word: &[u8]) -> bool
    ensures { result ≡ spec.is_number word.now }
{
    word.len() >= 1 && word.len() <= DIGITS && all_digits(word)
}

fn is_hex_digit(byte: u8) -> bool
    ensures { result ≡ is_some (hex_value byte) }
{
    byte.is_ascii_hexdigit()
}

fn all_hex_digits(word: &[u8]) -> bool
    ensures { result ≡ list_all (λ b. is_some (hex_value b)) word.now }
{
    word.iter().all(|byte| is_hex_digit(*byte))
}

fn is_hex(word: &[u8]) -> bool
    ensures { result ≡ spec.is_hex word.now }
{
    word.len() >= 1 && all_hex_digits(word)
}

/// What stands before the first `(` of a word.
pub fn before_parenthesis(word: &[u8]) -> &[u8]
    ensures { result.now ≡ spec.before_parenthesis word.now }
{
    match Parts::new(word, b'(').next() {
        Some(name) => name,
        None => [].as_slice(),
    }
}

/// Whether a word begins as an object is written.
fn is_object(word: &[u8]) -> bool
    ensures { result ≡ spec.is_object word.now }
{
    place_of(before_parenthesis(word), &OBJECTS).is_some()
}

fn verb_text(verb: Verb) -> &'static [u8]
    ensures { result.now ≡ spec.verb_text verb }
{
    match verb {
        Verb::Boot => b"boot".as_slice(),
        Verb::Tick => b"tick".as_slice(),
        Verb::Done => b"ok".as_slice(),
        Verb::Data => b"data".as_slice(),
        Verb::Ran => b"ran".as_slice(),
        Verb::Waits => b"waits".as_slice(),
        Verb::Graft => b"graft".as_slice(),
        Verb::Left => b"left".as_slice(),
        Verb::Script => b"script".as_slice(),
        Verb::Drop => b"drop".as_slice(),
        Verb::Asm => b"asm".as_slice(),
        Verb::Lang => b"lang".as_slice(),
    }
}

/// Whether a word may stand in a slot.
pub(crate) fn slot_fits(slot: Slot, word: &[u8]) -> bool
    ensures { result ≡ spec.slot_fits slot word.now }
{
    match slot {
        Slot::Number => is_number(word),
        Slot::HexDigits => is_hex(word),
        Slot::ObjectName => is_object(word),
        Slot::Said(verb) => verb_text(verb) == word,
        Slot::CodeText(code) => text_of(code) == word,
    }
}
