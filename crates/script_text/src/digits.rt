//! Numbers, names and hex digits in words.

ghost use Rattle.std.specs.Prelude.{◌≡◌, ◌≤◌, ◌==◌, length, drop, cond, slice_index, true, Some, None, IfSome};
ghost use Rattle.std.specs.List.{list_all};
ghost use Rattle.script_model.specs.Bytes.{is_digit, is_name_byte, number_of, digits_value};
ghost use Rattle.script_model.specs.Script.{name_word};
ghost use Rattle.hex_tables.specs.Tables.{decoded};
ghost use Rattle.script_text.specs.Words.{word_length, IsFirstNumber};

use arrayvec::ArrayVec;
use script_model::{BLOCK_BYTES, NAME_BYTES};

/// The most digits of a number.
const DIGITS: usize = 10;

/// The byte between two words.
pub(crate) const SPACE: u8 = b' ';

/// A number of 1 to 10 decimal digits, below 2^32; none where the word is something else. Leading
/// zeros are allowed.
pub fn read_number(word: &[u8]) -> Option<u32>
    ensures { result ≡ number_of word.now }
{
    if word.is_empty() || word.len() > DIGITS {
        return None;
    }
    match value(word) {
        Some(n) => u32::try_from(n).ok(),
        None => None,
    }
}

/// The number that digits write; none where a byte is something else.
fn value(word: &[u8]) -> Option<u64>
    requires few { length word.now ≤ 10 }
    ensures { result ≡ cond (list_all is_digit word.now) (Some (digits_value word.now)) None }
{
    let mut n: u64 = 0;
    for byte in word {
        if !is_decimal(*byte) {
            return None;
        }
        n = n * 10 + u64::from(*byte - b'0');
    }
    Some(n)
}

/// Whether a word ends at a place of a text.
pub(crate) fn ends_at(text: &[u8], at: usize) -> bool
    requires { at ≤ length text.now }
    ensures { result ≡ (word_length (drop at text.now) == 0) }
{
    at == text.len() || text[at] == SPACE
}

/// Whether a byte is a decimal digit.
fn is_decimal(byte: u8) -> bool
    ensures { result ≡ is_digit byte }
{
    byte >= b'0' && byte <= b'9'
}

/// The number that is the first word of a text, and how many digits it has, of which the first is
/// read already. None where the word is something else.
fn longer_number(text: &[u8], first: u8) -> Option<(u32, usize)>
    requires some { 1 ≤ length text.now }
    requires first { first ≡ slice_index text.now 0 }
    requires digit { is_digit first ≡ true }
    ensures { IfSome result (λ read. IsFirstNumber text.now read.0 read.1) }
{
    let most = text.len().min(DIGITS);
    let mut n = u64::from(first - b'0');
    let mut size = 1;
    while size < most && is_decimal(text[size]) {
        n = n * 10 + u64::from(text[size] - b'0');
        size += 1;
    }
    if !ends_at(text, size) {
        return None;
    }
    match u32::try_from(n) {
        Ok(n) => Some((n, size)),
        Err(_) => None,
    }
}

/// The number that is the first word of a text, and how many digits it has. They are read as the
/// end of the word is looked for. None where the word is something else.
pub(crate) fn first_number(text: &[u8]) -> Option<(u32, usize)>
    ensures { IfSome result (λ read. IsFirstNumber text.now read.0 read.1) }
{
    if text.is_empty() {
        return None;
    }
    let first = text[0];
    if !is_decimal(first) {
        return None;
    }
    if ends_at(text, 1) {
        return Some((u32::from(first - b'0'), 1));
    }
    longer_number(text, first)
}

/// Whether a byte may stand in a name: a to z, 0 to 9, `.`, `_` or `-`.
fn stands_in_name(byte: u8) -> bool
    ensures { result ≡ is_name_byte byte }
{
    matches!(byte, b'a'..=b'z' | b'0'..=b'9' | b'.' | b'_' | b'-')
}

/// Whether each byte may stand in a name.
fn all_in_name(word: &[u8]) -> bool
    ensures { result ≡ list_all is_name_byte word.now }
{
    word.iter().all(|byte| stands_in_name(*byte))
}

/// A name of 1 to 16 bytes, which go to `bytes`. Whether the word is one.
pub(crate) fn name(word: &[u8], bytes: &mut ArrayVec<u8, BLOCK_BYTES>) -> bool
    ensures { decoded result bytes.new.items ≡ name_word word.now }
{
    if word.is_empty() || word.len() > NAME_BYTES || !all_in_name(word) {
        return false;
    }
    put_bytes(word, bytes);
    true
}

/// These bytes take the place of what there was.
pub(crate) fn put_bytes(word: &[u8], bytes: &mut ArrayVec<u8, BLOCK_BYTES>)
    requires { length word.now ≤ 512 }
    ensures { bytes.new.items ≡ word.now }
{
    bytes.clear();
    let _ = bytes.try_extend_from_slice(word);
}
