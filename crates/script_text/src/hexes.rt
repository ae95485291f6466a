//! Hex digits of either case in words.

ghost use Rattle.std.specs.Prelude.{◌≡◌};
ghost use Rattle.std.specs.List.{list_all};
ghost use Rattle.script_model.specs.Bytes.{hex_word};
ghost use Rattle.script_model.specs.Script.{WRITE_DIGITS, IMAGE_DIGITS};
ghost use Rattle.hex_tables.specs.Tables.{decoded};
ghost use Rattle.script_text.specs.Words.{is_hex_digit};

use crate::ImageBytes;
use crate::digits::put_bytes;
use arrayvec::ArrayVec;
use hex_tables::{decode, is_digit};
use script_model::BLOCK_BYTES;

/// The most hex digits of a `write`, a `swrite` and a `serve`.
const MOST_WRITTEN: usize = 2 * BLOCK_BYTES;

/// The most hex digits of an `image`.
const MOST_LOADED: usize = 65534;

/// The bytes that a `write`, a `swrite` or a `serve` carries, which go to `bytes`: 2 to 1,024 hex
/// digits, an even number. Whether the word is such.
pub(crate) fn written(word: &[u8], bytes: &mut ArrayVec<u8, BLOCK_BYTES>) -> bool
    ensures { decoded result bytes.new.items ≡ hex_word WRITE_DIGITS word.now }
{
    if word.len() < 2 || word.len() > MOST_WRITTEN || word.len() % 2 == 1 {
        return false;
    }
    // As many bytes as the word has, to be written over: no block is cleared for them.
    put_bytes(&word[..word.len() / 2], bytes);
    decode(word, bytes.as_mut_slice())
}

/// Whether all bytes of a word are hex digits.
fn all_digits(word: &[u8]) -> bool
    ensures { result ≡ list_all is_hex_digit word.now }
{
    word.iter().all(|byte| is_digit(*byte))
}

/// The bytes of an image: 2 to 65,534 hex digits, an even number. They are decoded later.
pub(crate) fn loaded<'a>(word: &'a [u8]) -> Option<ImageBytes<'a>>
    ensures { result ≡ hex_word IMAGE_DIGITS word.now }
{
    if word.len() < 2 || word.len() > MOST_LOADED || word.len() % 2 == 1 || !all_digits(word) {
        return None;
    }
    Some(ImageBytes::new(word))
}
