//! Keys on the command line.

ghost use Rattle.std.specs.Prelude.{◌≡◌, ◌==◌, position};
ghost use Rattle.graft_loader.specs.Keys.{key_of, keys_of};

use graft_code::Keys;

/// The key that 64 hex digits of either case write.
fn read_key(text: &[u8]) -> Option<[u8; 32]>
    ensures { result ≡ key_of text.now }
{
    let mut key = [0; 32];
    match hex::decode_to_slice(text, &mut key) {
        Ok(()) => Some(key),
        Err(_) => None,
    }
}

/// The place of the first comma.
fn comma_at(text: &[u8]) -> Option<usize>
    ensures { result ≡ position (λ b. b == 44) text.now }
{
    text.iter().position(|byte| *byte == b',')
}

/// The keys that a word of the command line writes: 64 hex digits of either case, or twice 64 with
/// a comma between them.
pub fn read_keys(text: &[u8]) -> Option<Keys>
    ensures { result ≡ keys_of text.now }
{
    match comma_at(text) {
        None => Some(Keys {
            first: read_key(text)?,
            second: None,
        }),
        Some(comma) => Some(Keys {
            first: read_key(&text[..comma])?,
            second: Some(read_key(&text[comma + 1..])?),
        }),
    }
}
