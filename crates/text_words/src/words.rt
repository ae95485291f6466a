//! Words of texts: names and numbers.

ghost use Rattle.std.specs.Prelude.{◌≡◌, ◌<◌, length, position, IfSome};
ghost use Rattle.std.specs.List.{list_all};
ghost use Rattle.kernel_data.specs.World.{same_bytes};
ghost use Rattle.kernel_data.specs.Bytes as model;

/// The place of a name in a list of names.
pub fn place_of(name: &[u8], names: &[&str]) -> Option<usize>
    ensures place { result ≡ position (λ listed. same_bytes name.now listed.now) names.now }
    ensures within { IfSome result (λ i. i < length names.now) }
{
    names.iter().position(|listed| name == listed.as_bytes())
}

fn is_letter(b: u8) -> bool
    ensures { result ≡ model.is_letter b }
{
    b >= b'a' && b < b'z' + 1
}

fn is_digit(b: u8) -> bool
    ensures { result ≡ model.is_digit b }
{
    b >= b'0' && b < b'9' + 1
}

fn is_label_byte(b: u8) -> bool
    ensures { result ≡ model.is_label_byte b }
{
    is_letter(b) || is_digit(b) || b == b'_'
}

fn all_label_bytes(bytes: &[u8]) -> bool
    ensures { result ≡ list_all model.is_label_byte bytes.now }
{
    bytes.iter().all(|b| is_label_byte(*b))
}

/// Whether a word is a label: a letter, then letters, digits and `_`, up to 16 bytes.
pub fn is_label(word: &[u8]) -> bool
    ensures { result ≡ model.is_label word.now }
{
    match word.split_first() {
        None => false,
        Some((first, others)) => {
            is_letter(*first) && others.len() <= 15 && all_label_bytes(others)
        }
    }
}

/// The number that 1 to 10 decimal digits write, if it is below 2^32.
pub fn number_of(word: &[u8]) -> Option<u32>
    ensures { result ≡ model.number_of word.now }
{
    if word.is_empty() || word.len() > 10 {
        return None;
    }
    let mut value = 0u64;
    for b in word {
        if !is_digit(*b) {
            return None;
        }
        value = value * 10 + u64::from(*b - b'0');
    }
    u32::try_from(value).ok()
}
