//! Words that are no tokens, parted into what their writer may have meant.

use crate::NoMemory;
use text_words::append;

/// The kind of a byte: one that goes on with others of its kind to a token, or stands alone.
#[derive(Clone, Copy, PartialEq, Eq)]
enum Kind {
    Name,
    Shift,
    Equal,
    Sign,
}

fn kind_of(byte: u8) -> Kind {
    match byte {
        b'a'..=b'z' | b'A'..=b'Z' | b'0'..=b'9' | b'_' => Kind::Name,
        b'<' | b'>' => Kind::Shift,
        b'=' => Kind::Equal,
        _ => Kind::Sign,
    }
}

/// Whether a byte is one of a sign or of an operator.
pub fn is_sign(byte: u8) -> bool {
    matches!(
        byte,
        b'=' | b';'
            | b'{'
            | b'}'
            | b'('
            | b')'
            | b','
            | b'+'
            | b'-'
            | b'*'
            | b'/'
            | b'%'
            | b'&'
            | b'|'
            | b'^'
            | b'<'
            | b'>'
    )
}

/// Whether all bytes of a word are those of names, signs and operators, with both kinds there.
pub fn is_joined(word: &[u8]) -> bool {
    word.iter()
        .all(|b| kind_of(*b) == Kind::Name || is_sign(*b))
        && word.iter().any(|b| kind_of(*b) == Kind::Name)
        && word.iter().any(|b| is_sign(*b))
}

/// Appends a word with a space between two tokens of it.
pub fn add_parted(out: &mut Vec<u8>, word: &[u8]) -> Result<(), NoMemory> {
    let mut above = None;
    for byte in word {
        let kind = kind_of(*byte);
        let goes_on = kind != Kind::Sign && above == Some(kind);
        if above.is_some() && !goes_on {
            append(out, b" ")?;
        }
        append(out, &[*byte])?;
        above = Some(kind);
    }
    Ok(())
}
