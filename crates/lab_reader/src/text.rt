//! Bytes that a lab file says.

ghost use Rattle.std.specs.Prelude.{◌≡◌, IfOk};

use script_model::NoMemory;
use std::alloc::Global;
use std::marker::Model;
use text_words::append;

/// Bytes that a lab file says.
#[derive(Drop)]
pub struct Text {
    bytes: Vec<u8>,
}

impl Model for Text {
    ghost use Rattle.std.specs.Prelude.{ℕ, List};

    ghost Value = { List ℕ };

    ghost view = { λ t. t.bytes.items };
}

impl Text {
    /// A text of these bytes.
    pub fn new(bytes: Vec<u8>) -> Text
        ensures { result ≡ bytes.items }
    {
        Text { bytes }
    }

    /// The bytes.
    pub fn bytes(&self) -> &[u8]
        ensures { result.now ≡ self.now }
    {
        self.bytes.as_slice()
    }
}

/// A text of its own with these bytes.
pub fn text_of(alloc: Global, bytes: &[u8]) -> Result<Text, NoMemory>
    ensures { IfOk result (λ text. text ≡ bytes.now) }
{
    let mut text = Vec::new(alloc);
    append(&mut text, bytes)?;
    Ok(Text::new(text))
}
