//! The sentences of the numbers that a host is told.

ghost use Rattle.std.specs.Prelude.{◌≡◌, ◌≤◌, length};
ghost use Rattle.vino_host.specs.Calls.{filled};
ghost use Rattle.vino_host.specs.Sentences as spec;

/// How a call ended, in words, for the kind of its answer.
pub fn sentence(kind: u32) -> &'static [u8]
    ensures text { result.now ≡ spec.sentence kind }
    ensures short { length result.now ≤ 63 }
{
    match kind {
        0 => b"returned",
        1 => b"divided by zero",
        2 => b"trapped",
        3 => b"called an id that isn't callable",
        4 => b"called with a bad argument",
        9 => b"took as many instructions as it may",
        10 => b"made as many records as it may",
        12 => b"gave an answer that its point refuses",
        16 => b"wanted a word of another call",
        17 => b"ran past its code",
        32 => b"waits for an answer of the host",
        33 => b"nothing was done: the call was misused",
        _ => b"no number of an answer",
    }
}

/// Why an image was refused, in words, for what `load` answered.
pub fn refusal_sentence(code: u32) -> &'static [u8]
    ensures text { result.now ≡ spec.refusal_sentence code }
    ensures short { length result.now ≤ 63 }
{
    match code {
        0 => b"loaded",
        1 => b"the length is not that of an image",
        2 => b"the first four bytes are not those of a sealed image",
        3 => b"the version is not known",
        4 => b"more instructions or data bytes than an image may have",
        5 => b"the seal is not right",
        6 => b"an instruction does not decode",
        7 => b"r14 or r15 is named outside of an access to memory",
        8 => b"a jump leaves the code or goes into an access",
        9 => b"the address of an access to memory is not masked",
        10 => b"a call has an id above 15",
        11 => b"the last instruction is not ret, jmp or trap",
        12 => b"a flag is set that is not known",
        13 => b"it names a key that was not given",
        14 => b"there was no memory",
        15 => b"it needs more bytes than there are",
        16 => b"the loaded plug-in was changed",
        _ => b"no number of a refusal",
    }
}

/// A sentence with zeros behind.
fn put(text: &mut [u8], words: &[u8])
    requires { length words.now ≤ length text.old }
    ensures { text.new ≡ filled (length text.old) words.now }
{
    text[..words.len()].copy_from_slice(words);
    text[words.len()..].fill(0);
}

/// Puts the sentence of a kind into 64 bytes, with zeros behind.
pub fn put_sentence(kind: u32, text: &mut [u8; 64])
    ensures { text.new ≡ filled 64 (spec.sentence kind) }
{
    put(text, sentence(kind));
}

/// Puts the sentence of what `load` answered into 64 bytes, with zeros behind.
pub fn put_refusal_sentence(code: u32, text: &mut [u8; 64])
    ensures { text.new ≡ filled 64 (spec.refusal_sentence code) }
{
    put(text, refusal_sentence(code));
}
