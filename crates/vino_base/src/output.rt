//! Writing whole texts.

ghost use Rattle.std.specs.Prelude.{◌≡◌, ℕ, ◌<◌, ◌≤◌, length, MatchResult};
ghost use Rattle.std.specs.Io.KnownBytes.{Appends};
ghost use Rattle.std.specs.Result.{is_err};
ghost use Rattle.vino_base.specs.Streams.{AppendsPart, IsUsed};

use crate::streams::{Failed, Sink};

/// Writes all bytes. Where the sink fails it took a part of them that isn't all.
pub fn write_all<K: Sink>(out: &mut K, bytes: &[u8]) -> Result<(), Failed>
    ensures used { IsUsed (K.seen out.old).device (K.seen out.new).device (is_err result) }
    ensures contents { MatchResult result
        (λ _. Appends (K.seen out.old).got (K.seen out.new).got bytes.now)
        (λ _. AppendsPart (K.seen out.old).got (K.seen out.new).got bytes.now) }
{
    let mut at = 0;
    while at < bytes.len() {
        at += out.write(&bytes[at..])?;
    }
    Ok(())
}
