//! Reading a whole input.

ghost use Rattle.std.specs.Prelude.{◌≡◌, ◌<◌, ◌≤◌, [], length, IfOk, OnErr, vec_len};
ghost use Rattle.vino_base.specs.Streams.{IsUsed};
ghost use Rattle.commands.specs.Views.{ending_of, reading_failed};
ghost use Rattle.commands.specs.Filtered.{Took, Gave};

use script_model::NoMemory;
use std::alloc::Global;
use vino_base::Source;

/// The most bytes of an input.
const INPUT_BYTES: usize = 16_777_216;

/// How many bytes are read at once, at most.
const READ_BYTES: usize = 65_536;

/// How reading ended.
#[derive(Clone, Copy)]
pub(crate) enum Ending {
    /// The source has no more bytes.
    End,
    /// A read failed.
    Fault,
    /// One byte more than an input may have was taken.
    Over,
}

/// So many zero bytes.
fn zeros(alloc: Global, n: usize) -> Result<Vec<u8>, NoMemory>
    ensures { IfOk result (λ v. vec_len v ≡ n) }
{
    match vec![in alloc; 0u8; n] {
        Ok(v) => Ok(v),
        Err(_) => Err(NoMemory),
    }
}

/// Takes pieces until the source ends, fails, or has given a byte more than an input may have.
fn read_pieces<S: Source>(
    src: &mut S,
    buf: &mut [u8],
    input: &mut Vec<u8>,
) -> Result<Ending, NoMemory>
    requires empty { input.old.items ≡ [] }
    requires room { 0 < length buf.old }
    ensures took { IfOk result
        (λ e. Took (S.seen src.old) (S.seen src.new) input.new.items (ending_of e)) }
    ensures gave { OnErr result (Gave (S.seen src.old) (S.seen src.new)) }
    ensures used { IsUsed (S.seen src.old).device (S.seen src.new).device (reading_failed result) }
{
    while input.len() <= INPUT_BYTES {
        let room = buf.len().min(INPUT_BYTES + 1 - input.len());
        match src.read(&mut buf[..room]) {
            Err(_) => return Ok(Ending::Fault),
            Ok(0) => return Ok(Ending::End),
            Ok(n) => {
                if let Err(_) = input.extend_from_slice(&buf[..n]) {
                    return Err(NoMemory);
                }
            }
        }
    }
    Ok(Ending::Over)
}

/// Takes the whole input, in pieces of up to 64 KiB.
pub(crate) fn read_all<S: Source>(
    alloc: Global,
    src: &mut S,
    input: &mut Vec<u8>,
) -> Result<Ending, NoMemory>
    requires { input.old.items ≡ [] }
    ensures took { IfOk result
        (λ e. Took (S.seen src.old) (S.seen src.new) input.new.items (ending_of e)) }
    ensures gave { OnErr result (Gave (S.seen src.old) (S.seen src.new)) }
    ensures used { IsUsed (S.seen src.old).device (S.seen src.new).device (reading_failed result) }
{
    match zeros(alloc, READ_BYTES) {
        Err(_) => Err(NoMemory),
        Ok(mut buf) => read_pieces(src, &mut buf, input),
    }
}
