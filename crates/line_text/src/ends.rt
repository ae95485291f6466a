//! The lines of a run that have no note: of `boot`, of images, of refused lines.

ghost use Rattle.std.specs.Prelude.{◌≡◌, ◌≤◌, ◌++◌, ◌∷◌, length, codes, decimal};
ghost use Rattle.script_model.specs.Text.{line, boot_text, left_text, usage_text};
ghost use Rattle.script_model.specs.Bytes.{spaced};

use crate::append::{number_u8, number_u32, spaced_u8, spaced_u32};
use crate::cells::add;
use crate::text::Text;

/// The line of `boot`: the frames of the cache, the blocks of the disk, the usable files.
pub fn print_boot(frames: u8, blocks: u32, files: u32, out: &mut Text)
    ensures { out.new ≡ line (boot_text frames blocks files) }
{
    let at = add(&mut out.cells, 0, b"0 boot".as_slice());
    let at = spaced_u8(&mut out.cells, at, frames);
    let at = spaced_u32(&mut out.cells, at, blocks);
    let at = spaced_u32(&mut out.cells, at, files);
    out.count = add(&mut out.cells, at, b"\n".as_slice());
}

/// The line of a refused line: its number, from 1, and its S code.
pub fn print_fault(n: u32, code: u8, out: &mut Text)
    ensures { out.new ≡ line (codes "script" ++ spaced n ++ codes " S" ++ decimal code) }
{
    let at = add(&mut out.cells, 0, b"script".as_slice());
    let at = spaced_u32(&mut out.cells, at, n);
    let at = add(&mut out.cells, at, b" S".as_slice());
    let at = number_u8(&mut out.cells, at, code);
    out.count = add(&mut out.cells, at, b"\n".as_slice());
}

/// The line of a call that is left in flight: its process and its number.
pub fn print_left(p: u8, number: u32, out: &mut Text)
    ensures { out.new ≡ line (left_text p number) }
{
    let at = add(&mut out.cells, 0, b"left".as_slice());
    let at = spaced_u8(&mut out.cells, at, p);
    let at = spaced_u32(&mut out.cells, at, number);
    out.count = add(&mut out.cells, at, b"\n".as_slice());
}

/// The line of event n for an image that isn't loaded: its L code.
pub fn print_unloaded(n: u32, code: &[u8], out: &mut Text)
    requires { length code.now ≤ 3 }
    ensures { out.new ≡ line (decimal n ++ 32 ∷ code.now) }
{
    let at = number_u32(&mut out.cells, 0, n);
    let at = add(&mut out.cells, at, b" ".as_slice());
    let at = add(&mut out.cells, at, code);
    out.count = add(&mut out.cells, at, b"\n".as_slice());
}

/// The same with the place of the instruction that is refused.
pub fn print_unloaded_at(n: u32, code: &[u8], pc: u32, out: &mut Text)
    requires { length code.now ≤ 3 }
    ensures { out.new ≡ line (decimal n ++ 32 ∷ (code.now ++ spaced pc)) }
{
    let at = number_u32(&mut out.cells, 0, n);
    let at = add(&mut out.cells, at, b" ".as_slice());
    let at = add(&mut out.cells, at, code);
    let at = spaced_u32(&mut out.cells, at, pc);
    out.count = add(&mut out.cells, at, b"\n".as_slice());
}

/// The line of event n for an image that is loaded: how many instructions and data bytes it has.
pub fn print_loaded(n: u32, instructions: u32, bytes: u32, out: &mut Text)
    ensures { out.new ≡ line (decimal n
        ++ 32 ∷ (codes "ok" ++ spaced instructions ++ spaced bytes)) }
{
    let at = number_u32(&mut out.cells, 0, n);
    let at = add(&mut out.cells, at, b" ok".as_slice());
    let at = spaced_u32(&mut out.cells, at, instructions);
    let at = spaced_u32(&mut out.cells, at, bytes);
    out.count = add(&mut out.cells, at, b"\n".as_slice());
}

/// What is written if the words of the command line aren't in the grammar.
pub fn usage() -> &'static [u8]
    ensures { result.now ≡ line usage_text }
{
    b"usage: vino run KEYS [PATH] | box KEYS [keep] | check KEYS | reseal KEYS | asm | dis | lang | audit KEYS | demo N\n".as_slice()
}
