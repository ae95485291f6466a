//! The drawn lines: from a draw to the next, and from a draw to its line.

ghost use Rattle.std.specs.Prelude.{◌≡◌, ◌<◌, ◌^◌, ◌++◌, codes};
ghost use Rattle.script_model.specs.Demo as demo;
ghost use Rattle.script_model.specs.Bytes.{spaced};

use line_text::Text;

/// The draw after a draw.
pub fn next_draw(x: u32) -> u32
    requires { x < 2 ^ 31 }
    ensures value { result ≡ demo.next_draw x }
    ensures below { result < 2 ^ 31 }
{
    ((1_103_515_245 * x as u64 + 12_345) % 2_147_483_648) as u32
}

/// A read of four bytes of block i.
fn print_read(p: u32, i: u32, line: &mut Text)
    ensures { line.new ≡ demo.read_line p i }
{
    line.clear();
    line.add(b"read".as_slice());
    line.add_spaced(p.into());
    line.add(b" 0".as_slice());
    line.add_spaced(i.into());
    line.add(b" 0 4".as_slice());
}

/// The four bytes of a number, the highest first.
fn high_first(x: u32) -> [u8; 4]
    ensures { result ≡ demo.high_first x }
{
    [
        (x / 16_777_216 % 256) as u8,
        (x / 65_536 % 256) as u8,
        (x / 256 % 256) as u8,
        (x % 256) as u8,
    ]
}

/// A write of the draw's digits to block i.
fn print_write(p: u32, i: u32, x: u32, line: &mut Text)
    ensures { line.new ≡ demo.write_line p i x }
{
    line.clear();
    line.add(b"write".as_slice());
    line.add_spaced(p.into());
    line.add(b" 0".as_slice());
    line.add_spaced(i.into());
    line.add(b" 0 ".as_slice());
    line.add_hex(&high_first(x));
}

/// The line of a draw: three kinds of read in eight, a write, a yield, a tick, and two steps.
pub fn print_draw(x: u32, line: &mut Text)
    ensures { line.new ≡ demo.line_of_draw x }
{
    let choice = x / 262_144 % 8;
    let p = x / 65_536 % 4;
    let i = x / 2_097_152 % 40;
    if choice <= 2 {
        print_read(p, i, line);
    } else if choice == 3 {
        print_write(p, i, x, line);
    } else if choice == 4 {
        print_yield(p, line);
    } else if choice == 5 {
        line.clear();
        line.add(b"tick".as_slice());
    } else {
        print_step(p, line);
    }
}

/// A yield.
fn print_yield(p: u32, line: &mut Text)
    ensures { line.new ≡ codes "yield" ++ spaced p }
{
    line.clear();
    line.add(b"yield".as_slice());
    line.add_spaced(p.into());
}

/// At most 20 instructions of a graft.
fn print_step(p: u32, line: &mut Text)
    ensures { line.new ≡ codes "step" ++ spaced p ++ codes " 20" }
{
    line.clear();
    line.add(b"step".as_slice());
    line.add_spaced(p.into());
    line.add(b" 20".as_slice());
}
