//! The lines before the drawn ones: the set-up, both images, the processes, their files and their
//! grafts.

ghost use Rattle.std.specs.Prelude.{◌≡◌, ◌<◌, ◌≤◌, ◌+◌, ◌++◌, ◌∷◌, codes, drop, length};
ghost use Rattle.script_model.specs.Bytes.{hex_text};
ghost use Rattle.script_model.specs.Demo.{head_lines};
ghost use Rattle.script_model.specs.Bytes.{spaced};
ghost use Rattle.demo_text.specs.Lines.{AreDemoImages};

use line_text::Text;

/// How many lines stand before the drawn ones.
pub const HEAD_LINES: u8 = 26;

/// A line as it stands.
fn say(text: &[u8], line: &mut Text)
    requires { length text.now ≤ 40 }
    ensures { line.new ≡ text.now }
{
    line.clear();
    line.add(text);
}

/// The line that loads a sealed image into a slot.
fn say_image(slot: u8, image: &[u8], line: &mut Text)
    requires { length image.now ≤ 512 }
    ensures { line.new ≡ codes "image" ++ spaced slot ++ 32 ∷ hex_text image.now }
{
    line.clear();
    line.add(b"image".as_slice());
    line.add_spaced(slot.into());
    line.add(b" ".as_slice());
    line.add_hex(image);
}

/// A line of two parts with a number between.
fn say_number(before: &[u8], n: u8, after: &[u8], line: &mut Text)
    requires before { length before.now ≤ 40 }
    requires after { length after.now ≤ 40 }
    ensures { line.new ≡ before.now ++ spaced n ++ after.now }
{
    line.clear();
    line.add(before);
    line.add_spaced(n.into());
    line.add(after);
}

/// The i-th line, from 0, over the sealed images of both grafts.
pub fn print_head(i: u8, three: &[u8], newest: &[u8], line: &mut Text)
    requires within { i < HEAD_LINES }
    requires images { AreDemoImages three.now newest.now }
    ensures { drop i head_lines ≡ line.new ∷ drop (i + 1) head_lines }
{
    match i {
        0 => say(b"frames 8".as_slice(), line),
        1 => say(b"boot".as_slice(), line),
        2 => say_image(0, three, line),
        3 => say_image(1, newest, line),
        4 => say(b"spawn 0".as_slice(), line),
        5 => say(b"spawn 0".as_slice(), line),
        6 => say(b"spawn 0".as_slice(), line),
        7 => say_number(b"give 0".as_slice(), 1, b" steps 200000".as_slice(), line),
        8 => say_number(b"give 0".as_slice(), 2, b" steps 200000".as_slice(), line),
        9 => say_number(b"give 0".as_slice(), 3, b" steps 200000".as_slice(), line),
        10 => say_number(b"open".as_slice(), 0, b" beta".as_slice(), line),
        11 => say_number(b"open".as_slice(), 1, b" beta".as_slice(), line),
        12 => say_number(b"open".as_slice(), 2, b" beta".as_slice(), line),
        13 => say_number(b"open".as_slice(), 3, b" beta".as_slice(), line),
        14 => say_number(b"install".as_slice(), 1, b" 0 0 64".as_slice(), line),
        15 => say_number(b"bill".as_slice(), 1, b" 0".as_slice(), line),
        16 => say_number(b"install".as_slice(), 1, b" 4 1 64".as_slice(), line),
        17 => say_number(b"bill".as_slice(), 1, b" 4".as_slice(), line),
        18 => say_number(b"install".as_slice(), 2, b" 0 0 64".as_slice(), line),
        19 => say_number(b"bill".as_slice(), 2, b" 0".as_slice(), line),
        20 => say_number(b"install".as_slice(), 2, b" 4 1 64".as_slice(), line),
        21 => say_number(b"bill".as_slice(), 2, b" 4".as_slice(), line),
        22 => say_number(b"install".as_slice(), 3, b" 0 0 64".as_slice(), line),
        23 => say_number(b"bill".as_slice(), 3, b" 0".as_slice(), line),
        24 => say_number(b"install".as_slice(), 3, b" 4 1 64".as_slice(), line),
        _ => say_number(b"bill".as_slice(), 3, b" 4".as_slice(), line),
    }
}
