//! The lines of the generated script, one after another.

ghost use Rattle.std.specs.Prelude.{◌≡◌, ℕ, ◌∷◌, ◌++◌, [], List, length, ◌≤◌, ◌<◌, ◌^◌, true};
ghost use Rattle.std.specs.Prelude.{false, IsTrue, IfOk, OnOk, flat_map};
ghost use Rattle.script_model.specs.Demo.{demo_keys, demo_lines};
ghost use Rattle.script_model.specs.Images.{sealed_under};
ghost use Rattle.script_model.specs.Text as text;

use crate::drawn::{next_draw, print_draw};
use crate::grafts::{newest_frame, three};
use crate::head::{HEAD_LINES, print_head};
use graft_loader::{Keys, seal_under};
use line_text::Text;
use script_model::NoMemory;
use std::alloc::Global;
use std::marker::Model;
use text_words::append;

/// How many lines are drawn.
const DRAWN_LINES: u16 = 5000;

/// The keys of the script's images.
const KEYS: Keys = Keys {
    first: [0; 32],
    second: None,
};

/// The lines of the script of a number, one after another. Contracts see the lines that are to
/// come.
#[derive(Drop)]
pub struct DemoLines {
    /// How many lines of the head came.
    head: u8,
    /// How many draws are to come.
    draws: u16,
    /// The last draw.
    draw: u32,
    /// The sealed image of slot 0.
    three: Vec<u8>,
    /// The sealed image of slot 1.
    newest: Vec<u8>,
}

impl Model for DemoLines {
    ghost use Rattle.std.specs.Prelude.{ℕ, List, ◌≤◌, ◌<◌, ◌^◌};
    ghost use Rattle.demo_text.specs.Lines.{AreDemoImages, lines_left};

    ghost Value = { List (List ℕ) };

    ghost view = { λ s. lines_left s.head s.draws s.draw };

    ghost invariant = { λ s. (s.head ≤ 26) × (s.draw < 2 ^ 31) × AreDemoImages s.three.items s.newest.items };
}

impl DemoLines {
    /// The whole script of a number. Takes memory for both images.
    pub fn new(alloc: Global, n: u32) -> Result<DemoLines, NoMemory>
        ensures { IfOk result (λ lines. lines ≡ demo_lines n) }
    {
        let three = seal_under(alloc, &KEYS, false, &three(), &[])?;
        let newest = seal_under(alloc, &KEYS, false, &newest_frame(), &[])?;
        Ok(DemoLines {
            head: 0,
            draws: DRAWN_LINES,
            draw: n % 2_147_483_648,
            three,
            newest,
        })
    }

    /// The next line. False, with nothing changed, exactly where there is none.
    pub fn next(&mut self, line: &mut Text) -> bool
        ensures more { IsTrue result → self.old ≡ line.new ∷ self.new }
        ensures end { result ≡ false → (self.old ≡ []) × (self.new ≡ []) }
        ensures kept { result ≡ false → line.new ≡ line.old }
    {
        if self.head < HEAD_LINES {
            print_head(
                self.head,
                self.three.as_slice(),
                self.newest.as_slice(),
                line,
            );
            self.head += 1;
            return true;
        }
        if self.draws == 0 {
            return false;
        }
        self.draw = next_draw(self.draw);
        self.draws -= 1;
        print_draw(self.draw, line);
        true
    }
}

/// The script of a number, its lines each with a newline.
pub fn demo_script(alloc: Global, n: u32) -> Result<Vec<u8>, NoMemory>
    ensures { IfOk result (λ bytes. bytes.items ≡ flat_map text.line (demo_lines n)) }
{
    let mut lines = DemoLines::new(alloc, n)?;
    let mut line = Text::new();
    let mut bytes = Vec::new(alloc);
    while lines.next(&mut line) {
        append(&mut bytes, line.as_slice())?;
        append(&mut bytes, b"\n".as_slice())?;
    }
    Ok(bytes)
}
