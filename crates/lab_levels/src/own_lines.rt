//! The watcher's own lines, and where they stand among the bytes of the kernel.

ghost use Rattle.std.specs.Prelude.{◌≡◌, ◌^◌, ◌-◌, ◌++◌, ◌∷◌, [], decimal, length, min, IfOk, OnOk};
ghost use Rattle.lab_levels.specs.Lines.{lines_in, AreWithin};
ghost use Rattle.lab_levels.specs.Woven.{woven, WeavesLines};

use crate::woven::weave_lines;
use script_model::NoMemory;
use std::alloc::Global;
use std::marker::Model;
use text_words::append;

/// A line of the watcher: the place among the kernel's bytes before which it stands, and where its
/// text begins and ends.
#[derive(Clone, Copy)]
pub struct OwnLine {
    pub place: usize,
    pub from: usize,
    pub to: usize,
}

/// All lines of the watcher, in their order.
#[derive(Drop)]
pub struct OwnLines {
    /// The texts of the lines, one behind the other.
    texts: Vec<u8>,
    lines: Vec<OwnLine>,
    /// The place of the next line.
    place: usize,
}

impl Model for OwnLines {
    ghost use Rattle.std.specs.Prelude.{length};
    ghost use Rattle.lab_levels.specs.Lines.{Collected, lines_in, AreWithin};

    ghost Value = { Collected };

    ghost view = { λ o. record { lines = lines_in o.texts.items o.lines.items; place = o.place } };

    ghost invariant = { λ o. AreWithin (length o.texts.items) o.lines.items };
}

/// A count as a number of 32 bits; the greatest where it is above all.
pub fn count_of(n: usize) -> u32
    ensures { result ≡ min n (2 ^ 32 - 1) }
{
    u32::try_from(n).unwrap_or(u32::MAX)
}

/// Puts a line with this place and text behind the others.
#[tactic(auto, using(crate::proofs::Collecting::collects))]
fn push_line(
    texts: &mut Vec<u8>,
    lines: &mut Vec<OwnLine>,
    place: usize,
    text: &[u8],
) -> Result<(), NoMemory>
    requires { AreWithin (length texts.old.items) lines.old.items }
    ensures more { OnOk result (lines_in texts.new.items lines.new.items
        ≡ lines_in texts.old.items lines.old.items
        ++ record { place = place; text = text.now } ∷ []) }
    ensures within { AreWithin (length texts.new.items) lines.new.items }
{
    let from = texts.len();
    if texts.extend_from_slice(text).is_err() {
        return Err(NoMemory);
    }
    let line = OwnLine {
        place,
        from,
        to: texts.len(),
    };
    match lines.push(line) {
        Ok(()) => Ok(()),
        Err(_) => Err(NoMemory),
    }
}

impl OwnLines {
    ghost use Rattle.lab_levels.specs.Lines.{no_lines, with_line, behind};

    /// No line yet.
    pub fn new(alloc: Global) -> OwnLines
        ensures { result ≡ no_lines }
    {
        OwnLines {
            texts: Vec::new(alloc),
            lines: Vec::new(alloc),
            place: 0,
        }
    }

    /// A line more, at the place where the kernel's bytes stand.
    pub fn add(&mut self, line: &[u8]) -> Result<(), NoMemory>
        ensures { OnOk result (self.new ≡ with_line line.now self.old) }
    {
        push_line(&mut self.texts, &mut self.lines, self.place, line)
    }

    /// The next lines stand behind so many bytes more of the kernel.
    pub fn pass(&mut self, count: usize)
        ensures { self.new ≡ behind count self.old }
    {
        self.place = self.place.saturating_add(count);
    }

    /// The kernel's bytes with these lines between parts of them.
    pub(crate) fn woven(&self, alloc: Global, kernel: &[u8]) -> Result<Vec<u8>, NoMemory>
        ensures { IfOk result (λ text. text.items ≡ woven kernel.now 0 self.now.lines) }
    {
        weave_lines(alloc, kernel, &self.texts, &self.lines)
    }
}
