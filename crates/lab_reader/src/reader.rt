//! A lab file, read line by line.

ghost use Rattle.std.specs.Prelude.{◌≡◌, ◌≤◌, ◌∷◌, ◌++◌, [], length, false, Ok, IfOk, OnOk};
ghost use Rattle.lab_reader.specs.Faults.{StepsAs, ReadsAs};
ghost use Rattle.script_model.specs.Assembler.{is_passed_over, lines_of};
ghost use Rattle.lab_reader.specs.Words.{parts_of};
ghost use Rattle.lab_reader.specs.Grafts as grafts;
ghost use Rattle.lab_reader.specs.Settings as settings;
ghost use Rattle.lab_reader.specs.Sheet as sheet;
ghost use Rattle.lab_reader.specs.Lab as spec;

use crate::faults::{LabFault, LabKind};
use crate::graft::Graft;
use crate::grafts::begun_of;
use crate::lab::Lab;
use crate::settings::Settings;
use crate::sheet::Sheet;
use crate::table::GraftTable;
use crate::text::{Text, text_of};
use crate::words::{code_of, is_code, is_left, left_of, wanted_of};
use script_model::NoMemory;
use std::alloc::Global;
use std::mem;
use text_words::Parts;

impl Lab {
    /// Before the first line.
    pub fn new(alloc: Global) -> Result<Lab, NoMemory>
        ensures { IfOk result (λ lab. lab ≡ spec.first_lab) }
    {
        Ok(Lab {
            settings: Settings::new(alloc)?,
            grafts: GraftTable::new(alloc),
            inside: false,
            draft: Graft::none(alloc),
            sheet: Sheet::new(alloc),
        })
    }

    /// The keys and the disk.
    pub fn settings(&self) -> &Settings
        ensures { result.now ≡ self.now.settings }
    {
        &self.settings
    }

    /// The grafts, in their order.
    pub fn grafts(&self) -> &[Graft]
        ensures { result.now ≡ self.now.grafts }
    {
        self.grafts.grafts()
    }

    /// The lines of the script and the wanted lines.
    pub fn sheet(&self) -> &Sheet
        ensures { result.now ≡ self.now.sheet }
    {
        &self.sheet
    }

    /// Forgets the lines of the script and the wanted lines, where they aren't needed any more.
    pub fn forget_lines(&mut self, alloc: Global)
        ensures { self.new ≡ record self.old { sheet = sheet.first_sheet } }
    {
        self.sheet = Sheet::new(alloc);
    }

    /// The line says nothing in the script.
    fn blank(&mut self, alloc: Global) -> Result<(), NoMemory>
        ensures { OnOk result
            (self.new ≡ record self.old { sheet = sheet.with_blank self.old.sheet [] }) }
    {
        self.sheet.add_blank(Text::new(Vec::new(alloc)))
    }

    /// A line that begins a graft.
    fn begin_graft(&mut self, alloc: Global, n: usize, words: Parts) -> Result<(), LabFault>
        ensures { StepsAs result self.new (spec.begins_by self.old
            (grafts.begun_of n self.old.grafts words.entry)) }
    {
        let graft = begun_of(alloc, n, &self.grafts, words)?;
        self.inside = true;
        self.draft = graft;
        Ok(self.blank(alloc)?)
    }

    /// A line of keys.
    fn set_key(&mut self, alloc: Global, n: usize, words: Parts) -> Result<(), LabFault>
        ensures { StepsAs result self.new (spec.set_by self.old
            (settings.with_key n (spec.has_images self.old) self.old.settings words.entry)) }
    {
        let late = self.sheet.has_images();
        self.settings.set_key(alloc, n, late, words)?;
        Ok(self.blank(alloc)?)
    }

    /// A line that names the file of the disk.
    fn set_disk(&mut self, alloc: Global, n: usize, words: Parts) -> Result<(), LabFault>
        ensures { StepsAs result self.new (spec.set_by self.old
            (settings.with_disk n self.old.settings words.entry)) }
    {
        self.settings.set_disk(alloc, n, words)?;
        Ok(self.blank(alloc)?)
    }

    /// A line that says which calls of the disk fail.
    fn set_fails(&mut self, alloc: Global, n: usize, words: Parts) -> Result<(), LabFault>
        ensures { StepsAs result self.new (spec.set_by self.old
            (settings.with_fails n self.old.settings words.entry)) }
    {
        self.settings.set_fails(alloc, n, words)?;
        Ok(self.blank(alloc)?)
    }

    /// What a line outside of grafts says, by its first word and those behind it.
    fn add_by_first(
        &mut self,
        alloc: Global,
        n: usize,
        text: &[u8],
        first: &[u8],
        words: Parts,
    ) -> Result<(), LabFault>
        ensures { StepsAs result self.new (spec.by_first n self.old text.now first.now
            words.entry) }
    {
        if first == b"image".as_slice() {
            self.sheet.add_image(alloc, n, &self.grafts, text, words)
        } else if first == b"graft".as_slice() {
            self.begin_graft(alloc, n, words)
        } else if first == b"end".as_slice() {
            Err(LabFault::At(n, LabKind::StrayEnd))
        } else if first == b"key".as_slice() {
            self.set_key(alloc, n, words)
        } else if first == b"disk".as_slice() {
            self.set_disk(alloc, n, words)
        } else if first == b"fail".as_slice() {
            self.set_fails(alloc, n, words)
        } else {
            Ok(self.sheet.add_plain(alloc, n, text)?)
        }
    }

    /// What the part of a line for the script says.
    fn add_left(&mut self, alloc: Global, n: usize, left: &[u8]) -> Result<(), LabFault>
        ensures { StepsAs result self.new (spec.by_words n self.old left.now (parts_of left.now)) }
    {
        let mut words = Parts::new(left, b' ');
        match words.next() {
            None => Ok(()),
            Some(first) => self.add_by_first(alloc, n, left, first, words),
        }
    }

    /// A line outside of grafts, without its remark.
    fn add_outside(&mut self, alloc: Global, n: usize, code: &[u8]) -> Result<(), LabFault>
        ensures { StepsAs result self.new (spec.outside_code n self.old code.now) }
    {
        if is_left(code) {
            return self.add_left(alloc, n, code);
        }
        let left = left_of(alloc, code)?;
        let wanted = wanted_of(alloc, code)?;
        self.add_left(alloc, n, left.as_slice())?;
        self.sheet.add_want(n, left.is_empty(), wanted)
    }

    /// The graft that is written ends.
    fn end_graft(&mut self, alloc: Global) -> Result<(), NoMemory>
        ensures { OnOk result (self.new ≡ record self.old {
          grafts = self.old.grafts ++ self.old.draft ∷ [];
          inside = false;
          draft = spec.no_graft;
        }) }
    {
        let graft = mem::replace(&mut self.draft, Graft::none(alloc));
        self.grafts.add(alloc, graft)?;
        self.inside = false;
        Ok(())
    }

    /// A line inside a graft, without its remark.
    fn add_inside(&mut self, alloc: Global, n: usize, code: &[u8]) -> Result<(), NoMemory>
        ensures { OnOk result (self.new ≡ spec.inside_code n self.old code.now) }
    {
        if code == b"end".as_slice() {
            self.end_graft(alloc)?;
        } else {
            self.draft.add_code(alloc, n, code)?;
        }
        self.blank(alloc)
    }

    /// What a line adds.
    fn add_line(&mut self, alloc: Global, n: usize, line: &[u8]) -> Result<(), LabFault>
        ensures { StepsAs result self.new (spec.with_line n self.old line.now) }
    {
        if self.inside {
            let code = code_of(alloc, line)?;
            return Ok(self.add_inside(alloc, n, code.as_slice())?);
        }
        if is_passed_over(line) {
            self.sheet.add_blank(text_of(alloc, line)?)?;
            return Ok(());
        }
        if is_code(line) {
            return self.add_outside(alloc, n, line);
        }
        let code = code_of(alloc, line)?;
        self.add_outside(alloc, n, code.as_slice())
    }

    /// The file ends outside of grafts.
    fn finish(self) -> Result<Lab, LabFault>
        ensures { ReadsAs result (spec.ended (Ok self)) }
    {
        if self.inside {
            Err(LabFault::At(self.draft.begun(), LabKind::NoEnd))
        } else {
            Ok(self)
        }
    }
}

/// An empty line, or one that is a remark.
fn is_passed_over(line: &[u8]) -> bool
    ensures { result ≡ is_passed_over line.now }
{
    line.is_empty() || line[0] == b'#'
}

/// A text without the newline at its end.
fn without_newline(text: &[u8]) -> &[u8]
    ensures same { result.now ≡ spec.without_newline text.now }
    ensures few { length result.now ≤ length text.now }
{
    match text {
        [front @ .., b'\n'] => front,
        _ => text,
    }
}

/// All lines of a text.
fn read_lines(alloc: Global, text: &[u8]) -> Result<Lab, LabFault>
    requires { length text.now ≤ 16_777_216 }
    ensures { ReadsAs result (spec.with_lines 1 spec.first_lab (lines_of text.now)) }
{
    let mut lab = Lab::new(alloc)?;
    let mut lines = Parts::new(text, b'\n');
    let mut number = 1;
    while let Some(line) = lines.next() {
        lab.add_line(alloc, number, line)?;
        number += 1;
    }
    Ok(lab)
}

/// What a text says, whose tabs and carriage returns are spaces.
pub fn read_lab(alloc: Global, text: &[u8]) -> Result<Lab, LabFault>
    requires { length text.now ≤ 16_777_216 }
    ensures { ReadsAs result (spec.lab_of_spaced text.now) }
{
    read_lines(alloc, without_newline(text))?.finish()
}
