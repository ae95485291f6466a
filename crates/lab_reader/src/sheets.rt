//! How the lines of the script and the wanted lines are put down.

ghost use Rattle.std.specs.Prelude.{◌≡◌, ◌==◌, not, length, OnOk, option_map};
ghost use Rattle.std.specs.List.{list_any};
ghost use Rattle.script_model.specs.Bytes as model;
ghost use Rattle.lab_reader.specs.Faults.{StepsAs};
ghost use Rattle.lab_reader.specs.Sheet as spec;

use crate::faults::{LabFault, LabKind};
use crate::sheet::{Item, Sheet, Want};
use crate::table::GraftTable;
use crate::text::{Text, text_of};
use crate::words::is_hex;
use script_model::NoMemory;
use std::alloc::Global;
use text_words::{Parts, number_of, put};

/// The last slot.
const LAST_SLOT: u32 = 31;

/// An image that a line asks for: its slot and the name of its graft as they are written, and the
/// place of the graft, if there is one.
#[derive(Clone, Copy)]
struct Asked<'a> {
    slot: &'a [u8],
    name: &'a [u8],
    graft: Option<usize>,
}

impl Sheet {
    /// Before the first line.
    pub fn new(alloc: Global) -> Sheet
        ensures { result ≡ spec.first_sheet }
    {
        Sheet {
            items: Vec::new(alloc),
            slots: Vec::new(alloc),
            wants: Vec::new(alloc),
            last: 0,
        }
    }

    /// What each line of the file is in the script, in their order.
    pub fn items(&self) -> &[Item]
        ensures { result.now ≡ self.now.items }
    {
        self.items.as_slice()
    }

    /// The wanted lines, in their order.
    pub fn wants(&self) -> &[Want]
        ensures { result.now ≡ self.now.wants }
    {
        self.wants.as_slice()
    }

    /// The number of the last line that says something in the script, or 0.
    pub fn last(&self) -> usize
        ensures { result ≡ self.now.last }
    {
        self.last
    }

    /// Whether there is an image that is sealed.
    pub fn has_images(&self) -> bool
        ensures { result ≡ not (length self.now.slots == 0) }
    {
        !self.slots.is_empty()
    }

    /// A line of the script as it stands; an empty one says nothing.
    pub fn add_plain(&mut self, alloc: Global, n: usize, text: &[u8]) -> Result<(), NoMemory>
        ensures { OnOk result (self.new ≡ spec.with_plain n self.old text.now) }
    {
        put(&mut self.items, Item::Plain(text_of(alloc, text)?))?;
        if !text.is_empty() {
            self.last = n;
        }
        Ok(())
    }

    /// A line that says nothing.
    pub fn add_blank(&mut self, text: Text) -> Result<(), NoMemory>
        ensures { OnOk result (self.new ≡ spec.with_blank self.old text) }
    {
        put(&mut self.items, Item::Plain(text))
    }

    /// An image of a graft, where the slot is there and free.
    fn add_slot(&mut self, n: usize, slot: u32, graft: usize, raw: bool) -> Result<(), LabFault>
        ensures { StepsAs result self.new (spec.with_slot n self.old slot graft raw) }
    {
        if slot > LAST_SLOT {
            return Err(LabFault::At(n, LabKind::BadSlot));
        }
        if has_slot(self.slots.as_slice(), slot) {
            return Err(LabFault::At(n, LabKind::SlotTwice));
        }
        put(&mut self.items, Item::Sealed { slot, graft, raw })?;
        put(&mut self.slots, slot)?;
        self.last = n;
        Ok(())
    }

    /// An image of a graft, where the slot is a number.
    fn add_sealed(&mut self, n: usize, slot: &[u8], graft: usize, raw: bool) -> Result<(), LabFault>
        ensures { StepsAs result self.new (spec.sealed_by n self.old
            (model.number_of slot.now) graft raw) }
    {
        match number_of(slot) {
            None => Err(LabFault::At(n, LabKind::BadSlot)),
            Some(slot) => self.add_slot(n, slot, graft, raw),
        }
    }

    /// A wanted line, if there is one, of a line whose part for the script is empty or not.
    pub fn add_want(
        &mut self,
        n: usize,
        left_empty: bool,
        wanted: Option<Vec<u8>>,
    ) -> Result<(), LabFault>
        ensures { StepsAs result self.new (spec.with_want n left_empty self.old
            (option_map (λ text. text.items) wanted)) }
    {
        let Some(text) = wanted else {
            return Ok(());
        };
        if text.is_empty() {
            return Err(LabFault::At(n, LabKind::EmptyWant));
        }
        if self.last == 0 || (!left_empty && self.last != n) {
            return Err(LabFault::At(n, LabKind::StrayWant));
        }
        let want = Want {
            line: n,
            owner: self.last,
            text: Text::new(text),
        };
        put(&mut self.wants, want)?;
        Ok(())
    }

    /// An image of the graft that is named, boxed; hex digits that name none stay.
    fn add_boxed(
        &mut self,
        alloc: Global,
        n: usize,
        text: &[u8],
        asked: Asked,
    ) -> Result<(), LabFault>
        ensures { StepsAs result self.new (spec.image_by n self.old text.now asked.entry.slot.now
            asked.entry.name.now asked.entry.graft) }
    {
        if let Some(graft) = asked.graft {
            return self.add_sealed(n, asked.slot, graft, false);
        }
        if !is_hex(asked.name) {
            return Err(LabFault::At(n, LabKind::UnknownGraft));
        }
        self.add_plain(alloc, n, text)?;
        Ok(())
    }

    /// An image of a graft that isn't boxed.
    fn add_raw(&mut self, n: usize, slot: &[u8], graft: Option<usize>) -> Result<(), LabFault>
        ensures { StepsAs result self.new (spec.raw_by n self.old slot.now graft) }
    {
        match graft {
            Some(graft) => self.add_sealed(n, slot, graft, true),
            None => Err(LabFault::At(n, LabKind::UnknownGraft)),
        }
    }

    /// A line of an image, by its words behind the first.
    pub fn add_image(
        &mut self,
        alloc: Global,
        n: usize,
        grafts: &GraftTable,
        text: &[u8],
        mut words: Parts,
    ) -> Result<(), LabFault>
        ensures { StepsAs result self.new (spec.with_image n grafts.now self.old text.now
            words.entry) }
    {
        let Some(slot) = words.next() else {
            return Ok(self.add_plain(alloc, n, text)?);
        };
        let Some(name) = words.next() else {
            return Ok(self.add_plain(alloc, n, text)?);
        };
        let Some(word) = words.next() else {
            let graft = grafts.place_of(name);
            return self.add_boxed(alloc, n, text, Asked { slot, name, graft });
        };
        if words.next().is_some() || word != b"raw".as_slice() {
            return Ok(self.add_plain(alloc, n, text)?);
        }
        self.add_raw(n, slot, grafts.place_of(name))
    }
}

/// Whether a slot is among these.
fn has_slot(slots: &[u32], slot: u32) -> bool
    ensures { result ≡ list_any (λ k. k == slot) slots.now }
{
    slots.iter().any(|k| *k == slot)
}
