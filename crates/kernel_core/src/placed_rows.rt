//! The rows that show a running kernel's whole state, with the calls in flight.

ghost use Rattle.std.specs.Prelude.{◌≡◌, if◌then◌else◌, ◌-◌, ◌^◌, ◌<◌, ◌≤◌, ◌+◌, None, Some, IfSome, length, slice_get};
ghost use Rattle.placed_laws.specs.Placed.{Placed};
ghost use Rattle.placed_laws.specs.PlacedRows.{placed_rows};
ghost use Rattle.running_kernel.specs.Views.{placed_of, IsRunning};
ghost use Rattle.kernel_core.specs.declared.placed_rows.Section.TheVariants.{Files, Grafts};
ghost use Rattle.kernel_core.specs.PlacedSections.{most_at, most_left, places, row_found};
ghost use Rattle.kernel_core.specs.PlacedSections.{row_if_found, row_passed, rows_at, rows_left};
ghost use Rattle.kernel_core.specs.PlacedSections.{sections, IsPassed, IsRow, TakesRow};

use call_pieces::{Calls, Policy};
use kernel_model::RawRow;
use running_kernel::Running;

/// A section of the rows.
#[derive(Clone, Copy)]
pub enum Section {
    /// The clock.
    Clock,
    /// The queue.
    Queue,
    /// What each living process has and has spent.
    Accounts,
    /// The cells of each living process.
    Cells,
    /// The open files, by process and descriptor.
    Files,
    /// The grafts, by process and point.
    Grafts,
    /// The chosen policy of each kind.
    Policies,
    /// The frames in use.
    Frames,
    /// The user locks that are held.
    Locks,
    /// The calls in flight, by process.
    Calls,
    /// The levels of each call, outermost first.
    Levels,
    /// The undo log of each call, newest record first.
    Undo,
}

/// Where a row stands: the row of this index, from 0, at a place of a section. Places are counted
/// from 0; the places of files and grafts go by process, and then by descriptor or point.
#[derive(Clone, Copy)]
pub struct FoundRow {
    pub section: Section,
    pub place: u16,
    pub index: u32,
}

/// The sections, in their order.
const SECTIONS: [Section; 12] = [
    Section::Clock,
    Section::Queue,
    Section::Accounts,
    Section::Cells,
    Section::Files,
    Section::Grafts,
    Section::Policies,
    Section::Frames,
    Section::Locks,
    Section::Calls,
    Section::Levels,
    Section::Undo,
];

/// How many places a section has, with some rows at each.
fn places_of(section: Section) -> u16
    ensures { result ≡ places section }
{
    match section {
        Section::Clock | Section::Queue | Section::Frames => 1,
        Section::Accounts | Section::Cells | Section::Locks => 16,
        Section::Files => 64,
        Section::Grafts => 256,
        Section::Policies => 3,
        Section::Calls | Section::Levels | Section::Undo => 16,
    }
}

/// Where the next of the rows that show the whole state is looked for.
#[derive(Clone, Copy)]
pub struct RowPlace {
    /// The number of its section.
    section: usize,
    /// The place in that section.
    place: u16,
    /// How many rows at that place came before.
    index: u32,
}

impl RowPlace {
    /// Before the first row.
    pub fn first() -> RowPlace
        ensures rows { (x : Placed) → rows_left x result ≡ placed_rows x }
        ensures most { most_left result ≡ 1478 }
    {
        RowPlace {
            section: 0,
            place: 0,
            index: 0,
        }
    }

    /// On to the next row of so many at the place, or to the next place behind the last one.
    fn pass_row(&mut self, count: u32)
        requires place { self.old.place < 2 ^ 16 - 1 }
        requires row { self.old.index < count }
        ensures { self.new ≡ row_passed count self.old }
    {
        if self.index + 1 < count {
            self.index += 1;
        } else {
            self.pass_place();
        }
    }

    /// On to the next place of the section.
    fn pass_place(&mut self)
        requires { self.old.place < 2 ^ 16 - 1 }
        ensures { self.new ≡ record {
          section = self.old.section;
          place = self.old.place + 1;
          index = 0;
        } }
    {
        self.place += 1;
        self.index = 0;
    }

    /// On to the next section.
    fn pass_section(&mut self)
        requires { self.old.section < 12 }
        ensures { self.new ≡ record { section = self.old.section + 1; place = 0; index = 0 } }
    {
        self.section += 1;
        self.place = 0;
        self.index = 0;
    }
}

/// The next row from a place on, which then is behind that row. None where no row is left.
pub fn next_row<C: Calls, B: Policy>(running: &Running<C, B>, at: &mut RowPlace) -> Option<RawRow>
    requires running { IsRunning running.now }
    ensures { TakesRow (placed_of running.now) at.old at.new result }
{
    let found = find_row(running, at)?;
    row_at(running, &found)
}

/// Where the next row from a place on stands, which then is behind that row. None where no row is
/// left.
pub fn find_row<C: Calls, B: Policy>(running: &Running<C, B>, at: &mut RowPlace) -> Option<FoundRow>
    requires running { IsRunning running.now }
    ensures taken { TakesRow (placed_of running.now) at.old at.new
        (row_if_found (placed_of running.now) result) }
    ensures found { IfSome result (IsRow (placed_of running.now)) }
{
    while at.section < SECTIONS.len() {
        let section = SECTIONS[at.section];
        if at.place >= places_of(section) {
            at.pass_section();
            continue;
        }
        let count = count_at(running, section, at.place);
        if at.index < count {
            let found = FoundRow {
                section,
                place: at.place,
                index: at.index,
            };
            at.pass_row(count);
            return Some(found);
        }
        pass_place(running, section, at);
    }
    None
}

/// On to the next place of this section. Where it is that of the files or of the grafts, of which
/// few places have one, on from there to the next place with one.
fn pass_place<C: Calls, B: Policy>(running: &Running<C, B>, section: Section, at: &mut RowPlace)
    requires section { slice_get sections at.old.section ≡ Some section }
    requires place { at.old.place < places section }
    requires none { length (rows_at (placed_of running.now) section at.old.place) ≤ at.old.index }
    ensures passed { IsPassed (placed_of running.now) section at.old at.new }
    ensures further { at.old.place < at.new.place }
{
    at.pass_place();
    match section {
        Section::Files => pass_no_file(running, at),
        Section::Grafts => pass_no_graft(running, at),
        _ => {}
    }
}

/// Whether a file is open at a place of the files.
fn has_file<C: Calls, B: Policy>(running: &Running<C, B>, n: u16) -> bool
    requires { n < 64 }
    ensures { length (rows_at (placed_of running.now) Files n) ≡ (if result then 1 else 0) }
{
    let file = running.store.procs.file((n / 4) as u8, (n % 4) as u8);
    file.is_some()
}

/// Whether a graft stands at a place of the grafts.
fn has_graft<C: Calls, B: Policy>(running: &Running<C, B>, n: u16) -> bool
    requires { n < 256 }
    ensures { length (rows_at (placed_of running.now) Grafts n) ≡ (if result then 1 else 0) }
{
    running.store.has_graft((n / 16) as u8, (n % 16) as u8)
}

/// On past places without an open file.
fn pass_no_file<C: Calls, B: Policy>(running: &Running<C, B>, at: &mut RowPlace)
    requires section { slice_get sections at.old.section ≡ Some Files }
    requires place { at.old.place ≤ 64 }
    ensures { IsPassed (placed_of running.now) Files at.old at.new }
{
    while at.place < 64 && !has_file(running, at.place) {
        at.pass_place();
    }
}

/// On past places without a graft.
fn pass_no_graft<C: Calls, B: Policy>(running: &Running<C, B>, at: &mut RowPlace)
    requires section { slice_get sections at.old.section ≡ Some Grafts }
    requires place { at.old.place ≤ 256 }
    ensures { IsPassed (placed_of running.now) Grafts at.old at.new }
{
    while at.place < 256 && !has_graft(running, at.place) {
        at.pass_place();
    }
}

/// How many rows there are at a place of a section.
fn count_at<C: Calls, B: Policy>(running: &Running<C, B>, section: Section, n: u16) -> u32
    requires running { IsRunning running.now }
    requires place { n < places section }
    ensures value { result ≡ length (rows_at (placed_of running.now) section n) }
    ensures few { result ≤ most_at section }
{
    let store = &running.store;
    match section {
        Section::Clock | Section::Queue | Section::Policies | Section::Frames => 1,
        Section::Accounts | Section::Cells => store.living(n.into()).into(),
        Section::Files => has_file(running, n).into(),
        Section::Grafts => has_graft(running, n).into(),
        Section::Locks => store.holder(n as u8).is_some().into(),
        Section::Calls => running.call_number(n as u8).is_some().into(),
        Section::Levels => running.shown_levels(n as u8).into(),
        Section::Undo => running.shown_records(n as u8).into(),
    }
}

/// The row that stands there.
pub fn row_at<C: Calls, B: Policy>(running: &Running<C, B>, found: &FoundRow) -> Option<RawRow>
    requires running { IsRunning running.now }
    requires found { IsRow (placed_of running.now) found.now }
    ensures { result ≡ row_found (placed_of running.now) found.now }
{
    let store = &running.store;
    let n = found.place;
    let i = found.index;
    match found.section {
        Section::Clock => Some(RawRow::Clock(running.clock)),
        Section::Queue => Some(store.shown_queue()),
        Section::Accounts => Some(store.shown_account(n as u8)),
        Section::Cells => Some(store.shown_cells(n as u8)),
        Section::Files => store.shown_file((n / 4) as u8, (n % 4) as u8),
        Section::Grafts => store.shown_graft((n / 16) as u8, (n % 16) as u8),
        Section::Policies => Some(store.shown_policy(n as u8)),
        Section::Frames => Some(RawRow::Lru(store.frame_rows())),
        Section::Locks => store.shown_lock(n as u8),
        Section::Calls => running.call_row(n as u8),
        Section::Levels => Some(running.level_row(n as u8, i as u8)),
        Section::Undo => Some(running.undo_row(n as u8, i as u8)),
    }
}
