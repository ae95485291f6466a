//! The names of the places of a state.

ghost use Rattle.std.specs.Prelude.{◌≡◌, ◌+◌, ◌*◌, ◌<◌, ◌≤◌};

use crate::objects::append_object_number;
use kernel_data::NoMemory;
use text_words::{append, append_number, append_with};

/// The clock, the queue, the order of use of the cache, and the order of waiting.
pub const KERNEL: u32 = 0;

/// Each living process.
pub const PROCESSES: u32 = 1;

/// Each open file: item 4 p + descriptor.
pub const FILES: u32 = 2;

/// Each graft: item 16 p + point.
pub const GRAFTS: u32 = 3;

/// The chosen policy of each kind.
pub const POLICIES: u32 = 4;

/// Each frame in use.
pub const FRAMES: u32 = 5;

/// The holder of each user lock.
pub const LOCKS: u32 = 6;

/// The handlers of each port.
pub const HANDLERS: u32 = 7;

/// Each image that is loaded.
pub const IMAGES: u32 = 8;

/// Each call in flight, by its process.
pub const CALLS: u32 = 9;

/// What the levels of each call hold, by its process; the member is the object's number.
pub const HOLDS: u32 = 10;

/// The records of each call, by its process; the member is the record's number.
pub const UNDO: u32 = 11;

/// Each level: item 4 p + its depth.
pub const LEVELS: u32 = 12;

/// The registers of each level; the member is the register's number.
pub const REGISTERS: u32 = 13;

/// The segment of each level; the member is the row's number.
pub const MEMORY: u32 = 14;

/// The segment kept for each graft: item 16 p + point; the member is the row's number.
pub const KEPT: u32 = 15;

/// How many items a section has at most, as far as places go.
const ITEMS: u32 = 256;

/// How many members an item has at most.
const MEMBERS: u32 = 512;

/// The bytes of a row of memory.
const ROW_BYTES: u32 = 16;

/// The names of the sections.
const SECTIONS: [&[u8]; 16] = [
    b"kernel",
    b"processes",
    b"files",
    b"grafts",
    b"policies",
    b"frames",
    b"locks",
    b"handlers",
    b"images",
    b"calls",
    b"holds",
    b"undo",
    b"levels",
    b"registers",
    b"memory",
    b"kept",
];

const KERNEL_ITEMS: [&[u8]; 4] = [b"clock", b"queue", b"cache", b"waiting"];

const PROCESS_MEMBERS: [&[u8]; 5] = [b"nice", b"slices", b"has", b"spent", b"cells"];

const FILE_MEMBERS: [&[u8]; 5] = [b"name", b"next", b"window", b"sequential", b"ahead"];

const GRAFT_MEMBERS: [&[u8]; 5] = [b"slot", b"limit", b"billed", b"has", b"kept"];

const POLICY_MEMBERS: [&[u8]; 2] = [b"chosen", b"parameter"];

const FRAME_MEMBERS: [&[u8]; 4] = [b"owner", b"block", b"dirty", b"mark"];

const IMAGE_MEMBERS: [&[u8]; 5] = [b"instructions", b"data", b"keeps", b"graft", b"raw"];

const CALL_MEMBERS: [&[u8]; 3] = [b"event", b"line", b"waits"];

const LEVEL_MEMBERS: [&[u8]; 5] = [b"graft", b"slot", b"taken", b"next", b"arguments"];

/// The place of a member of an item of a section: of 16 sections, 256 items and 512 members.
pub fn place_of(section: u32, item: u32, member: u32) -> u32
    requires section { section < 16 }
    requires item { item < 256 }
    requires member { member < 512 }
    ensures { result ≡ 131072 * section + 512 * item + member }
{
    ITEMS * MEMBERS * section + MEMBERS * item + member
}

/// The item of a place, counted over all sections.
pub(crate) fn item_of(place: u32) -> u32 {
    place / MEMBERS
}

/// The section of a place.
pub(crate) fn section_of(place: u32) -> u32 {
    place / (ITEMS * MEMBERS)
}

/// Whether an item of a section is one value, and has no members.
pub(crate) fn is_single(section: u32) -> bool {
    section == KERNEL || section == LOCKS || section == HANDLERS
}

/// Appends a name of a list, where the list has one of this number.
fn append_listed(out: &mut Vec<u8>, names: &[&[u8]], number: u32) -> Result<(), NoMemory> {
    match names.get(number as usize) {
        Some(name) => append(out, name),
        None => append_number(out, number),
    }
}

/// Appends two numbers with a comma between them.
fn append_pair(out: &mut Vec<u8>, first: u32, second: u32) -> Result<(), NoMemory> {
    append_number(out, first)?;
    append_with(out, b",", second)
}

/// Appends the name of the section of a place.
pub(crate) fn append_section(out: &mut Vec<u8>, place: u32) -> Result<(), NoMemory> {
    append_listed(out, &SECTIONS, section_of(place))
}

/// Appends the key of the item of a place.
pub(crate) fn append_item(out: &mut Vec<u8>, place: u32) -> Result<(), NoMemory> {
    let item = item_of(place) % ITEMS;
    match section_of(place) {
        KERNEL => append_listed(out, &KERNEL_ITEMS, item),
        FILES => append_pair(out, item / 4, item % 4),
        GRAFTS | KEPT => append_pair(out, item / 16, item % 16),
        LEVELS | REGISTERS | MEMORY => append_pair(out, item / 4, item % 4 + 1),
        _ => append_number(out, item),
    }
}

/// Appends the key of the member of a place.
pub(crate) fn append_member(out: &mut Vec<u8>, place: u32) -> Result<(), NoMemory> {
    let member = place % MEMBERS;
    match section_of(place) {
        PROCESSES => append_listed(out, &PROCESS_MEMBERS, member),
        FILES => append_listed(out, &FILE_MEMBERS, member),
        GRAFTS => append_listed(out, &GRAFT_MEMBERS, member),
        POLICIES => append_listed(out, &POLICY_MEMBERS, member),
        FRAMES => append_listed(out, &FRAME_MEMBERS, member),
        IMAGES => append_listed(out, &IMAGE_MEMBERS, member),
        CALLS => append_listed(out, &CALL_MEMBERS, member),
        LEVELS => append_listed(out, &LEVEL_MEMBERS, member),
        HOLDS => append_object_number(out, member),
        REGISTERS => append_with(out, b"r", member),
        MEMORY | KEPT => append_number(out, ROW_BYTES * member),
        _ => append_number(out, member),
    }
}
