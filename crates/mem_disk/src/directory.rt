//! The directory in block 0 of a disk.

ghost use Rattle.std.specs.Prelude.{◌≡◌, ℕ, true, ◌≤◌, ◌==◌, ◌+◌, ◌*◌, nat_le, [], length};
ghost use Rattle.std.specs.Prelude.{slice_range, slice_index_or, None, Some, IsSome, IfSome, ◌&&◌};
ghost use Rattle.std.specs.Prelude.{cond, take_while};
ghost use Rattle.std.specs.List.{list_any, list_all, prefix_len};
ghost use Rattle.kernel_data.specs.declared.FileRow.{FileRow as Row};
ghost use Rattle.kernel_data.specs.Bytes.{is_name_byte, word_at};
ghost use Rattle.kernel_data.specs.World.{entry_named};
ghost use Rattle.kernel_data.specs.Directory.{entries, entry_row, has_name, is_padded};
ghost use Rattle.kernel_data.specs.Directory.{lies_on_disk, is_usable, directory_of, usable_count};

use arrayvec::ArrayVec;
use kernel_data::{BLOCK_BYTES, FileRow, Name};
use std::marker::Model;

/// The entries of a directory.
const ENTRIES: usize = 16;

/// The bytes of an entry.
const ENTRY_BYTES: usize = 32;

/// The bytes of an entry's name, with the zeros after it.
const NAME_FIELD: usize = 16;

/// The places in an entry of its first block, its number of blocks and its length in bytes.
const START: usize = 16;

const BLOCKS: usize = 20;

const LENGTH: usize = 24;

/// The entries of a directory by their numbers, at most 16, nothing where an entry isn't usable.
#[derive(Drop)]
pub struct Directory {
    rows: ArrayVec<Option<FileRow>, ENTRIES>,
}

impl Model for Directory {
    ghost use Rattle.std.specs.Prelude.{◌≤◌, List, Option, length};
    ghost use Rattle.kernel_data.specs.declared.FileRow.{FileRow};

    ghost Value = { List (Option FileRow) };

    ghost view = { λ d. d.rows.items };

    ghost invariant = { λ d. length d.rows.items ≤ 16 };
}

impl Directory {
    /// No entries.
    pub fn empty() -> Directory
        ensures { result ≡ [] }
    {
        Directory {
            rows: ArrayVec::new(),
        }
    }

    /// The number of the usable entry of this name.
    pub fn find(&self, name: &[u8]) -> Option<u8>
        ensures value { result ≡ entry_named name.now 0 self.now }
        ensures usable { IfSome result (λ n. IsSome (slice_index_or self.now n None)) }
    {
        find_entry(self.rows.as_slice(), name)
    }

    /// Usable entry n.
    pub fn file(&self, n: u8) -> FileRow
        requires { IsSome (slice_index_or self.now n None) }
        ensures { slice_index_or self.now n None ≡ Some result }
    {
        copy_of(self.row(n))
    }

    /// The same where it stands, so that its name isn't copied.
    pub fn row(&self, n: u8) -> &FileRow
        requires { IsSome (slice_index_or self.now n None) }
        ensures { slice_index_or self.now n None ≡ Some result.now }
    {
        usable_entry(self.rows.as_slice(), n)
    }

    /// How many entries are usable.
    pub fn count(&self) -> u8
        ensures { result ≡ usable_count self.now }
    {
        count_usable(self.rows.as_slice())
    }
}

/// The directory that block 0 of a disk of so many blocks holds.
///
/// An entry is usable where its name is 1 to 16 bytes of names with zeros alone after them, it
/// starts at block 1 or later, its blocks lie on the disk, its length is at most that of its
/// blocks, and no usable entry before it has its name. Its owner isn't looked at. Other entries are
/// as if they weren't there.
pub fn read_directory(block: &[u8; 512], size: u32) -> Directory
    ensures value { result ≡ directory_of size block.now }
    ensures entries { length result ≡ 16 }
    ensures files { (n : ℕ) (r : Row) → slice_index_or result n None ≡ Some r →
        lies_on_disk size r ≡ true }
{
    Directory {
        rows: read_entries(block, size),
    }
}

/// The entries of a directory.
fn read_entries(block: &[u8], size: u32) -> ArrayVec<Option<FileRow>, ENTRIES>
    requires { 512 ≤ length block.now }
    ensures value { result.items ≡ entries size block.now 16 }
    ensures count { length result.items ≡ 16 }
    ensures files { (n : ℕ) (r : Row) → slice_index_or result.items n None ≡ Some r →
        lies_on_disk size r ≡ true }
{
    let mut rows = ArrayVec::new();
    for i in 0..ENTRIES {
        let entry = &block[ENTRY_BYTES * i..ENTRY_BYTES * i + ENTRY_BYTES];
        let next = read_entry(entry, size, rows.as_slice());
        rows.push(next);
    }
    rows
}

/// An entry after these, if it is usable.
fn read_entry(entry: &[u8], size: u32, earlier: &[Option<FileRow>]) -> Option<FileRow>
    requires { length entry.now ≡ 32 }
    ensures value { result ≡ cond (is_usable size entry.now (entry_row entry.now) earlier.now)
        (Some (entry_row entry.now)) None }
    ensures files { IfSome result (λ r. lies_on_disk size r ≡ true) }
{
    let row = row_of(entry);
    if usable_after(&row, entry, size, earlier) {
        Some(row)
    } else {
        None
    }
}

/// Whether an entry after these is usable, which says what is in the row.
#[tactic(auto, unfolding(kernel_data::specs::Directory::is_usable))]
fn usable_after(row: &FileRow, entry: &[u8], size: u32, earlier: &[Option<FileRow>]) -> bool
    requires entry { length entry.now ≡ 32 }
    requires name { length row.now.name ≤ 16 }
    ensures value { result ≡ is_usable size entry.now row.now earlier.now }
    ensures lies { result ≡ true → lies_on_disk size row.now ≡ true }
{
    has_name_padded(row, entry) && fits_disk(row, size) && !has_row(earlier, row.name.as_slice())
}

/// What an entry says.
#[tactic(auto, unfolding(kernel_data::specs::Directory::entry_row))]
fn row_of(entry: &[u8]) -> FileRow
    requires { length entry.now ≡ 32 }
    ensures value { result ≡ entry_row entry.now }
    ensures name { length result.name ≤ 16 }
{
    FileRow {
        name: name_of(&entry[..NAME_FIELD]),
        start: word(entry, START),
        blocks: word(entry, BLOCKS),
        length: word(entry, LENGTH),
    }
}

/// The word at a place, its lowest byte first.
fn word(bytes: &[u8], at: usize) -> u32
    requires { at + 4 ≤ length bytes.now }
    ensures { result ≡ word_at bytes.now at }
{
    u32::from_le_bytes([bytes[at], bytes[at + 1], bytes[at + 2], bytes[at + 3]])
}

/// The bytes of a name at the front of these.
fn name_of(field: &[u8]) -> Name
    requires { length field.now ≤ 16 }
    ensures { result ≡ take_while is_name_byte field.now }
{
    let mut name = Name::new();
    for byte in &field[..name_length(field)] {
        let _ = name.push(*byte);
    }
    name
}

/// How many bytes at the front may stand in a name.
fn name_length(field: &[u8]) -> usize
    ensures value { result ≡ prefix_len is_name_byte field.now }
    ensures bound { result ≤ length field.now }
{
    field
        .iter()
        .take_while(|byte| stands_in_name(**byte))
        .count()
}

/// Whether a byte may stand in a name: a to z, 0 to 9, `.`, `_` or `-`.
fn stands_in_name(byte: u8) -> bool
    ensures { result ≡ is_name_byte byte }
{
    matches!(byte, b'a'..=b'z' | b'0'..=b'9' | b'.' | b'_' | b'-')
}

/// Whether there is a name, with zeros alone after it.
fn has_name_padded(row: &FileRow, entry: &[u8]) -> bool
    requires entry { length entry.now ≡ 32 }
    requires name { length row.now.name ≤ 16 }
    ensures { result ≡ is_padded entry.now row.now }
{
    let name_bytes = row.name.as_slice().len();
    name_bytes >= 1 && all_zero(&entry[name_bytes..NAME_FIELD])
}

/// Whether each byte is 0.
fn all_zero(bytes: &[u8]) -> bool
    ensures { result ≡ list_all (λ b. b == 0) bytes.now }
{
    bytes.iter().all(|byte| *byte == 0)
}

/// Whether the blocks of a file lie on a disk of so many blocks, behind block 0, and have room for
/// its length.
fn fits_disk(row: &FileRow, size: u32) -> bool
    ensures { result ≡ lies_on_disk size row.now }
{
    row.start >= 1
        && u64::from(row.start) + u64::from(row.blocks) <= u64::from(size)
        && u64::from(row.length) <= BLOCK_BYTES as u64 * u64::from(row.blocks)
}

/// Whether an entry has this name.
fn is_named(row: &Option<FileRow>, name: &[u8]) -> bool
    ensures { result ≡ has_name name.now row.now }
{
    match row {
        Some(row) => row.name.as_slice() == name,
        None => false,
    }
}

/// Whether one of the entries has this name.
fn has_row(rows: &[Option<FileRow>], name: &[u8]) -> bool
    ensures { result ≡ list_any (has_name name.now) rows.now }
{
    rows.iter().any(|row| is_named(row, name))
}

/// The number of the first entry of this name.
fn find_entry(rows: &[Option<FileRow>], name: &[u8]) -> Option<u8>
    requires { length rows.now ≤ 16 }
    ensures value { result ≡ entry_named name.now 0 rows.now }
    ensures usable { IfSome result (λ n. IsSome (slice_index_or rows.now n None)) }
{
    for (i, row) in rows.iter().enumerate() {
        if is_named(row, name) {
            return Some(i as u8);
        }
    }
    None
}

/// Entry n, which is usable.
fn usable_entry(rows: &[Option<FileRow>], n: u8) -> &FileRow
    requires { IsSome (slice_index_or rows.now n None) }
    ensures { slice_index_or rows.now n None ≡ Some result.now }
{
    match &rows[n as usize] {
        Some(row) => row,
        None => unreachable!(),
    }
}

/// The same row once more.
fn copy_of(row: &FileRow) -> FileRow
    ensures { result ≡ row.now }
{
    FileRow {
        name: row.name.copy(),
        start: row.start,
        blocks: row.blocks,
        length: row.length,
    }
}

/// How many entries are usable.
fn count_usable(rows: &[Option<FileRow>]) -> u8
    requires { length rows.now ≤ 16 }
    ensures { result ≡ usable_count rows.now }
{
    rows.iter().filter(|row| row.is_some()).count() as u8
}
