//! The open files of a store, and the blocks that they name.

ghost use Rattle.std.specs.Prelude.{◌≡◌, ◌+◌, ◌<◌, ◌≤◌, true, Some, None, Ok, IfSome, IfOk};
ghost use Rattle.kernel_data.specs.World.{file_named, blocks_of};
ghost use Rattle.kernel_data.specs.Policies.{lives, ahead_default};
ghost use Rattle.kernel_model.specs.Needs.{file_block, ahead_block, is_within};
ghost use Rattle.kernel_model.specs.FilePieces.{with_file, free_descriptor as lowest_free, new_file};
ghost use Rattle.kernel_model.specs.FilePieces.{read_on, with_ahead};
ghost use Rattle.std.specs.Prelude.{option_map};
ghost use Rattle.kernel_model.specs.Sound.{IsSoundFile};
ghost use Rattle.kernel_state.specs.Changes.{Changes};
ghost use Rattle.kernel_state.specs.Places.{HasDescriptor};
ghost use Rattle.kernel_state.specs.Stores.{world_of_store, objects_of, queue_of, policies_of};

use crate::{Ahead, Store};
use graft_points::Policy;
use kernel_data::{BLOCK_BYTES, FileRow, OpenRow, Refusal};

impl<B: Policy> Store<B> {
    /// The usable file of this name, as it is when it was just opened.
    pub fn named(&self, name: &[u8]) -> Option<u8>
        ensures value { result ≡ file_named (world_of_store self.now) name.now }
        ensures sound { IfSome result (λ n. IsSoundFile (world_of_store self.now) (new_file n)) }
    {
        self.dir.find(name)
    }

    /// The file that is open at descriptor fd of process p, which lives.
    pub fn file(&self, p: u8, fd: u8) -> Option<OpenRow>
        requires { HasDescriptor (queue_of self.now) p fd }
        ensures value { result ≡ (objects_of self.now).things.file p fd }
        ensures sound { IfSome result (λ o. IsSoundFile (world_of_store self.now) o) }
    {
        self.procs.rows();
        self.procs.file(p, fd)
    }

    /// The lowest descriptor of process p at which no file is open.
    pub fn free_descriptor(&self, p: u8) -> Option<u8>
        requires { lives (queue_of self.now) p ≡ true }
        ensures value { result ≡ lowest_free (objects_of self.now).things p 4 0 }
        ensures below { IfSome result (λ fd. fd < 4) }
    {
        self.procs.rows();
        for fd in 0..4u8 {
            if self.procs.file(p, fd).is_none() {
                return Some(fd);
            }
        }
        None
    }

    /// Opens, changes or closes the file at descriptor fd of process p, which lives.
    pub fn put_file(&mut self, p: u8, fd: u8, row: Option<OpenRow>)
        requires place { HasDescriptor (queue_of self.old) p fd }
        requires file { IfSome row (λ o. IsSoundFile (world_of_store self.old) o) }
        ensures { Changes (with_file p fd row) self.old self.new }
    {
        self.procs.rows();
        self.procs.put_file(p, fd, row);
    }

    /// The file that is open at descriptor fd of process p, which lives, was read at block i.
    /// Nothing changes where no file is open.
    pub fn read_on(&mut self, p: u8, fd: u8, i: u32)
        requires place { HasDescriptor (queue_of self.old) p fd }
        requires range { i < 4294967295 }
        ensures { Changes (with_file p fd
            (option_map (read_on i) ((objects_of self.old).things.file p fd))) self.old self.new }
    {
        self.procs.rows();
        self.procs.read_on(p, fd, i);
    }

    /// Changes what is to be read ahead of the file that is open at descriptor fd of process p,
    /// which lives: at most 8 blocks, within the file. Nothing changes where no file is open.
    pub fn set_ahead(&mut self, p: u8, fd: u8, start: u32, count: u8)
        requires place { HasDescriptor (queue_of self.old) p fd }
        requires few { count ≤ 8 }
        requires within { IfSome ((objects_of self.old).things.file p fd)
            (λ o. start + count ≤ blocks_of (world_of_store self.old) o.file) }
        ensures { Changes (with_file p fd (option_map (with_ahead start count)
            ((objects_of self.old).things.file p fd))) self.old self.new }
    {
        self.procs.rows();
        self.procs.set_ahead(p, fd, start, count);
    }

    /// The disk's block that is block i of the file at descriptor fd of process p, which lives.
    /// Refused where no file is open there, or bytes off to off + len of that block aren't all
    /// within the file.
    pub fn block_of(&self, p: u8, fd: u8, i: u32, off: u32, len: u32) -> Result<u32, Refusal>
        requires { HasDescriptor (queue_of self.now) p fd }
        ensures value { let opened = (objects_of self.now).things.file p fd in
            result ≡ file_block (world_of_store self.now) opened i off len }
        ensures on_disk { IfOk result (λ b. (b < self.now.size) × (i < 4096)) }
    {
        self.procs.rows();
        let Some(opened) = self.procs.file(p, fd) else {
            return Err(Refusal::BadFd);
        };
        let row = self.dir.row(opened.file);
        if !has_bytes(row, i, off, len) {
            return Err(Refusal::BadIndex);
        }
        Ok(row.start + i)
    }

    /// The disk's block that is to be read ahead next for an open file, which has one to be read
    /// ahead.
    pub fn block_ahead(&self, opened: &OpenRow) -> u32
        requires file { IsSoundFile (world_of_store self.now) opened.now }
        requires some { 1 ≤ opened.now.count }
        ensures value { ahead_block (world_of_store self.now) (Some opened.now) ≡ Ok result }
        ensures on_disk { result < self.now.size }
    {
        self.dir.row(opened.file).start + opened.start
    }

    /// How many blocks the file has that is open here.
    pub fn blocks(&self, opened: &OpenRow) -> u32
        requires { IsSoundFile (world_of_store self.now) opened.now }
        ensures { result ≡ blocks_of (world_of_store self.now) opened.now.file }
    {
        self.dir.row(opened.file).blocks
    }

    /// What is to be read ahead of an open file by default, as the chosen policy has it.
    pub fn ahead(&self, opened: &OpenRow) -> Ahead
        requires file { IsSoundFile (world_of_store self.now) opened.now }
        ensures value { ahead_default (world_of_store self.now) (policies_of self.now 0)
            (Some opened.now) ≡
            (result.start, result.count) }
        ensures sound { IsSoundFile (world_of_store self.now)
            (record (opened.now) { start = result.start; count = result.count }) }
    {
        let blocks = self.dir.row(opened.file).blocks;
        let (start, count) = self.shelf.ahead(&self.choice, opened, blocks);
        Ahead {
            start,
            count: count as u8,
        }
    }
}

/// Whether bytes off to off + len of block i lie within a file.
fn has_bytes(row: &FileRow, i: u32, off: u32, len: u32) -> bool
    ensures { result ≡ is_within row.now i off len }
{
    let end = BLOCK_BYTES as u64 * u64::from(i) + u64::from(off) + u64::from(len);
    i < row.blocks && end <= u64::from(row.length)
}
