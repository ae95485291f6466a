//! The pieces of the calls on files.

ghost use Rattle.std.specs.Prelude.{◌≡◌, ◌+◌, ℕ, suc, [], Some, IfOk, OnOk};
ghost use Rattle.std.specs.Prelude.{length};
ghost use Rattle.kernel_model.specs.declared.SysCall.TheVariants.{Read};
ghost use Rattle.kernel_model.specs.Meaning.{registers_of};
ghost use Rattle.kernel_model.specs.World.{file_named};
ghost use Rattle.kernel_model.specs.FilePieces as model;
ghost use Rattle.kernel_model.specs.Fetch.{cleaned, fetch, fetch_ahead};
ghost use Rattle.kernel_model.specs.Needs.{file_block};
ghost use Rattle.kernel_model.specs.Objects.{at};
ghost use Rattle.kernel_model.specs.Policies.{ahead_default};
ghost use Rattle.audit_state.specs.Things.{value_of};
ghost use Rattle.audit_state.specs.Worlds.{world_of};
ghost use Rattle.audit_needs.specs.Stages.{call_of};
ghost use Rattle.audit_pieces.specs.Ends.{answer_of, left_by, left_of};
ghost use Rattle.audit_pieces.specs.Stores.{objects_of, blocks_of, page_of};

use crate::bytes::range_of;
use crate::ends::{ended, ends_with, go_on, go_on_unless_zero, refuses, registers, well};
use crate::numbers::one_more;
use crate::{After, PieceEnd, Store, Turn};
use audit_needs::Stage;
use audit_needs::blocks::{Place, ahead_block, file_block as block_meant};
use audit_state::Frame;
use audit_state::policies::byte_of;
use audit_table::copy;
use kernel_model::{NoMemory, OpenRow, Refusal, Reply};

/// The window of a file that was just opened.
const FIRST_WINDOW: u8 = 8;

/// A file that was just opened.
fn new_file(n: u8) -> OpenRow
    ensures { result ≡ model.new_file n }
{
    OpenRow {
        file: n,
        next: 0,
        window: FIRST_WINDOW,
        seq: false,
        start: 0,
        count: 0,
    }
}

/// An open file after the read of its block i.
fn read_on(i: u32, opened: &OpenRow) -> Result<OpenRow, NoMemory>
    ensures { IfOk result (λ o. o ≡ model.read_on i opened.now) }
{
    let next = one_more(i)?;
    Ok(OpenRow {
        next,
        seq: i == opened.next,
        ..*opened
    })
}

/// An open file with this to be read ahead.
fn with_ahead(start: u32, count: u8, opened: &OpenRow) -> OpenRow
    ensures { result ≡ model.with_ahead start count opened.now }
{
    OpenRow {
        start,
        count,
        ..*opened
    }
}

impl Store {
    /// The lowest descriptor of a process that is free.
    fn free_descriptor(&self, p: u8) -> Option<u32>
        ensures { result ≡ model.free_descriptor (objects_of self.now).things p 4 0 }
    {
        for fd in 0..4u32 {
            match self.file(p, fd) {
                None => return Some(fd),
                Some(_) => {}
            }
        }
        None
    }

    /// A file is opened at the lowest free descriptor.
    pub(crate) fn open_piece(&mut self, turn: &Turn<'_>, name: &[u8]) -> Result<PieceEnd, NoMemory>
        ensures { IfOk result (λ e. (t : Stage) → left_of self.new t e ≡ left_by
            (model.open_piece (objects_of self.old) turn.now.process
            (file_named (world_of turn.now.world.now) name.now)
            (model.free_descriptor (objects_of self.old).things turn.now.process 4 0)
            (blocks_of self.old))) }
    {
        match turn.world.named(name) {
            None => Ok(refuses(Refusal::NoFile)),
            Some(n) => self.open_at(turn.process, n),
        }
    }

    /// The file of a number is opened at the lowest free descriptor.
    fn open_at(&mut self, p: u8, n: u8) -> Result<PieceEnd, NoMemory>
        ensures { IfOk result (λ e. (t : Stage) → left_of self.new t e ≡ left_by
            (model.open_piece (objects_of self.old) p (Some n)
            (model.free_descriptor (objects_of self.old).things p 4 0) (blocks_of self.old))) }
    {
        match self.free_descriptor(p) {
            None => Ok(refuses(Refusal::NoFd)),
            Some(fd) => {
                self.set_file(p, fd, Some(new_file(n)))?;
                Ok(ends_with(Reply::One(fd)))
            }
        }
    }

    /// A file is closed; a graft at its point stays.
    pub(crate) fn close_piece(&mut self, p: u8, fd: u32) -> Result<PieceEnd, NoMemory>
        ensures { IfOk result (λ e. (t : Stage) → left_of self.new t e ≡ left_by
            (model.close_piece (objects_of self.old) p fd
            ((objects_of self.old).things.file p fd) (blocks_of self.old))) }
    {
        match self.file(p, fd) {
            None => Ok(refuses(Refusal::BadFd)),
            Some(_) => {
                self.set_file(p, fd, None)?;
                Ok(well())
            }
        }
    }

    /// The first piece of a read: the block is fetched, and its bytes are given.
    fn read_first(
        &mut self,
        turn: &Turn<'_>,
        stage: &mut Stage,
        place: Place,
        count: u32,
        opened: &OpenRow,
        b: u64,
    ) -> Result<PieceEnd, NoMemory>
        requires { call_of stage.old ≡ Read place.descriptor place.block place.offset count }
        ensures { let s = objects_of self.old in
            IfOk result (λ e. left_of self.new stage.new e ≡ left_by
            (model.read_first s (blocks_of self.old) turn.now.process place.descriptor place.block
            place.offset count opened.now
            (fetch (world_of turn.now.world.now) (s.things.pol 1) turn.now.process b
            (registers_of (answer_of turn.now.answer.now)) s.things.cache (blocks_of self.old)
            []))) }
    {
        let f = self.fetch(turn, b)?;
        let gave = range_of(turn.alloc, self.bytes_of(f), place.offset, count)?;
        let later = read_on(place.block, opened)?;
        self.set_file(turn.process, place.descriptor, Some(later))?;
        go_on(stage, 1);
        Ok(PieceEnd {
            gave: Some(gave),
            after: After::Continues,
        })
    }

    /// What is to be read ahead of an open file: as an answer says, or by default.
    fn ahead_by(&self, turn: &Turn<'_>, opened: &OpenRow) -> (u32, u32)
        ensures { result ≡ model.ahead_by (registers_of (answer_of turn.now.answer.now))
            (ahead_default (world_of turn.now.world.now) ((objects_of self.now).things.pol 0)
            (Some opened.now)) }
    {
        match registers(turn.answer) {
            None => self.ahead_default(turn.world, opened),
            Some(answer) => (answer[0], answer[1]),
        }
    }

    /// The second piece of a read: the answer becomes what is to be read ahead.
    fn read_second(
        &mut self,
        turn: &Turn<'_>,
        stage: &mut Stage,
        descriptor: u32,
        opened: &OpenRow,
    ) -> Result<PieceEnd, NoMemory>
        ensures { let s = objects_of self.old in
            IfOk result (λ e. (i off len : ℕ) → call_of stage.old ≡ Read descriptor i off len →
            left_of self.new stage.new e ≡ left_by
            (model.read_second s (blocks_of self.old) turn.now.process descriptor i off len
            opened.now (model.ahead_by (registers_of (answer_of turn.now.answer.now))
            (ahead_default (world_of turn.now.world.now) (s.things.pol 0) (Some opened.now))))) }
    {
        let ahead = self.ahead_by(turn, opened);
        let count = byte_of(ahead.1)?;
        let later = with_ahead(ahead.0, count, opened);
        self.set_file(turn.process, descriptor, Some(later))?;
        Ok(ended(go_on_unless_zero(stage, 2, ahead.1)))
    }

    /// A later piece of a read: the next block ahead is fetched.
    fn read_third(
        &mut self,
        turn: &Turn<'_>,
        stage: &mut Stage,
        descriptor: u32,
        opened: &OpenRow,
        b: u64,
    ) -> Result<PieceEnd, NoMemory>
        ensures { let s = objects_of self.old in
            IfOk result (λ e. (i off len : ℕ) → call_of stage.old ≡ Read descriptor i off len →
            left_of self.new stage.new e ≡ left_by
            (model.read_third s (blocks_of self.old) turn.now.process descriptor i off len
            opened.now (fetch_ahead (world_of turn.now.world.now) (s.things.pol 1)
            turn.now.process b (registers_of (answer_of turn.now.answer.now)) s.things.cache
            (blocks_of self.old) []))) }
    {
        self.fetch_ahead(turn, b)?;
        let start = one_more(opened.start)?;
        let count = opened.count.saturating_sub(1);
        let later = with_ahead(start, count, opened);
        self.set_file(turn.process, descriptor, Some(later))?;
        Ok(ended(go_on_unless_zero(stage, 2, u32::from(count))))
    }

    /// The pieces of a read of an open file, by their number.
    fn read_open(
        &mut self,
        turn: &Turn<'_>,
        stage: &mut Stage,
        place: Place,
        count: u32,
        opened: &OpenRow,
    ) -> Result<PieceEnd, NoMemory>
        requires { call_of stage.old ≡ Read place.descriptor place.block place.offset count }
        ensures { IfOk result (λ e. left_of self.new stage.new e ≡ left_by
            (model.read_piece stage.old.piece (world_of turn.now.world.now) (objects_of self.old)
            (blocks_of self.old) turn.now.process place.descriptor place.block place.offset
            count (Some opened.now) (registers_of (answer_of turn.now.answer.now)) [])) }
    {
        match stage.piece {
            0 => match block_meant(turn.world, &Some(*opened), place, count as usize) {
                Err(refusal) => Ok(refuses(refusal)),
                Ok(b) => self.read_first(turn, stage, place, count, opened, b),
            },
            1 => self.read_second(turn, stage, place.descriptor, opened),
            _ => match ahead_block(turn.world, &Some(*opened)) {
                Err(refusal) => Ok(refuses(refusal)),
                Ok(b) => self.read_third(turn, stage, place.descriptor, opened, b),
            },
        }
    }

    /// The pieces of a read, by their number.
    pub(crate) fn read_piece(
        &mut self,
        turn: &Turn<'_>,
        stage: &mut Stage,
        place: Place,
        count: u32,
    ) -> Result<PieceEnd, NoMemory>
        requires { call_of stage.old ≡ Read place.descriptor place.block place.offset count }
        ensures { IfOk result (λ e. left_of self.new stage.new e ≡ left_by
            (model.read_piece stage.old.piece (world_of turn.now.world.now) (objects_of self.old)
            (blocks_of self.old) turn.now.process place.descriptor place.block place.offset
            count ((objects_of self.old).things.file turn.now.process place.descriptor)
            (registers_of (answer_of turn.now.answer.now)) [])) }
    {
        match self.file(turn.process, place.descriptor) {
            None => Ok(refuses(Refusal::BadFd)),
            Some(opened) => self.read_open(turn, stage, place, count, &opened),
        }
    }

    /// A write, once its block is known: the bytes are put into the frame.
    fn write_block(
        &mut self,
        turn: &Turn<'_>,
        offset: u32,
        put: &[u8],
        b: u64,
    ) -> Result<PieceEnd, NoMemory>
        ensures { let s = objects_of self.old in
            IfOk result (λ e. (t : Stage) → left_of self.new t e ≡ left_by
            (model.write_fetched s (blocks_of self.old) offset put.now
            (fetch (world_of turn.now.world.now) (s.things.pol 1) turn.now.process b
            (registers_of (answer_of turn.now.answer.now)) s.things.cache (blocks_of self.old)
            []))) }
    {
        let f = self.fetch(turn, b)?;
        self.patch(turn.alloc, f, offset, put)?;
        Ok(well())
    }

    /// A write of these bytes at a place of an open file.
    pub(crate) fn write_piece(
        &mut self,
        turn: &Turn<'_>,
        place: Place,
        put: &[u8],
    ) -> Result<PieceEnd, NoMemory>
        ensures { let s = objects_of self.old in
            IfOk result (λ e. (t : Stage) → left_of self.new t e ≡ left_by
            (model.write_piece (file_block (world_of turn.now.world.now)
            (s.things.file turn.now.process place.descriptor) place.block place.offset
            (length put.now))
            (world_of turn.now.world.now) s (blocks_of self.old) turn.now.process place.offset
            put.now (registers_of (answer_of turn.now.answer.now)) [])) }
    {
        let file = self.file(turn.process, place.descriptor);
        match block_meant(turn.world, &file, place, put.len()) {
            Err(refusal) => Ok(refuses(refusal)),
            Ok(b) => self.write_block(turn, place.offset, put, b),
        }
    }

    /// A dirty frame is written, and clean then.
    fn sync_frame(&mut self, turn: &Turn<'_>, f: u32, value: Frame) -> Result<(), NoMemory>
        ensures objects { OnOk result (objects_of self.new ≡ model.with_cache
            (cleaned f (value_of (page_of self.old f) value) (objects_of self.old).things.cache)
            (objects_of self.old)) }
        ensures blocks { OnOk result (blocks_of self.new
            ≡ at value.block (page_of self.old f) (blocks_of self.old)) }
    {
        let bytes = copy(turn.alloc, self.page(f))?;
        self.clean(f, value)?;
        self.put_block(value.block, bytes)?;
        Ok(())
    }

    /// A frame is written if it is dirty. Gives how many were written then, where so many were
    /// before.
    fn sync_one(&mut self, turn: &Turn<'_>, f: u32, written: u32) -> Result<u32, NoMemory>
        ensures { IfOk result (λ w. (n : ℕ) →
            model.sync_from n (suc f) w (objects_of self.new) (blocks_of self.new) []
            ≡ model.sync_from (suc n) f written (objects_of self.old) (blocks_of self.old) []) }
    {
        match self.frame(f) {
            None => Ok(written),
            Some(value) => {
                if value.dirty {
                    self.sync_frame(turn, f, value)?;
                    one_more(written)
                } else {
                    Ok(written)
                }
            }
        }
    }

    /// The dirty frames are written, in order; the call answers how many.
    pub(crate) fn sync_piece(&mut self, turn: &Turn<'_>) -> Result<PieceEnd, NoMemory>
        ensures { IfOk result (λ e. (t : Stage) → left_of self.new t e ≡ left_by
            (model.sync_from (world_of turn.now.world.now).frames 0 0 (objects_of self.old)
            (blocks_of self.old) [])) }
    {
        let mut written = 0;
        for f in 0..turn.world.frames {
            written = self.sync_one(turn, u32::from(f), written)?;
        }
        Ok(ends_with(Reply::One(written)))
    }
}
