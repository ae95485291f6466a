//! The bytes of frames, and the blocks of the disk.

ghost use Rattle.std.specs.Prelude.{◌≡◌, OnOk, IfOk};
ghost use Rattle.kernel_model.specs.Objects.{at};
ghost use Rattle.kernel_model.specs.Fetch as model;
ghost use Rattle.kernel_model.specs.FilePieces.{with_cache};
ghost use Rattle.kernel_model.specs.Needs as needs;
ghost use Rattle.kernel_model.specs.Policies as policies;
ghost use Rattle.audit_state.specs.Things.{frame_of, value_of};
ghost use Rattle.audit_state.specs.Worlds.{world_of};
ghost use Rattle.audit_pieces.specs.Stores.{objects_of, blocks_of, page_of, Changes};

use crate::Store;
use crate::bytes::patched;
use crate::sample::sample_block;
use audit_needs::blocks::{frame_of_block, free_frame};
use audit_state::{Frame, World};
use audit_table::{copy, lend, put_one};
use kernel_model::NoMemory;
use std::alloc::Global;

#[tactic(auto, unfolding(crate::specs::Stores::objects_of, crate::specs::Stores::blocks_of))]
impl Store {
    /// The bytes that were put into a frame.
    pub(crate) fn page(&self, f: u32) -> &[u8]
        ensures { result.now ≡ page_of self.now f }
    {
        match lend(&self.pages, f, 0) {
            Some(Some(bytes)) => bytes.as_slice(),
            _ => &[],
        }
    }

    /// A frame, if it is in use.
    pub(crate) fn frame(&self, f: u32) -> Option<Frame>
        ensures { frame_of (page_of self.now f) result
            ≡ (objects_of self.now).things.cache.frame f }
    {
        self.things.frame(f)
    }

    /// The bytes of a frame, none where it isn't in use.
    pub(crate) fn bytes_of(&self, f: u32) -> &[u8]
        ensures { result.now ≡ model.bytes_of (objects_of self.now).things.cache f }
    {
        match self.frame(f) {
            None => &[],
            Some(_) => self.page(f),
        }
    }

    /// The frame in use that holds a block.
    pub(crate) fn frame_of_block(&self, b: u64) -> Option<u32>
        ensures { result ≡ needs.frame_of_block (objects_of self.now).things.cache b }
    {
        frame_of_block(&self.things, b)
    }

    /// The lowest frame that isn't in use.
    pub(crate) fn free_frame(&self, world: &World) -> Option<u32>
        ensures { result ≡ needs.free_frame (objects_of self.now).things.cache
            (world_of world.now).frames 0 }
    {
        free_frame(&self.things, world.frames)
    }

    /// The candidate for eviction among all frames, or 0.
    pub(crate) fn candidate(&self) -> u32
        ensures { let w = (objects_of self.now).things in
            result ≡ policies.or_zero (policies.victim_among (w.pol 1) w.cache w.cache.lru) }
    {
        match self.things.victim_among(&self.things.lru) {
            None => 0,
            Some(f) => f,
        }
    }

    /// A block of the disk.
    pub(crate) fn block(&self, alloc: Global, b: u32) -> Result<Vec<u8>, NoMemory>
        ensures { IfOk result (λ bytes. bytes.items ≡ blocks_of self.now b) }
    {
        match lend(&self.disk, b, 0) {
            Some(Some(bytes)) => copy(alloc, bytes),
            _ => sample_block(alloc, b),
        }
    }

    /// A block of the disk is written.
    pub(crate) fn put_block(&mut self, b: u32, bytes: Vec<u8>) -> Result<(), NoMemory>
        ensures objects { OnOk result (objects_of self.new ≡ objects_of self.old) }
        ensures blocks { OnOk result (blocks_of self.new ≡ at b bytes.items (blocks_of self.old)) }
    {
        put_one(&mut self.disk, b, Some(bytes))?;
        Ok(())
    }

    /// A frame becomes the newest.
    pub(crate) fn use_frame(&mut self, f: u32) -> Result<(), NoMemory>
        ensures { OnOk result (Changes
            (λ s. with_cache (model.used f s.things.cache) s) self.old self.new) }
    {
        self.things.use_frame(f)?;
        Ok(())
    }

    /// A frame gets a block that was just read, and is the newest.
    pub(crate) fn fill(&mut self, f: u32, owner: u8, b: u32, bytes: Vec<u8>) -> Result<(), NoMemory>
        ensures { OnOk result (Changes (λ s. with_cache
            (model.filled f (model.new_frame owner b bytes.items) s.things.cache) s)
            self.old self.new) }
    {
        put_one(&mut self.pages, f, Some(bytes))?;
        self.things.fill(f, owner, b)?;
        Ok(())
    }

    /// A frame gets a block that was just read in place of what it held, once it changed places
    /// with the candidate.
    pub(crate) fn replace(
        &mut self,
        f: u32,
        candidate: u32,
        owner: u8,
        b: u32,
        bytes: Vec<u8>,
    ) -> Result<(), NoMemory>
        ensures { OnOk result (Changes (λ s. with_cache
            (model.replaced f candidate (model.new_frame owner b bytes.items) s.things.cache) s)
            self.old self.new) }
    {
        put_one(&mut self.pages, f, Some(bytes))?;
        self.things.replace(f, candidate, owner, b)?;
        Ok(())
    }

    /// A frame that holds this was written to the disk, and is clean.
    pub(crate) fn clean(&mut self, f: u32, value: Frame) -> Result<(), NoMemory>
        ensures { OnOk result (Changes (λ s. with_cache
            (model.cleaned f (value_of (page_of self.old f) value) s.things.cache) s)
            self.old self.new) }
    {
        self.things.clean(f, value)?;
        Ok(())
    }

    /// Bytes are put into a frame, which is dirty then.
    pub(crate) fn patch(
        &mut self,
        alloc: Global,
        f: u32,
        offset: u32,
        put: &[u8],
    ) -> Result<(), NoMemory>
        ensures { OnOk result (Changes (λ s. with_cache
            (model.with_patch f offset put.now s.things.cache) s) self.old self.new) }
    {
        let bytes = patched(alloc, offset, put, self.page(f))?;
        put_one(&mut self.pages, f, Some(bytes))?;
        self.things.patch(f)?;
        Ok(())
    }
}
