//! How a block comes into a frame of the cache.

ghost use Rattle.std.specs.Prelude.{◌≡◌, [], OnOk, IfOk};
ghost use Rattle.kernel_model.specs.Fetch as model;
ghost use Rattle.kernel_model.specs.Meaning.{registers_of};
ghost use Rattle.audit_state.specs.Worlds.{world_of};
ghost use Rattle.audit_pieces.specs.Ends.{answer_of, written_back, Fetches};
ghost use Rattle.audit_pieces.specs.Stores.{objects_of, blocks_of};

use crate::ends::registers;
use crate::{Store, Turn};
use audit_needs::blocks::word_of_block;
use audit_table::copy;
use kernel_model::NoMemory;

/// The first number of an answer, or the default.
pub(crate) fn chosen_by(turn: &Turn<'_>, default: u32) -> u32
    ensures { result
        ≡ model.chosen_by (registers_of (answer_of turn.now.answer.now)) default }
{
    match registers(turn.answer) {
        None => default,
        Some(answer) => answer[0],
    }
}

impl Store {
    /// What a frame holds is written where it is dirty.
    fn write_back(&mut self, turn: &Turn<'_>, f: u32) -> Result<(), NoMemory>
        ensures objects { OnOk result (objects_of self.new ≡ objects_of self.old) }
        ensures blocks { OnOk result (blocks_of self.new ≡ written_back
            ((objects_of self.old).things.cache.frame f) (blocks_of self.old)) }
    {
        match self.frame(f) {
            Some(old) if old.dirty => {
                let bytes = copy(turn.alloc, self.page(f))?;
                self.put_block(old.block, bytes)
            }
            _ => Ok(()),
        }
    }

    /// A block that was read takes the place of what a frame held.
    fn evict(
        &mut self,
        turn: &Turn<'_>,
        b: u32,
        bytes: Vec<u8>,
        chosen: u32,
        candidate: u32,
    ) -> Result<u32, NoMemory>
        ensures { let c = (objects_of self.old).things.cache in
            IfOk result (λ f. Fetches (model.evict (c.frame chosen) chosen
            (model.replaced chosen candidate (model.new_frame turn.now.process b bytes.items) c)
            (blocks_of self.old) []) self.old self.new f) }
    {
        self.write_back(turn, chosen)?;
        self.replace(chosen, candidate, turn.process, b, bytes)?;
        Ok(chosen)
    }

    /// Where a block that was read goes: to a free frame, or to the chosen one, which is evicted.
    fn place_block(
        &mut self,
        turn: &Turn<'_>,
        b: u32,
        free: Option<u32>,
        candidate: u32,
    ) -> Result<u32, NoMemory>
        ensures { IfOk result (λ f. Fetches (model.place_block free turn.now.process b
            (model.chosen_by (registers_of (answer_of turn.now.answer.now)) candidate) candidate
            (objects_of self.old).things.cache (blocks_of self.old) []) self.old self.new f) }
    {
        let bytes = self.block(turn.alloc, b)?;
        match free {
            Some(f) => {
                self.fill(f, turn.process, b, bytes)?;
                Ok(f)
            }
            None => {
                let chosen = chosen_by(turn, candidate);
                let f = self.evict(turn, b, bytes, chosen, candidate)?;
                Ok(f)
            }
        }
    }

    /// A block that no frame holds is read.
    fn read_block(&mut self, turn: &Turn<'_>, b: u64) -> Result<u32, NoMemory>
        ensures { let w = (objects_of self.old).things in
            IfOk result (λ f. Fetches (model.read_block (world_of turn.now.world.now) (w.pol 1)
            turn.now.process b (registers_of (answer_of turn.now.answer.now)) w.cache
            (blocks_of self.old) []) self.old self.new f) }
    {
        let number = word_of_block(b)?;
        let candidate = self.candidate();
        let free = self.free_frame(turn.world);
        let f = self.place_block(turn, number, free, candidate)?;
        Ok(f)
    }

    /// A block is fetched into the frame that holds it, which becomes the newest; else into the
    /// lowest free frame; else into the one that the answer chooses.
    pub(crate) fn fetch(&mut self, turn: &Turn<'_>, b: u64) -> Result<u32, NoMemory>
        ensures { let w = (objects_of self.old).things in
            IfOk result (λ f. Fetches (model.fetch (world_of turn.now.world.now) (w.pol 1)
            turn.now.process b (registers_of (answer_of turn.now.answer.now)) w.cache
            (blocks_of self.old) []) self.old self.new f) }
    {
        match self.frame_of_block(b) {
            Some(f) => {
                self.use_frame(f)?;
                Ok(f)
            }
            None => {
                let f = self.read_block(turn, b)?;
                Ok(f)
            }
        }
    }

    /// A block that is read ahead: where a frame holds it already, the order of use stays.
    pub(crate) fn fetch_ahead(&mut self, turn: &Turn<'_>, b: u64) -> Result<u32, NoMemory>
        ensures { let w = (objects_of self.old).things in
            IfOk result (λ f. Fetches (model.fetch_ahead (world_of turn.now.world.now) (w.pol 1)
            turn.now.process b (registers_of (answer_of turn.now.answer.now)) w.cache
            (blocks_of self.old) []) self.old self.new f) }
    {
        match self.frame_of_block(b) {
            Some(f) => Ok(f),
            None => {
                let f = self.read_block(turn, b)?;
                Ok(f)
            }
        }
    }
}
