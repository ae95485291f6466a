//! The queue, the handlers of the event points, and a process that leaves.

ghost use Rattle.std.specs.Prelude.{◌≡◌, ℕ, ◌∷◌, [], ◌++◌, List, IfOk, OnOk};
ghost use Rattle.kernel_model.specs.Queue.{new_row};
ghost use Rattle.kernel_model.specs.Pieces as model;
ghost use Rattle.kernel_model.specs.Handlers as handlers;
ghost use Rattle.audit_state.specs.Things.{things_of};

use crate::{Things, lists};
use audit_table::{clear, copy, put_last};
use kernel_model::{NoMemory, QueueRow};
use std::alloc::Global;

/// The nice of a process that has just joined.
const FIRST_NICE: u8 = 20;

impl Things {
    /// A new process joins the queue at the back.
    pub fn join(&mut self, process: u8) -> Result<(), NoMemory>
        ensures { OnOk result ((bytes : ℕ → List ℕ) →
            things_of bytes self.new ≡ record (things_of bytes self.old) {
              queue = self.old.queue.items ++ new_row process ∷ [];
            }) }
    {
        let row = QueueRow {
            process,
            nice: FIRST_NICE,
            slices: 0,
        };
        put_last(&mut self.queue, row)?;
        Ok(())
    }

    /// A process goes to the back of the queue.
    pub fn to_back(&mut self, alloc: Global, q: u8) -> Result<(), NoMemory>
        ensures { OnOk result ((bytes : ℕ → List ℕ) →
            things_of bytes self.new ≡ record (things_of bytes self.old) {
              queue = model.to_back q self.old.queue.items;
            }) }
    {
        lists::move_back(alloc, &mut self.queue, q)?;
        Ok(())
    }

    /// A process gets one slice more.
    pub fn add_slice(&mut self, q: u8)
        ensures { (bytes : ℕ → List ℕ) →
            things_of bytes self.new ≡ record (things_of bytes self.old) {
              queue = model.add_slice q self.old.queue.items;
            } }
    {
        lists::add_slice(&mut self.queue, q);
    }

    /// The handlers at a point, in their order.
    pub fn handlers_at(&self, alloc: Global, pt: u8) -> Result<Vec<(u8, u8)>, NoMemory>
        ensures { IfOk result (λ list.
            list.items ≡ handlers.handlers_at pt self.now.handlers.items) }
    {
        let mut list = copy(alloc, &self.handlers)?;
        lists::keep_at(&mut list, pt);
        Ok(list)
    }

    /// Whether a handler stands, or another one has room at its point.
    pub fn has_room(&self, q: u8, pt: u8) -> bool
        ensures { result ≡ handlers.has_room q pt self.now.handlers.items }
    {
        lists::has_room(&self.handlers, q, pt)
    }

    /// A handler is put last, where it has room.
    pub fn put_handler(&mut self, q: u8, pt: u8) -> Result<(), NoMemory>
        ensures { OnOk result ((bytes : ℕ → List ℕ) →
            things_of bytes self.new ≡ record (things_of bytes self.old) {
              handlers = handlers.handlers_with q pt self.old.handlers.items;
            }) }
    {
        lists::put_handler(&mut self.handlers, q, pt)?;
        Ok(())
    }

    /// A handler is taken out.
    pub fn remove_handler(&mut self, q: u8, pt: u8)
        ensures { (bytes : ℕ → List ℕ) →
            things_of bytes self.new ≡ record (things_of bytes self.old) {
              handlers = handlers.handlers_without q pt self.old.handlers.items;
            } }
    {
        lists::remove_handler(&mut self.handlers, q, pt);
    }

    /// A process leaves: its cells are 0, its files closed, its locks free, it isn't in the queue,
    /// its handlers are gone, and its frames are process 0's.
    pub fn leave(&mut self, p: u8)
        ensures { (bytes : ℕ → List ℕ) →
            things_of bytes self.new ≡ model.things_without p (things_of bytes self.old) }
    {
        clear(&mut self.cells, u32::from(p));
        clear(&mut self.files, u32::from(p));
        lists::take_out(&mut self.queue, p);
        lists::hand_over(&mut self.frames, p, 0);
        lists::free_locks(&mut self.locks, p);
        lists::remove_handlers(&mut self.handlers, p);
    }
}
