//! `Queue`: the living processes, in their order.

ghost use Rattle.std.specs.Prelude.{◌≡◌, ◌<◌, ◌≤◌, ℕ, true, false, IfSome, IfNone, IsTrue};
ghost use Rattle.std.specs.Prelude.{length, [], ◌∷◌, ◌++◌};
ghost use Rattle.kernel_model.specs.Queue.{IsLeastFree, new_row, queue_without};
ghost use Rattle.kernel_model.specs.Policies.{lives};
ghost use Rattle.kernel_model.specs.Needs.{free_process};
ghost use Rattle.kernel_model.specs.Pieces.{to_back as queue_to_back, add_slice as queue_with_slice};
ghost use Rattle.kernel_model.specs.Access.{with_nice};

use crate::arrays::{
    change_nice, first_queue, join, least_free, move_back, nobody, put_flag, raise_slices, take_out,
};
use arrayvec::ArrayVec;
use kernel_model::{PROCESSES, QueueRow};
use std::marker::Model;

/// The rows of the living processes, front first. Contracts see their list.
///
/// Beside them stands a flag for each number, so that a look whether a process lives goes over no
/// rows.
#[derive(Drop)]
pub(crate) struct Queue {
    rows: ArrayVec<QueueRow, PROCESSES>,
    /// Whether the process of each number lives.
    alive: [bool; PROCESSES],
}

impl Model for Queue {
    ghost use Rattle.std.specs.Prelude.{List};
    ghost use Rattle.kernel_model.specs.declared.QueueRow.{QueueRow};
    ghost use Rattle.process_table.specs.Processes.{AreFlags};

    ghost Value = { List QueueRow };

    ghost view = { λ q. q.rows.items };

    ghost invariant = { λ q. AreFlags q.alive q.rows.items };
}

impl Queue {
    /// Process 0 alone.
    pub(crate) fn new() -> Queue
        ensures { result ≡ new_row 0 ∷ [] }
    {
        let mut alive = nobody();
        put_flag(&mut alive, 0, true);
        Queue {
            rows: first_queue(),
            alive,
        }
    }

    /// The rows, front first.
    pub(crate) fn rows(&self) -> &[QueueRow]
        ensures value { result.now ≡ self.now }
        ensures few { length result.now ≤ 16 }
    {
        self.rows.as_slice()
    }

    /// Whether process p lives.
    pub(crate) fn has(&self, p: u32) -> bool
        ensures value { result ≡ lives self.now p }
        ensures number { result ≡ true → p < 16 }
    {
        match self.alive.get(p as usize) {
            Some(lives) => *lives,
            None => false,
        }
    }

    /// The least number that isn't living.
    pub(crate) fn least_free(&self) -> Option<u8>
        ensures number { result ≡ free_process self.now 16 0 }
        ensures least { IfSome result (λ c. IsLeastFree self.now c) }
        ensures full { IfNone result ((q : ℕ) → q < 16 → lives self.now q ≡ true) }
    {
        least_free(self.rows.as_slice())
    }

    /// A process joins at the back.
    pub(crate) fn join(&mut self, process: u8)
        requires number { process < 16 }
        requires room { length self.old < 16 }
        ensures { self.new ≡ self.old ++ new_row process ∷ [] }
    {
        join(&mut self.rows, process);
        put_flag(&mut self.alive, process, true);
    }

    /// Takes out process p, which lives.
    pub(crate) fn take_out(&mut self, p: u8)
        requires { IsTrue (lives self.old p) }
        ensures { self.new ≡ queue_without p self.old }
    {
        take_out(&mut self.rows, p);
        put_flag(&mut self.alive, p, false);
    }

    /// Process p goes behind all others.
    pub(crate) fn move_back(&mut self, p: u8)
        ensures { self.new ≡ queue_to_back p self.old }
    {
        move_back(&mut self.rows, p);
    }

    /// Gives process p another nice.
    pub(crate) fn change_nice(&mut self, p: u8, v: u8)
        ensures { self.new ≡ with_nice p v self.old }
    {
        change_nice(&mut self.rows, p, v);
    }

    /// Gives process p one slice more.
    pub(crate) fn raise_slices(&mut self, p: u8)
        ensures { self.new ≡ queue_with_slice p self.old }
    {
        raise_slices(&mut self.rows, p);
    }
}
