//! The queue and the cells of a store.

ghost use Rattle.std.specs.Prelude.{◌≡◌, ℕ, ◌<◌, ◌≤◌, ◌==◌, ◌&&◌, not, true, Some, None, IfSome};
ghost use Rattle.kernel_model.specs.Needs.{free_process};
ghost use Rattle.kernel_data.specs.Queue.{queue_without};
ghost use Rattle.kernel_data.specs.Policies.{lives, next_process};
ghost use Rattle.kernel_model.specs.Pieces.{with_queue, to_back as queue_to_back};
ghost use Rattle.kernel_model.specs.Pieces.{add_slice as queue_with_slice, with_holder};
ghost use Rattle.kernel_model.specs.Pieces.{things_without, account_closed, without_grafts};
ghost use Rattle.kernel_data.specs.Objects.{with_things};
ghost use Rattle.kernel_model.specs.Handlers.{has_room, handlers_with, handlers_without};
ghost use Rattle.kernel_model.specs.EventPoints.{with_handlers};
ghost use Rattle.kernel_model.specs.Access.{set_cell as cell_set};
ghost use Rattle.kernel_state.specs.Changes.{Changes};
ghost use Rattle.kernel_state.specs.Places.{HasCell};
ghost use Rattle.kernel_state.specs.Stores.{world_of_store, objects_of, queue_of, queue_joined, policies_of};

use crate::Store;
use graft_points::Policy;

impl<B: Policy> Store<B> {
    /// Whether process p lives.
    pub fn living(&self, p: u32) -> bool
        ensures value { result ≡ lives (queue_of self.now) p }
        ensures number { result ≡ true → p < 16 }
    {
        self.procs.living(p)
    }

    /// The least number that isn't living. None where 16 processes live.
    pub fn free_process(&self) -> Option<u8>
        ensures { result ≡ free_process (queue_of self.now) 16 0 }
    {
        self.procs.free()
    }

    /// The least number that isn't living joins at the back. None, with nothing changed, where 16
    /// processes live.
    pub fn spawn(&mut self) -> Option<u8>
        ensures number { result ≡ free_process (queue_of self.old) 16 0 }
        ensures objects { objects_of self.new ≡
            with_queue (queue_joined result (queue_of self.old)) (objects_of self.old) }
        ensures living { (q : ℕ) → lives (queue_of self.old) q ≡ true →
            lives (queue_of self.new) q ≡ true }
        ensures world { world_of_store self.new ≡ world_of_store self.old }
        ensures memory { self.new.ram ≡ self.old.ram }
    {
        self.procs.spawn()
    }

    /// Process p goes to the back of the queue.
    pub fn to_back(&mut self, p: u8)
        requires lives { lives (queue_of self.old) p ≡ true }
        ensures { Changes (λ s. with_queue (queue_to_back p s.things.queue) s) self.old self.new }
    {
        self.procs.to_back(p);
    }

    /// Process p leaves, which isn't 0: its cells become 0, its files close, its locks are freed,
    /// its frames are process 0's, its grafts go, and process 0 gets all that it has and has spent.
    pub fn leave(&mut self, p: u8)
        requires lives { lives (queue_of self.old) p ≡ true }
        requires not_root { 0 < p }
        ensures objects { let s = objects_of self.old in
            objects_of self.new ≡
            record {
              accounts = account_closed p (without_grafts p 16 s.accounts);
              things = things_without p s.things;
            } }
        ensures living { (q : ℕ) →
            lives (queue_of self.new) q ≡ (lives (queue_of self.old) q && not (q == p)) }
        ensures queue { queue_of self.new ≡ queue_without p (queue_of self.old) }
        ensures world { world_of_store self.new ≡ world_of_store self.old }
        ensures memory { self.new.ram ≡ self.old.ram }
    {
        self.procs.rows();
        self.procs.leave(p);
        self.cache.hand_over(p, 0);
        self.accounts.close(p);
    }

    /// The process that is next by default, as the chosen policy has it.
    pub fn next(&self) -> u8
        ensures value { next_process (policies_of self.now 2) (queue_of self.now) ≡ Some result }
        ensures lives { lives (queue_of self.now) result ≡ true }
    {
        if self.choice.of(2) == 0 {
            return self.front();
        }
        self.shelf.next(&self.choice, self.procs.rows())
    }

    /// The same where the chosen policy goes by the queue alone, so that it needn't be asked.
    fn front(&self) -> u8
        requires { (policies_of self.now 2).chosen ≡ 0 }
        ensures value { next_process (policies_of self.now 2) (queue_of self.now) ≡ Some result }
        ensures lives { lives (queue_of self.now) result ≡ true }
    {
        self.procs.rows()[0].process
    }

    /// Raises the slices of process p by one, up to the end of their count.
    pub fn add_slice(&mut self, p: u8)
        requires lives { lives (queue_of self.old) p ≡ true }
        ensures { Changes (λ s. with_queue (queue_with_slice p s.things.queue) s)
            self.old self.new }
    {
        self.procs.add_slice(p);
    }

    /// Cell k of process p, which lives.
    pub fn cell(&self, p: u8, k: u8) -> u32
        requires { HasCell (queue_of self.now) p k }
        ensures { result ≡ (objects_of self.now).things.cell p k }
    {
        self.procs.rows();
        self.procs.cell(p, k)
    }

    /// Changes cell k of process p, which lives.
    pub fn set_cell(&mut self, p: u8, k: u8, v: u32)
        requires { HasCell (queue_of self.old) p k }
        ensures { Changes (λ s. with_things (cell_set p k v s.things) s) self.old self.new }
    {
        self.procs.set_cell(p, k, v);
    }

    /// The process that holds user lock u.
    pub fn holder(&self, u: u8) -> Option<u8>
        requires { u < 16 }
        ensures { result ≡ (objects_of self.now).things.lock u }
    {
        self.procs.holder(u)
    }

    /// Gives user lock u to a process that lives, or frees it.
    pub fn set_holder(&mut self, u: u8, holder: Option<u8>)
        requires number { u < 16 }
        requires lives { IfSome holder (λ q. lives (queue_of self.old) q ≡ true) }
        ensures { Changes (with_holder u holder) self.old self.new }
    {
        self.procs.set_holder(u, holder);
    }

    /// Puts the handler of process p at point pt last, taking it out first where it stood. False,
    /// with nothing changed, exactly where it doesn't stand and 8 others stand at the point.
    pub fn add_handler(&mut self, p: u8, pt: u8) -> bool
        requires process { p < 16 }
        requires first { 6 ≤ pt }
        requires last { pt ≤ 13 }
        ensures answer { result ≡ has_room p pt (objects_of self.old).things.handlers }
        ensures changed { Changes (λ s. with_handlers (handlers_with p pt s.things.handlers) s)
            self.old self.new }
    {
        self.procs.add_handler(p, pt)
    }

    /// Takes out the handler of process p at point pt. Nothing changes where it doesn't stand.
    pub fn drop_handler(&mut self, p: u8, pt: u8)
        ensures { Changes (λ s. with_handlers (handlers_without p pt s.things.handlers) s)
            self.old self.new }
    {
        self.procs.drop_handler(p, pt);
    }
}
