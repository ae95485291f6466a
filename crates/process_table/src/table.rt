//! `Procs`.

ghost use Rattle.std.specs.Prelude.{◌≡◌, ◌+◌, ◌*◌, ◌<◌, ◌≤◌, ℕ, true, length, IfSome, IfNone, IsTrue};
ghost use Rattle.kernel_model.specs.Queue.{IsLeastFree};
ghost use Rattle.kernel_model.specs.Policies.{lives};
ghost use Rattle.kernel_model.specs.Needs.{free_process};
ghost use Rattle.kernel_model.specs.Pieces.{to_back as queue_to_back, add_slice as queue_with_slice};
ghost use Rattle.kernel_model.specs.Access.{with_nice};
ghost use Rattle.kernel_model.specs.Handlers.{has_room, handlers_with, handlers_without};
ghost use Rattle.kernel_model.specs.Objects.{at, at2};
ghost use Rattle.kernel_model.specs.FilePieces.{read_on, with_ahead};
ghost use Rattle.std.specs.Prelude.{option_map};

use crate::arrays::{
    EACH, HANDLERS, LOCKS, NUMBERS, clear_cells, close_files, closed_files, fits, free_holders,
    free_locks, put_last, remove_handler, remove_handlers, row_read_on, row_with_ahead, zero_cells,
};
use crate::queue::Queue;
use arrayvec::ArrayVec;
use kernel_model::{OpenRow, QueueRow};
use std::marker::Model;

/// The living processes, with their cells, open files, user locks and handlers.
///
/// Contracts see the arrays, through `processes_of`: what the kernel's state has of its processes.
#[derive(Drop)]
pub struct Procs {
    queue: Queue,
    cells: [u32; NUMBERS],
    files: [Option<OpenRow>; NUMBERS],
    holders: [Option<u8>; LOCKS],
    handlers: ArrayVec<(u8, u8), HANDLERS>,
}

impl Model for Procs {
    ghost use Rattle.process_table.specs.Processes.{Table, IsTable};

    ghost Value = { Table };

    ghost view = { λ p. record {
      queue = p.queue;
      cells = p.cells;
      files = p.files;
      holders = p.holders;
      handlers = p.handlers.items;
    } };

    ghost invariant = { λ p. IsTable (record {
      queue = p.queue;
      cells = p.cells;
      files = p.files;
      holders = p.holders;
      handlers = p.handlers.items;
    }) };
}

/// The place of number k of process p in an array with four numbers for each process.
fn place(p: u8, k: u8) -> usize
    ensures { result ≡ 4 * p + k }
{
    EACH * p as usize + k as usize
}

impl Procs {
    ghost use Rattle.process_table.specs.Processes.{processes_of, opening, spawned, without, IsSound};

    /// Process 0 lives alone, with nice 20 and slices 0. All cells are 0, no file is open, no lock
    /// is held and there is no handler.
    pub fn new() -> Procs
        ensures { processes_of result ≡ opening }
    {
        Procs {
            queue: Queue::new(),
            cells: zero_cells(),
            files: closed_files(),
            holders: free_holders(),
            handlers: ArrayVec::new(),
        }
    }

    /// Whether process p lives.
    pub fn living(&self, p: u32) -> bool
        ensures value { result ≡ lives self.now.queue p }
        ensures number { result ≡ true → p < 16 }
    {
        self.queue.has(p)
    }

    /// The least number that isn't living. None where 16 processes live.
    pub fn free(&self) -> Option<u8>
        ensures { result ≡ free_process self.now.queue 16 0 }
    {
        self.queue.least_free()
    }

    /// The least number that isn't living joins at the back, with nice 20 and slices 0. None, with
    /// nothing changed, exactly where 16 processes live.
    pub fn spawn(&mut self) -> Option<u8>
        ensures number { result ≡ free_process self.old.queue 16 0 }
        ensures least { IfSome result (λ c. IsLeastFree self.old.queue c) }
        ensures full { IfNone result ((q : ℕ) → q < 16 → lives self.old.queue q ≡ true) }
        ensures value { processes_of self.new ≡ spawned result (processes_of self.old) }
    {
        let process = self.queue.least_free()?;
        self.queue.join(process);
        Some(process)
    }

    /// Process p leaves: its cells become 0, its files close, its locks are freed, its handlers go.
    pub fn leave(&mut self, p: u8)
        requires lives { IsTrue (lives self.old.queue p) }
        requires not_root { 0 < p }
        ensures { processes_of self.new ≡ without p (processes_of self.old) }
    {
        self.queue.take_out(p);
        clear_cells(&mut self.cells, p);
        close_files(&mut self.files, p);
        free_locks(&mut self.holders, p);
        remove_handlers(&mut self.handlers, p);
    }

    /// Process p goes to the back of the queue.
    pub fn to_back(&mut self, p: u8)
        requires { IsTrue (lives self.old.queue p) }
        ensures { processes_of self.new
            ≡ record (processes_of self.old) { queue = queue_to_back p self.old.queue } }
    {
        self.queue.move_back(p);
    }

    /// The rows of the living processes, front first.
    pub fn rows(&self) -> &[QueueRow]
        ensures value { result.now ≡ self.now.queue }
        ensures few { length result.now ≤ 16 }
        ensures sound { IsSound (processes_of self.now) }
    {
        self.queue.rows()
    }

    /// Gives process p another nice, 0 to 39.
    pub fn set_nice(&mut self, p: u8, v: u8)
        requires lives { IsTrue (lives self.old.queue p) }
        requires range { v ≤ 39 }
        ensures { processes_of self.new
            ≡ record (processes_of self.old) { queue = with_nice p v self.old.queue } }
    {
        self.queue.change_nice(p, v);
    }

    /// Raises the slices of process p by one, up to 4,294,967,295.
    pub fn add_slice(&mut self, p: u8)
        requires lives { IsTrue (lives self.old.queue p) }
        ensures { processes_of self.new
            ≡ record (processes_of self.old) { queue = queue_with_slice p self.old.queue } }
    {
        self.queue.raise_slices(p);
    }

    /// Cell k of process p.
    pub fn cell(&self, p: u8, k: u8) -> u32
        requires process { p < 16 }
        requires number { k < 4 }
        ensures { result ≡ (processes_of self.now).cell p k }
    {
        self.cells[place(p, k)]
    }

    /// Changes cell k of process p.
    pub fn set_cell(&mut self, p: u8, k: u8, v: u32)
        requires lives { IsTrue (lives self.old.queue p) }
        requires number { k < 4 }
        ensures { processes_of self.new
            ≡ record (processes_of self.old) { cell = at2 p k v (processes_of self.old).cell } }
    {
        self.cells[place(p, k)] = v;
    }

    /// The file that is open at descriptor fd of process p.
    pub fn file(&self, p: u8, fd: u8) -> Option<OpenRow>
        requires process { p < 16 }
        requires number { fd < 4 }
        ensures { result ≡ (processes_of self.now).file p fd }
    {
        self.files[place(p, fd)]
    }

    /// Opens, changes or closes the file at descriptor fd of process p.
    pub fn put_file(&mut self, p: u8, fd: u8, row: Option<OpenRow>)
        requires process { p < 16 }
        requires number { fd < 4 }
        requires lives { IfSome row (λ _. lives self.old.queue p ≡ true) }
        ensures { processes_of self.new
            ≡ record (processes_of self.old) { file = at2 p fd row (processes_of self.old).file } }
    {
        self.files[place(p, fd)] = row;
    }

    /// The file that is open at descriptor fd of process p was read at block i. Nothing changes
    /// where no file is open.
    pub fn read_on(&mut self, p: u8, fd: u8, i: u32)
        requires process { p < 16 }
        requires number { fd < 4 }
        requires range { i < 4294967295 }
        ensures { processes_of self.new ≡ record (processes_of self.old) {
          file = at2 p fd (option_map (read_on i) ((processes_of self.old).file p fd))
              (processes_of self.old).file;
        } }
    {
        row_read_on(&mut self.files[place(p, fd)], i);
    }

    /// Changes what is to be read ahead of the file that is open at descriptor fd of process p.
    /// Nothing changes where no file is open.
    pub fn set_ahead(&mut self, p: u8, fd: u8, start: u32, count: u8)
        requires process { p < 16 }
        requires number { fd < 4 }
        ensures { processes_of self.new ≡ record (processes_of self.old) {
          file = at2 p fd (option_map (with_ahead start count)
              ((processes_of self.old).file p fd)) (processes_of self.old).file;
        } }
    {
        row_with_ahead(&mut self.files[place(p, fd)], start, count);
    }

    /// The process that holds user lock u.
    pub fn holder(&self, u: u8) -> Option<u8>
        requires { u < 16 }
        ensures { result ≡ (processes_of self.now).lock u }
    {
        self.holders[u as usize]
    }

    /// Gives user lock u to a process, or frees it.
    pub fn set_holder(&mut self, u: u8, p: Option<u8>)
        requires number { u < 16 }
        requires lives { IfSome p (λ q. lives self.old.queue q ≡ true) }
        ensures { processes_of self.new
            ≡ record (processes_of self.old) { lock = at u p (processes_of self.old).lock } }
    {
        self.holders[u as usize] = p;
    }

    /// The handlers, each a process and a point, in the order in which they were put last.
    pub fn handlers(&self) -> &[(u8, u8)]
        ensures value { result.now ≡ self.now.handlers }
        ensures few { length result.now ≤ 64 }
    {
        self.handlers.as_slice()
    }

    /// Puts the handler of process q at point pt last, taking it out first where it stood. False,
    /// with nothing changed, exactly where it doesn't stand and 8 others stand at the point.
    pub fn add_handler(&mut self, q: u8, pt: u8) -> bool
        requires process { q < 16 }
        requires first { 6 ≤ pt }
        requires last { pt ≤ 13 }
        ensures answer { result ≡ has_room q pt self.old.handlers }
        ensures value { processes_of self.new
            ≡ record (processes_of self.old) { handlers = handlers_with q pt self.old.handlers } }
    {
        if !fits(self.handlers.as_slice(), q, pt) {
            return false;
        }
        put_last(&mut self.handlers, q, pt);
        true
    }

    /// Takes out the handler of process q at point pt. Nothing changes where it doesn't stand.
    pub fn drop_handler(&mut self, q: u8, pt: u8)
        ensures { processes_of self.new
            ≡ record (processes_of self.old)
            { handlers = handlers_without q pt self.old.handlers } }
    {
        remove_handler(&mut self.handlers, q, pt);
    }
}
