//! The kernel's state as one store: set-up, processes, accounts, cache, memory, kept segments,
//! policies and the disk's directory.
//!
//! Contracts see a store as the objects and the world of the definitions, and each change of it as
//! a change of objects.
#![tactic(auto)]

ghost use Rattle.std.specs.Prelude.{◌≡◌, length};
ghost use Rattle.kernel_state.specs.Sound.{StoreFits, world_for, things_with};
ghost use Rattle.process_table.specs.Processes.{processes_of};
ghost use Rattle.graft_points.specs.Shelf.{IsShelf, pol_of};
ghost use Rattle.kernel_state.specs.CacheViews.{cache_value};

mod accounts;
mod boot;
mod cache;
mod files;
mod graft_values;
mod kept;
mod policies;
mod processes;
mod shown;

use buffer_cache::Cache;
pub use graft_accounts::{Accounts, GraftPoint, GraftRow};
use graft_points::Choice;
pub use graft_points::{Policy, Shelf, valid_ahead};
pub use kept::segment_number;
pub use mem_disk::{Directory, DiskLog, read_directory};
use process_table::Procs;
pub use ram_space::{RAM_BYTES, Ram, Segments};
pub use vino_base::{Disk, Failed};

/// What the set-up lines of a script set.
#[derive(Clone, Copy)]
pub struct Setup {
    /// How many frames the cache has, 2 to 64.
    pub frames: u8,
    /// How many ticks a call waits for an object of each kind, 1 to 1,000.
    pub patience: [u32; 8],
    /// What process 0 has of each kind of amount at first.
    pub grant: u32,
}

/// The kernel's state, but for the clock and the calls in flight: one value for each object.
#[derive(Drop)]
pub struct Store<B: Policy> {
    /// What the set-up lines set.
    pub setup: Setup,
    /// How many blocks the disk has.
    pub size: u32,
    /// The processes.
    pub procs: Procs,
    /// What processes have and have spent, and the grafts.
    pub accounts: Accounts,
    /// What each frame holds, and the order of use.
    pub cache: Cache,
    /// The bytes of the frames, from 0 on.
    pub ram: Ram,
    /// What is kept for the graft at each point of each process.
    pub kept: Segments,
    /// The files of the disk.
    pub dir: Directory,
    /// Which policy of each kind is chosen.
    pub choice: Choice,
    /// The policies, in the order of their codes, with their parameters.
    pub shelf: Shelf<B>,
    ghost fits: { StoreFits cache.count (world_for setup size dir)
        (things_with (processes_of procs) (cache_value cache ram) (pol_of shelf choice) kept) },
    ghost stock: { IsShelf shelf },
    ghost room: { length kept ≡ 256 },
}

/// What a process is to read ahead: this many blocks of its file, from a block on.
#[derive(Clone, Copy)]
pub struct Ahead {
    pub start: u32,
    pub count: u8,
}
