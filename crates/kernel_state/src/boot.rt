//! A store after boot.

ghost use Rattle.std.specs.Prelude.{◌≡◌, None, replicate};
ghost use Rattle.kernel_model.specs.Opening.{opening_objects, opening_policy};
ghost use Rattle.graft_points.specs.Shelf.{IsShelf, pol_of, first_choice};
ghost use Rattle.kernel_state.specs.Stores.{world_of_store, objects_of, views_of};
ghost use Rattle.kernel_state.specs.Sound.{world_for, CanBoot};

use crate::{Setup, Store};
use buffer_cache::Cache;
use graft_accounts::Accounts;
use graft_points::{Choice, Policy, Shelf};
use mem_disk::Directory;
use process_table::Procs;
use ram_space::{Ram, Segments};

impl<B: Policy> Store<B> {
    /// The store after boot, on a disk of 1 to 4,096 blocks with this directory: process 0 lives
    /// alone and has the whole grant, and nothing is open, held, installed, kept or in a frame. The
    /// shelf has the stock policies.
    pub fn new(
        setup: Setup,
        size: u32,
        dir: Directory,
        ram: Ram,
        kept: Segments,
        shelf: Shelf<B>,
    ) -> Store<B>
        requires boot { CanBoot setup size dir }
        requires room { kept ≡ replicate 256 None }
        requires shelf { IsShelf shelf }
        requires stock { pol_of shelf first_choice ≡ opening_policy }
        ensures objects { objects_of result ≡ opening_objects setup.grant }
        ensures world { world_of_store result ≡ world_for setup size dir }
        ensures views { views_of result ≡ shelf }
        ensures set { result.setup ≡ setup }
        ensures memory { result.ram ≡ ram }
    {
        Store {
            setup,
            size,
            procs: Procs::new(),
            accounts: Accounts::new(setup.grant),
            cache: Cache::new(setup.frames),
            ram,
            kept,
            dir,
            choice: Choice::new(),
            shelf,
        }
    }

    /// Makes it the store after boot again, with another set-up, disk and directory. The memory
    /// stays as it is, and so do the policies, which have the parameters of boot.
    pub fn restart(&mut self, setup: Setup, size: u32, dir: Directory)
        requires boot { CanBoot setup size dir }
        requires stock { pol_of (views_of self.old) first_choice ≡ opening_policy }
        ensures objects { objects_of self.new ≡ opening_objects setup.grant }
        ensures world { world_of_store self.new ≡ world_for setup size dir }
        ensures views { views_of self.new ≡ views_of self.old }
        ensures set { self.new.setup ≡ setup }
        ensures memory { self.new.ram ≡ self.old.ram }
    {
        self.setup = setup;
        self.size = size;
        self.procs = Procs::new();
        self.accounts = Accounts::new(setup.grant);
        self.cache = Cache::new(setup.frames);
        self.kept.clear();
        self.dir = dir;
        self.choice = Choice::new();
    }
}
