//! What a run is asked and told from outside: boot, events, images, the rows of its state.

ghost use Rattle.std.specs.Prelude.{◌≡◌, ◌<◌, [], IfOk, OnOk, is_some};
ghost use Rattle.kernel_model.specs.AllCalls.{all_calls};
ghost use Rattle.kernel_model.specs.Bare.{event_with};
ghost use Rattle.kernel_model.specs.Blocking.{number_of_call};
ghost use Rattle.kernel_model.specs.Directory.{sample_block};
ghost use Rattle.kernel_model.specs.Events as events;
ghost use Rattle.kernel_model.specs.ImageLines as images;
ghost use Rattle.kernel_model.specs.Opening.{opening_kernel};
ghost use Rattle.kernel_model.specs.RawRows as rows;
ghost use Rattle.audit_state.specs.Worlds.{world_of};
ghost use Rattle.audit_pieces.specs.Stores.{blocks_of};
ghost use Rattle.audit_kernel.specs.Runs.{kernel_of, run_of, AreKept};

use crate::flights::run_all_again;
use crate::opening::{first_store, free_places};
use crate::{Run, Setting};
use audit_state::World;
use graft_loader::{Images, Loaded};
use kernel_model::{BareEvent, NoMemory, RawRow};
use std::alloc::Global;

impl Run {
    /// The run that has just booted in a world, over the sample disk: no image is loaded, no call is
    /// in flight, and there is no note.
    pub fn boot(alloc: Global, world: World) -> Result<Run, NoMemory>
        ensures kernel { IfOk result (λ r. kernel_of r ≡ opening_kernel (world_of world)) }
        ensures blocks { IfOk result (λ r. blocks_of r.store ≡ sample_block) }
        ensures kept { IfOk result AreKept }
    {
        let store = first_store(alloc, u64::from(world.grant))?;
        let images = Images::new(alloc)?;
        let flights = free_places(alloc)?;
        Ok(Run {
            setting: Setting {
                alloc,
                world,
                images,
            },
            store,
            clock: 0,
            flights,
            order: Vec::new(alloc),
            notes: Vec::new(alloc),
        })
    }

    /// An event of this number, whose call has these bytes. The notes are then those of the event,
    /// in order. No call of the disk fails.
    pub fn event(&mut self, number: u32, event: BareEvent, given: &[u8]) -> Result<(), NoMemory>
        requires kept { AreKept self.old }
        ensures run { OnOk result (run_of self.new ≡ events.event all_calls (kernel_of self.old)
            (blocks_of self.old.store) number (event_with event given.now) []) }
        ensures kept { OnOk result (AreKept self.new) }
    {
        self.notes.clear();
        self.any_event(number, event, given)?;
        Ok(())
    }

    /// Whether a slot has an image. None above 31 has one.
    pub fn has_image(&self, slot: u32) -> bool
        ensures { result ≡ is_some ((kernel_of self.now).images slot) }
    {
        self.setting.images.get(slot).is_some()
    }

    /// An image is put into a slot, 0 to 31. All histories are run again, since their grafts may be
    /// of this image.
    pub fn add_image(&mut self, slot: u32, image: Loaded) -> Result<(), NoMemory>
        requires slot { slot < 32 }
        requires kept { AreKept self.old }
        ensures kernel { OnOk result (kernel_of self.new
            ≡ images.add_image slot image (kernel_of self.old)) }
        ensures blocks { OnOk result (blocks_of self.new.store ≡ blocks_of self.old.store) }
        ensures kept { OnOk result (AreKept self.new) }
    {
        self.setting.images.add(slot, image);
        run_all_again(&self.setting, &self.store, &mut self.flights)?;
        Ok(())
    }

    /// The number of the call of a process, if one is in flight.
    pub fn call_number(&self, p: u8) -> Option<u32>
        ensures { result ≡ number_of_call ((kernel_of self.now).call p) }
    {
        match self.flights.get(usize::from(p)) {
            Some(Some(flight)) => Some(flight.number),
            _ => None,
        }
    }

    /// The rows of the whole state, changes in flight included, in the order in which `raw` writes
    /// them.
    pub fn raw_rows(&self) -> Result<Vec<RawRow>, NoMemory>
        requires kept { AreKept self.now }
        ensures { IfOk result (λ found. found.items ≡ rows.raw_rows all_calls (kernel_of self.now)) }
    {
        let mut rows = Vec::new(self.setting.alloc);
        self.add_processes(&mut rows)?;
        self.add_places(&mut rows)?;
        self.add_frames_and_locks(&mut rows)?;
        self.add_flights(&mut rows)?;
        Ok(rows)
    }
}
