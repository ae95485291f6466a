//! Frames, and the order of their use. The bytes of a frame stand elsewhere, so a clause says what
//! becomes of a cache whose frames hold any bytes, and where a frame gets bytes, of any that it may
//! get.

ghost use Rattle.std.specs.Prelude.{◌≡◌, ℕ, List, OnOk, option_map};
ghost use Rattle.kernel_model.specs.Objects.{at};
ghost use Rattle.kernel_model.specs.Fetch as model;
ghost use Rattle.audit_state.specs.Things.{things_of, value_of};
ghost use Rattle.audit_state.specs.Rows.{dirtied};

use crate::lists::{exchange, make_newest};
use crate::{Frame, Things};
use audit_table::put_one;
use kernel_model::NoMemory;

impl Things {
    /// A frame becomes the newest.
    pub fn use_frame(&mut self, f: u32) -> Result<(), NoMemory>
        ensures { OnOk result ((bytes : ℕ → List ℕ) →
            things_of bytes self.new ≡ record (things_of bytes self.old) {
              cache = model.used f (things_of bytes self.old).cache;
            }) }
    {
        make_newest(&mut self.lru, f)?;
        Ok(())
    }

    /// A frame gets a block that was just read, whose bytes are these, and is the newest.
    pub fn fill(&mut self, f: u32, owner: u8, block: u32) -> Result<(), NoMemory>
        ensures { OnOk result ((bytes : ℕ → List ℕ) (read : List ℕ) →
            things_of (at f read bytes) self.new ≡ record (things_of bytes self.old) {
              cache = model.filled f (model.new_frame owner block read)
                  (things_of bytes self.old).cache;
            }) }
    {
        let frame = Frame {
            owner,
            block,
            dirty: false,
            mark: 0,
        };
        put_one(&mut self.frames, f, Some(frame))?;
        make_newest(&mut self.lru, f)?;
        Ok(())
    }

    /// Two frames change places in the order of use.
    fn exchange(&mut self, f: u32, g: u32)
        ensures { (bytes : ℕ → List ℕ) →
            things_of bytes self.new ≡ record (things_of bytes self.old) {
              cache = record ((things_of bytes self.old).cache) {
                lru = model.swapped f g (things_of bytes self.old).cache.lru;
              };
            } }
    {
        exchange(&mut self.lru, f, g);
    }

    /// A frame gets a block that was just read in place of what it held, once it changed places
    /// with the candidate.
    pub fn replace(&mut self, f: u32, candidate: u32, owner: u8, block: u32) -> Result<(), NoMemory>
        ensures { OnOk result ((bytes : ℕ → List ℕ) (read : List ℕ) →
            things_of (at f read bytes) self.new ≡ record (things_of bytes self.old) {
              cache = model.replaced f candidate (model.new_frame owner block read)
                  (things_of bytes self.old).cache;
            }) }
    {
        self.exchange(f, candidate);
        self.fill(f, owner, block)?;
        Ok(())
    }

    /// A frame that holds this was written to the disk, and is clean.
    pub fn clean(&mut self, f: u32, value: Frame) -> Result<(), NoMemory>
        ensures { OnOk result ((bytes : ℕ → List ℕ) →
            things_of bytes self.new ≡ record (things_of bytes self.old) {
              cache = model.cleaned f (value_of (bytes f) value) (things_of bytes self.old).cache;
            }) }
    {
        let clean = Frame {
            dirty: false,
            ..value
        };
        put_one(&mut self.frames, f, Some(clean))?;
        Ok(())
    }

    /// Bytes were put into a frame, which is dirty.
    pub fn patch(&mut self, f: u32) -> Result<(), NoMemory>
        ensures { OnOk result ((bytes : ℕ → List ℕ) (offset : ℕ) (patch : List ℕ) →
            things_of (at f (model.bytes_with offset patch (bytes f)) bytes) self.new
            ≡ record (things_of bytes self.old) {
              cache = model.with_patch f offset patch (things_of bytes self.old).cache;
            }) }
    {
        let frame = with_patch(self.frame(f));
        put_one(&mut self.frames, f, frame)?;
        Ok(())
    }
}

/// A frame that is dirty.
fn with_patch(frame: Option<Frame>) -> Option<Frame>
    ensures { result ≡ option_map dirtied frame }
{
    frame.map(|f| Frame { dirty: true, ..f })
}
