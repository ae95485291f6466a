//! One object changed.

ghost use Rattle.std.specs.Prelude.{◌≡◌, ℕ, List, Option, OnOk, option_map};
ghost use Rattle.kernel_model.specs.Objects.{at, at2};
ghost use Rattle.kernel_model.specs.Access as model;
ghost use Rattle.audit_state.specs.Things.{things_of, kept_of};
ghost use Rattle.audit_state.specs.Rows.{marked};

use crate::lists::put_nice;
use crate::{Frame, Kept, Things};
use audit_table::{put, put_one};
use kernel_model::{NoMemory, OpenRow};

/// An open file with this window.
fn with_window(v: u8, file: Option<OpenRow>) -> Option<OpenRow>
    ensures { result ≡ model.with_window v file }
{
    file.map(|row| OpenRow { window: v, ..row })
}

/// A frame with this mark.
fn with_mark(v: u8, frame: Option<Frame>) -> Option<Frame>
    ensures { result ≡ option_map (marked v) frame }
{
    frame.map(|f| Frame { mark: v, ..f })
}

impl Things {
    /// A cell gets a value.
    pub fn set_cell(&mut self, q: u8, k: u32, v: u32) -> Result<(), NoMemory>
        ensures { OnOk result ((bytes : ℕ → List ℕ) →
            things_of bytes self.new ≡ model.set_cell q k v (things_of bytes self.old)) }
    {
        put(&mut self.cells, u32::from(q), k, v)?;
        Ok(())
    }

    /// A descriptor gets an open file, or becomes free.
    pub fn set_file(&mut self, q: u8, fd: u32, file: Option<OpenRow>) -> Result<(), NoMemory>
        ensures { OnOk result ((bytes : ℕ → List ℕ) →
            things_of bytes self.new ≡ record (things_of bytes self.old) {
              file = at2 q fd file (things_of bytes self.old).file;
            }) }
    {
        put(&mut self.files, u32::from(q), fd, file)?;
        Ok(())
    }

    /// A process gets a nice.
    pub fn set_nice(&mut self, q: u8, v: u8)
        ensures { (bytes : ℕ → List ℕ) →
            things_of bytes self.new ≡ model.set_nice q v (things_of bytes self.old) }
    {
        put_nice(&mut self.queue, q, v);
    }

    /// An open file gets a window.
    pub fn set_window(&mut self, q: u8, fd: u32, v: u8) -> Result<(), NoMemory>
        ensures { OnOk result ((bytes : ℕ → List ℕ) →
            things_of bytes self.new ≡ model.set_window q fd v (things_of bytes self.old)) }
    {
        let file = with_window(v, self.file(q, fd));
        self.set_file(q, fd, file)?;
        Ok(())
    }

    /// A frame gets a mark.
    pub fn set_mark(&mut self, f: u32, v: u8) -> Result<(), NoMemory>
        ensures { OnOk result ((bytes : ℕ → List ℕ) →
            things_of bytes self.new ≡ model.set_mark f v (things_of bytes self.old)) }
    {
        let frame = with_mark(v, self.frame(f));
        put_one(&mut self.frames, f, frame)?;
        Ok(())
    }

    /// The parameter of the chosen policy of a kind gets a value.
    pub fn set_param(&mut self, kind: u32, v: u32) -> Result<(), NoMemory>
        ensures { OnOk result ((bytes : ℕ → List ℕ) →
            things_of bytes self.new ≡ model.set_param kind v (things_of bytes self.old)) }
    {
        let policy = u32::from(self.chosen(kind));
        put(&mut self.params, kind, policy, v)?;
        Ok(())
    }

    /// A policy of a kind is chosen. No parameter changes.
    pub fn choose(&mut self, kind: u32, policy: u8) -> Result<(), NoMemory>
        ensures { OnOk result ((bytes : ℕ → List ℕ) →
            things_of bytes self.new ≡ record (things_of bytes self.old) {
              pol = at kind (record ((things_of bytes self.old).pol kind) { chosen = policy })
                  (things_of bytes self.old).pol;
            }) }
    {
        put_one(&mut self.chosen, kind, policy)?;
        Ok(())
    }

    /// A user lock gets a holder, or becomes free.
    pub fn set_holder(&mut self, u: u32, holder: Option<u8>) -> Result<(), NoMemory>
        ensures { OnOk result ((bytes : ℕ → List ℕ) →
            things_of bytes self.new ≡ record (things_of bytes self.old) {
              lock = at u holder (things_of bytes self.old).lock;
            }) }
    {
        put_one(&mut self.locks, u, holder)?;
        Ok(())
    }

    /// These bytes are kept for the graft at a point, or none.
    pub fn set_kept(&mut self, q: u8, pt: u8, kept: Option<Kept>) -> Result<(), NoMemory>
        ensures { OnOk result ((bytes : ℕ → List ℕ) → things_of bytes self.new
            ≡ model.set_segment q pt (option_map kept_of kept) (things_of bytes self.old)) }
    {
        put(&mut self.segments, u32::from(q), u32::from(pt), kept)?;
        Ok(())
    }
}
