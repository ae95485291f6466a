//! Where a process's call stands while it is in flight.

ghost use Rattle.std.specs.Prelude.{◌≡◌, None, is_some, option_copied};

use crate::running::InFlight;
use call_pieces::Work;
use std::marker::Model;

/// A place for a call in flight, which contracts see as the call, if it has one. A call begins and
/// ends where it stands: none is moved.
#[derive(Drop)]
pub struct Slot {
    /// Whether a call stands here.
    pub taken: bool,
    /// The call, if one does, and else what will be written over.
    pub call: InFlight,
}

impl Model for Slot {
    ghost use Rattle.std.specs.Prelude.{Option, Some, None, cond};
    ghost use Rattle.running_kernel.specs.declared.running.InFlight.{InFlight as Flying};

    ghost Value = { Option Flying };

    ghost view = { λ s. cond s.taken (Some s.call) None };
}

impl Slot {
    /// A place without a call, in which some work stands that will be written over.
    pub(crate) fn empty() -> Slot
        ensures { result ≡ None }
    {
        Slot {
            taken: false,
            call: InFlight {
                number: 0,
                work: Work::new(),
            },
        }
    }

    /// The call that stands here, if one does.
    pub fn get(&self) -> Option<&InFlight>
        ensures { option_copied result ≡ self.now }
    {
        if self.taken { Some(&self.call) } else { None }
    }

    /// Whether a call stands here.
    pub fn is_taken(&self) -> bool
        ensures { result ≡ is_some self.now }
    {
        self.taken
    }

    /// The call has ended.
    pub fn end(&mut self)
        ensures { self.new ≡ None }
    {
        self.taken = false;
    }
}
