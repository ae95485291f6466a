//! The store in place: each object as the call sees it that holds it exclusively, and the others as
//! they are committed.

ghost use Rattle.std.specs.Prelude.{◌≡◌, ℕ, List, option_map, option_copied};
ghost use Rattle.kernel_data.specs.Objects.{SameThing};
ghost use Rattle.kernel_data.specs.World.{processes};
ghost use Rattle.kernel_model.specs.AllCalls.{all_calls};
ghost use Rattle.kernel_model.specs.Blocking as blocking;
ghost use Rattle.kernel_model.specs.InPlace.{in_place, is_changed_in};
ghost use Rattle.kernel_model.specs.Locks as locks;
ghost use Rattle.audit_levels.specs.Levels.{config_of, levels_of};
ghost use Rattle.audit_pieces.specs.Stores.{page_of};
ghost use Rattle.audit_replay.specs.Traces.{trace_of};
ghost use Rattle.audit_state.specs.Accounts.{accounts_of};
ghost use Rattle.audit_state.specs.Things.{things_of};
ghost use Rattle.audit_kernel.specs.Runs.{kernel_of, AreKept};
ghost use Rattle.audit_kernel.specs.Sights.{changing, first_changing, SameAmounts};

use crate::Run;
use audit_levels::{Config, Level, hold_of};
use audit_replay::Trace;
use audit_state::{Accounts, Things};
use kernel_model::{Held, Object};

/// Whether a hold is exclusive.
fn is_exclusive(held: Held) -> bool
    ensures { result ≡ locks.is_held_exclusively held }
{
    match held {
        Held::Free | Held::Shared => false,
        Held::Exclusive => true,
    }
}

/// Whether one of these levels holds an object exclusively.
fn is_changed(levels: &[Level], object: Object) -> bool
    ensures { (bytes : ℕ → List ℕ) → result
        ≡ is_changed_in (levels_of bytes levels.now) object }
{
    match levels {
        [] => false,
        [l, rest @ ..] => is_exclusive(hold_of(&l.touched, object)) || is_changed(rest, object),
    }
}

/// The graft call of a trace, where it holds an object exclusively.
fn changing(trace: Option<&Trace>, object: Object) -> Option<&Config>
    ensures { (bytes : ℕ → List ℕ) → option_map (config_of bytes) (option_copied result)
        ≡ changing object (blocking.config_in
        (option_map (trace_of bytes) (option_copied trace.entry))) }
{
    match trace {
        None => None,
        Some(trace) => {
            if is_changed(trace.config.levels.as_slice(), object) {
                Some(&trace.config)
            } else {
                None
            }
        }
    }
}

impl Run {
    /// The graft call of a process, where it holds an object exclusively.
    fn changer(&self, p: u8, object: Object) -> Option<&Config>
        requires kept { AreKept self.now }
        ensures { option_map (config_of (page_of self.now.store)) (option_copied result)
            ≡ changing object (blocking.config_of all_calls (kernel_of self.now) p) }
    {
        changing(self.trace(p), object)
    }

    /// The first graft call that holds an object exclusively.
    fn first_changer(&self, object: Object) -> Option<&Config>
        requires kept { AreKept self.now }
        ensures { option_map (config_of (page_of self.now.store)) (option_copied result)
            ≡ first_changing object (blocking.config_of all_calls (kernel_of self.now)) processes }
    {
        for p in 0..16u8 {
            match self.changer(p, object) {
                None => {}
                Some(config) => return Some(config),
            }
        }
        None
    }

    /// Where an object stands in the store in place, if it isn't an account or a graft; the kept
    /// segment of a graft is found so too.
    pub(crate) fn things_at(&self, object: Object) -> &Things
        requires kept { AreKept self.now }
        ensures { SameThing object (in_place all_calls (kernel_of self.now)).things
            (things_of (page_of self.now.store) result.now) }
    {
        match self.first_changer(object) {
            None => &self.store.things,
            Some(config) => &config.things,
        }
    }

    /// Where an account or a graft stands in the store in place.
    pub(crate) fn accounts_at(&self, object: Object) -> &Accounts
        requires kept { AreKept self.now }
        ensures { SameAmounts object (in_place all_calls (kernel_of self.now)).accounts
            (accounts_of result.now) }
    {
        match self.first_changer(object) {
            None => &self.store.accounts,
            Some(config) => &config.accounts,
        }
    }
}
