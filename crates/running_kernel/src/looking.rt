//! Looking at the innermost level of a call in flight, for who shows a run. Nothing changes.

ghost use Rattle.std.specs.Prelude.{◌≡◌, ◌<◌, option_map};
ghost use Rattle.placed_laws.specs.Placed.{PlacedLevel};
ghost use Rattle.running_kernel.specs.Looking.{innermost_level};
ghost use Rattle.running_kernel.specs.Sound.{HasProcess};
ghost use Rattle.running_kernel.specs.Views.{placed_of};

use crate::flights::flight;
use crate::running::Running;
use call_pieces::{Calls, Policy};

/// Where the first segment begins in memory.
const FIRST_SEGMENT: u32 = 262_144;

/// The bytes of a segment.
const SEGMENT_BYTES: u32 = 4096;

impl<C: Calls, B: Policy> Running<C, B> {
    /// Register i of the innermost level of process p's call, if that is in a graft.
    pub fn innermost_register(&self, p: u8, i: u8) -> Option<u32>
        requires at { HasProcess self.now p }
        requires register { i < 16 }
        ensures { result ≡ option_map (λ (l : PlacedLevel). l.machine.regs i)
            (innermost_level ((placed_of self.now).levels p)) }
    {
        flight(&self.calls, p).chain.innermost_register(i)
    }

    /// Byte `at` of the segment of the innermost level of process p's call, if that is in a graft.
    pub fn innermost_byte(&self, p: u8, at: u32) -> Option<u8>
        requires at { HasProcess self.now p }
        requires inside { at < 4096 }
        ensures { result ≡ option_map (λ (l : PlacedLevel). l.machine.memory at)
            (innermost_level ((placed_of self.now).levels p)) }
    {
        let count = flight(&self.calls, p).chain.levels.count();
        if count == 0 {
            return None;
        }
        let segment = 4 * u32::from(p) + u32::from(count - 1);
        Some(
            self.store
                .ram
                .byte(FIRST_SEGMENT + SEGMENT_BYTES * segment + at),
        )
    }
}
