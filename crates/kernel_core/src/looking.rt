//! Looking at the innermost level of a call in flight, for who shows a run. Nothing changes.

ghost use Rattle.std.specs.Prelude.{◌≡◌, ◌<◌, option_map};
ghost use Rattle.placed_laws.specs.Placed.{PlacedLevel};
ghost use Rattle.running_kernel.specs.Looking.{innermost_level};
ghost use Rattle.running_kernel.specs.Sound.{HasProcess};
ghost use Rattle.running_kernel.specs.Views.{placed_of};

use crate::kernel::Kernel;
use call_pieces::{Calls, Policy};

impl<C: Calls, B: Policy> Kernel<C, B> {
    /// Register i of the innermost level of process p's call, if that is in a graft.
    pub fn innermost_register(&self, p: u8, i: u8) -> Option<u32>
        requires at { HasProcess self.now.running p }
        requires register { i < 16 }
        ensures { result ≡ option_map (λ (l : PlacedLevel). l.machine.regs i)
            (innermost_level ((placed_of self.now.running).levels p)) }
    {
        self.running.innermost_register(p, i)
    }

    /// Byte `at` of the segment of the innermost level of process p's call, if that is in a graft.
    pub fn innermost_byte(&self, p: u8, at: u32) -> Option<u8>
        requires at { HasProcess self.now.running p }
        requires inside { at < 4096 }
        ensures { result ≡ option_map (λ (l : PlacedLevel). l.machine.memory at)
            (innermost_level ((placed_of self.now.running).levels p)) }
    {
        self.running.innermost_byte(p, at)
    }
}
