//! Looking at the innermost level of a graft call, for who shows a run. Nothing changes.

ghost use Rattle.std.specs.Prelude.{◌≡◌, ◌<◌, option_map, slice_index};
ghost use Rattle.graft_levels.specs.Chains.{first_level};
ghost use Rattle.graft_levels.specs.declared.GraftLevel.{GraftLevel};

use crate::Chain;

impl Chain {
    /// Register i of the innermost level, if there is a level.
    pub fn innermost_register(&self, i: u8) -> Option<u32>
        requires { i < 16 }
        ensures { result ≡ option_map
            (λ (g : GraftLevel). slice_index g.machine.regs i) (first_level self.now.levels) }
    {
        let level = self.levels.innermost()?;
        Some(level.machine.reg(i))
    }
}
