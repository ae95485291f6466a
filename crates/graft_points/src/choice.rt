//! Which policy of each kind is chosen.

ghost use Rattle.std.specs.Prelude.{◌≡◌, ◌<◌, ◌+◌, ℕ, List, cond, ◌==◌, slice_index, slice_set};

use std::marker::Model;

/// The kinds of policies: 0 reads ahead, 1 evicts, 2 schedules.
pub const KINDS: usize = 3;

/// Which policy of each kind is chosen: 0, 1 or 2 of kind 0, and 0 or 1 of kinds 1 and 2. Contracts
/// see the list of the three numbers.
#[derive(Drop)]
pub struct Choice {
    numbers: [u8; KINDS],
}

impl Model for Choice {
    ghost use Rattle.std.specs.Prelude.{ℕ, List};
    ghost use Rattle.graft_points.specs.Shelf.{IsChoice};

    ghost Value = { List ℕ };

    ghost view = { λ c. c.numbers };

    ghost invariant = { λ c. IsChoice c.numbers };
}

/// The code of policy 0 of a kind.
fn first(kind: u8) -> u8
    ensures { result ≡ cond (kind == 0) 0 (cond (kind == 1) 3 5) }
{
    match kind {
        0 => 0,
        1 => 3,
        _ => 5,
    }
}

impl Choice {
    ghost use Rattle.kernel_model.specs.Objects.{at};
    ghost use Rattle.kernel_model.specs.Early.{policy_count};
    ghost use Rattle.graft_points.specs.Views.{PolicyView};
    ghost use Rattle.graft_points.specs.Shelf.{IsChoice, first_choice, code_of, pol_of};

    /// The choice at boot: reading ahead by the sequential policy, the oldest frame, the front of
    /// the queue.
    pub fn new() -> Choice
        ensures { result ≡ first_choice }
    {
        Choice { numbers: [1, 0, 0] }
    }

    /// The policy of a kind that is chosen.
    pub fn of(&self, kind: u8) -> u8
        requires { kind < 3 }
        ensures value { result ≡ slice_index self.now kind }
        ensures below { result < policy_count kind }
    {
        self.numbers[kind as usize]
    }

    /// The code of the policy of a kind that is chosen.
    pub fn code(&self, kind: u8) -> u8
        requires { kind < 3 }
        ensures value { result ≡ code_of kind (slice_index self.now kind) }
        ensures below { result < 7 }
        ensures policy { slice_index self.now kind < policy_count kind }
    {
        first(kind) + self.of(kind)
    }

    /// Chooses policy j of a kind. No parameter changes, on whatever shelf the policies stand.
    pub fn choose(&mut self, kind: u8, j: u8)
        requires kind { kind < 3 }
        requires number { j < policy_count kind }
        ensures value { self.new ≡ slice_set self.old kind j }
        ensures policies { (views : List PolicyView) →
            pol_of views self.new ≡
            at kind (record (pol_of views self.old kind) { chosen = j }) (pol_of views self.old) }
    {
        self.numbers[kind as usize] = j;
    }
}
