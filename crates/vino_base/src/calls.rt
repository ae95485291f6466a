//! Which of the calls of a device in memory fail.

ghost use Rattle.std.specs.Prelude.{◌≡◌, [], ◌+◌, ◌-◌, ◌^◌};
ghost use Rattle.vino_base.specs.Faults.{counted};
ghost use Rattle.vino_base.specs.Calls.{after_call, call_fails};

use std::marker::Model;

/// The calls of a device, numbered from 1, and which of them fail.
#[derive(Drop)]
pub struct CallPlan {
    made: u64,
    failing: Vec<u64>,
}

impl Model for CallPlan {
    ghost use Rattle.vino_base.specs.Calls.{Plan};

    ghost Value = { Plan };

    ghost view = { λ p. record { made = p.made; failing = p.failing.items } };
}

impl CallPlan {
    /// No call was made yet; those with these numbers will fail.
    pub fn new(failing: Vec<u64>) -> CallPlan
        ensures { result ≡ record { made = 0; failing = failing.items } }
    {
        CallPlan { made: 0, failing }
    }

    /// Makes the next call: whether it fails. The number of calls stands still at 2^64 - 1.
    pub fn next_fails(&mut self) -> bool
        ensures after { self.new ≡ after_call self.old }
        ensures fails { result ≡ call_fails self.old }
    {
        self.made = counted_up(self.made);
        self.failing.contains(&self.made)
    }
}

/// A count after one more, which stands still at 2^64 - 1.
pub fn counted_up(count: u64) -> u64
    ensures { result ≡ counted count }
{
    count.saturating_add(1)
}
