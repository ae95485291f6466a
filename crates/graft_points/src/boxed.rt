//! A box of a policy is a policy.

use crate::ask::Ask;
use crate::policy::Policy;

impl Policy for Box<dyn Policy> {
    ghost seen = { λ b. (Policy-box b).seen b.value };

    fn code(&self) -> u8 {
        (**self).code()
    }

    fn params(&self) -> u8 {
        (**self).params()
    }

    fn get(&self, k: u8) -> u32 {
        (**self).get(k)
    }

    fn set(&mut self, k: u8, v: u32) {
        (&mut **self).set(k, v);
    }

    fn answer(&self, ask: &Ask) -> u32 {
        (**self).answer(ask)
    }
}
