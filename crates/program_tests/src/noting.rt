//! A policy of the tests, which notes what it is set to.

use graft_points::{Ask, Policy};
use std::cell::Cell;
use std::rc::Rc;

/// The values that a policy was set to, in order, the first eight of them.
#[derive(Clone, Copy)]
pub struct Told {
    pub values: [u32; 8],
    pub count: usize,
}

impl Told {
    /// It wasn't set yet.
    pub fn nothing() -> Told {
        Told {
            values: [0; 8],
            count: 0,
        }
    }
}

/// Reads ahead in sequential reads, and notes each value that it is set to.
#[derive(Drop)]
pub struct Noting {
    pub blocks: u32,
    pub known: Rc<Cell<Told>>,
}

impl Policy for Noting {
    ghost use Rattle.graft_points.specs.Views.{PolicyView};
    ghost use Rattle.std.specs.Prelude.{[], ◌∷◌};

    ghost seen = { λ p. record { code = 1; params = p.blocks ∷ [] } };

    fn code(&self) -> u8 {
        1
    }

    fn params(&self) -> u8 {
        1
    }

    fn get(&self, _k: u8) -> u32 {
        self.blocks
    }

    fn set(&mut self, _k: u8, v: u32) {
        let mut known = self.known.get();
        if known.count < 8 {
            known.values[known.count] = v;
            known.count += 1;
        }
        self.known.set(known);
        self.blocks = v;
    }

    fn answer(&self, ask: &Ask) -> u32 {
        match *ask {
            Ask::Ahead {
                sequential: true,
                window,
                left,
            } => self.blocks.min(window).min(left),
            _ => 0,
        }
    }
}
