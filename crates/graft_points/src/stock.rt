//! The seven stock policies. None takes memory.

ghost use Rattle.std.specs.Prelude.{◌≡◌, length, [], ◌∷◌};

use crate::ask::Ask;
use crate::least::{lowest_marked, lowest_nice};
use crate::policy::Policy;

/// Reads nothing ahead: code 0.
#[derive(Drop)]
pub struct RaNone {}

impl RaNone {
    /// The policy, which has no parameter.
    pub fn new() -> RaNone {
        RaNone {}
    }
}

impl Policy for RaNone {
    ghost use Rattle.graft_points.specs.Views.{PolicyView};
    ghost use Rattle.std.specs.Prelude.{[]};

    ghost seen = { λ p. record { code = 0; params = [] } };

    fn code(&self) -> u8 {
        0
    }

    fn params(&self) -> u8 {
        0
    }

    fn get(&self, _k: u8) -> u32
        ensures { result ≡ 0 }
    {
        0
    }

    fn set(&mut self, _k: u8, _v: u32)
        ensures { self.new ≡ self.old }
    {}

    fn answer(&self, _ask: &Ask) -> u32 {
        0
    }
}

/// Reads ahead after a sequential read, by at most so many blocks, 0 to 8: code 1.
#[derive(Drop)]
pub struct RaSeq {
    blocks: u32,
}

impl RaSeq {
    /// The policy for 2 blocks.
    pub fn new() -> RaSeq
        ensures { result.blocks ≡ 2 }
    {
        RaSeq { blocks: 2 }
    }
}

impl Policy for RaSeq {
    ghost use Rattle.graft_points.specs.Views.{PolicyView};
    ghost use Rattle.std.specs.Prelude.{[], ◌∷◌};

    ghost seen = { λ p. record { code = 1; params = p.blocks ∷ [] } };

    fn code(&self) -> u8 {
        1
    }

    fn params(&self) -> u8 {
        1
    }

    fn get(&self, _k: u8) -> u32 {
        self.blocks
    }

    fn set(&mut self, _k: u8, v: u32) {
        self.blocks = v;
    }

    fn answer(&self, ask: &Ask) -> u32 {
        match *ask {
            Ask::Ahead {
                sequential: true,
                window,
                left,
            } => self.blocks.min(window).min(left),
            _ => 0,
        }
    }
}

/// Reads ahead after any read, by at most so many blocks, 0 to 8: code 2.
#[derive(Drop)]
pub struct RaNext {
    blocks: u32,
}

impl RaNext {
    /// The policy for 1 block.
    pub fn new() -> RaNext
        ensures { result.blocks ≡ 1 }
    {
        RaNext { blocks: 1 }
    }
}

impl Policy for RaNext {
    ghost use Rattle.graft_points.specs.Views.{PolicyView};
    ghost use Rattle.std.specs.Prelude.{[], ◌∷◌};

    ghost seen = { λ p. record { code = 2; params = p.blocks ∷ [] } };

    fn code(&self) -> u8 {
        2
    }

    fn params(&self) -> u8 {
        1
    }

    fn get(&self, _k: u8) -> u32 {
        self.blocks
    }

    fn set(&mut self, _k: u8, v: u32) {
        self.blocks = v;
    }

    fn answer(&self, ask: &Ask) -> u32 {
        match *ask {
            Ask::Ahead { window, left, .. } => self.blocks.min(window).min(left),
            _ => 0,
        }
    }
}

/// Evicts the frame that was not used for longest: code 3.
#[derive(Drop)]
pub struct VictimLru {}

impl VictimLru {
    /// The policy, which has no parameter.
    pub fn new() -> VictimLru {
        VictimLru {}
    }
}

impl Policy for VictimLru {
    ghost use Rattle.graft_points.specs.Views.{PolicyView};
    ghost use Rattle.std.specs.Prelude.{[]};

    ghost seen = { λ p. record { code = 3; params = [] } };

    fn code(&self) -> u8 {
        3
    }

    fn params(&self) -> u8 {
        0
    }

    fn get(&self, _k: u8) -> u32
        ensures { result ≡ 0 }
    {
        0
    }

    fn set(&mut self, _k: u8, _v: u32)
        ensures { self.new ≡ self.old }
    {}

    fn answer(&self, ask: &Ask) -> u32 {
        match *ask {
            Ask::Victim(rows) => u32::from(rows[0].frame),
            _ => 0,
        }
    }
}

/// Evicts the frame with the lowest mark, each taken as at least a floor of 0 to 255, and the
/// oldest of these: code 4.
#[derive(Drop)]
pub struct VictimMark {
    floor: u32,
}

impl VictimMark {
    /// The policy for the floor 0.
    pub fn new() -> VictimMark
        ensures { result.floor ≡ 0 }
    {
        VictimMark { floor: 0 }
    }
}

impl Policy for VictimMark {
    ghost use Rattle.graft_points.specs.Views.{PolicyView};
    ghost use Rattle.std.specs.Prelude.{[], ◌∷◌};

    ghost seen = { λ p. record { code = 4; params = p.floor ∷ [] } };

    fn code(&self) -> u8 {
        4
    }

    fn params(&self) -> u8 {
        1
    }

    fn get(&self, _k: u8) -> u32 {
        self.floor
    }

    fn set(&mut self, _k: u8, v: u32) {
        self.floor = v;
    }

    fn answer(&self, ask: &Ask) -> u32 {
        match *ask {
            Ask::Victim(rows) => u32::from(lowest_marked(rows, self.floor).frame),
            _ => 0,
        }
    }
}

/// The front of the queue is next: code 5.
#[derive(Drop)]
pub struct SchedRound {}

impl SchedRound {
    /// The policy, which has no parameter.
    pub fn new() -> SchedRound {
        SchedRound {}
    }
}

impl Policy for SchedRound {
    ghost use Rattle.graft_points.specs.Views.{PolicyView};
    ghost use Rattle.std.specs.Prelude.{[]};

    ghost seen = { λ p. record { code = 5; params = [] } };

    fn code(&self) -> u8 {
        5
    }

    fn params(&self) -> u8 {
        0
    }

    fn get(&self, _k: u8) -> u32
        ensures { result ≡ 0 }
    {
        0
    }

    fn set(&mut self, _k: u8, _v: u32)
        ensures { self.new ≡ self.old }
    {}

    fn answer(&self, ask: &Ask) -> u32 {
        match *ask {
            Ask::Next(rows) => u32::from(rows[0].process),
            _ => 0,
        }
    }
}

/// The process with the lowest nice is next, each taken as at least a floor of 0 to 39, and the
/// first of these: code 6.
#[derive(Drop)]
pub struct SchedNice {
    floor: u32,
}

impl SchedNice {
    /// The policy for the floor 0.
    pub fn new() -> SchedNice
        ensures { result.floor ≡ 0 }
    {
        SchedNice { floor: 0 }
    }
}

impl Policy for SchedNice {
    ghost use Rattle.graft_points.specs.Views.{PolicyView};
    ghost use Rattle.std.specs.Prelude.{[], ◌∷◌};

    ghost seen = { λ p. record { code = 6; params = p.floor ∷ [] } };

    fn code(&self) -> u8 {
        6
    }

    fn params(&self) -> u8 {
        1
    }

    fn get(&self, _k: u8) -> u32 {
        self.floor
    }

    fn set(&mut self, _k: u8, v: u32) {
        self.floor = v;
    }

    fn answer(&self, ask: &Ask) -> u32 {
        match *ask {
            Ask::Next(rows) => u32::from(lowest_nice(rows, self.floor).process),
            _ => 0,
        }
    }
}
