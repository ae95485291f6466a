//! The files of the sample disk.

ghost use Rattle.std.specs.Prelude.{◌≡◌};
ghost use Rattle.kernel_model.specs.World as model;
ghost use Rattle.kernel_model.specs.Policies.{open_blocks};
ghost use Rattle.audit_state.specs.Worlds.{world_of};
ghost use Rattle.audit_state.specs.Files.{row_with, name_of};

use crate::{Extent, World};
use kernel_model::OpenRow;

impl World {
    /// The usable entry of this number, without its name.
    #[tactic(auto, unfolding(crate::specs::Worlds::sample_rows))]
    pub fn extent(&self, n: u8) -> Option<Extent>
        ensures { model.file_row (world_of self.now) n ≡ row_with (name_of n) result }
    {
        match n {
            0 => Some(Extent {
                start: 1,
                blocks: 8,
                length: 4096,
            }),
            1 => Some(Extent {
                start: 9,
                blocks: 40,
                length: 20480,
            }),
            2 => Some(Extent {
                start: 49,
                blocks: 3,
                length: 1100,
            }),
            _ => None,
        }
    }

    /// The number of the usable entry of this name.
    #[tactic(auto, unfolding(crate::specs::Worlds::sample_rows))]
    pub fn named(&self, name: &[u8]) -> Option<u8>
        ensures { result ≡ model.file_named (world_of self.now) name.now }
    {
        if b"alpha".as_slice() == name {
            Some(0)
        } else if b"beta".as_slice() == name {
            Some(1)
        } else if b"gamma".as_slice() == name {
            Some(2)
        } else {
            None
        }
    }

    /// The blocks of a file, 0 where there is no such entry.
    pub fn blocks_of(&self, n: u8) -> u32
        ensures { result ≡ model.blocks_of (world_of self.now) n }
    {
        match self.extent(n) {
            None => 0,
            Some(extent) => extent.blocks,
        }
    }

    /// The blocks of an open file, 0 where none is open.
    pub fn open_blocks(&self, file: &Option<OpenRow>) -> u32
        ensures { result ≡ open_blocks (world_of self.now) file.now }
    {
        match file {
            None => 0,
            Some(opened) => self.blocks_of(opened.file),
        }
    }
}
