//! A state, cell by cell.

ghost use Rattle.std.specs.Prelude.{◌≡◌, ◌++◌, ◌∷◌, [], map, OnOk};
ghost use Rattle.lab_state.specs.Cells as spec;

use kernel_data::NoMemory;
use std::alloc::Global;
use text_words::put;

/// A value of a state: where it stands, and the value as JSON. A place is a number that
/// `place_of` gives; values stand in the order of their places.
#[derive(Drop)]
pub struct Cell {
    pub place: u32,
    pub value: Vec<u8>,
}

/// A state: its values, in the order of their places.
#[derive(Drop)]
pub struct State {
    pub cells: Vec<Cell>,
}

impl State {
    /// No value.
    pub fn new(alloc: Global) -> State
        ensures { result.cells.items ≡ [] }
    {
        State {
            cells: Vec::new(alloc),
        }
    }

    /// A value more, behind the others.
    pub fn add(&mut self, place: u32, value: Vec<u8>) -> Result<(), NoMemory>
        ensures { OnOk result (spec.values_of self.new.cells.items
            ≡ spec.values_of self.old.cells.items ++ (place, value.items) ∷ []) }
    {
        put(&mut self.cells, Cell { place, value })
    }
}
