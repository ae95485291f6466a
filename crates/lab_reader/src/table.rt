//! The grafts of a lab file in their order, found by their names.

ghost use Rattle.std.specs.Prelude.{◌≡◌, ◌-◌, ◌++◌, ◌∷◌, [], length, take, true, OnOk};
ghost use Rattle.std.specs.Result.{is_err};
ghost use Rattle.lab_reader.specs.Grafts as spec;
ghost use Rattle.lab_reader.specs.Table.{FindsPlaces};

use crate::graft::Graft;
use indexmap::IndexMap;
use script_model::NoMemory;
use std::alloc::Global;
use std::marker::Model;
use text_words::append;

/// For each name the place of the first graft of this name.
type Places = IndexMap<Vec<u8>, usize>;

/// The grafts of a lab file in their order. The time in which one is found by its name doesn't grow
/// with their number.
#[derive(Drop)]
pub struct GraftTable {
    grafts: Vec<Graft>,
    places: Places,
}

impl Model for GraftTable {
    ghost use Rattle.std.specs.Prelude.{List};
    ghost use Rattle.lab_reader.specs.Grafts as spec;
    ghost use Rattle.lab_reader.specs.Table.{FindsPlaces};

    ghost Value = { List spec.Graft };

    ghost view = { λ t. t.grafts.items };

    ghost invariant = { λ t. FindsPlaces t.places.entries t.grafts.items };
}

/// Takes the last graft away again, since there is no memory for its name.
fn take_last(grafts: &mut Vec<Graft>) -> Result<(), NoMemory>
    ensures failed { is_err result ≡ true }
    ensures fewer { grafts.new.items
        ≡ take (length grafts.old.items - 1) grafts.old.items }
{
    let _ = grafts.pop();
    Err(NoMemory)
}

/// Puts a graft behind the others, under its name.
fn add_graft(
    grafts: &mut Vec<Graft>,
    places: &mut Places,
    name: Vec<u8>,
    graft: Graft,
) -> Result<(), NoMemory>
    requires finds { FindsPlaces places.old.entries grafts.old.items }
    requires named { graft.name ≡ name.items }
    ensures more { OnOk result (grafts.new.items ≡ grafts.old.items ++ graft ∷ []) }
    ensures finds { FindsPlaces places.new.entries grafts.new.items }
{
    let place = grafts.len();
    let Ok(()) = grafts.push(graft) else {
        return Err(NoMemory);
    };
    if places.contains_key(name.as_slice()) {
        return Ok(());
    }
    let Ok(_) = places.insert(name, place) else {
        return take_last(grafts);
    };
    Ok(())
}

impl GraftTable {
    /// No graft.
    pub fn new(alloc: Global) -> GraftTable
        ensures { result ≡ [] }
    {
        GraftTable {
            grafts: Vec::new(alloc),
            places: IndexMap::new(alloc),
        }
    }

    /// The grafts, in their order.
    pub fn grafts(&self) -> &[Graft]
        ensures { result.now ≡ self.now }
    {
        self.grafts.as_slice()
    }

    /// The place of the graft of this name.
    pub fn place_of(&self, name: &[u8]) -> Option<usize>
        ensures { result ≡ spec.place_of name.now self.now }
    {
        match self.places.get(name) {
            Some(place) => Some(*place),
            None => None,
        }
    }

    /// A graft more, behind the others.
    pub fn add(&mut self, alloc: Global, graft: Graft) -> Result<(), NoMemory>
        ensures { OnOk result (self.new ≡ self.old ++ graft ∷ []) }
    {
        let mut name = Vec::new(alloc);
        append(&mut name, graft.name())?;
        add_graft(&mut self.grafts, &mut self.places, name, graft)
    }
}
