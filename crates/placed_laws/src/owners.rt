//! A law of the definitions of graft calls alone, for every table of calls: whose their levels and
//! records are.

ghost use Rattle.placed_laws.specs.Owners.{OwnersStay};

/// All levels of a graft call are of one owner, and so is each record of their undo logs that names
/// a process: where it begins, after each instruction, and after the drop of any level.
pub fn owners_stay()
    ensures { OwnersStay }
{}
