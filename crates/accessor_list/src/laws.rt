//! The law of the callable list.

ghost use Rattle.accessor_list.specs.Laws.{NamesAreIds};

/// A name has an id exactly where the id has the name.
pub fn names_are_ids()
    ensures { NamesAreIds }
{}
