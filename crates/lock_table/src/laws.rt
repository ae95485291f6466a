//! The laws of the objects' numbers.

ghost use Rattle.lock_table.specs.Numbers.{NumbersTellApart, NumbersAreBelow, TestIsRange};

/// Equal numbers come only from equal objects.
pub fn numbers_tell_apart()
    ensures { NumbersTellApart }
{}

/// The numbers of the objects are below 421.
pub fn numbers_are_below()
    ensures { NumbersAreBelow }
{}

/// An object passes the test of the table's view exactly where its numbers are in their ranges.
pub fn test_is_range()
    ensures { TestIsRange }
{}
