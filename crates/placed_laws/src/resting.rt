//! Laws of rest in place.

ghost use Rattle.placed_laws.specs.Resting.{Resting};

use kernel_model::Rules;

/// Settling leads to rest, a kernel that rests has no step to take, and it goes on to rest after an
/// instruction that leaves the levels of its call and what they hold.
pub fn resting<R: Rules>()
    ensures { Resting R.meaning }
{}
