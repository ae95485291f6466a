//! Laws of rest.

ghost use Rattle.kernel_laws.specs.Rest.{SettlesToRest};

use kernel_model::Rules;

/// From a sound kernel over whole blocks, settling leads to rest: each entry of the order is
/// blocked, by what it keeps as its blocker, so none can take a step.
pub fn settles_to_rest<R: Rules>()
    ensures { SettlesToRest R.meaning }
{}
