//! Laws of waiting.

ghost use Rattle.run_laws.specs.Waits.{WaitsEnd, WaitsEndByCalls};
ghost use Rattle.run_laws.specs.Waits.{RunsEndWaits, RunsEndWaitsByCalls};

use script_model::Rules;

/// Ticks alone end all waiting, after 289 times one more than the longest patience, whatever grafts
/// do: in each sound kernel that rests, over whole blocks.
pub fn waits_end<R: Rules>()
    ensures { WaitsEnd R.meaning }
{}

/// So it is from each kernel of a run over a disk of whole blocks.
pub fn runs_end_waits()
    ensures { RunsEndWaits }
{}

/// They end it the sooner, the fewer calls are in flight: where these are c, after 1 + 18 c times
/// one more than the longest patience.
pub fn waits_end_by_calls<R: Rules>()
    ensures { WaitsEndByCalls R.meaning }
{}

/// So it is from each kernel of a run over a disk of whole blocks.
pub fn runs_end_waits_by_calls()
    ensures { RunsEndWaitsByCalls }
{}
