//! Which events of a run a picture shows.

ghost use Rattle.std.specs.Prelude.{◌≡◌, ◌≤◌, min, max, IfOk, IfErr};
ghost use Rattle.lab_story.specs.Events.{chosen_count, event_count};
ghost use Rattle.lab_story.specs.Refusals.{IsTooMany};

use crate::event::count_events;
use script_model::NoMemory;

/// The most events of a picture.
pub const MOST_EVENTS: u32 = 2000;

/// The events that are drawn: from the first to the last, numbered from 1. A last one behind the
/// end of the run stands for the end.
#[derive(Clone, Copy, Debug, PartialEq, Eq)]
pub struct Chosen {
    /// The first one; 0 is as good as 1.
    pub first: u32,
    /// The last one.
    pub last: u32,
}

/// Why there is no picture.
#[derive(Clone, Copy, Debug, PartialEq, Eq)]
pub enum PictureFault {
    /// So many events are more than a picture shows: a part is to be chosen.
    TooMany(u64),
    /// There is no memory.
    NoMemory,
}

impl From<NoMemory> for PictureFault {
    ghost use Rattle.lab_story.specs.declared.chosen.PictureFault.{PictureFault};

    ghost from_gives = { λ _ e. e ≡ PictureFault.NoMemory };

    fn from(_: NoMemory) -> PictureFault {
        PictureFault::NoMemory
    }
}

/// How many events are chosen of so many.
fn count_chosen(chosen: Chosen, count: usize) -> u64
    ensures { result ≡ chosen_count chosen.first chosen.last count }
{
    let last = u64::from(chosen.last).min(count as u64);
    let first = u64::from(chosen.first).max(1);
    (last + 1).saturating_sub(first)
}

/// The chosen events that there are, of so many.
fn within(chosen: Chosen, count: usize) -> Chosen
    ensures first { result.first ≡ max chosen.first 1 }
    ensures last { result.last ≡ min chosen.last count }
{
    let last = (chosen.last as usize).min(count);
    Chosen {
        first: chosen.first.max(1),
        last: last as u32,
    }
}

/// The chosen events that a script has: at most 2,000, or a refusal with their number.
pub fn admitted(script: &[u8], chosen: Chosen) -> Result<Chosen, PictureFault>
    ensures first { IfOk result (λ c. c.first ≡ max chosen.first 1) }
    ensures last { IfOk result (λ c. c.last ≡ min chosen.last (event_count script.now)) }
    ensures few { IfOk result (λ _.
        chosen_count chosen.first chosen.last (event_count script.now) ≤ 2000) }
    ensures refused { IfErr result (IsTooMany
        (chosen_count chosen.first chosen.last (event_count script.now))) }
{
    let count = count_events(script);
    let events = count_chosen(chosen, count);
    if events > u64::from(MOST_EVENTS) {
        return Err(PictureFault::TooMany(events));
    }
    Ok(within(chosen, count))
}
