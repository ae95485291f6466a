//! The laws of `graft_laws` over every table of calls, at the table of the system calls.

use graft_laws::{fallen, notes, store, ticks};
use placed_laws::PlainRules;

#[test]
fn the_system_calls_have_the_laws(_rt: HostRuntime) {
    fallen::falls_replay::<PlainRules>();
    fallen::calls_are_sound::<PlainRules>();
    store::in_place_reads::<PlainRules>();
    store::undone_is_below::<PlainRules>();
    notes::leaves_few_notes::<PlainRules>();
    notes::calls_leave_few_drops::<PlainRules>();
    notes::events_leave_few_notes::<PlainRules>();
    ticks::ticks_end::<PlainRules>();
}
