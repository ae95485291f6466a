//! The laws of `kernel_laws` over every table of calls, at the table of the system calls.

use kernel_laws::{alone, clock, rest, soundness};
use placed_laws::PlainRules;

#[test]
fn the_system_calls_have_the_laws(_rt: HostRuntime) {
    clock::ticks_raise_the_clock::<PlainRules>();
    clock::others_leave_the_clock::<PlainRules>();
    alone::calls_run_alone::<PlainRules>();
    alone::others_are_free::<PlainRules>();
    alone::nothing_is_left::<PlainRules>();
    alone::event_of_one::<PlainRules>();
    alone::event_of_two::<PlainRules>();
    soundness::opening_kernel_is_sound::<PlainRules>();
    soundness::pieces_stay_sound::<PlainRules>();
    soundness::histories_work::<PlainRules>();
    rest::settles_to_rest::<PlainRules>();
}
