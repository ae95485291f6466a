//! The laws of `graft_laws` over every table of calls, at the table of the system calls.

use graft_laws::{histories, kernels, stability};
use placed_laws::PlainRules;

#[test]
fn the_system_calls_have_the_laws(_rt: HostRuntime) {
    histories::beginnings_replay::<PlainRules>();
    histories::histories_replay::<PlainRules>();
    histories::histories_alike::<PlainRules>();
    histories::histories_hold_answers::<PlainRules>();
    histories::unasked_is_unseen::<PlainRules>();
    kernels::steps_stay_sound::<PlainRules>();
    kernels::drops_stay_sound::<PlainRules>();
    kernels::settling_stays_sound::<PlainRules>();
    kernels::events_stay_sound::<PlainRules>();
    kernels::images_stay_sound::<PlainRules>();
    kernels::calls_replay::<PlainRules>();
    stability::commits_what_is_taken::<PlainRules>();
    stability::calls_are_stable::<PlainRules>();
}
