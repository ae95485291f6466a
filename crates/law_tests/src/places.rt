//! The laws of `placed_laws` over every table of calls, at the table of the system calls.

use placed_laws::{PlainRules, agreeing, keeping, owners, resting, soundness};

#[test]
fn the_system_calls_have_the_laws(_rt: HostRuntime) {
    agreeing::same_stages::<PlainRules>();
    agreeing::same_blockers::<PlainRules>();
    agreeing::same_shown::<PlainRules>();
    keeping::quiet_kernels_stand::<PlainRules>();
    keeping::steps_stand::<PlainRules>();
    keeping::drops_stand::<PlainRules>();
    keeping::others_stand::<PlainRules>();
    keeping::events_stand::<PlainRules>();
    keeping::held_stays::<PlainRules>();
    keeping::images_keep_rest::<PlainRules>();
    soundness::sound_in_place::<PlainRules>();
    soundness::ready_in_place::<PlainRules>();
    owners::owners_stay();
    resting::resting::<PlainRules>();
}
