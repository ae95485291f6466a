//! The laws of `session_laws` over every table of calls, at the table of the system calls.

use placed_laws::PlainRules;
use session_laws::{answers, counts, served};

#[test]
fn the_system_calls_have_the_laws(_rt: HostRuntime) {
    counts::histories_keep_counts::<PlainRules>();
    counts::calls_keep_counts::<PlainRules>();
    counts::calls_fit::<PlainRules>();
    answers::events_are_answered::<PlainRules>();
    served::lines_tell_answers();
    served::runs_tell_answers();
}
