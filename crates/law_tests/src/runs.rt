//! The laws of `run_laws`, at the table of the system calls.

use placed_laws::PlainRules;
use run_laws::{grants, seen, streams, waits};

#[test]
fn the_system_calls_have_the_laws(_rt: HostRuntime) {
    grants::spent_within_grant();
    grants::all_calls_spend_no_steps();
    grants::grants_bound_grafts();
    grants::grants_bound_all_grafts();
    seen::pieces_keep_shown();
    seen::runs_keep_shown();
    seen::runs_are_coherent();
    seen::blocks_were_seen();
    seen::syncs_end_written();
    streams::runs_keep_streams();
    waits::waits_end::<PlainRules>();
    waits::runs_end_waits();
    waits::waits_end_by_calls::<PlainRules>();
    waits::runs_end_waits_by_calls();
}
