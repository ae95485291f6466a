//! The run of a plug-in up to its limit.

ghost use Rattle.std.specs.Prelude.{◌≡◌, ◌≤◌, List, ℕ, length};
ghost use Rattle.graft_code.specs.Machine as model;
ghost use Rattle.vino_host.specs.HostMachine.{machine_of, code_in};
ghost use Rattle.vino_host.specs.HostRuns.{state, ended, host_run, answered, replied};
ghost use Rattle.vino_host.specs.Tables.{records_of};

use crate::table::serve;
use crate::{
    BROKEN, DIVIDED, Log, Machine, NO_STEPS, NOT_CALLABLE, Outcome, Reply, Served, Stop, Stopped,
    TRAPPED, Word,
};

/// Answers what a plug-in called with these values in r0 and r1, or says why it stops.
fn answer(table: &mut [Word], log: &mut Log, number: u32, id: u32, r0: u32, r1: u32) -> Reply
    ensures { (m : model.Machine) → m.regs 0 ≡ r0 → m.regs 1 ≡ r1 →
        answered number id (state m table.old (records_of log.old))
        ≡ replied result m table.new (records_of log.new) }
{
    if id > 15 {
        return Reply::Stopped(Stop::Drops(NOT_CALLABLE, id));
    }
    if id > 1 {
        return Reply::Stopped(Stop::Waits(id));
    }
    match serve(table, log, number, id, r0, r1) {
        Served::Gave(x) => Reply::Gave(x),
        Served::Refused(cause) => Reply::Stopped(Stop::Drops(cause, id)),
    }
}

/// Runs code until it stops, or has taken as many instructions as it may.
// The machine is the function's own, so that its place is in a register of the processor.
pub(crate) fn run(
    machine: Machine,
    segment: &mut [u8],
    code: &[u8],
    table: &mut [Word],
    log: &mut Log,
    number: u32,
    limit: u32,
) -> Stopped
    requires size { length segment.old ≡ 4096 }
    requires few { length code.now ≤ 8192 }
    ensures { ended result.stop result.left
        (state (machine_of result.machine segment.new) table.new (records_of log.new))
        ≡ host_run number (code_in code.now) limit
        (state (machine_of machine segment.old) table.old (records_of log.old)) }
{
    let mut machine = machine;
    let mut left = limit;
    'turns: while left > 0 {
        left -= 1;
        match machine.step(segment, code) {
            Outcome::Went => {}
            Outcome::Called(id) => {
                let r0 = machine.reg(0);
                let r1 = machine.reg(1);
                match answer(table, log, number, id, r0, r1) {
                    Reply::Gave(x) => machine.set_r0(x),
                    Reply::Stopped(stop) => return stopped(stop, left, machine),
                }
            }
            Outcome::Returned => return stopped(Stop::Returns, left, machine),
            Outcome::DividedByZero => return stopped(Stop::Drops(DIVIDED, 0), left, machine),
            Outcome::Trapped(code) => return stopped(Stop::Drops(TRAPPED, code), left, machine),
            Outcome::PastEnd => return stopped(Stop::Drops(BROKEN, 0), left, machine),
        }
    }
    stopped(Stop::Drops(NO_STEPS, 0), 0, machine)
}

/// How a run stopped.
#[inline(always)]
fn stopped(stop: Stop, left: u32, machine: Machine) -> Stopped
    ensures { result ≡ record { stop = stop; left = left; machine = machine } }
{
    Stopped {
        stop,
        left,
        machine,
    }
}
