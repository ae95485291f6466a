//! Calls of a plug-in: how one begins, goes on, and stops.

ghost use Rattle.std.specs.Prelude.{◌≡◌, ◌≤◌, ◌+◌, List, ℕ, [], ◌∷◌, length, true, false};
ghost use Rattle.graft_code.specs.Machine.{first_machine, segment_base};
ghost use Rattle.graft_code.specs.Machine as model;
ghost use Rattle.vino_host.specs.Codes.{is_drop};
ghost use Rattle.vino_host.specs.Codes as codes;
ghost use Rattle.vino_host.specs.HostMachine.{by_place, machine_of};
ghost use Rattle.vino_host.specs.HostRuns.{state, ended, host_run};
ghost use Rattle.vino_host.specs.Tables.{records_of, undone};
ghost use Rattle.vino_host.specs.Plugins.{code_of};
ghost use Rattle.vino_host.specs.Calls.{frame_of, frame_with, pause_in, found_by, found, found_in};
ghost use Rattle.vino_host.specs.Calls.{first_segment, first_frame, call_says, resumed, MISUSED_ANSWER};
ghost use Rattle.vino_host.specs.Calls as spec;

use crate::plugins::{body, code};
use crate::running::run;
use crate::table::{release, undo};
use crate::{
    Answer, BAD_ANSWER, Call, MISUSED, MOST_BYTES, Machine, RETURNED, Request, SEGMENT, Stop,
    Stopped, WAITING, Word,
};

/// The base of a plug-in's segment, as its code sees it.
const BASE: u32 = 262_144;

/// The place of the bytes that a call is fed, or gives.
const FED_AT: usize = 2048;

/// An answer without registers.
fn plain_answer(kind: u32, detail: u32, steps: u32) -> Answer
    ensures { result ≡ spec.plain_answer kind detail steps }
{
    Answer {
        kind,
        detail,
        steps,
        given: 0,
        r0: 0,
        r1: 0,
        r2: 0,
        r3: 0,
    }
}

/// An answer with r0 to r3.
fn full_answer(kind: u32, detail: u32, steps: u32, given: u32, machine: &Machine) -> Answer
    ensures { (segment : List ℕ) →
        result ≡ spec.full_answer kind detail steps given (machine_of machine.now segment) }
{
    Answer {
        kind,
        detail,
        steps,
        given,
        r0: machine.reg(0),
        r1: machine.reg(1),
        r2: machine.reg(2),
        r3: machine.reg(3),
    }
}

/// Whether the answer of a plug-in at a point is taken.
fn is_taken(point: u32, fed: u32, r0: u32) -> bool
    ensures { result ≡ codes.is_taken point fed r0 }
{
    if point < 6 {
        true
    } else if point < 14 {
        r0 <= 512
    } else {
        r0 == fed
    }
}

/// How many bytes a taken answer gives.
fn given_bytes(point: u32, r0: u32) -> u32
    ensures { result ≡ codes.given_bytes point r0 }
{
    if point < 6 { 0 } else { r0 }
}

/// How a call stops: an answer that its point doesn't take drops it.
fn judged(call: &Call, stop: Stop, r0: u32) -> Stop
    ensures frame { result ≡ spec.judged (frame_of call.now) stop r0 }
    ensures before { (segment : List ℕ) →
        result ≡ spec.judged (frame_with segment call.now) stop r0 }
{
    match stop {
        Stop::Returns => {
            if is_taken(call.point, call.fed, r0) {
                Stop::Returns
            } else {
                Stop::Drops(BAD_ANSWER, r0)
            }
        }
        Stop::Waits(id) => Stop::Waits(id),
        Stop::Drops(cause, detail) => Stop::Drops(cause, detail),
    }
}

/// A call completes.
fn complete(call: &mut Call, machine: &Machine, left: u32, table: &mut [Word]) -> Answer
    ensures { (segment : List ℕ) → found_in result call.new segment table.new
        ≡ found_by (frame_of call.old) left
        (state (machine_of machine.now segment) table.old (records_of call.old.log)) Stop.Returns }
{
    release(table, &call.log);
    call.state = 0;
    let steps = call.limit.saturating_sub(left);
    let given = given_bytes(call.point, machine.reg(0));
    full_answer(RETURNED, 0, steps, given, machine)
}

/// A call waits for an answer of the host.
fn wait(call: &mut Call, machine: &Machine, left: u32, id: u32, table: &[Word]) -> Answer
    ensures { (segment : List ℕ) → found_in result call.new segment table.now
        ≡ found_by (frame_of call.old) left
        (state (machine_of machine.now segment) table.now (records_of call.old.log))
        (Stop.Waits id) }
{
    call.state = 1;
    call.id = id;
    call.left = left;
    call.machine = *machine;
    full_answer(WAITING, id, call.limit.saturating_sub(left), 0, machine)
}

/// A call is dropped.
fn undo_call(
    call: &mut Call,
    machine: &Machine,
    left: u32,
    cause: u32,
    detail: u32,
    segment: &mut [u8],
    table: &mut [Word],
) -> Answer
    requires { length segment.old ≡ 4096 }
    ensures says { found_in result call.new segment.new table.new
        ≡ found_by (frame_of call.old) left
        (state (machine_of machine.now segment.old) table.old (records_of call.old.log))
        (Stop.Drops cause detail) }
    ensures segment { segment.new ≡ call.old.segment }
{
    undo(table, &call.log);
    segment.copy_from_slice(&call.segment);
    call.state = 0;
    plain_answer(cause, detail, call.limit.saturating_sub(left))
}

/// A call completes, waits or is dropped, as its run says.
fn settle(call: &mut Call, stopped: &Stopped, segment: &mut [u8], table: &mut [Word]) -> Answer
    requires { length segment.old ≡ 4096 }
    ensures { found_in result call.new segment.new table.new
        ≡ found (frame_of call.old) (ended stopped.now.stop stopped.now.left
        (state (machine_of stopped.now.machine segment.old) table.old (records_of call.old.log))) }
{
    let machine = &stopped.machine;
    let left = stopped.left;
    match judged(call, stopped.stop, machine.reg(0)) {
        Stop::Returns => complete(call, machine, left, table),
        Stop::Waits(id) => wait(call, machine, left, id, table),
        Stop::Drops(cause, detail) => {
            undo_call(call, machine, left, cause, detail, segment, table)
        }
    }
}

/// A call runs from this machine on, with so many instructions left.
fn run_on(
    plugin: &[u8],
    call: &mut Call,
    machine: Machine,
    left: u32,
    segment: &mut [u8],
    table: &mut [Word],
) -> Answer
    requires { length segment.old ≡ 4096 }
    ensures says { found_in result call.new segment.new table.new
        ≡ found (frame_of call.old) (host_run call.old.number (code_of plugin.now) left
        (state (machine_of machine segment.old) table.old (records_of call.old.log))) }
    ensures size { length segment.new ≡ length call.old.segment }
{
    let number = call.number;
    let stopped = run(
        machine,
        segment,
        code(plugin),
        table,
        &mut call.log,
        number,
        left,
    );
    settle(call, &stopped, segment, table)
}

/// A call is dropped that ran in bytes of its own: the caller's segment is as it was.
fn undo_words(call: &mut Call, left: u32, cause: u32, detail: u32, table: &mut [Word]) -> Answer
    ensures { (before : List ℕ) (machine : model.Machine) → found_in result call.new before table.new
        ≡ found_by (frame_with before call.old) left
        (state machine table.old (records_of call.old.log)) (Stop.Drops cause detail) }
{
    undo(table, &call.log);
    call.state = 0;
    plain_answer(cause, detail, call.limit.saturating_sub(left))
}

/// A call that ran in bytes of its own completes, waits or is dropped, as its run says. If it isn't
/// dropped, the caller's segment gets these bytes.
fn hand_over(call: &mut Call, stopped: &Stopped, segment: &mut [u8], table: &mut [Word]) -> Answer
    requires { length segment.old ≡ 4096 }
    ensures { found_in result call.new segment.new table.new
        ≡ found (frame_with segment.old call.old) (ended stopped.now.stop stopped.now.left
        (state (machine_of stopped.now.machine call.old.segment) table.old
        (records_of call.old.log))) }
{
    let machine = &stopped.machine;
    let left = stopped.left;
    match judged(call, stopped.stop, machine.reg(0)) {
        Stop::Returns => {
            let bytes = &call.segment;
            segment.copy_from_slice(bytes);
            complete(call, machine, left, table)
        }
        Stop::Waits(id) => {
            call.segment.swap_with_slice(segment);
            wait(call, machine, left, id, table)
        }
        Stop::Drops(cause, detail) => undo_words(call, left, cause, detail, table),
    }
}

/// A call runs from this machine on in bytes of its own, with so many instructions left.
fn run_apart(
    plugin: &[u8],
    call: &mut Call,
    machine: Machine,
    left: u32,
    segment: &mut [u8],
    table: &mut [Word],
) -> Answer
    requires { length segment.old ≡ 4096 }
    ensures { found_in result call.new segment.new table.new
        ≡ found (frame_with segment.old call.old)
        (host_run call.old.number (code_of plugin.now) left
        (state (machine_of machine call.old.segment) table.old (records_of call.old.log))) }
{
    let number = call.number;
    let stopped = run(
        machine,
        &mut call.segment,
        code(plugin),
        table,
        &mut call.log,
        number,
        left,
    );
    hand_over(call, &stopped, segment, table)
}

/// Data with zeros behind.
fn fill(segment: &mut [u8], body: &[u8])
    requires { length body.now ≤ length segment.old }
    ensures { segment.new ≡ spec.filled (length segment.old) body.now }
{
    segment[..body.len()].copy_from_slice(body);
    segment[body.len()..].fill(0);
}

/// Bytes in place of those from a place on.
fn put_at(segment: &mut [u8], place: usize, bytes: &[u8])
    requires { place + length bytes.now ≤ length segment.old }
    ensures { segment.new ≡ spec.put_at place bytes.now segment.old }
{
    segment[place..place + bytes.len()].copy_from_slice(bytes);
}

/// The segment with which a call begins, in bytes of its own.
fn prepare(plugin: &[u8], request: &Request, bytes: &[u8], before: &[u8], segment: &mut [u8])
    requires size { length segment.old ≡ 4096 }
    requires before { length before.now ≡ 4096 }
    requires few { length bytes.now ≤ 512 }
    ensures { segment.new ≡ first_segment plugin.now request.now bytes.now before.now }
{
    if request.fresh == 0 {
        segment.copy_from_slice(before);
    } else {
        fill(segment, body(plugin));
    }
    put_at(segment, FED_AT, bytes);
}

/// The machine with which a call begins.
fn first(request: &Request) -> Machine
    ensures { (segment : List ℕ) → machine_of result segment
        ≡ first_machine (segment_base 0)
        (request.now.r0 ∷ request.now.r1 ∷ request.now.r2 ∷ request.now.r3 ∷ [])
        (by_place segment) }
{
    let regs = [
        request.r0, request.r1, request.r2, request.r3, 0, 0, 0, 0, 0, 0, 0, 0, 0, 0, 0, BASE,
    ];
    Machine { regs, pc: 0 }
}

/// What a call keeps beside the segment, with no record.
fn keep(call: &mut Call, request: &Request, bytes: &[u8])
    requires { length bytes.now ≤ 512 }
    ensures frame { (segment : List ℕ) →
        frame_with segment call.new ≡ first_frame request.now bytes.now segment }
    ensures records { records_of call.new.log ≡ [] }
{
    call.number = request.number;
    call.point = request.point;
    call.fed = bytes.len() as u32;
    call.limit = request.limit;
    call.log.count = 0;
}

/// A call begins that is asked for as it must be. It runs in bytes of its own: if it is dropped, the
/// caller's segment stays as it is.
fn begin_asked(
    plugin: &[u8],
    call: &mut Call,
    request: &Request,
    bytes: &[u8],
    segment: &mut [u8],
    table: &mut [Word],
) -> Answer
    requires size { length segment.old ≡ 4096 }
    requires few { length bytes.now ≤ 512 }
    ensures { found_in result call.new segment.new table.new
        ≡ call_says plugin.now request.now bytes.now segment.old table.old }
{
    keep(call, request, bytes);
    prepare(plugin, request, bytes, segment, &mut call.segment);
    run_apart(plugin, call, first(request), request.limit, segment, table)
}

/// Whether a call is asked for as it must be.
fn is_call(request: &Request, bytes: &[u8]) -> bool
    ensures { result ≡ spec.is_call request.now bytes.now }
{
    request.number != 0 && request.point <= 15 && bytes.len() <= MOST_BYTES
}

/// Calls a plug-in: its code runs from its first instruction on, with r0 to r3 as the request says,
/// over this segment of the caller's, until it returns, misbehaves, or asks the host. If the request
/// isn't as it must be (its number 0, its point above 15, more than 512 bytes), nothing is done.
///
/// If it is dropped, segment and table are as they were before, to the bit.
pub fn begin(
    plugin: &[u8],
    call: &mut Call,
    request: &Request,
    bytes: &[u8],
    segment: &mut [u8; SEGMENT],
    table: &mut [Word],
) -> Answer
    ensures says { spec.is_call request.now bytes.now ≡ true →
        found_in result call.new segment.new table.new
        ≡ call_says plugin.now request.now bytes.now segment.old table.old }
    ensures misused { spec.is_call request.now bytes.now ≡ false →
        found_in result call.new segment.new table.new
        ≡ found_in MISUSED_ANSWER call.old segment.old table.old }
    ensures call { spec.is_call request.now bytes.now ≡ false → call.new ≡ call.old }
    ensures segment { is_drop result.kind ≡ true → segment.new ≡ segment.old }
    ensures table { is_drop result.kind ≡ true → table.new ≡ table.old }
    ensures kept_segment { spec.is_call request.now bytes.now ≡ true → call.new.state ≡ 1 →
        call.new.segment ≡ segment.old }
    ensures kept_table { spec.is_call request.now bytes.now ≡ true → call.new.state ≡ 1 →
        undone (records_of call.new.log) table.new ≡ table.old }
    ensures limit { result.steps ≤ request.now.limit }
{
    if !is_call(request, bytes) {
        return plain_answer(MISUSED, 0, 0);
    }
    begin_asked(plugin, call, request, bytes, segment, table)
}

/// Answers a call that waits: with a word (how is 0), which it finds in r0, or with a refusal (how is
/// the cause, `NOT_CALLABLE` or `BAD_ARGUMENT`), by which it is dropped. If the call doesn't wait, or
/// how is none of these, nothing is done.
pub fn resume(
    plugin: &[u8],
    call: &mut Call,
    how: u32,
    word: u32,
    segment: &mut [u8; SEGMENT],
    table: &mut [Word],
) -> Answer
    ensures says { spec.is_resumable call.old how ≡ true →
        found_in result call.new segment.new table.new
        ≡ resumed plugin.now (pause_in call.old segment.old) how word table.old }
    ensures misused { spec.is_resumable call.old how ≡ false →
        found_in result call.new segment.new table.new
        ≡ found_in MISUSED_ANSWER call.old segment.old table.old }
    ensures call { spec.is_resumable call.old how ≡ false → call.new ≡ call.old }
    ensures segment { is_drop result.kind ≡ true → segment.new ≡ call.old.segment }
    ensures table { is_drop result.kind ≡ true →
        table.new ≡ undone (records_of call.old.log) table.old }
    ensures kept_segment { call.new.state ≡ 1 → call.new.segment ≡ call.old.segment }
    ensures kept_table { call.new.state ≡ 1 → undone (records_of call.new.log) table.new
        ≡ undone (records_of call.old.log) table.old }
    ensures limit { result.steps ≤ call.old.limit }
{
    if !is_resumable(call, how) {
        return plain_answer(MISUSED, 0, 0);
    }
    let mut machine = call.machine;
    if how == 0 {
        machine.set_r0(word);
        let left = call.left;
        return run_on(plugin, call, machine, left, segment, table);
    }
    let (left, id) = (call.left, call.id);
    undo_call(call, &machine, left, how, id, segment, table)
}

/// Whether a call waits, and an answer is one that there is.
fn is_resumable(call: &Call, how: u32) -> bool
    ensures { result ≡ spec.is_resumable call.now how }
{
    call.state == 1 && (how == 0 || 3 <= how && how <= 4)
}
