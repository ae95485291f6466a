//! Calls that only read: of an accessor that changes nothing, and needs an object shared that the
//! level holds already.

ghost use Rattle.std.specs.Prelude.{◌≡◌, ◌<◌, ◌≤◌, true, List, length, Some, IfSome};
ghost use Rattle.kernel_model.specs.declared.Instr.{Instr};
ghost use Rattle.kernel_model.specs.Access.{Access};
ghost use Rattle.kernel_model.specs.Levels.{answered};
ghost use Rattle.kernel_model.specs.Machine.{Machine as Cpu};
ghost use Rattle.kernel_model.specs.Policies.{Victim, lives};
ghost use Rattle.graft_levels.specs.Cpu.{by_place, machine_of};
ghost use Rattle.graft_accessors.specs.Accesses.{answer_of};
ghost use Rattle.kernel_state.specs.Stores.{queue_of};
ghost use Rattle.placed_laws.specs.Stretch.{given as given_by, after_read};
ghost use Rattle.graft_machine.specs.Stretch.{IsCode};
ghost use Rattle.graft_calls.specs.Stretch.{setting_of, GoesQuietly, IsSeated, HasArguments};

use crate::seat::Seat;
use accessor_list::{early, ids};
use box_verify::Instr;
use graft_accessors::{AccessResult, answer};
use graft_levels::answers::arguments;
use graft_levels::{LockTable, Machine};
use graft_machine::Gone;
use kernel_model::{Cause, LAST_CALLABLE, Mode, Object};
use kernel_state::{Policy, Store};

/// The highest number of a cell.
const HIGHEST_CELL: u32 = 3;

/// The highest number of a descriptor.
const HIGHEST_DESCRIPTOR: u32 = 3;

/// The highest number of a frame.
const HIGHEST_FRAME: u32 = 63;

/// The result of an answer with which nothing changes.
fn given(answer: Result<AccessResult, Cause>) -> Option<u32>
    ensures { (a : Access) → answer_of a ≡ answer → result ≡ given_by a }
{
    match answer {
        Ok(answer) => match answer.inverse {
            Some(_) => None,
            None => Some(answer.result),
        },
        Err(_) => None,
    }
}

/// The result of a call with these arguments, where it only reads.
fn look<B: Policy>(
    id: u32,
    arguments: [u32; 3],
    seat: Seat,
    store: &Store<B>,
    locks: &LockTable,
) -> Option<u32>
    requires { lives (queue_of store.now) seat.owner ≡ true }
    ensures { (code : List Instr) (m k : Cpu) → HasArguments arguments m →
        let s = setting_of store.now locks.now code seat in
        IfSome result (λ r. after_read s id m k ≡ Some (answered Victim r 0 k)) }
{
    if id > LAST_CALLABLE {
        return None;
    }
    match early(id, arguments, seat.owner) {
        Ok(Some((object, Mode::Shared))) => {
            if !locks.is_held(seat.place, object) {
                return None;
            }
            given(answer(store, id, arguments, seat.owner))
        }
        _ => None,
    }
}

/// The cell of this number of a level's owner, where the level holds it.
#[inline]
fn cell<B: Policy>(number: u32, seat: Seat, store: &Store<B>, locks: &LockTable) -> Option<u32>
    requires { lives (queue_of store.now) seat.owner ≡ true }
    ensures { (code : List Instr) (m k : Cpu) → m.regs 0 ≡ number →
        let s = setting_of store.now locks.now code seat in
        IfSome result (λ r. after_read s 0 m k ≡ Some (answered Victim r 0 k)) }
{
    if number > HIGHEST_CELL {
        return None;
    }
    let number = number as u8;
    if !locks.is_held(seat.place, Object::Cell(seat.owner, number)) {
        return None;
    }
    Some(store.cell(seat.owner, number))
}

/// The nice of a level's owner, where the level holds the queue.
#[inline]
fn nice<B: Policy>(seat: Seat, store: &Store<B>, locks: &LockTable) -> Option<u32>
    requires { lives (queue_of store.now) seat.owner ≡ true }
    ensures { (code : List Instr) (m k : Cpu) →
        let s = setting_of store.now locks.now code seat in
        IfSome result (λ r. after_read s 2 m k ≡ Some (answered Victim r 0 k)) }
{
    if !locks.is_held(seat.place, Object::Queue) {
        return None;
    }
    Some(u32::from(store.nice(seat.owner)))
}

/// The window of the file that is open at this descriptor of a level's owner, where one is and the
/// level holds it.
#[inline]
fn window<B: Policy>(number: u32, seat: Seat, store: &Store<B>, locks: &LockTable) -> Option<u32>
    requires { lives (queue_of store.now) seat.owner ≡ true }
    ensures { (code : List Instr) (m k : Cpu) → m.regs 0 ≡ number →
        let s = setting_of store.now locks.now code seat in
        IfSome result (λ r. after_read s 4 m k ≡ Some (answered Victim r 0 k)) }
{
    if number > HIGHEST_DESCRIPTOR {
        return None;
    }
    let number = number as u8;
    if !locks.is_held(seat.place, Object::OpenFile(seat.owner, number)) {
        return None;
    }
    match store.file(seat.owner, number) {
        Some(row) => Some(u32::from(row.window)),
        None => None,
    }
}

/// How many frames a level's owner has, where the level holds the cache.
#[inline]
fn frames<B: Policy>(seat: Seat, store: &Store<B>, locks: &LockTable) -> Option<u32>
    requires { lives (queue_of store.now) seat.owner ≡ true }
    ensures { (code : List Instr) (m k : Cpu) →
        let s = setting_of store.now locks.now code seat in
        IfSome result (λ r. after_read s 6 m k ≡ Some (answered Victim r 0 k)) }
{
    if !locks.is_held(seat.place, Object::Cache) {
        return None;
    }
    Some(store.owned_count(seat.owner))
}

/// This one of the frames of a level's owner, oldest first, where it has so many and the level
/// holds the cache.
#[inline]
fn frame<B: Policy>(number: u32, seat: Seat, store: &Store<B>, locks: &LockTable) -> Option<u32>
    requires { lives (queue_of store.now) seat.owner ≡ true }
    ensures { (code : List Instr) (m k : Cpu) → m.regs 0 ≡ number →
        let s = setting_of store.now locks.now code seat in
        IfSome result (λ r. after_read s 7 m k ≡ Some (answered Victim r 0 k)) }
{
    if !locks.is_held(seat.place, Object::Cache) {
        return None;
    }
    match store.owned_frame(seat.owner, number) {
        Some(f) => Some(u32::from(f)),
        None => None,
    }
}

/// The block of a frame, where it is of a level's owner and the level holds the cache.
#[inline]
fn block<B: Policy>(f: u32, seat: Seat, store: &Store<B>, locks: &LockTable) -> Option<u32>
    requires { lives (queue_of store.now) seat.owner ≡ true }
    ensures { (code : List Instr) (m k : Cpu) → m.regs 0 ≡ f →
        let s = setting_of store.now locks.now code seat in
        IfSome result (λ r. after_read s 8 m k ≡ Some (answered Victim r 0 k)) }
{
    if f > HIGHEST_FRAME || !locks.is_held(seat.place, Object::Cache) {
        return None;
    }
    match store.cache.held(f as u8) {
        Some(row) if row.owner == seat.owner => Some(row.block),
        _ => None,
    }
}

/// The result of a call of a machine, where it only reads.
// It stands where it is called, so that the machine needs no place in memory.
#[inline(always)]
fn read<B: Policy>(
    id: u32,
    cpu: &Machine,
    seat: Seat,
    store: &Store<B>,
    locks: &LockTable,
) -> Option<u32>
    requires { lives (queue_of store.now) seat.owner ≡ true }
    ensures { (code : List Instr) (m k : Cpu) → m.regs ≡ by_place cpu.now.regs →
        let s = setting_of store.now locks.now code seat in
        IfSome result (λ r. after_read s id m k ≡ Some (answered Victim r 0 k)) }
{
    match id {
        ids::CELL_GET => cell(cpu.reg(0), seat, store, locks),
        ids::NICE_GET => nice(seat, store, locks),
        ids::WINDOW_GET => window(cpu.reg(0), seat, store, locks),
        ids::FRAMES_MINE => frames(seat, store, locks),
        ids::FRAME_AT => frame(cpu.reg(0), seat, store, locks),
        ids::FRAME_BLOCK => block(cpu.reg(0), seat, store, locks),
        _ => look(id, arguments(cpu), seat, store, locks),
    }
}

/// The instruction of a machine at a place, if it is a call that only reads: one, or none.
#[inline(always)]
pub(crate) fn read_on<B: Policy>(
    cpu: &mut Machine,
    pc: usize,
    seat: Seat,
    store: &Store<B>,
    locks: &LockTable,
    code: &[Instr],
) -> Gone
    requires seated { IsSeated store.now code.now seat (record cpu.old { pc = pc }) }
    requires place { pc < length code.now }
    requires code { IsCode code.now }
    ensures most { result.count ≤ 1 }
    ensures place { result.to ≤ 1024 }
    ensures quiet { let s = setting_of store.now locks.now code.now seat in
        GoesQuietly s result.count (machine_of (record cpu.old { pc = pc }) store.now.ram)
        (machine_of (record cpu.new { pc = result.to }) store.now.ram) }
{
    let Some(id) = cpu.call_at(pc, code) else {
        return Gone { to: pc, count: 0 };
    };
    let Some(result) = read(id, cpu, seat, store, locks) else {
        return Gone { to: pc, count: 0 };
    };
    cpu.go_to(pc + 1);
    cpu.set_reg(0, result);
    Gone {
        to: pc + 1,
        count: 1,
    }
}
