//! The state of a session, seen by calls that only read.

ghost use Rattle.vino_top.specs.Bounds.{IsSessionWithin};
ghost use Rattle.running_kernel.specs.Views.{IsRunning};

use crate::calls::{add_calls, add_holds, add_levels, add_registers, add_undo, add_waiting};
use crate::memory::{add_images, add_kept, add_memory};
use crate::origins::Known;
use crate::places::Places;
use crate::store::{
    add_files, add_frames, add_grafts, add_handlers, add_locks, add_policies, add_processes,
    add_queue, add_use,
};
use graft_points::Policy;
use kernel_data::NoMemory;
use lab_session::OwnSession;
use lab_state::State;
use running_kernel::Running;
use std::alloc::Global;
use vino_base::Disk;
use vino_top::AllCalls;

/// Adds what a kernel's store has.
fn add_store<B: Policy>(
    alloc: Global,
    state: &mut State,
    running: &Running<AllCalls, B>,
    known: &Known,
) -> Result<(), NoMemory> {
    let store = &running.store;
    add_queue(alloc, state, store, running.clock)?;
    add_use(alloc, state, store)?;
    add_waiting(alloc, state, running)?;
    add_processes(alloc, state, store)?;
    add_files(alloc, state, store)?;
    add_grafts(alloc, state, store)?;
    add_policies(alloc, state, store)?;
    add_frames(alloc, state, store)?;
    add_locks(alloc, state, store)?;
    add_handlers(alloc, state, store)?;
    add_images(alloc, state, known, &running.images)
}

/// Adds the calls in flight.
fn add_flights<B: Policy>(
    alloc: Global,
    state: &mut State,
    running: &Running<AllCalls, B>,
    known: &Known,
    places: &Places,
) -> Result<(), NoMemory>
    requires { IsRunning running.now }
{
    add_calls(alloc, state, running, known)?;
    add_holds(alloc, state, running)?;
    add_undo(alloc, state, running)?;
    add_levels(alloc, state, running, places)?;
    add_registers(alloc, state, running)?;
    add_memory(alloc, state, running)?;
    add_kept(alloc, state, &running.store)
}

/// The state of a session. There is none before `boot`.
pub fn state_of<B: Policy, D: Disk + Drop>(
    alloc: Global,
    slow: &OwnSession<B, D>,
    known: &Known,
    places: &Places,
) -> Result<State, NoMemory>
    requires within { IsSessionWithin (D.seen slow.now.disk).size slow.now.session }
{
    let mut state = State::new(alloc);
    if slow.session.booted {
        let running = &slow.session.kernel.running;
        add_store(alloc, &mut state, running, known)?;
        add_flights(alloc, &mut state, running, known, places)?;
    }
    Ok(state)
}
