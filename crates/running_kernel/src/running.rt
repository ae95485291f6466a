//! The running kernel, and how it begins.

ghost use Rattle.std.specs.Prelude.{◌≡◌, [], IfOk, replicate, ℕ};
ghost use Rattle.kernel_model.specs.Sound.{ImagesAreLoaded};
ghost use Rattle.call_pieces.specs.Stores.{objects_of};
ghost use Rattle.graft_levels.specs.Slots.{table_of};
ghost use Rattle.running_kernel.specs.Views.{flight_of, no_flight, IsRunning, IsQuiet};

use crate::order::Order;
use crate::slots::Slot;
use call_pieces::{Calls, Policy, Store, Work};
use fixed_room::Room;
use graft_levels::{Chain, Images, Levels, UndoStack};
use kernel_data::{NoMemory, PROCESSES};
use lock_table::LockTable;
use std::alloc::Global;
use std::marker::PhantomData;

/// A call in flight.
#[derive(Drop)]
pub struct InFlight {
    /// The number of the event that began it.
    pub number: u32,
    /// Where it stands.
    pub work: Work,
}

/// What a process has in flight.
#[derive(Drop)]
pub struct Flight {
    /// Its call, if it has one.
    pub call: Slot,
    /// The levels of its call, if that is in a graft.
    pub chain: Chain,
}

/// A kernel over a table of calls, with all that is in flight. The store has what all calls have
/// done. What always holds of its parts together is `IsRunning`, which each call asks for.
#[derive(Drop)]
pub struct Running<C: Calls, B: Policy> {
    /// One value for each object.
    pub store: Store<B>,
    /// How many ticks there were.
    pub clock: u32,
    /// The images that are loaded.
    pub images: Images,
    /// What each level of each call holds of the objects.
    pub locks: LockTable,
    /// What each process has in flight, by its number.
    pub calls: Room<Flight>,
    /// The order of waiting.
    pub order: Order,
    pub(crate) table: PhantomData<C>,
}

/// No call, and no level.
fn no_flight(alloc: Global) -> Result<Flight, NoMemory>
    ensures { IfOk result (λ f. f ≡ no_flight) }
{
    let undo = UndoStack::new(alloc)?;
    Ok(Flight {
        call: Slot::empty(),
        chain: Chain {
            levels: Levels::new(),
            undo,
        },
    })
}

/// So many processes without a call.
fn no_flights(alloc: Global, count: usize) -> Result<Room<Flight>, NoMemory>
    ensures { IfOk result (λ v. v.items ≡ replicate count no_flight) }
{
    let Ok(mut flights) = Room::with_capacity(alloc, count) else {
        return Err(NoMemory);
    };
    for _ in 0..count {
        let flight = no_flight(alloc)?;
        flights.push(flight);
    }
    Ok(flights)
}

impl<C: Calls, B: Policy> Running<C, B> {
    /// A kernel over this store with these images, in which no call is in flight. Takes all the
    /// memory that it ever does.
    pub fn new(alloc: Global, store: Store<B>, images: Images) -> Result<Running<C, B>, NoMemory>
        requires loaded { ImagesAreLoaded (table_of images) (objects_of store).accounts }
        ensures store { IfOk result (λ x. x.store ≡ store) }
        ensures images { IfOk result (λ x. x.images ≡ images) }
        ensures clock { IfOk result (λ x. x.clock ≡ 0) }
        ensures order { IfOk result (λ x. x.order ≡ []) }
        ensures calls { IfOk result (λ x. (p : ℕ) → flight_of x.calls.items p ≡ no_flight) }
        ensures quiet { IfOk result (λ x. IsQuiet x) }
        ensures running { IfOk result (λ x. IsRunning x) }
    {
        let Ok(locks) = LockTable::new(alloc) else {
            return Err(NoMemory);
        };
        match no_flights(alloc, PROCESSES) {
            Ok(calls) => Ok(Running {
                store,
                clock: 0,
                images,
                locks,
                calls,
                order: Order::new(),
                table: PhantomData,
            }),
            Err(_) => Err(NoMemory),
        }
    }
}
