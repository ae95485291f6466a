//! What a process has in flight, looked at by its number.

ghost use Rattle.std.specs.Prelude.{◌≡◌, ◌<◌, ◌≤◌, option_map, length};
ghost use Rattle.running_kernel.specs.Views.{flight_of};

use crate::running::Flight;

/// What a process has in flight.
pub fn flight(flights: &[Flight], p: u8) -> &Flight
    requires { p < length flights.now }
    ensures { result.now ≡ flight_of flights.now p }
{
    &flights[p as usize]
}

/// The number of a process's call, if it has one.
pub fn number_of(flights: &[Flight], p: u8) -> Option<u32>
    ensures { result ≡ option_map (λ f. f.number) (flight_of flights.now p).call }
{
    match flights.get(p as usize) {
        Some(flight) => match flight.call.get() {
            Some(call) => Some(call.number),
            None => None,
        },
        None => None,
    }
}

/// How many levels a process's call has: none, where it has no call.
pub(crate) fn count_of(flights: &[Flight], p: u8) -> u8
    ensures value { result ≡ length (flight_of flights.now p).chain.levels }
    ensures few { result ≤ 4 }
{
    match flights.get(p as usize) {
        Some(flight) => flight.chain.levels.count(),
        None => 0,
    }
}
