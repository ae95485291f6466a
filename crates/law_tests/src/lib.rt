//! Tests that call each law over every table of calls at the table of the system calls.
#![tactic(auto)]

#[cfg(test)]
mod fallen;
#[cfg(test)]
mod grafts;
#[cfg(test)]
mod kernels;
#[cfg(test)]
mod places;
#[cfg(test)]
mod runs;
#[cfg(test)]
mod sessions;
