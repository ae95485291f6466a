//! Tests of the kernel's parts that no contract can stand for: that memory is given where there is
//! enough of it, devices that fail at chosen calls, and a real file.
#![tactic(auto)]

#[cfg(test)]
mod compiling;
#[cfg(test)]
mod devices;
#[cfg(test)]
mod files;
#[cfg(test)]
mod filtering;
#[cfg(test)]
mod greatest;
#[cfg(test)]
mod loading;
#[cfg(test)]
mod memory;
