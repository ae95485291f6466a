//! Code of grafts: instructions, the machine, boxed code and images.
#![tactic(auto)]

pub use kernel_data::{Instr, NoMemory, Op};

/// The keys under which images are sealed: the first, whose number is 0, and the second, number 1,
/// if one was given.
#[derive(Clone, Copy)]
pub struct Keys {
    pub first: [u8; 32],
    pub second: Option<[u8; 32]>,
}

/// Which fields of an instruction an operation names. A field that isn't named is zero.
#[derive(Clone, Copy, PartialEq, Eq, Debug)]
pub struct Fields {
    pub a: bool,
    pub b: bool,
    pub c: bool,
    pub imm: bool,
}

/// Why eight bytes aren't an instruction (docs/FORMATS.md): the first byte isn't the number of an
/// operation, or a field that is named isn't a register, or one that isn't named isn't zero.
#[derive(Clone, Copy, PartialEq, Eq, Debug)]
pub enum IsaFault {
    BadOp,
    BadField,
}
