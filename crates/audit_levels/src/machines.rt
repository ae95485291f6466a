//! The machine of a level that begins, and the answers that a machine gets.

ghost use Rattle.std.specs.Prelude.{◌≡◌, ◌+◌, ◌≤◌, ◌<◌, ◌++◌, ℕ, List, IfOk, OnOk, length, slice_index, replicate};
ghost use Rattle.kernel_model.specs.Objects.{at};
ghost use Rattle.kernel_model.specs.Machine as model;
ghost use Rattle.kernel_model.specs.Levels as levels;
ghost use Rattle.kernel_model.specs.Policies.{kind_of, Victim};
ghost use Rattle.audit_table.specs.Tables.{by_place};
ghost use Rattle.audit_machine.specs.Machine.{machine_of};

use audit_machine::{MEMORY_BYTES, Machine};
use audit_table::copy;
use kernel_model::NoMemory;
use std::alloc::Global;

/// Where in a segment the bytes stand that its graft is fed.
const FED_AT: usize = 2048;

/// Registers of 0.
fn zero_registers() -> [u32; 256]
    ensures { (i : ℕ) → by_place result i ≡ 0 }
{
    [0; 256]
}

/// A register gets a value.
fn put_register(regs: &mut [u32; 256], i: u8, v: u32)
    ensures { by_place regs.new ≡ at i v (by_place regs.old) }
{
    regs[i as usize] = v;
}

/// The registers of a level that begins: its arguments, and the base of its segment.
fn first_registers(base: u32, args: [u32; 4]) -> [u32; 256]
    ensures { (memory : ℕ → ℕ) → by_place result ≡ (model.first_machine base args memory).regs }
{
    let mut regs = zero_registers();
    put_register(&mut regs, 0, args[0]);
    put_register(&mut regs, 1, args[1]);
    put_register(&mut regs, 2, args[2]);
    put_register(&mut regs, 3, args[3]);
    put_register(&mut regs, 15, base);
    regs
}

/// Bytes, with zeros behind them up to a size.
fn padded(alloc: Global, bytes: &[u8], size: usize) -> Result<Vec<u8>, NoMemory>
    ensures same { IfOk result (λ v. by_place v.items ≡ by_place bytes.now) }
    ensures size { IfOk result (λ v. size ≤ length v.items) }
{
    let mut own = copy(alloc, bytes)?;
    let whole = size.max(own.len());
    match own.resize(whole, 0) {
        Ok(()) => Ok(own),
        Err(_) => Err(NoMemory),
    }
}

/// A place gets a byte.
fn put_byte(memory: &mut Vec<u8>, i: usize, byte: u8)
    requires { i < length memory.old.items }
    ensures place { by_place memory.new.items ≡ at i byte (by_place memory.old.items) }
    ensures size { length memory.new.items ≡ length memory.old.items }
{
    memory[i] = byte;
}

/// A segment gets the bytes that its graft is fed.
fn feed(memory: &mut Vec<u8>, bytes: &[u8])
    requires { 2048 + length bytes.now ≤ length memory.old.items }
    ensures fed { by_place memory.new.items ≡ model.fed bytes.now (by_place memory.old.items) }
    ensures size { length memory.new.items ≡ length memory.old.items }
{
    for (i, byte) in bytes.iter().enumerate() {
        put_byte(memory, FED_AT + i, *byte);
    }
}

/// The segment of a level that begins: these bytes, zeros behind them, and over them what it is
/// fed.
fn first_memory(alloc: Global, bytes: &[u8], fed: &[u8]) -> Result<Vec<u8>, NoMemory>
    ensures memory { IfOk result (λ v. by_place v.items
        ≡ model.fed fed.now (by_place bytes.now)) }
    ensures whole { IfOk result (λ v. 4100 ≤ length v.items) }
{
    let Some(end) = FED_AT.checked_add(fed.len()) else {
        return Err(NoMemory);
    };
    let mut memory = padded(alloc, bytes, end.max(MEMORY_BYTES))?;
    feed(&mut memory, fed);
    Ok(memory)
}

/// The machine of a level that begins on a segment of these bytes, over which it is fed others.
pub(crate) fn first_machine(
    alloc: Global,
    base: u32,
    args: [u32; 4],
    bytes: &[u8],
    fed: &[u8],
) -> Result<Machine, NoMemory>
    ensures { IfOk result (λ m. machine_of m
        ≡ model.first_machine base args (model.fed fed.now (by_place bytes.now))) }
{
    let memory = first_memory(alloc, bytes, fed)?;
    Ok(Machine {
        regs: first_registers(base, args),
        pc: 0,
        memory,
    })
}

/// The answer of a point that a machine's level asked: r0, and for reading ahead r1 too.
pub(crate) fn answer(machine: &mut Machine, pt: u8, r0: u32, r1: u32)
    ensures { machine_of machine.new
        ≡ levels.answered (kind_of pt) r0 r1 (machine_of machine.old) }
{
    put_register(&mut machine.regs, 0, r0);
    if pt < 4 {
        put_register(&mut machine.regs, 1, r1);
    }
}

/// A result in r0.
pub(crate) fn put_result(machine: &mut Machine, r0: u32)
    ensures { (r1 : ℕ) → machine_of machine.new
        ≡ levels.answered Victim r0 r1 (machine_of machine.old) }
{
    put_register(&mut machine.regs, 0, r0);
}
