//! How an answer goes to the level that asked.

ghost use Rattle.std.specs.Prelude.{◌≡◌, ◌≤◌, ℕ, ◌∷◌, [], List, length, slice_index};
ghost use Rattle.kernel_model.specs.declared.QueueRow.{QueueRow};
ghost use Rattle.kernel_model.specs.Boxed.{IsInside};
ghost use Rattle.kernel_model.specs.declared.Instr.{Instr};
ghost use Rattle.kernel_model.specs.Levels.{answered, answer_innermost};
ghost use Rattle.kernel_model.specs.Locks.{LockTable};
ghost use Rattle.kernel_model.specs.Objects.{Accounts, Things};
ghost use Rattle.kernel_model.specs.Policies.{kind_of};
ghost use Rattle.kernel_model.specs.World.{ImageTable};
ghost use Rattle.undo_calls.specs.UndoLevels.{Logged};
ghost use Rattle.graft_machine.specs.Cpu.{machine_of};
ghost use Rattle.graft_levels.specs.Chains.{levels_in};
ghost use Rattle.graft_levels.specs.Calls.{AreSound, AreInside};

use crate::Levels;
use graft_machine::Machine;

/// The first three registers.
pub fn arguments(machine: &Machine) -> [u32; 3]
    ensures { result ≡ slice_index machine.now.regs 0 ∷ slice_index machine.now.regs 1
        ∷ slice_index machine.now.regs 2 ∷ [] }
{
    [machine.reg(0), machine.reg(1), machine.reg(2)]
}

/// An answer of point pt goes to registers: r0, and for reading ahead r1 too.
pub fn answer(machine: &mut Machine, pt: u8, r0: u32, r1: u32)
    ensures machine { (ram : List ℕ) →
        machine_of machine.new ram ≡ answered (kind_of pt) r0 r1 (machine_of machine.old ram) }
    ensures inside { (code : List Instr) (slot : ℕ) (ram : List ℕ) →
        IsInside code slot (machine_of machine.old ram) →
        IsInside code slot (machine_of machine.new ram) }
{
    machine.set_reg(0, r0);
    if pt < 4 {
        machine.set_reg(1, r1);
    }
}

/// The innermost level, if there is one, gets the answer of point pt.
pub fn give_answer(levels: &mut Levels, pt: u8, r0: u32, r1: u32)
    requires { length levels.old ≤ 4 }
    ensures levels { (p : ℕ) (ram : List ℕ) (t : LockTable) (log : List (List Logged))
        (w : Things) →
        levels_in p ram t levels.new log w
        ≡ answer_innermost pt r0 r1 (levels_in p ram t levels.old log w) }
    ensures count { length levels.new ≡ length levels.old }
    ensures sound { (queue : List QueueRow) → AreSound queue levels.old → AreSound queue levels.new }
    ensures inside { (images : ImageTable) (a : Accounts) (p : ℕ) →
        AreInside images a p levels.old → AreInside images a p levels.new }
{
    if let Some(mut level) = levels.pop() {
        answer(&mut level.machine, pt, r0, r1);
        levels.push(level);
    }
}
