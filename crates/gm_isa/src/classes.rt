//! What an instruction does with registers, memory and the program counter, as far as the sandbox
//! asks.

ghost use Rattle.std.specs.Prelude.{◌≡◌, ℕ, ◌≤◌, length, option_map};
ghost use Rattle.graft_code.specs.Instructions as spec;
ghost use Rattle.graft_code.specs.Boxed as boxed;
ghost use Rattle.graft_code.specs.Machine.{mask};

use crate::{Instr, Op, form_of};

/// Whether an instruction names a register.
pub fn names_register(r: u8, i: &Instr) -> bool
    ensures { result ≡ spec.names_register r i.now }
{
    let form = form_of(i.op);
    form.a && i.a == r || form.b && i.b == r || form.c && i.c == r
}

/// The mask that an access puts on its address in boxed code: 0xffc for a word, 0xfff for a byte.
/// `None` where the operation is no access.
pub fn access_mask(op: Op) -> Option<u32>
    ensures { result ≡ option_map mask (boxed.access_width op) }
{
    match op {
        Op::Ldw | Op::Stw => Some(0xffc),
        Op::Ldb | Op::Stb => Some(0xfff),
        _ => None,
    }
}

/// Whether an operation has a jump's target.
pub fn is_jump(op: Op) -> bool
    ensures { result ≡ boxed.is_jump op }
{
    matches!(op, Op::Jmp | Op::Jz | Op::Jnz)
}

/// Whether an operation is one after which no instruction follows: `ret`, `jmp` or `trap`.
pub fn is_end(op: Op) -> bool
    ensures { result ≡ boxed.is_end op }
{
    matches!(op, Op::Ret | Op::Jmp | Op::Trap)
}

/// Whether the last instruction is `ret`, `jmp` or `trap`. Code without instructions has no last
/// one.
pub fn ends_well(code: &[Instr]) -> bool
    ensures { result ≡ boxed.ends_well code.now }
{
    match code.last() {
        Some(i) => is_end(i.op),
        None => false,
    }
}
