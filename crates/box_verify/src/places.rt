//! Where the triples of code stand.

ghost use Rattle.std.specs.Prelude.{◌≡◌, ℕ, ◌^◌, ◌<◌};
ghost use Rattle.graft_code.specs.Boxed as spec;
ghost use Rattle.box_verify.specs.Places.{is_masking};

use gm_isa::{Instr, Op, access_mask};

fn is_reserved(r: u8) -> bool
    ensures { result ≡ spec.is_reserved r }
{
    r == 14 || r == 15
}

/// Whether an instruction is `or r14 r14 r15`.
fn is_second(i: &Instr) -> bool
    ensures { result ≡ spec.is_second i.now }
{
    matches!(i.op, Op::Or) && i.a == 14 && i.b == 14 && i.c == 15
}

/// Whether an instruction is `andi r14 b` with this mask.
fn is_first(mask: u32, i: &Instr) -> bool
    ensures { result ≡ is_masking mask i.now }
{
    matches!(i.op, Op::Andi) && i.a == 14 && !is_reserved(i.b) && i.imm == mask
}

/// Whether three instructions are a triple.
fn is_triple_of(x: &Instr, y: &Instr, z: &Instr) -> bool
    ensures { result ≡ spec.is_triple_of (spec.access_width z.now.op) x.now y.now z.now }
{
    match access_mask(z.op) {
        Some(mask) => is_first(mask, x) && is_second(y) && z.b == 14 && !is_reserved(z.a),
        None => false,
    }
}

/// Whether a triple begins at a place.
pub fn is_triple(code: &[Instr], pc: usize) -> bool
    requires { pc < 2 ^ 32 }
    ensures { result ≡ spec.is_triple code.now pc }
{
    match (code.get(pc), code.get(pc + 1), code.get(pc + 2)) {
        (Some(x), Some(y), Some(z)) => is_triple_of(x, y, z),
        _ => false,
    }
}

/// Whether a place is the second of a triple.
pub fn is_second_place(code: &[Instr], pc: u32) -> bool
    ensures { result ≡ spec.is_second_place code.now pc }
{
    1 <= pc && is_triple(code, pc as usize - 1)
}

/// Whether a place is the third of a triple.
pub fn is_third_place(code: &[Instr], pc: u32) -> bool
    ensures { result ≡ spec.is_third_place code.now pc }
{
    2 <= pc && is_triple(code, pc as usize - 2)
}

/// Whether a place is in a triple.
pub fn is_in_triple(code: &[Instr], pc: u32) -> bool
    ensures { result ≡ spec.is_in_triple code.now pc }
{
    is_triple(code, pc as usize) || is_second_place(code, pc) || is_third_place(code, pc)
}
