//! Both grafts of the generated script.

ghost use Rattle.std.specs.Prelude.{◌≡◌, List, [], ◌∷◌};
ghost use Rattle.script_model.specs.Boxed as boxed;
ghost use Rattle.script_model.specs.Demo as demo;

use script_model::{Instr, Op};

/// An instruction.
fn instr(op: Op, a: u8, b: u8, c: u8, imm: u32) -> Instr
    ensures { result ≡ boxed.instr op a b c imm }
{
    Instr { op, a, b, c, imm }
}

/// Reads ahead what is left of three blocks, or three.
pub fn three() -> [Instr; 8]
    ensures { result ≡ demo.three }
{
    [
        instr(Op::Sub, 4, 2, 0, 0),
        instr(Op::Li, 5, 0, 0, 3),
        instr(Op::Sltu, 6, 4, 5, 0),
        instr(Op::Jnz, 6, 0, 0, 6),
        instr(Op::Mov, 1, 5, 0, 0),
        instr(Op::Ret, 0, 0, 0, 0),
        instr(Op::Mov, 1, 4, 0, 0),
        instr(Op::Ret, 0, 0, 0, 0),
    ]
}

/// Gives the newest frame of its process.
pub fn newest_frame() -> [Instr; 4]
    ensures { result ≡ demo.newest_frame }
{
    [
        instr(Op::Call, 0, 0, 0, 6),
        instr(Op::Addi, 0, 0, 0, 4_294_967_295),
        instr(Op::Call, 0, 0, 0, 7),
        instr(Op::Ret, 0, 0, 0, 0),
    ]
}
