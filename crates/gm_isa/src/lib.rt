//! The instructions of the graft machine and their eight bytes, by the table of operations of
//! docs/FORMATS.md.
#![tactic(auto)]

ghost use Rattle.std.specs.Prelude.{◌≡◌, IsTrue, IfOk};
ghost use Rattle.graft_code.specs.Instructions as spec;
ghost use Rattle.graft_code.specs.Instructions.{row_of, is_register_field, is_imm_field};

mod classes;
pub mod laws;

pub use classes::{access_mask, ends_well, is_end, is_jump, names_register};
pub use graft_code::{Fields, Instr, IsaFault, Op};

const THREE_REGISTERS: Fields = Fields {
    a: true,
    b: true,
    c: true,
    imm: false,
};

const TWO_REGISTERS: Fields = Fields {
    a: true,
    b: true,
    c: false,
    imm: false,
};

const TWO_REGISTERS_AND_IMM: Fields = Fields {
    a: true,
    b: true,
    c: false,
    imm: true,
};

const ONE_REGISTER: Fields = Fields {
    a: true,
    b: false,
    c: false,
    imm: false,
};

const ONE_REGISTER_AND_IMM: Fields = Fields {
    a: true,
    b: false,
    c: false,
    imm: true,
};

const IMM: Fields = Fields {
    a: false,
    b: false,
    c: false,
    imm: true,
};

const NO_FIELD: Fields = Fields {
    a: false,
    b: false,
    c: false,
    imm: false,
};

/// Every operation, in the order of the numbers.
const OPERATIONS: [Op; 26] = [
    Op::Li,
    Op::Mov,
    Op::Add,
    Op::Sub,
    Op::Mul,
    Op::And,
    Op::Or,
    Op::Xor,
    Op::Shl,
    Op::Shr,
    Op::Divu,
    Op::Remu,
    Op::Sltu,
    Op::Addi,
    Op::Andi,
    Op::Ldw,
    Op::Stw,
    Op::Ldb,
    Op::Stb,
    Op::Jmp,
    Op::Jz,
    Op::Jnz,
    Op::Call,
    Op::Callr,
    Op::Trap,
    Op::Ret,
];

/// The number that stands for an operation in the first byte of an instruction.
pub fn number_of(op: Op) -> u8
    ensures { result ≡ (row_of op).number }
{
    op as u8 + 1
}

/// The fields that an operation names.
pub fn form_of(op: Op) -> Fields
    ensures { result ≡ (row_of op).form }
{
    match op {
        Op::Mov | Op::Ldw | Op::Stw | Op::Ldb | Op::Stb => TWO_REGISTERS,
        Op::Addi | Op::Andi => TWO_REGISTERS_AND_IMM,
        Op::Li | Op::Jz | Op::Jnz => ONE_REGISTER_AND_IMM,
        Op::Jmp | Op::Call | Op::Trap => IMM,
        Op::Callr => ONE_REGISTER,
        Op::Ret => NO_FIELD,
        _ => THREE_REGISTERS,
    }
}

/// The mnemonic of an operation.
pub fn name_of(op: Op) -> &'static str
    ensures { result.now ≡ (row_of op).name }
{
    match op {
        Op::Li => "li",
        Op::Mov => "mov",
        Op::Add => "add",
        Op::Sub => "sub",
        Op::Mul => "mul",
        Op::And => "and",
        Op::Or => "or",
        Op::Xor => "xor",
        Op::Shl => "shl",
        Op::Shr => "shr",
        Op::Divu => "divu",
        Op::Remu => "remu",
        Op::Sltu => "sltu",
        Op::Addi => "addi",
        Op::Andi => "andi",
        Op::Ldw => "ldw",
        Op::Stw => "stw",
        Op::Ldb => "ldb",
        Op::Stb => "stb",
        Op::Jmp => "jmp",
        Op::Jz => "jz",
        Op::Jnz => "jnz",
        Op::Call => "call",
        Op::Callr => "callr",
        Op::Trap => "trap",
        Op::Ret => "ret",
    }
}

/// The operation that a number stands for, if it stands for one.
pub fn op_numbered(number: u8) -> Option<Op>
    ensures { result ≡ spec.op_numbered number }
{
    OPERATIONS
        .iter()
        .copied()
        .find(|op| number_of(*op) == number)
}

/// The operation of a mnemonic, if it is one.
pub fn op_named(name: &[u8]) -> Option<Op>
    ensures { result ≡ spec.op_named name.now }
{
    OPERATIONS
        .iter()
        .copied()
        .find(|op| name_of(*op).as_bytes() == name)
}

fn fits_register(named: bool, n: u8) -> bool
    ensures { result ≡ is_register_field named n }
{
    if named { n < 16 } else { n == 0 }
}

fn fits_imm(named: bool, n: u32) -> bool
    ensures { result ≡ is_imm_field named n }
{
    named || n == 0
}

/// Whether the fields of an instruction are as its operation asks: registers below 16, unused
/// fields zero.
pub fn fits(i: &Instr) -> bool
    ensures { result ≡ spec.fits i.now }
{
    let form = form_of(i.op);
    fits_register(form.a, i.a)
        && fits_register(form.b, i.b)
        && fits_register(form.c, i.c)
        && fits_imm(form.imm, i.imm)
}

/// The instruction that eight bytes write. `BadOp` where the first byte is no operation's number,
/// else `BadField` where a register is above 15 or an unused field isn't zero.
pub fn decode(bytes: &[u8; 8]) -> Result<Instr, IsaFault>
    ensures exact { result ≡ spec.decode bytes.now }
    ensures fits { IfOk result (λ i. IsTrue (spec.fits i)) }
{
    let Some(op) = op_numbered(bytes[0]) else {
        return Err(IsaFault::BadOp);
    };
    let i = Instr {
        op,
        a: bytes[1],
        b: bytes[2],
        c: bytes[3],
        imm: u32::from_le_bytes([bytes[4], bytes[5], bytes[6], bytes[7]]),
    };
    if fits(&i) {
        Ok(i)
    } else {
        Err(IsaFault::BadField)
    }
}

/// The eight bytes of an instruction.
pub fn encode(i: &Instr) -> [u8; 8]
    requires { IsTrue (spec.fits i.now) }
    ensures { result ≡ spec.encode i.now }
{
    let [imm0, imm1, imm2, imm3] = i.imm.to_le_bytes();
    [number_of(i.op), i.a, i.b, i.c, imm0, imm1, imm2, imm3]
}
