//! One instruction of a plug-in, over its segment.

ghost use Rattle.std.specs.Prelude.{◌≡◌, ℕ, ◌+◌, ◌%◌, ◌^◌, ◌<◌, ◌≤◌, List, false, cond, length, None, Some};
ghost use Rattle.std.specs.Prelude.{slice_index, slice_get, IfSome};
ghost use Rattle.graft_code.specs.Objects.{at};
ghost use Rattle.graft_code.specs.Machine.{word, exec, load, store, aligned};
ghost use Rattle.graft_code.specs.Machine as model;
ghost use Rattle.vino_host.specs.HostMachine.{by_place, machine_of, done_of, goes_on, wrapped_place, host_step};
ghost use Rattle.vino_host.specs.HostMachine.{code_in, IsPlaced};
ghost use Rattle.vino_host.specs.HostMachine as spec;

use crate::{Machine, Outcome};
use graft_code::{Instr, Op};

/// The operation of a number; one that is none traps.
#[inline(always)]
fn operation(number: u8) -> Op
    ensures { result ≡ spec.operation number }
{
    match number {
        1 => Op::Li,
        2 => Op::Mov,
        3 => Op::Add,
        4 => Op::Sub,
        5 => Op::Mul,
        6 => Op::And,
        7 => Op::Or,
        8 => Op::Xor,
        9 => Op::Shl,
        10 => Op::Shr,
        11 => Op::Divu,
        12 => Op::Remu,
        13 => Op::Sltu,
        14 => Op::Addi,
        15 => Op::Andi,
        16 => Op::Ldw,
        17 => Op::Stw,
        18 => Op::Ldb,
        19 => Op::Stb,
        20 => Op::Jmp,
        21 => Op::Jz,
        22 => Op::Jnz,
        23 => Op::Call,
        24 => Op::Callr,
        26 => Op::Ret,
        _ => Op::Trap,
    }
}

/// The instruction at a place of code, if there is one.
#[inline(always)]
fn fetch(code: &[u8], pc: u32) -> Option<Instr>
    requires { length code.now ≤ 8192 }
    ensures instruction { result ≡ slice_get (code_in code.now) pc }
    ensures within { IfSome result (λ i. IsPlaced pc i) }
{
    let at = 8 * pc as usize;
    match code.get(at..at + 8) {
        Some(w) => Some(Instr {
            op: operation(w[0]),
            a: w[1] % 16,
            b: w[2] % 16,
            c: w[3] % 16,
            imm: u32::from_le_bytes([w[4], w[5], w[6], w[7]]),
        }),
        None => None,
    }
}

/// The word at a place.
#[inline(always)]
fn word_at(segment: &[u8], i: usize) -> u32
    requires { i + 3 < length segment.now }
    ensures { result ≡ load model.Word (by_place segment.now) i }
{
    u32::from_le_bytes([segment[i], segment[i + 1], segment[i + 2], segment[i + 3]])
}

/// A place gets a byte.
#[inline(always)]
fn put_byte(segment: &mut [u8], i: usize, v: u8)
    requires { i < length segment.old }
    ensures { by_place segment.new ≡ at i v (by_place segment.old) }
{
    segment[i] = v;
}

/// A place gets a word.
#[inline(always)]
fn put_word(segment: &mut [u8], i: usize, v: u32)
    requires { i + 3 < length segment.old }
    ensures { by_place segment.new ≡ store model.Word (by_place segment.old) i v }
{
    put_byte(segment, i, (v % 256) as u8);
    put_byte(segment, i + 1, (v / 256 % 256) as u8);
    put_byte(segment, i + 2, (v / 65536 % 256) as u8);
    put_byte(segment, i + 3, (v / 16777216) as u8);
}

/// The word at an address.
#[inline(always)]
fn load_word(segment: &[u8], a: u32) -> u32
    requires { length segment.now ≡ 4096 }
    ensures { result ≡ load model.Word (by_place segment.now) (aligned model.Word (a % 4096)) }
{
    word_at(segment, (a % 4096 / 4 * 4) as usize)
}

/// The byte at an address.
#[inline(always)]
fn load_byte(segment: &[u8], a: u32) -> u32
    requires { length segment.now ≡ 4096 }
    ensures { result ≡ load model.Byte (by_place segment.now) (aligned model.Byte (a % 4096)) }
{
    u32::from(segment[(a % 4096) as usize])
}

/// Puts a word at an address.
#[inline(always)]
fn store_word(segment: &mut [u8], a: u32, v: u32)
    requires { length segment.old ≡ 4096 }
    ensures { by_place segment.new
        ≡ store model.Word (by_place segment.old) (aligned model.Word (a % 4096)) v }
{
    put_word(segment, (a % 4096 / 4 * 4) as usize, v);
}

/// Puts the low byte of a value at an address.
#[inline(always)]
fn store_byte(segment: &mut [u8], a: u32, v: u32)
    requires { length segment.old ≡ 4096 }
    ensures { by_place segment.new
        ≡ store model.Byte (by_place segment.old) (aligned model.Byte (a % 4096)) v }
{
    put_byte(segment, (a % 4096) as usize, (v % 256) as u8);
}

impl Machine {
    /// A register.
    #[inline(always)]
    pub(crate) fn reg(&self, i: u8) -> u32
        requires { i < 16 }
        ensures { result ≡ slice_index self.now.regs i }
    {
        self.regs[i as usize]
    }

    /// Puts a word in r0.
    pub(crate) fn set_r0(&mut self, v: u32)
        ensures { (segment : List ℕ) → machine_of self.new segment
            ≡ record (machine_of self.old segment) { regs = at 0 v (by_place self.old.regs) } }
    {
        self.regs[0] = v;
    }

    /// Puts a value in a register, and goes on.
    #[inline(always)]
    fn put(&mut self, a: u8, v: u32) -> Outcome
        requires register { a < 16 }
        requires place { self.old.pc + 1 < 2 ^ 32 }
        ensures went { result ≡ Outcome.Went }
        ensures regs { by_place self.new.regs ≡ at a v (by_place self.old.regs) }
        ensures word { by_place self.new.regs ≡ at a (word v) (by_place self.old.regs) }
        ensures pc { self.new.pc ≡ self.old.pc + 1 }
    {
        let next = self.pc + 1;
        self.regs[a as usize] = v;
        self.pc = next;
        Outcome::Went
    }

    /// Puts a value in a register and goes on, or tells that there is none.
    #[inline(always)]
    fn put_quotient(&mut self, a: u8, v: Option<u32>) -> Outcome
        requires register { a < 16 }
        requires place { self.old.pc + 1 < 2 ^ 32 }
        ensures none { v ≡ None → result ≡ Outcome.DividedByZero }
        ensures same { v ≡ None → self.new ≡ self.old }
        ensures went { (x : ℕ) → v ≡ Some x → result ≡ Outcome.Went }
        ensures word { (x : ℕ) → v ≡ Some x →
            by_place self.new.regs ≡ at a (word x) (by_place self.old.regs) }
        ensures pc { (x : ℕ) → v ≡ Some x → self.new.pc ≡ self.old.pc + 1 }
    {
        match v {
            Some(x) => self.put(a, x),
            None => Outcome::DividedByZero,
        }
    }

    /// Goes on.
    #[inline(always)]
    fn next(&mut self) -> Outcome
        requires { self.old.pc + 1 < 2 ^ 32 }
        ensures went { result ≡ Outcome.Went }
        ensures value { self.new ≡ record self.old { pc = self.old.pc + 1 } }
    {
        self.pc += 1;
        Outcome::Went
    }

    /// Goes to another place, or on.
    #[inline(always)]
    fn jump_if(&mut self, taken: bool, to: u32) -> Outcome
        requires { self.old.pc + 1 < 2 ^ 32 }
        ensures went { result ≡ Outcome.Went }
        ensures value { self.new ≡ record self.old { pc = cond taken to (self.old.pc + 1) } }
    {
        self.pc = if taken { to } else { self.pc + 1 };
        Outcome::Went
    }

    /// Tells of a call, behind which code goes on.
    #[inline(always)]
    fn call(&mut self, id: u32) -> Outcome
        requires { self.old.pc + 1 < 2 ^ 32 }
        ensures called { result ≡ Outcome.Called id }
        ensures value { self.new ≡ record self.old { pc = self.old.pc + 1 } }
    {
        self.pc += 1;
        Outcome::Called(id)
    }

    /// Carries out an instruction, its fields by name.
    #[inline(always)]
    fn perform(&mut self, segment: &mut [u8], i: &Instr) -> Outcome
        requires size { length segment.old ≡ 4096 }
        requires a { i.now.a < 16 }
        requires b { i.now.b < 16 }
        requires c { i.now.c < 16 }
        requires place { self.old.pc + 1 < 2 ^ 32 }
        ensures done { exec wrapped_place i.now.op i.now.a i.now.b i.now.c i.now.imm
            (machine_of self.old segment.old) ≡ done_of result (machine_of self.new segment.new) }
        ensures ended { goes_on result ≡ false → self.new ≡ self.old }
        ensures memory { goes_on result ≡ false → segment.new ≡ segment.old }
    {
        let a = self.reg(i.a);
        let b = self.reg(i.b);
        let c = self.reg(i.c);
        match i.op {
            Op::Li => self.put(i.a, i.imm),
            Op::Mov => self.put(i.a, b),
            Op::Add => self.put(i.a, b.wrapping_add(c)),
            Op::Sub => self.put(i.a, b.wrapping_sub(c)),
            Op::Mul => self.put(i.a, b.wrapping_mul(c)),
            Op::And => self.put(i.a, b & c),
            Op::Or => self.put(i.a, b | c),
            Op::Xor => self.put(i.a, b ^ c),
            Op::Shl => self.put(i.a, b.wrapping_shl(c)),
            Op::Shr => self.put(i.a, b.wrapping_shr(c)),
            Op::Divu => self.put_quotient(i.a, b.checked_div(c)),
            Op::Remu => self.put_quotient(i.a, b.checked_rem(c)),
            Op::Sltu => self.put(i.a, u32::from(b < c)),
            Op::Addi => self.put(i.a, b.wrapping_add(i.imm)),
            Op::Andi => self.put(i.a, b & i.imm),
            Op::Ldw => self.put(i.a, load_word(segment, b)),
            Op::Ldb => self.put(i.a, load_byte(segment, b)),
            Op::Stw => {
                store_word(segment, b, a);
                self.next()
            }
            Op::Stb => {
                store_byte(segment, b, a);
                self.next()
            }
            Op::Jmp => self.jump_if(true, i.imm),
            Op::Jz => self.jump_if(a == 0, i.imm),
            Op::Jnz => self.jump_if(a != 0, i.imm),
            Op::Call => self.call(i.imm),
            Op::Callr => self.call(a),
            Op::Trap => Outcome::Trapped(i.imm),
            Op::Ret => Outcome::Returned,
        }
    }

    /// Carries out the next instruction of code.
    #[inline(always)]
    pub(crate) fn step(&mut self, segment: &mut [u8], code: &[u8]) -> Outcome
        requires size { length segment.old ≡ 4096 }
        requires few { length code.now ≤ 8192 }
        ensures done { host_step (code_in code.now) (machine_of self.old segment.old)
            ≡ done_of result (machine_of self.new segment.new) }
        ensures ended { goes_on result ≡ false → self.new ≡ self.old }
        ensures memory { goes_on result ≡ false → segment.new ≡ segment.old }
    {
        match fetch(code, self.pc) {
            Some(i) => self.perform(segment, &i),
            None => Outcome::PastEnd,
        }
    }
}
