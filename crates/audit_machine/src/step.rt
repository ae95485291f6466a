//! One instruction.

ghost use Rattle.std.specs.Prelude.{◌≡◌, ◌≤◌, ◌<◌, ◌+◌, ◌^◌, ℕ, Some, None, cond, length, true, false};
ghost use Rattle.graft_code.specs.Objects.{at};
ghost use Rattle.graft_code.specs.Machine.{seg_step, exec, segment_place, load, store, word};
ghost use Rattle.graft_code.specs.Machine as model;
ghost use Rattle.audit_table.specs.Tables.{by_place};
ghost use Rattle.audit_machine.specs.Machine.{machine_of, done_of, goes_on};

use crate::{Done, Machine};
use graft_code::{Instr, Op};

impl Machine {
    /// A register.
    fn reg(&self, i: u8) -> u32
        ensures { result ≡ by_place self.now.regs i }
    {
        self.regs[i as usize]
    }

    /// A register gets a value, and the next instruction follows.
    fn set(&mut self, a: u8, v: u32) -> Done
        requires { self.old.pc + 1 < 2 ^ 32 }
        ensures went { result ≡ Done.Went }
        ensures machine { machine_of self.new ≡ record (machine_of self.old) {
          regs = at a (word v) (by_place self.old.regs);
          pc = self.old.pc + 1;
        } }
    {
        self.regs[a as usize] = v;
        self.pc += 1;
        Done::Went
    }

    /// A register gets a quotient, if there is one.
    fn set_quotient(&mut self, a: u8, v: Option<u32>) -> Done
        requires { self.old.pc + 1 < 2 ^ 32 }
        ensures none { v ≡ None → result ≡ Done.DividedByZero }
        ensures same { v ≡ None → self.new ≡ self.old }
        ensures went { (x : ℕ) → v ≡ Some x → result ≡ Done.Went }
        ensures machine { (x : ℕ) → v ≡ Some x → machine_of self.new ≡ record (machine_of self.old) {
          regs = at a (word x) (by_place self.old.regs);
          pc = self.old.pc + 1;
        } }
    {
        match v {
            Some(x) => self.set(a, x),
            None => Done::DividedByZero,
        }
    }

    /// The next instruction follows.
    fn next(&mut self) -> Done
        requires { self.old.pc + 1 < 2 ^ 32 }
        ensures went { result ≡ Done.Went }
        ensures value { self.new ≡ record self.old { pc = self.old.pc + 1 } }
    {
        self.pc += 1;
        Done::Went
    }

    /// Another instruction follows, or the next one.
    fn jump_if(&mut self, taken: bool, to: u32) -> Done
        requires { self.old.pc + 1 < 2 ^ 32 }
        ensures went { result ≡ Done.Went }
        ensures value { self.new ≡ record self.old { pc = cond taken to (self.old.pc + 1) } }
    {
        self.pc = if taken { to } else { self.pc + 1 };
        Done::Went
    }

    /// An id is called; the next instruction follows.
    fn call(&mut self, id: u32) -> Done
        requires { self.old.pc + 1 < 2 ^ 32 }
        ensures called { result ≡ Done.Called id }
        ensures value { self.new ≡ record self.old { pc = self.old.pc + 1 } }
    {
        self.pc += 1;
        Done::Called(id)
    }

    /// Where in the segment an address is.
    fn place(&self, a: u32) -> Option<usize>
        ensures { result ≡ segment_place (machine_of self.now) model.Byte a }
    {
        let base = self.regs[15];
        if base <= a && u64::from(a) < u64::from(base) + 4096 {
            Some((a - base) as usize)
        } else {
            None
        }
    }

    /// A register gets a word of the segment, or the address is outside.
    fn load_word(&mut self, a: u8, at: u32) -> Done
        requires { self.old.pc + 1 < 2 ^ 32 }
        ensures done { model.reads (machine_of self.old) model.Word a
            (segment_place (machine_of self.old) model.Word at) ≡ done_of result (machine_of self.new) }
        ensures ended { goes_on result ≡ false → self.new ≡ self.old }
        ensures called { (id : ℕ) → result ≡ Done.Called id → self.new.regs ≡ self.old.regs }
    {
        match self.place(at / 4 * 4) {
            Some(i) => {
                let v = word_at(&self.memory, i);
                self.set(a, v)
            }
            None => Done::Outside,
        }
    }

    /// A register gets a byte of the segment, or the address is outside.
    fn load_byte(&mut self, a: u8, at: u32) -> Done
        requires { self.old.pc + 1 < 2 ^ 32 }
        ensures done { model.reads (machine_of self.old) model.Byte a
            (segment_place (machine_of self.old) model.Byte at) ≡ done_of result (machine_of self.new) }
        ensures ended { goes_on result ≡ false → self.new ≡ self.old }
        ensures called { (id : ℕ) → result ≡ Done.Called id → self.new.regs ≡ self.old.regs }
    {
        match self.place(at) {
            Some(i) => {
                let v = u32::from(self.memory[i]);
                self.set(a, v)
            }
            None => Done::Outside,
        }
    }

    /// A place of the segment gets a word.
    fn write_word(&mut self, i: usize, v: u32)
        requires { i + 3 < length self.old.memory.items }
        ensures machine { machine_of self.new ≡ record (machine_of self.old) {
          memory = store model.Word (by_place self.old.memory.items) i v;
        } }
        ensures pc { self.new.pc ≡ self.old.pc }
    {
        put_word(&mut self.memory, i, v);
    }

    /// A word of the segment gets a value, or the address is outside.
    fn store_word(&mut self, at: u32, v: u32) -> Done
        requires { self.old.pc + 1 < 2 ^ 32 }
        ensures done { model.writes (machine_of self.old) model.Word v
            (segment_place (machine_of self.old) model.Word at) ≡ done_of result (machine_of self.new) }
        ensures ended { goes_on result ≡ false → self.new ≡ self.old }
        ensures called { (id : ℕ) → result ≡ Done.Called id → self.new.regs ≡ self.old.regs }
    {
        match self.place(at / 4 * 4) {
            Some(i) => {
                self.write_word(i, v);
                self.next()
            }
            None => Done::Outside,
        }
    }

    /// A byte of the segment gets a value's low byte, or the address is outside.
    fn store_byte(&mut self, at: u32, v: u32) -> Done
        requires { self.old.pc + 1 < 2 ^ 32 }
        ensures done { model.writes (machine_of self.old) model.Byte v
            (segment_place (machine_of self.old) model.Byte at) ≡ done_of result (machine_of self.new) }
        ensures ended { goes_on result ≡ false → self.new ≡ self.old }
        ensures called { (id : ℕ) → result ≡ Done.Called id → self.new.regs ≡ self.old.regs }
    {
        match self.place(at) {
            Some(i) => {
                put_byte(&mut self.memory, i, (v % 256) as u8);
                self.next()
            }
            None => Done::Outside,
        }
    }

    /// An instruction, its fields by name.
    fn perform(&mut self, i: &Instr) -> Done
        requires { self.old.pc + 1 < 2 ^ 32 }
        ensures done { exec segment_place i.now.op i.now.a i.now.b i.now.c i.now.imm
            (machine_of self.old) ≡ done_of result (machine_of self.new) }
        ensures ended { goes_on result ≡ false → self.new ≡ self.old }
        ensures called { (id : ℕ) → result ≡ Done.Called id → self.new.regs ≡ self.old.regs }
    {
        let a = self.reg(i.a);
        let b = self.reg(i.b);
        let c = self.reg(i.c);
        match i.op {
            Op::Li => self.set(i.a, i.imm),
            Op::Mov => self.set(i.a, b),
            Op::Add => self.set(i.a, b.wrapping_add(c)),
            Op::Sub => self.set(i.a, b.wrapping_sub(c)),
            Op::Mul => self.set(i.a, b.wrapping_mul(c)),
            Op::And => self.set(i.a, b & c),
            Op::Or => self.set(i.a, b | c),
            Op::Xor => self.set(i.a, b ^ c),
            Op::Shl => self.set(i.a, b.wrapping_shl(c)),
            Op::Shr => self.set(i.a, b.wrapping_shr(c)),
            Op::Divu => self.set_quotient(i.a, b.checked_div(c)),
            Op::Remu => self.set_quotient(i.a, b.checked_rem(c)),
            Op::Sltu => self.set(i.a, u32::from(b < c)),
            Op::Addi => self.set(i.a, b.wrapping_add(i.imm)),
            Op::Andi => self.set(i.a, b & i.imm),
            Op::Ldw => self.load_word(i.a, b),
            Op::Ldb => self.load_byte(i.a, b),
            Op::Stw => self.store_word(b, a),
            Op::Stb => self.store_byte(b, a),
            Op::Jmp => self.jump_if(true, i.imm),
            Op::Jz => self.jump_if(a == 0, i.imm),
            Op::Jnz => self.jump_if(a != 0, i.imm),
            Op::Call => self.call(i.imm),
            Op::Callr => self.call(a),
            Op::Trap => Done::Trapped(i.imm),
            Op::Ret => Done::Returned,
        }
    }

    /// The next instruction of the code.
    pub fn step(&mut self, code: &[Instr]) -> Done
        requires { length code.now < 2 ^ 32 }
        ensures done { seg_step code.now (machine_of self.old)
            ≡ done_of result (machine_of self.new) }
        ensures ended { goes_on result ≡ false → self.new ≡ self.old }
        ensures called { (id : ℕ) → result ≡ Done.Called id → self.new.regs ≡ self.old.regs }
    {
        match code.get(self.pc as usize) {
            Some(i) => self.perform(i),
            None => Done::PastEnd,
        }
    }

    /// The id that the next instruction calls, if it is a call.
    pub fn next_call(&self, code: &[Instr]) -> Option<u32>
        ensures { result ≡ model.next_call code.now (machine_of self.now) }
    {
        let i = code.get(self.pc as usize)?;
        match i.op {
            Op::Call => Some(i.imm),
            Op::Callr => Some(self.reg(i.a)),
            _ => None,
        }
    }
}

/// The word at a place.
fn word_at(memory: &[u8], i: usize) -> u32
    requires { i + 3 < length memory.now }
    ensures { result ≡ load model.Word (by_place memory.now) i }
{
    u32::from(memory[i])
        + 256 * u32::from(memory[i + 1])
        + 65536 * u32::from(memory[i + 2])
        + 16777216 * u32::from(memory[i + 3])
}

/// A place gets a byte.
fn put_byte(memory: &mut Vec<u8>, i: usize, v: u8)
    requires { i < length memory.old.items }
    ensures bytes { by_place memory.new.items ≡ at i v (by_place memory.old.items) }
    ensures size { length memory.new.items ≡ length memory.old.items }
{
    memory[i] = v;
}

/// A place gets a word.
fn put_word(memory: &mut Vec<u8>, i: usize, v: u32)
    requires { i + 3 < length memory.old.items }
    ensures bytes { by_place memory.new.items ≡ store model.Word (by_place memory.old.items) i v }
    ensures size { length memory.new.items ≡ length memory.old.items }
{
    put_byte(memory, i, (v % 256) as u8);
    put_byte(memory, i + 1, (v / 256 % 256) as u8);
    put_byte(memory, i + 2, (v / 65536 % 256) as u8);
    put_byte(memory, i + 3, (v / 16777216) as u8);
}
