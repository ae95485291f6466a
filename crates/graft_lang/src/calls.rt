//! The code of calls.

ghost use Rattle.std.specs.Prelude.{◌≡◌, ◌+◌, ◌<◌, ◌≤◌, length, IfOk, OnOk};
ghost use Rattle.graft_lang.specs.Writing.{Uses, appended, register_code, WritesArguments};
ghost use Rattle.graft_lang.specs.Writing.{WritesCall};

use crate::variables::Variables;
use crate::writer::{VALUE, Writer, instr, load_number};
use gm_image::Op;
use graft_syntax::{NoMemory, Symbol};

impl<'t, 'a> Writer<'t, 'a> {
    /// Takes the arguments of a call and their end, and tells their number. Their values come to
    /// the slots from `top` on.
    fn arguments(&mut self, names: &Variables, top: u32) -> Result<u32, NoMemory>
        requires { top + length self.old.tokens ≤ 1024 }
        ensures writes { IfOk result
            (λ n. WritesArguments names.now top self.old self.new n) }
        ensures count { IfOk result (λ n. n ≤ length self.old.tokens) }
        ensures uses { OnOk result (Uses 16 0 self.old self.new) }
    {
        if self.takes(Symbol::CloseParenthesis) {
            return Ok(0);
        }
        if self.is_done() {
            return Ok(0);
        }
        self.expression(names, top)?;
        self.put(VALUE, top)?;
        self.takes(Symbol::Comma);
        let others = self.arguments(names, top + 1)?;
        Ok(others + 1)
    }

    /// Loads the register of an argument: from its slot, or with zero where there are fewer
    /// arguments.
    fn load_argument(&mut self, reg: u8, top: u32, count: u32) -> Result<(), NoMemory>
        requires few { reg < 3 }
        requires room { top ≤ 1020 }
        ensures code { OnOk result (self.new ≡ appended (register_code reg top count) self.old) }
        ensures short { OnOk result (length self.new.code ≤ length self.old.code + 2) }
    {
        if u32::from(reg) < count {
            self.fetch(reg, top + u32::from(reg))
        } else {
            self.append(&[load_number(reg, 0)])
        }
    }

    /// Takes the arguments of a callable, which is called, and the semicolon behind them. The
    /// answer goes to the slot `to`.
    pub fn call(&mut self, names: &Variables, top: u32, to: u32, id: u32) -> Result<(), NoMemory>
        requires room { top + length self.old.tokens ≤ 1020 }
        requires to { to ≤ 1024 }
        ensures writes { OnOk result (WritesCall names.now top to id self.old self.new) }
        ensures uses { OnOk result (Uses 16 9 self.old self.new) }
    {
        self.skip();
        let count = self.arguments(names, top)?;
        self.load_argument(0, top, count)?;
        self.load_argument(1, top, count)?;
        self.load_argument(2, top, count)?;
        self.append(&[instr(Op::Call, 0, 0, 0, id)])?;
        self.put(0, to)?;
        self.skip();
        Ok(())
    }
}
