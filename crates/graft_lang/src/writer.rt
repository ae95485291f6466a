//! The writer of code: the tokens that are left, and the instructions so far.

ghost use Rattle.std.specs.Prelude.{◌≡◌, ◌+◌, ◌*◌, ◌<◌, ◌≤◌, ◌↔◌, [], ◌∷◌, length, map, drop};
ghost use Rattle.std.specs.Prelude.{true, false, IsTrue, IfOk, OnOk, MatchOption};
ghost use Rattle.std.specs.List.{list_all};
ghost use Rattle.graft_texts.specs.Boxed.{instr};
ghost use Rattle.graft_texts.specs.Instructions.{fits};
ghost use Rattle.graft_syntax.specs.Views.{token_view};
ghost use Rattle.graft_lang.specs.Writing.{skipped, appended, patched, with_first, symbol_next};
ghost use Rattle.graft_lang.specs.Writing.{behind_symbol, callable_next, behind_callable};
ghost use Rattle.graft_lang.specs.Writing.{number_next, is_block_end, closes_block};
ghost use Rattle.graft_lang.specs.Code.{fetches, puts, loads, source, operator_code};

use gm_image::{Instr, Op};
use graft_syntax::{NoMemory, Operator, Symbol, Token, same_symbol};
use std::alloc::Global;
use std::marker::Model;

/// The register of values.
pub const VALUE: u8 = 4;

/// The register of addresses.
const ADDRESS: u8 = 5;

/// The register of operands that are loaded.
pub const OPERAND: u8 = 6;

/// How many slots are in registers.
const IN_REGISTERS: u32 = 7;

/// The register of the first slot.
const FIRST: u8 = 7;

/// The tokens that are left, and the code so far.
#[derive(Drop)]
pub struct Writer<'t, 'a> {
    rest: &'t [Token<'a>],
    code: Vec<Instr>,
}

impl<'t, 'a> Model for Writer<'t, 'a> {
    ghost use Rattle.std.specs.Prelude.{◌≡◌, map, true};
    ghost use Rattle.std.specs.List.{list_all};
    ghost use Rattle.graft_texts.specs.Instructions.{fits};
    ghost use Rattle.graft_syntax.specs.Views.{token_view};
    ghost use Rattle.graft_lang.specs.Writing.{Writing};

    ghost Value = { Writing };

    ghost view = { λ w. record { tokens = map token_view w.rest.now; code = w.code.items } };

    ghost invariant = { λ w. list_all fits w.code.items ≡ true };
}

/// An instruction.
pub fn instr(op: Op, a: u8, b: u8, c: u8, imm: u32) -> Instr
    ensures { result ≡ instr op a b c imm }
{
    Instr { op, a, b, c, imm }
}

/// Loads a number.
pub fn load_number(reg: u8, n: u32) -> Instr
    requires { reg < 16 }
    ensures number { result ≡ instr Op.Li reg 0 0 n }
    ensures fits { fits result ≡ true }
{
    instr(Op::Li, reg, 0, 0, n)
}

/// What is behind the first token.
fn behind_first<'t, 'a>(tokens: &'t [Token<'a>]) -> &'t [Token<'a>]
    ensures { result.now ≡ drop 1 tokens.now }
{
    let (_, rest) = tokens.split_at(tokens.len().min(1));
    rest
}

impl<'t, 'a> Writer<'t, 'a> {
    /// No code, where these tokens are left.
    pub fn new(alloc: Global, tokens: &'t [Token<'a>]) -> Writer<'t, 'a>
        ensures { result ≡ record { tokens = map token_view tokens.now; code = [] } }
    {
        Writer {
            rest: tokens,
            code: Vec::new(alloc),
        }
    }

    /// The code.
    pub fn into_code(self) -> Vec<Instr>
        ensures code { result.items ≡ self.entry.code }
        ensures fits { list_all fits result.items ≡ true }
    {
        self.code
    }

    /// Takes the next token.
    pub fn next(&mut self) -> Option<Token<'a>>
        ensures { MatchOption result ((self.old.tokens ≡ []) × (self.new ≡ self.old))
            (λ t. self.old ≡ with_first (token_view t) self.new) }
    {
        match self.rest.first() {
            None => None,
            Some(token) => {
                self.rest = behind_first(self.rest);
                Some(*token)
            }
        }
    }

    /// Passes over the next token.
    pub fn skip(&mut self)
        ensures { self.new ≡ skipped self.old }
    {
        self.rest = behind_first(self.rest);
    }

    /// Whether no token is left.
    pub fn is_done(&self) -> bool
        ensures { IsTrue result ↔ (self.now.tokens ≡ []) }
    {
        self.rest.is_empty()
    }

    /// Passes over a symbol, if it comes next, and says whether it did.
    pub fn takes(&mut self, symbol: Symbol) -> bool
        ensures next { result ≡ symbol_next symbol self.old.tokens }
        ensures skips { self.new ≡ behind_symbol symbol self.old }
    {
        match self.rest.first() {
            Some(Token::Mark(s)) if same_symbol(symbol, *s) => {
                self.skip();
                true
            }
            _ => false,
        }
    }

    /// Takes a callable, if one comes next.
    pub fn takes_callable(&mut self) -> Option<u32>
        ensures next { result ≡ callable_next self.old.tokens }
        ensures skips { self.new ≡ behind_callable self.old }
    {
        match self.rest.first() {
            Some(Token::Callable(id)) => {
                let id = *id;
                self.skip();
                Some(id)
            }
            _ => None,
        }
    }

    /// Takes a number.
    pub fn number(&mut self) -> u32
        ensures number { result ≡ number_next self.old.tokens }
        ensures skips { self.new ≡ skipped self.old }
    {
        match self.next() {
            Some(Token::Number(n)) => n,
            _ => 0,
        }
    }

    /// Takes the first token of a statement, unless the block or the text ends here.
    pub fn next_statement(&mut self) -> Option<Token<'a>>
        ensures { MatchOption result ((is_block_end self.old.tokens ≡ true) × (self.new ≡ self.old))
            (λ t. (closes_block (token_view t) ≡ false)
            × (self.old ≡ with_first (token_view t) self.new)) }
    {
        match self.rest.first() {
            None => None,
            Some(Token::Mark(s)) if same_symbol(Symbol::CloseBrace, *s) => None,
            Some(token) => {
                let token = *token;
                self.skip();
                Some(token)
            }
        }
    }

    /// Appends instructions.
    pub fn append(&mut self, code: &[Instr]) -> Result<(), NoMemory>
        requires { list_all fits code.now ≡ true }
        ensures { OnOk result (self.new ≡ appended code.now self.old) }
    {
        match self.code.extend_from_slice(code) {
            Ok(()) => Ok(()),
            Err(_) => Err(NoMemory),
        }
    }

    /// The place of the next instruction.
    pub fn place(&self) -> u32
        requires { length self.now.code ≤ 8192 }
        ensures { result ≡ length self.now.code }
    {
        self.code.len() as u32
    }

    /// Appends an instruction that is to be replaced by a jump, and tells its place.
    pub fn hole(&mut self) -> Result<u32, NoMemory>
        requires { length self.old.code ≤ 8192 }
        ensures place { IfOk result (λ at. at ≡ length self.old.code) }
        ensures hole { OnOk result (self.new ≡ appended (instr Op.Ret 0 0 0 0 ∷ []) self.old) }
    {
        let at = self.place();
        self.append(&[instr(Op::Ret, 0, 0, 0, 0)])?;
        Ok(at)
    }

    /// Puts an instruction in the place of another one.
    pub fn patch(&mut self, at: u32, with: Instr)
        requires within { at < length self.old.code }
        requires fits { fits with ≡ true }
        ensures { self.new ≡ patched at with self.old }
    {
        self.code[at as usize] = with;
    }

    /// Brings a slot to a register.
    pub fn fetch(&mut self, reg: u8, slot: u32) -> Result<(), NoMemory>
        requires reg { reg < 16 }
        requires slot { slot ≤ 1024 }
        ensures code { OnOk result (self.new ≡ appended (fetches reg slot) self.old) }
        ensures short { OnOk result (length self.new.code ≤ length self.old.code + 2) }
    {
        if slot < IN_REGISTERS {
            self.append(&[instr(Op::Mov, reg, FIRST + slot as u8, 0, 0)])
        } else {
            self.append(&[
                load_number(ADDRESS, 4 * slot),
                instr(Op::Ldw, reg, ADDRESS, 0, 0),
            ])
        }
    }

    /// Puts a register into a slot.
    pub fn put(&mut self, reg: u8, slot: u32) -> Result<(), NoMemory>
        requires reg { reg < 16 }
        requires slot { slot ≤ 1024 }
        ensures code { OnOk result (self.new ≡ appended (puts reg slot) self.old) }
        ensures short { OnOk result (length self.new.code ≤ length self.old.code + 2) }
    {
        if slot < IN_REGISTERS {
            self.append(&[instr(Op::Mov, FIRST + slot as u8, reg, 0, 0)])
        } else {
            self.append(&[
                load_number(ADDRESS, 4 * slot),
                instr(Op::Stw, reg, ADDRESS, 0, 0),
            ])
        }
    }

    /// Brings a slot to a register, unless it is in one, and tells which register has it.
    pub fn load(&mut self, reg: u8, slot: u32) -> Result<u8, NoMemory>
        requires reg { reg < 14 }
        requires slot { slot ≤ 1024 }
        ensures code { IfOk result (λ from. (from ≡ source reg slot)
            × (self.new ≡ appended (loads reg slot) self.old)) }
        ensures named { IfOk result (λ from. from < 14) }
        ensures short { OnOk result (length self.new.code ≤ length self.old.code + 2) }
    {
        if slot < IN_REGISTERS {
            return Ok(FIRST + slot as u8);
        }
        self.append(&[
            load_number(ADDRESS, 4 * slot),
            instr(Op::Ldw, reg, ADDRESS, 0, 0),
        ])?;
        Ok(reg)
    }

    fn apply_op(&mut self, op: Op, left: u8, right: u8) -> Result<(), NoMemory>
        requires { fits (instr op 4 left right 0) ≡ true }
        ensures { OnOk result (self.new ≡ appended (instr op 4 left right 0 ∷ []) self.old) }
    {
        self.append(&[instr(op, VALUE, left, right, 0)])
    }

    /// Applies an operator to two registers; its value comes to the register of values. Two values
    /// are equal where their difference is below 1.
    pub fn apply(&mut self, op: Operator, left: u8, right: u8) -> Result<(), NoMemory>
        requires left { left < 16 }
        requires right { right < 16 }
        ensures code { OnOk result (self.new ≡ appended (operator_code op left right) self.old) }
        ensures short { OnOk result (length self.new.code ≤ length self.old.code + 3) }
    {
        match op {
            Operator::Plus => self.apply_op(Op::Add, left, right),
            Operator::Minus => self.apply_op(Op::Sub, left, right),
            Operator::Times => self.apply_op(Op::Mul, left, right),
            Operator::Over => self.apply_op(Op::Divu, left, right),
            Operator::Rest => self.apply_op(Op::Remu, left, right),
            Operator::And => self.apply_op(Op::And, left, right),
            Operator::Or => self.apply_op(Op::Or, left, right),
            Operator::Xor => self.apply_op(Op::Xor, left, right),
            Operator::ShiftLeft => self.apply_op(Op::Shl, left, right),
            Operator::ShiftRight => self.apply_op(Op::Shr, left, right),
            Operator::Less => self.apply_op(Op::Sltu, left, right),
            Operator::Equal => self.append(&[
                instr(Op::Sub, VALUE, left, right, 0),
                load_number(ADDRESS, 1),
                instr(Op::Sltu, VALUE, VALUE, ADDRESS, 0),
            ]),
        }
    }
}
