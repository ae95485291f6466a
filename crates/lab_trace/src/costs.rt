//! How many instructions the compiler of the graft language writes for each token, from the grammar
//! and the code that docs/LANGUAGE.md describes.

ghost use Rattle.std.specs.Prelude.{◌≤◌};

use graft_syntax::{Operator, Symbol, Token};
use kernel_data::NoMemory;
use std::alloc::Global;
use text_words::put;

/// How many slots are in registers.
pub const IN_REGISTERS: usize = 7;

/// How many instructions bring a slot to a register, or a register to it.
fn moves(slot: usize) -> u32
    ensures { result ≤ 2 }
{
    if slot < IN_REGISTERS { 1 } else { 2 }
}

/// How many bring the slot of an operand to a register, unless one has it.
fn loads(slot: usize) -> u32
    ensures { result ≤ 2 }
{
    if slot < IN_REGISTERS { 0 } else { 2 }
}

/// The statement that is being read.
#[derive(Clone, Copy, PartialEq, Eq)]
enum Statement {
    None,
    Assign,
    Call,
    If,
    Else,
    While,
    Trap,
    Answer,
}

/// How far a program was read, token by token.
#[derive(Drop)]
pub struct Costs {
    statement: Statement,
    /// How many variables there are.
    variables: usize,
    /// The slot that the statement assigns.
    target: usize,
    /// The operations that are open: how many instructions the operator takes, or 0 before it.
    open: Vec<u8>,
    /// How many of them have their operator.
    operators: usize,
    /// The blocks that are open: whether they are of a `while`.
    blocks: Vec<bool>,
    /// Whether the arguments of a call are being read.
    in_call: bool,
    /// How many values of the statement wait in slots.
    values: usize,
    /// Whether the token before this one opened the arguments.
    just_opened: bool,
}

impl Costs {
    /// At the beginning of a program with so many variables.
    pub fn new(alloc: Global, variables: usize) -> Costs {
        Costs {
            statement: Statement::None,
            variables,
            target: 0,
            open: Vec::new(alloc),
            operators: 0,
            blocks: Vec::new(alloc),
            in_call: false,
            values: 0,
            just_opened: false,
        }
    }

    /// The first slot that is free where an expression begins.
    fn first_free(&self) -> usize {
        self.variables.saturating_add(self.values)
    }

    /// How many instructions the operator takes whose right operand is being read; 0 where that is
    /// another value.
    fn operator_behind(&self) -> u8 {
        match self.open.last() {
            Some(operator) => *operator,
            None => 0,
        }
    }

    /// The slot in which the left operand of that operator waits, if it has to.
    fn waiting(&self) -> usize {
        self.first_free()
            .saturating_add(self.operators.saturating_sub(1))
    }

    /// A number: a value, or what `trap` ends with.
    fn number(&self) -> u32 {
        if self.statement == Statement::Trap {
            return 0;
        }
        1 + u32::from(self.operator_behind())
    }

    /// A variable: the target of an assignment, or a value.
    fn variable(&mut self, slot: usize) -> u32 {
        if self.statement == Statement::None {
            self.statement = Statement::Assign;
            self.target = slot;
            return 0;
        }
        if self.open.is_empty() {
            return moves(slot);
        }
        loads(slot) + u32::from(self.operator_behind())
    }

    /// `(` of a call or of an expression: a left operand waits while the right one is computed.
    fn open_parenthesis(&mut self) -> Result<u32, NoMemory> {
        if self.statement == Statement::Call && !self.in_call {
            self.in_call = true;
            self.just_opened = true;
            return Ok(0);
        }
        let cost = if self.operator_behind() > 0 {
            moves(self.waiting())
        } else {
            0
        };
        put(&mut self.open, 0)?;
        Ok(cost)
    }

    /// The register of an argument.
    fn register(&self, reg: usize) -> u32
        ensures { result ≤ 2 }
    {
        if reg <= self.values {
            moves(self.variables.saturating_add(reg))
        } else {
            1
        }
    }

    /// The end of a call's arguments: the last one waits, three registers are loaded, the call is
    /// made, and its answer is stored.
    fn end_call(&mut self, is_empty: bool) -> u32 {
        self.in_call = false;
        let call = 1 + moves(self.target);
        if is_empty {
            return 3 + call;
        }
        let registers = self.register(0) + self.register(1) + self.register(2);
        moves(self.first_free()) + registers + call
    }

    /// The end of an operation, which may be the right operand of another one.
    fn end_operation(&mut self) -> u32 {
        self.operators = self.operators.saturating_sub(1);
        let operator = self.operator_behind();
        if operator == 0 {
            return 0;
        }
        loads(self.waiting()) + u32::from(operator)
    }

    /// `)` of a call or of an expression.
    fn close_parenthesis(&mut self, is_empty: bool) -> u32 {
        match self.open.pop() {
            Some(_) => self.end_operation(),
            None => self.end_call(is_empty),
        }
    }

    /// An operator, which is applied behind its right operand.
    fn operator(&mut self, is_equal: bool) -> u32 {
        if self.open.pop().is_some() {
            let _ = put(&mut self.open, if is_equal { 3 } else { 1 });
            self.operators = self.operators.saturating_add(1);
        }
        0
    }

    /// A comma: the value before it waits.
    fn comma(&mut self) -> u32 {
        let cost = moves(self.first_free());
        self.values = self.values.saturating_add(1);
        cost
    }

    /// The end of a statement.
    fn end_statement(&mut self) -> u32 {
        let cost = match self.statement {
            Statement::Assign => moves(self.target),
            Statement::Trap => 1,
            Statement::Answer => 2 + moves(self.variables),
            _ => 0,
        };
        self.statement = Statement::None;
        self.values = 0;
        cost
    }

    /// A block begins.
    fn open_block(&mut self) -> Result<u32, NoMemory> {
        put(&mut self.blocks, self.statement == Statement::While)?;
        let cost = if self.statement == Statement::Else {
            0
        } else {
            1
        };
        self.statement = Statement::None;
        Ok(cost)
    }

    /// A block ends.
    fn close_block(&mut self) -> u32 {
        self.statement = Statement::None;
        match self.blocks.pop() {
            Some(true) => 1,
            _ => 0,
        }
    }

    /// A keyword or a sign.
    fn mark(&mut self, symbol: Symbol, is_empty: bool) -> Result<u32, NoMemory> {
        match symbol {
            Symbol::If => self.statement = Statement::If,
            Symbol::While => self.statement = Statement::While,
            Symbol::Trap => self.statement = Statement::Trap,
            Symbol::Answer => self.statement = Statement::Answer,
            Symbol::Else => {
                self.statement = Statement::Else;
                return Ok(1);
            }
            Symbol::Assign => {}
            Symbol::Comma => return Ok(self.comma()),
            Symbol::Semicolon => return Ok(self.end_statement()),
            Symbol::OpenBrace => return self.open_block(),
            Symbol::CloseBrace => return Ok(self.close_block()),
            Symbol::OpenParenthesis => return self.open_parenthesis(),
            Symbol::CloseParenthesis => return Ok(self.close_parenthesis(is_empty)),
        }
        Ok(0)
    }

    /// How many instructions are written at the next token; a variable is this slot.
    pub fn take(&mut self, token: Token, slot: usize) -> Result<u32, NoMemory> {
        let is_empty = self.just_opened;
        self.just_opened = false;
        match token {
            Token::Number(_) => Ok(self.number()),
            Token::Variable(_) => Ok(self.variable(slot)),
            Token::Callable(_) => {
                self.statement = Statement::Call;
                Ok(0)
            }
            Token::Infix(operator) => Ok(self.operator(matches!(operator, Operator::Equal))),
            Token::Mark(symbol) => self.mark(symbol, is_empty),
        }
    }
}
