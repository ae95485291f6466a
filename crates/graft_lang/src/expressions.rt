//! The code of expressions.

ghost use Rattle.std.specs.Prelude.{◌≡◌, ◌+◌, ◌-◌, ◌<◌, ◌≤◌, length, IfOk, OnOk};
ghost use Rattle.graft_lang.specs.Writing.{Uses, skipped, operator_of, WritesExpression};
ghost use Rattle.graft_lang.specs.Writing.{WritesLeft, WritesRightOperation, WritesRight, WritesOperation};

use crate::variables::Variables;
use crate::writer::{OPERAND, VALUE, Writer, load_number};
use graft_syntax::{NoMemory, Operator, Token};

impl<'t, 'a> Writer<'t, 'a> {
    /// Takes an operator.
    fn operator(&mut self) -> Operator
        ensures operator { result ≡ operator_of self.old.tokens }
        ensures skips { self.new ≡ skipped self.old }
    {
        match self.next() {
            Some(Token::Infix(op)) => op,
            _ => Operator::Plus,
        }
    }

    /// Takes a left operand, and tells the register that has its value.
    #[cycle(operation)]
    fn left(&mut self, names: &Variables, top: u32) -> Result<u8, NoMemory>
        requires { top + length self.old.tokens ≤ 1025 }
        ensures writes { IfOk result (λ reg. WritesLeft names.now top reg self.old self.new) }
        ensures named { IfOk result (λ reg. reg < 14) }
        ensures uses { OnOk result (Uses 8 0 self.old self.new) }
    {
        let Some(token) = self.next() else {
            return Ok(VALUE);
        };
        match token {
            Token::Number(n) => {
                self.append(&[load_number(VALUE, n)])?;
                Ok(VALUE)
            }
            Token::Variable(name) => self.load(VALUE, names.number_of(name)),
            _ => {
                self.operation(names, top)?;
                Ok(VALUE)
            }
        }
    }

    /// Takes a right operand that is an operation, behind its parenthesis, and applies an operator.
    /// The left operand, which this register has, waits in the slot `top`.
    #[cycle(operation)]
    fn right_operation(
        &mut self,
        names: &Variables,
        top: u32,
        op: Operator,
        left: u8,
    ) -> Result<(), NoMemory>
        requires room { top + length self.old.tokens ≤ 1023 }
        requires left { left < 14 }
        ensures writes { OnOk result (WritesRightOperation names.now top op left self.old self.new) }
        ensures uses { OnOk result (Uses 8 14 self.old self.new) }
    {
        self.put(left, top)?;
        self.operation(names, top + 1)?;
        let waited = self.load(OPERAND, top)?;
        self.apply(op, waited, VALUE)
    }

    /// Takes a right operand, and applies an operator to the left one, which this register has, and
    /// to it. The slots from `top` on are free.
    #[cycle(operation)]
    fn right(&mut self, names: &Variables, top: u32, op: Operator, left: u8) -> Result<(), NoMemory>
        requires room { top + length self.old.tokens ≤ 1024 }
        requires left { left < 14 }
        ensures writes { OnOk result (WritesRight names.now top op left self.old self.new) }
        ensures uses { OnOk result (Uses 8 7 self.old self.new) }
    {
        let Some(token) = self.next() else {
            return Ok(());
        };
        match token {
            Token::Number(n) => {
                self.append(&[load_number(OPERAND, n)])?;
                self.apply(op, left, OPERAND)
            }
            Token::Variable(name) => {
                let right = self.load(OPERAND, names.number_of(name))?;
                self.apply(op, left, right)
            }
            _ => self.right_operation(names, top, op, left),
        }
    }

    /// Takes two operands, the operator between them and the parenthesis behind them.
    #[cycle(operation)]
    fn operation(&mut self, names: &Variables, top: u32) -> Result<(), NoMemory>
        requires { top + length self.old.tokens ≤ 1024 }
        ensures writes { OnOk result (WritesOperation names.now top self.old self.new) }
        ensures uses { OnOk result (Uses 8 7 self.old self.new) }
    {
        let left = self.left(names, top)?;
        let op = self.operator();
        self.right(names, top, op, left)?;
        self.skip();
        Ok(())
    }

    /// Takes an expression, whose value comes to the register of values. The slots from `top` on
    /// are free.
    pub fn expression(&mut self, names: &Variables, top: u32) -> Result<(), NoMemory>
        requires { top + length self.old.tokens ≤ 1025 }
        ensures writes { OnOk result (WritesExpression names.now top self.old self.new) }
        ensures takes { OnOk result (length self.new.tokens ≤ length self.old.tokens - 1) }
        ensures uses { OnOk result (Uses 8 0 self.old self.new) }
    {
        let Some(token) = self.next() else {
            return Ok(());
        };
        match token {
            Token::Number(n) => self.append(&[load_number(VALUE, n)]),
            Token::Variable(name) => self.fetch(VALUE, names.number_of(name)),
            _ => self.operation(names, top),
        }
    }
}
