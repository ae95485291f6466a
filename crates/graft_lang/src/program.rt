//! The code of statements.

ghost use Rattle.std.specs.Prelude.{◌≡◌, ◌+◌, ◌*◌, ◌<◌, ◌≤◌, ◌-◌, length, true, false, IfOk, OnOk};
ghost use Rattle.graft_texts.specs.Boxed.{instr};
ghost use Rattle.graft_texts.specs.Instructions.{fits};
ghost use Rattle.graft_syntax.specs.Views.{token_view};
ghost use Rattle.graft_texts.specs.LanguageTokens as token;
ghost use Rattle.graft_lang.specs.Writing.{Uses, HasRoom, with_first, closes_block, WritesValue};
ghost use Rattle.graft_lang.specs.Writing.{WritesTrap};
ghost use Rattle.graft_lang.specs.Writing.{WritesAnswer, WritesStatements, WritesBlock, WritesElse};
ghost use Rattle.graft_lang.specs.Writing.{WritesIf, WritesWhile, LeadsOn, appended, IsWritten};
ghost use Rattle.graft_lang.specs.Code.{zeros_code, prologue, epilogue};
ghost use Rattle.std.specs.List.{list_all};

use crate::variables::Variables;
use crate::writer::{VALUE, Writer, instr, load_number};
use gm_image::{Instr, Op};
use graft_syntax::{NoMemory, Symbol, Syntax, Token};
use std::alloc::Global;

/// A jump to a place where the value is 0.
fn jump_unless(to: u32) -> Instr
    ensures jump { result ≡ instr Op.Jz 4 0 0 to }
    ensures fits { fits result ≡ true }
{
    instr(Op::Jz, VALUE, 0, 0, to)
}

/// A jump to a place.
fn jump(to: u32) -> Instr
    ensures jump { result ≡ instr Op.Jmp 0 0 0 to }
    ensures fits { fits result ≡ true }
{
    instr(Op::Jmp, 0, 0, 0, to)
}

impl<'t, 'a> Writer<'t, 'a> {
    /// Takes a value and the semicolon behind it. The value goes to the slot `to`.
    fn assign(&mut self, names: &Variables, top: u32, to: u32) -> Result<(), NoMemory>
        requires room { top + length self.old.tokens ≤ 1020 }
        requires to { to ≤ 1024 }
        ensures writes { OnOk result (WritesValue names.now top to self.old self.new) }
        ensures uses { OnOk result (Uses 16 2 self.old self.new) }
    {
        self.expression(names, top)?;
        self.put(VALUE, to)?;
        self.skip();
        Ok(())
    }

    /// Takes what is behind the variable of an assignment.
    fn assignment(&mut self, names: &Variables, top: u32, name: &[u8]) -> Result<(), NoMemory>
        requires { top + length self.old.tokens ≤ 1020 }
        ensures leads { let begun = with_first (token.Variable name.now) self.old in
            OnOk result (LeadsOn names.now top begun self.new) }
        ensures uses { OnOk result (Uses 16 9 self.old self.new) }
    {
        let to = names.number_of(name);
        self.skip();
        match self.takes_callable() {
            Some(id) => self.call(names, top, to, id),
            None => self.assign(names, top, to),
        }
    }

    /// Takes what is behind `trap`.
    fn trap(&mut self) -> Result<(), NoMemory>
        ensures writes { OnOk result (WritesTrap self.old self.new) }
        ensures uses { OnOk result (Uses 16 1 self.old self.new) }
    {
        let code = self.number();
        self.append(&[instr(Op::Trap, 0, 0, 0, code)])?;
        self.skip();
        Ok(())
    }

    /// Takes what is behind `answer`. The first value waits in the slot `top`.
    fn answer(&mut self, names: &Variables, top: u32) -> Result<(), NoMemory>
        requires { top + length self.old.tokens ≤ 1020 }
        ensures writes { OnOk result (WritesAnswer names.now top self.old self.new) }
        ensures uses { OnOk result (Uses 16 6 self.old self.new) }
    {
        self.expression(names, top)?;
        self.put(VALUE, top)?;
        self.skip();
        self.expression(names, top + 1)?;
        self.append(&[instr(Op::Mov, 1, VALUE, 0, 0)])?;
        self.fetch(0, top)?;
        self.append(&[instr(Op::Ret, 0, 0, 0, 0)])?;
        self.skip();
        Ok(())
    }

    /// Takes statements in braces.
    #[cycle(statements)]
    fn block(&mut self, names: &Variables, top: u32) -> Result<(), NoMemory>
        requires { HasRoom 16 top self.old }
        ensures writes { OnOk result (WritesBlock names.now top self.old self.new) }
        ensures uses { OnOk result (Uses 16 0 self.old self.new) }
    {
        self.skip();
        self.statements(names, top)?;
        self.skip();
        Ok(())
    }

    /// Takes what is behind `else`. The jump of the test stands at `test`.
    #[cycle(statements)]
    fn alternative(&mut self, names: &Variables, top: u32, test: u32) -> Result<(), NoMemory>
        requires room { HasRoom 15 top self.old }
        requires test { test < length self.old.code }
        ensures writes { OnOk result (WritesElse names.now top test self.old self.new) }
        ensures uses { OnOk result (Uses 16 1 self.old self.new) }
    {
        let end = self.hole()?;
        let begin = self.place();
        self.patch(test, jump_unless(begin));
        self.block(names, top)?;
        let behind = self.place();
        self.patch(end, jump(behind));
        Ok(())
    }

    /// Takes what is behind `if`.
    #[cycle(statements)]
    fn conditional(&mut self, names: &Variables, top: u32) -> Result<(), NoMemory>
        requires { HasRoom 0 top self.old }
        ensures writes { OnOk result (WritesIf names.now top self.old self.new) }
        ensures uses { OnOk result (Uses 16 2 self.old self.new) }
    {
        self.expression(names, top)?;
        let test = self.hole()?;
        self.block(names, top)?;
        if self.takes(Symbol::Else) {
            return self.alternative(names, top, test);
        }
        let behind = self.place();
        self.patch(test, jump_unless(behind));
        Ok(())
    }

    /// Takes what is behind `while`.
    #[cycle(statements)]
    fn repetition(&mut self, names: &Variables, top: u32) -> Result<(), NoMemory>
        requires { HasRoom 0 top self.old }
        ensures writes { OnOk result (WritesWhile names.now top self.old self.new) }
        ensures uses { OnOk result (Uses 16 2 self.old self.new) }
    {
        let begin = self.place();
        self.expression(names, top)?;
        let test = self.hole()?;
        self.block(names, top)?;
        self.append(&[jump(begin)])?;
        let behind = self.place();
        self.patch(test, jump_unless(behind));
        Ok(())
    }

    /// Takes what is behind the keyword of a statement.
    #[cycle(statements)]
    fn command(&mut self, names: &Variables, top: u32, keyword: Symbol) -> Result<(), NoMemory>
        requires room { HasRoom 0 top self.old }
        requires begins { closes_block (token.Mark keyword) ≡ false }
        ensures leads { let begun = with_first (token.Mark keyword) self.old in
            OnOk result (LeadsOn names.now top begun self.new) }
        ensures uses { OnOk result (Uses 16 9 self.old self.new) }
    {
        match keyword {
            Symbol::If => self.conditional(names, top),
            Symbol::While => self.repetition(names, top),
            Symbol::Trap => self.trap(),
            Symbol::Answer => self.answer(names, top),
            _ => Ok(()),
        }
    }

    /// Takes what is behind the first token of a statement.
    #[cycle(statements)]
    fn statement(&mut self, names: &Variables, top: u32, first: Token) -> Result<(), NoMemory>
        requires room { HasRoom 0 top self.old }
        requires begins { closes_block (token_view first) ≡ false }
        ensures leads { let begun = with_first (token_view first.entry) self.old in
            OnOk result (LeadsOn names.now top begun self.new) }
        ensures uses { OnOk result (Uses 16 9 self.old self.new) }
    {
        match first {
            Token::Variable(name) => self.assignment(names, top, name),
            Token::Mark(s) => self.command(names, top, s),
            _ => Ok(()),
        }
    }

    /// Takes statements as far as the end of their block. The slots from `top` on are free.
    #[cycle(statements)]
    pub fn statements(&mut self, names: &Variables, top: u32) -> Result<(), NoMemory>
        requires { HasRoom 16 top self.old }
        ensures writes { OnOk result (WritesStatements names.now top self.old self.new) }
        ensures uses { OnOk result (Uses 16 0 self.old self.new) }
    {
        while let Some(first) = self.next_statement() {
            self.statement(names, top, first)?;
        }
        Ok(())
    }
}

impl<'t, 'a> Writer<'t, 'a> {
    /// Stores zeros, which the register of values has, to the variables behind the arguments.
    fn zeros(&mut self, variables: u32) -> Result<(), NoMemory>
        requires { variables ≤ 1024 }
        ensures { OnOk result (self.new ≡ appended (zeros_code 4 (variables - 4)) self.old) }
    {
        for i in 4..variables {
            self.put(VALUE, i)?;
        }
        Ok(())
    }

    /// Stores the arguments, and zeros to the other variables.
    fn prologue(&mut self, variables: u32) -> Result<(), NoMemory>
        requires { variables ≤ 1024 }
        ensures { OnOk result (self.new ≡ appended (prologue variables) self.old) }
    {
        self.put(0, 0)?;
        self.put(1, 1)?;
        self.put(2, 2)?;
        self.put(3, 3)?;
        self.append(&[load_number(VALUE, 0)])?;
        self.zeros(variables)
    }

    /// Answers the first two arguments.
    fn epilogue(&mut self) -> Result<(), NoMemory>
        ensures { OnOk result (self.new ≡ appended epilogue self.old) }
    {
        self.fetch(0, 0)?;
        self.fetch(1, 1)?;
        self.append(&[instr(Op::Ret, 0, 0, 0, 0)])
    }
}

/// The code of the program that is spelled by what was read.
pub fn write_program(alloc: Global, syntax: &Syntax) -> Result<Vec<Instr>, NoMemory>
    requires tokens { length syntax.now.tokens ≤ 120 }
    requires names { length syntax.now.names ≤ 124 }
    ensures written { IfOk result (λ code. IsWritten syntax.now code.items) }
    ensures fits { IfOk result (λ code. list_all fits code.items ≡ true) }
{
    let names = Variables::new(syntax);
    let top = names.count();
    let mut writer = Writer::new(alloc, syntax.tokens());
    writer.prologue(top)?;
    writer.statements(&names, top)?;
    writer.epilogue()?;
    Ok(writer.into_code())
}
