//! Which tokens may come next: the goals of the grammar that are still to be met.

ghost use Rattle.std.specs.Prelude.{◌≡◌, ◌-◌, ◌<◌, ◌∷◌, ◌++◌, [], length, reverse, count_by, true, false};
ghost use Rattle.std.specs.Prelude.{Ok, Err, IsTrue, OnOk, MatchOption};
ghost use Rattle.graft_syntax.specs.Faults.{StepsAs};
ghost use Rattle.graft_syntax.specs.Views.{token_view};
ghost use Rattle.graft_texts.specs.LanguageGrammar as spec;
ghost use Rattle.graft_texts.specs.LanguageReading.{is_level};

use crate::tokens::{arguments_of, same_symbol};
use crate::{LangKind, NoMemory, Symbol, Token};
use graft_texts::Goal;
use std::alloc::Global;
use std::marker::Model;

/// Why a token is refused.
#[derive(Clone, Copy)]
pub enum Refusal {
    Of(LangKind),
    NoMemory,
}

impl From<NoMemory> for Refusal {
    ghost use Rattle.graft_syntax.specs.declared.grammar.Refusal.{Refusal};

    ghost from_gives = { λ _ e. e ≡ Refusal.NoMemory };

    fn from(_: NoMemory) -> Refusal {
        Refusal::NoMemory
    }
}

/// The goals, the next one last.
#[derive(Drop)]
pub struct Goals {
    stack: Vec<Goal>,
}

impl Model for Goals {
    ghost use Rattle.std.specs.Prelude.{List, reverse};
    ghost use Rattle.graft_texts.specs.declared.language.Goal.{Goal};

    ghost Value = { List Goal };

    ghost view = { λ g. reverse g.stack.items };
}

fn refused() -> Result<(), Refusal>
    ensures { result ≡ Err (Refusal.Of LangKind.NoProgram) }
{
    Err(Refusal::Of(LangKind::NoProgram))
}

/// Whether a goal is the end of a level.
fn is_level(goal: Goal) -> bool
    ensures { result ≡ is_level goal }
{
    match goal {
        Goal::Statements(in_block, _) => in_block,
        Goal::Awaits(s) => same_symbol(s, Symbol::CloseParenthesis),
        _ => false,
    }
}

fn levels_of(goals: &[Goal]) -> usize
    ensures { result ≡ count_by is_level (reverse goals.now) }
{
    goals.iter().rev().filter(|goal| is_level(**goal)).count()
}

impl Goals {
    /// No goals.
    pub fn new(alloc: Global) -> Goals
        ensures { result ≡ [] }
    {
        Goals {
            stack: Vec::new(alloc),
        }
    }

    /// Puts goals before the others, the last one given first.
    pub fn push(&mut self, goals: &[Goal]) -> Result<(), NoMemory>
        ensures { OnOk result (self.new ≡ reverse goals.now ++ self.old) }
    {
        match self.stack.extend_from_slice(goals) {
            Ok(()) => Ok(()),
            Err(_) => Err(NoMemory),
        }
    }

    /// Goes on with goals before the others, the last one given first.
    fn go_on(&mut self, goals: &[Goal]) -> Result<(), Refusal>
        ensures { StepsAs result self.new (Ok (reverse goals.now ++ self.old)) }
    {
        match self.push(goals) {
            Ok(()) => Ok(()),
            Err(NoMemory) => Err(Refusal::NoMemory),
        }
    }

    /// Takes the next goal.
    pub fn pop(&mut self) -> Option<Goal>
        ensures { MatchOption result ((self.old ≡ []) × (self.new ≡ []))
            (λ goal. self.old ≡ goal ∷ self.new) }
    {
        self.stack.pop()
    }

    /// How many levels are open.
    pub fn levels(&self) -> usize
        ensures { result ≡ count_by is_level self.now }
    {
        levels_of(self.stack.as_slice())
    }

    /// Whether a program may end here.
    pub fn is_met(&self) -> bool
        ensures { result ≡ spec.is_met self.now }
    {
        match self.stack.last() {
            None => true,
            Some(Goal::Statements(in_block, _)) => !*in_block,
            Some(_) => false,
        }
    }

    fn follow_mark(&mut self, in_block: bool, after_if: bool, s: Symbol) -> Result<(), Refusal>
        ensures { StepsAs result self.new (spec.follow_mark in_block after_if self.old s) }
    {
        let next = Goal::Statements(in_block, false);
        let end = Goal::Awaits(Symbol::Semicolon);
        match s {
            Symbol::If => self.go_on(&[
                Goal::Statements(in_block, true),
                Goal::Braces,
                Goal::Operand,
            ]),
            Symbol::Else if after_if => self.go_on(&[next, Goal::Braces]),
            Symbol::While => self.go_on(&[next, Goal::Braces, Goal::Operand]),
            Symbol::Trap => self.go_on(&[next, end, Goal::Constant]),
            Symbol::Answer => {
                let comma = Goal::Awaits(Symbol::Comma);
                self.go_on(&[next, end, Goal::Operand, comma, Goal::Operand])
            }
            Symbol::CloseBrace if in_block => Ok(()),
            _ => refused(),
        }
    }

    fn follow_statement(
        &mut self,
        in_block: bool,
        after_if: bool,
        token: Token,
    ) -> Result<(), Refusal>
        ensures { StepsAs result self.new (spec.follow_statement in_block after_if self.old
            (token_view token.entry)) }
    {
        match token {
            Token::Variable(_) => self.go_on(&[
                Goal::Statements(in_block, false),
                Goal::EndOfAssignment,
                Goal::RightSide,
                Goal::Awaits(Symbol::Assign),
            ]),
            Token::Mark(s) => self.follow_mark(in_block, after_if, s),
            _ => refused(),
        }
    }

    fn follow_operand(&mut self, token: Token) -> Result<(), Refusal>
        ensures { StepsAs result self.new (spec.follow_operand self.old (token_view token.entry)) }
    {
        match token {
            Token::Number(_) | Token::Variable(_) => Ok(()),
            Token::Mark(Symbol::OpenParenthesis) => self.go_on(&[
                Goal::Awaits(Symbol::CloseParenthesis),
                Goal::Operand,
                Goal::InfixOperator,
                Goal::Operand,
            ]),
            _ => refused(),
        }
    }

    fn follow_right_side(&mut self, token: Token) -> Result<(), Refusal>
        ensures { StepsAs result self.new (spec.follow_right_side self.old
            (token_view token.entry)) }
    {
        match token {
            Token::Callable(id) => self.go_on(&[
                Goal::FirstArgument(arguments_of(id)),
                Goal::Awaits(Symbol::OpenParenthesis),
            ]),
            _ => self.follow_operand(token),
        }
    }

    /// An argument, behind which one argument less is left.
    fn follow_next(&mut self, left: u32, token: Token) -> Result<(), Refusal>
        ensures { StepsAs result self.new (spec.follow_goal
            (Goal.NextArgument left) self.old (token_view token.entry)) }
    {
        self.push(&[Goal::AfterArgument(left.saturating_sub(1))])?;
        self.follow_operand(token)
    }

    fn follow_first(&mut self, left: u32, token: Token) -> Result<(), Refusal>
        ensures { StepsAs result self.new (spec.follow_first left self.old
            (token_view token.entry)) }
    {
        match token {
            Token::Mark(Symbol::CloseParenthesis) => Ok(()),
            _ => self.follow_next(left, token),
        }
    }

    fn follow_argument(&mut self, left: u32, token: Token) -> Result<(), Refusal>
        ensures { StepsAs result self.new (spec.follow_argument left self.old
            (token_view token.entry)) }
    {
        match token {
            Token::Mark(Symbol::Comma) => self.go_on(&[Goal::NextArgument(left)]),
            Token::Mark(Symbol::CloseParenthesis) => Ok(()),
            _ => refused(),
        }
    }

    /// This symbol and no other.
    fn follow_awaited(&mut self, awaited: Symbol, token: Token) -> Result<(), Refusal>
        ensures { StepsAs result self.new (spec.follow_awaited awaited self.old
            (token_view token.entry)) }
    {
        match token {
            Token::Mark(s) if same_symbol(awaited, s) => Ok(()),
            _ => refused(),
        }
    }

    fn follow_braces(&mut self, token: Token) -> Result<(), Refusal>
        ensures { StepsAs result self.new (spec.follow_goal Goal.Braces self.old
            (token_view token.entry)) }
    {
        match token {
            Token::Mark(Symbol::OpenBrace) => self.go_on(&[Goal::Statements(true, false)]),
            _ => refused(),
        }
    }

    fn follow_constant(&mut self, token: Token) -> Result<(), Refusal>
        ensures { StepsAs result self.new (spec.follow_constant self.old (token_view token.entry)) }
    {
        match token {
            Token::Number(_) => Ok(()),
            _ => refused(),
        }
    }

    fn follow_infix(&mut self, token: Token) -> Result<(), Refusal>
        ensures { StepsAs result self.new (spec.follow_infix self.old (token_view token.entry)) }
    {
        match token {
            Token::Infix(_) => Ok(()),
            _ => refused(),
        }
    }

    /// Meets a goal, which was taken, by what begins with a token.
    pub fn follow(&mut self, goal: Goal, token: Token) -> Result<(), Refusal>
        ensures { StepsAs result self.new (spec.follow_goal goal self.old
            (token_view token.entry)) }
    {
        match goal {
            Goal::Statements(in_block, after_if) => {
                self.follow_statement(in_block, after_if, token)
            }
            Goal::Braces => self.follow_braces(token),
            Goal::Operand => self.follow_operand(token),
            Goal::InfixOperator => self.follow_infix(token),
            Goal::RightSide => self.follow_right_side(token),
            Goal::FirstArgument(left) => self.follow_first(left, token),
            Goal::NextArgument(left) => self.follow_next(left, token),
            Goal::AfterArgument(left) => self.follow_argument(left, token),
            Goal::EndOfAssignment => self.follow_awaited(Symbol::Semicolon, token),
            Goal::Constant => self.follow_constant(token),
            Goal::Awaits(s) => self.follow_awaited(s, token),
        }
    }
}
