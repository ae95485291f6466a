//! Reading a text: word by word, as far as the first one that is refused.

ghost use Rattle.std.specs.Prelude.{◌≡◌, ◌≤◌, ◌<◌, ◌+◌, ◌-◌, ◌==◌, ◌∷◌, [], length, take, count_by};
ghost use Rattle.std.specs.Prelude.{map, cond, nat_lt, slice_index, false, Ok, Err, IfOk, IfErr, OnOk};
ghost use Rattle.graft_syntax.specs.Faults.{Refuses, StepsAs, ReadsAs, fault_in};
ghost use Rattle.graft_syntax.specs.Views.{token_view};
ghost use Rattle.graft_syntax.specs.Places.{is_separator, word_at, IsWord, known_names};
ghost use Rattle.graft_syntax.specs.Readings.{reading, reading_for, IsPassed, IsStoppedBehind};
ghost use Rattle.graft_texts.specs.LanguageWords.{words, last_line};
ghost use Rattle.graft_texts.specs.LanguageReading as spec;

use crate::grammar::{Goals, Refusal};
use crate::names::{Known, word_at};
use crate::program::Syntax;
use crate::tokens::token_of;
use crate::{LangFault, LangKind, NoMemory, Symbol, Token};
use graft_texts::Goal;
use std::alloc::Global;

/// How far the reading has come.
#[derive(Drop)]
struct Reader<'a> {
    goals: Goals,
    known: Known,
    /// Where the variable of the last assignment stands that was begun.
    assigned: u32,
    tokens: Vec<Token<'a>>,
}

/// The most tokens of a program.
const MAX_TOKENS: usize = 120;

/// The most levels that are open.
const MAX_LEVELS: usize = 64;

/// Keeps a token, unless there are more than a program may have.
fn keep<'a>(tokens: &mut Vec<Token<'a>>, token: Token<'a>) -> Result<(), NoMemory>
    ensures { OnOk result (map token_view tokens.new.items
        ≡ spec.with_token (map token_view tokens.old.items) (token_view token.entry)) }
{
    if tokens.len() > MAX_TOKENS {
        return Ok(());
    }
    match tokens.push(token) {
        Ok(()) => Ok(()),
        Err(_) => Err(NoMemory),
    }
}

fn depth_fault(below: &Goals) -> Option<LangKind>
    ensures { result ≡ spec.depth_fault below.now }
{
    if below.levels() >= MAX_LEVELS {
        Some(LangKind::TooDeep)
    } else {
        None
    }
}

fn room_fault(room: bool) -> Option<LangKind>
    ensures { result ≡ spec.room_fault room }
{
    if room {
        None
    } else {
        Some(LangKind::WrongArguments)
    }
}

fn end_fault(left: u32) -> Option<LangKind>
    ensures { result ≡ spec.end_fault left }
{
    room_fault(left == 0)
}

/// What a reading knows: the goals below one that was taken, and the variables of a text.
#[derive(Clone, Copy)]
struct Seen<'r, 't> {
    below: &'r Goals,
    known: &'r Known,
    text: &'t [u8],
}

/// What is wrong with an operand that begins with a token.
fn operand_fault(room: bool, seen: Seen, token: Token) -> Option<LangKind>
    ensures { result ≡ spec.operand_fault room seen.entry.below.now
        (known_names seen.entry.text.now seen.entry.known.now.entries.items) (token_view token.entry) }
{
    match token {
        Token::Number(_) => room_fault(room),
        Token::Variable(name) => {
            if seen.known.is_known(seen.text, name) {
                room_fault(room)
            } else {
                Some(LangKind::UnknownVariable)
            }
        }
        Token::Mark(_) => {
            if room {
                depth_fault(seen.below)
            } else {
                Some(LangKind::WrongArguments)
            }
        }
        _ => None,
    }
}

fn first_fault(left: u32, seen: Seen, token: Token) -> Option<LangKind>
    ensures { result ≡ spec.first_fault left seen.entry.below.now
        (known_names seen.entry.text.now seen.entry.known.now.entries.items) (token_view token.entry) }
{
    match token {
        Token::Mark(Symbol::CloseParenthesis) => end_fault(left),
        _ => operand_fault(left > 0, seen, token),
    }
}

fn argument_fault(left: u32, token: Token) -> Option<LangKind>
    ensures { result ≡ spec.argument_fault left (token_view token.entry) }
{
    match token {
        Token::Mark(Symbol::CloseParenthesis) => end_fault(left),
        _ => None,
    }
}

/// What is wrong with a token that the grammar takes.
fn fault_at(goal: Goal, seen: Seen, token: Token) -> Option<LangKind>
    ensures { result ≡ spec.fault_at goal seen.entry.below.now
        (known_names seen.entry.text.now seen.entry.known.now.entries.items) (token_view token.entry) }
{
    match goal {
        Goal::Operand | Goal::RightSide => operand_fault(true, seen, token),
        Goal::FirstArgument(left) => first_fault(left, seen, token),
        Goal::NextArgument(left) => operand_fault(left > 0, seen, token),
        Goal::AfterArgument(left) => argument_fault(left, token),
        Goal::Braces => depth_fault(seen.below),
        _ => None,
    }
}

/// Learns the variable of an assignment, if one ends with this goal.
fn learn_assigned(known: &mut Known, goal: Goal, text: &[u8], assigned: u32) -> Result<(), NoMemory>
    ensures { OnOk result (known_names text.now known.new.entries.items
        ≡ spec.names_after (goal ∷ []) (word_at text.now assigned)
        (known_names text.now known.old.entries.items)) }
{
    match goal {
        Goal::EndOfAssignment => known.assign(text, assigned),
        _ => Ok(()),
    }
}

/// Where the variable stands that a statement assigns, if an assignment begins with this goal and
/// the token that stands at `start`.
fn assigned_by(goal: Goal, assigned: u32, token: Token, text: &[u8], start: u32) -> u32
    requires { IsWord token (word_at text.now start) }
    ensures { word_at text.now result
        ≡ spec.assigned_after (goal ∷ []) (word_at text.now assigned) (token_view token.entry) }
{
    match (goal, token) {
        (Goal::Statements(_, _), Token::Variable(_)) => start,
        _ => assigned,
    }
}

impl<'a> Reader<'a> {
    /// Nothing is read.
    fn new(alloc: Global, text: &[u8]) -> Result<Reader<'a>, NoMemory>
        requires { length text.now ≤ 16_777_216 }
        ensures { IfOk result (λ r. reading text.now r ≡ spec.first_reading) }
    {
        let mut goals = Goals::new(alloc);
        goals.push(&[Goal::Statements(false, false)])?;
        let known = Known::new(alloc, text)?;
        Ok(Reader {
            goals,
            known,
            assigned: text.len() as u32,
            tokens: Vec::new(alloc),
        })
    }

    /// Reads a token, which stands at `start`, for a goal, which was taken.
    fn read_for(
        &mut self,
        goal: Goal,
        token: Token<'a>,
        text: &[u8],
        start: u32,
    ) -> Result<(), Refusal>
        requires { IsWord token (word_at text.now start) }
        ensures { StepsAs result (reading text.now self.new)
            (spec.read_token (reading_for goal text.now self.old) (token_view token.entry)) }
    {
        let seen = Seen {
            below: &self.goals,
            known: &self.known,
            text,
        };
        let fault = fault_at(goal, seen, token);
        self.goals.follow(goal, token)?;
        if let Some(kind) = fault {
            return Err(Refusal::Of(kind));
        }
        learn_assigned(&mut self.known, goal, text, self.assigned)?;
        self.assigned = assigned_by(goal, self.assigned, token, text, start);
        keep(&mut self.tokens, token)?;
        Ok(())
    }

    /// Reads a token, which stands at `start`.
    fn read_token(&mut self, token: Token<'a>, text: &[u8], start: u32) -> Result<(), Refusal>
        requires { IsWord token (word_at text.now start) }
        ensures { StepsAs result (reading text.now self.new)
            (spec.read_token (reading text.now self.old) (token_view token.entry)) }
    {
        match self.goals.pop() {
            None => Err(Refusal::Of(LangKind::NoProgram)),
            Some(goal) => self.read_for(goal, token, text, start),
        }
    }

    /// Reads a word, which stands at `start`.
    fn read_word(&mut self, word: &'a [u8], text: &[u8], start: u32) -> Result<(), Refusal>
        requires { word.now ≡ word_at text.now start }
        ensures { StepsAs result (reading text.now self.new)
            (spec.read_word (reading text.now self.old) word.now) }
    {
        match token_of(word) {
            None => Err(Refusal::Of(LangKind::NoToken)),
            Some(token) => self.read_token(token, text, start),
        }
    }

    /// What was read, at the end of the text.
    fn end(self, alloc: Global, text: &'a [u8], line: u32) -> Result<Syntax<'a>, LangFault>
        ensures { ReadsAs result (spec.read_end line (reading text.now self.entry)) }
    {
        if !self.goals.is_met() {
            return Err(LangFault::At(line, LangKind::NoProgram));
        }
        if self.tokens.len() > MAX_TOKENS {
            return Err(LangFault::At(line, LangKind::TooManyTokens));
        }
        match self.known.names(alloc, text) {
            Ok(names) => Ok(Syntax::new(self.tokens, names)),
            Err(_) => Err(LangFault::NoMemory),
        }
    }
}

/// The fault of a refusal in a line.
fn fault_in(line: u32, refusal: Refusal) -> LangFault
    ensures { result ≡ fault_in line refusal }
{
    match refusal {
        Refusal::Of(kind) => LangFault::At(line, kind),
        Refusal::NoMemory => LangFault::NoMemory,
    }
}

/// A place in a text, and the number of the line in which it stands.
#[derive(Clone, Copy)]
struct Place {
    at: usize,
    line: u32,
}

impl Place {
    /// Passes over a word, which is read.
    #[tactic(auto, using(crate::proofs::Passing::word_read, crate::proofs::Passing::word_is_there))]
    fn pass_word<'a>(&mut self, reader: &mut Reader<'a>, text: &'a [u8]) -> Result<(), LangFault>
        requires small { length text.now ≤ 16_777_216 }
        requires within { self.old.at < length text.now }
        requires line { self.old.line ≤ self.old.at + 1 }
        requires word { is_separator (slice_index text.now self.old.at) ≡ false }
        ensures ok { OnOk result (IsPassed text.now self.old reader.old self.new reader.new) }
        ensures err { IfErr result (IsStoppedBehind text.now self.old reader.old) }
    {
        let start = self.at as u32;
        let word = word_at(text, start);
        match reader.read_word(word, text, start) {
            Ok(()) => {
                self.at += word.len();
                Ok(())
            }
            Err(refusal) => Err(fault_in(self.line, refusal)),
        }
    }

    /// Passes over a newline, a space or a word, which is read.
    #[tactic(auto, using(crate::proofs::Passing::newline_passed, crate::proofs::Passing::space_passed))]
    fn pass<'a>(&mut self, reader: &mut Reader<'a>, text: &'a [u8]) -> Result<(), LangFault>
        requires small { length text.now ≤ 16_777_216 }
        requires within { self.old.at < length text.now }
        requires line { self.old.line ≤ self.old.at + 1 }
        ensures ok { OnOk result (IsPassed text.now self.old reader.old self.new reader.new) }
        ensures err { IfErr result (IsStoppedBehind text.now self.old reader.old) }
    {
        match text[self.at] {
            b'\n' => {
                self.at += 1;
                self.line += 1;
                Ok(())
            }
            b' ' => {
                self.at += 1;
                Ok(())
            }
            _ => self.pass_word(reader, text),
        }
    }
}

fn newlines_of(text: &[u8]) -> usize
    ensures { result ≡ count_by (λ b. b == 10) text.now }
{
    text.iter().filter(|b| **b == b'\n').count()
}

/// The number of the last line of a text.
fn last_line(text: &[u8]) -> u32
    requires { length text.now ≤ 16_777_216 }
    ensures { result ≡ last_line text.now }
{
    let end = text.len().saturating_sub(1);
    newlines_of(&text[..end]) as u32 + 1
}

/// Reads the words of a text.
#[tactic(auto, using(crate::proofs::Passing::all_read))]
fn read_words<'a>(reader: &mut Reader<'a>, text: &'a [u8]) -> Result<(), LangFault>
    requires { length text.now ≤ 16_777_216 }
    ensures ok { OnOk result (spec.read_words (reading text.now reader.old) (words text.now)
        ≡ Ok (reading text.now reader.new)) }
    ensures err { IfErr result (λ e. Refuses e
        (spec.read_words (reading text.now reader.old) (words text.now))) }
{
    let mut place = Place { at: 0, line: 1 };
    while place.at < text.len() {
        match place.pass(reader, text) {
            Ok(()) => (),
            Err(fault) => return Err(fault),
        }
    }
    Ok(())
}

/// What a text says, or the line that is refused and why.
pub fn read_text(alloc: Global, text: &[u8]) -> Result<Syntax<'_>, LangFault>
    requires { length text.now ≤ 16_777_216 }
    ensures { ReadsAs result (spec.read text.now) }
{
    let mut reader = match Reader::new(alloc, text) {
        Ok(reader) => reader,
        Err(_) => return Err(LangFault::NoMemory),
    };
    read_words(&mut reader, text)?;
    reader.end(alloc, text, last_line(text))
}
