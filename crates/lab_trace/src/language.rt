//! Which line of a text in the graft language each instruction of its code comes from, and the
//! names of its variables.

use crate::costs::{Costs, IN_REGISTERS};
use graft_syntax::{Syntax, Token, read};
use kernel_data::NoMemory;
use lab_lowering::Graft;
use std::alloc::Global;
use text_words::{Parts, put};

/// The most bytes of a text.
const TEXT_BYTES: usize = 16_777_216;

/// How many arguments a program has.
const ARGUMENTS: usize = 4;

/// Puts a line down for so many instructions.
fn put_line(lines: &mut Vec<usize>, line: usize, count: u32) -> Result<(), NoMemory> {
    for _ in 0..count {
        put(lines, line)?;
    }
    Ok(())
}

/// The number of a variable; 0 for another token.
fn slot_of(syntax: &Syntax, token: &Token) -> usize {
    match token {
        Token::Variable(name) => syntax.number_of(name),
        _ => 0,
    }
}

/// What was read of a text, and how many of its tokens were passed.
#[derive(Drop)]
struct Passing<'t, 'a> {
    syntax: &'t Syntax<'a>,
    next: usize,
    costs: Costs,
}

/// Puts down the instructions of the tokens of a line of the text, which has this number.
fn put_tokens(
    lines: &mut Vec<usize>,
    passing: &mut Passing,
    text: &[u8],
    number: usize,
) -> Result<(), NoMemory> {
    let mut words = Parts::new(text, b' ');
    while let Some(word) = words.next() {
        if !word.is_empty() {
            let syntax = passing.syntax;
            if let Some(token) = syntax.tokens().get(passing.next) {
                let count = passing.costs.take(*token, slot_of(syntax, token))?;
                put_line(lines, number, count)?;
                passing.next = passing.next.saturating_add(1);
            }
        }
    }
    Ok(())
}

/// The line of the file for each instruction: the code before the first statement and behind the
/// last one is of the line that begins the graft.
fn lines_by(alloc: Global, graft: &Graft, syntax: &Syntax) -> Result<Vec<usize>, NoMemory> {
    let mut lines = Vec::new(alloc);
    let others = syntax.variables().saturating_sub(ARGUMENTS).min(TEXT_BYTES);
    let registers = others.min(IN_REGISTERS - ARGUMENTS);
    put_line(&mut lines, graft.begun(), 5)?;
    put_line(&mut lines, graft.begun(), registers as u32)?;
    put_line(&mut lines, graft.begun(), 2 * (others - registers) as u32)?;
    let mut passing = Passing {
        syntax,
        next: 0,
        costs: Costs::new(alloc, syntax.variables()),
    };
    let mut texts = Parts::new(graft.text(), b'\n');
    for number in graft.lines() {
        if let Some(text) = texts.next() {
            put_tokens(&mut lines, &mut passing, text, *number)?;
        }
    }
    put_line(&mut lines, graft.begun(), 3)?;
    Ok(lines)
}

/// The line of the file for each of so many instructions; none where that isn't known.
pub fn language_lines(alloc: Global, graft: &Graft, count: usize) -> Result<Vec<usize>, NoMemory> {
    if graft.text().len() > TEXT_BYTES {
        return Ok(Vec::new(alloc));
    }
    let Ok(syntax) = read(alloc, graft.text()) else {
        return Ok(Vec::new(alloc));
    };
    let lines = lines_by(alloc, graft, &syntax)?;
    if lines.len() == count {
        Ok(lines)
    } else {
        Ok(Vec::new(alloc))
    }
}

/// The name that a token is, if it is a variable of this number.
fn name_in<'a>(syntax: &Syntax<'a>, token: &Token<'a>, number: usize) -> Option<&'a [u8]> {
    match token {
        Token::Variable(name) if syntax.number_of(name) == number => Some(*name),
        _ => None,
    }
}

/// The name of a variable behind the arguments.
fn name_of<'a>(syntax: &Syntax<'a>, number: usize) -> Option<&'a [u8]> {
    for token in syntax.tokens() {
        if let Some(name) = name_in(syntax, token, number) {
            return Some(name);
        }
    }
    None
}

/// Appends the name of an argument or of another variable, quoted.
fn append_name(out: &mut Vec<u8>, syntax: &Syntax, number: usize) -> Result<(), NoMemory> {
    match number {
        0 => lab_state::append_quoted(out, b"a0"),
        1 => lab_state::append_quoted(out, b"a1"),
        2 => lab_state::append_quoted(out, b"a2"),
        3 => lab_state::append_quoted(out, b"a3"),
        _ => match name_of(syntax, number) {
            Some(name) => lab_state::append_quoted(out, name),
            None => text_words::append(out, b"null"),
        },
    }
}

/// Appends the names of a program's variables, with commas between them.
fn append_all(out: &mut Vec<u8>, syntax: &Syntax) -> Result<(), NoMemory> {
    for number in 0..syntax.variables() {
        if number > 0 {
            text_words::append(out, b",")?;
        }
        append_name(out, syntax, number)?;
    }
    Ok(())
}

/// Appends the names of the variables of a graft in the graft language, with commas between them.
pub fn append_variables(alloc: Global, out: &mut Vec<u8>, graft: &Graft) -> Result<(), NoMemory> {
    if graft.text().len() > TEXT_BYTES {
        return Ok(());
    }
    match read(alloc, graft.text()) {
        Ok(syntax) => append_all(out, &syntax),
        Err(_) => Ok(()),
    }
}
