//! The words of a text and the tokens that they spell.

ghost use Rattle.std.specs.Prelude.{◌≡◌, option_map, IfSome};
ghost use Rattle.graft_syntax.specs.Views.{token_view};
ghost use Rattle.graft_syntax.specs.Places.{IsWord};
ghost use Rattle.graft_texts.specs.LanguageTokens as spec;
ghost use Rattle.graft_texts.specs.Bytes as model;

use crate::{Operator, Symbol, Token};
use accessor_list::id_of;
use text_words::{is_label, number_of, place_of};

/// Every symbol, and what spells it.
const SYMBOLS: [Symbol; 12] = [
    Symbol::If,
    Symbol::Else,
    Symbol::While,
    Symbol::Trap,
    Symbol::Answer,
    Symbol::Assign,
    Symbol::Semicolon,
    Symbol::OpenBrace,
    Symbol::CloseBrace,
    Symbol::OpenParenthesis,
    Symbol::CloseParenthesis,
    Symbol::Comma,
];

const SYMBOL_NAMES: [&str; 12] = [
    "if", "else", "while", "trap", "answer", "=", ";", "{", "}", "(", ")", ",",
];

/// Every operator, and what spells it.
const OPERATORS: [Operator; 12] = [
    Operator::Plus,
    Operator::Minus,
    Operator::Times,
    Operator::Over,
    Operator::Rest,
    Operator::And,
    Operator::Or,
    Operator::Xor,
    Operator::ShiftLeft,
    Operator::ShiftRight,
    Operator::Less,
    Operator::Equal,
];

const OPERATOR_NAMES: [&str; 12] = [
    "+", "-", "*", "/", "%", "&", "|", "^", "<<", ">>", "<", "==",
];

/// How many arguments the callables have, in the order of their ids.
const ARITIES: [u32; 16] = [1, 2, 0, 1, 1, 2, 0, 1, 1, 2, 2, 3, 1, 1, 0, 0];

/// How many arguments a callable has; none for a number that is no id.
pub fn arguments_of(id: u32) -> u32
    ensures { result ≡ spec.arguments_of id }
{
    match ARITIES.get(id as usize) {
        Some(n) => *n,
        None => 0,
    }
}

fn symbol_of(word: &[u8]) -> Option<Symbol>
    ensures { result ≡ spec.symbol_of word.now }
{
    match place_of(word, &SYMBOL_NAMES) {
        Some(i) => SYMBOLS.get(i).copied(),
        None => None,
    }
}

fn operator_of(word: &[u8]) -> Option<Operator>
    ensures { result ≡ spec.operator_of word.now }
{
    match place_of(word, &OPERATOR_NAMES) {
        Some(i) => OPERATORS.get(i).copied(),
        None => None,
    }
}

fn variable_of(word: &[u8]) -> Option<Token<'_>>
    ensures token { option_map token_view result ≡ spec.variable_of word.now }
    ensures whole { IfSome result (λ token. IsWord token word.now) }
{
    if is_label(word) {
        Some(Token::Variable(word))
    } else {
        None
    }
}

fn value_of(word: &[u8]) -> Option<Token<'_>>
    ensures token { option_map token_view result
        ≡ spec.by_number (model.number_of word.now) word.now }
    ensures whole { IfSome result (λ token. IsWord token word.now) }
{
    match number_of(word) {
        Some(n) => Some(Token::Number(n)),
        None => variable_of(word),
    }
}

fn named_of(word: &[u8]) -> Option<Token<'_>>
    ensures token { option_map token_view result
        ≡ spec.by_operator (spec.operator_of word.now) word.now }
    ensures whole { IfSome result (λ token. IsWord token word.now) }
{
    if let Some(op) = operator_of(word) {
        return Some(Token::Infix(op));
    }
    match id_of(word) {
        Some(id) => Some(Token::Callable(id)),
        None => value_of(word),
    }
}

/// The token that a word is, if it is one.
pub fn token_of(word: &[u8]) -> Option<Token<'_>>
    ensures token { option_map token_view result ≡ spec.token_of word.now }
    ensures whole { IfSome result (λ token. IsWord token word.now) }
{
    match symbol_of(word) {
        Some(s) => Some(Token::Mark(s)),
        None => named_of(word),
    }
}

fn number_of_symbol(s: Symbol) -> u8
    ensures { result ≡ spec.symbol_number s }
{
    s as u8
}

/// Whether two symbols are one.
pub fn same_symbol(s: Symbol, t: Symbol) -> bool
    ensures { result ≡ spec.same_symbol s t }
{
    number_of_symbol(s) == number_of_symbol(t)
}
