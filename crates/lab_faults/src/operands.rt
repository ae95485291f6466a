//! Which word of an instruction is wrong, and how.

use accessor_list::id_of;
use gm_isa::{Op, form_of, op_named};
use lab_places::{Span, bytes_of, next_word};
use text_words::{is_label, number_of};

/// A word that is wrong, or the place where one is missing, and what to say of it.
#[derive(Clone, Copy)]
pub struct Wrong {
    pub span: Span,
    /// What the word isn't, or what is missing.
    pub said: &'static str,
    /// What helps.
    pub hint: &'static str,
    /// Whether the word is named.
    pub named: bool,
}

/// A word that is named.
fn blames(span: Span, said: &'static str, hint: &'static str) -> Option<Wrong> {
    Some(Wrong {
        span,
        said,
        hint,
        named: true,
    })
}

/// A place where something is missing.
fn lacks(at: usize, said: &'static str, hint: &'static str) -> Option<Wrong> {
    Some(Wrong {
        span: Span { from: at, to: at },
        said,
        hint,
        named: false,
    })
}

/// Whether a word has a capital letter.
fn has_capital(word: &[u8]) -> bool {
    word.iter().any(|b| b.is_ascii_uppercase())
}

/// Whether a word is `r0` to `r15`.
fn is_register(word: &[u8]) -> bool {
    match word {
        [b'r', digits @ ..] => match number_of(digits) {
            Some(n) => n < 16 && digits.len() < 3 && (digits.len() == 1 || digits[0] == b'1'),
            None => false,
        },
        _ => false,
    }
}

/// What helps where a word is no register.
fn register_hint(word: &[u8]) -> &'static str {
    if word.contains(&b',') {
        "separate operands by spaces, not by commas"
    } else if word.contains(&b'[') || word.contains(&b'(') {
        "an address is a register alone, as in `ldw r1 r2`"
    } else if has_capital(word) {
        "use small letters: registers are r0 to r15"
    } else if number_of(word).is_some() {
        "a register is needed here; `li r1 5` puts a number into one"
    } else {
        "registers are r0 to r15"
    }
}

/// What helps where a word is no number.
fn number_hint(word: &[u8]) -> &'static str {
    if word.starts_with(b"-") {
        "numbers are 0 to 4294967295; -1 is 4294967295"
    } else if word.contains(&b',') {
        "separate operands by spaces, not by commas"
    } else if word.starts_with(b"0x") || word.starts_with(b"0X") {
        "hex is 0x and hex digits, at most 0xffffffff"
    } else {
        "numbers are 0 to 4294967295, or in hex as 0x2a"
    }
}

/// Whether a word is a number, also in hex.
fn is_number(word: &[u8]) -> bool {
    if let [b'0', b'x', digits @ ..] = word {
        return !digits.is_empty()
            && digits.len() <= 8
            && digits.iter().all(|b| b.is_ascii_hexdigit());
    }
    number_of(word).is_some()
}

/// Whether a word is a target of a jump.
fn is_target(word: &[u8]) -> bool {
    match word {
        [b'@', digits @ ..] => number_of(digits).is_some(),
        _ => is_label(word),
    }
}

/// What is wrong with a word for a register.
fn check_register(word: &[u8], span: Span) -> Option<Wrong> {
    if is_register(word) {
        return None;
    }
    blames(span, "isn't a register", register_hint(word))
}

/// What is wrong with a word for the number of an operation.
fn check_imm(op: Op, word: &[u8], span: Span) -> Option<Wrong> {
    match op {
        Op::Jmp | Op::Jz | Op::Jnz => {
            if is_target(word) {
                return None;
            }
            blames(
                span,
                "isn't a target",
                "a target is a label without its colon, or @ and the number of an instruction",
            )
        }
        Op::Call => {
            if id_of(word).is_some() || is_number(word) {
                return None;
            }
            blames(span, "isn't a callable", "docs/CALLS.md has the list")
        }
        _ => {
            if is_number(word) {
                return None;
            }
            blames(span, "isn't a number", number_hint(word))
        }
    }
}

/// A reader of the operands of one instruction.
#[derive(Drop)]
struct Operands<'a> {
    line: &'a [u8],
    at: usize,
    end: usize,
}

/// The next operand, or the place where it is missing.
fn next_operand<'a>(operands: &mut Operands<'a>) -> Option<(&'a [u8], Span)> {
    let span = next_word(operands.line, operands.at, operands.end)?;
    operands.at = span.to;
    Some((bytes_of(operands.line, span), span))
}

/// What is wrong with a field for a register, if it is named.
fn check_field(operands: &mut Operands, named: bool) -> Option<Wrong> {
    if !named {
        return None;
    }
    match next_operand(operands) {
        None => lacks(
            operands.at,
            "a register is missing",
            "registers are r0 to r15",
        ),
        Some((word, span)) => check_register(word, span),
    }
}

/// What is wrong with the field for a number, if it is named.
fn check_number(operands: &mut Operands, op: Op, named: bool) -> Option<Wrong> {
    if !named {
        return None;
    }
    match next_operand(operands) {
        None => lacks(
            operands.at,
            "an operand is missing",
            "a number, a target or a callable",
        ),
        Some((word, span)) => check_imm(op, word, span),
    }
}

/// What is wrong with the operands of an operation, which stand from `at` to `end`.
fn check_operands(line: &[u8], op: Op, at: usize, end: usize) -> Option<Wrong> {
    let form = form_of(op);
    let mut operands = Operands { line, at, end };
    let found = check_field(&mut operands, form.a)
        .or(check_field(&mut operands, form.b))
        .or(check_field(&mut operands, form.c))
        .or(check_number(&mut operands, op, form.imm));
    if found.is_some() {
        return found;
    }
    match next_operand(&mut operands) {
        None => None,
        Some((word, span)) => {
            let hint = if word.starts_with(b"//") {
                "a remark begins with #"
            } else {
                "docs/FORMATS.md has the operands of each instruction"
            };
            blames(span, "is one operand too many", hint)
        }
    }
}

/// What helps where nothing better is known of a word that names no operation.
pub const LISTED: &str = "docs/FORMATS.md lists them";

/// Whether a word begins a line of a script, and not of a graft.
pub fn is_outside(word: &[u8]) -> bool {
    match word {
        b"graft"
        | b"boot"
        | b"image"
        | b"install"
        | b"bill"
        | b"fund"
        | b"frames"
        | b"patience"
        | b"grant"
        | b"spawn"
        | b"yield"
        | b"step" => true,
        _ => false,
    }
}

/// What is wrong with a first word that names no operation.
fn check_mnemonic(word: &[u8], span: Span) -> Option<Wrong> {
    let hint = if word.starts_with(b"//") {
        "a remark begins with #"
    } else if is_outside(word) {
        "the line of a script; the graft above it has no `end`"
    } else if word.contains(&b':') {
        "a label is a letter a to z, then letters, digits and _, up to 16 bytes, and a colon"
    } else if has_capital(word) {
        "use small letters for instructions"
    } else if word.contains(&b',') {
        "separate operands by spaces, not by commas"
    } else if id_of(word).is_some() {
        "a callable is called by `call` and its name"
    } else {
        LISTED
    };
    blames(span, "isn't an instruction", hint)
}

/// What is wrong with an instruction, a label or data that stands from `from` to `end`, if it is
/// seen from it alone.
pub fn check_statement(line: &[u8], from: usize, end: usize) -> Option<Wrong> {
    let first = next_word(line, from, end)?;
    let word = bytes_of(line, first);
    if let [name @ .., b':'] = word {
        if is_label(name) {
            let behind = next_word(line, first.to, end)?;
            return blames(
                behind,
                "follows a label",
                "put `;` or a new line between them",
            );
        }
    }
    if word == b".bytes".as_slice() {
        return match next_word(line, first.to, end) {
            None => lacks(first.to, "hex digits are missing", "as in `.bytes 00ff`"),
            Some(digits) => check_data(line, digits, end),
        };
    }
    match op_named(word) {
        None => check_mnemonic(word, first),
        Some(op) => check_operands(line, op, first.to, end),
    }
}

/// What is wrong with the digits of data.
fn check_data(line: &[u8], digits: Span, end: usize) -> Option<Wrong> {
    if let Some(more) = next_word(line, digits.to, end) {
        return blames(
            more,
            "is one word too many",
            "the digits of `.bytes` are one word",
        );
    }
    let word = bytes_of(line, digits);
    if word.len() % 2 == 0 && word.iter().all(|b| b.is_ascii_hexdigit()) {
        return None;
    }
    blames(
        digits,
        "isn't hex digits, an even number of them",
        "as in `.bytes 00ff`",
    )
}
