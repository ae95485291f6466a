//! What a line of assembler text says.

ghost use Rattle.std.specs.Prelude.{◌≡◌, true, IsSome, IfSome, IfOk, option_map};
ghost use Rattle.std.specs.List.{list_any};
ghost use Rattle.graft_texts.specs.Instructions.{is_register_field, is_imm_field, op_named};
ghost use Rattle.graft_texts.specs.Assembler as spec;
ghost use Rattle.gm_asm.specs.Views.{imm_view, statement_view, said_view, StatementFits};

use crate::words::{Imm, imm_of, label_set_by, register_of};
use gm_image::{Instr, Op, form_of};
use graft_texts::AsmKind;
use text_words::Parts;

/// What a line says.
#[derive(Clone, Copy)]
pub enum Statement<'a> {
    Blank,
    SetsLabel(&'a [u8]),
    /// Hex digits of data.
    Data(&'a [u8]),
    /// An instruction, and the label that is to give its imm.
    Instruction(Instr, Option<&'a [u8]>),
}

/// The register that a field names, which is the next word, or 0 for a field that isn't named.
fn register_field(named: bool, words: &mut Parts) -> Option<u8>
    ensures field { option_map (λ n. record { value = n; rest = words.new }) result
        ≡ spec.register_field named words.old }
    ensures fits { IfSome result (λ n. is_register_field named n ≡ true) }
{
    if !named {
        return Some(0);
    }
    register_of(words.next()?)
}

/// The imm that a field names, which is the next word, or 0 for a field that isn't named.
fn imm_field<'a>(op: Op, named: bool, words: &mut Parts<'a>) -> Option<Imm<'a>>
    ensures field { option_map (λ i. record { value = imm_view i; rest = words.new }) result
        ≡ spec.imm_field op named words.old }
    ensures fits { IfSome result (λ i. is_imm_field named i.value ≡ true) }
    ensures labelled { IfSome result (λ i. IsSome i.label → named ≡ true) }
{
    if !named {
        return Some(Imm {
            value: 0,
            label: None,
        });
    }
    imm_of(op, words.next()?)
}

/// The instruction of an operation whose operands are these words, in the order of its fields.
fn operands_of<'a>(op: Op, words: &mut Parts<'a>) -> Option<Statement<'a>>
    ensures operands { option_map statement_view result ≡ spec.operands_of op words.old }
    ensures fits { IfSome result StatementFits }
{
    let form = form_of(op);
    let a = register_field(form.a, words)?;
    let b = register_field(form.b, words)?;
    let c = register_field(form.c, words)?;
    let imm = imm_field(op, form.imm, words)?;
    match words.next() {
        Some(_) => None,
        None => {
            let instr = Instr {
                op,
                a,
                b,
                c,
                imm: imm.value,
            };
            Some(Statement::Instruction(instr, imm.label))
        }
    }
}

/// A line that begins with a mnemonic.
fn by_mnemonic<'a>(first: &[u8], words: &mut Parts<'a>) -> Result<Statement<'a>, AsmKind>
    ensures said { said_view result ≡ spec.by_mnemonic (op_named first.now) words.old }
    ensures fits { IfOk result StatementFits }
{
    match gm_image::op_named(first) {
        None => Err(AsmKind::UnknownMnemonic),
        Some(op) => match operands_of(op, words) {
            None => Err(AsmKind::BadOperands),
            Some(statement) => Ok(statement),
        },
    }
}

/// A line of data, behind `.bytes`.
fn by_digits<'a>(words: &mut Parts<'a>) -> Result<Statement<'a>, AsmKind>
    ensures said { said_view result ≡ spec.by_digits words.old }
    ensures fits { IfOk result StatementFits }
{
    let Some(digits) = words.next() else {
        return Err(AsmKind::BadOperands);
    };
    match words.next() {
        Some(_) => Err(AsmKind::BadOperands),
        None => Ok(Statement::Data(digits)),
    }
}

/// A line that sets a label.
fn by_label<'a>(name: &'a [u8], words: &mut Parts<'a>) -> Result<Statement<'a>, AsmKind>
    ensures said { said_view result ≡ spec.by_label name.now words.old }
    ensures fits { IfOk result StatementFits }
{
    match words.next() {
        Some(_) => Err(AsmKind::BadOperands),
        None => Ok(Statement::SetsLabel(name)),
    }
}

/// What a line of words says.
fn by_words<'a>(mut words: Parts<'a>) -> Result<Statement<'a>, AsmKind>
    ensures said { said_view result ≡ spec.by_words words.entry }
    ensures fits { IfOk result StatementFits }
{
    let Some(first) = words.next() else {
        return Ok(Statement::Blank);
    };
    match label_set_by(first) {
        Some(name) => by_label(name, &mut words),
        None => {
            if first == b".bytes".as_slice() {
                by_digits(&mut words)
            } else {
                by_mnemonic(first, &mut words)
            }
        }
    }
}

/// Whether a word of a line has no bytes.
fn has_empty_word(mut words: Parts) -> bool
    ensures { result ≡ list_any spec.is_empty words.entry }
{
    while let Some(word) = words.next() {
        if word.is_empty() {
            return true;
        }
    }
    false
}

/// What a line says, or why it is refused: `BadOperands` for a line with an empty word, else by its
/// first word, which is a label with its colon, `.bytes` or a mnemonic.
pub fn statement_of(line: &[u8]) -> Result<Statement<'_>, AsmKind>
    ensures said { said_view result ≡ spec.statement_of line.now }
    ensures fits { IfOk result StatementFits }
{
    if line.is_empty() || line[0] == b'#' {
        return Ok(Statement::Blank);
    }
    if has_empty_word(Parts::new(line, b' ')) {
        return Err(AsmKind::BadOperands);
    }
    by_words(Parts::new(line, b' '))
}
