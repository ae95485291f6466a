//! The words of assembler text: numbers, registers, labels, targets and callees.

ghost use Rattle.std.specs.Prelude.{◌≡◌};
ghost use Rattle.std.specs.Option.{option_map, option_copied};
ghost use Rattle.gm_asm.specs.Views.{imm_view};
ghost use Rattle.graft_texts.specs.Bytes as model;
ghost use Rattle.graft_texts.specs.Assembler as spec;

use accessor_list::id_of;
use gm_image::Op;
use text_words::{is_label, number_of, place_of};

/// An imm as it is written: a number, or a label that is to give it, and then 0.
#[derive(Clone, Copy)]
pub struct Imm<'a> {
    pub value: u32,
    pub label: Option<&'a [u8]>,
}

/// The names of the registers, in the order of their numbers.
const REGISTERS: [&str; 16] = [
    "r0", "r1", "r2", "r3", "r4", "r5", "r6", "r7", "r8", "r9", "r10", "r11", "r12", "r13", "r14",
    "r15",
];

/// The number of a register.
pub fn register_of(word: &[u8]) -> Option<u8>
    ensures { result ≡ spec.register_of word.now }
{
    match place_of(word, &REGISTERS) {
        Some(n) => Some(n as u8),
        None => None,
    }
}

/// The label that a word with a colon sets.
pub fn label_set_by(word: &[u8]) -> Option<&[u8]>
    ensures { option_copied result ≡ spec.label_set_by word.now }
{
    let (last, name) = word.split_last()?;
    if *last == b':' && is_label(name) {
        Some(name)
    } else {
        None
    }
}

fn number_imm<'a>(n: Option<u32>) -> Option<Imm<'a>>
    ensures { option_map imm_view result ≡ spec.number_imm n }
{
    match n {
        None => None,
        Some(value) => Some(Imm { value, label: None }),
    }
}

fn label_imm(word: &[u8]) -> Option<Imm<'_>>
    ensures { option_map imm_view result ≡ spec.label_imm word.now }
{
    if is_label(word) {
        Some(Imm {
            value: 0,
            label: Some(word),
        })
    } else {
        None
    }
}

/// A target of a jump: `@` and a number, or a label.
fn target_of(word: &[u8]) -> Option<Imm<'_>>
    ensures { option_map imm_view result ≡ spec.target_of word.now }
{
    match word.split_first() {
        None => None,
        Some((first, others)) => {
            if *first == b'@' {
                number_imm(number_of(others))
            } else {
                label_imm(word)
            }
        }
    }
}

/// What is called: a name of the callable list, or a number.
fn callee_of(word: &[u8]) -> Option<u32>
    ensures { result ≡ spec.callee_of word.now }
{
    match id_of(word) {
        Some(id) => Some(id),
        None => number_of(word),
    }
}

/// The imm of an operation: a target, a callee or a number.
pub fn imm_of(op: Op, word: &[u8]) -> Option<Imm<'_>>
    ensures { option_map imm_view result ≡ spec.imm_of op word.now }
{
    match op {
        Op::Jmp | Op::Jz | Op::Jnz => target_of(word),
        Op::Call => number_imm(callee_of(word)),
        _ => number_imm(number_of(word)),
    }
}
