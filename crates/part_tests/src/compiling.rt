//! A text that is read, and one that is compiled, with ample memory.

use gm_isa::{Instr, Op};
use graft_lang::compile;
use graft_syntax::read;

#[test]
fn a_text_is_its_tokens_and_variables(rt: HostRuntime) {
    let text = b"b = 7 ;\na1 = b ;\n";
    let syntax = read(rt.alloc(), text.as_slice()).expect(&rt, "ample memory");
    assert_eq!(rt; syntax.tokens().len(), 8);
    assert_eq!(rt; syntax.variables(), 5);
}

/// An instruction as its fields.
fn row_of(i: &Instr) -> (Op, u8, u8, u8, u32) {
    (i.op, i.a, i.b, i.c, i.imm)
}

#[test]
fn the_empty_text_answers_its_first_arguments(rt: HostRuntime) {
    let rows = [
        // the arguments in the slots 0 to 3, and a zero
        (Op::Mov, 7, 0, 0, 0),
        (Op::Mov, 8, 1, 0, 0),
        (Op::Mov, 9, 2, 0, 0),
        (Op::Mov, 10, 3, 0, 0),
        (Op::Li, 4, 0, 0, 0),
        // the end of the text
        (Op::Mov, 0, 7, 0, 0),
        (Op::Mov, 1, 8, 0, 0),
        (Op::Ret, 0, 0, 0, 0),
    ];
    let image = compile(rt.alloc(), b"".as_slice()).expect(&rt, "ample memory");
    assert_eq!(rt; image.code().len(), 8);
    assert!(rt; image.body().is_empty());
    for (i, want) in image.code().iter().zip(&rows) {
        assert!(rt; row_of(i) == *want, "{}", want.1);
    }
}
