//! Assembler text of an image.

ghost use Rattle.std.specs.Prelude.{◌≡◌, ◌++◌, [], ◌∷◌, codes, flat_map, OnOk};
ghost use Rattle.graft_texts.specs.Assembler as spec;
ghost use Rattle.hex.specs.Hex.{encode_lower};

use gm_image::{Instr, Op, form_of, name_of};
use graft_texts::NoMemory;
use std::alloc::Global;
use text_words::{append, append_number};

/// Appends a space and a register, if its field is named.
fn append_register(out: &mut Vec<u8>, named: bool, n: u8) -> Result<(), NoMemory>
    ensures { OnOk result (out.new.items ≡ out.old.items
        ++ spec.operand_text named (spec.register_word n)) }
{
    if named {
        append(out, b" r")?;
        append_number(out, u32::from(n))?;
    }
    Ok(())
}

/// Appends a space and an imm, if the field is named.
fn append_imm(out: &mut Vec<u8>, named: bool, op: Op, n: u32) -> Result<(), NoMemory>
    ensures { OnOk result (out.new.items ≡ out.old.items
        ++ spec.operand_text named (spec.imm_word op n)) }
{
    if named {
        let start: &[u8] = match op {
            Op::Jmp | Op::Jz | Op::Jnz => b" @",
            _ => b" ",
        };
        append(out, start)?;
        append_number(out, n)?;
    }
    Ok(())
}

/// Appends the line of an instruction.
fn append_instr(out: &mut Vec<u8>, i: Instr) -> Result<(), NoMemory>
    ensures { OnOk result (out.new.items ≡ out.old.items ++ spec.instr_text i) }
{
    let form = form_of(i.op);
    append(out, name_of(i.op).as_bytes())?;
    append_register(out, form.a, i.a)?;
    append_register(out, form.b, i.b)?;
    append_register(out, form.c, i.c)?;
    append_imm(out, form.imm, i.op, i.imm)?;
    append(out, b"\n")
}

/// Appends the lines of instructions.
pub fn append_code(out: &mut Vec<u8>, code: &[Instr]) -> Result<(), NoMemory>
    ensures { OnOk result (out.new.items ≡ out.old.items ++ flat_map spec.instr_text code.now) }
{
    for i in code {
        append_instr(out, *i)?;
    }
    Ok(())
}

/// Appends the line of data of some bytes.
fn append_data(alloc: Global, out: &mut Vec<u8>, body: &[u8]) -> Result<(), NoMemory>
    ensures { OnOk result (out.new.items ≡ out.old.items
        ++ (codes ".bytes " ++ encode_lower body.now ++ 10 ∷ [])) }
{
    let Ok(digits) = hex::encode(alloc, body) else {
        return Err(NoMemory);
    };
    append(out, b".bytes ")?;
    append(out, digits.as_bytes())?;
    append(out, b"\n")
}

/// Appends the line of the data, if there is any.
pub fn append_body(alloc: Global, out: &mut Vec<u8>, body: &[u8]) -> Result<(), NoMemory>
    ensures { OnOk result (out.new.items ≡ out.old.items ++ spec.body_text body.now) }
{
    if body.is_empty() {
        return Ok(());
    }
    append_data(alloc, out, body)
}
