//! Labels become the numbers of instructions.

ghost use Rattle.std.specs.Prelude.{◌≡◌, ◌++◌, [], ◌∷◌, length, map, true, Ok, IfOk, IfErr, OnOk};
ghost use Rattle.std.specs.List.{list_all};
ghost use Rattle.std.specs.Option.{option_copied};
ghost use Rattle.graft_texts.specs.Assembler as spec;
ghost use Rattle.graft_texts.specs.Instructions.{fits};
ghost use Rattle.gm_asm.specs.Faults.{Refuses};
ghost use Rattle.gm_asm.specs.State.{placed_view, label_view, is_placed_instr};

use crate::AsmFault;
use crate::assembly::{Labels, Placed, place_of};
use gm_image::Instr;
use graft_texts::{AsmKind, NoMemory};
use std::alloc::Global;

/// An instruction whose label, if it has one, has become the number of an instruction.
fn link_one(labels: &Labels, placed: Placed) -> Result<Instr, AsmFault>
    requires { is_placed_instr placed ≡ true }
    ensures ok { IfOk result
        (λ i. spec.linked_by (map label_view labels.now.entries) (placed_view placed.entry)
        (option_copied placed.entry.label) ≡ Ok i) }
    ensures fit { IfOk result (λ i. fits i ≡ true) }
    ensures err { IfErr result
        (λ e. Refuses e (spec.linked_by (map label_view labels.now.entries)
        (placed_view placed.entry)
        (option_copied placed.entry.label))) }
{
    match placed.label {
        None => Ok(placed.instr),
        Some(name) => match place_of(labels, name) {
            None => Err(AsmFault::At(placed.line, AsmKind::LabelNotSet)),
            Some(place) => Ok(Instr {
                imm: place,
                ..placed.instr
            }),
        },
    }
}

/// Puts an instruction behind the others.
fn push(code: &mut Vec<Instr>, instr: Instr) -> Result<(), NoMemory>
    ensures { OnOk result (code.new.items ≡ code.old.items ++ instr ∷ []) }
{
    match code.push(instr) {
        Ok(()) => Ok(()),
        Err(_) => Err(NoMemory),
    }
}

/// Instructions whose labels have become numbers. The first one whose label is never set decides.
pub fn link_code(alloc: Global, labels: &Labels, code: &[Placed]) -> Result<Vec<Instr>, AsmFault>
    requires { list_all is_placed_instr code.now ≡ true }
    ensures ok { IfOk result
        (λ linked. spec.linked (map label_view labels.now.entries) (map placed_view code.now)
        ≡ Ok linked.items) }
    ensures len { IfOk result (λ linked. length linked.items ≡ length code.now) }
    ensures fit { IfOk result (λ linked. list_all fits linked.items ≡ true) }
    ensures err { IfErr result
        (λ e. Refuses e (spec.linked (map label_view labels.now.entries)
        (map placed_view code.now))) }
{
    let mut linked = Vec::new(alloc);
    for placed in code {
        match link_one(labels, *placed) {
            Ok(instr) => push(&mut linked, instr)?,
            Err(fault) => return Err(fault),
        }
    }
    Ok(linked)
}
