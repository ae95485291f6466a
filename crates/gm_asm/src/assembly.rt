//! What the lines of assembler text gave so far.

ghost use Rattle.std.specs.Prelude.{◌≡◌, ◌≤◌, ◌++◌, [], ◌∷◌, length, map, true, Ok, IfOk, IfErr, OnOk, OnErr, is_some};
ghost use Rattle.std.specs.Option.{option_copied};
ghost use Rattle.graft_texts.specs.Assembler as spec;
ghost use Rattle.gm_asm.specs.Faults.{Refuses};
ghost use Rattle.gm_asm.specs.Views.{is_placed};
ghost use Rattle.gm_asm.specs.State.{label_view};

use crate::AsmFault;
use crate::data::add_data;
use crate::link::link_code;
use crate::statement::{Statement, statement_of};
use gm_image::{Instr, RawImage};
use graft_texts::{AsmKind, NoMemory};
use indexmap::IndexMap;
use std::alloc::Global;
use std::marker::Model;
use text_words::Parts;

/// An instruction, the label that is to give its imm, and the line that it stands in.
#[derive(Clone, Copy)]
pub struct Placed<'a> {
    pub instr: Instr,
    pub label: Option<&'a [u8]>,
    pub line: u32,
}

/// The labels in the order of their first use, each with the number of the instruction behind it
/// once it is set.
pub type Labels<'a> = IndexMap<&'a [u8], Option<u32>>;

/// What the lines so far gave.
#[derive(Drop)]
pub struct Assembly<'a> {
    code: Vec<Placed<'a>>,
    body: Vec<u8>,
    labels: Labels<'a>,
}

impl<'a> Model for Assembly<'a> {
    ghost use Rattle.graft_texts.specs.Assembler as spec;
    ghost use Rattle.gm_asm.specs.State.{assembly_of, IsWithin};

    ghost Value = { spec.Assembly };

    ghost view = { λ a. assembly_of a.code.items a.body.items a.labels.entries };

    ghost invariant = { λ a. IsWithin a.code.items a.body.items };
}

/// The most instructions of an image.
const MAX_CODE: usize = 1024;

/// Where a label is set, once it is.
pub fn place_of(labels: &Labels, name: &[u8]) -> Option<u32>
    ensures { result ≡ spec.label_place name.now (map label_view labels.now.entries) }
{
    match labels.get(name) {
        Some(place) => *place,
        None => None,
    }
}

/// Sets a label that isn't set.
fn set_label<'a>(labels: &mut Labels<'a>, name: &'a [u8], place: u32) -> Result<(), NoMemory>
    ensures { OnOk result (map label_view labels.new.entries
        ≡ spec.with_place name.now place (map label_view labels.old.entries)) }
{
    match labels.insert(name, Some(place)) {
        Ok(_) => Ok(()),
        Err(_) => Err(NoMemory),
    }
}

/// Puts a label among the labels, where it isn't there.
fn use_label<'a>(labels: &mut Labels<'a>, name: &'a [u8]) -> Result<(), NoMemory>
    ensures { OnOk result (map label_view labels.new.entries
        ≡ spec.with_use name.now (map label_view labels.old.entries)) }
{
    if labels.contains_key(name) {
        return Ok(());
    }
    match labels.insert(name, None) {
        Ok(_) => Ok(()),
        Err(_) => Err(NoMemory),
    }
}

/// Puts an instruction behind the others.
fn push_instr<'a>(code: &mut Vec<Placed<'a>>, placed: Placed<'a>) -> Result<(), NoMemory>
    ensures pushed { OnOk result (code.new.items ≡ code.old.items ++ placed.entry ∷ []) }
    ensures same { OnErr result (code.new.items ≡ code.old.items) }
{
    match code.push(placed) {
        Ok(()) => Ok(()),
        Err(_) => Err(NoMemory),
    }
}

/// Puts the label of an instruction, if it has one, among the labels.
fn use_label_of<'a>(labels: &mut Labels<'a>, label: Option<&'a [u8]>) -> Result<(), NoMemory>
    ensures { OnOk result (map label_view labels.new.entries
        ≡ spec.with_label_of (option_copied label.entry) (map label_view labels.old.entries)) }
{
    match label {
        None => Ok(()),
        Some(name) => use_label(labels, name),
    }
}

impl<'a> Assembly<'a> {
    /// Nothing so far.
    pub fn new(alloc: Global) -> Assembly<'a>
        ensures { result ≡ spec.empty_assembly }
    {
        Assembly {
            code: Vec::new(alloc),
            body: Vec::new(alloc),
            labels: IndexMap::new(alloc),
        }
    }

    fn add_label(&mut self, line: u32, name: &'a [u8]) -> Result<(), AsmFault>
        ensures ok { OnOk result (spec.with_statement line self.old (spec.SetsLabel name.now)
            ≡ Ok self.new) }
        ensures err { IfErr result
            (λ e. Refuses e (spec.with_statement line self.old (spec.SetsLabel name.now))) }
    {
        if place_of(&self.labels, name).is_some() {
            return Err(AsmFault::At(line, AsmKind::LabelSetTwice));
        }
        set_label(&mut self.labels, name, self.code.len() as u32)?;
        Ok(())
    }

    fn add_data(&mut self, alloc: Global, line: u32, digits: &[u8]) -> Result<(), AsmFault>
        ensures ok { OnOk result (spec.with_statement line self.old (spec.Data digits.now)
            ≡ Ok self.new) }
        ensures err { IfErr result
            (λ e. Refuses e (spec.with_statement line self.old (spec.Data digits.now))) }
    {
        if add_data(alloc, &mut self.body, digits)? {
            Ok(())
        } else {
            Err(AsmFault::At(line, AsmKind::BadData))
        }
    }

    fn add_instr(&mut self, placed: Placed<'a>) -> Result<(), AsmFault>
        requires { is_placed placed.instr (is_some placed.label) ≡ true }
        ensures ok { OnOk result
            (spec.with_instr placed.entry.line self.old placed.entry.instr
            (option_copied placed.entry.label) ≡ Ok self.new) }
        ensures err { IfErr result
            (λ e. Refuses e (spec.with_instr placed.entry.line self.old placed.entry.instr
            (option_copied placed.entry.label))) }
    {
        if self.code.len() >= MAX_CODE {
            return Err(AsmFault::At(placed.line, AsmKind::TooManyInstructions));
        }
        push_instr(&mut self.code, placed)?;
        use_label_of(&mut self.labels, placed.label)?;
        Ok(())
    }

    /// The image, once every line was added.
    pub fn link(self, alloc: Global) -> Result<RawImage, AsmFault>
        ensures ok { IfOk result (λ i. spec.image_of (Ok self.entry) ≡ Ok i) }
        ensures err { IfErr result (λ e. Refuses e (spec.image_of (Ok self.entry))) }
    {
        let Assembly { code, body, labels } = self;
        Ok(RawImage::new(link_code(alloc, &labels, code.as_slice())?, body))
    }

    /// Adds what a line says, or refuses it.
    pub fn add_line(&mut self, alloc: Global, line: u32, text: &'a [u8]) -> Result<(), AsmFault>
        ensures ok { OnOk result (spec.with_line line self.old text.now ≡ Ok self.new) }
        ensures err { IfErr result (λ e. Refuses e (spec.with_line line self.old text.now)) }
    {
        match statement_of(text) {
            Err(kind) => Err(AsmFault::At(line, kind)),
            Ok(Statement::Blank) => Ok(()),
            Ok(Statement::SetsLabel(name)) => self.add_label(line, name),
            Ok(Statement::Data(digits)) => self.add_data(alloc, line, digits),
            Ok(Statement::Instruction(instr, label)) => {
                self.add_instr(Placed { instr, label, line })
            }
        }
    }
}

/// What all lines of a text give.
pub fn read_lines(alloc: Global, text: &[u8]) -> Result<Assembly<'_>, AsmFault>
    requires { length text.now ≤ 16_777_216 }
    ensures ok { IfOk result (λ a. spec.with_lines 1 spec.empty_assembly (spec.lines_of text.now)
        ≡ Ok a) }
    ensures err { IfErr result
        (λ e. Refuses e (spec.with_lines 1 spec.empty_assembly (spec.lines_of text.now))) }
{
    let mut assembly = Assembly::new(alloc);
    let mut lines = Parts::new(text, b'\n');
    let mut number = 1;
    while let Some(line) = lines.next() {
        match assembly.add_line(alloc, number, line) {
            Ok(()) => number += 1,
            Err(fault) => return Err(fault),
        }
    }
    Ok(assembly)
}
