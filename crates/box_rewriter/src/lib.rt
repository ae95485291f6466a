//! The rewriter of the sandbox: boxed code of raw code (docs/SANDBOX.md).
#![tactic(auto)]

ghost use Rattle.std.specs.Prelude.{◌≡◌, ℕ, ◌+◌, ◌*◌, ◌++◌, ◌<◌, ◌≤◌, [], ◌∷◌, true, Ok, None};
ghost use Rattle.std.specs.Prelude.{Some, length, slice_index, IfOk, IfErr, OnOk, MatchOption};
ghost use Rattle.std.specs.List.{list_all, flat_map};
ghost use Rattle.graft_code.specs.Instructions.{fits};
ghost use Rattle.graft_code.specs.Boxed as spec;
ghost use Rattle.graft_code.specs.Boxed.{IsBoxed};
ghost use Rattle.box_rewriter.specs.Faults.{IsFound, Refuses};
ghost use Rattle.box_rewriter.specs.Words.{ArePlaces, boxed_by, first_from, masked_access};

use gm_image::{RawImage, access_mask, ends_well, is_jump, names_register};
use std::alloc::{AllocError, Global};
use std::marker::Model;
use thiserror::Error;

pub mod laws;

pub use gm_image::{Instr, Op};

/// The most instructions of boxed code.
pub const MAX_CODE: u32 = 1024;

/// The highest id that code may call directly.
pub const MAX_CALL: u32 = 15;

/// Why raw code can't be boxed, with the place of the instruction that is refused.
#[derive(Clone, Copy, PartialEq, Eq, Debug, Error)]
pub enum RewriteFault {
    #[error("instruction {0} names r14 or r15")]
    Register(u32),
    #[error("instruction {0} jumps past the code")]
    Jump(u32),
    #[error("instruction {0} calls an id above 15")]
    Call(u32),
    #[error("the last instruction is not ret, jmp or trap")]
    End,
    #[error("the boxed code has more than 1024 instructions")]
    TooLarge,
    #[error("out of memory")]
    NoMemory,
}

impl From<AllocError> for RewriteFault {
    ghost use Rattle.box_rewriter.specs.declared.RewriteFault.{RewriteFault};

    ghost from_gives = { λ _ e. e ≡ RewriteFault.NoMemory };

    fn from(_: AllocError) -> RewriteFault {
        RewriteFault::NoMemory
    }
}

/// Boxed code and the data of its image, within the limits of images.
#[derive(Drop)]
pub struct BoxedCode {
    code: Vec<Instr>,
    body: Vec<u8>,
}

impl Model for BoxedCode {
    ghost use Rattle.graft_code.specs.World.{Image, plain_image};
    ghost use Rattle.box_rewriter.specs.Words.{IsBoxedImage};

    ghost Value = { Image };

    ghost view = { λ i. plain_image i.code.items i.body.items };

    ghost invariant = { λ i. IsBoxedImage (plain_image i.code.items i.body.items) };
}

impl BoxedCode {
    /// The instructions.
    pub fn code(&self) -> &[Instr]
        ensures code { result.now ≡ self.now.code }
        ensures few { length result.now ≤ 1024 }
        ensures fit { list_all fits result.now ≡ true }
        ensures boxed { IsBoxed result.now }
    {
        self.code.as_slice()
    }

    /// The data bytes.
    pub fn body(&self) -> &[u8]
        ensures body { result.now ≡ self.now.body }
        ensures few { length result.now ≤ 4096 }
    {
        self.body.as_slice()
    }
}

/// Why an instruction can't be boxed, the register first.
fn fault_at(code: &[Instr], pc: u32, i: &Instr) -> Option<RewriteFault>
    ensures { MatchOption result (spec.rewrite_fault_at code.now pc i.now ≡ None)
        (λ e. IsFound e (spec.rewrite_fault_at code.now pc i.now)) }
{
    if names_register(14, i) || names_register(15, i) {
        Some(RewriteFault::Register(pc))
    } else if is_jump(i.op) && code.len() <= i.imm as usize {
        Some(RewriteFault::Jump(pc))
    } else if matches!(i.op, Op::Call) && i.imm > MAX_CALL {
        Some(RewriteFault::Call(pc))
    } else {
        None
    }
}

/// The first instruction that can't be boxed.
fn first_fault(code: &[Instr]) -> Option<RewriteFault>
    requires { length code.now ≤ 1024 }
    ensures { MatchOption result (first_from code.now 0 code.now ≡ None)
        (λ e. IsFound e (first_from code.now 0 code.now)) }
{
    for (pc, i) in code.iter().enumerate() {
        if let Some(fault) = fault_at(code, pc as u32, i) {
            return Some(fault);
        }
    }
    None
}

/// How many instructions stand for one.
fn boxed_length(i: &Instr) -> u32
    ensures value { result ≡ spec.boxed_length i.now }
    ensures few { result ≤ 3 }
{
    match access_mask(i.op) {
        Some(_) => 3,
        None => 1,
    }
}

/// Appends a place.
fn push(places: &mut Vec<u32>, place: u32) -> Result<(), RewriteFault>
    ensures ok { OnOk result (places.new.items ≡ places.old.items ++ place ∷ []) }
    ensures err { IfErr result (λ e. e ≡ RewriteFault.NoMemory) }
{
    match places.push(place) {
        Ok(()) => Ok(()),
        Err(_) => Err(RewriteFault::NoMemory),
    }
}

/// The place of each instruction in boxed code, and last the number of its instructions.
fn boxed_places(alloc: Global, code: &[Instr]) -> Result<Vec<u32>, RewriteFault>
    requires { length code.now ≤ 1024 }
    ensures ok { IfOk result (λ places. ArePlaces code.now places.items) }
    ensures err { IfErr result (λ e. e ≡ RewriteFault.NoMemory) }
{
    let mut places = Vec::with_capacity(alloc, code.len() + 1)?;
    let mut place = 0;
    for i in code {
        push(&mut places, place)?;
        place += boxed_length(i);
    }
    push(&mut places, place)?;
    Ok(places)
}

/// The three instructions that stand for an access with this mask.
fn boxed_access(i: &Instr, mask: u32) -> [Instr; 3]
    ensures { result ≡ masked_access i.now mask }
{
    let masking = Instr {
        op: Op::Andi,
        a: 14,
        b: i.b,
        c: 0,
        imm: mask,
    };
    let joining = Instr {
        op: Op::Or,
        a: 14,
        b: 14,
        c: 15,
        imm: 0,
    };
    let access = Instr {
        op: i.op,
        a: i.a,
        b: 14,
        c: 0,
        imm: 0,
    };
    [masking, joining, access]
}

/// Appends instructions.
fn append(out: &mut Vec<Instr>, instrs: &[Instr]) -> Result<(), RewriteFault>
    ensures ok { OnOk result (out.new.items ≡ out.old.items ++ instrs.now) }
    ensures err { IfErr result (λ e. e ≡ RewriteFault.NoMemory) }
{
    match out.extend_from_slice(instrs) {
        Ok(()) => Ok(()),
        Err(_) => Err(RewriteFault::NoMemory),
    }
}

/// Appends the instructions that stand for one, where places says where its target has moved.
fn push_boxed(out: &mut Vec<Instr>, places: &[u32], i: &Instr) -> Result<(), RewriteFault>
    requires { spec.is_jump i.now.op ≡ true → i.now.imm < length places.now }
    ensures ok { OnOk result (out.new.items ≡ out.old.items ++ boxed_by places.now i.now) }
    ensures err { IfErr result (λ e. e ≡ RewriteFault.NoMemory) }
{
    if let Some(mask) = access_mask(i.op) {
        return append(out, &boxed_access(i, mask));
    }
    if is_jump(i.op) {
        let moved = Instr {
            imm: places[i.imm as usize],
            ..*i
        };
        return append(out, &[moved]);
    }
    append(out, &[*i])
}

/// The boxed code of code whose instructions can be boxed, by the places that they come to.
fn boxed_code(alloc: Global, code: &[Instr], places: &[u32]) -> Result<Vec<Instr>, RewriteFault>
    requires places { ArePlaces code.now places.now }
    requires allowed { first_from code.now 0 code.now ≡ None }
    ensures ok { IfOk result (λ v. v.items ≡ spec.boxed_code code.now) }
    ensures err { IfErr result (λ e. e ≡ RewriteFault.NoMemory) }
{
    let mut out = Vec::new(alloc);
    for i in code {
        push_boxed(&mut out, places, i)?;
    }
    Ok(out)
}

/// The boxed code of instructions that can be boxed, or why the whole can't be.
fn rewrite_whole(alloc: Global, code: &[Instr]) -> Result<Vec<Instr>, RewriteFault>
    requires few { length code.now ≤ 1024 }
    requires allowed { first_from code.now 0 code.now ≡ None }
    ensures ok { IfOk result (λ v. spec.rewrite code.now ≡ Ok v.items) }
    ensures err { IfErr result (λ e. Refuses e (spec.rewrite code.now)) }
{
    if !ends_well(code) {
        return Err(RewriteFault::End);
    }
    let places = boxed_places(alloc, code)?;
    if places[code.len()] > MAX_CODE {
        return Err(RewriteFault::TooLarge);
    }
    boxed_code(alloc, code, places.as_slice())
}

/// The boxed code of instructions, or why there is none.
fn rewrite_code(alloc: Global, code: &[Instr]) -> Result<Vec<Instr>, RewriteFault>
    requires few { length code.now ≤ 1024 }
    ensures ok { IfOk result (λ v. spec.rewrite code.now ≡ Ok v.items) }
    ensures err { IfErr result (λ e. Refuses e (spec.rewrite code.now)) }
{
    match first_fault(code) {
        Some(fault) => Err(fault),
        None => rewrite_whole(alloc, code),
    }
}

/// Boxed code of an image's code, with the same data; or the first refusal: the first place
/// decides, at one place the order `Register`, `Jump`, `Call`; then `End`, then `TooLarge`.
pub fn rewrite(alloc: Global, img: &RawImage) -> Result<BoxedCode, RewriteFault>
    ensures code { IfOk result (λ b. spec.rewrite img.now.code ≡ Ok b.code) }
    ensures body { IfOk result (λ b. b.body ≡ img.now.body) }
    ensures err { IfErr result (λ e. Refuses e (spec.rewrite img.now.code)) }
{
    let code = rewrite_code(alloc, img.code())?;
    let body = Vec::from_slice(alloc, img.body())?;
    Ok(BoxedCode { code, body })
}
