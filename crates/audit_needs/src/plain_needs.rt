//! The objects that the pieces of plain calls need, in order.

ghost use Rattle.std.specs.Prelude.{◌≡◌, ◌++◌, ◌∷◌, ℕ, List, OnOk};
ghost use Rattle.kernel_model.specs.declared.Object.TheVariants.{OpenFile};
ghost use Rattle.kernel_model.specs.Bare.{call_with};
ghost use Rattle.kernel_model.specs.Needs as model;
ghost use Rattle.audit_state.specs.Accounts.{accounts_of};
ghost use Rattle.audit_state.specs.Things.{things_of};
ghost use Rattle.audit_state.specs.Worlds.{world_of};
ghost use Rattle.audit_needs.specs.Stages.{objects_of};

use crate::Scene;
use crate::blocks::{Place, ahead_at, block_at, candidate_for, owner_asked};
use crate::lists::{add, cells, exclusive, files, grafts, locks, point, shared};
use audit_state::policies::byte_of;
use audit_state::{Accounts, Things};
use kernel_model::{BareCall, Kind, Mode, Need, NoMemory, Object, Refusal};

/// The eviction policy and the point of the candidate's owner, where a frame must be chosen.
fn victim_needs(
    out: &mut Vec<Need>,
    accounts: &Accounts,
    things: &Things,
    candidate: Option<u32>,
) -> Result<(), NoMemory>
    ensures { OnOk result ((bytes : ℕ → List ℕ) → out.new.items ≡ out.old.items
        ++ model.victim_needs (accounts_of accounts.now) (things_of bytes things.now).cache
        candidate) }
{
    match candidate {
        None => Ok(()),
        Some(f) => {
            shared(out, Object::Pol(1))?;
            point(out, accounts, owner_asked(things, f), 4)?;
            Ok(())
        }
    }
}

/// The objects of a fetch, or none where the call is refused.
pub(crate) fn fetch_needs(
    out: &mut Vec<Need>,
    scene: &Scene<'_>,
    block: Result<u64, Refusal>,
) -> Result<(), NoMemory>
    ensures { OnOk result ((bytes : ℕ → List ℕ) → out.new.items ≡ out.old.items
        ++ model.fetch_needs (world_of scene.now.world.now)
        (objects_of bytes scene.now.accounts.now scene.now.things.now) block) }
{
    match block {
        Err(_) => Ok(()),
        Ok(b) => {
            exclusive(out, Object::Cache)?;
            let candidate = candidate_for(scene.world, scene.things, b);
            victim_needs(out, scene.accounts, scene.things, candidate)?;
            Ok(())
        }
    }
}

/// The objects of a fetch of a place in an open file.
pub(crate) fn block_needs(
    out: &mut Vec<Need>,
    scene: &Scene<'_>,
    p: u8,
    place: Place,
    count: usize,
) -> Result<(), NoMemory>
    ensures { OnOk result ((bytes : ℕ → List ℕ) →
        let s = objects_of bytes scene.now.accounts.now scene.now.things.now in
        out.new.items ≡ out.old.items ++ model.fetch_needs (world_of scene.now.world.now) s
        (model.file_block (world_of scene.now.world.now)
        (s.things.file p place.descriptor) place.block place.offset count)) }
{
    let block = block_at(scene, p, place, count);
    fetch_needs(out, scene, block)?;
    Ok(())
}

/// The objects of a fetch of the block that is to be read ahead next.
fn ahead_needs(out: &mut Vec<Need>, scene: &Scene<'_>, p: u8, fd: u32) -> Result<(), NoMemory>
    ensures { OnOk result ((bytes : ℕ → List ℕ) →
        let s = objects_of bytes scene.now.accounts.now scene.now.things.now in
        out.new.items ≡ out.old.items ++ model.fetch_needs (world_of scene.now.world.now) s
        (model.ahead_block (world_of scene.now.world.now) (s.things.file p fd))) }
{
    let block = ahead_at(scene, p, fd);
    fetch_needs(out, scene, block)?;
    Ok(())
}

/// The least process that doesn't live.
#[tactic(auto, using(crate::proofs::Searching::processes))]
pub fn free_process(things: &Things) -> Option<u8>
    ensures { result ≡ model.free_process things.now.queue.items 16 0 }
{
    for p in 0..16u8 {
        if !things.lives(p) {
            return Some(p);
        }
    }
    None
}

/// The queue, and the account of the new process if there is room for one.
fn spawn_needs(out: &mut Vec<Need>, new: Option<u8>) -> Result<(), NoMemory>
    ensures { OnOk result (out.new.items ≡ out.old.items ++ model.spawn_needs new) }
{
    exclusive(out, Object::Queue)?;
    match new {
        None => Ok(()),
        Some(c) => {
            exclusive(out, Object::Acct(c))?;
            Ok(())
        }
    }
}

/// All that is of a process, and what takes it over.
fn exit_needs(out: &mut Vec<Need>, p: u8) -> Result<(), NoMemory>
    ensures { OnOk result (out.new.items ≡ out.old.items ++ model.exit_needs p) }
{
    exclusive(out, Object::Queue)?;
    exclusive(out, Object::Cache)?;
    exclusive(out, Object::Acct(p))?;
    exclusive(out, Object::Acct(0))?;
    grafts(out, p)?;
    files(out, p)?;
    cells(out, p)?;
    locks(out)?;
    Ok(())
}

/// The scheduling point of a candidate.
fn slice_needs(
    out: &mut Vec<Need>,
    accounts: &Accounts,
    candidate: Option<u8>,
) -> Result<(), NoMemory>
    ensures { OnOk result (out.new.items
        ≡ out.old.items ++ model.slice_needs (accounts_of accounts.now) candidate) }
{
    match candidate {
        None => Ok(()),
        Some(c) => point(out, accounts, c, 5),
    }
}

/// First the queue alone, to go to its back; then what a slice for the candidate needs.
fn yield_needs(out: &mut Vec<Need>, scene: &Scene<'_>, piece: u32) -> Result<(), NoMemory>
    ensures { OnOk result ((bytes : ℕ → List ℕ) → out.new.items ≡ out.old.items
        ++ model.yield_needs piece (objects_of bytes scene.now.accounts.now scene.now.things.now)) }
{
    exclusive(out, Object::Queue)?;
    if piece == 0 {
        Ok(())
    } else {
        shared(out, Object::Pol(2))?;
        slice_needs(out, scene.accounts, scene.things.next_process())?;
        Ok(())
    }
}

/// First the block itself, then how far to read ahead, then each block ahead.
fn read_needs(
    out: &mut Vec<Need>,
    scene: &Scene<'_>,
    p: u8,
    piece: u32,
    place: Place,
    count: usize,
) -> Result<(), NoMemory>
    ensures { OnOk result ((bytes : ℕ → List ℕ) → out.new.items ≡ out.old.items
        ++ model.read_needs piece (world_of scene.now.world.now)
        (objects_of bytes scene.now.accounts.now scene.now.things.now) p
        place.descriptor place.block place.offset count) }
{
    let fd = byte_of(place.descriptor)?;
    exclusive(out, Object::OpenFile(p, fd))?;
    match piece {
        0 => {
            block_needs(out, scene, p, place, count)?;
            Ok(())
        }
        1 => {
            shared(out, Object::Pol(0))?;
            point(out, scene.accounts, p, fd)?;
            Ok(())
        }
        _ => {
            ahead_needs(out, scene, p, place.descriptor)?;
            Ok(())
        }
    }
}

/// The file that is written, and what a fetch of its block needs.
fn write_needs(
    out: &mut Vec<Need>,
    scene: &Scene<'_>,
    p: u8,
    place: Place,
    count: usize,
) -> Result<(), NoMemory>
    ensures { OnOk result ((bytes : ℕ → List ℕ) →
        let s = objects_of bytes scene.now.accounts.now scene.now.things.now in
        out.new.items ≡ out.old.items ++ (model.shared (OpenFile p place.descriptor)
        ∷ model.fetch_needs (world_of scene.now.world.now) s
        (model.file_block (world_of scene.now.world.now)
        (s.things.file p place.descriptor) place.block place.offset count))) }
{
    let fd = byte_of(place.descriptor)?;
    shared(out, Object::OpenFile(p, fd))?;
    block_needs(out, scene, p, place, count)?;
    Ok(())
}

/// The accounts of a gift, up to the one that shows the refusal.
fn payment_needs(
    out: &mut Vec<Need>,
    accounts: &Accounts,
    p: u8,
    q: u8,
    kind: Kind,
    n: u32,
) -> Result<(), NoMemory>
    ensures { OnOk result (out.new.items
        ≡ out.old.items ++ model.payment_needs (accounts_of accounts.now) p q kind n) }
{
    exclusive(out, Object::Acct(p))?;
    if accounts.account(p).balance.of(kind) < u64::from(n) {
        Ok(())
    } else {
        exclusive(out, Object::Acct(q))?;
        Ok(())
    }
}

/// The queue, which shows whether the receiver lives, and then the accounts.
fn give_needs(
    out: &mut Vec<Need>,
    scene: &Scene<'_>,
    p: u8,
    q: u8,
    kind: Kind,
    n: u32,
) -> Result<(), NoMemory>
    ensures { OnOk result ((bytes : ℕ → List ℕ) → out.new.items ≡ out.old.items
        ++ model.give_needs (objects_of bytes scene.now.accounts.now scene.now.things.now)
        p q kind n) }
{
    shared(out, Object::Queue)?;
    if scene.things.lives(q) {
        payment_needs(out, scene.accounts, p, q, kind, n)?;
        Ok(())
    } else {
        Ok(())
    }
}

/// The objects of the piece of this number of a plain call.
pub(crate) fn piece_needs(
    out: &mut Vec<Need>,
    scene: &Scene<'_>,
    p: u8,
    call: BareCall,
    given: &[u8],
    piece: u32,
) -> Result<(), NoMemory>
    ensures { OnOk result ((bytes : ℕ → List ℕ) → out.new.items ≡ out.old.items
        ++ model.piece_needs (call_with call given.now) piece (world_of scene.now.world.now)
        (objects_of bytes scene.now.accounts.now scene.now.things.now) p) }
{
    match call {
        BareCall::Spawn => spawn_needs(out, free_process(scene.things)),
        BareCall::Exit => exit_needs(out, p),
        BareCall::Yield => yield_needs(out, scene, piece),
        BareCall::OpenName => files(out, p),
        BareCall::CloseFd(fd) => exclusive(out, Object::OpenFile(p, byte_of(fd)?)),
        BareCall::Read {
            descriptor,
            block,
            offset,
            length,
        } => {
            let place = Place {
                descriptor,
                block,
                offset,
            };
            read_needs(out, scene, p, piece, place, length as usize)
        }
        BareCall::Write {
            descriptor,
            block,
            offset,
        } => {
            let place = Place {
                descriptor,
                block,
                offset,
            };
            write_needs(out, scene, p, place, given.len())
        }
        BareCall::Sync => exclusive(out, Object::Cache),
        BareCall::TakeLock(u) => {
            let need = Need {
                object: Object::Lock(byte_of(u)?),
                mode: Mode::Exclusive,
                by_user: true,
            };
            add(out, need)
        }
        BareCall::FreeLock(u) => exclusive(out, Object::Lock(byte_of(u)?)),
        BareCall::Poke(k, _) => exclusive(out, Object::Cell(p, byte_of(k)?)),
        BareCall::Peek(k) => shared(out, Object::Cell(p, byte_of(k)?)),
        BareCall::Tune { kind, .. } | BareCall::Choose(kind, _) => {
            exclusive(out, Object::Pol(byte_of(kind)?))
        }
        BareCall::Give {
            receiver,
            kind,
            amount,
        } => {
            give_needs(out, scene, p, byte_of(receiver)?, kind, amount)?;
            Ok(())
        }
        BareCall::Install { point: pt, .. } | BareCall::Bill(pt) => {
            exclusive(out, Object::Graft(p, byte_of(pt)?))
        }
        BareCall::Remove(pt) | BareCall::Fund { point: pt, .. } => {
            point(out, scene.accounts, p, byte_of(pt)?)
        }
        BareCall::Serve(_) | BareCall::StreamRead { .. } | BareCall::StreamWrite { .. } => Ok(()),
    }
}
