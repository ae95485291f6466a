//! Calls that are refused at once.

ghost use Rattle.std.specs.Prelude.{◌≡◌, ℕ, ◌+◌, ◌<◌, ◌≤◌, ◌==◌, ◌||◌, true, not, length, nat_lt};
ghost use Rattle.std.specs.Prelude.{nat_le, is_some, None, IfOk, IfErr};
ghost use Rattle.kernel_model.specs.declared.Refusal.TheVariants.{BadFd, BadIndex, BadPoint, Denied, NoImage};
ghost use Rattle.kernel_model.specs.World.{ImageTable};
ghost use Rattle.kernel_model.specs.ImageMask.{TellsImages, has_bit};
ghost use Rattle.kernel_model.specs.Bare.{call_with};
ghost use Rattle.kernel_model.specs.Policies.{lives};
ghost use Rattle.kernel_model.specs.Pieces.{plain_upto};
ghost use Rattle.kernel_model.specs.Early.{plain_early, call_refusal, refused, policy_count};
ghost use Rattle.kernel_state.specs.Stores.{world_of_store, objects_of, queue_of};
ghost use Rattle.call_needs.specs.Works.{IsDue, begun, stage_of, stage_granted};

use crate::Work;
use arrayvec::ArrayVec;
use kernel_model::{BLOCK_BYTES, BareCall, Refusal};
use kernel_state::{Policy, Store};

/// The highest point at which a graft may stand by the plain table.
pub const TOP_POINT: u32 = 5;

/// A call of process p, which lives, before its first piece; or its refusal of least number that
/// needs no object, where points go up to `TOP`, and the work stays as it was. Bit k of `images`
/// tells whether image k is loaded.
pub fn early_upto<const TOP: u32, B: Policy>(
    store: &Store<B>,
    images: u32,
    p: u8,
    call: BareCall,
    bytes: &ArrayVec<u8, BLOCK_BYTES>,
    work: &mut Work,
) -> Result<(), Refusal>
    requires alive { lives (queue_of store.now) p ≡ true }
    ensures value { (table : ImageTable) → TellsImages images table →
        stage_granted (stage_of work.new) result
        ≡ plain_early TOP (world_of_store store.now) table p (call_with call bytes.now.items) }
    ensures ready { IfOk result (λ _. IsDue (plain_upto TOP) (world_of_store store.now)
        (objects_of store.now) work.new.caller (stage_of work.new)) }
    ensures work { IfOk result (λ _. work.new ≡ begun p call bytes.now) }
    ensures kept { IfErr result (λ _. work.new ≡ work.old) }
{
    if let Some(refusal) = refusal_upto::<TOP, B>(store, images, p, call, bytes.as_slice()) {
        return Err(refusal);
    }
    work.set_call(p, call, bytes);
    Ok(())
}

/// The refusal of least number of a call of process p that needs no object, where points go up to
/// `TOP`. Bit k of `images` tells whether image k is loaded.
pub fn refusal_upto<const TOP: u32, B: Policy>(
    store: &Store<B>,
    images: u32,
    p: u8,
    call: BareCall,
    bytes: &[u8],
) -> Option<Refusal>
    requires few { length bytes.now ≤ 512 }
    ensures { (table : ImageTable) → TellsImages images table →
        result ≡ call_refusal TOP (world_of_store store.now) table p (call_with call bytes.now) }
{
    match call {
        BareCall::Exit => unless(p != 0, Refusal::Denied),
        BareCall::OpenName => unless(store.named(bytes).is_some(), Refusal::NoFile),
        BareCall::CloseFd(fd) => unless(fd <= 3, Refusal::BadFd),
        BareCall::Read {
            descriptor: fd,
            offset: off,
            length: len,
            ..
        } => range_refusal(fd, off, len),
        BareCall::Write {
            descriptor: fd,
            offset: off,
            ..
        } => range_refusal(fd, off, bytes.len() as u32),
        BareCall::TakeLock(u) | BareCall::FreeLock(u) => unless(u <= 15, Refusal::BadIndex),
        BareCall::Poke(k, _) | BareCall::Peek(k) => unless(k <= 3, Refusal::BadIndex),
        BareCall::Tune { kind, .. } => policy_refusal(p, kind <= 2),
        BareCall::Choose(kind, j) => policy_refusal(p, kind <= 2 && j < policies_of_kind(kind)),
        BareCall::Give { receiver: q, .. } => unless(q <= 15, Refusal::NoProcess),
        BareCall::Install {
            point: pt,
            slot: image,
            limit,
        } => install_refusal::<TOP>(images, pt, image, limit),
        BareCall::Remove(pt) | BareCall::Fund { point: pt, .. } | BareCall::Bill(pt) => {
            unless(pt <= TOP, Refusal::BadPoint)
        }
        BareCall::Serve(_) | BareCall::StreamRead { .. } | BareCall::StreamWrite { .. } => {
            Some(Refusal::BadPoint)
        }
        BareCall::Spawn | BareCall::Yield | BareCall::Sync => None,
    }
}

/// A refusal where something doesn't hold.
fn unless(holds: bool, refusal: Refusal) -> Option<Refusal>
    ensures { result ≡ refused (not holds) refusal None }
{
    if holds { None } else { Some(refusal) }
}

/// The refusal of a descriptor, or of a range of a block's bytes.
fn range_refusal(fd: u32, off: u32, len: u32) -> Option<Refusal>
    ensures { result ≡ refused (nat_lt 3 fd) BadFd
        (refused (nat_lt 512 (off + len)) BadIndex None) }
{
    if fd > 3 {
        Some(Refusal::BadFd)
    } else {
        unless(
            u64::from(off) + u64::from(len) <= BLOCK_BYTES as u64,
            Refusal::BadIndex,
        )
    }
}

/// How many policies a kind has.
fn policies_of_kind(kind: u32) -> u32
    ensures { result ≡ policy_count kind }
{
    if kind == 0 { 3 } else { 2 }
}

/// The refusal of a call on policies, which only root may make.
fn policy_refusal(p: u8, known: bool) -> Option<Refusal>
    ensures { result ≡ refused (not (p == 0)) Denied (refused (not known) BadPoint None) }
{
    if p != 0 {
        Some(Refusal::Denied)
    } else {
        unless(known, Refusal::BadPoint)
    }
}

/// Whether bit k of the images is set.
fn is_loaded(images: u32, k: u32) -> bool
    requires { k < 32 }
    ensures { result ≡ has_bit k images }
{
    images >> k & 1 == 1
}

/// The refusal of a graft that is to be installed: its point, its limit, its image.
fn install_refusal<const TOP: u32>(images: u32, pt: u32, image: u32, limit: u32) -> Option<Refusal>
    ensures { (table : ImageTable) → TellsImages images table →
        result ≡ refused (nat_lt TOP pt) BadPoint
        (refused (limit == 0 || nat_lt 65536 limit) BadIndex
        (refused (nat_lt 31 image || not (is_some (table image))) NoImage None)) }
{
    if pt > TOP {
        Some(Refusal::BadPoint)
    } else if limit == 0 || limit > 65536 {
        Some(Refusal::BadIndex)
    } else {
        unless(image <= 31 && is_loaded(images, image), Refusal::NoImage)
    }
}
