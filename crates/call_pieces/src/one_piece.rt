//! The pieces that take no block of the disk.

ghost use Rattle.std.specs.Prelude.{◌≡◌, ℕ, ◌<◌, ◌≤◌, true, false, List, Option, Some, slice_index, IfSome};
ghost use Rattle.kernel_model.specs.World.{Blocks, file_named};
ghost use Rattle.kernel_model.specs.Meaning.{stage, EndsWith};
ghost use Rattle.kernel_model.specs.Queue.{queue_without};
ghost use Rattle.kernel_model.specs.declared.SysCall.TheVariants.{Yield};
ghost use Rattle.kernel_model.specs.declared.Reply.TheVariants.{One};
ghost use Rattle.kernel_model.specs.Policies.{lives};
ghost use Rattle.kernel_model.specs.Needs.{free_process};
ghost use Rattle.kernel_model.specs.Fetch.{chosen_by};
ghost use Rattle.kernel_model.specs.FilePieces.{leaves, open_piece, close_piece, free_descriptor, new_file};
ghost use Rattle.kernel_model.specs.Pieces.{spawn_piece, exit_piece, yield_piece, poke_piece};
ghost use Rattle.kernel_model.specs.Sound.{IsSoundFile};
ghost use Rattle.kernel_state.specs.Calls.{Knows};
ghost use Rattle.kernel_state.specs.Stores.{world_of_store, objects_of, queue_of, queue_joined};
ghost use Rattle.kernel_state.specs.Stores.{policies_of, SegmentsStay};
ghost use Rattle.kernel_state.specs.Places.{HasCell, HasDescriptor};
ghost use Rattle.call_pieces.specs.Callers.{CanExit, CanYield};
ghost use Rattle.call_pieces.specs.Shared.{ComesAtOnce, EndsAtOnce, EndsWithQueue};
ghost use Rattle.call_pieces.specs.Queues.{queue_yielded, next_of};
ghost use Rattle.call_pieces.specs.Matching.{PieceMatches, comes_after, is_fault, goes_on};

use crate::Next;
use call_needs::laws::living_are_numbered;
use kernel_model::{OpenRow, Refusal, Reply};
use kernel_state::{Policy, Store};

/// A new process joins at the back of the queue.
pub(crate) fn spawn<B: Policy>(store: &mut Store<B>) -> Next
    ensures done { EndsWithQueue
        (spawn_piece (objects_of store.old) (free_process (queue_of store.old) 16 0))
        (queue_joined (free_process (queue_of store.old) 16 0) (queue_of store.old))
        store.old store.new result }
    ensures living { (q : ℕ) → lives (queue_of store.old) q ≡ true →
        lives (queue_of store.new) q ≡ true }
{
    match store.spawn() {
        Some(c) => Next::Ends(Reply::One(u32::from(c))),
        None => Next::Fails(Refusal::Full),
    }
}

/// Process p leaves, which isn't 0.
pub(crate) fn exit<B: Policy>(store: &mut Store<B>, p: u8) -> Next
    requires { CanExit (queue_of store.old) p }
    ensures done { EndsWithQueue (exit_piece (objects_of store.old) p)
        (queue_without p (queue_of store.old)) store.old store.new result }
{
    store.leave(p);
    Next::Ends(Reply::Plain)
}

/// The process that an answer chooses, which lives, or else the one that is next by default.
#[inline(always)]
fn turn<B: Policy>(store: &Store<B>, answer: Option<[u32; 4]>) -> u8
    requires right { IfSome answer (λ a. lives (queue_of store.now) (slice_index a 0) ≡ true) }
    ensures value { result
        ≡ chosen_by answer (next_of (policies_of store.now 2) (queue_of store.now)) }
    ensures lives { lives (queue_of store.now) result ≡ true }
{
    living_are_numbered(store);
    match answer {
        Some(a) => a[0] as u8,
        None => store.next(),
    }
}

/// Process p goes to the back of the queue; then the process that the answer chooses, or by default
/// the policy, gets a slice. It is always inlined: a slot for an answer would be copied for it.
#[inline(always)]
pub(crate) fn yield_turn<B: Policy>(
    piece: &mut u8,
    store: &mut Store<B>,
    p: u8,
    answer: Option<[u32; 4]>,
) -> Next
    requires { CanYield (queue_of store.old) p piece.old answer }
    ensures done { ComesAtOnce (yield_piece piece.old (objects_of store.old) p answer)
        (queue_yielded (policies_of store.old 2) answer piece.old p (queue_of store.old))
        store.old store.new result (stage Yield piece.new) }
    ensures living { (q : ℕ) → lives (queue_of store.new) q ≡ lives (queue_of store.old) q }
    ensures next { goes_on result ≡ true → (piece.old ≡ 0) × (piece.new ≡ 1) }
{
    if *piece == 0 {
        *piece = 1;
        store.to_back(p);
        return Next::Goes;
    }
    let next = turn(store, answer);
    store.add_slice(next);
    Next::Ends(Reply::One(u32::from(next)))
}

/// Cell k of process p gets a value.
pub(crate) fn poke<B: Policy>(store: &mut Store<B>, p: u8, k: u32, v: u32) -> Next
    requires { HasCell (queue_of store.old) p k }
    ensures done { EndsAtOnce (poke_piece (objects_of store.old) p k v) store.old store.new result }
{
    store.set_cell(p, k as u8, v);
    Next::Ends(Reply::Plain)
}

/// Cell k of process p is told.
pub(crate) fn peek<B: Policy>(store: &Store<B>, p: u8, k: u32) -> Next
    requires { HasCell (queue_of store.now) p k }
    ensures done { EndsAtOnce (λ blocks. leaves (objects_of store.now) blocks
        (EndsWith (One ((objects_of store.now).things.cell p k)))) store.now store.now result }
{
    Next::Ends(Reply::One(store.cell(p, k as u8)))
}

/// The file of this name is opened at the lowest free descriptor of process p.
pub(crate) fn open<B: Policy>(store: &mut Store<B>, p: u8, name: &[u8]) -> Next
    requires alive { lives (queue_of store.old) p ≡ true }
    ensures done { EndsAtOnce (open_piece (objects_of store.old) p
        (file_named (world_of_store store.old) name.now)
        (free_descriptor (objects_of store.old).things p 4 0)) store.old store.new result }
{
    let Some(file) = store.named(name) else {
        return Next::Fails(Refusal::NoFile);
    };
    match store.free_descriptor(p) {
        Some(fd) => open_at(store, p, fd, file),
        None => Next::Fails(Refusal::NoFd),
    }
}

/// A file is opened at descriptor fd of process p, which is free.
fn open_at<B: Policy>(store: &mut Store<B>, p: u8, fd: u8, file: u8) -> Next
    requires place { HasDescriptor (queue_of store.old) p fd }
    requires file { IsSoundFile (world_of_store store.old) (new_file file) }
    ensures done { EndsAtOnce (open_piece (objects_of store.old) p (Some file) (Some fd))
        store.old store.new result }
{
    let row = OpenRow {
        file,
        next: 0,
        window: 8,
        seq: false,
        start: 0,
        count: 0,
    };
    store.put_file(p, fd, Some(row));
    Next::Ends(Reply::One(u32::from(fd)))
}

/// The file at descriptor fd of process p is closed.
pub(crate) fn close<B: Policy>(store: &mut Store<B>, p: u8, fd: u32) -> Next
    requires { HasDescriptor (queue_of store.old) p fd }
    ensures done { EndsAtOnce (close_piece (objects_of store.old) p fd
        ((objects_of store.old).things.file p fd)) store.old store.new result }
{
    if store.file(p, fd as u8).is_none() {
        return Next::Fails(Refusal::BadFd);
    }
    store.put_file(p, fd as u8, None);
    Next::Ends(Reply::Plain)
}
