//! The plain accessors of grafts, and the undoing of their changes.
#![tactic(auto)]

ghost use Rattle.std.specs.Prelude.{◌≡◌, ℕ, ◌<◌, true, None, Some, Ok, length, IfSome};
ghost use Rattle.std.specs.Option.{option_copied};
ghost use Rattle.std.specs.Result.{is_ok};
ghost use Rattle.kernel_model.specs.Access.{access as accessed, undo as undone};
ghost use Rattle.kernel_model.specs.Policies.{lives};
ghost use Rattle.kernel_state.specs.Tables.{by_place};
ghost use Rattle.graft_accessors.specs.Accesses.{accessed_with, answer_of, things_after, CanBeUndone};
ghost use Rattle.graft_accessors.specs.Accesses.{views_after, IsPlainAccess, IsAccessAnswer, StayUndoable};
ghost use Rattle.kernel_state.specs.Changes.{ChangesThings};
ghost use Rattle.kernel_state.specs.Places.{HasCell, HasDescriptor};
ghost use Rattle.kernel_state.specs.Stores.{objects_of, queue_of, views_of};

use accessor_list::ids;
use kernel_model::{Cause, Inverse};
use kernel_state::{GraftPoint, Policy, Store};

/// What a plain accessor of a graft gives where it isn't refused: a result, and what undoes its
/// change if it changes something.
#[derive(Clone, Copy)]
pub struct AccessResult {
    pub result: u32,
    pub inverse: Option<Inverse>,
}

/// Puts the value back that a record names, and for a kept segment these 4,096 bytes, or none.
/// A parameter is put back in the chosen policy, and no other policy is touched.
pub fn undo<B: Policy>(store: &mut Store<B>, inverse_is: Inverse, bytes: Option<&[u8]>)
    requires fits { CanBeUndone inverse_is (objects_of store.old).things }
    requires whole { IfSome bytes (λ b. length b.now ≡ 4096) }
    ensures changed { ChangesThings (undone (record {
      inverse = inverse_is;
      bytes = by_place (option_copied bytes.entry);
    })) store.old store.new }
    ensures views { views_of store.new ≡
        views_after inverse_is store.old.choice (views_of store.old) }
    ensures kept { StayUndoable (objects_of store.old).things (objects_of store.new).things }
{
    match inverse_is {
        Inverse::Cell {
            process: q,
            cell: k,
            value: v,
        } => store.set_cell(q, k, v),
        Inverse::Nice(q, v) => store.set_nice(q, v),
        Inverse::Window {
            process: q,
            descriptor: fd,
            value: v,
        } => store.set_window(q, fd, v),
        Inverse::Mark(f, v) => store.set_mark(u32::from(f), v),
        Inverse::Tune { kind, value: v, .. } => store.set_param(kind, v),
        Inverse::Segment(q, pt) => {
            let at = GraftPoint {
                process: q,
                point: pt,
            };
            store.put_segment(at, bytes)
        }
    }
}

/// What the plain accessor of an id answers a graft of process q, which lives. Its arguments aren't
/// refused by themselves (`accessor_list::early`). Nothing changes: `apply` makes the change.
pub fn answer<B: Policy>(
    store: &Store<B>,
    id: u32,
    args: [u32; 3],
    q: u8,
) -> Result<AccessResult, Cause>
    requires { IsPlainAccess (queue_of store.now) id args q }
    ensures { let w = (objects_of store.now).things in
        IsAccessAnswer (accessed_with id args q w) w result }
{
    let [first, second, third] = args;
    match id {
        ids::CELL_GET => gives(store.cell(q, first as u8)),
        ids::CELL_SET => cell_set(store, q, first as u8),
        ids::NICE_GET => gives(u32::from(store.nice(q))),
        ids::NICE_SET => nice_set(store, q),
        ids::WINDOW_GET => window_get(store, q, first as u8),
        ids::WINDOW_SET => window_set(store, q, first as u8),
        ids::FRAMES_MINE => gives(store.owned_count(q)),
        ids::FRAME_AT => frame_at(store, q, first),
        ids::FRAME_BLOCK => frame_block(store, q, first),
        ids::FRAME_MARK => frame_mark(store, q, first),
        ids::TUNE_GET => tune_get(store, first as u8, second),
        ids::TUNE_SET => tune_set(store, first as u8, second, third),
        _ => gives(first),
    }
}

/// Makes the change of an accessor whose answer isn't a refusal, in place.
pub fn apply<B: Policy>(store: &mut Store<B>, id: u32, args: [u32; 3], q: u8)
    requires plain { IsPlainAccess (queue_of store.old) id args q }
    requires accepted { is_ok (answer_of (accessed_with id args q (objects_of store.old).things))
        ≡ true }
    ensures changed { ChangesThings (λ w. things_after (accessed_with id args q w) w)
        store.old store.new }
    ensures kept { StayUndoable (objects_of store.old).things (objects_of store.new).things }
{
    change(store, id, args, q);
}

/// The change of an accessor that isn't refused.
fn change<B: Policy>(store: &mut Store<B>, id: u32, args: [u32; 3], q: u8)
    requires plain { IsPlainAccess (queue_of store.old) id args q }
    requires accepted { is_ok (answer_of (accessed_with id args q (objects_of store.old).things))
        ≡ true }
    ensures { ChangesThings (λ w. things_after (accessed_with id args q w) w)
        store.old store.new }
{
    let [first, second, third] = args;
    match id {
        ids::CELL_SET => store.set_cell(q, first as u8, second),
        ids::NICE_SET => store.set_nice(q, first as u8),
        ids::WINDOW_SET => store.set_window(q, first as u8, second as u8),
        ids::FRAME_MARK => store.set_mark(first, second as u8),
        ids::TUNE_SET => store.set_param(first as u8, third),
        _ => {}
    }
}

fn cell_set<B: Policy>(store: &Store<B>, q: u8, k: u8) -> Result<AccessResult, Cause>
    requires { HasCell (queue_of store.now) q k }
    ensures { let w = (objects_of store.now).things in IsAccessAnswer (accessed 1 k 0 0 q w) w result }
{
    let was = store.cell(q, k);
    changes(
        was,
        Inverse::Cell {
            process: q,
            cell: k,
            value: was,
        },
    )
}

fn nice_set<B: Policy>(store: &Store<B>, q: u8) -> Result<AccessResult, Cause>
    requires { lives (queue_of store.now) q ≡ true }
    ensures { let w = (objects_of store.now).things in IsAccessAnswer (accessed 3 0 0 0 q w) w result }
{
    let was = store.nice(q);
    changes(u32::from(was), Inverse::Nice(q, was))
}

fn window_get<B: Policy>(store: &Store<B>, q: u8, fd: u8) -> Result<AccessResult, Cause>
    requires { HasDescriptor (queue_of store.now) q fd }
    ensures { result ≡ answer_of (accessed 4 fd 0 0 q (objects_of store.now).things) }
{
    match store.file(q, fd) {
        Some(row) => gives(u32::from(row.window)),
        None => Err(Cause::BadArgument(ids::WINDOW_GET)),
    }
}

fn window_set<B: Policy>(store: &Store<B>, q: u8, fd: u8) -> Result<AccessResult, Cause>
    requires { HasDescriptor (queue_of store.now) q fd }
    ensures { (v : ℕ) → let w = (objects_of store.now).things in
        IsAccessAnswer (accessed 5 fd v 0 q w) w result }
{
    match store.file(q, fd) {
        Some(row) => changes(
            u32::from(row.window),
            Inverse::Window {
                process: q,
                descriptor: fd,
                value: row.window,
            },
        ),
        None => Err(Cause::BadArgument(ids::WINDOW_SET)),
    }
}

fn frame_at<B: Policy>(store: &Store<B>, q: u8, n: u32) -> Result<AccessResult, Cause>
    ensures { result ≡ answer_of (accessed 7 n 0 0 q (objects_of store.now).things) }
{
    match store.owned_frame(q, n) {
        Some(f) => gives(u32::from(f)),
        None => Err(Cause::BadArgument(ids::FRAME_AT)),
    }
}

fn frame_block<B: Policy>(store: &Store<B>, q: u8, f: u32) -> Result<AccessResult, Cause>
    ensures { result ≡ answer_of (accessed 8 f 0 0 q (objects_of store.now).things) }
{
    match store.row(f) {
        Some(row) if row.owner == q => gives(row.block),
        Some(_) => Err(Cause::NotYours(ids::FRAME_BLOCK)),
        None => Err(Cause::BadArgument(ids::FRAME_BLOCK)),
    }
}

fn frame_mark<B: Policy>(store: &Store<B>, q: u8, f: u32) -> Result<AccessResult, Cause>
    ensures { (v : ℕ) → let w = (objects_of store.now).things in
        IsAccessAnswer (accessed 9 f v 0 q w) w result }
{
    match store.row(f) {
        Some(row) if row.owner == q => {
            changes(u32::from(row.mark), Inverse::Mark(row.frame, row.mark))
        }
        Some(_) => Err(Cause::NotYours(ids::FRAME_MARK)),
        None => Err(Cause::BadArgument(ids::FRAME_MARK)),
    }
}

fn tune_get<B: Policy>(store: &Store<B>, kind: u8, k: u32) -> Result<AccessResult, Cause>
    requires kind { kind < 3 }
    ensures { result ≡ answer_of (accessed 10 kind k 0 0 (objects_of store.now).things) }
{
    match store.param(kind) {
        Some(v) if k == 0 => gives(v),
        _ => Err(Cause::BadArgument(ids::TUNE_GET)),
    }
}

fn tune_set<B: Policy>(store: &Store<B>, kind: u8, k: u32, v: u32) -> Result<AccessResult, Cause>
    requires kind { kind < 3 }
    ensures { let w = (objects_of store.now).things in
        IsAccessAnswer (accessed 11 kind k v 0 w) w result }
{
    match store.param(kind) {
        Some(was) if store.takes(kind, k, v) => changes(
            was,
            Inverse::Tune {
                kind,
                parameter: 0,
                value: was,
            },
        ),
        _ => Err(Cause::BadArgument(ids::TUNE_SET)),
    }
}

/// A result where nothing changes.
fn gives(n: u32) -> Result<AccessResult, Cause>
    ensures { result ≡ Ok (record { result = n; inverse = None }) }
{
    Ok(AccessResult {
        result: n,
        inverse: None,
    })
}

/// The value from before, and what puts it back.
fn changes(was: u32, inverse_is: Inverse) -> Result<AccessResult, Cause>
    ensures { result ≡ Ok (record { result = was; inverse = Some inverse_is }) }
{
    Ok(AccessResult {
        result: was,
        inverse: Some(inverse_is),
    })
}
