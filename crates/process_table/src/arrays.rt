//! The work on each array, as functions over plain lists.

ghost use Rattle.std.specs.Prelude.{◌≡◌, ℕ, ◌+◌, ◌*◌, ◌<◌, ◌≤◌, ◌==◌, true, false, cond, not};
ghost use Rattle.std.specs.Prelude.{length, map, filter, slice_index, slice_index_or, slice_set, remove, [], ◌∷◌, ◌++◌};
ghost use Rattle.std.specs.Prelude.{IfSome, IfNone, None};
ghost use Rattle.std.specs.List.{list_any};
ghost use Rattle.std.specs.Prelude.{option_map};
ghost use Rattle.kernel_model.specs.declared.QueueRow.{QueueRow as Row};
ghost use Rattle.kernel_model.specs.Queue.{IsLeastFree, new_row, queue_without, one_more_slice};
ghost use Rattle.kernel_model.specs.Policies.{lives};
ghost use Rattle.kernel_model.specs.Needs.{free_process};
ghost use Rattle.kernel_model.specs.Pieces.{to_back as queue_to_back, add_slice as queue_with_slice, freed_by};
ghost use Rattle.kernel_model.specs.Access.{with_nice};
ghost use Rattle.kernel_model.specs.FilePieces.{read_on, with_ahead};
ghost use Rattle.kernel_model.specs.Handlers.{is_handler, handlers_at, handlers_without};
ghost use Rattle.kernel_model.specs.Handlers.{handlers_without_process, has_room};
ghost use Rattle.process_table.specs.Processes.{is_of};

use arrayvec::ArrayVec;
use kernel_model::{OpenRow, PROCESSES, QueueRow};

/// The cells and the descriptors of a process.
pub(crate) const EACH: usize = 4;

/// The cells and the descriptors of all processes.
pub(crate) const NUMBERS: usize = 64;

/// The user locks.
pub(crate) const LOCKS: usize = 16;

/// A process that has just joined, as number 0.
const NEW: QueueRow = QueueRow {
    process: 0,
    nice: 20,
    slices: 0,
};

/// The handlers that there may be: 8 at each of 8 points.
pub(crate) const HANDLERS: usize = 64;

/// The most handlers at one point.
const HANDLERS_AT_POINT: usize = 8;

/// Whether a process stands in the queue.
pub(crate) fn is_listed(rows: &[QueueRow], p: u8) -> bool
    ensures { result ≡ lives rows.now p }
{
    rows.iter().any(|r| r.process == p)
}

/// The least number that isn't living.
pub(crate) fn least_free(rows: &[QueueRow]) -> Option<u8>
    ensures number { result ≡ free_process rows.now 16 0 }
    ensures least { IfSome result (λ c. IsLeastFree rows.now c) }
    ensures full { IfNone result ((q : ℕ) → q < 16 → lives rows.now q ≡ true) }
{
    for p in 0..PROCESSES as u8 {
        if !is_listed(rows, p) {
            return Some(p);
        }
    }
    None
}

/// Flags of which none is set.
pub(crate) fn nobody() -> [bool; PROCESSES]
    ensures value { (p : ℕ) → slice_index_or result p false ≡ false }
    ensures len { length result ≡ 16 }
{
    [false; PROCESSES]
}

/// Sets the flag of a process.
pub(crate) fn put_flag(flags: &mut [bool], p: u8, v: bool)
    requires { p < length flags.old }
    ensures { flags.new ≡ slice_set flags.old p v }
{
    flags[p as usize] = v;
}

/// Takes a process out of the queue.
pub(crate) fn take_out(rows: &mut ArrayVec<QueueRow, PROCESSES>, p: u8)
    ensures { rows.new.items ≡ queue_without p rows.old.items }
{
    rows.retain(|r| r.process != p);
}

/// A process joins at the back of the queue.
pub(crate) fn join(rows: &mut ArrayVec<QueueRow, PROCESSES>, process: u8)
    requires { length rows.old.items < 16 }
    ensures { rows.new.items ≡ rows.old.items ++ new_row process ∷ [] }
{
    rows.push(QueueRow { process, ..NEW });
}

/// Looks at the row at a place: that of the process goes behind all others, and any other is
/// passed. Where the row stands that is to be looked at next.
fn pass(rows: &mut [QueueRow], at: usize, p: u8) -> usize
    requires { at < length rows.old }
    ensures place { (row : Row) → slice_index_or rows.old at row ≡ row →
        result ≡ cond (row.process == p) at (at + 1) }
    ensures rows { (row : Row) → slice_index_or rows.old at row ≡ row →
        rows.new ≡ cond (row.process == p) (remove rows.old at ++ row ∷ []) rows.old }
{
    if rows[at].process != p {
        return at + 1;
    }
    rows[at..].rotate_left(1);
    at
}

/// Moves a process behind all others, in place.
fn put_behind(rows: &mut [QueueRow], p: u8)
    ensures { rows.new ≡ queue_to_back p rows.old }
{
    let mut at = 0;
    for _ in 0..rows.len() {
        at = pass(rows, at, p);
    }
}

/// Moves a process to the back of the queue.
pub(crate) fn move_back(rows: &mut ArrayVec<QueueRow, PROCESSES>, p: u8)
    ensures { rows.new.items ≡ queue_to_back p rows.old.items }
{
    put_behind(rows.as_mut_slice(), p);
}

/// The queue of process 0 alone.
pub(crate) fn first_queue() -> ArrayVec<QueueRow, PROCESSES>
    ensures { result.items ≡ new_row 0 ∷ [] }
{
    let mut rows = ArrayVec::new();
    join(&mut rows, 0);
    rows
}

/// Cells of 0.
pub(crate) fn zero_cells() -> [u32; NUMBERS]
    ensures value { (i : ℕ) → slice_index result i ≡ 0 }
    ensures len { length result ≡ 64 }
{
    [0; NUMBERS]
}

/// Descriptors where no file is open.
pub(crate) fn closed_files() -> [Option<OpenRow>; NUMBERS]
    ensures value { (i : ℕ) → slice_index_or result i None ≡ None }
    ensures len { length result ≡ 64 }
{
    [None; NUMBERS]
}

/// Locks that nobody holds.
pub(crate) fn free_holders() -> [Option<u8>; LOCKS]
    ensures value { (u : ℕ) → slice_index_or result u None ≡ None }
    ensures len { length result ≡ 16 }
{
    [None; LOCKS]
}

/// A row with another nice, if it is that of the process.
fn row_with_nice(row: QueueRow, p: u8, v: u8) -> QueueRow
    ensures { result ≡ cond (row.process == p) (record row { nice = v }) row }
{
    if row.process == p {
        QueueRow { nice: v, ..row }
    } else {
        row
    }
}

/// Gives a process another nice.
fn put_nice(rows: &mut [QueueRow], p: u8, v: u8)
    ensures { rows.new ≡ with_nice p v rows.old }
{
    for row in rows.iter_mut() {
        *row = row_with_nice(*row, p, v);
    }
}

/// Gives a process of the queue another nice.
pub(crate) fn change_nice(rows: &mut ArrayVec<QueueRow, PROCESSES>, p: u8, v: u8)
    ensures { rows.new.items ≡ with_nice p v rows.old.items }
{
    put_nice(rows.as_mut_slice(), p, v);
}

/// Gives a row one slice more, if it is that of the process. No other row is written.
fn raise_row(row: &mut QueueRow, p: u8)
    ensures { row.new ≡ cond (row.old.process == p)
        (record row.old { slices = one_more_slice row.old.slices }) row.old }
{
    if row.process == p {
        row.slices = row.slices.saturating_add(1);
    }
}

/// Gives a process one slice more.
fn count_slice(rows: &mut [QueueRow], p: u8)
    ensures { rows.new ≡ queue_with_slice p rows.old }
{
    for row in rows.iter_mut() {
        raise_row(row, p);
    }
}

/// Gives a process of the queue one slice more.
pub(crate) fn raise_slices(rows: &mut ArrayVec<QueueRow, PROCESSES>, p: u8)
    ensures { rows.new.items ≡ queue_with_slice p rows.old.items }
{
    count_slice(rows.as_mut_slice(), p);
}

/// Makes the cells of a process 0.
pub(crate) fn clear_cells(cells: &mut [u32], p: u8)
    requires { 4 * p + 4 ≤ length cells.old }
    ensures { (i : ℕ) → slice_index cells.new i ≡ cond (is_of p i) 0 (slice_index cells.old i) }
{
    for k in 0..EACH {
        cells[EACH * p as usize + k] = 0;
    }
}

/// Closes the files of a process.
pub(crate) fn close_files(files: &mut [Option<OpenRow>], p: u8)
    requires { 4 * p + 4 ≤ length files.old }
    ensures { (i : ℕ) → slice_index_or files.new i None
        ≡ cond (is_of p i) None (slice_index_or files.old i None) }
{
    for fd in 0..EACH {
        files[EACH * p as usize + fd] = None;
    }
}

/// An open file was read at block i.
pub(crate) fn row_read_on(row: &mut Option<OpenRow>, i: u32)
    requires { i < 4294967295 }
    ensures { row.new ≡ option_map (read_on i) row.old }
{
    if let Some(opened) = row {
        opened.seq = i == opened.next;
        opened.next = i + 1;
    }
}

/// Changes what is to be read ahead of an open file.
pub(crate) fn row_with_ahead(row: &mut Option<OpenRow>, start: u32, count: u8)
    ensures { row.new ≡ option_map (with_ahead start count) row.old }
{
    if let Some(opened) = row {
        opened.start = start;
        opened.count = count;
    }
}

/// Nothing, if the process holds the lock, else who holds it.
fn without_holder(holder: Option<u8>, p: u8) -> Option<u8>
    ensures { result ≡ freed_by p holder }
{
    match holder {
        Some(q) if q == p => None,
        _ => holder,
    }
}

/// Frees the locks that a process holds.
pub(crate) fn free_locks(holders: &mut [Option<u8>], p: u8)
    ensures { holders.new ≡ map (freed_by p) holders.old }
{
    for holder in holders.iter_mut() {
        *holder = without_holder(*holder, p);
    }
}

/// Whether a handler stands.
fn is_standing(handlers: &[(u8, u8)], q: u8, pt: u8) -> bool
    ensures { result ≡ list_any (is_handler q pt) handlers.now }
{
    handlers.iter().any(|h| h.0 == q && h.1 == pt)
}

/// How many handlers stand at a point.
fn count_at(handlers: &[(u8, u8)], pt: u8) -> usize
    ensures { result ≡ length (handlers_at pt handlers.now) }
{
    handlers.iter().filter(|h| h.1 == pt).count()
}

/// Whether a handler may be put last.
pub(crate) fn fits(handlers: &[(u8, u8)], q: u8, pt: u8) -> bool
    ensures { result ≡ has_room q pt handlers.now }
{
    is_standing(handlers, q, pt) || count_at(handlers, pt) < HANDLERS_AT_POINT
}

/// Takes out a handler.
pub(crate) fn remove_handler(handlers: &mut ArrayVec<(u8, u8), HANDLERS>, q: u8, pt: u8)
    ensures { handlers.new.items ≡ handlers_without q pt handlers.old.items }
{
    handlers.retain(|h| !(h.0 == q && h.1 == pt));
}

/// Takes out the handlers of a process.
pub(crate) fn remove_handlers(handlers: &mut ArrayVec<(u8, u8), HANDLERS>, p: u8)
    ensures { handlers.new.items ≡ handlers_without_process p handlers.old.items }
{
    handlers.retain(|h| h.0 != p);
}

/// Puts a handler last, which has room.
pub(crate) fn put_last(handlers: &mut ArrayVec<(u8, u8), HANDLERS>, q: u8, pt: u8)
    requires { length (handlers_without q pt handlers.old.items) < 64 }
    ensures { handlers.new.items ≡ handlers_without q pt handlers.old.items ++ (q, pt) ∷ [] }
{
    remove_handler(handlers, q, pt);
    handlers.push((q, pt));
}
