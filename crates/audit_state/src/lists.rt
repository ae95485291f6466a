//! The work on lists and rows, as functions over them alone.

ghost use Rattle.std.specs.Prelude.{◌≡◌, ℕ, ◌==◌, ◌∷◌, [], ◌++◌, List, IfOk, OnOk, None, cond};
ghost use Rattle.std.specs.Prelude.{filter, length, map, not};
ghost use Rattle.std.specs.List.{list_any};
ghost use Rattle.kernel_model.specs.declared.QueueRow.{QueueRow as TurnRow};
ghost use Rattle.kernel_model.specs.Access.{with_nice};
ghost use Rattle.kernel_model.specs.Fetch as fetch;
ghost use Rattle.kernel_model.specs.Queue.{queue_without, one_more_slice};
ghost use Rattle.kernel_model.specs.Pieces as pieces;
ghost use Rattle.kernel_model.specs.Handlers as handlers;
ghost use Rattle.audit_table.specs.Tables.{column_of};
ghost use Rattle.audit_state.specs.Rows.{handed, exchanged, row_through};

use crate::Frame;
use audit_table::{Row, copy, put_last};
use kernel_model::{NoMemory, QueueRow};
use std::alloc::Global;

/// The most handlers at one point.
const HANDLERS_AT_POINT: usize = 8;

/// A row with another nice, if it is that of the process.
fn row_with_nice(row: QueueRow, q: u8, v: u8) -> QueueRow
    ensures { result ≡ cond (row.process == q) (record row { nice = v }) row }
{
    if row.process == q {
        QueueRow { nice: v, ..row }
    } else {
        row
    }
}

/// A process of the queue gets another nice.
pub(crate) fn put_nice(rows: &mut Vec<QueueRow>, q: u8, v: u8)
    ensures { rows.new.items ≡ with_nice q v rows.old.items }
{
    for row in rows.iter_mut() {
        *row = row_with_nice(*row, q, v);
    }
}

/// A row with one slice more, if it is that of the process.
fn row_with_slice(row: QueueRow, q: u8) -> QueueRow
    ensures { result ≡ cond (row.process == q)
        (record row { slices = one_more_slice row.slices }) row }
{
    if row.process == q {
        QueueRow {
            slices: row.slices.saturating_add(1),
            ..row
        }
    } else {
        row
    }
}

/// A process of the queue gets one slice more.
pub(crate) fn add_slice(rows: &mut Vec<QueueRow>, q: u8)
    ensures { rows.new.items ≡ pieces.add_slice q rows.old.items }
{
    for row in rows.iter_mut() {
        *row = row_with_slice(*row, q);
    }
}

/// The queue without a process.
pub(crate) fn take_out(rows: &mut Vec<QueueRow>, q: u8)
    ensures { rows.new.items ≡ queue_without q rows.old.items }
{
    rows.retain(|r| r.process != q);
}

/// The rows of a process alone.
fn keep_only(rows: &mut Vec<QueueRow>, q: u8)
    ensures { rows.new.items ≡ filter (λ (r : TurnRow). r.process == q) rows.old.items }
{
    rows.retain(|r| r.process == q);
}

/// A process goes to the back of the queue.
pub(crate) fn move_back(alloc: Global, rows: &mut Vec<QueueRow>, q: u8) -> Result<(), NoMemory>
    ensures { OnOk result (rows.new.items ≡ pieces.to_back q rows.old.items) }
{
    let mut own = copy(alloc, rows)?;
    keep_only(&mut own, q);
    take_out(rows, q);
    match rows.extend_from_slice(&own) {
        Ok(()) => Ok(()),
        Err(_) => Err(NoMemory),
    }
}

/// The order of use without a frame.
fn leave_out(order: &mut Vec<u32>, f: u32)
    ensures { order.new.items ≡ filter (λ g. not (g == f)) order.old.items }
{
    order.retain(|g| *g != f);
}

/// A frame becomes the newest in the order of use.
pub(crate) fn make_newest(order: &mut Vec<u32>, f: u32) -> Result<(), NoMemory>
    ensures { OnOk result (order.new.items ≡ fetch.newest f order.old.items) }
{
    leave_out(order, f);
    put_last(order, f)
}

/// A frame, or the other one of two.
fn other(h: u32, f: u32, g: u32) -> u32
    ensures { result ≡ exchanged f g h }
{
    if h == f {
        g
    } else if h == g {
        f
    } else {
        h
    }
}

/// Two frames change places in the order of use.
pub(crate) fn exchange(order: &mut Vec<u32>, f: u32, g: u32)
    ensures { order.new.items ≡ fetch.swapped f g order.old.items }
{
    for h in order.iter_mut() {
        *h = other(*h, f, g);
    }
}

/// A row of a frame whose owner changes from one process to another.
fn handed_row(row: Row<Option<Frame>>, from: u8, to: u8) -> Row<Option<Frame>>
    ensures { result ≡ row_through (handed from to) row }
{
    match row.value {
        Some(value) if value.owner == from => Row {
            value: Some(Frame { owner: to, ..value }),
            ..row
        },
        _ => row,
    }
}

/// What one process owned is another's.
pub(crate) fn hand_over(rows: &mut Vec<Row<Option<Frame>>>, from: u8, to: u8)
    ensures { rows.new.items ≡ map (row_through (handed from to)) rows.old.items }
{
    for row in rows.iter_mut() {
        *row = handed_row(*row, from, to);
    }
}

/// A row of a lock, without this holder.
fn freed_row(row: Row<Option<u8>>, p: u8) -> Row<Option<u8>>
    ensures { result ≡ row_through (pieces.freed_by p) row }
{
    match row.value {
        Some(q) if q == p => Row { value: None, ..row },
        _ => row,
    }
}

/// The locks that a process holds are free.
pub(crate) fn free_locks(rows: &mut Vec<Row<Option<u8>>>, p: u8)
    ensures { rows.new.items ≡ map (row_through (pieces.freed_by p)) rows.old.items }
{
    for row in rows.iter_mut() {
        *row = freed_row(*row, p);
    }
}

/// Whether a handler stands.
fn is_standing(list: &[(u8, u8)], q: u8, pt: u8) -> bool
    ensures { result ≡ list_any (handlers.is_handler q pt) list.now }
{
    list.iter().any(|h| h.0 == q && h.1 == pt)
}

/// How many handlers stand at a point.
fn count_at(list: &[(u8, u8)], pt: u8) -> usize
    ensures { result ≡ length (handlers.handlers_at pt list.now) }
{
    list.iter().filter(|h| h.1 == pt).count()
}

/// Whether a handler may be put last.
pub(crate) fn has_room(list: &[(u8, u8)], q: u8, pt: u8) -> bool
    ensures { result ≡ handlers.has_room q pt list.now }
{
    is_standing(list, q, pt) || count_at(list, pt) < HANDLERS_AT_POINT
}

/// The handlers without this one.
pub(crate) fn remove_handler(list: &mut Vec<(u8, u8)>, q: u8, pt: u8)
    ensures { list.new.items ≡ handlers.handlers_without q pt list.old.items }
{
    list.retain(|h| !(h.0 == q && h.1 == pt));
}

/// The handlers without those of a process.
pub(crate) fn remove_handlers(list: &mut Vec<(u8, u8)>, p: u8)
    ensures { list.new.items ≡ handlers.handlers_without_process p list.old.items }
{
    list.retain(|h| h.0 != p);
}

/// The handlers at a point alone.
pub(crate) fn keep_at(list: &mut Vec<(u8, u8)>, pt: u8)
    ensures { list.new.items ≡ handlers.handlers_at pt list.old.items }
{
    list.retain(|h| h.1 == pt);
}

/// A handler that is put last, where it has room.
pub(crate) fn put_handler(list: &mut Vec<(u8, u8)>, q: u8, pt: u8) -> Result<(), NoMemory>
    ensures { OnOk result (list.new.items ≡ handlers.handlers_with q pt list.old.items) }
{
    if !has_room(list, q, pt) {
        return Ok(());
    }
    remove_handler(list, q, pt);
    put_last(list, (q, pt))
}
