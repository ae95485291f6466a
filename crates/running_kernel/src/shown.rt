//! The rows that show the calls in flight.

ghost use Rattle.std.specs.Prelude.{◌≡◌, ℕ, ◌==◌, ◌<◌, ◌≤◌, List, Some, find, length, map, reverse, slice_get};
ghost use Rattle.kernel_model.specs.Kernel.{Waiter};
ghost use Rattle.kernel_model.specs.Locks.{LockTable};
ghost use Rattle.kernel_data.specs.Objects.{Things};
ghost use Rattle.kernel_model.specs.RawRows.{rows_of_levels, top_of, undo_row, wait_by};
ghost use Rattle.kernel_model.specs.UndoLog.{numbered_log};
ghost use Rattle.graft_levels.specs.UndoLevels.{Logged, log_of};
ghost use Rattle.graft_levels.specs.Chains.{levels_in};
ghost use Rattle.placed_laws.specs.PlacedRows.{placed_call_row, placed_level_rows, placed_undo_rows};
ghost use Rattle.running_kernel.specs.Orders.{entry_of, order_of};
ghost use Rattle.running_kernel.specs.Sound.{HasProcess};
ghost use Rattle.running_kernel.specs.Views.{placed_of};

use crate::flights::{count_of, flight};
use crate::order::Waiting;
use crate::running::Running;
use call_pieces::{Calls, Policy};
use graft_levels::{Levels, UndoStack};
use kernel_data::{RawRow, TopRow, WaitRow};

/// What an entry waits for.
fn wait_of(waiting: &Waiting) -> Option<WaitRow>
    ensures { result ≡ wait_by (Some (entry_of waiting.now)) }
{
    let blocking = waiting.blocker?;
    Some(WaitRow {
        object: blocking.object,
        holder: blocking.holder,
        count: waiting.count,
    })
}

/// What process p waits for.
fn wait_row(entries: &[Waiting], p: u8) -> Option<WaitRow>
    ensures { result ≡ wait_by (find (λ (e : Waiter). e.process == p) (order_of entries.now)) }
{
    let (first, rest) = entries.split_first()?;
    if first.process == p {
        return wait_of(first);
    }
    wait_row(rest, p)
}

/// The innermost of these levels.
fn top_row(levels: &Levels) -> Option<TopRow>
    ensures { (p : ℕ) (ram : List ℕ) (t : LockTable) (log : List (List Logged)) (w : Things) →
        result ≡ top_of (levels_in p ram t levels.now log w) }
{
    let level = levels.innermost()?;
    Some(TopRow {
        installer: level.owner,
        point: level.point,
        depth: levels.count(),
    })
}

/// Level d of process p, 0 being the outermost.
fn row_of_level(levels: &Levels, p: u8, d: u8) -> RawRow
    requires { d < length levels.now }
    ensures { (ram : List ℕ) (t : LockTable) (log : List (List Logged)) (w : Things) →
        slice_get (reverse (rows_of_levels p (levels_in p ram t levels.now log w))) d
        ≡ Some result }
{
    let level = &levels.as_slice()[d as usize];
    RawRow::Level {
        process: p,
        depth: d,
        installer: level.owner,
        point: level.point,
        taken: level.count,
    }
}

/// Record i of process p, 0 being the newest.
fn row_of_record(log: &UndoStack, p: u8, i: u8) -> RawRow
    requires { i < length (numbered_log log.now) }
    ensures { slice_get (map (undo_row p) (numbered_log (log_of log.now))) i ≡ Some result }
{
    let records = log.list();
    let place = records.len() - 1 - i as usize;
    RawRow::Undo {
        process: p,
        depth: log.owner(place),
        inverse: records[place],
    }
}

impl<C: Calls, B: Policy> Running<C, B> {
    /// The call of process p, if it has one: its number, what it waits for, and its innermost
    /// level.
    pub fn call_row(&self, p: u8) -> Option<RawRow>
        requires { HasProcess self.now p }
        ensures { result ≡ placed_call_row (placed_of self.now) p }
    {
        let flight = flight(&self.calls, p);
        let Some(call) = flight.call.get() else {
            return None;
        };
        let waits = wait_row(self.order.entries(), p);
        Some(RawRow::Call {
            process: p,
            number: call.number,
            wait: waits,
            top: top_row(&flight.chain.levels),
        })
    }

    /// How many levels the call of process p has.
    pub fn shown_levels(&self, p: u8) -> u8
        ensures value { result ≡ length (placed_level_rows (placed_of self.now) p) }
        ensures few { result ≤ 4 }
    {
        count_of(&self.calls, p)
    }

    /// Level d of process p's call, 0 being the outermost.
    pub fn level_row(&self, p: u8, d: u8) -> RawRow
        requires { d < length (placed_level_rows (placed_of self.now) p) }
        ensures { slice_get (placed_level_rows (placed_of self.now) p) d ≡ Some result }
    {
        row_of_level(&flight(&self.calls, p).chain.levels, p, d)
    }

    /// How many records the call of process p has, over all its levels.
    pub fn shown_records(&self, p: u8) -> u8
        requires { HasProcess self.now p }
        ensures value { result ≡ length (placed_undo_rows (placed_of self.now) p) }
        ensures few { result ≤ 64 }
    {
        flight(&self.calls, p).chain.undo.list().len() as u8
    }

    /// Record i of process p's call with the level that owns it, 0 being the newest.
    pub fn undo_row(&self, p: u8, i: u8) -> RawRow
        requires at { HasProcess self.now p }
        requires recorded { i < length (placed_undo_rows (placed_of self.now) p) }
        ensures { slice_get (placed_undo_rows (placed_of self.now) p) i ≡ Some result }
    {
        row_of_record(&flight(&self.calls, p).chain.undo, p, i)
    }
}
