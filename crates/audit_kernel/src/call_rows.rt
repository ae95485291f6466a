//! The rows that show the calls in flight.

ghost use Rattle.std.specs.Prelude.{◌≡◌, ◌==◌, ◌++◌, ℕ, List, Some, IfOk, OnOk, filter_map};
ghost use Rattle.std.specs.Prelude.{find, flat_map, length, map, reverse};
ghost use Rattle.kernel_model.specs.AllCalls.{all_calls};
ghost use Rattle.kernel_model.specs.Kernel as model;
ghost use Rattle.kernel_model.specs.RawRows as raw;
ghost use Rattle.kernel_model.specs.UndoLog.{numbered_log, undo_log};
ghost use Rattle.audit_levels.specs.Levels.{levels_of};
ghost use Rattle.audit_kernel.specs.Runs.{kernel_of, waiter_of, AreKept};
ghost use Rattle.audit_kernel.specs.Rows.{flight_rows, record_row};

use crate::rows::numbers;
use crate::{Run, Waiter};
use audit_levels::{Level, Record};
use audit_state::policies::{byte_of, word_of};
use audit_table::put_last;
use kernel_data::TopRow;
use kernel_model::{NoMemory, RawRow, WaitRow};

/// What an entry waits for.
fn wait_of(e: Waiter) -> Option<WaitRow>
    ensures { result ≡ raw.wait_by (Some (waiter_of e)) }
{
    match e.blocker {
        None => None,
        Some(b) => Some(WaitRow {
            object: b.object,
            holder: b.holder,
            count: e.count,
        }),
    }
}

/// What a process waits for.
fn wait_row(order: &[Waiter], p: u8) -> Option<WaitRow>
    ensures { result ≡ raw.wait_by
        (find (λ (e : model.Waiter). e.process == p) (map waiter_of order.now)) }
{
    match order {
        [] => None,
        [e, rest @ ..] => {
            if e.process == p {
                wait_of(*e)
            } else {
                wait_row(rest, p)
            }
        }
    }
}

/// How many levels these are.
fn depth(levels: &[Level]) -> Result<u8, NoMemory>
    ensures { IfOk result (λ d. d ≡ length levels.now) }
{
    byte_of(word_of(levels.len())?)
}

/// The innermost of these levels.
fn top_of(levels: &[Level]) -> Result<Option<TopRow>, NoMemory>
    ensures { IfOk result (λ top. (bytes : ℕ → List ℕ) →
        top ≡ raw.top_of (levels_of bytes levels.now)) }
{
    match levels {
        [] => Ok(None),
        [l, ..] => {
            let depth = depth(levels)?;
            Ok(Some(TopRow {
                installer: l.owner,
                point: l.point,
                depth,
            }))
        }
    }
}

/// The levels of a process come behind other rows, outermost first.
fn add_levels(p: u8, levels: &[Level], rows: &mut Vec<RawRow>) -> Result<(), NoMemory>
    ensures { OnOk result ((bytes : ℕ → List ℕ) → rows.new.items ≡ rows.old.items
        ++ reverse (raw.rows_of_levels p (levels_of bytes levels.now))) }
{
    match levels {
        [] => Ok(()),
        [l, rest @ ..] => {
            add_levels(p, rest, rows)?;
            let depth = depth(rest)?;
            let row = RawRow::Level {
                process: p,
                depth,
                installer: l.owner,
                point: l.point,
                taken: l.count,
            };
            put_last(rows, row)?;
            Ok(())
        }
    }
}

/// The records of level d of a process come behind other rows, newest first.
fn add_records(p: u8, depth: u8, records: &[Record], rows: &mut Vec<RawRow>) -> Result<(), NoMemory>
    ensures { OnOk result (rows.new.items ≡ rows.old.items
        ++ map (record_row p depth) records.now) }
{
    match records {
        [] => Ok(()),
        [record, rest @ ..] => {
            let row = RawRow::Undo {
                process: p,
                depth,
                inverse: record.inverse,
            };
            put_last(rows, row)?;
            add_records(p, depth, rest, rows)?;
            Ok(())
        }
    }
}

/// The records of all levels of a process come behind other rows, newest first.
fn add_log(p: u8, levels: &[Level], rows: &mut Vec<RawRow>) -> Result<(), NoMemory>
    ensures { OnOk result ((bytes : ℕ → List ℕ) → rows.new.items ≡ rows.old.items
        ++ map (raw.undo_row p) (numbered_log (undo_log (levels_of bytes levels.now)))) }
{
    match levels {
        [] => Ok(()),
        [l, rest @ ..] => {
            let depth = depth(rest)?;
            add_records(p, depth, &l.records, rows)?;
            add_log(p, rest, rows)?;
            Ok(())
        }
    }
}

impl Run {
    /// The row of the call of a process, if one is in flight.
    fn call_row(&self, p: u8) -> Result<Option<RawRow>, NoMemory>
        requires kept { AreKept self.now }
        ensures { IfOk result (λ row. row ≡ raw.call_row all_calls (kernel_of self.now) p) }
    {
        match self.call_number(p) {
            None => Ok(None),
            Some(number) => {
                let wait = wait_row(self.order.as_slice(), p);
                let top = top_of(self.levels(p))?;
                Ok(Some(RawRow::Call {
                    process: p,
                    number,
                    wait,
                    top,
                }))
            }
        }
    }

    /// The calls of these processes that are in flight come behind other rows.
    fn add_calls(&self, processes: &[u8], rows: &mut Vec<RawRow>) -> Result<(), NoMemory>
        requires kept { AreKept self.now }
        ensures { OnOk result (rows.new.items ≡ rows.old.items
            ++ filter_map (raw.call_row all_calls (kernel_of self.now)) processes.now) }
    {
        match processes {
            [] => Ok(()),
            [p, rest @ ..] => {
                match self.call_row(*p)? {
                    None => {
                        self.add_calls(rest, rows)?;
                        Ok(())
                    }
                    Some(row) => {
                        put_last(rows, row)?;
                        self.add_calls(rest, rows)?;
                        Ok(())
                    }
                }
            }
        }
    }

    /// The levels of these processes come behind other rows.
    fn add_all_levels(&self, processes: &[u8], rows: &mut Vec<RawRow>) -> Result<(), NoMemory>
        requires kept { AreKept self.now }
        ensures { OnOk result (rows.new.items ≡ rows.old.items
            ++ flat_map (raw.level_rows all_calls (kernel_of self.now)) processes.now) }
    {
        match processes {
            [] => Ok(()),
            [p, rest @ ..] => {
                add_levels(*p, self.levels(*p), rows)?;
                self.add_all_levels(rest, rows)?;
                Ok(())
            }
        }
    }

    /// The records of these processes come behind other rows.
    fn add_all_records(&self, processes: &[u8], rows: &mut Vec<RawRow>) -> Result<(), NoMemory>
        requires kept { AreKept self.now }
        ensures { OnOk result (rows.new.items ≡ rows.old.items
            ++ flat_map (raw.undo_rows all_calls (kernel_of self.now)) processes.now) }
    {
        match processes {
            [] => Ok(()),
            [p, rest @ ..] => {
                add_log(*p, self.levels(*p), rows)?;
                self.add_all_records(rest, rows)?;
                Ok(())
            }
        }
    }

    /// The rows of the calls in flight come behind other rows.
    pub(crate) fn add_flights(&self, rows: &mut Vec<RawRow>) -> Result<(), NoMemory>
        requires kept { AreKept self.now }
        ensures { OnOk result (rows.new.items
            ≡ rows.old.items ++ flight_rows (kernel_of self.now)) }
    {
        self.add_calls(&numbers(), rows)?;
        self.add_all_levels(&numbers(), rows)?;
        self.add_all_records(&numbers(), rows)?;
        Ok(())
    }
}
