//! Copies of a state.

ghost use Rattle.std.specs.Prelude.{◌≡◌, ℕ, List, IfOk, option_map, option_copied};
ghost use Rattle.audit_table.specs.Tables.{by_place};
ghost use Rattle.audit_state.specs.Things.{things_of, kept_of, segments_of};
ghost use Rattle.audit_state.specs.Rows.{kept_row};
ghost use Rattle.audit_state.specs.Accounts.{accounts_of};

use crate::{Accounts, Kept, Things};
use audit_table::{Row, copy, put_last};
use kernel_model::NoMemory;
use std::alloc::Global;
use std::rc::Rc;

impl Kept {
    /// These bytes, kept.
    pub fn new(alloc: Global, bytes: &[u8]) -> Result<Kept, NoMemory>
        ensures { IfOk result (λ k. kept_of k ≡ by_place bytes.now) }
    {
        let own = copy(alloc, bytes)?;
        match Rc::new(alloc, own) {
            Ok(bytes) => Ok(Kept { bytes }),
            Err(_) => Err(NoMemory),
        }
    }

    /// The same bytes, shared once more.
    pub fn share(&self) -> Result<Kept, NoMemory>
        ensures { IfOk result (λ k. kept_of k ≡ kept_of self.now) }
    {
        match Rc::clone(&self.bytes) {
            Ok(bytes) => Ok(Kept { bytes }),
            Err(_) => Err(NoMemory),
        }
    }
}

/// The same bytes, if there are some, shared once more.
pub fn share_if(kept: Option<&Kept>) -> Result<Option<Kept>, NoMemory>
    ensures { IfOk result (λ shared.
        option_map kept_of shared ≡ option_map kept_of (option_copied kept.entry)) }
{
    match kept {
        None => Ok(None),
        Some(kept) => Ok(Some(kept.share()?)),
    }
}

/// The same row, whose bytes are shared once more.
fn share_row(row: &Row<Option<Kept>>) -> Result<Row<Option<Kept>>, NoMemory>
    ensures { IfOk result (λ shared. kept_row shared ≡ kept_row row.now) }
{
    let value = share_if(row.value.as_ref())?;
    Ok(Row {
        first: row.first,
        second: row.second,
        value,
    })
}

/// The same rows, whose bytes are shared once more.
fn share_rows(alloc: Global, rows: &[Row<Option<Kept>>]) -> Result<Vec<Row<Option<Kept>>>, NoMemory>
    ensures { IfOk result (λ shared. segments_of shared.items ≡ segments_of rows.now) }
{
    let mut shared = Vec::new(alloc);
    for row in rows {
        let one = share_row(row)?;
        put_last(&mut shared, one)?;
    }
    Ok(shared)
}

impl Accounts {
    /// The same accounts and grafts once more.
    pub fn copy(&self, alloc: Global) -> Result<Accounts, NoMemory>
        ensures { IfOk result (λ copied. accounts_of copied ≡ accounts_of self.now) }
    {
        Ok(Accounts {
            grafts: copy(alloc, &self.grafts)?,
            accounts: copy(alloc, &self.accounts)?,
        })
    }
}

impl Things {
    /// The same objects once more.
    pub fn copy(&self, alloc: Global) -> Result<Things, NoMemory>
        ensures { IfOk result (λ copied. (bytes : ℕ → List ℕ) →
            things_of bytes copied ≡ things_of bytes self.now) }
    {
        Ok(Things {
            cells: copy(alloc, &self.cells)?,
            files: copy(alloc, &self.files)?,
            queue: copy(alloc, &self.queue)?,
            frames: copy(alloc, &self.frames)?,
            lru: copy(alloc, &self.lru)?,
            locks: copy(alloc, &self.locks)?,
            chosen: copy(alloc, &self.chosen)?,
            params: copy(alloc, &self.params)?,
            segments: share_rows(alloc, &self.segments)?,
            handlers: copy(alloc, &self.handlers)?,
        })
    }
}
