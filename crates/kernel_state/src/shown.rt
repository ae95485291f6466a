//! The rows that show a store's objects.

ghost use Rattle.std.specs.Prelude.{◌≡◌, ◌<◌, ◌≤◌, length};
ghost use Rattle.kernel_model.specs.RawRows.{acct_row, cells_row, open_row, graft_row, pol_row, lock_row};
ghost use Rattle.kernel_data.specs.declared.RawRow.TheVariants.{Acct, Cells, Queue};
ghost use Rattle.kernel_state.specs.Stores.{world_of_store, objects_of, queue_of};

use crate::Store;
use graft_accounts::GraftPoint;
use graft_points::Policy;
use kernel_data::{Kind, QueueRow, QueueRows, RawRow};

impl<B: Policy> Store<B> {
    /// The queue, front first.
    pub fn shown_queue(&self) -> RawRow
        ensures { result ≡ Queue (queue_of self.now) }
    {
        RawRow::Queue(copy_of(self.procs.rows()))
    }

    /// What process p has and has spent of each kind.
    pub fn shown_account(&self, p: u8) -> RawRow
        ensures { result ≡ acct_row (objects_of self.now) p }
    {
        RawRow::Acct(p, self.amounts(p))
    }

    /// The amounts of process p, balances first.
    pub fn amounts(&self, p: u8) -> [u64; 6]
        ensures { Acct p result ≡ acct_row (objects_of self.now) p }
    {
        [
            self.accounts.balance(p, Kind::Steps),
            self.accounts.balance(p, Kind::Records),
            self.accounts.balance(p, Kind::Locks),
            self.accounts.spent(p, Kind::Steps),
            self.accounts.spent(p, Kind::Records),
            self.accounts.spent(p, Kind::Locks),
        ]
    }

    /// The cells of process p.
    pub fn shown_cells(&self, p: u8) -> RawRow
        requires { p < 16 }
        ensures { result ≡ cells_row (objects_of self.now) p }
    {
        RawRow::Cells(p, self.cells(p))
    }

    /// The values of the cells of process p.
    pub fn cells(&self, p: u8) -> [u32; 4]
        requires { p < 16 }
        ensures { Cells p result ≡ cells_row (objects_of self.now) p }
    {
        [
            self.procs.cell(p, 0),
            self.procs.cell(p, 1),
            self.procs.cell(p, 2),
            self.procs.cell(p, 3),
        ]
    }

    /// The file that is open at descriptor fd of process p, with its name.
    pub fn shown_file(&self, p: u8, fd: u8) -> Option<RawRow>
        requires process { p < 16 }
        requires number { fd < 4 }
        ensures { result ≡ open_row (world_of_store self.now) (objects_of self.now) p fd }
    {
        let opened = self.procs.file(p, fd)?;
        let file = self.dir.file(opened.file);
        Some(RawRow::OpenFile {
            process: p,
            descriptor: fd,
            name: file.name,
            row: opened,
        })
    }

    /// The graft that stands at point pt of process p.
    pub fn shown_graft(&self, p: u8, pt: u8) -> Option<RawRow>
        requires process { p < 16 }
        requires point { pt < 16 }
        ensures { result ≡ graft_row (objects_of self.now) p pt }
    {
        let graft = self.accounts.graft(GraftPoint {
            process: p,
            point: pt,
        })?;
        let balance = [graft.steps, graft.records, graft.locks];
        Some(RawRow::Graft {
            installer: p,
            point: pt,
            slot: graft.image,
            limit: graft.limit,
            billed: graft.billed,
            amounts: balance,
        })
    }

    /// The chosen policy of a kind, with its parameter if it has one.
    pub fn shown_policy(&self, kind: u8) -> RawRow
        requires kind { kind < 3 }
        ensures { result ≡ pol_row (objects_of self.now) kind }
    {
        RawRow::Pol {
            kind,
            policy: self.chosen(kind),
            parameter: self.param(kind),
        }
    }

    /// The process that holds user lock u.
    pub fn shown_lock(&self, u: u8) -> Option<RawRow>
        requires { u < 16 }
        ensures { result ≡ lock_row (objects_of self.now) u }
    {
        let p = self.procs.holder(u)?;
        Some(RawRow::Lock(u, p))
    }
}

/// These rows once more.
fn copy_of(rows: &[QueueRow]) -> QueueRows
    requires { length rows.now ≤ 16 }
    ensures { result ≡ rows.now }
{
    let mut copy = QueueRows::new();
    for row in rows {
        let _ = copy.push(*row);
    }
    copy
}
