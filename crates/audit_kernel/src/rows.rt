//! The rows that show the objects, calls in flight included.

ghost use Rattle.std.specs.Prelude.{◌≡◌, ◌∷◌, ◌++◌, [], ℕ, List, IfOk, OnOk, None, filter};
ghost use Rattle.std.specs.Prelude.{filter_map, flat_map, map, option_map, slice_index_or};
ghost use Rattle.kernel_data.specs.declared.RawRow.{RawRow};
ghost use Rattle.kernel_data.specs.Policies as policies;
ghost use Rattle.kernel_data.specs.World.{processes};
ghost use Rattle.kernel_model.specs.AllCalls.{all_calls};
ghost use Rattle.kernel_model.specs.InPlace.{in_place};
ghost use Rattle.kernel_model.specs.Access.{param_top};
ghost use Rattle.kernel_model.specs.RawRows as raw;
ghost use Rattle.audit_state.specs.Things.{things_of};
ghost use Rattle.audit_state.specs.Worlds.{sample_rows, world_of};
ghost use Rattle.audit_kernel.specs.Runs.{kernel_of, AreKept};
ghost use Rattle.audit_kernel.specs.Rows.{frame_row_in, frame_rows, place_rows, process_rows};

use crate::Run;
use audit_state::policies::byte_of;
use audit_state::{Amounts, Things};
use audit_table::put_last;
use kernel_data::{FrameRows, Name, QueueRows};
use kernel_model::{FrameRow, NoMemory, Object, OpenRow, QueueRow, RawRow};

/// The numbers of processes, of points and of user locks.
pub(crate) fn numbers() -> [u8; 16]
    ensures { result ≡ processes }
{
    [0, 1, 2, 3, 4, 5, 6, 7, 8, 9, 10, 11, 12, 13, 14, 15]
}

/// The living ones of these processes come behind others.
fn add_living(queue: &Things, processes: &[u8], living: &mut Vec<u8>) -> Result<(), NoMemory>
    ensures { OnOk result (living.new.items ≡ living.old.items
        ++ filter (policies.lives queue.now.queue.items) processes.now) }
{
    match processes {
        [] => Ok(()),
        [p, rest @ ..] => {
            if queue.lives(*p) {
                put_last(living, *p)?;
                add_living(queue, rest, living)?;
                Ok(())
            } else {
                add_living(queue, rest, living)?;
                Ok(())
            }
        }
    }
}

/// These rows of the queue, of which there are at most 16.
fn queue_rows(queue: &[QueueRow]) -> Result<QueueRows, NoMemory>
    ensures { IfOk result (λ rows. rows ≡ queue.now) }
{
    let mut rows = QueueRows::new();
    for row in queue {
        if !rows.push(*row) {
            return Err(NoMemory);
        }
    }
    Ok(rows)
}

/// The name of a file of the sample disk.
#[tactic(auto, unfolding(audit_state::specs::Worlds::sample_rows))]
fn file_bytes(file: u8) -> &'static [u8]
    ensures { result.now ≡ raw.name_of_file (slice_index_or sample_rows file None) }
{
    match file {
        0 => b"alpha".as_slice(),
        1 => b"beta".as_slice(),
        2 => b"gamma".as_slice(),
        _ => &[],
    }
}

/// This name, of at most 16 bytes.
fn name_of(bytes: &[u8]) -> Result<Name, NoMemory>
    ensures { IfOk result (λ name. name ≡ bytes.now) }
{
    let mut name = Name::new();
    for byte in bytes {
        if !name.push(*byte) {
            return Err(NoMemory);
        }
    }
    Ok(name)
}

/// The row of a frame, if it is in use.
fn frame_row(cache: &Things, f: u32) -> Result<Option<FrameRow>, NoMemory>
    ensures { IfOk result (λ row. (bytes : ℕ → List ℕ) →
        row ≡ frame_row_in (things_of bytes cache.now).cache f) }
{
    match cache.frame(f) {
        None => Ok(None),
        Some(value) => {
            let frame = byte_of(f)?;
            Ok(Some(FrameRow {
                frame,
                owner: value.owner,
                block: value.block,
                dirty: value.dirty,
                mark: value.mark,
            }))
        }
    }
}

/// The rows of these frames that are in use come behind others.
fn add_frames(cache: &Things, frames: &[u32], rows: &mut FrameRows) -> Result<(), NoMemory>
    ensures { OnOk result ((bytes : ℕ → List ℕ) → rows.new ≡ rows.old
        ++ filter_map (frame_row_in (things_of bytes cache.now).cache) frames.now) }
{
    match frames {
        [] => Ok(()),
        [f, rest @ ..] => match frame_row(cache, *f)? {
            None => {
                add_frames(cache, rest, rows)?;
                Ok(())
            }
            Some(row) => {
                if !rows.push(row) {
                    return Err(NoMemory);
                }
                add_frames(cache, rest, rows)?;
                Ok(())
            }
        },
    }
}

/// The parameter of a policy, if it has one: policy 0 has none.
fn parameter_of(things: &Things, kind: u8, policy: u8) -> Option<u32>
    ensures { (bytes : ℕ → List ℕ) → result ≡ option_map
        (λ top. ((things_of bytes things.now).pol kind).param policy) (param_top kind policy) }
{
    if policy == 0 {
        None
    } else {
        Some(things.param(u32::from(kind), u32::from(policy)))
    }
}

/// What a row shows of amounts.
fn shown(a: Amounts) -> [u64; 3]
    ensures { result ≡ a.steps ∷ a.records ∷ a.locks ∷ [] }
{
    [a.steps, a.records, a.locks]
}

impl Run {
    /// The living processes, by number.
    fn living(&self) -> Result<Vec<u8>, NoMemory>
        requires kept { AreKept self.now }
        ensures { IfOk result (λ ps. ps.items
            ≡ raw.living (in_place all_calls (kernel_of self.now))) }
    {
        let mut living = Vec::new(self.setting.alloc);
        add_living(self.things_at(Object::Queue), &numbers(), &mut living)?;
        Ok(living)
    }

    /// The row of the queue.
    fn queue_row(&self) -> Result<RawRow, NoMemory>
        requires kept { AreKept self.now }
        ensures { IfOk result (λ row. row
            ≡ RawRow.Queue (in_place all_calls (kernel_of self.now)).things.queue) }
    {
        let rows = queue_rows(self.things_at(Object::Queue).queue.as_slice())?;
        Ok(RawRow::Queue(rows))
    }

    /// The row of an account.
    fn account_row(&self, p: u8) -> RawRow
        requires kept { AreKept self.now }
        ensures { result ≡ raw.acct_row (in_place all_calls (kernel_of self.now)) p }
    {
        let a = self.accounts_at(Object::Acct(p)).account(p);
        let (balance, spent) = (a.balance, a.spent);
        RawRow::Acct(
            p,
            [
                balance.steps,
                balance.records,
                balance.locks,
                spent.steps,
                spent.records,
                spent.locks,
            ],
        )
    }

    /// The accounts of these processes come behind other rows.
    fn add_accounts(&self, living: &[u8], rows: &mut Vec<RawRow>) -> Result<(), NoMemory>
        requires kept { AreKept self.now }
        ensures { OnOk result (rows.new.items ≡ rows.old.items
            ++ map (raw.acct_row (in_place all_calls (kernel_of self.now))) living.now) }
    {
        match living {
            [] => Ok(()),
            [p, rest @ ..] => {
                put_last(rows, self.account_row(*p))?;
                self.add_accounts(rest, rows)?;
                Ok(())
            }
        }
    }

    /// A cell of a process.
    fn cell(&self, p: u8, k: u8) -> u32
        requires kept { AreKept self.now }
        ensures { result ≡ (in_place all_calls (kernel_of self.now)).things.cell p k }
    {
        self.things_at(Object::Cell(p, k)).cell(p, u32::from(k))
    }

    /// The cells of these processes come behind other rows.
    fn add_cells(&self, living: &[u8], rows: &mut Vec<RawRow>) -> Result<(), NoMemory>
        requires kept { AreKept self.now }
        ensures { OnOk result (rows.new.items ≡ rows.old.items
            ++ map (raw.cells_row (in_place all_calls (kernel_of self.now))) living.now) }
    {
        match living {
            [] => Ok(()),
            [p, rest @ ..] => {
                let cells = [
                    self.cell(*p, 0),
                    self.cell(*p, 1),
                    self.cell(*p, 2),
                    self.cell(*p, 3),
                ];
                put_last(rows, RawRow::Cells(*p, cells))?;
                self.add_cells(rest, rows)?;
                Ok(())
            }
        }
    }

    /// The row of an open file, if the descriptor has one.
    fn open_row(&self, p: u8, fd: u8) -> Result<Option<RawRow>, NoMemory>
        requires kept { AreKept self.now }
        ensures { IfOk result (λ row. row ≡ raw.open_row (world_of self.now.setting.world)
            (in_place all_calls (kernel_of self.now)) p fd) }
    {
        match self
            .things_at(Object::OpenFile(p, fd))
            .file(p, u32::from(fd))
        {
            None => Ok(None),
            Some(row) => {
                let name = name_of(file_bytes(row.file))?;
                Ok(Some(RawRow::OpenFile {
                    process: p,
                    descriptor: fd,
                    name,
                    row,
                }))
            }
        }
    }

    /// The open files at these descriptors of a process come behind other rows.
    fn add_open(&self, p: u8, descriptors: &[u8], rows: &mut Vec<RawRow>) -> Result<(), NoMemory>
        requires kept { AreKept self.now }
        ensures { OnOk result (rows.new.items ≡ rows.old.items
            ++ filter_map (raw.open_row (world_of self.now.setting.world)
            (in_place all_calls (kernel_of self.now)) p) descriptors.now) }
    {
        match descriptors {
            [] => Ok(()),
            [fd, rest @ ..] => {
                match self.open_row(p, *fd)? {
                    None => {
                        self.add_open(p, rest, rows)?;
                        Ok(())
                    }
                    Some(row) => {
                        put_last(rows, row)?;
                        self.add_open(p, rest, rows)?;
                        Ok(())
                    }
                }
            }
        }
    }

    /// The open files of these processes come behind other rows.
    fn add_files(&self, processes: &[u8], rows: &mut Vec<RawRow>) -> Result<(), NoMemory>
        requires kept { AreKept self.now }
        ensures { OnOk result (rows.new.items ≡ rows.old.items
            ++ flat_map (raw.open_rows (world_of self.now.setting.world)
            (in_place all_calls (kernel_of self.now))) processes.now) }
    {
        match processes {
            [] => Ok(()),
            [p, rest @ ..] => {
                self.add_open(*p, &[0, 1, 2, 3], rows)?;
                self.add_files(rest, rows)?;
                Ok(())
            }
        }
    }

    /// The row of a graft, if one stands at the point.
    fn graft_row(&self, q: u8, pt: u8) -> Option<RawRow>
        requires kept { AreKept self.now }
        ensures { result ≡ raw.graft_row (in_place all_calls (kernel_of self.now)) q pt }
    {
        match self.accounts_at(Object::Graft(q, pt)).graft(q, pt) {
            None => None,
            Some(g) => Some(RawRow::Graft {
                installer: q,
                point: pt,
                slot: g.image,
                limit: g.limit,
                billed: g.billed,
                amounts: shown(g.balance),
            }),
        }
    }

    /// The grafts at these points of a process come behind other rows.
    fn add_points(&self, q: u8, points: &[u8], rows: &mut Vec<RawRow>) -> Result<(), NoMemory>
        requires kept { AreKept self.now }
        ensures { OnOk result (rows.new.items ≡ rows.old.items
            ++ filter_map (raw.graft_row (in_place all_calls (kernel_of self.now)) q) points.now) }
    {
        match points {
            [] => Ok(()),
            [pt, rest @ ..] => {
                match self.graft_row(q, *pt) {
                    None => {
                        self.add_points(q, rest, rows)?;
                        Ok(())
                    }
                    Some(row) => {
                        put_last(rows, row)?;
                        self.add_points(q, rest, rows)?;
                        Ok(())
                    }
                }
            }
        }
    }

    /// The grafts of these processes come behind other rows.
    fn add_grafts(&self, processes: &[u8], rows: &mut Vec<RawRow>) -> Result<(), NoMemory>
        requires kept { AreKept self.now }
        ensures { OnOk result (rows.new.items ≡ rows.old.items
            ++ flat_map (raw.graft_rows (in_place all_calls (kernel_of self.now))) processes.now) }
    {
        match processes {
            [] => Ok(()),
            [q, rest @ ..] => {
                self.add_points(*q, &numbers(), rows)?;
                self.add_grafts(rest, rows)?;
                Ok(())
            }
        }
    }

    /// The row of the chosen policy of a kind. Policy 0 has no parameter.
    fn policy_row(&self, kind: u8) -> RawRow
        requires kept { AreKept self.now }
        ensures { result ≡ raw.pol_row (in_place all_calls (kernel_of self.now)) kind }
    {
        let things = self.things_at(Object::Pol(kind));
        let policy = things.chosen(u32::from(kind));
        let parameter = parameter_of(things, kind, policy);
        RawRow::Pol {
            kind,
            policy,
            parameter,
        }
    }

    /// The chosen policies of these kinds come behind other rows.
    fn add_policies(&self, kinds: &[u8], rows: &mut Vec<RawRow>) -> Result<(), NoMemory>
        requires kept { AreKept self.now }
        ensures { OnOk result (rows.new.items ≡ rows.old.items
            ++ map (raw.pol_row (in_place all_calls (kernel_of self.now))) kinds.now) }
    {
        match kinds {
            [] => Ok(()),
            [kind, rest @ ..] => {
                put_last(rows, self.policy_row(*kind))?;
                self.add_policies(rest, rows)?;
                Ok(())
            }
        }
    }

    /// The row of the frames, oldest first.
    fn frames_row(&self) -> Result<RawRow, NoMemory>
        requires kept { AreKept self.now }
        ensures { IfOk result (λ row. row ≡ RawRow.Lru
            (filter_map (raw.frame_row_of (in_place all_calls (kernel_of self.now)))
            (in_place all_calls (kernel_of self.now)).things.cache.lru)) }
    {
        let cache = self.things_at(Object::Cache);
        let mut rows = FrameRows::new();
        add_frames(cache, cache.lru.as_slice(), &mut rows)?;
        Ok(RawRow::Lru(rows))
    }

    /// The row of a user lock, if it is held.
    fn lock_row(&self, u: u8) -> Option<RawRow>
        requires kept { AreKept self.now }
        ensures { result ≡ raw.lock_row (in_place all_calls (kernel_of self.now)) u }
    {
        match self.things_at(Object::Lock(u)).holder(u32::from(u)) {
            None => None,
            Some(p) => Some(RawRow::Lock(u, p)),
        }
    }

    /// The held ones of these user locks come behind other rows.
    fn add_locks(&self, locks: &[u8], rows: &mut Vec<RawRow>) -> Result<(), NoMemory>
        requires kept { AreKept self.now }
        ensures { OnOk result (rows.new.items ≡ rows.old.items
            ++ filter_map (raw.lock_row (in_place all_calls (kernel_of self.now))) locks.now) }
    {
        match locks {
            [] => Ok(()),
            [u, rest @ ..] => {
                match self.lock_row(*u) {
                    None => {
                        self.add_locks(rest, rows)?;
                        Ok(())
                    }
                    Some(row) => {
                        put_last(rows, row)?;
                        self.add_locks(rest, rows)?;
                        Ok(())
                    }
                }
            }
        }
    }

    /// Clock, queue, accounts and cells come behind other rows.
    pub(crate) fn add_processes(&self, rows: &mut Vec<RawRow>) -> Result<(), NoMemory>
        requires kept { AreKept self.now }
        ensures { OnOk result ((others : List RawRow) → rows.new.items ++ others
            ≡ rows.old.items ++ process_rows (kernel_of self.now)
            (in_place all_calls (kernel_of self.now)) others) }
    {
        let living = self.living()?;
        put_last(rows, RawRow::Clock(self.clock))?;
        put_last(rows, self.queue_row()?)?;
        self.add_accounts(&living, rows)?;
        self.add_cells(&living, rows)?;
        Ok(())
    }

    /// Open files, grafts and policies come behind other rows.
    pub(crate) fn add_places(&self, rows: &mut Vec<RawRow>) -> Result<(), NoMemory>
        requires kept { AreKept self.now }
        ensures { OnOk result ((others : List RawRow) → rows.new.items ++ others
            ≡ rows.old.items ++ place_rows (world_of self.now.setting.world)
            (in_place all_calls (kernel_of self.now)) others) }
    {
        self.add_files(&numbers(), rows)?;
        self.add_grafts(&numbers(), rows)?;
        self.add_policies(&[0, 1, 2], rows)?;
        Ok(())
    }

    /// Frames and user locks come behind other rows.
    pub(crate) fn add_frames_and_locks(&self, rows: &mut Vec<RawRow>) -> Result<(), NoMemory>
        requires kept { AreKept self.now }
        ensures { OnOk result ((others : List RawRow) → rows.new.items ++ others
            ≡ rows.old.items ++ frame_rows (in_place all_calls (kernel_of self.now)) others) }
    {
        put_last(rows, self.frames_row()?)?;
        self.add_locks(&numbers(), rows)?;
        Ok(())
    }
}
