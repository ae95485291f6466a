//! What a run begins with.

ghost use Rattle.std.specs.Prelude.{◌≡◌, ℕ, List, None, IfOk, slice_index_or};
ghost use Rattle.kernel_model.specs.Directory.{sample_block};
ghost use Rattle.kernel_model.specs.Opening as opening;
ghost use Rattle.audit_pieces.specs.Stores.{objects_of, blocks_of};
ghost use Rattle.audit_state.specs.Accounts.{accounts_of};
ghost use Rattle.audit_state.specs.Things.{things_of};

use crate::Flight;
use audit_pieces::Store;
use audit_state::{Account, Accounts, Amounts, Things};
use audit_table::{put, put_last, put_one};
use kernel_model::{NoMemory, QueueRow};
use std::alloc::Global;

/// How many calls can be in flight: one of each process.
const PLACES: u32 = 16;

/// The nice value of the first process.
const FIRST_NICE: u8 = 20;

/// The account of root: this much of each kind of amount, of which nothing is spent.
fn root_account(grant: u64) -> Account
    ensures { result ≡ record {
      balance = record { steps = grant; records = grant; locks = grant };
      spent = record { steps = 0; records = 0; locks = 0 };
    } }
{
    Account {
        balance: Amounts {
            steps: grant,
            records: grant,
            locks: grant,
        },
        spent: Amounts {
            steps: 0,
            records: 0,
            locks: 0,
        },
    }
}

/// The accounts after boot: root has the whole grant, and no graft is installed.
fn first_accounts(alloc: Global, grant: u64) -> Result<Accounts, NoMemory>
    ensures { IfOk result (λ a. accounts_of a ≡ opening.opening_accounts grant) }
{
    let mut accounts = Vec::new(alloc);
    put_one(&mut accounts, 0, root_account(grant))?;
    Ok(Accounts {
        grafts: Vec::new(alloc),
        accounts,
    })
}

/// The other objects after boot: process 0 lives alone; nothing is open, held or in a frame.
fn first_things(alloc: Global) -> Result<Things, NoMemory>
    ensures { IfOk result (λ w. (bytes : ℕ → List ℕ) →
        things_of bytes w ≡ opening.opening_things) }
{
    let mut queue = Vec::new(alloc);
    put_last(
        &mut queue,
        QueueRow {
            process: 0,
            nice: FIRST_NICE,
            slices: 0,
        },
    )?;
    let mut chosen = Vec::new(alloc);
    put_one(&mut chosen, 0, 1)?;
    let mut params = Vec::new(alloc);
    put(&mut params, 0, 2, 1)?;
    put(&mut params, 0, 1, 2)?;
    Ok(Things {
        cells: Vec::new(alloc),
        files: Vec::new(alloc),
        queue,
        frames: Vec::new(alloc),
        lru: Vec::new(alloc),
        locks: Vec::new(alloc),
        chosen,
        params,
        segments: Vec::new(alloc),
        handlers: Vec::new(alloc),
    })
}

/// What is committed after boot, over the sample disk.
#[tactic(auto, unfolding(audit_pieces::specs::Stores::objects_of, audit_pieces::specs::Stores::blocks_of))]
pub(crate) fn first_store(alloc: Global, grant: u64) -> Result<Store, NoMemory>
    ensures objects { IfOk result (λ s. objects_of s ≡ opening.opening_objects grant) }
    ensures blocks { IfOk result (λ s. blocks_of s ≡ sample_block) }
{
    let accounts = first_accounts(alloc, grant)?;
    let things = first_things(alloc)?;
    Ok(Store {
        accounts,
        things,
        pages: Vec::new(alloc),
        disk: Vec::new(alloc),
    })
}

/// A place for the call of each process, and no call.
pub(crate) fn free_places(alloc: Global) -> Result<Vec<Option<Flight>>, NoMemory>
    ensures { IfOk result (λ v. (q : ℕ) → slice_index_or v.items q None ≡ None) }
{
    let mut places = Vec::new(alloc);
    for _ in 0..PLACES {
        put_last(&mut places, None)?;
    }
    Ok(places)
}
