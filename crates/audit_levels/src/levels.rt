//! A level that begins.

ghost use Rattle.std.specs.Prelude.{◌≡◌, ℕ, List, IfOk, length, option_copied, option_map};
ghost use Rattle.kernel_model.specs.Levels as model;
ghost use Rattle.graft_loader.specs.Slots.{table_of};
ghost use Rattle.audit_table.specs.Tables.{by_place};
ghost use Rattle.audit_state.specs.Accounts.{accounts_of};
ghost use Rattle.audit_state.specs.Things.{things_of, kept_of};
ghost use Rattle.audit_levels.specs.Levels.{level_of, touched_of};

use crate::images::{body_in, image_of, keeps_in};
use crate::machines::first_machine;
use crate::{Level, Place, Touch};
use audit_state::policies::{byte_of, word_of};
use audit_state::{Accounts, Kept, Things};
use graft_loader::Loaded;
use kernel_model::NoMemory;

/// The base of the segment of level d of a call of a process.
fn base_of(p: u8, d: u8) -> u32
    ensures { result ≡ model.base_of p d }
{
    262_144 + 4096 * (4 * u32::from(p) + u32::from(d))
}

/// What a segment begins as: the bytes that were kept, where the image keeps segments and there are
/// some, and else the image's data.
fn segment_of<'a>(image: Option<&'a Loaded>, kept: Option<&'a Kept>) -> &'a [u8]
    ensures { by_place result.now ≡ model.segment_with (option_copied image.entry)
        (model.keeps_in (option_copied image.entry)) (option_map kept_of (option_copied kept.entry)) }
{
    if !keeps_in(image) {
        return body_in(image);
    }
    match kept {
        None => body_in(image),
        Some(kept) => kept.bytes.as_slice(),
    }
}

/// What a level begins with, beside what it works on: its place among the levels of its call, its
/// graft, its arguments, what it is fed, and what it holds.
#[derive(Drop)]
pub struct Begins<'a> {
    pub depth: u8,
    pub owner: u8,
    pub point: u8,
    pub args: [u32; 4],
    pub fed: &'a [u8],
    pub touched: Vec<Touch>,
}

/// A level that begins.
pub fn new_level(
    place: &Place<'_>,
    accounts: &Accounts,
    things: &Things,
    begins: Begins<'_>,
) -> Result<Level, NoMemory>
    ensures { IfOk result (λ l. (bytes : ℕ → List ℕ) → level_of bytes l
        ≡ model.new_level (table_of place.now.images.now)
        (record { accounts = accounts_of accounts.now; things = things_of bytes things.now })
        place.now.process begins.entry.depth begins.entry.owner begins.entry.point
        begins.entry.args begins.entry.fed.now (touched_of begins.entry.touched.items)) }
{
    let image = image_of(place, accounts, begins.owner, begins.point);
    let kept = things.kept(begins.owner, begins.point);
    let segment = segment_of(image, kept);
    let base = base_of(place.process, begins.depth);
    let machine = first_machine(place.alloc, base, begins.args, segment, begins.fed)?;
    Ok(Level {
        owner: begins.owner,
        point: begins.point,
        machine,
        count: 0,
        touched: begins.touched,
        args: begins.args,
        records: Vec::new(place.alloc),
        kept: things.copy(place.alloc)?,
    })
}

/// How many levels there are.
pub(crate) fn depth_of(levels: &[Level]) -> Result<u8, NoMemory>
    ensures { IfOk result (λ d. d ≡ length levels.now) }
{
    byte_of(word_of(levels.len())?)
}
