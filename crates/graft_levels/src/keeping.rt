//! What is kept of a graft's segment from one completed call of it to the next.

ghost use Rattle.std.specs.Prelude.{◌≡◌, ℕ, ◌+◌, ◌%◌, ◌<◌, ◌≤◌, ◌≢◌, Some, length, slice_index};
ghost use Rattle.kernel_model.specs.declared.Kind.TheVariants.{Records};
ghost use Rattle.kernel_model.specs.Charges.{funds};
ghost use Rattle.kernel_model.specs.Levels as model;
ghost use Rattle.kernel_model.specs.Levels.{keeps_in, segment_with};
ghost use Rattle.kernel_state.specs.Table.{accounts_of};
ghost use Rattle.graft_loader.specs.Loading.{IsLoaded};
ghost use Rattle.graft_loader.specs.Slots.{table_of};
ghost use Rattle.kernel_state.specs.Stores.{world_of_store, objects_of, queue_of};
ghost use Rattle.kernel_state.specs.Tables.{by_place};
ghost use Rattle.undo_calls.specs.UndoLevels.{recorded, records_of, segment_logged};
ghost use Rattle.graft_levels.specs.Chains.{kept_bytes, kept_on};
ghost use Rattle.graft_levels.specs.Moments.{HasRoom};

use crate::GraftLevel;
use crate::charges::pay_record;
use crate::code::find_image;
use graft_loader::{Images, Loaded};
use kernel_state::{Accounts, GraftPoint, Policy, Segments, Store, segment_number};
use undo_calls::UndoStack;

/// Whether the image of the graft at a point keeps segments.
pub fn keeps(images: &Images, accounts: &Accounts, at: GraftPoint) -> bool
    ensures { result ≡ keeps_in
        (model.image_of (table_of images.now)
        ((accounts_of accounts.now).graft at.process at.point)) }
{
    match find_image(images, accounts, at) {
        Some(image) => image.keep(),
        None => false,
    }
}

/// What the segment of the graft at a point begins as, which has this image: the
/// bytes that are kept, where the image keeps segments and there are some, and else its data.
pub(crate) fn first_bytes<'a>(image: &'a Loaded, kept: &'a Segments, at: GraftPoint) -> &'a [u8]
    requires room { length kept.now ≡ 256 }
    ensures value { (i : ℕ) → slice_index result.now i ≡ segment_with
        (Some image.now) image.now.keep (by_place (kept_bytes kept.now at.process at.point)) i }
    ensures few { length result.now ≤ 4096 }
    ensures usable { IsLoaded image.now }
{
    let data = image.body();
    if !image.keep() {
        return data;
    }
    match kept.get(segment_number(at)) {
        Some(bytes) => bytes,
        None => data,
    }
}

/// A record of what is kept for the graft at a point comes to the innermost level of
/// a log that has fewer than 64.
fn record_kept(undo: &mut UndoStack, kept: &Segments, at: GraftPoint)
    requires segments { length kept.now ≡ 256 }
    requires room { HasRoom undo.old }
    ensures { undo.new ≡ recorded (segment_logged at.process at.point
        (kept_bytes kept.now at.process at.point)) undo.old }
{
    let _ = undo.push_segment(at.process, at.point, kept.get(segment_number(at)));
}

/// The segment of a level, at this base, is kept for its graft: one of records is charged, which
/// somebody pays for, and the innermost level of the log, which has fewer than 64 records, gets one
/// of what was kept before.
pub fn keep<B: Policy>(level: &GraftLevel, base: u32, undo: &mut UndoStack, store: &mut Store<B>)
    requires inside { base + 4096 ≤ 524288 }
    requires page { base % 4096 ≡ 0 }
    requires room { HasRoom undo.old }
    requires paid { funds
        (accounts_of store.old.accounts) level.now.owner level.now.point Records ≢ 0 }
    ensures log { undo.new ≡ recorded (segment_logged level.now.owner level.now.point
        (kept_bytes store.old.kept level.now.owner level.now.point)) undo.old }
    ensures objects { objects_of store.new ≡
        kept_on level.now.owner level.now.point base store.old.ram (objects_of store.old) }
    ensures queue { queue_of store.new ≡ queue_of store.old }
    ensures world { world_of_store store.new ≡ world_of_store store.old }
    ensures memory { store.new.ram ≡ store.old.ram }
{
    let at = GraftPoint {
        process: level.owner,
        point: level.point,
    };
    record_kept(undo, &store.kept, at);
    pay_record(&mut store.accounts, at);
    store.keep_segment(at, base);
}
