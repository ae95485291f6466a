//! How a level begins.

ghost use Rattle.std.specs.Prelude.{◌≡◌, ℕ, suc, ◌<◌, ◌≤◌, ◌∷◌, [], List, Some, true, false, length, is_some, All};
ghost use Rattle.kernel_model.specs.declared.Need.{Need as Needed};
ghost use Rattle.kernel_model.specs.History.{begin_at};
ghost use Rattle.kernel_model.specs.Laws.{IsInRange};
ghost use Rattle.kernel_model.specs.Levels.{new_level, image_of};
ghost use Rattle.kernel_model.specs.Locks.{LockTable as Table};
ghost use Rattle.kernel_model.specs.Policies.{lives};
ghost use Rattle.kernel_model.specs.Sound.{ImagesAreLoaded};
ghost use Rattle.kernel_model.specs.World.{ImageTable};
ghost use Rattle.kernel_state.specs.Stores.{world_of_store, objects_of, queue_of};
ghost use Rattle.lock_table.specs.Masks.{held};
ghost use Rattle.graft_loader.specs.Slots.{table_of};
ghost use Rattle.graft_levels.specs.Chains.{call_of, levels_in, is_running_in};
ghost use Rattle.graft_levels.specs.Calls.{AreSound, AreInside, IsPlaced, IsInPlace};
ghost use Rattle.graft_levels.specs.Calls.{IsElsewhereSame, HasWrittenBegun, needs_touched};

use crate::code::image_of as image_at;
use crate::filling::{base_of, fill};
use crate::keeping::first_bytes;
use crate::laws::stores_are_whole;
use crate::{Chain, GraftLevel};
use graft_loader::{Images, Loaded};
use graft_machine::Machine;
use kernel_model::{Need, Point};
use kernel_state::{GraftPoint, Policy, Store};
use lock_table::{Holder, LockTable};

/// A level holds objects, each in the mode in which it is needed.
pub fn touch_needs(needs: &[Need], by: Holder, locks: &mut LockTable)
    requires { All (λ (n : Needed). IsInRange n.object) needs.now }
    ensures { held locks.new ≡ needs_touched by.process by.level needs.now (held locks.old) }
{
    for need in needs {
        locks.touch(by, need.object, need.mode);
    }
}

/// A new innermost level begins on this image, which is that of the graft at the asked point, with
/// what is kept for that or else the image's data, and is fed these bytes.
pub fn begin_level<B: Policy>(
    chain: &mut Chain,
    p: u8,
    store: &mut Store<B>,
    image: &Loaded,
    at: &Point,
    feed: &[u8],
)
    requires process { p < 16 }
    requires few { length chain.old.levels < 4 }
    requires as_many { length chain.old.undo ≡ length chain.old.levels }
    requires owner { at.now.installer < 16 }
    requires point { at.now.point < 16 }
    requires short { length feed.now ≤ 512 }
    ensures levels { (images : ImageTable) (t : Table) → let s = objects_of store.old in
        image_of images (s.accounts.graft at.now.installer at.now.point) ≡ Some image.now →
        levels_in p store.new.ram t chain.new.levels chain.new.undo s.things
        ≡ new_level images s p (length chain.old.levels) at.now.installer at.now.point at.now.args
        feed.now (t p (length chain.old.levels)) ∷ levels_in p store.old.ram t chain.old.levels
        chain.old.undo s.things }
    ensures objects { objects_of store.new ≡ objects_of store.old }
    ensures log { chain.new.undo ≡ [] ∷ chain.old.undo }
    ensures count { length chain.new.levels ≡ suc (length chain.old.levels) }
    ensures levels_sound { AreSound (queue_of store.old) chain.old.levels →
        lives (queue_of store.old) at.now.installer ≡ true →
        is_running_in chain.old.levels at.now.installer at.now.point ≡ false →
        AreSound (queue_of store.new) chain.new.levels }
    ensures inside { (images : ImageTable) → let a = (objects_of store.old).accounts in
        image_of images (a.graft at.now.installer at.now.point) ≡ Some image.now →
        AreInside images a p chain.old.levels → AreInside images a p chain.new.levels }
    ensures elsewhere { (t : _) → IsElsewhereSame store.old store.new t t p }
    ensures memory { HasWrittenBegun p (length chain.old.levels)
        chain.new.levels store.old.ram store.new.ram }
{
    stores_are_whole(store);
    let base = base_of(Holder {
        process: p,
        level: chain.levels.count(),
    });
    let graft = GraftPoint {
        process: at.installer,
        point: at.point,
    };
    let bytes = first_bytes(image, &store.kept, graft);
    fill(&mut store.ram, base, bytes, feed);
    chain.undo.begin_level();
    chain.levels.push(GraftLevel {
        owner: at.installer,
        point: at.point,
        count: 0,
        args: at.args,
        machine: Machine::new(base, at.args),
    });
}

/// What a piece asks of a graft.
#[derive(Clone, Copy)]
pub struct PieceAsk<'a> {
    /// The point that it asks, at which a graft stands.
    pub at: &'a Point,
    /// The objects that it needs.
    pub needs: &'a [Need],
    /// The bytes that the graft is fed, at most 512.
    pub feed: &'a [u8],
}

impl Chain {
    /// The graft call of a process begins, where a piece asks a point at which a graft stands:
    /// level 0 holds what the piece needs, and is fed the piece's bytes. The process holds nothing
    /// before.
    pub fn begin_call<B: Policy>(
        &mut self,
        p: u8,
        store: &mut Store<B>,
        locks: &mut LockTable,
        images: &Images,
        ask: PieceAsk<'_>,
    )
        requires none { self.old.levels ≡ [] }
        requires placed { IsPlaced store.old locks.old p self.old.levels self.old.undo }
        requires owner { ask.at.now.installer < 16 }
        requires point { ask.at.now.point < 16 }
        requires lives { lives (queue_of store.old) ask.at.now.installer ≡ true }
        requires stands { is_some
            ((objects_of store.old).accounts.graft ask.at.now.installer ask.at.now.point) ≡ true }
        requires loaded { ImagesAreLoaded (table_of images.now) (objects_of store.old).accounts }
        requires range { All (λ (n : Needed). IsInRange n.object) ask.needs.now }
        requires short { length ask.feed.now ≤ 512 }
        ensures value { call_of store.new locks.new self.new p
            ≡ begin_at (table_of images.now) (objects_of store.old) p ask.entry.needs.now
            ask.entry.feed.now ask.entry.at.now }
        ensures in_place { IsInPlace store.new locks.new
            (table_of images.now) p self.new.levels self.new.undo }
        ensures elsewhere { IsElsewhereSame store.old store.new locks.old locks.new p }
    {
        let at = ask.at;
        let graft = GraftPoint {
            process: at.installer,
            point: at.point,
        };
        let image = image_at(images, &store.accounts, graft);
        touch_needs(
            ask.needs,
            Holder {
                process: p,
                level: 0,
            },
            locks,
        );
        begin_level(self, p, store, image, at, ask.feed);
    }
}
