//! What calls hold and need, and what blocks them.

ghost use Rattle.std.specs.Prelude.{◌≡◌, ◌<◌, ◌==◌, ◌&&◌, ◌++◌, ◌∷◌, [], not, ℕ, List, cond, find};
ghost use Rattle.std.specs.Prelude.{None, Some, IfOk, OnOk, option_copied, option_map, slice_index_or};
ghost use Rattle.kernel_model.specs.AllCalls.{all_calls};
ghost use Rattle.kernel_model.specs.Blocking as blocking;
ghost use Rattle.kernel_model.specs.Levels as calls;
ghost use Rattle.kernel_model.specs.GraftStep as steps;
ghost use Rattle.kernel_model.specs.Locks as locks;
ghost use Rattle.audit_levels.specs.Levels.{levels_of, config_of};
ghost use Rattle.audit_pieces.specs.Stores.{objects_of, page_of};
ghost use Rattle.audit_replay.specs.Traces.{trace_of};
ghost use Rattle.audit_kernel.specs.Holders.{AreHolders};
ghost use Rattle.audit_kernel.specs.Runs.{kernel_of, kept_trace, blocker_of, hindrance_of, AreKept};

use crate::flights::{no_needs, put_base};
use crate::{Blocker, Flight, Hindrance, Run};
use arrayvec::ArrayVec;
use audit_levels::{Level, Place, hold_of, lock_user, next_needs};
use audit_replay::Trace;
use kernel_model::{Held, Mode, Need, NoMemory, Object};

/// The processes whose call has a level: at most all 16.
pub(crate) type Holders = ArrayVec<u8, 16>;

/// The trace that is kept with a call.
fn kept(flight: Option<&Flight>) -> Option<&Trace>
    ensures { (bytes : ℕ → List ℕ) → option_map (trace_of bytes) (option_copied result)
        ≡ kept_trace bytes (option_copied flight.entry) }
{
    match flight {
        None => None,
        Some(flight) => match &flight.graft {
            None => None,
            Some(history) => history.trace.as_ref(),
        },
    }
}

/// The levels of a trace, innermost first; none where there is no trace.
fn levels_in(trace: Option<&Trace>) -> &[Level]
    ensures { (bytes : ℕ → List ℕ) → levels_of bytes result.now
        ≡ blocking.levels_in (blocking.config_in
        (option_map (trace_of bytes) (option_copied trace.entry))) }
{
    match trace {
        None => &[],
        Some(trace) => trace.config.levels.as_slice(),
    }
}

/// How level d, counted from the outermost, holds an object.
pub(crate) fn hold_at(levels: &[Level], d: u8, object: Object) -> Held
    ensures { (bytes : ℕ → List ℕ) →
        result ≡ calls.touched_at (levels_of bytes levels.now) d object }
{
    match levels {
        [] => Held::Free,
        [l, rest @ ..] => {
            if rest.len() == usize::from(d) {
                hold_of(&l.touched, object)
            } else {
                hold_at(rest, d, object)
            }
        }
    }
}

/// Whether a hold conflicts with a mode.
fn conflicts(held: Held, mode: Mode) -> bool
    ensures { result ≡ locks.conflicts held mode }
{
    match (held, mode) {
        (Held::Free, _) | (Held::Shared, Mode::Shared) => false,
        (Held::Shared, Mode::Exclusive) | (Held::Exclusive, _) => true,
    }
}

/// Whether the hold of level d on an object conflicts with a mode.
fn conflicts_at(levels: &[Level], d: u8, object: Object, mode: Mode) -> bool
    ensures { (bytes : ℕ → List ℕ) → result
        ≡ locks.conflicts (calls.touched_at (levels_of bytes levels.now) d object) mode }
{
    conflicts(hold_at(levels, d, object), mode)
}

/// The outermost level whose hold on an object conflicts with a mode.
pub(crate) fn outermost_holding(levels: &[Level], object: Object, mode: Mode) -> Option<u8>
    ensures { (bytes : ℕ → List ℕ) → result ≡ locks.outermost_holding object mode
        (calls.touched_at (levels_of bytes levels.now)) }
{
    match levels {
        [] => None,
        [_, ..] => outermost_of(levels, object, mode),
    }
}

/// The same where it looks at each level.
fn outermost_of(levels: &[Level], object: Object, mode: Mode) -> Option<u8>
    ensures { (bytes : ℕ → List ℕ) → result ≡ locks.outermost_holding object mode
        (calls.touched_at (levels_of bytes levels.now)) }
{
    if conflicts_at(levels, 0, object, mode) {
        Some(0)
    } else if conflicts_at(levels, 1, object, mode) {
        Some(1)
    } else if conflicts_at(levels, 2, object, mode) {
        Some(2)
    } else if conflicts_at(levels, 3, object, mode) {
        Some(3)
    } else {
        None
    }
}

/// Whether a call's hold on an object conflicts with a mode.
fn hinders(levels: &[Level], object: Object, mode: Mode) -> bool
    ensures { (bytes : ℕ → List ℕ) → result ≡ locks.hinders object mode
        (calls.touched_at (levels_of bytes levels.now)) }
{
    outermost_holding(levels, object, mode).is_some()
}

/// A user lock that hinders, unless it is that of process q.
fn user_hindrance(q: u8, object: Object, holder: Option<u8>) -> Option<Hindrance>
    ensures { option_map hindrance_of result ≡ locks.user_hindrance q object holder }
{
    match holder {
        None => None,
        Some(h) => {
            if h == q {
                None
            } else {
                Some(Hindrance {
                    object,
                    holder: h,
                    by_user: true,
                })
            }
        }
    }
}

/// A process behind the others, where it is to be there.
fn add_if(holders: &mut Holders, q: u8, there: bool) -> Result<(), NoMemory>
    ensures { OnOk result (holders.new.items ≡ holders.old.items ++ cond there (q ∷ []) []) }
{
    if there {
        match holders.try_push(q) {
            Ok(()) => Ok(()),
            Err(_) => Err(NoMemory),
        }
    } else {
        Ok(())
    }
}

impl Run {
    /// The call of a process, if one is in flight.
    pub(crate) fn flight(&self, p: u8) -> Option<&Flight>
        ensures { option_copied result ≡ slice_index_or self.now.flights.items p None }
    {
        match self.flights.get(usize::from(p)) {
            Some(Some(flight)) => Some(flight),
            _ => None,
        }
    }

    /// Where the history of the call of a process leads.
    pub(crate) fn trace(&self, p: u8) -> Option<&Trace>
        requires kept { AreKept self.now }
        ensures { option_map (trace_of (page_of self.now.store)) (option_copied result)
            ≡ blocking.trace_of all_calls (kernel_of self.now) p ((kernel_of self.now).call p) }
    {
        kept(self.flight(p))
    }

    /// The levels of the call of a process, innermost first.
    pub(crate) fn levels(&self, p: u8) -> &[Level]
        requires kept { AreKept self.now }
        ensures { levels_of (page_of self.now.store) result.now
            ≡ blocking.levels_of all_calls (kernel_of self.now) p }
    {
        levels_in(self.trace(p))
    }

    /// The processes whose call has a level, in order.
    pub(crate) fn holders(&self) -> Result<Holders, NoMemory>
        ensures { IfOk result (λ hs. AreHolders (kernel_of self.now) hs.items) }
    {
        let mut holders = Holders::new();
        for q in 0..16u8 {
            add_if(&mut holders, q, self.has_level(q))?;
        }
        Ok(holders)
    }

    /// Whether the call of a process holds an object in conflict with a mode.
    fn is_placed_holder(&self, q: u8, object: Object, mode: Mode) -> bool
        requires kept { AreKept self.now }
        requires place { q < 16 }
        ensures { result ≡ locks.hinders object mode
            (blocking.holds all_calls (kernel_of self.now) q) }
    {
        hinders(self.levels(q), object, mode)
    }

    /// The same of any process: none above 15 has a call.
    fn is_in_conflict(&self, q: u8, object: Object, mode: Mode) -> bool
        requires kept { AreKept self.now }
        ensures { result ≡ locks.hinders object mode
            (blocking.holds all_calls (kernel_of self.now) q) }
    {
        if q < 16 {
            self.is_placed_holder(q, object, mode)
        } else {
            false
        }
    }

    /// Whether a process is another than p, and its call holds an object in conflict with a mode.
    fn is_holder(&self, p: u8, q: u8, object: Object, mode: Mode) -> bool
        requires kept { AreKept self.now }
        ensures { result ≡ (not (q == p) && locks.hinders object mode
            (blocking.holds all_calls (kernel_of self.now) q)) }
    {
        if q == p {
            false
        } else {
            self.is_in_conflict(q, object, mode)
        }
    }

    /// The first of these processes other than p one of whose levels holds an object in conflict
    /// with a mode.
    fn first_holder(&self, holders: &[u8], p: u8, object: Object, mode: Mode) -> Option<u8>
        requires kept { AreKept self.now }
        ensures { result ≡ find (λ q. not (q == p) && locks.hinders object mode
            (blocking.holds all_calls (kernel_of self.now) q)) holders.now }
    {
        match holders {
            [] => None,
            [q, rest @ ..] => {
                if self.is_holder(p, *q, object, mode) {
                    Some(*q)
                } else {
                    self.first_holder(rest, p, object, mode)
                }
            }
        }
    }

    /// The lowest process other than p one of whose levels holds an object in conflict with a mode.
    fn lowest_holder(&self, holders: &[u8], p: u8, object: Object, mode: Mode) -> Option<u8>
        requires kept { AreKept self.now }
        requires all { AreHolders (kernel_of self.now) holders.now }
        ensures { result ≡ locks.lowest_holder (blocking.holds all_calls (kernel_of self.now)) p
            object mode }
    {
        self.first_holder(holders, p, object, mode)
    }

    /// The process whose user lock an object is.
    #[tactic(auto, unfolding(audit_pieces::specs::Stores::objects_of))]
    fn user_of(&self, object: Object) -> Option<u8>
        ensures { result ≡ locks.user_of (objects_of self.now.store).things.lock object }
    {
        match object {
            Object::Lock(u) => self.store.things.holder(u32::from(u)),
            _ => None,
        }
    }

    /// What hinders one need of a step of p; the user locks of q don't.
    fn hindrance(&self, holders: &[u8], p: u8, q: u8, need: Need) -> Option<Hindrance>
        requires kept { AreKept self.now }
        requires all { AreHolders (kernel_of self.now) holders.now }
        ensures { option_map hindrance_of result ≡ locks.hindrance_by
            (objects_of self.now.store).things.lock q need
            (locks.lowest_holder (blocking.holds all_calls (kernel_of self.now)) p need.object
            need.mode) }
    {
        match self.lowest_holder(holders, p, need.object, need.mode) {
            Some(holder) => Some(Hindrance {
                object: need.object,
                holder,
                by_user: false,
            }),
            None => {
                if need.by_user {
                    user_hindrance(q, need.object, self.user_of(need.object))
                } else {
                    None
                }
            }
        }
    }

    /// The first of these needs of a step of p that is hindered; the user locks of q don't.
    fn first_hindrance(&self, holders: &[u8], p: u8, q: u8, needs: &[Need]) -> Option<Hindrance>
        requires kept { AreKept self.now }
        requires all { AreHolders (kernel_of self.now) holders.now }
        ensures { option_map hindrance_of result ≡ locks.first_hindrance
            (blocking.holds all_calls (kernel_of self.now))
            (objects_of self.now.store).things.lock p q needs.now }
    {
        match needs {
            [] => None,
            [need, rest @ ..] => match self.hindrance(holders, p, q, *need) {
                Some(hindrance) => Some(hindrance),
                None => self.first_hindrance(holders, p, q, rest),
            },
        }
    }

    /// What the next instruction of a call of a process needs at this trace.
    fn needs_at(&self, p: u8, trace: Option<&Trace>) -> Result<Vec<Need>, NoMemory>
        ensures { IfOk result (λ ns. ns.items ≡ blocking.needs_at all_calls (kernel_of self.now)
            (blocking.config_in
            (option_map (trace_of (page_of self.now.store)) (option_copied trace.entry)))) }
    {
        match trace {
            None => Ok(Vec::new(self.setting.alloc)),
            Some(trace) => {
                let place = Place {
                    alloc: self.setting.alloc,
                    world: &self.setting.world,
                    images: &self.setting.images,
                    process: p,
                };
                next_needs(&place, &trace.config)
            }
        }
    }

    /// What the next step of the call of a process needs, in place of what stands in `needs`.
    fn put_needs(&self, p: u8, needs: &mut Vec<Need>) -> Result<(), NoMemory>
        requires kept { AreKept self.now }
        ensures { OnOk result (needs.new.items ≡ blocking.needs all_calls (kernel_of self.now) p) }
    {
        needs.clear();
        match self.flight(p) {
            None => Ok(()),
            Some(flight) => match &flight.graft {
                None => {
                    put_base(needs, &self.setting, &self.store, p, &flight.stage)?;
                    Ok(())
                }
                Some(_) => {
                    *needs = self.needs_at(p, self.trace(p))?;
                    Ok(())
                }
            },
        }
    }

    /// What the next step of the call of a process needs.
    pub(crate) fn needs(&self, p: u8) -> Result<Vec<Need>, NoMemory>
        requires kept { AreKept self.now }
        ensures { IfOk result (λ ns. ns.items ≡ blocking.needs all_calls (kernel_of self.now) p) }
    {
        let mut needs = no_needs(self.setting.alloc)?;
        self.put_needs(p, &mut needs)?;
        Ok(needs)
    }

    /// The number of the holder's call, or none for a user lock.
    fn blocking_call(&self, hindrance: Hindrance) -> Option<u32>
        ensures { result
            ≡ (blocking.blocker_from (kernel_of self.now) (hindrance_of hindrance)).call }
    {
        if hindrance.by_user {
            None
        } else {
            self.call_number(hindrance.holder)
        }
    }

    /// The blocker that a hindrance makes, if there is one.
    fn blocker_by(&self, hindrance: Option<Hindrance>) -> Option<Blocker>
        ensures { option_map blocker_of result ≡ option_map
            (blocking.blocker_from (kernel_of self.now)) (option_map hindrance_of hindrance) }
    {
        match hindrance {
            None => None,
            Some(hindrance) => Some(Blocker {
                object: hindrance.object,
                holder: hindrance.holder,
                call: self.blocking_call(hindrance),
            }),
        }
    }

    /// What hinders the next step of the call of a process. Its needs are put into `needs`.
    fn hindered(
        &self,
        holders: &[u8],
        p: u8,
        needs: &mut Vec<Need>,
    ) -> Result<Option<Hindrance>, NoMemory>
        requires kept { AreKept self.now }
        requires all { AreHolders (kernel_of self.now) holders.now }
        ensures { IfOk result (λ h. option_map hindrance_of h ≡ locks.first_hindrance
            (blocking.holds all_calls (kernel_of self.now))
            (objects_of self.now.store).things.lock p
            (steps.lock_user p (blocking.levels_of all_calls (kernel_of self.now) p))
            (blocking.needs all_calls (kernel_of self.now) p)) }
    {
        self.put_needs(p, needs)?;
        let q = lock_user(p, self.levels(p));
        Ok(self.first_hindrance(holders, p, q, needs.as_slice()))
    }

    /// What blocks the next step of the call of a process, where these are the processes whose call
    /// has a level. Its needs are put into `needs`.
    pub(crate) fn blocker_among(
        &self,
        holders: &[u8],
        p: u8,
        needs: &mut Vec<Need>,
    ) -> Result<Option<Blocker>, NoMemory>
        requires kept { AreKept self.now }
        requires all { AreHolders (kernel_of self.now) holders.now }
        ensures { IfOk result (λ b. option_map blocker_of b
            ≡ blocking.blocker all_calls (kernel_of self.now) p) }
    {
        let hindrance = self.hindered(holders, p, needs)?;
        Ok(self.blocker_by(hindrance))
    }

    /// What blocks the next step of the call of a process.
    pub(crate) fn blocker(&self, p: u8) -> Result<Option<Blocker>, NoMemory>
        requires kept { AreKept self.now }
        ensures { IfOk result (λ b. option_map blocker_of b
            ≡ blocking.blocker all_calls (kernel_of self.now) p) }
    {
        let mut needs = no_needs(self.setting.alloc)?;
        let holders = self.holders()?;
        let blocker = self.blocker_among(holders.as_slice(), p, &mut needs)?;
        Ok(blocker)
    }
}
