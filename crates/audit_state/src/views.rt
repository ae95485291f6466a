//! What stands in the objects.

ghost use Rattle.std.specs.Prelude.{◌≡◌, ℕ, List, IfOk, OnOk, [], ◌∷◌, ◌++◌, cond, option_map, option_copied};
ghost use Rattle.kernel_model.specs.Policies as policies;
ghost use Rattle.audit_state.specs.Things.{things_of, frame_of, kept_of};

use crate::{Frame, Kept, Things};
use audit_table::{get, get_one, lend, put_last};
use kernel_model::{NoMemory, OpenRow};
use std::alloc::Global;

/// A frame behind the others, where it is to be there.
fn put_if(frames: &mut Vec<u32>, f: u32, there: bool) -> Result<(), NoMemory>
    ensures { OnOk result (frames.new.items ≡ frames.old.items ++ cond there (f ∷ []) []) }
{
    if there {
        put_last(frames, f)?;
        return Ok(());
    }
    Ok(())
}

impl Things {
    /// A cell of a process.
    pub fn cell(&self, q: u8, k: u32) -> u32
        ensures { (bytes : ℕ → List ℕ) → result ≡ (things_of bytes self.now).cell q k }
    {
        get(&self.cells, u32::from(q), k, 0)
    }

    /// An open file of a process, if its descriptor has one.
    pub fn file(&self, q: u8, fd: u32) -> Option<OpenRow>
        ensures { (bytes : ℕ → List ℕ) → result ≡ (things_of bytes self.now).file q fd }
    {
        get(&self.files, u32::from(q), fd, None)
    }

    /// A frame, if it is in use.
    pub fn frame(&self, f: u32) -> Option<Frame>
        ensures { (bytes : ℕ → List ℕ) →
            frame_of (bytes f) result ≡ (things_of bytes self.now).cache.frame f }
    {
        get_one(&self.frames, f, None)
    }

    /// Whether a frame is in use, and of this process.
    pub fn is_owned(&self, q: u8, f: u32) -> bool
        ensures { (bytes : ℕ → List ℕ) →
            result ≡ policies.is_owned (things_of bytes self.now).cache q f }
    {
        match self.frame(f) {
            None => false,
            Some(value) => value.owner == q,
        }
    }

    /// The frames of a process, oldest first.
    pub fn frames_of(&self, alloc: Global, q: u8) -> Result<Vec<u32>, NoMemory>
        ensures { IfOk result (λ frames. (bytes : ℕ → List ℕ) →
            frames.items ≡ policies.frames_of (things_of bytes self.now).cache q) }
    {
        let mut frames = Vec::new(alloc);
        for f in &self.lru {
            put_if(&mut frames, *f, self.is_owned(q, *f))?;
        }
        Ok(frames)
    }

    /// Whether a process lives.
    pub fn lives(&self, q: u8) -> bool
        ensures { result ≡ policies.lives self.now.queue.items q }
    {
        self.queue.iter().any(|r| r.process == q)
    }

    /// The nice of a process, 0 where it doesn't live.
    pub fn nice(&self, q: u8) -> u8
        ensures { result ≡ policies.nice_of self.now.queue.items q }
    {
        for r in &self.queue {
            if r.process == q {
                return r.nice;
            }
        }
        0
    }

    /// The process that holds a user lock, if one does.
    pub fn holder(&self, u: u32) -> Option<u8>
        ensures { (bytes : ℕ → List ℕ) → result ≡ (things_of bytes self.now).lock u }
    {
        get_one(&self.locks, u, None)
    }

    /// The chosen policy of a kind.
    pub fn chosen(&self, kind: u32) -> u8
        ensures { (bytes : ℕ → List ℕ) → result ≡ ((things_of bytes self.now).pol kind).chosen }
    {
        get_one(&self.chosen, kind, 0)
    }

    /// The parameter of a policy of a kind.
    pub fn param(&self, kind: u32, policy: u32) -> u32
        ensures { (bytes : ℕ → List ℕ) →
            result ≡ ((things_of bytes self.now).pol kind).param policy }
    {
        get(&self.params, kind, policy, 0)
    }

    /// What is kept for the graft at a point.
    pub fn kept(&self, q: u8, pt: u8) -> Option<&Kept>
        ensures { (bytes : ℕ → List ℕ) → option_map kept_of (option_copied result)
            ≡ (things_of bytes self.now).segment q pt }
    {
        match lend(&self.segments, u32::from(q), u32::from(pt)) {
            Some(Some(kept)) => Some(kept),
            _ => None,
        }
    }
}
