//! What always holds of a store, for proofs: a function that leans on it calls it as a statement. It
//! does nothing.

ghost use Rattle.std.specs.Prelude.{◌≡◌, ℕ, ◌<◌, true};
ghost use Rattle.kernel_model.specs.Policies.{lives};
ghost use Rattle.kernel_state.specs.Stores.{queue_of};

use kernel_state::{Policy, Store};

/// Each process that lives has a number below 16.
pub fn living_are_numbered<B: Policy>(store: &Store<B>)
    ensures { (p : ℕ) → lives (queue_of store.now) p ≡ true → p < 16 }
{
    store.procs.rows();
}
