//! What holds of every store. A call brings its statement into a proof.

ghost use Rattle.std.specs.Prelude.{◌≡◌, length};
ghost use Rattle.kernel_state.specs.Frames.{IsFrames};
ghost use Rattle.kernel_state.specs.Processes.{IsSound, processes_of};

use kernel_state::{Policy, Store};

/// The rows of a store's frames are sound, its memory has all its bytes, and its processes are
/// sound.
pub fn stores_are_whole<B: Policy>(store: &Store<B>)
    ensures frames { IsFrames store.now.cache }
    ensures memory { length store.now.ram ≡ 524288 }
    ensures processes { IsSound (processes_of store.now.procs) }
{
    store.cache.lru();
    store.ram.byte(0);
    store.procs.rows();
}
