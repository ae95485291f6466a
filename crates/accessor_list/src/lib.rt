//! The callable list: the names by which graft code calls the kernel, their ids, and the objects
//! that they need (docs/FORMATS.md).
#![tactic(auto)]

ghost use Rattle.std.specs.Prelude.{◌≡◌, ◌<◌, IfSome, length, position};
ghost use Rattle.std.specs.Option.{option_copied};
ghost use Rattle.kernel_model.specs.World.{same_bytes};
ghost use Rattle.kernel_model.specs.Callables.{callable_name, callable_id};

pub mod ids;
pub mod laws;
mod objects;

pub use kernel_model::{Cause, Mode, Object};
pub use objects::early;

/// The names of the callable list, in the order of the ids.
const NAMES: [&str; 16] = [
    "cell_get",
    "cell_set",
    "nice_get",
    "nice_set",
    "window_get",
    "window_set",
    "frames_mine",
    "frame_at",
    "frame_block",
    "frame_mark",
    "tune_get",
    "tune_set",
    "take_lock",
    "ask_ra",
    "ask_victim",
    "ask_sched",
];

/// The place of a name in a list of names.
fn place_of(name: &[u8], names: &[&str]) -> Option<usize>
    ensures place { result ≡ position (λ listed. same_bytes name.now listed.now) names.now }
    ensures within { IfSome result (λ i. i < length names.now) }
{
    names.iter().position(|listed| name == listed.as_bytes())
}

/// The name of a callable. There is none for an id above 15.
pub fn name_of(id: u32) -> Option<&'static str>
    ensures { option_copied result ≡ callable_name id }
{
    NAMES.get(id as usize).copied()
}

/// The id of a name, if it is one of the callable list.
pub fn id_of(name: &[u8]) -> Option<u32>
    ensures { result ≡ callable_id name.now }
{
    match place_of(name, &NAMES) {
        Some(id) => Some(id as u32),
        None => None,
    }
}
