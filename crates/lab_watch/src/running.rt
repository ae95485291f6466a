//! The run of a script by the call `vino`, over streams in memory.

ghost use Rattle.std.specs.Prelude.{◌≡◌, [], ◌∷◌, map, codes, string_bytes, IfOk, OnErr};
ghost use Rattle.kernel_model.specs.Opening.{opening_policy};
ghost use Rattle.graft_points.specs.Shelf.{IsShelf, pol_of, first_choice};
ghost use Rattle.lab_watch.specs.Running.{RunsScript};

use graft_points::Policy;
use kernel_model::NoMemory;
use lab_lines::LineSink;
use std::alloc::Global;
use vino_base::{Disk, MemSource};
use vino_top::vino;

/// What came of a run: its status, what is left of its source, and what it wrote.
#[derive(Drop)]
pub struct Ran {
    /// The status of the call; 4 is want of memory for what it writes, 5 any other want of memory.
    pub status: u8,
    /// The source of the script.
    pub source: MemSource,
    /// The lines that were written.
    pub lines: LineSink,
}

/// The words `run KEYS`.
fn words_of(alloc: Global, keys: &str) -> Result<Vec<String>, NoMemory>
    ensures { IfOk result (λ words. map (λ (w : _). string_bytes w) words.items
        ≡ codes "run" ∷ keys.now ∷ []) }
{
    let mut words = Vec::new(alloc);
    let Ok(run) = String::from_str(alloc, "run") else {
        return Err(NoMemory);
    };
    let Ok(keys) = String::from_str(alloc, keys) else {
        return Err(NoMemory);
    };
    if words.push(run).is_err() || words.push(keys).is_err() {
        return Err(NoMemory);
    }
    Ok(words)
}

/// Runs a script by the call `vino` with the words `run KEYS`, over a source that holds exactly the
/// script.
pub fn run_script<D: Disk>(
    alloc: Global,
    keys: &str,
    script: Vec<u8>,
    disk: &mut D,
    shelf: Vec<Box<dyn Policy>>,
) -> Result<Ran, NoMemory>
    // The shelf has the seven stock policies, with their parameters at boot.
    requires shelf { IsShelf (map ⟦<Box<dyn Policy> as Policy>⟧.seen shelf.items) }
    requires stock { pol_of (map ⟦<Box<dyn Policy> as Policy>⟧.seen shelf.items) first_choice
        ≡ opening_policy }
    // The status, the lines and the disk are those of the call.
    ensures runs { IfOk result (λ ran. RunsScript keys.now script.items ran.source ran.lines
        (D.seen disk.old) (D.seen disk.new) ran.status) }
    // Where there is no memory for the words of the call, it isn't made.
    ensures unmade { OnErr result (D.seen disk.new ≡ D.seen disk.old) }
{
    let words = words_of(alloc, keys)?;
    let mut source = MemSource::new(script, Vec::new(alloc));
    let mut lines = LineSink::new(alloc);
    let status = vino(
        alloc,
        words.as_slice(),
        &mut source,
        &mut lines,
        disk,
        shelf,
    );
    Ok(Ran {
        status,
        source,
        lines,
    })
}
