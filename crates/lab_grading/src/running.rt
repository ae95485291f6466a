//! Runs over the stock policies and a sample disk.

ghost use Rattle.std.specs.Prelude.{IfOk};
ghost use Rattle.lab_grading.specs.Graded.{WasRun};

use graft_points::{
    Policy, RaNext, RaNone, RaSeq, SchedNice, SchedRound, VictimLru, VictimMark, is_stock, put_last,
};
use kernel_data::NoMemory;
use lab_lowering::Lowered;
use lab_watch::{Ran, run_script};
use mem_disk::MemDisk;
use std::alloc::{AllocError, Global};

/// Runs the script of a lab file over the sample disk, of which the calls fail that it names, and the
/// stock policies.
pub fn run_test(alloc: Global, lowered: &Lowered) -> Result<Ran, NoMemory>
    ensures { IfOk result (λ ran.
        WasRun lowered.now.lab.settings.word lowered.now.script.items ran) }
{
    let Ok(fails) = Vec::from_slice(alloc, lowered.lab.settings().fails()) else {
        return Err(NoMemory);
    };
    let mut disk = MemDisk::sample(alloc, fails)?;
    match run_stock(alloc, lowered, &mut disk) {
        Ok(ran) => ran,
        Err(_) => Err(NoMemory),
    }
}

/// Runs it over the stock policies, with their parameters at boot.
fn run_stock(
    alloc: Global,
    lowered: &Lowered,
    disk: &mut MemDisk,
) -> Result<Result<Ran, NoMemory>, AllocError>
    ensures { IfOk result (λ made. IfOk made (λ ran.
        WasRun lowered.now.lab.settings.word lowered.now.script.items ran)) }
{
    let script = Vec::from_slice(alloc, lowered.script.as_slice())?;
    let mut shelf: Vec<Box<dyn Policy>> = Vec::new(alloc);
    put_last(&mut shelf, Box::new(alloc, RaNone::new())?, 0, None)?;
    put_last(&mut shelf, Box::new(alloc, RaSeq::new())?, 1, Some(2))?;
    put_last(&mut shelf, Box::new(alloc, RaNext::new())?, 2, Some(1))?;
    put_last(&mut shelf, Box::new(alloc, VictimLru::new())?, 3, None)?;
    put_last(&mut shelf, Box::new(alloc, VictimMark::new())?, 4, Some(0))?;
    put_last(&mut shelf, Box::new(alloc, SchedRound::new())?, 5, None)?;
    put_last(&mut shelf, Box::new(alloc, SchedNice::new())?, 6, Some(0))?;
    if !is_stock(&shelf) {
        unreachable!()
    }
    // A word of a lab file is UTF-8, so this is always one.
    let Ok(keys) = str::from_utf8(lowered.lab.settings().word()) else {
        return Ok(Err(NoMemory));
    };
    Ok(run_script(alloc, keys, script, disk, shelf))
}
