//! Runs over the stock policies and the disk that a lab file asks for.

ghost use Rattle.std.specs.Prelude.{IfOk, OnOk};
ghost use Rattle.lab_files.specs.Runs.{WasRun};

use crate::edge::tell_disk;
use graft_points::{
    Policy, RaNext, RaNone, RaSeq, SchedNice, SchedRound, VictimLru, VictimMark, is_stock, put_last,
};
use kernel_data::NoMemory;
use lab_lowering::{Lab, Lowered};
use lab_watch::{Ran, run_script, tell_watched};
use mem_disk::{Disk, MemDisk};
use real_edge::{FileDisk, open_disk};
use std::alloc::{AllocError, Global};

/// Runs the script of a lab file, over the file of this name as the disk where there is one, else
/// over the disk that the lab file asks for.
pub fn run_lab(rt: &HostRuntime, lowered: &Lowered, disk: Option<&str>) -> Result<Ran, NoMemory>
    ensures { IfOk result (λ ran.
        WasRun lowered.now.lab.settings.word lowered.now.script.items ran) }
{
    let named = match lowered.lab.settings().disk() {
        Some(path) => str::from_utf8(path.bytes()).ok(),
        None => None,
    };
    match disk.or(named) {
        Some(path) => {
            tell_disk(rt, path);
            let mut disk = open_disk(rt, path);
            run_over(rt.alloc(), lowered, &mut disk)
        }
        None => {
            let mut disk = memory_disk(rt.alloc(), &lowered.lab)?;
            run_over(rt.alloc(), lowered, &mut disk)
        }
    }
}

/// The sample disk, of which the calls fail that a lab file names.
fn memory_disk(alloc: Global, lab: &Lab) -> Result<MemDisk, NoMemory> {
    match Vec::from_slice(alloc, lab.settings().fails()) {
        Ok(fails) => MemDisk::sample(alloc, fails),
        Err(_) => Err(NoMemory),
    }
}

/// Runs the script of a lab file over a disk and the stock policies.
fn run_over<D: Disk>(alloc: Global, lowered: &Lowered, disk: &mut D) -> Result<Ran, NoMemory>
    ensures { IfOk result (λ ran.
        WasRun lowered.now.lab.settings.word lowered.now.script.items ran) }
{
    match run_stock(alloc, lowered, disk) {
        Ok(ran) => ran,
        Err(_) => Err(NoMemory),
    }
}

/// Runs the script over the stock policies, with their parameters at boot.
fn run_stock<D: Disk>(
    alloc: Global,
    lowered: &Lowered,
    disk: &mut D,
) -> Result<Result<Ran, NoMemory>, AllocError>
    ensures { IfOk result (λ made. IfOk made (λ ran.
        WasRun lowered.now.lab.settings.word lowered.now.script.items ran)) }
{
    let script = Vec::from_slice(alloc, lowered.script.as_slice())?;
    let mut shelf: Vec<Box<dyn Policy>> = Vec::new(alloc);
    put_last(&mut shelf, Box::new(alloc, RaNone::new())?, 0, None)?;
    put_last(&mut shelf, Box::new(alloc, RaSeq::new())?, 1, Some(2))?;
    put_last(&mut shelf, Box::new(alloc, RaNext::new())?, 2, Some(1))?;
    put_last(&mut shelf, Box::new(alloc, VictimLru::new())?, 3, None)?;
    put_last(&mut shelf, Box::new(alloc, VictimMark::new())?, 4, Some(0))?;
    put_last(&mut shelf, Box::new(alloc, SchedRound::new())?, 5, None)?;
    put_last(&mut shelf, Box::new(alloc, SchedNice::new())?, 6, Some(0))?;
    if !is_stock(&shelf) {
        unreachable!()
    }
    // A word of a lab file is UTF-8, so this is always one.
    let Ok(keys) = str::from_utf8(lowered.lab.settings().word()) else {
        return Ok(Err(NoMemory));
    };
    Ok(run_script(alloc, keys, script, disk, shelf))
}

/// A disk beside the one of a run.
#[derive(Drop)]
pub enum Spare {
    /// A disk in memory.
    Memory(MemDisk),
    /// A closed disk.
    Closed,
}

/// A disk with what the disk of a lab file's run holds before the run.
pub fn spare_disk(rt: &HostRuntime, lowered: &Lowered) -> Result<Spare, NoMemory> {
    match lowered.lab.settings().disk() {
        None => Ok(Spare::Memory(memory_disk(rt.alloc(), &lowered.lab)?)),
        Some(path) => {
            let path = str::from_utf8(path.bytes()).unwrap_or("");
            let bytes = bytes_of(rt.alloc(), &mut open_disk(rt, path))?;
            if bytes.is_empty() || bytes.len() % 512 != 0 || bytes.len() > 512 * 4096 {
                return Ok(Spare::Closed);
            }
            Ok(Spare::Memory(MemDisk::from_bytes(bytes, Vec::new(rt.alloc()))))
        }
    }
}

/// The blocks of a disk, one behind another; none where one can't be read.
fn bytes_of(alloc: Global, disk: &mut FileDisk) -> Result<Vec<u8>, NoMemory> {
    let mut bytes = Vec::new(alloc);
    for b in 0..disk.size() {
        if b >= disk.size() || disk.read_block(b).is_err() {
            return Ok(Vec::new(alloc));
        }
        if bytes.extend_from_slice(disk.block()).is_err() {
            return Err(NoMemory);
        }
    }
    Ok(bytes)
}

/// What a run wrote, and where its grafts stood, seen over a spare disk.
pub fn tell_lab(
    alloc: Global,
    lowered: &Lowered,
    ran: &Ran,
    spare: Spare,
) -> Result<Vec<u8>, NoMemory> {
    match spare {
        Spare::Memory(disk) => tell_over(alloc, lowered, ran, disk),
        Spare::Closed => tell_over(alloc, lowered, ran, FileDisk::closed()),
    }
}

fn tell_over<D: Disk + Drop>(
    alloc: Global,
    lowered: &Lowered,
    ran: &Ran,
    disk: D,
) -> Result<Vec<u8>, NoMemory> {
    match tell_stock(alloc, lowered, ran, disk) {
        Ok(told) => told,
        Err(_) => Err(NoMemory),
    }
}

/// Tells it over the stock policies, with their parameters at boot.
fn tell_stock<D: Disk + Drop>(
    alloc: Global,
    lowered: &Lowered,
    ran: &Ran,
    disk: D,
) -> Result<Result<Vec<u8>, NoMemory>, AllocError> {
    let mut shelf: Vec<Box<dyn Policy>> = Vec::new(alloc);
    put_last(&mut shelf, Box::new(alloc, RaNone::new())?, 0, None)?;
    put_last(&mut shelf, Box::new(alloc, RaSeq::new())?, 1, Some(2))?;
    put_last(&mut shelf, Box::new(alloc, RaNext::new())?, 2, Some(1))?;
    put_last(&mut shelf, Box::new(alloc, VictimLru::new())?, 3, None)?;
    put_last(&mut shelf, Box::new(alloc, VictimMark::new())?, 4, Some(0))?;
    put_last(&mut shelf, Box::new(alloc, SchedRound::new())?, 5, None)?;
    put_last(&mut shelf, Box::new(alloc, SchedNice::new())?, 6, Some(0))?;
    if !is_stock(&shelf) {
        unreachable!()
    }
    Ok(tell_watched(alloc, lowered, &ran.lines, disk, shelf))
}
