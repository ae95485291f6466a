//! The program: it makes the real source and sink, the disk and the policies, and calls `vino`.
#![tactic(auto)]

use graft_points::{
    Policy, RaNext, RaNone, RaSeq, SchedNice, SchedRound, VictimLru, VictimMark, is_stock, put_last,
};
use mem_disk::{Disk, MemDisk};
use real_edge::{GatheringSink, OrderedDisk, Output, PromptSource, open_disk};
use std::alloc::AllocError;
use std::fs::OpenOptions;
use std::process::ExitCode;
use std::rt::Stdout;
use std::{env, io};

/// The status where a write of what was gathered failed.
const OUTPUT_FAILED: u8 = 4;

/// The status where main itself found no memory.
const NO_MEMORY: u8 = 5;

fn main(rt: HostRuntime) -> ExitCode {
    let status = match words(&rt) {
        Ok(words) => run_words(&rt, &words),
        // A word that isn't UTF-8 is in no grammar.
        Err(fault) if fault.kind() == io::ErrorKind::InvalidData => run_words(&rt, &[]),
        Err(_) => NO_MEMORY,
    };
    tell_status(&rt, status);
    ExitCode::from(status)
}

/// Tells on the standard error why a run ended early, where no line says it.
fn tell_status(rt: &HostRuntime, status: u8) {
    let said = match status {
        3 => "standard input can't be read",
        4 => "standard output can't be written",
        5 => "there was no memory",
        7 => "standard input has more than 16777216 bytes",
        _ => return,
    };
    let _ = eprintln!(rt; "vino: {said}");
}

/// Whether a file has a block of a disk. It is opened for reading and writing, as the run does.
fn has_block(rt: &HostRuntime, path: &str) -> io::Result<bool> {
    let file = OpenOptions::new().read(true).write(true).open(rt, path)?;
    Ok(file.metadata()?.len() >= 512)
}

/// Tells on the standard error why a file can't be the disk, where it can't. The file is closed
/// before, since it may stand in the place of a standard stream that is closed.
fn tell_disk(rt: &HostRuntime, path: &str) {
    match has_block(rt, path) {
        Ok(true) => (),
        Ok(false) => {
            let _ = eprintln!(rt; "vino: the disk {path} has no block of 512 bytes");
        }
        Err(fault) => {
            let _ = eprintln!(rt; "vino: the disk {path} can't be opened: {fault}");
        }
    }
}

/// Does what the words ask: the exit status.
fn run_words(rt: &HostRuntime, words: &[String]) -> u8 {
    run_gathered(rt, words).unwrap_or(NO_MEMORY)
}

/// Does what the words ask, and writes what is gathered then: the exit status, or none for want of
/// memory before anything was done.
fn run_gathered(rt: &HostRuntime, words: &[String]) -> Option<u8> {
    let output = Output::new(rt.alloc(), rt.stdout()).ok()?;
    let status = run_over_disk(rt, words, &output)?;
    if output.hand_on() {
        return Some(status);
    }
    Some(OUTPUT_FAILED)
}

/// Does what the words ask, over the file that they name or else over the sample disk.
fn run_over_disk(rt: &HostRuntime, words: &[String], output: &Output<Stdout>) -> Option<u8> {
    match words {
        [word, _, path] if word.as_str() == "run" => {
            tell_disk(rt, path.as_str());
            let mut disk = OrderedDisk::new(open_disk(rt, path.as_str()), output);
            run_stock(rt, words, output, &mut disk).ok()
        }
        _ => {
            let mut disk = MemDisk::sample(rt.alloc(), Vec::new(rt.alloc())).ok()?;
            run_stock(rt, words, output, &mut disk).ok()
        }
    }
}

/// Does what the words ask over a disk, the real streams and the stock policies.
fn run_stock<D: Disk>(
    rt: &HostRuntime,
    words: &[String],
    output: &Output<Stdout>,
    disk: &mut D,
) -> Result<u8, AllocError> {
    let alloc = rt.alloc();
    let mut source = PromptSource::new(rt.stdin(), output);
    let mut sink = GatheringSink::new(output);
    let mut shelf: Vec<Box<dyn Policy>> = Vec::new(alloc);
    put_last(&mut shelf, Box::new(alloc, RaNone::new())?, 0, None)?;
    put_last(&mut shelf, Box::new(alloc, RaSeq::new())?, 1, Some(2))?;
    put_last(&mut shelf, Box::new(alloc, RaNext::new())?, 2, Some(1))?;
    put_last(&mut shelf, Box::new(alloc, VictimLru::new())?, 3, None)?;
    put_last(&mut shelf, Box::new(alloc, VictimMark::new())?, 4, Some(0))?;
    put_last(&mut shelf, Box::new(alloc, SchedRound::new())?, 5, None)?;
    put_last(&mut shelf, Box::new(alloc, SchedNice::new())?, 6, Some(0))?;
    if !is_stock(&shelf) {
        unreachable!()
    }
    Ok(vino_top::vino(alloc, words, &mut source, &mut sink, disk, shelf))
}

/// The words of the command line, without the program's own name.
fn words(rt: &HostRuntime) -> io::Result<Vec<String>> {
    let mut words = Vec::new(rt.alloc());
    for word in env::args(rt)?.skip(1) {
        words.push(word)?;
    }
    Ok(words)
}
