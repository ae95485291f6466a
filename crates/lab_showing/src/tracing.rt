//! `lab trace`.

use graft_points::{
    Policy, RaNext, RaNone, RaSeq, SchedNice, SchedRound, VictimLru, VictimMark, is_stock, put_last,
};
use kernel_data::NoMemory;
use lab_files::{
    NO_MEMORY, OUTPUT_FAILED, Opened, Spare, open, run_lab, spare_disk, status_of, wrong_range,
    wrong_words,
};
use lab_trace::{Given, Stop, trace_run};
use mem_disk::Disk;
use real_edge::{FileDisk, StreamSink};
use std::alloc::AllocError;
use text_words::number_of;

/// What `lab trace` is asked: the file, and the first and the last moment.
#[derive(Clone, Copy)]
struct Asked<'a> {
    path: &'a str,
    from: u32,
    to: u32,
}

/// What the words behind `trace` ask, where they are right.
fn words_asked(words: &[String]) -> Option<Asked<'_>> {
    let mut path = None;
    let mut from = 1;
    let mut to = u32::MAX;
    let mut rest = words;
    while let [word, others @ ..] = rest {
        rest = others;
        match (word.as_str(), rest) {
            ("--from", [number, others @ ..]) => {
                from = number_of(number.as_bytes())?;
                rest = others;
            }
            ("--to", [number, others @ ..]) => {
                to = number_of(number.as_bytes())?;
                rest = others;
            }
            (name, _) if path.is_none() && !name.starts_with("--") => path = Some(name),
            _ => return None,
        }
    }
    match path {
        Some(path) => Some(Asked { path, from, to }),
        None => None,
    }
}

/// Traces over a disk and the stock policies, with their parameters at boot.
fn trace_stock<D: Disk + Drop>(
    rt: &HostRuntime,
    given: Given,
    disk: D,
) -> Result<Result<(), Stop>, AllocError> {
    let alloc = rt.alloc();
    let mut shelf: Vec<Box<dyn Policy>> = Vec::new(alloc);
    put_last(&mut shelf, Box::new(alloc, RaNone::new())?, 0, None)?;
    put_last(&mut shelf, Box::new(alloc, RaSeq::new())?, 1, Some(2))?;
    put_last(&mut shelf, Box::new(alloc, RaNext::new())?, 2, Some(1))?;
    put_last(&mut shelf, Box::new(alloc, VictimLru::new())?, 3, None)?;
    put_last(&mut shelf, Box::new(alloc, VictimMark::new())?, 4, Some(0))?;
    put_last(&mut shelf, Box::new(alloc, SchedRound::new())?, 5, None)?;
    put_last(&mut shelf, Box::new(alloc, SchedNice::new())?, 6, Some(0))?;
    if !is_stock(&shelf) {
        unreachable!()
    }
    let mut sink = StreamSink::new(rt.stdout());
    Ok(trace_run(alloc, given, disk, shelf, &mut sink))
}

/// Traces over a disk: the status, where that of the run is this one.
fn trace_over<D: Disk + Drop>(rt: &HostRuntime, given: Given, disk: D) -> u8 {
    match trace_stock(rt, given, disk) {
        Ok(Ok(())) => given.status,
        Ok(Err(Stop::SinkFailed)) => OUTPUT_FAILED,
        Ok(Err(Stop::NoMemory)) => NO_MEMORY,
        Err(_) => NO_MEMORY,
    }
}

/// Traces the run of a lab file. The spare disk is made first, since a run changes its disk.
fn trace_lab(rt: &HostRuntime, opened: &Opened, asked: Asked) -> Result<u8, NoMemory> {
    let lowered = &opened.lowered;
    let spare = spare_disk(rt, lowered)?;
    let ran = run_lab(rt, lowered, None)?;
    let given = Given {
        lowered,
        name: asked.path.as_bytes(),
        text: opened.text.as_slice(),
        written: &ran.lines,
        status: status_of(&ran),
        from: asked.from,
        to: asked.to,
    };
    Ok(match spare {
        Spare::Memory(disk) => trace_over(rt, given, disk),
        Spare::Closed => trace_over(rt, given, FileDisk::closed()),
    })
}

/// `lab trace FILE [--from N] [--to N]`, with the words behind it: the status.
pub fn trace(rt: &HostRuntime, words: &[String]) -> u8 {
    let Some(asked) = words_asked(words) else {
        return wrong_words(rt, "trace");
    };
    if asked.from > asked.to {
        return wrong_range(rt);
    }
    match open(rt, asked.path) {
        Err(status) => status,
        Ok(opened) => trace_lab(rt, &opened, asked).unwrap_or(NO_MEMORY),
    }
}
