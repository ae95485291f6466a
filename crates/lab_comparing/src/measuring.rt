//! `lab measure`.

use graft_points::{
    Policy, RaNext, RaNone, RaSeq, SchedNice, SchedRound, VictimLru, VictimMark, is_stock, put_last,
};
use kernel_data::NoMemory;
use lab_files::{
    NO_MEMORY, Opened, REFUSED, Spare, open, run_lab, spare_disk, status_of, tell_refused,
    write_out, wrong_words,
};
use lab_lowering::Lowered;
use lab_measure::{Column, Given, measure_run, tell_csv, tell_json, tell_table};
use lab_watch::Ran;
use mem_disk::Disk;
use real_edge::FileDisk;
use std::alloc::{AllocError, Global};
use text_words::put;

/// How figures are written.
#[derive(Clone, Copy, PartialEq, Eq, Debug)]
enum Form {
    Table,
    Json,
    Csv,
}

/// The words behind `measure`.
#[derive(Drop)]
struct Words<'a> {
    form: Form,
    paths: Vec<&'a str>,
}

/// The columns of the files so far, and the greatest status.
#[derive(Drop)]
struct Measured {
    columns: Vec<Column>,
    status: u8,
}

/// Reads the words behind `measure`.
fn read_words<'a>(alloc: Global, words: &'a [String]) -> Result<Words<'a>, NoMemory> {
    let mut given = Words {
        form: Form::Table,
        paths: Vec::new(alloc),
    };
    for word in words {
        match word.as_str() {
            "--json" => given.form = Form::Json,
            "--csv" => given.form = Form::Csv,
            path => put(&mut given.paths, path)?,
        }
    }
    Ok(given)
}

/// Measures over a disk and the stock policies, with their parameters at boot.
fn measure_stock<D: Disk + Drop>(
    alloc: Global,
    given: Given,
    disk: D,
) -> Result<Result<Column, NoMemory>, AllocError> {
    let mut shelf: Vec<Box<dyn Policy>> = Vec::new(alloc);
    put_last(&mut shelf, Box::new(alloc, RaNone::new())?, 0, None)?;
    put_last(&mut shelf, Box::new(alloc, RaSeq::new())?, 1, Some(2))?;
    put_last(&mut shelf, Box::new(alloc, RaNext::new())?, 2, Some(1))?;
    put_last(&mut shelf, Box::new(alloc, VictimLru::new())?, 3, None)?;
    put_last(&mut shelf, Box::new(alloc, VictimMark::new())?, 4, Some(0))?;
    put_last(&mut shelf, Box::new(alloc, SchedRound::new())?, 5, None)?;
    put_last(&mut shelf, Box::new(alloc, SchedNice::new())?, 6, Some(0))?;
    if !is_stock(&shelf) {
        unreachable!()
    }
    Ok(measure_run(alloc, given, disk, shelf))
}

/// Measures over a disk.
fn measure_over<D: Disk + Drop>(alloc: Global, given: Given, disk: D) -> Result<Column, NoMemory> {
    match measure_stock(alloc, given, disk) {
        Ok(column) => column,
        Err(_) => Err(NoMemory),
    }
}

/// Measures the run of a lab file, which has this name. The spare disk is made first, since a run
/// changes its disk.
pub fn measure_lowered(
    rt: &HostRuntime,
    name: &[u8],
    lowered: &Lowered,
) -> Result<(Column, Ran), NoMemory> {
    let spare = spare_disk(rt, lowered)?;
    let ran = run_lab(rt, lowered, None)?;
    let given = Given {
        lowered,
        name,
        written: &ran.lines,
    };
    let column = match spare {
        Spare::Memory(disk) => measure_over(rt.alloc(), given, disk)?,
        Spare::Closed => measure_over(rt.alloc(), given, FileDisk::closed())?,
    };
    Ok((column, ran))
}

/// Measures the run of an opened file, and tells of a line of its script that is refused: the status
/// of the run.
fn measure_opened(
    rt: &HostRuntime,
    path: &str,
    opened: &Opened,
    columns: &mut Vec<Column>,
) -> Result<u8, NoMemory> {
    let (column, ran) = measure_lowered(rt, path.as_bytes(), &opened.lowered)?;
    let status = status_of(&ran);
    if status == REFUSED {
        tell_refused(rt, path, opened, ran.lines.bytes())?;
    }
    put(columns, column)?;
    Ok(status)
}

/// Measures the file at this path: its status.
fn measure_file(rt: &HostRuntime, path: &str, columns: &mut Vec<Column>) -> u8 {
    match open(rt, path) {
        Err(status) => status,
        Ok(opened) => measure_opened(rt, path, &opened, columns).unwrap_or(NO_MEMORY),
    }
}

/// Measures the files at these paths, one after the other.
fn measure_files(rt: &HostRuntime, paths: &[&str]) -> Measured {
    let mut measured = Measured {
        columns: Vec::new(rt.alloc()),
        status: 0,
    };
    for path in paths {
        let status = measure_file(rt, path, &mut measured.columns);
        measured.status = measured.status.max(status);
    }
    measured
}

/// Figures in a form.
fn tell(alloc: Global, form: Form, columns: &[Column]) -> Result<Vec<u8>, NoMemory> {
    match form {
        Form::Table => tell_table(alloc, columns),
        Form::Json => tell_json(alloc, columns),
        Form::Csv => tell_csv(alloc, columns),
    }
}

/// Writes the figures of the files that ran: the greatest status of all files.
fn write_measured(rt: &HostRuntime, form: Form, measured: &Measured) -> u8 {
    if measured.columns.is_empty() {
        return measured.status;
    }
    match tell(rt.alloc(), form, measured.columns.as_slice()) {
        Ok(text) => write_out(rt, text.as_slice(), measured.status),
        Err(_) => NO_MEMORY,
    }
}

/// Measures the files that are named, and writes their figures: the status.
fn measure_given(rt: &HostRuntime, given: &Words) -> u8 {
    if given.paths.is_empty() {
        return wrong_words(rt, "measure");
    }
    let measured = measure_files(rt, given.paths.as_slice());
    write_measured(rt, given.form, &measured)
}

/// `lab measure FILE.. [--json | --csv]`, with the words behind it: the status.
pub fn measure(rt: &HostRuntime, words: &[String]) -> u8 {
    match read_words(rt.alloc(), words) {
        Err(_) => NO_MEMORY,
        Ok(given) => measure_given(rt, &given),
    }
}
