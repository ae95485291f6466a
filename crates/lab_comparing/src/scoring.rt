//! `lab score`.

use crate::measuring::measure_lowered;
use kernel_data::NoMemory;
use lab_files::{
    NO_MEMORY, REFUSED, UNWANTED, read_bytes, unreadable, write_error, write_out, wrong_words,
};
use lab_grading::{Checked, Graded, LabFault, Ready};
use lab_judging::{graded_of, task_bytes, task_of};
use lab_lowering::lower;
use lab_measure::Column;
use lab_scoring::{
    Entry, Named, Standing, stock_script, sum_of, tell_figure_fault, tell_no_figure, tell_ranking,
};
use std::alloc::Global;
use text_words::{append, put};

/// What the line of the stock policies has in the place of a name.
const STOCK: &[u8] = b"(the stock policy)";

/// Where the script of a test gets its grafts from.
#[derive(Clone, Copy)]
enum Grafts<'a> {
    /// From a submission.
    Given(&'a [u8]),
    /// From nowhere: the policies are the stock ones.
    Stock,
}

/// What is ranked so far, and the greatest status.
#[derive(Drop)]
struct Ranking {
    entries: Vec<Entry>,
    status: u8,
}

/// The lab file of a test with grafts.
fn text_of(
    alloc: Global,
    ready: &Ready,
    grafts: Grafts,
    script: &[u8],
) -> Result<Vec<u8>, NoMemory> {
    match grafts {
        Grafts::Stock => stock_script(alloc, ready.task.gives(), script),
        Grafts::Given(front) => {
            let mut text = Vec::new(alloc);
            append(&mut text, front)?;
            append(&mut text, b"\n")?;
            append(&mut text, script)?;
            Ok(text)
        }
    }
}

/// Measures a test with grafts; nothing where a lab file of these lines is refused.
fn measure_test(
    rt: &HostRuntime,
    ready: &Ready,
    grafts: Grafts,
    checked: &Checked,
) -> Result<Option<Column>, NoMemory> {
    let text = text_of(rt.alloc(), ready, grafts, checked.script.as_slice())?;
    match lower(rt.alloc(), text.as_slice()) {
        Ok(lowered) => Ok(Some(measure_lowered(rt, b"", &lowered)?.0)),
        Err(LabFault::NoMemory) => Err(NoMemory),
        Err(_) => Ok(None),
    }
}

/// Measures each test with grafts; nothing where a lab file of the lines of one is refused.
fn measure_tests(
    rt: &HostRuntime,
    ready: &Ready,
    grafts: Grafts,
) -> Result<Option<Vec<Column>>, NoMemory> {
    let mut columns = Vec::new(rt.alloc());
    for checked in ready.checked.as_slice() {
        match measure_test(rt, ready, grafts, checked)? {
            Some(column) => put(&mut columns, column)?,
            None => return Ok(None),
        }
    }
    Ok(Some(columns))
}

/// The sum of the task's figure over its tests with the grafts of a submission; nothing where a lab
/// file of these lines is refused.
fn figure_of(rt: &HostRuntime, ready: &Ready, text: &[u8]) -> Result<Option<u64>, NoMemory> {
    match measure_tests(rt, ready, Grafts::Given(text))? {
        Some(columns) => Ok(sum_of(columns.as_slice(), ready.task.score()).ok()),
        None => Ok(None),
    }
}

/// Adds an entry of this name.
fn add(
    alloc: Global,
    entries: &mut Vec<Entry>,
    name: &[u8],
    standing: Standing,
    value: u64,
) -> Result<(), NoMemory> {
    let mut text = Vec::new(alloc);
    append(&mut text, name)?;
    let entry = Entry {
        name: text,
        standing,
        value,
    };
    put(entries, entry)
}

/// Adds a submission of these bytes.
fn add_text(
    rt: &HostRuntime,
    ready: &Ready,
    entries: &mut Vec<Entry>,
    path: &str,
    text: &[u8],
) -> Result<u8, NoMemory> {
    let graded = graded_of(rt, ready, text)?;
    if graded.is_passed() {
        if let Some(value) = figure_of(rt, ready, text)? {
            add(
                rt.alloc(),
                entries,
                path.as_bytes(),
                Standing::Passed,
                value,
            )?;
            return Ok(0);
        }
    }
    let standing = match graded {
        Graded::Tested(_) => Standing::Failed,
        _ => Standing::Refused,
    };
    add(rt.alloc(), entries, path.as_bytes(), standing, 0)?;
    Ok(UNWANTED)
}

/// Adds the submission at this path.
fn add_file(rt: &HostRuntime, ready: &Ready, ranking: &mut Ranking, path: &str) {
    let status = match read_bytes(rt, path) {
        Err(fault) => unreadable(rt, path, &fault),
        Ok(text) => add_text(rt, ready, &mut ranking.entries, path, text.as_slice()).unwrap_or(
            NO_MEMORY,
        ),
    };
    ranking.status = ranking.status.max(status);
}

/// Writes why a task is refused: the status.
fn refuse(rt: &HostRuntime, sentence: &[u8]) -> u8 {
    write_error(rt, sentence);
    REFUSED
}

/// Tells that a task names no figure: the status.
fn refuse_unscored(rt: &HostRuntime, path: &str, ready: &Ready) -> Result<u8, NoMemory> {
    let begun = match ready.checked.as_slice().first() {
        Some(checked) => checked.begun,
        None => 1,
    };
    let said = tell_no_figure(rt.alloc(), path.as_bytes(), begun)?;
    Ok(refuse(rt, said.as_slice()))
}

/// The sum of the figure that a task names over these runs of its tests; or tells why there is none,
/// and gives the status.
fn stock_figure(
    rt: &HostRuntime,
    named: Named,
    ready: &Ready,
    columns: &[Column],
) -> Result<Result<u64, u8>, NoMemory> {
    let figure = ready.task.score();
    let fault = match sum_of(columns, figure) {
        Ok(value) => return Ok(Ok(value)),
        Err(fault) => fault,
    };
    let Some(column) = columns.first() else {
        return Ok(Err(REFUSED));
    };
    let said = tell_figure_fault(rt.alloc(), named, column, figure, fault)?;
    Ok(Err(refuse(rt, said.as_slice())))
}

/// Ranks the submissions at these paths beside the stock policies, which have this figure: the status.
fn rank_beside(
    rt: &HostRuntime,
    ready: &Ready,
    stock: u64,
    paths: &[String],
) -> Result<u8, NoMemory> {
    let mut ranking = Ranking {
        entries: Vec::new(rt.alloc()),
        status: 0,
    };
    add(
        rt.alloc(),
        &mut ranking.entries,
        STOCK,
        Standing::Passed,
        stock,
    )?;
    for path in paths {
        add_file(rt, ready, &mut ranking, path.as_str());
    }
    let Ranking { entries, status } = ranking;
    let task = &ready.task;
    let told = tell_ranking(rt.alloc(), task.score(), task.ranks_most(), entries)?;
    Ok(write_out(rt, told.as_slice(), status))
}

/// Ranks the submissions at these paths by a task, which has this text: the status.
fn rank(
    rt: &HostRuntime,
    path: &str,
    text: &[u8],
    ready: &Ready,
    paths: &[String],
) -> Result<u8, NoMemory> {
    let line = ready.task.scored();
    if line == 0 {
        return refuse_unscored(rt, path, ready);
    }
    let Some(columns) = measure_tests(rt, ready, Grafts::Stock)? else {
        let _ = eprintln!(rt; "lab: {path}: a test can't be read without the grafts");
        return Ok(REFUSED);
    };
    let named = Named {
        path: path.as_bytes(),
        text,
        line,
    };
    match stock_figure(rt, named, ready, columns.as_slice())? {
        Ok(stock) => rank_beside(rt, ready, stock, paths),
        Err(status) => Ok(status),
    }
}

/// Ranks the submissions at these paths by the task at this one: the status.
fn rank_paths(rt: &HostRuntime, path: &str, paths: &[String]) -> Result<u8, u8> {
    let text = task_bytes(rt, path)?;
    let ready = task_of(rt, path, text.as_slice())?;
    Ok(rank(rt, path, text.as_slice(), &ready, paths).unwrap_or(NO_MEMORY))
}

/// `lab score TASK SUBMISSION..`, with the words behind it: the status.
pub fn score(rt: &HostRuntime, words: &[String]) -> u8 {
    match words {
        [task, paths @ ..] if !paths.is_empty() => match rank_paths(rt, task.as_str(), paths) {
            Ok(status) => status,
            Err(status) => status,
        },
        _ => wrong_words(rt, "score"),
    }
}
