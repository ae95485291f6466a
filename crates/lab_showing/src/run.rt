//! `lab run`.

use crate::colour::{coloured, is_coloured};
use kernel_data::NoMemory;
use lab_files::{
    NO_MEMORY, OUTPUT_FAILED, Opened, REFUSED, open, run_lab, spent_causes, status_of,
    tell_refused, write_out,
};
use lab_lines::{Aids, Hints, told};
use lab_lowering::Lowered;
use lab_watch::Ran;

/// How a run is told.
#[derive(Clone, Copy)]
pub struct Telling {
    /// The written lines alone, as they are.
    pub plain: bool,
    /// Heads above the rows of `raw`.
    pub raw_heads: bool,
}

/// Runs lab files one after the other and tells of them, each below its name where there are more:
/// the greatest status. Behind a failed output none is run.
pub fn run_files(rt: &HostRuntime, paths: &[&str], telling: Telling, disk: Option<&str>) -> u8 {
    let mut status = 0;
    for path in paths {
        if status != OUTPUT_FAILED {
            let begun = begin_file(rt, path, telling, paths.len());
            if begun != 0 {
                return begun;
            }
            status = status.max(run_file(rt, path, telling, disk));
        }
    }
    status
}

/// Writes the name of a file above its run where there are more files.
fn begin_file(rt: &HostRuntime, path: &str, telling: Telling, count: usize) -> u8 {
    if telling.plain || count < 2 {
        return 0;
    }
    match write_out(rt, path.as_bytes(), 0) {
        0 => write_out(rt, b":\n", 0),
        failed => failed,
    }
}

/// Runs a lab file and tells of it: the status.
fn run_file(rt: &HostRuntime, path: &str, telling: Telling, disk: Option<&str>) -> u8 {
    match open(rt, path) {
        Err(status) => status,
        Ok(opened) => run_opened(rt, path, opened, telling, disk).unwrap_or(NO_MEMORY),
    }
}

fn run_opened(
    rt: &HostRuntime,
    path: &str,
    mut opened: Opened,
    telling: Telling,
    disk: Option<&str>,
) -> Result<u8, NoMemory> {
    let ran = run_lab(rt, &opened.lowered, disk)?;
    let status = status_of(&ran);
    if status == REFUSED {
        tell_refused(rt, path, &opened, ran.lines.bytes())?;
    }
    if telling.plain {
        return Ok(write_out(rt, ran.lines.bytes(), status));
    }
    let text = tell_run(rt, &mut opened.lowered, &ran, telling.raw_heads, disk)?;
    if is_coloured(rt) {
        let text = coloured(rt.alloc(), text.as_slice())?;
        return Ok(write_out(rt, text.as_slice(), status));
    }
    Ok(write_out(rt, text.as_slice(), status))
}

/// What a run wrote, in words, with what its lines leave unsaid.
fn tell_run(
    rt: &HostRuntime,
    lowered: &mut Lowered,
    ran: &Ran,
    heads: bool,
    disk: Option<&str>,
) -> Result<Vec<u8>, NoMemory> {
    let is_sample = disk.is_none() && lowered.lab.settings().disk().is_none();
    let causes = spent_causes(rt, lowered, ran, is_sample)?;
    let script = lowered.script.as_slice();
    let hints = Hints::new(rt.alloc(), script, is_sample, causes.as_slice())?;
    told(
        rt.alloc(),
        &lowered.lab,
        script,
        &ran.lines,
        &mut Aids { heads, hints },
    )
}
