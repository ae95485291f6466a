//! `lab test`.

ghost use Rattle.std.specs.Prelude.{◌≡◌, ◌≤◌, ◌<◌, ◌⊎◌, length, IfOk, IfErr};
ghost use Rattle.lab_lowering.specs.Lowering.{Lowers};
ghost use Rattle.lab_lines.specs.AsWanted.{WantsInOrder};
ghost use Rattle.lab_judging.specs.Tested.{WroteWanted, WroteOther, Adds, AllPass, OneFails};

use kernel_data::NoMemory;
use lab_files::{
    NO_MEMORY, Opened, REFUSED, UNWANTED, open, output_failed, run_lab, status_of, write_out,
};
use lab_lines::{compare, in_order, pieces_of};
use lab_lowering::Lowered;

/// How many files passed and failed, and the status so far.
#[derive(Clone, Copy)]
struct Count {
    passed: usize,
    failed: usize,
    status: u8,
}

/// One more file that failed.
fn failed(count: Count, status: u8) -> Count
    ensures least { count.status ≤ result.status }
    ensures counts { status ≤ result.status }
    ensures no_more { (result.status ≡ count.status) ⊎ (result.status ≡ status) }
{
    Count {
        passed: count.passed,
        failed: count.failed.saturating_add(1),
        status: count.status.max(status),
    }
}

/// One more file that passed.
fn passed(count: Count) -> Count
    ensures { result.status ≡ count.status }
{
    Count {
        passed: count.passed.saturating_add(1),
        failed: count.failed,
        status: count.status,
    }
}

#[tactic(auto, using(crate::proofs::Judging::says_nothing))]
/// Compares the wanted lines of files with those that their runs write, and tells what differs: the
/// status, 0 where all is as wanted.
pub fn test(rt: &HostRuntime, paths: &[&str]) -> u8
    // It is 0 only where the run of each file wrote what is wanted.
    ensures passed { result ≡ 0 → AllPass (length paths.now) }
    // It is 1 only where the run of one didn't.
    ensures failed { result ≡ 1 → OneFails }
{
    let mut count = Count {
        passed: 0,
        failed: 0,
        status: 0,
    };
    for path in paths {
        count = test_file(rt, path, count);
    }
    write_count(rt, count)
}

/// The closing line.
fn write_count(rt: &HostRuntime, count: Count) -> u8
    ensures { (result ≡ count.status) ⊎ (result ≡ 4) }
{
    let passed = count.passed;
    let failed = count.failed;
    match println!(rt; "{passed} passed, {failed} failed") {
        Ok(()) => count.status,
        Err(fault) => output_failed(rt, &fault),
    }
}

/// Tells that no line is wanted of a file, so that its run would show nothing: the status.
fn refuse_unwanting(rt: &HostRuntime, path: &str) -> u8
    ensures { result ≡ 2 }
{
    let _ = eprintln!(rt;
        "lab: {path}: it wants no line, so there is nothing to test; write `= LINE` after a line to want one of it"
    );
    REFUSED
}

/// Reads and lowers a lab file, which wants a line at least; or tells why it is refused, and gives
/// the status.
fn open_test(rt: &HostRuntime, path: &str) -> Result<Opened, u8>
    ensures ok { IfOk result (λ o. Lowers o.text.items o.lowered.lab o.lowered.images.items
        o.lowered.script.items) }
    ensures some { IfOk result (λ o. 0 < length o.lowered.lab.sheet.wants) }
    ensures err { IfErr result (λ status. 2 ≤ status) }
{
    let opened = open(rt, path)?;
    if opened.lowered.lab.sheet().wants().is_empty() {
        return Err(refuse_unwanting(rt, path));
    }
    Ok(opened)
}

#[tactic(auto, using(crate::proofs::Judging::adds_passed))]
/// Tests one more file.
fn test_file(rt: &HostRuntime, path: &str, count: Count) -> Count
    ensures { Adds count.status result.status }
{
    match open_test(rt, path) {
        Err(status) => failed(count, status),
        Ok(opened) => match test_lab(rt, path, &opened.lowered) {
            Ok(0) => passed(count),
            Ok(status) => failed(count, status),
            Err(_) => failed(count, NO_MEMORY),
        },
    }
}

/// Compares the wanted lines of a file with those that its run writes: 0 where all came and no
/// other, 1 where something differs.
fn test_lab(rt: &HostRuntime, path: &str, lowered: &Lowered) -> Result<u8, NoMemory>
    requires wants { WantsInOrder lowered.now.lab.sheet.wants }
    ensures passed { IfOk result (λ status. status ≡ 0 →
        WroteWanted lowered.now.lab lowered.now.script.items) }
    ensures failed { IfOk result (λ status. status ≡ 1 →
        WroteOther lowered.now.lab lowered.now.script.items) }
{
    let ran = run_lab(rt, lowered, None)?;
    let status = status_of(&ran);
    if status != 0 && status != REFUSED {
        return Ok(status.max(REFUSED));
    }
    let sheet = lowered.lab.sheet();
    let pieces = pieces_of(rt.alloc(), lowered.script.as_slice(), &ran.lines)?;
    let pieces = in_order(rt.alloc(), sheet.last(), pieces.as_slice())?;
    let told = compare(rt.alloc(), path.as_bytes(), sheet, pieces.as_slice())?;
    let status = if told.differences == 0 { 0 } else { UNWANTED };
    Ok(write_out(rt, told.text.as_slice(), status))
}
