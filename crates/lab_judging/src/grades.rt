//! `lab grade`.

ghost use Rattle.std.specs.Prelude.{◌≡◌, ◌≤◌, ◌+◌, length, IfOk, IfErr};
ghost use Rattle.lab_grading.specs.Graded.{SaysOf, Passes};
ghost use Rattle.lab_judging.specs.Grading.{Opened, OnePasses, SoManyPass, AllGraded, SomeGraded};

use kernel_data::NoMemory;
use lab_faults::tell_fault;
use lab_files::{
    NO_MEMORY, OUTPUT_FAILED, REFUSED, TOO_LONG, UNWANTED, read_bytes, unreadable, write_error,
    write_out, wrong_words,
};
use lab_grading::{
    CheckFault, Graded, LabFault, Ready, Task, TaskFault, check_task, grade_submission, read_task,
};
use lab_verdicts::{Format, Verdict, head_of, tell_check_fault, tell_task_fault, tell_verdict};

/// The most bytes of a task and of a submission.
const TEXT_BYTES: usize = 16_777_216;

/// The words behind `grade`.
#[derive(Drop)]
struct Given<'a> {
    format: Format,
    paths: Vec<&'a str>,
}

/// Reads the words behind `grade`.
fn read_words<'a>(rt: &HostRuntime, words: &'a [String]) -> Result<Given<'a>, NoMemory> {
    let mut given = Given {
        format: Format::Words,
        paths: Vec::new(rt.alloc()),
    };
    for word in words {
        match word.as_str() {
            "--tap" => given.format = Format::Tap,
            "--json" => given.format = Format::Json,
            path => {
                if given.paths.push(path).is_err() {
                    return Err(NoMemory);
                }
            }
        }
    }
    Ok(given)
}

/// Grades the submissions that these words name by the task that they name first: the status.
pub fn grade(rt: &HostRuntime, words: &[String]) -> u8
    // It is 0 only where each submission passes each test of the task; there is one at least.
    ensures passed { result ≡ 0 → SomeGraded }
{
    match read_words(rt, words) {
        Err(_) => NO_MEMORY,
        Ok(given) => grade_paths(rt, given.format, given.paths.as_slice()),
    }
}

/// Grades the submissions at these paths, of which the first is the task's: the status.
#[tactic(auto, using(crate::proofs::Grading::some_graded))]
fn grade_paths(rt: &HostRuntime, format: Format, paths: &[&str]) -> u8
    ensures passed { result ≡ 0 → SomeGraded }
{
    match paths {
        [task, first, others @ ..] => grade_all(rt, format, task, first, others),
        _ => wrong_words(rt, "grade"),
    }
}

/// Writes a sentence of a task that is refused: the status.
fn refuse(rt: &HostRuntime, sentence: Result<Vec<u8>, NoMemory>, status: u8) -> u8
    requires { 2 ≤ status }
    ensures { 2 ≤ result }
{
    match sentence {
        Ok(sentence) => {
            write_error(rt, sentence.as_slice());
            status
        }
        Err(_) => NO_MEMORY,
    }
}

/// Tells that the bytes of a task are refused: the status.
fn refuse_bytes(rt: &HostRuntime, path: &str, text: &[u8], fault: LabFault, status: u8) -> u8
    requires { 2 ≤ status }
    ensures { 2 ≤ result }
{
    refuse(
        rt,
        tell_fault(rt.alloc(), path.as_bytes(), text, fault),
        status,
    )
}

/// Reads the bytes of a task, which are UTF-8 and not too many.
pub fn task_bytes(rt: &HostRuntime, path: &str) -> Result<Vec<u8>, u8>
    ensures ok { IfOk result (λ text. length text.items ≤ 16_777_216) }
    ensures err { IfErr result (λ status. 2 ≤ status) }
{
    let text = match read_bytes(rt, path) {
        Ok(text) => text,
        Err(fault) => return Err(unreadable(rt, path, &fault)),
    };
    if text.len() > TEXT_BYTES {
        return Err(refuse_bytes(rt, path, text.as_slice(), LabFault::TooLong, TOO_LONG));
    }
    if let Err(fault) = str::from_utf8(text.as_slice()) {
        let at = fault.valid_up_to();
        return Err(refuse_bytes(rt, path, text.as_slice(), LabFault::NotUtf8(at), REFUSED));
    }
    Ok(text)
}

/// Tells why the tests of a task are refused: the status.
fn refuse_tests(rt: &HostRuntime, path: &str, text: &[u8], fault: CheckFault) -> u8
    ensures { 2 ≤ result }
{
    refuse(
        rt,
        tell_check_fault(rt.alloc(), path.as_bytes(), text, fault),
        REFUSED,
    )
}

/// Tells why a task is refused: the status.
fn refuse_task(rt: &HostRuntime, path: &str, fault: TaskFault) -> u8
    ensures { 2 ≤ result }
{
    refuse(
        rt,
        tell_task_fault(rt.alloc(), path.as_bytes(), fault),
        REFUSED,
    )
}

/// Reads a task from its bytes and checks its tests; or tells why it is refused, and gives the status.
pub fn task_of(rt: &HostRuntime, path: &str, text: &[u8]) -> Result<Ready, u8>
    requires { length text.now ≤ 16_777_216 }
    ensures ok { IfOk result (λ ready. Opened ready) }
    ensures err { IfErr result (λ status. 2 ≤ status) }
{
    let task: Task = match read_task(rt.alloc(), text) {
        Ok(task) => task,
        Err(fault) => return Err(refuse_task(rt, path, fault)),
    };
    match check_task(rt.alloc(), task) {
        Ok(ready) => Ok(ready),
        Err(fault) => Err(refuse_tests(rt, path, text, fault)),
    }
}

/// Reads a task and checks its tests; or tells why it is refused, and gives the status.
fn open_task(rt: &HostRuntime, path: &str) -> Result<Ready, u8>
    ensures ok { IfOk result (λ ready. Opened ready) }
    ensures err { IfErr result (λ status. 2 ≤ status) }
{
    let text = task_bytes(rt, path)?;
    task_of(rt, path, text.as_slice())
}

/// Writes what stands above the verdicts: the status.
fn write_head(rt: &HostRuntime, format: Format, ready: &Ready, count: usize) -> u8 {
    match head_of(rt.alloc(), format, ready, count) {
        Ok(head) => write_out(rt, head.as_slice(), 0),
        Err(_) => NO_MEMORY,
    }
}

/// Grades submissions by the task at this path: the greatest status. Where the output failed, no
/// more are graded.
#[tactic(auto, using(crate::proofs::Grading::all_graded))]
fn grade_all(rt: &HostRuntime, format: Format, path: &str, first: &str, others: &[&str]) -> u8
    ensures passed { result ≡ 0 → AllGraded (length others.now + 1) }
{
    match open_task(rt, path) {
        Ok(ready) => grade_with(rt, format, &ready, first, others),
        Err(status) => status,
    }
}

/// Grades submissions by a task: the greatest status.
#[tactic(auto, using(crate::proofs::Grading::first_graded, crate::proofs::Grading::one_more))]
fn grade_with(rt: &HostRuntime, format: Format, ready: &Ready, first: &str, others: &[&str]) -> u8
    ensures passed { result ≡ 0 → SoManyPass ready.now (length others.now + 1) }
{
    let head = write_head(rt, format, ready, others.len().saturating_add(1));
    let mut status = grade_next(rt, format, ready, first, 0, head);
    for (before, submission) in others.iter().enumerate() {
        status = grade_next(
            rt,
            format,
            ready,
            submission,
            before.saturating_add(1),
            status,
        );
    }
    status
}

/// Grades one more submission, unless the output failed: the greatest status.
fn grade_next(
    rt: &HostRuntime,
    format: Format,
    ready: &Ready,
    path: &str,
    before: usize,
    status: u8,
) -> u8
    ensures before { result ≡ 0 → status ≡ 0 }
    ensures passed { result ≡ 0 → OnePasses ready.now }
{
    if status == OUTPUT_FAILED {
        return status;
    }
    status.max(grade_file(rt, format, ready, path, before))
}

/// Grades the submission at this path, before which so many were graded: the status.
fn grade_file(rt: &HostRuntime, format: Format, ready: &Ready, path: &str, before: usize) -> u8
    ensures passed { result ≡ 0 → OnePasses ready.now }
{
    match read_bytes(rt, path) {
        Err(fault) => unreadable(rt, path, &fault),
        Ok(text) => match grade_text(rt, format, ready, path, text.as_slice(), before) {
            Ok(status) => status,
            Err(_) => NO_MEMORY,
        },
    }
}

/// What comes of a submission; one that is too long isn't read.
pub fn graded_of(rt: &HostRuntime, ready: &Ready, text: &[u8]) -> Result<Graded, NoMemory>
    ensures { IfOk result (λ graded. SaysOf graded text.now ready.now) }
{
    if text.len() > TEXT_BYTES {
        return Ok(Graded::Unread(0, LabFault::TooLong));
    }
    grade_submission(rt.alloc(), ready, text)
}

#[tactic(auto, using(lab_grading::proofs::Passing::passes))]
/// Grades a submission and tells of it: the status.
fn grade_text(
    rt: &HostRuntime,
    format: Format,
    ready: &Ready,
    path: &str,
    text: &[u8],
    before: usize,
) -> Result<u8, NoMemory>
    ensures { IfOk result (λ status. status ≡ 0 → Passes ready.now text.now) }
{
    let graded = graded_of(rt, ready, text)?;
    let verdict = Verdict {
        path: path.as_bytes(),
        text,
        graded: &graded,
        before,
    };
    let told = tell_verdict(rt.alloc(), format, ready, &verdict)?;
    let status = if graded.is_passed() { 0 } else { UNWANTED };
    Ok(write_out(rt, told.as_slice(), status))
}
