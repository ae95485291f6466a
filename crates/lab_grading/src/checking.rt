//! A task whose tests were read behind grafts that stand for those of a submission.

ghost use Rattle.std.specs.Prelude.{◌≡◌, ◌++◌, ◌==◌, length, IfOk, OnOk};
ghost use Rattle.lab_grading.specs.Graded as spec;

use kernel_data::NoMemory;
use lab_lowering::{LabFault, Lowered, Text, Want, lower};
use lab_task::{Task, Test};
use std::alloc::Global;
use text_words::{Parts, append, number_of, put};

/// A test that was read behind grafts of the one instruction `ret`, which says what is wanted of it.
#[derive(Drop)]
pub struct Checked {
    /// The line of the task that begins it, from 1.
    pub begun: usize,
    /// Its script.
    pub script: Vec<u8>,
    /// What was read.
    pub lowered: Lowered,
}

/// A task whose tests are checked.
#[derive(Drop)]
pub struct Ready {
    /// The task.
    pub task: Task,
    /// For each of its tests what was read.
    pub checked: Vec<Checked>,
    /// How many lines stand before a test as it was read.
    pub to: usize,
}

/// Why a task is refused whose lines are right by themselves.
#[derive(Clone, Copy, PartialEq, Eq, Debug)]
pub enum CheckFault {
    /// A lab file refuses this line of the task.
    Lab(usize, LabFault),
    /// The test that begins in this line wants nothing.
    NothingWanted(usize),
    /// Behind `state` in this line there is no row, or behind `limit` not `ran` and a number.
    BadWant(usize),
    /// There is no memory.
    NoMemory,
}

impl From<NoMemory> for CheckFault {
    ghost use Rattle.std.specs.Prelude.{◌≡◌};
    ghost use Rattle.lab_grading.specs.declared.checking.CheckFault.{CheckFault};

    ghost from_gives = { λ _ e. e ≡ CheckFault.NoMemory };

    fn from(_: NoMemory) -> CheckFault {
        CheckFault::NoMemory
    }
}

/// How many lines a text has that stands in front of others.
pub(crate) fn lines_before(front: &[u8]) -> usize
    ensures { result ≡ spec.lines_before front.now }
{
    let mut lines = Parts::new(front, b'\n');
    let mut count: usize = 0;
    while let Some(line) = lines.next() {
        let _ = line;
        count = count.saturating_add(1);
    }
    count
}

/// The script of a test behind a text of grafts.
pub(crate) fn behind(alloc: Global, front: &[u8], script: &[u8]) -> Result<Vec<u8>, NoMemory>
    ensures { IfOk result (λ text. text.items ≡ spec.behind front.now script.now) }
{
    let mut text = Vec::new(alloc);
    append(&mut text, front)?;
    append(&mut text, b"\n")?;
    append(&mut text, script)?;
    Ok(text)
}

/// Appends the graft of the one instruction `ret`, of this name.
fn add_stub(out: &mut Vec<u8>, name: &[u8]) -> Result<(), NoMemory>
    ensures { OnOk result (out.new.items ≡ out.old.items ++ spec.stub name.now) }
{
    append(out, b"graft ")?;
    append(out, name)?;
    append(out, b"\nret\nend\n")
}

/// Such a graft for each that a submission gives.
fn stubs(alloc: Global, gives: &[Text]) -> Result<Vec<u8>, NoMemory>
    ensures { IfOk result (λ text. text.items ≡ spec.stubs gives.now) }
{
    let mut text = Vec::new(alloc);
    for name in gives {
        add_stub(&mut text, name.bytes())?;
    }
    Ok(text)
}

/// The line of the task of a line of a test as it was read, behind so many lines; a line of the
/// grafts before it is the one that says which grafts are given.
fn task_line(task: &Task, test: &Test, line: usize, to: usize) -> usize {
    if line <= to {
        return task.given();
    }
    (line - to).saturating_add(test.begun).saturating_sub(1)
}

/// A text of its own with these bytes.
fn copy_of(alloc: Global, bytes: &[u8]) -> Result<Vec<u8>, NoMemory>
    ensures { IfOk result (λ copy. copy.items ≡ bytes.now) }
{
    let mut copy = Vec::new(alloc);
    append(&mut copy, bytes)?;
    Ok(copy)
}

/// Whether a wanted line that begins with `state` or `limit` goes on as it should.
fn is_well_formed(want: &[u8]) -> bool {
    if want == b"state".as_slice() {
        return false;
    }
    if want == b"limit".as_slice() || want.starts_with(b"limit ") {
        return want.starts_with(b"limit ran ") && number_of(&want[10..]).is_some();
    }
    true
}

/// The first wanted line that isn't well formed.
fn malformed(wants: &[Want]) -> Option<usize> {
    for want in wants {
        if !is_well_formed(want.text.bytes()) {
            return Some(want.line);
        }
    }
    None
}

#[tactic(auto, using(crate::proofs::Judging::is_checked))]
/// Reads a test behind these grafts.
fn check_test(
    alloc: Global,
    task: &Task,
    test: &Test,
    front: &[u8],
    to: usize,
) -> Result<Checked, CheckFault>
    ensures { IfOk result (λ checked. spec.IsChecked front.now test.now checked) }
{
    let text = behind(alloc, front, test.script.as_slice())?;
    let lowered = match lower(alloc, text.as_slice()) {
        Ok(lowered) => lowered,
        Err(LabFault::At(line, kind)) => {
            let line = task_line(task, test, line, to);
            return Err(CheckFault::Lab(line, LabFault::At(line, kind)));
        }
        Err(LabFault::NoMemory) => return Err(CheckFault::NoMemory),
        Err(fault) => return Err(CheckFault::Lab(test.begun, fault)),
    };
    let wants = lowered.lab.sheet().wants();
    if wants.is_empty() {
        return Err(CheckFault::NothingWanted(test.begun));
    }
    if let Some(line) = malformed(wants) {
        return Err(CheckFault::BadWant(task_line(task, test, line, to)));
    }
    Ok(Checked {
        begun: test.begun,
        script: copy_of(alloc, test.script.as_slice())?,
        lowered,
    })
}

/// Reads the tests of a task behind these grafts.
fn check_tests(
    alloc: Global,
    task: &Task,
    tests: &[Test],
    front: &[u8],
    to: usize,
) -> Result<Vec<Checked>, CheckFault>
    ensures { IfOk result (λ checked. spec.AreChecked front.now tests.now checked.items) }
{
    let mut all = Vec::new(alloc);
    for test in tests {
        let checked = check_test(alloc, task, test, front, to)?;
        put(&mut all, checked)?;
    }
    Ok(all)
}

/// Reads the tests of a task behind grafts that stand for those of a submission.
pub fn check_task(alloc: Global, task: Task) -> Result<Ready, CheckFault>
    // The task is as it was, and each of its tests is read.
    ensures { IfOk result (λ ready. (ready.task ≡ task) × spec.IsReady ready) }
{
    let front = stubs(alloc, task.gives())?;
    let to = lines_before(front.as_slice());
    let checked = check_tests(alloc, &task, task.tests(), front.as_slice(), to)?;
    Ok(Ready { task, checked, to })
}
