//! All tests of a task, run behind the grafts of a submission.

ghost use Rattle.std.specs.Prelude.{◌≡◌, ◌≤◌, None, length, IfOk};
ghost use Rattle.std.specs.List.{list_all};
ghost use Rattle.lab_task.specs.Submission.{fault_of};
ghost use Rattle.lab_grading.specs.Graded as spec;

use crate::checking::{Checked, Ready};
use crate::grading::{Outcome, grade_test};
use kernel_data::NoMemory;
use lab_lowering::LabFault;
use lab_task::{SubmissionFault, check_submission};
use std::alloc::Global;
use text_words::put;

/// What came of a submission.
#[derive(Drop)]
pub enum Graded {
    /// The outcome of each test, in their order; none is refused.
    Tested(Vec<Outcome>),
    /// It doesn't hold the grafts that the task asks for, and no more.
    Refused(SubmissionFault),
    /// Its grafts are refused, in the text in which the test of this place stands behind them.
    Unread(usize, LabFault),
}

/// Whether each of these outcomes is that of a test that is passed.
fn are_passed(outcomes: &[Outcome]) -> bool
    ensures { result ≡ list_all spec.is_passed_by outcomes.now }
{
    outcomes.iter().all(|outcome| outcome.is_passed())
}

impl Graded {
    /// Whether each test is passed.
    pub fn is_passed(&self) -> bool
        ensures { result ≡ spec.are_passed self.now }
    {
        match self {
            Graded::Tested(outcomes) => are_passed(outcomes.as_slice()),
            _ => false,
        }
    }
}

/// Grades a submission of at most 16,777,216 bytes.
pub fn grade_submission(alloc: Global, ready: &Ready, text: &[u8]) -> Result<Graded, NoMemory>
    requires { length text.now ≤ 16_777_216 }
    ensures { IfOk result (λ graded. spec.SaysOf graded text.now ready.now) }
{
    match check_submission(alloc, ready.task.gives(), text) {
        Ok(()) => grade_tests(alloc, ready, text),
        Err(fault) => refused(fault),
    }
}

/// What came of a submission in which this is wrong.
fn refused(fault: SubmissionFault) -> Result<Graded, NoMemory>
    ensures { IfOk result (λ graded. spec.SaysRefused fault graded) }
{
    match fault {
        SubmissionFault::NoMemory => Err(NoMemory),
        SubmissionFault::Stray(n) => Ok(Graded::Refused(SubmissionFault::Stray(n))),
        SubmissionFault::NoEnd(n) => Ok(Graded::Refused(SubmissionFault::NoEnd(n))),
        SubmissionFault::NotAsked(n) => Ok(Graded::Refused(SubmissionFault::NotAsked(n))),
        SubmissionFault::Missing(k) => Ok(Graded::Refused(SubmissionFault::Missing(k))),
    }
}

/// Why the text in which a test stands behind grafts is refused, if it is.
fn refusal_in(outcome: &Outcome) -> Option<LabFault> {
    match outcome {
        Outcome::Refused(fault) => Some(*fault),
        _ => None,
    }
}

/// Grades these tests, behind the grafts of a submission.
fn outcomes_of(alloc: Global, all: &[Checked], to: usize, text: &[u8]) -> Result<Graded, NoMemory>
    ensures { IfOk result (λ graded. spec.SaysOfTests graded text.now to all.now) }
{
    let mut outcomes = Vec::new(alloc);
    for checked in all {
        let outcome = grade_test(alloc, checked, to, text)?;
        if let Some(fault) = refusal_in(&outcome) {
            return Ok(Graded::Unread(outcomes.len(), fault));
        }
        put(&mut outcomes, outcome)?;
    }
    Ok(Graded::Tested(outcomes))
}

#[tactic(auto, using(crate::proofs::Passing::says_of))]
/// Grades a submission that holds the grafts that the task asks for, and no more.
fn grade_tests(alloc: Global, ready: &Ready, text: &[u8]) -> Result<Graded, NoMemory>
    requires { fault_of ready.now.task.gives text.now ≡ None }
    ensures { IfOk result (λ graded. spec.SaysOf graded text.now ready.now) }
{
    outcomes_of(alloc, ready.checked.as_slice(), ready.to, text)
}
