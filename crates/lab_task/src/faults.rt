//! Why a task or a submission is refused.

use script_model::NoMemory;
use thiserror::Error;

/// What is wrong with a line of a task.
#[derive(Clone, Copy, PartialEq, Eq, Debug)]
pub enum TaskKind {
    /// A line that is neither empty nor a remark stands before the first test.
    StrayLine,
    /// The title has no words, stands twice, or behind the beginning of a test.
    BadTitle,
    /// The line `gives` names no graft, stands twice, or behind the beginning of a test.
    BadGives,
    /// Behind `score` there isn't `least` or `most` and a name, or it stands twice, or behind the
    /// beginning of a test.
    BadScore,
    /// Behind `test` there isn't a name, then points, then perhaps `hidden`.
    BadTest,
    /// The points of a test are missing, or no number up to 1,000.
    BadPoints,
    /// There is a test of this name above.
    TestTwice,
    /// The disk of a test is a file.
    DiskFile,
    /// There is no test.
    NoTest,
    /// No line says which grafts a submission gives.
    NoGives,
}

/// Why a task is refused.
#[derive(Clone, Copy, PartialEq, Eq, Debug, Error)]
pub enum TaskFault {
    /// A line, numbered from 1, and what is wrong with it.
    #[error("line {0}: {1:?}")]
    At(usize, TaskKind),
    /// There is no memory.
    #[error("out of memory")]
    NoMemory,
}

impl From<NoMemory> for TaskFault {
    ghost use Rattle.std.specs.Prelude.{◌≡◌};
    ghost use Rattle.lab_task.specs.declared.faults.TaskFault.{TaskFault};

    ghost from_gives = { λ _ e. e ≡ TaskFault.NoMemory };

    fn from(_: NoMemory) -> TaskFault {
        TaskFault::NoMemory
    }
}

/// Why a submission doesn't hold the grafts that a task asks for, and no more.
#[derive(Clone, Copy, PartialEq, Eq, Debug, Error)]
pub enum SubmissionFault {
    /// This line, outside of grafts, is neither empty nor a remark, and begins no graft.
    #[error("line {0} is no graft")]
    Stray(usize),
    /// The graft that begins in this line has no `end`.
    #[error("the graft of line {0} has no end")]
    NoEnd(usize),
    /// The task doesn't ask for the graft that begins in this line.
    #[error("the graft of line {0} isn't asked for")]
    NotAsked(usize),
    /// The graft of this place among those that the task asks for is missing.
    #[error("graft {0} is missing")]
    Missing(usize),
    /// There is no memory.
    #[error("out of memory")]
    NoMemory,
}

impl From<NoMemory> for SubmissionFault {
    ghost use Rattle.std.specs.Prelude.{◌≡◌};
    ghost use Rattle.lab_task.specs.declared.faults.SubmissionFault.{SubmissionFault};

    ghost from_gives = { λ _ e. e ≡ SubmissionFault.NoMemory };

    fn from(_: NoMemory) -> SubmissionFault {
        SubmissionFault::NoMemory
    }
}
