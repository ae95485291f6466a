//! Laws over the words of the top call's contract: what a run writes is one function of what it was
//! given, and each line is answered before more is read.

ghost use Rattle.vino_top.specs.Answered.{AnswersBeforeReads};
ghost use Rattle.vino_top.specs.OneRun.{CallsAreOne, RunsAreOne};

/// Where a disk tells which of its calls fail, there is one list of calls for each line, and no
/// other.
pub fn calls_are_one()
    ensures { CallsAreOne }
{}

/// Two runs under one key, over disks that tell the same blocks and the same plan, that took the
/// same bytes and ended reading alike: the status is one, the bytes that are written are one, and
/// so are the blocks and the plan that are left.
pub fn runs_are_one()
    ensures { RunsAreOne }
{}

/// Where a read of the source failed, the sink had taken by then what every line before it writes,
/// and no write had failed.
pub fn answers_before_reads()
    ensures { AnswersBeforeReads }
{}
