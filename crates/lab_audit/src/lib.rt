//! A claim of what the script of a lab file writes, audited and told.
#![tactic(auto)]

ghost use Rattle.std.specs.Prelude.{◌≡◌, ◌≤◌, length, IfOk};
ghost use Rattle.script_model.specs.Outcome.{SCRIPT_BYTES};
ghost use Rattle.script_model.specs.Audits.{verdict, wanted};

mod right;
mod words;

use crate::right::right_line;
use crate::words::{tell_difference, tell_same};
use run_audit::audit;
pub use script_model::{Keys, NoMemory, Verdict};
use std::alloc::Global;

/// The names of a lab file and of the file with the claim.
#[derive(Clone, Copy)]
pub struct Names<'a> {
    pub lab: &'a [u8],
    pub claim: &'a [u8],
}

/// The verdict on a claim, and what is told of it.
#[derive(Drop)]
pub struct Told {
    pub verdict: Verdict,
    pub text: Vec<u8>,
}

/// Compares what somebody says that a script writes with what it writes over the sample disk, none
/// of whose calls fails: the verdict; and, where they differ, the first line that does, what was
/// claimed and what is right.
pub fn audit_claim(
    alloc: Global,
    names: Names,
    keys: &Keys,
    script: &[u8],
    claim: &[u8],
) -> Result<Told, NoMemory>
    requires script { length script.now ≤ SCRIPT_BYTES }
    requires claim { length claim.now ≤ SCRIPT_BYTES }
    ensures { IfOk result (λ told.
        told.verdict ≡ verdict claim.now (wanted keys.now script.now)) }
{
    let verdict = audit(alloc, keys, script, claim)?;
    let text = tell(alloc, names, keys, script, claim, verdict)?;
    Ok(Told { verdict, text })
}

/// What is told of a verdict.
fn tell(
    alloc: Global,
    names: Names,
    keys: &Keys,
    script: &[u8],
    claim: &[u8],
    verdict: Verdict,
) -> Result<Vec<u8>, NoMemory> {
    match verdict {
        Verdict::Yes => tell_same(alloc, names),
        Verdict::No(line) => {
            let right = right_line(alloc, keys, script, line)?;
            tell_difference(alloc, names, line, claim, &right)
        }
    }
}
