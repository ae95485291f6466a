//! What `audit` answers to a script, a line `%%` and a claim.

ghost use Rattle.std.specs.Prelude.{◌≡◌, ◌≤◌, ◌+◌, ◌&&◌, length, take, drop, Some, None, IfOk, IfSome};
ghost use Rattle.std.specs.Prelude.{IsNone};
ghost use Rattle.script_model.specs.World.{same_bytes};
ghost use Rattle.script_model.specs.Outcome.{SCRIPT_BYTES};
ghost use Rattle.script_model.specs.Audits.{PARTING, parted, verdict, wanted};
ghost use Rattle.script_model.specs.Filters as spec;

use crate::answer::Answer;
use graft_loader::Keys;
use run_audit::audit;
use script_model::{NoMemory, Verdict};
use std::alloc::Global;

/// How many bytes the line has that parts a script from a claim, with its newline.
const PARTING_BYTES: usize = 3;

/// The first bytes, or all where there are fewer.
fn front(bytes: &[u8], count: usize) -> &[u8]
    ensures value { result.now ≡ take count bytes.now }
    ensures short { length result.now ≤ length bytes.now }
{
    &bytes[..count.min(bytes.len())]
}

/// The bytes behind the first.
fn behind(bytes: &[u8], count: usize) -> &[u8]
    ensures value { result.now ≡ drop count bytes.now }
    ensures short { length result.now ≤ length bytes.now }
{
    &bytes[count.min(bytes.len())..]
}

/// Whether a line begins at a place that parts a script from a claim.
fn parts_here(input: &[u8], at: usize, fresh: bool) -> bool
    ensures { result ≡ (fresh && same_bytes (take 3 (drop at input.now)) PARTING) }
{
    fresh && front(behind(input, at), PARTING_BYTES) == b"%%\n".as_slice()
}

/// Where the line stands that parts a script from a claim, if there is one.
fn find_parting(input: &[u8]) -> Option<usize>
    ensures some { IfSome result (λ at.
        parted input.now ≡ Some (take at input.now, drop (at + 3) input.now)) }
    ensures within { IfSome result (λ at. at ≤ length input.now) }
    ensures none { IsNone result → parted input.now ≡ None }
{
    let mut fresh = true;
    for (at, byte) in input.iter().enumerate() {
        if parts_here(input, at, fresh) {
            return Some(at);
        }
        fresh = *byte == b'\n';
    }
    None
}

/// The line of a verdict.
fn verdict_line(alloc: Global, verdict: Verdict) -> Result<Answer, NoMemory>
    ensures { IfOk result (λ a. a ≡ spec.verdict_answer verdict) }
{
    match verdict {
        Verdict::Yes => Answer::refusal(alloc, 0, b"yes"),
        Verdict::No(line) => Answer::refusal_at(alloc, 8, b"no", line),
    }
}

/// The answer to a script and a claim of what it writes.
fn claim_answer(alloc: Global, keys: &Keys, script: &[u8], claim: &[u8]) -> Result<Answer, NoMemory>
    requires script { length script.now ≤ SCRIPT_BYTES }
    requires claim { length claim.now ≤ SCRIPT_BYTES }
    ensures { IfOk result (λ a.
        a ≡ spec.verdict_answer (verdict claim.now (wanted keys.now script.now))) }
{
    let verdict = audit(alloc, keys, script, claim)?;
    verdict_line(alloc, verdict)
}

/// The answer to an input: the verdict on what stands behind its first line `%%`, or the refusal of
/// an input that has none.
pub(crate) fn audit_answer(alloc: Global, keys: &Keys, input: &[u8]) -> Result<Answer, NoMemory>
    requires { length input.now ≤ SCRIPT_BYTES }
    ensures { IfOk result (λ a. a ≡ spec.input_answer (spec.Audit keys.now) input.now) }
{
    match find_parting(input) {
        None => Answer::refusal(alloc, 2, b"input S6"),
        Some(at) => claim_answer(
            alloc,
            keys,
            front(input, at),
            behind(input, at + PARTING_BYTES),
        ),
    }
}
