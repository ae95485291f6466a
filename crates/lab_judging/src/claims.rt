//! `lab audit`.

ghost use Rattle.std.specs.Prelude.{◌≡◌, ◌≤◌, length, IsTrue};
ghost use Rattle.std.specs.Prelude.{None, []};
ghost use Rattle.script_model.specs.Audits.{verdict, wanted};
ghost use Rattle.lab_judging.specs.Audited.{Audited, ClaimJudged, IsRight, IsWrong};

use graft_loader::read_keys;
use lab_audit::{Keys, Names, Verdict, audit_claim};
use lab_files::{
    NO_MEMORY, REFUSED, TOO_LONG, UNWANTED, open, read_bytes, unreadable, write_error, write_out,
    wrong_words,
};
use lab_lowering::{Lowered, Settings};

/// The most bytes of a script, and of a claim.
const SCRIPT_BYTES: usize = 16_777_216;

#[tactic(auto, using(crate::proofs::Auditing::audited))]
/// Compares what somebody says that `vino run` wrote for a lab file with what its script writes over
/// the sample disk, and tells of the first line that differs: the status.
pub fn audit(rt: &HostRuntime, path: &str, claim: &str) -> u8
    // It is 0 only where the claim is what the script writes.
    ensures right { result ≡ 0 → Audited IsRight }
    // It is 1 only where it isn't.
    ensures wrong { result ≡ 1 → Audited IsWrong }
{
    if path == "-" && claim == "-" {
        return wrong_words(rt, "audit");
    }
    match open(rt, path) {
        Err(status) => status,
        Ok(opened) => audit_lab(rt, path, claim, &opened.lowered),
    }
}

#[tactic(auto, using(crate::proofs::Auditing::judged))]
/// The same of a lab file that was read.
fn audit_lab(rt: &HostRuntime, path: &str, claim: &str, lowered: &Lowered) -> u8
    ensures right { result ≡ 0 →
        ClaimJudged IsRight lowered.now.lab lowered.now.script.items }
    ensures wrong { result ≡ 1 →
        ClaimJudged IsWrong lowered.now.lab lowered.now.script.items }
{
    if !is_of_sample(lowered.lab.settings()) {
        return refuse_disk(rt, path);
    }
    let Some(keys) = read_keys(lowered.lab.settings().word()) else {
        // The reader of lab files takes no other word.
        return REFUSED;
    };
    match read_bytes(rt, claim) {
        Err(fault) => unreadable(rt, claim, &fault),
        Ok(bytes) => audit_bytes(
            rt,
            Names {
                lab: path.as_bytes(),
                claim: claim.as_bytes(),
            },
            &keys,
            lowered.script.as_slice(),
            bytes.as_slice(),
        ),
    }
}

/// Whether a file asks for the sample disk, and for no call of it that fails.
fn is_of_sample(settings: &Settings) -> bool
    ensures disk { IsTrue result → settings.now.disk ≡ None }
    ensures fails { IsTrue result → settings.now.fails ≡ [] }
{
    settings.disk().is_none() && settings.fails().is_empty()
}

/// Tells that a file asks for another disk, or for one that fails: the status.
fn refuse_disk(rt: &HostRuntime, path: &str) -> u8
    ensures { result ≡ 2 }
{
    write_error(rt, b"lab: ");
    write_error(rt, path.as_bytes());
    write_error(
        rt,
        b": an audit is over the sample disk; this file has a line `disk` or `fail disk`\n",
    );
    REFUSED
}

/// Compares a claim with what a script writes, and tells of it: the status.
fn audit_bytes(rt: &HostRuntime, names: Names, keys: &Keys, script: &[u8], claim: &[u8]) -> u8
    ensures right { result ≡ 0 → IsRight (verdict claim.now (wanted keys.now script.now)) }
    ensures wrong { result ≡ 1 → IsWrong (verdict claim.now (wanted keys.now script.now)) }
{
    if script.len() > SCRIPT_BYTES {
        return too_long(rt, names.lab);
    }
    if claim.len() > SCRIPT_BYTES {
        return too_long(rt, names.claim);
    }
    match audit_claim(rt.alloc(), names, keys, script, claim) {
        Err(_) => NO_MEMORY,
        Ok(told) => write_out(rt, told.text.as_slice(), status_by(told.verdict)),
    }
}

/// The status of a verdict.
fn status_by(verdict: Verdict) -> u8
    ensures right { result ≡ 0 → IsRight verdict }
    ensures wrong { result ≡ 1 → IsWrong verdict }
    ensures few { result ≤ 1 }
{
    match verdict {
        Verdict::Yes => 0,
        Verdict::No(_) => UNWANTED,
    }
}

/// Tells that a file is too long: the status.
fn too_long(rt: &HostRuntime, name: &[u8]) -> u8
    ensures { result ≡ 7 }
{
    write_error(rt, b"lab: ");
    write_error(rt, name);
    write_error(rt, b": it has more than 16,777,216 bytes\n");
    TOO_LONG
}
