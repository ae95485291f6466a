//! A claim of what a run writes is compared with what the definitions say that it writes.

ghost use Rattle.std.specs.Prelude.{◌≡◌, ◌≤◌, ℕ, List, [], ◌∷◌, ◌++◌, length, IfOk, OnOk};
ghost use Rattle.script_model.specs.Directory.{sample_disk};
ghost use Rattle.script_model.specs.Outcome.{SCRIPT_BYTES};
ghost use Rattle.script_model.specs.Session as model;
ghost use Rattle.audit_session.specs.Sessions.{session_of, RunIsKept, last_bytes};
ghost use Rattle.run_audit.specs.Remaining.{line_run, still_written};
ghost use Rattle.script_model.specs.Audits.{verdict, wanted};
ghost use Rattle.run_audit.specs.Progress.{progress_of, begun, after_bytes, concluded, IsWithin};

use crate::comparing::{compare, comparing_decides, conclude, start};
use crate::{CLAIM_BYTES, Place, Verdict};
use audit_session::{LINE_BYTES, Output, Session};
use script_model::{Keys, NoMemory};
use std::alloc::Global;

/// A byte is put behind.
fn put(bytes: &mut Vec<u8>, byte: u8) -> Result<(), NoMemory>
    ensures { OnOk result (bytes.new.items ≡ bytes.old.items ++ byte ∷ []) }
{
    match bytes.push(byte) {
        Ok(()) => Ok(()),
        Err(_) => Err(NoMemory),
    }
}

/// A run, the line that is read, what a line writes, and how far the claim was compared.
#[derive(Drop)]
struct Comparing {
    session: Session,
    line: Vec<u8>,
    out: Output,
    place: Place,
}

impl Comparing {
    /// Before the first byte.
    fn new(alloc: Global, claim: &[u8]) -> Comparing
        ensures session { session_of result.session ≡ model.first_session sample_disk }
        ensures line { result.line.items ≡ [] }
        ensures kept { RunIsKept result.session.run }
        ensures place { progress_of claim.now result.place ≡ begun claim.now }
        ensures within { IsWithin claim.now result.place }
    {
        Comparing {
            session: Session::new(alloc),
            line: Vec::new(alloc),
            out: Output::new(alloc),
            place: start(claim),
        }
    }

    /// The line that was read is run, and what it writes is compared.
    fn end_line(&mut self, alloc: Global, keys: &Keys, claim: &[u8]) -> Result<(), NoMemory>
        requires short { length claim.now ≤ CLAIM_BYTES }
        requires kept { RunIsKept self.old.session.run }
        requires within { IsWithin claim.now self.old.place }
        ensures session { OnOk result (session_of self.new.session
            ≡ (line_run keys.now (session_of self.old.session) self.old.line.items).session) }
        ensures line { OnOk result (self.new.line.items ≡ []) }
        ensures took { OnOk result (progress_of claim.now self.new.place ≡ after_bytes
            (line_run keys.now (session_of self.old.session) self.old.line.items).bytes
            (progress_of claim.now self.old.place)) }
        ensures kept { OnOk result (RunIsKept self.new.session.run) }
        ensures within { IsWithin claim.now self.new.place }
    {
        self.session
            .run_line(alloc, keys, &self.line, &mut self.out)?;
        self.place = compare(claim, self.place, self.out.as_slice());
        self.line.clear();
        Ok(())
    }

    /// One more byte of the script.
    fn take_byte(
        &mut self,
        alloc: Global,
        keys: &Keys,
        claim: &[u8],
        byte: u8,
    ) -> Result<(), NoMemory>
        requires short { length claim.now ≤ CLAIM_BYTES }
        requires kept { RunIsKept self.old.session.run }
        requires within { IsWithin claim.now self.old.place }
        ensures goes { OnOk result ((bytes : List ℕ) →
            after_bytes (still_written keys.now (session_of self.new.session) self.new.line.items bytes)
            (progress_of claim.now self.new.place)
            ≡ after_bytes (still_written keys.now (session_of self.old.session) self.old.line.items
            (byte ∷ bytes)) (progress_of claim.now self.old.place)) }
        ensures kept { OnOk result (RunIsKept self.new.session.run) }
        ensures within { IsWithin claim.now self.new.place }
    {
        if byte == b'\n' {
            return self.end_line(alloc, keys, claim);
        }
        if self.line.len() == LINE_BYTES {
            return self.end_long(alloc, keys, claim, byte);
        }
        put(&mut self.line, byte)
    }

    /// A line that is too long is run with its last byte.
    fn end_long(
        &mut self,
        alloc: Global,
        keys: &Keys,
        claim: &[u8],
        byte: u8,
    ) -> Result<(), NoMemory>
        requires short { length claim.now ≤ CLAIM_BYTES }
        requires kept { RunIsKept self.old.session.run }
        requires within { IsWithin claim.now self.old.place }
        ensures session { OnOk result (session_of self.new.session
            ≡ (line_run keys.now (session_of self.old.session)
            (self.old.line.items ++ byte ∷ [])).session) }
        ensures line { OnOk result (self.new.line.items ≡ []) }
        ensures took { OnOk result (progress_of claim.now self.new.place ≡ after_bytes
            (line_run keys.now (session_of self.old.session)
            (self.old.line.items ++ byte ∷ [])).bytes (progress_of claim.now self.old.place)) }
        ensures kept { OnOk result (RunIsKept self.new.session.run) }
        ensures within { IsWithin claim.now self.new.place }
    {
        put(&mut self.line, byte)?;
        self.end_line(alloc, keys, claim)
    }

    /// The script has ended.
    fn finish(&mut self, claim: &[u8]) -> Result<Verdict, NoMemory>
        requires short { length claim.now ≤ CLAIM_BYTES }
        requires within { IsWithin claim.now self.old.place }
        ensures { IfOk result (λ v. v ≡ concluded (after_bytes
            (last_bytes (session_of self.old.session) self.old.line.items)
            (progress_of claim.now self.old.place))) }
    {
        self.session.last(&self.line, &mut self.out)?;
        let place = compare(claim, self.place, self.out.as_slice());
        Ok(conclude(claim, place))
    }
}

/// Whether the claim is what `run` with these keys writes for the script over the sample disk, none
/// of whose calls fails; and else the number of the first line that isn't.
pub fn audit(alloc: Global, keys: &Keys, script: &[u8], claim: &[u8]) -> Result<Verdict, NoMemory>
    requires script { length script.now ≤ SCRIPT_BYTES }
    requires claim { length claim.now ≤ CLAIM_BYTES }
    ensures { IfOk result (λ v. v ≡ verdict claim.now (wanted keys.now script.now)) }
{
    comparing_decides();
    let mut audit = Comparing::new(alloc, claim);
    for byte in script {
        audit.take_byte(alloc, keys, claim, *byte)?;
    }
    audit.finish(claim)
}
