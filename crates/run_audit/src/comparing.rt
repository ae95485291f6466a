//! A claim of what a run writes is compared with it, byte by byte.

ghost use Rattle.std.specs.Prelude.{◌≡◌, ◌≤◌, ◌+◌, ℕ, length, true, false};
ghost use Rattle.script_model.specs.Audits.{verdict};
ghost use Rattle.run_audit.specs.Progress.{begun, after_bytes, after_byte, concluded};
ghost use Rattle.run_audit.specs.Progress.{progress_of, IsWithin, ComparingDecides, YesIsEqual};

use crate::{CLAIM_BYTES, Place, Verdict};

/// Before the first byte.
pub fn start(claim: &[u8]) -> Place
    ensures start { progress_of claim.now result ≡ begun claim.now }
    ensures within { IsWithin claim.now result }
{
    let _ = claim;
    Place {
        at: 0,
        line: 1,
        differs: false,
    }
}

/// One more byte of what is written.
fn compare_byte(claim: &[u8], place: Place, byte: u8) -> Place
    requires short { length claim.now ≤ CLAIM_BYTES }
    requires within { IsWithin claim.now place }
    ensures took { progress_of claim.now result ≡ after_byte byte (progress_of claim.now place) }
    ensures within { IsWithin claim.now result }
{
    if place.differs {
        return place;
    }
    match claim.get(place.at) {
        Some(c) if *c == byte => Place {
            at: place.at + 1,
            line: if byte == b'\n' {
                place.line + 1
            } else {
                place.line
            },
            differs: false,
        },
        _ => Place {
            differs: true,
            ..place
        },
    }
}

/// More bytes of what is written.
#[tactic(auto, using(crate::proofs::Deciding::after_more))]
pub fn compare(claim: &[u8], place: Place, written: &[u8]) -> Place
    requires short { length claim.now ≤ CLAIM_BYTES }
    requires within { IsWithin claim.now place }
    ensures took { progress_of claim.now result
        ≡ after_bytes written.now (progress_of claim.now place) }
    ensures within { IsWithin claim.now result }
{
    let mut place = place;
    for byte in written {
        place = compare_byte(claim, place, *byte);
    }
    place
}

/// The verdict, once all that is written was compared.
pub fn conclude(claim: &[u8], place: Place) -> Verdict
    requires { IsWithin claim.now place }
    ensures { result ≡ concluded (progress_of claim.now place) }
{
    if place.differs {
        Verdict::No(place.line)
    } else if place.at < claim.len() {
        Verdict::No(place.line)
    } else {
        Verdict::Yes
    }
}

/// Comparing byte by byte gives the verdict by lines.
pub fn comparing_decides()
    ensures { ComparingDecides }
{}

/// The verdict is yes exactly where the claim is what is written.
pub fn yes_is_equal()
    ensures { YesIsEqual }
{}
