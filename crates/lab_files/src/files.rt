//! Lab files, opened.

ghost use Rattle.std.specs.Prelude.{◌≤◌, IfOk, IfErr};
ghost use Rattle.lab_lowering.specs.Lowering.{Lowers};

use crate::edge::{NO_MEMORY, REFUSED, TOO_LONG, unreadable, write_error};
use lab_lowering::{LabFault, Lowered, lower};
use std::fs::File;
use std::io;
use std::io::Read;

/// The most bytes that are read: one more than a lab file may have.
const READ_BYTES: u64 = 16_777_217;

/// A lab file that was read and lowered.
#[derive(Drop)]
pub struct Opened {
    /// Its bytes.
    pub text: Vec<u8>,
    /// What it says.
    pub lowered: Lowered,
}

/// The bytes of the file of this name, or of the standard input for `-`.
pub fn read_bytes(rt: &HostRuntime, path: &str) -> io::Result<Vec<u8>> {
    let mut bytes = Vec::new(rt.alloc());
    if path == "-" {
        let _ = rt.stdin().take(READ_BYTES).read_to_end(&mut bytes)?;
    } else {
        let file = File::open(rt, path)?;
        let _ = file.take(READ_BYTES).read_to_end(&mut bytes)?;
    }
    Ok(bytes)
}

/// Reads a lab file and lowers it; or tells why it is refused, and gives the status.
pub fn open(rt: &HostRuntime, path: &str) -> Result<Opened, u8>
    ensures ok { IfOk result (λ o. Lowers o.text.items o.lowered.lab o.lowered.images.items
        o.lowered.script.items) }
    ensures err { IfErr result (λ status. 2 ≤ status) }
{
    let text = match read_bytes(rt, path) {
        Ok(text) => text,
        Err(fault) => return Err(unreadable(rt, path, &fault)),
    };
    match lower(rt.alloc(), text.as_slice()) {
        Ok(lowered) => Ok(Opened { text, lowered }),
        Err(fault) => Err(refuse(rt, path, text.as_slice(), fault)),
    }
}

/// Tells why a file is refused: the status.
fn refuse(rt: &HostRuntime, path: &str, text: &[u8], fault: LabFault) -> u8
    ensures { 2 ≤ result }
{
    match lab_faults::tell_fault(rt.alloc(), path.as_bytes(), text, fault) {
        Ok(sentence) => {
            write_error(rt, sentence.as_slice());
            match fault {
                LabFault::TooLong => TOO_LONG,
                _ => REFUSED,
            }
        }
        Err(_) => NO_MEMORY,
    }
}
