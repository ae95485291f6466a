//! What the program ends with, and the streams that it writes.

ghost use Rattle.std.specs.Prelude.{◌≡◌, ◌≤◌, ◌⊎◌};

use std::fs::OpenOptions;
use std::io;
use std::io::{ErrorKind, Write};

/// A file or the command line is refused.
pub const REFUSED: u8 = 2;

/// A wanted line didn't come.
pub const UNWANTED: u8 = 1;

/// The standard input can't be read.
pub const INPUT_FAILED: u8 = 3;

/// The output failed.
pub const OUTPUT_FAILED: u8 = 4;

/// There was no memory.
pub const NO_MEMORY: u8 = 5;

/// A file or the standard input is too long.
pub const TOO_LONG: u8 = 7;

/// Writes bytes to the standard output: this status, or that of a failed output, of which it tells.
pub fn write_out(rt: &HostRuntime, bytes: &[u8], status: u8) -> u8
    ensures { (result ≡ status) ⊎ (result ≡ 4) }
{
    match rt.stdout().write_all(bytes) {
        Ok(()) => status,
        Err(fault) => output_failed(rt, &fault),
    }
}

/// Tells that the output failed: the status.
pub fn output_failed(rt: &HostRuntime, fault: &io::Error) -> u8
    ensures { result ≡ 4 }
{
    let _ = eprintln!(rt; "lab: the output can't be written: {fault}");
    OUTPUT_FAILED
}

/// Writes bytes to the standard error.
pub fn write_error(rt: &HostRuntime, bytes: &[u8]) {
    let _ = rt.stderr().write_all(bytes);
}

/// Tells that an input of this name can't be read: the status.
pub fn unreadable(rt: &HostRuntime, path: &str, fault: &io::Error) -> u8
    ensures { 2 ≤ result }
{
    match fault.kind() {
        ErrorKind::OutOfMemory => return NO_MEMORY,
        ErrorKind::NotFound => {
            let _ = eprintln!(rt; "lab: {path}: there is no such file");
        }
        _ => {
            let _ = eprintln!(rt; "lab: {path}: it can't be read: {fault}");
        }
    }
    if path == "-" { INPUT_FAILED } else { REFUSED }
}

/// Whether a file has a block of a disk. It is opened for reading and writing, as the run does.
fn has_block(rt: &HostRuntime, path: &str) -> io::Result<bool> {
    let file = OpenOptions::new().read(true).write(true).open(rt, path)?;
    Ok(file.metadata()?.len() >= 512)
}

/// Tells why a file can't be the disk, where it can't. The file is closed before, since it may stand
/// in the place of a standard stream that is closed.
pub fn tell_disk(rt: &HostRuntime, path: &str) {
    match has_block(rt, path) {
        Ok(true) => (),
        Ok(false) => {
            let _ = eprintln!(rt; "lab: the disk {path} has no block of 512 bytes");
        }
        Err(fault) => {
            let _ = eprintln!(rt; "lab: the disk {path} can't be opened: {fault}");
        }
    }
}
