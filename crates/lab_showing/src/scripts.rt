//! `lab script`.

use lab_files::{open, write_out};

/// Writes the script of a lab file, or its key: the status.
pub fn script(rt: &HostRuntime, path: &str, key: bool) -> u8 {
    match open(rt, path) {
        Err(status) => status,
        Ok(opened) => {
            if !key {
                return write_out(rt, opened.lowered.script.as_slice(), 0);
            }
            match write_out(rt, opened.lowered.lab.settings().word(), 0) {
                0 => write_out(rt, b"\n", 0),
                status => status,
            }
        }
    }
}
