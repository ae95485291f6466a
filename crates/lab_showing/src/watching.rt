//! `lab watch`.

use kernel_data::NoMemory;
use lab_files::{NO_MEMORY, open, run_lab, spare_disk, status_of, tell_lab, write_out};
use lab_lowering::Lowered;

/// Runs a lab file and tells where its grafts stood before each of their instructions: the status.
pub fn watch(rt: &HostRuntime, path: &str) -> u8 {
    match open(rt, path) {
        Err(status) => status,
        Ok(opened) => watch_lab(rt, &opened.lowered).unwrap_or(NO_MEMORY),
    }
}

/// The spare disk is made first, since a run changes its disk.
fn watch_lab(rt: &HostRuntime, lowered: &Lowered) -> Result<u8, NoMemory> {
    let spare = spare_disk(rt, lowered)?;
    let ran = run_lab(rt, lowered, None)?;
    let text = tell_lab(rt.alloc(), lowered, &ran, spare)?;
    Ok(write_out(rt, text.as_slice(), status_of(&ran)))
}
