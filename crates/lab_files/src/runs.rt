//! Runs, as every command tells of them: their status, the word that is refused, and why grafts had
//! no step left.

ghost use Rattle.std.specs.Prelude.{◌≡◌};
ghost use Rattle.lab_files.specs.Runs.{status_told};

use crate::edge::{NO_MEMORY, OUTPUT_FAILED, write_error};
use crate::files::Opened;
use crate::stock::run_lab;
use kernel_data::NoMemory;
use lab_faults::tell_word;
use lab_lines::{Cause, causes_of, is_spent, refused_word};
use lab_lowering::Lowered;
use lab_picture::{Chosen, slow_script};
use lab_watch::Ran;
use lab_words::{Code, Form, form_of};
use text_words::{Parts, number_of, part_at, word_at};

/// All events of a run.
pub const ALL_EVENTS: Chosen = Chosen {
    first: 1,
    last: u32::MAX,
};

/// The status of the program after a run: a sink in memory fails for want of memory.
pub fn status_of(ran: &Ran) -> u8
    ensures { result ≡ status_told ran.now.status }
{
    if ran.status == OUTPUT_FAILED {
        NO_MEMORY
    } else {
        ran.status
    }
}

/// Tells which word of the last written line's line is refused, and what could stand there.
pub fn tell_refused(
    rt: &HostRuntime,
    path: &str,
    opened: &Opened,
    written: &[u8],
) -> Result<(), NoMemory> {
    let mut lines = Parts::new(written, b'\n');
    while let Some(line) = lines.next() {
        if let Some(Form::Coded(Code::Script(code))) = form_of(line) {
            let n = number_of(word_at(line, 1)).unwrap_or(0) as usize;
            let asked = part_at(opened.lowered.script.as_slice(), b'\n', n.saturating_sub(1));
            let (k, said) = refused_word(rt.alloc(), code, asked)?;
            let told = tell_word(
                rt.alloc(),
                path.as_bytes(),
                opened.text.as_slice(),
                n,
                k,
                Code::Script(code),
                said.as_slice(),
            )?;
            write_error(rt, told.as_slice());
        }
    }
    Ok(())
}

/// Why each graft had no step left, by a slow run; nothing of a run over a file, which a second run
/// would change once more.
pub fn spent_causes(
    rt: &HostRuntime,
    lowered: &mut Lowered,
    ran: &Ran,
    is_sample: bool,
) -> Result<Vec<Cause>, NoMemory> {
    if !is_sample || !has_spent(ran.lines.bytes()) {
        return Ok(Vec::new(rt.alloc()));
    }
    let slow = slow_script(rt.alloc(), lowered.script.as_slice(), ALL_EVENTS)?;
    let script = std::mem::replace(&mut lowered.script, slow);
    let slowly = run_lab(rt, lowered, None);
    lowered.script = script;
    causes_of(rt.alloc(), slowly?.lines.bytes())
}

/// Whether a graft had no step left.
fn has_spent(written: &[u8]) -> bool {
    let mut lines = Parts::new(written, b'\n');
    while let Some(line) = lines.next() {
        if is_spent(line) {
            return true;
        }
    }
    false
}
