//! Colours on a terminal.

use kernel_data::NoMemory;
use std::alloc::Global;
use std::env;
use std::io::IsTerminal;
use text_words::{Parts, append};

const RED: &[u8] = b"\x1b[31m";

const YELLOW: &[u8] = b"\x1b[33m";

const FAINT: &[u8] = b"\x1b[2m";

const BOLD: &[u8] = b"\x1b[1m";

const PLAIN: &[u8] = b"\x1b[0m";

/// What stands between a written line and its words.
const BESIDE: &[u8] = b"    -- ";

/// Whether the output is in colours: it is a terminal, and the environment doesn't say otherwise by
/// a `NO_COLOR` that isn't empty.
pub fn is_coloured(rt: &HostRuntime) -> bool {
    let asked = match env::var(rt, "NO_COLOR") {
        Ok(value) => value.as_str().is_empty(),
        Err(_) => true,
    };
    asked && rt.stdout().is_terminal()
}

/// The colour of words.
fn colour_of(words: &[u8]) -> &'static [u8] {
    if words.starts_with(b"DROPPED") || words.starts_with(b"REFUSED") || words.starts_with(b"NOT") {
        RED
    } else if words.starts_with(b"RUNS")
        || words.starts_with(b"WAITS")
        || words.starts_with(b"LEFT")
    {
        YELLOW
    } else {
        FAINT
    }
}

/// Where the words of a written line begin; its end where it has none.
fn words_from(line: &[u8]) -> usize {
    for at in 8..line.len() {
        if line[at..].starts_with(BESIDE) {
            return at;
        }
    }
    line.len()
}

/// Appends a line as it is in colours: a line of the file bold, words by what they say.
fn add_line(out: &mut Vec<u8>, line: &[u8]) -> Result<(), NoMemory> {
    let is_written = line.starts_with(b"        ");
    let at = if line.starts_with(b"        -- ") {
        0
    } else if is_written {
        words_from(line)
    } else {
        line.len()
    };
    let (front, words) = line.split_at(at.min(line.len()));
    if is_written {
        append(out, front)?;
        append(out, colour_of(&words[BESIDE.len().min(words.len())..]))?;
        append(out, words)?;
    } else {
        append(out, BOLD)?;
        append(out, line)?;
    }
    append(out, PLAIN)
}

/// A text that tells a run, in colours.
pub fn coloured(alloc: Global, text: &[u8]) -> Result<Vec<u8>, NoMemory> {
    let mut out = Vec::new(alloc);
    let mut lines = Parts::new(text, b'\n');
    while let Some(line) = lines.next() {
        if !line.is_empty() {
            add_line(&mut out, line)?;
            append(&mut out, b"\n")?;
        }
    }
    Ok(out)
}
