//! What the auditor writes in a line.

ghost use Rattle.std.specs.Prelude.{OnOk};
ghost use Rattle.audit_session.specs.Sessions.{RunIsKept};

use audit_session::{LINE_BYTES, Output, Session};
use script_model::{Keys, NoMemory};
use std::alloc::Global;
use text_words::put;

/// A line that a script writes, and the number of the line of the script that writes it: 0 where it
/// is written behind the last line, or nowhere.
#[derive(Drop)]
pub(crate) struct Right {
    pub text: Vec<u8>,
    pub by: u32,
}

/// How many lines that were written come before the one that is looked for, what was found of it,
/// and whether it was found whole.
#[derive(Drop)]
struct Search {
    before: u32,
    found: Vec<u8>,
    done: bool,
}

/// Looks through more of what is written.
fn look(search: &mut Search, written: &[u8]) -> Result<(), NoMemory> {
    for byte in written {
        if search.done {
            return Ok(());
        }
        if search.before == 0 {
            put(&mut search.found, *byte)?;
            search.done = *byte == b'\n';
        } else if *byte == b'\n' {
            search.before -= 1;
        }
    }
    Ok(())
}

/// A run of the auditor, the line that is read, what a line writes, and how many lines were run.
#[derive(Drop)]
struct Running {
    session: Session,
    line: Vec<u8>,
    out: Output,
    lines: u32,
}

impl Running {
    /// Before the first byte.
    fn new(alloc: Global) -> Running
        ensures { RunIsKept result.session.run }
    {
        Running {
            session: Session::new(alloc),
            line: Vec::new(alloc),
            out: Output::new(alloc),
            lines: 0,
        }
    }

    /// The line that was read is run.
    fn end_line(&mut self, alloc: Global, keys: &Keys, search: &mut Search) -> Result<(), NoMemory>
        requires { RunIsKept self.old.session.run }
        ensures { OnOk result (RunIsKept self.new.session.run) }
    {
        self.session
            .run_line(alloc, keys, &self.line, &mut self.out)?;
        self.line.clear();
        self.lines = self.lines.saturating_add(1);
        look(search, self.out.as_slice())
    }

    /// One more byte of the script.
    fn take_byte(
        &mut self,
        alloc: Global,
        keys: &Keys,
        search: &mut Search,
        byte: u8,
    ) -> Result<(), NoMemory>
        requires { RunIsKept self.old.session.run }
        ensures { OnOk result (RunIsKept self.new.session.run) }
    {
        if byte == b'\n' {
            return self.end_line(alloc, keys, search);
        }
        let is_long = self.line.len() >= LINE_BYTES;
        put(&mut self.line, byte)?;
        if is_long {
            return self.end_line(alloc, keys, search);
        }
        Ok(())
    }

    /// What is written behind the last line.
    fn finish(&mut self, search: &mut Search) -> Result<(), NoMemory> {
        self.session.last(&self.line, &mut self.out)?;
        look(search, self.out.as_slice())
    }
}

/// The line of this number, from 1, of what a script writes, with its newline; empty where there is
/// none.
pub(crate) fn right_line(
    alloc: Global,
    keys: &Keys,
    script: &[u8],
    line: u32,
) -> Result<Right, NoMemory> {
    let mut running = Running::new(alloc);
    let mut search = Search {
        before: line.saturating_sub(1),
        found: Vec::new(alloc),
        done: false,
    };
    for byte in script {
        running.take_byte(alloc, keys, &mut search, *byte)?;
        if search.done {
            let by = running.lines;
            let Search { found, .. } = search;
            return Ok(Right { text: found, by });
        }
    }
    running.finish(&mut search)?;
    let Search { found, .. } = search;
    Ok(Right { text: found, by: 0 })
}
