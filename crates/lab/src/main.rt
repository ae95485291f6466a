//! The program `lab`: lab files are run, tested, lowered and looked at.
#![tactic(auto)]

mod command;
mod explain;

use crate::command::obey;
use lab_files::{NO_MEMORY, REFUSED, write_error};
use std::process::ExitCode;
use std::{env, io};

fn main(rt: HostRuntime) -> ExitCode {
    let status = match words(&rt) {
        Ok(words) => obey(&rt, words.as_slice()),
        // A word that isn't UTF-8 is in no grammar.
        Err(fault) if fault.kind() == io::ErrorKind::InvalidData => {
            write_error(&rt, b"lab: a word of the command line isn't UTF-8\n");
            REFUSED
        }
        Err(_) => NO_MEMORY,
    };
    if status == NO_MEMORY {
        write_error(&rt, b"lab: there was no memory\n");
    }
    ExitCode::from(status)
}

/// The words of the command line, the program's own name first.
fn words(rt: &HostRuntime) -> io::Result<Vec<String>> {
    let mut words = Vec::new(rt.alloc());
    for word in env::args(rt)? {
        words.push(word)?;
    }
    Ok(words)
}
