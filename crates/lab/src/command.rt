//! The command line.

use crate::explain::explain;
use kernel_data::NoMemory;
use lab_comparing::{measure, score};
use lab_files::{
    NO_MEMORY, help, help_of, no_words, options_of, write_out, wrong_option, wrong_words,
};
use lab_judging::{audit, grade, test};
use lab_showing::{Telling, picture, quiz, run_files, script, show_box, trace, watch, why_event};
use std::alloc::Global;

/// The words behind the name of a command: flags, the value of `--disk`, and others.
#[derive(Drop)]
struct Given<'a> {
    plain: bool,
    raw_heads: bool,
    key: bool,
    disk: Option<&'a str>,
    others: Vec<&'a str>,
    /// `--disk` lacks its value.
    wrong: bool,
}

/// Reads a word; true where the next one is the value of `--disk`.
fn take<'a>(given: &mut Given<'a>, word: &'a str) -> Result<bool, NoMemory> {
    match word {
        "--plain" => given.plain = true,
        "--raw-heads" => given.raw_heads = true,
        "--key" => given.key = true,
        "--disk" => return Ok(true),
        _ => {
            if given.others.push(word).is_err() {
                return Err(NoMemory);
            }
        }
    }
    Ok(false)
}

/// Reads the words behind the name of a command.
fn read<'a>(alloc: Global, words: &'a [String]) -> Result<Given<'a>, NoMemory> {
    let mut given = Given {
        plain: false,
        raw_heads: false,
        key: false,
        disk: None,
        others: Vec::new(alloc),
        wrong: false,
    };
    let mut value = false;
    for word in words {
        if value {
            given.disk = Some(word.as_str());
            value = false;
        } else {
            value = take(&mut given, word.as_str())?;
        }
    }
    given.wrong = value;
    Ok(given)
}

/// Does what a command asks with these words behind its name: the status.
fn obey_given(rt: &HostRuntime, name: &str, given: &Given) -> u8 {
    if given.wrong {
        return wrong_words(rt, name);
    }
    match (name, given.others.as_slice()) {
        ("run", [_, ..]) => {
            let telling = Telling {
                plain: given.plain,
                raw_heads: given.raw_heads,
            };
            run_files(rt, given.others.as_slice(), telling, given.disk)
        }
        ("test", [_, ..]) => test(rt, given.others.as_slice()),
        ("script", [path]) => script(rt, path, given.key),
        ("box", [path, graft]) => show_box(rt, path, graft),
        ("watch", [path]) => watch(rt, path),
        ("why", [path, event]) => why_event(rt, path, event),
        ("audit", [path, claim]) => audit(rt, path, claim),
        _ => wrong_words(rt, name),
    }
}

/// The first word that begins as an option does and is none of the command. What stands behind
/// an option that takes a value is that value.
fn unknown_option<'a>(name: &str, words: &'a [String]) -> Option<&'a str> {
    let mut is_value = false;
    for word in words {
        let word = word.as_str();
        if !is_value && word.len() > 1 && word.starts_with("-") && !is_option(name, word) {
            return Some(word);
        }
        is_value = !is_value && takes_value(word);
    }
    None
}

/// Whether a word is an option of a command.
fn is_option(name: &str, word: &str) -> bool {
    options_of(name).iter().any(|option| *option == word)
}

/// Whether a value stands behind an option.
fn takes_value(word: &str) -> bool {
    word == "--disk" || word == "--from" || word == "--to" || word == "--seed"
}

/// Whether a word asks for help.
fn is_help(word: &str) -> bool {
    word == "--help" || word == "-h"
}

/// Does what a command asks with these words behind its name: the status.
fn obey_command(rt: &HostRuntime, name: &str, words: &[String]) -> u8 {
    if is_help(name) && words.is_empty() {
        return help(rt);
    }
    if let [word] = words {
        if is_help(word.as_str()) {
            return help_of(rt, name);
        }
    }
    if let Some(option) = unknown_option(name, words) {
        return wrong_option(rt, name, option);
    }
    match (name, words) {
        ("help", []) => help(rt),
        ("--version", []) => write_out(rt, b"lab 1.0.0\n", 0),
        ("help", [command]) => help_of(rt, command.as_str()),
        ("explain", _) => explain(rt, words),
        ("grade", _) => grade(rt, words),
        ("measure", _) => measure(rt, words),
        ("picture", _) => picture(rt, words),
        ("quiz", _) => quiz(rt, words),
        ("score", _) => score(rt, words),
        ("trace", _) => trace(rt, words),
        _ => match read(rt.alloc(), words) {
            Ok(given) => obey_given(rt, name, &given),
            Err(_) => NO_MEMORY,
        },
    }
}

/// Does what the words of the command line ask, the program's own name first: the status.
pub fn obey(rt: &HostRuntime, words: &[String]) -> u8 {
    match words {
        [_, name, rest @ ..] => obey_command(rt, name.as_str(), rest),
        _ => no_words(rt),
    }
}
