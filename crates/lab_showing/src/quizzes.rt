//! `lab quiz`.

use kernel_data::NoMemory;
use lab_files::{
    NO_MEMORY, Opened, REFUSED, open, run_lab, status_of, tell_refused, write_out, wrong_words,
};
use lab_quiz::{Source, quiz_of};
use text_words::number_of;

/// What `lab quiz` is asked.
#[derive(Clone, Copy)]
struct Asked<'a> {
    path: &'a str,
    seed: u32,
    answers: bool,
}

/// What the words behind `quiz` ask, where they are right: a file and a seed.
fn words_asked(words: &[String]) -> Option<Asked<'_>> {
    let mut path = None;
    let mut seed = None;
    let mut answers = false;
    let mut rest = words;
    while let [word, others @ ..] = rest {
        rest = others;
        match (word.as_str(), rest) {
            ("--seed", [number, others @ ..]) => {
                seed = Some(number_of(number.as_bytes())?);
                rest = others;
            }
            ("--answers", _) => answers = true,
            (name, _) if path.is_none() && !name.starts_with("--") => path = Some(name),
            _ => return None,
        }
    }
    match (path, seed) {
        (Some(path), Some(seed)) => Some(Asked {
            path,
            seed,
            answers,
        }),
        _ => None,
    }
}

/// Runs a lab file and writes the quiz: the status, which is that of the run.
fn quiz_opened(rt: &HostRuntime, opened: &Opened, asked: Asked) -> Result<u8, NoMemory> {
    let ran = run_lab(rt, &opened.lowered, None)?;
    let status = status_of(&ran);
    if status == REFUSED {
        tell_refused(rt, asked.path, opened, ran.lines.bytes())?;
    }
    let source = Source {
        text: opened.text.as_slice(),
        lab: &opened.lowered.lab,
        seed: asked.seed,
        answers: asked.answers,
    };
    let text = quiz_of(
        rt.alloc(),
        &source,
        opened.lowered.script.as_slice(),
        &ran.lines,
    )?;
    Ok(write_out(rt, text.as_slice(), status))
}

/// `lab quiz FILE --seed N [--answers]`, with the words behind it: the status.
pub fn quiz(rt: &HostRuntime, words: &[String]) -> u8 {
    let Some(asked) = words_asked(words) else {
        return wrong_words(rt, "quiz");
    };
    match open(rt, asked.path) {
        Err(status) => status,
        Ok(opened) => quiz_opened(rt, &opened, asked).unwrap_or(NO_MEMORY),
    }
}
