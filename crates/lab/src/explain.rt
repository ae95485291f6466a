//! `lab explain`.

use kernel_data::NoMemory;
use lab_files::{NO_MEMORY, OUTPUT_FAILED, REFUSED, write_error, write_out, wrong_words};
use lab_words::{Code, Form, code_of, codes_page, explanation, form_of, sentence_of};
use std::alloc::Global;
use text_words::append;

/// The code that a text is, or of which it is the line.
fn code_in(text: &[u8]) -> Option<Code> {
    match code_of(text) {
        Some(code) => Some(code),
        None => match form_of(text) {
            Some(Form::Coded(code)) => Some(code),
            _ => None,
        },
    }
}

/// Words with a space between two of them.
fn joined(alloc: Global, words: &[String]) -> Result<Vec<u8>, NoMemory> {
    let mut text = Vec::new(alloc);
    for (i, word) in words.iter().enumerate() {
        if i > 0 {
            append(&mut text, b" ")?;
        }
        append(&mut text, word.as_bytes())?;
    }
    Ok(text)
}

/// What a code or a written line means; nothing where it is neither.
fn meaning_of(alloc: Global, text: &[u8]) -> Result<Vec<u8>, NoMemory> {
    let mut out = Vec::new(alloc);
    if let Some(sentence) = sentence_of(alloc, text)? {
        append(&mut out, sentence.as_slice())?;
        append(&mut out, b"\n")?;
    }
    if let Some(code) = code_in(text) {
        append(&mut out, explanation(alloc, code)?.as_slice())?;
    }
    Ok(out)
}

/// Says of a code, or of a written line, what it means: the status.
fn explain_text(rt: &HostRuntime, text: &[u8]) -> Result<u8, NoMemory> {
    let said = meaning_of(rt.alloc(), text)?;
    if said.is_empty() {
        write_error(rt, b"lab: '");
        write_error(rt, text);
        write_error(
            rt,
            b"' is neither a code nor a line that the kernel writes; `lab explain --all` lists the codes\n",
        );
        return Ok(REFUSED);
    }
    Ok(write_out(rt, said.as_slice(), 0))
}

/// Says of each word what it means: the status, which is that of the last word that isn't known, or
/// of the output where it fails; then nothing more is said.
fn explain_each(rt: &HostRuntime, words: &[String]) -> Result<u8, NoMemory> {
    let mut status = 0;
    for word in words {
        let said = explain_text(rt, word.as_bytes())?;
        if said == OUTPUT_FAILED {
            return Ok(said);
        }
        if said != 0 {
            status = said;
        }
    }
    Ok(status)
}

/// Says of the words together what they mean, where they are one code or one written line, as
/// `input S2` or `8 drop 1 5 C1`; else of each of them.
fn explain_words(rt: &HostRuntime, words: &[String]) -> Result<u8, NoMemory> {
    let text = joined(rt.alloc(), words)?;
    if code_of(text.as_slice()).is_some() || form_of(text.as_slice()).is_some() {
        return explain_text(rt, text.as_slice());
    }
    explain_each(rt, words)
}

/// The page of all codes.
fn explain_all(rt: &HostRuntime) -> Result<u8, NoMemory> {
    Ok(write_out(rt, codes_page(rt.alloc())?.as_slice(), 0))
}

/// `lab explain CODE..` and `lab explain --all`, with the words behind it: the status.
pub fn explain(rt: &HostRuntime, words: &[String]) -> u8 {
    let done = match words {
        [] => Ok(wrong_words(rt, "explain")),
        [word] if word.as_str() == "--all" => explain_all(rt),
        _ => explain_words(rt, words),
    };
    done.unwrap_or(NO_MEMORY)
}
