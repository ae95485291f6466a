//! What is wrong with a refused line of a script.

use crate::forms::{COMMANDS, Slot, is_number, name_of, slots_of};
use crate::numbers::{add_number, add_quoted};
use gm_isa::op_named;
use kernel_data::NoMemory;
use lab_likeness::most_like;
use lab_words::ScriptCode;
use std::alloc::Global;
use text_words::{Parts, append, number_of, place_of, word_at};

/// How many words a line has.
fn count_words(line: &[u8]) -> usize {
    let mut words = Parts::new(line, b' ');
    let mut count: usize = 0;
    while let Some(_) = words.next() {
        count = count.saturating_add(1);
    }
    count
}

/// Appends the form that a command wants: `install takes 4 numbers: process, point, slot, limit`.
fn add_form(out: &mut Vec<u8>, command: &[u8], slots: &[Slot]) -> Result<(), NoMemory> {
    append(out, b"`")?;
    append(out, command)?;
    if slots.is_empty() {
        return append(out, b"` takes nothing");
    }
    append(out, b"` takes ")?;
    add_number(out, slots.len())?;
    append(
        out,
        if slots.iter().all(|slot| is_number(*slot)) {
            b" number".as_slice()
        } else {
            b" word".as_slice()
        },
    )?;
    append(
        out,
        if slots.len() == 1 {
            b": ".as_slice()
        } else {
            b"s: ".as_slice()
        },
    )?;
    for (i, slot) in slots.iter().enumerate() {
        if i > 0 {
            append(out, b", ")?;
        }
        append(out, name_of(*slot).as_bytes())?;
    }
    Ok(())
}

/// A line with a wrong number of words, or with a word that is no kind: the word that is to blame,
/// the first one too many or the place behind the last.
fn tell_words(out: &mut Vec<u8>, line: &[u8], slots: &[Slot]) -> Result<usize, NoMemory> {
    let count = count_words(line).saturating_sub(1);
    add_form(out, word_at(line, 0), slots)?;
    if count != slots.len() {
        append(out, b"; here ")?;
        add_number(out, count)?;
        let k = count.min(slots.len()).saturating_add(1);
        if count > slots.len() {
            append(out, b", and ")?;
            add_quoted(out, word_at(line, k))?;
            append(out, b" is too many")?;
        }
        return Ok(k);
    }
    for (i, slot) in slots.iter().enumerate() {
        let word = word_at(line, i.saturating_add(1));
        if *slot == Slot::Kind && place_of(word, &["steps", "records", "locks"]).is_none() {
            append(out, b"; ")?;
            add_quoted(out, word)?;
            append(out, b" isn't one of steps, records and locks")?;
            return Ok(i.saturating_add(1));
        }
        if *slot == Slot::Object && !is_object(word) {
            append(out, b"; ")?;
            add_quoted(out, word)?;
            append(
                out,
                b" isn't one of graft, acct, cell, open, queue, cache, lock and pol",
            )?;
            return Ok(i.saturating_add(1));
        }
    }
    Ok(0)
}

/// Whether a word is the kind of an object.
fn is_object(word: &[u8]) -> bool {
    place_of(
        word,
        &[
            "graft", "acct", "cell", "open", "queue", "cache", "lock", "pol",
        ],
    )
    .is_some()
}

/// Whether a word is a name of a file.
fn is_name(word: &[u8]) -> bool {
    !word.is_empty() && word.len() <= 16 && word.iter().all(|b| is_name_byte(*b))
}

/// Whether a byte may stand in the name of a file.
fn is_name_byte(byte: u8) -> bool {
    matches!(byte, b'a'..=b'z' | b'0'..=b'9' | b'.' | b'_' | b'-')
}

/// What the word for this number should be, where it isn't.
fn number_wanted(name: &str, number: Option<u32>) -> Option<&'static [u8]> {
    match (name, number) {
        (_, None) => Some(b"isn't a number: decimal digits, at most 4294967295"),
        ("frames", Some(n)) if n < 2 || n > 64 => Some(b"isn't 2 to 64"),
        ("ticks", Some(n)) if n < 1 || n > 1000 => Some(b"isn't 1 to 1000"),
        _ => None,
    }
}

/// What a word should be that stands in this slot and can't.
fn wanted_at(slot: Slot, word: &[u8]) -> Option<&'static [u8]> {
    match slot {
        Slot::Number(name) => number_wanted(name, number_of(word)),
        Slot::Name => {
            if is_name(word) {
                None
            } else {
                Some(b"isn't a name: 1 to 16 of a to z, 0 to 9, '.', '_' and '-'")
            }
        }
        Slot::Hex => {
            let digits = word.iter().all(|b| b.is_ascii_hexdigit());
            if digits && word.len() % 2 == 0 && word.len() >= 2 {
                None
            } else {
                Some(b"isn't hex: hex digits, an even number of them")
            }
        }
        Slot::Kind | Slot::Object => None,
    }
}

/// A line with a word that isn't as it is asked: which one that is.
fn tell_number(out: &mut Vec<u8>, line: &[u8], slots: &[Slot]) -> Result<usize, NoMemory> {
    for (i, slot) in slots.iter().enumerate() {
        let word = word_at(line, i.saturating_add(1));
        if let Some(said) = wanted_at(*slot, word) {
            append(out, name_of(*slot).as_bytes())?;
            append(out, b": ")?;
            add_quoted(out, word)?;
            append(out, b" ")?;
            append(out, said)?;
            return Ok(i.saturating_add(1));
        }
    }
    append(out, b"more hex digits than a line takes")?;
    Ok(slots.len())
}

/// A first word that is no command.
fn tell_command(alloc: Global, out: &mut Vec<u8>, word: &[u8]) -> Result<(), NoMemory> {
    if let [0xef, 0xbb, 0xbf, rest @ ..] = word {
        add_quoted(out, rest)?;
        return append(
            out,
            b" comes after a byte order mark: save the file without one",
        );
    }
    add_quoted(out, word)?;
    if word.starts_with(b"//") || word.starts_with(b";") {
        return append(out, b": a remark begins with #");
    }
    if op_named(word).is_some() || word.ends_with(b":") {
        return append(
            out,
            b" belongs in a graft: `graft NAME` begins one, `end` ends it",
        );
    }
    match most_like(alloc, word, &COMMANDS)? {
        Some(i) => {
            append(out, b": did you mean ")?;
            add_quoted(out, COMMANDS[i].as_bytes())?;
            append(out, b"?")
        }
        None => append(out, b" isn't a command: docs/FORMATS.md lists them"),
    }
}

/// What is wrong with a refused line of a script: a sentence, and the number of the word that is to
/// blame, from 0; that of all words where one is missing at the end.
pub fn refused_word(
    alloc: Global,
    code: ScriptCode,
    line: &[u8],
) -> Result<(usize, Vec<u8>), NoMemory> {
    let mut out = Vec::new(alloc);
    let k = tell_script(alloc, &mut out, code, line)?;
    Ok((k, out))
}

/// Appends what is wrong with a refused line; which word is to blame.
fn tell_script(
    alloc: Global,
    out: &mut Vec<u8>,
    code: ScriptCode,
    line: &[u8],
) -> Result<usize, NoMemory> {
    let first = word_at(line, 0);
    match (code, slots_of(first)) {
        (ScriptCode::BadWord, Some(slots)) => tell_words(out, line, slots),
        (ScriptCode::BadNumber, Some(slots)) => tell_number(out, line, slots),
        (ScriptCode::UnknownCommand, _) => {
            tell_command(alloc, out, first)?;
            Ok(0)
        }
        (ScriptCode::WrongPlace, _) => {
            tell_place(out, first)?;
            Ok(0)
        }
        _ => Ok(0),
    }
}

/// A line on the wrong side of `boot`.
fn tell_place(out: &mut Vec<u8>, first: &[u8]) -> Result<(), NoMemory> {
    add_quoted(out, first)?;
    if first == b"boot".as_slice() {
        append(out, b" may come only once")
    } else if place_of(first, &["frames", "patience", "grant"]).is_some() {
        append(out, b" must come before `boot`")
    } else {
        append(out, b" must come after `boot`")
    }
}
