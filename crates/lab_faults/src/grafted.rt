//! What is said of grafts, for which more of the file than a line is looked at.

use crate::operands::{LISTED, Wrong, is_outside};
use crate::sentence::{
    Sentence, Spot, add_code, add_number, add_quoted, at_place, coded, end_of, place_of_word,
};
use gm_isa::{name_of, op_numbered};
use kernel_data::NoMemory;
use lab_language::refused_word;
use lab_likeness::most_like;
use lab_places::{
    Region, Span, Statement, bytes_of, code_end, next_word, region_named, region_of, regions_of,
    statements_of,
};
use lab_reader::{AsmKind, LabKind, LangKind};
use lab_words::Code;
use std::alloc::Global;
use text_words::{Parts, append, is_label};

/// The graft in which a line is.
fn graft_at(alloc: Global, spot: Spot) -> Result<Option<Region>, NoMemory> {
    let regions = regions_of(alloc, spot.text)?;
    Ok(region_of(regions.as_slice(), spot.n))
}

/// What is said of a graft that the compiler refuses.
pub fn compiler(alloc: Global, spot: Spot, kind: LangKind) -> Result<Sentence, NoMemory> {
    let code = Code::Language(kind);
    let Some(region) = graft_at(alloc, spot)? else {
        return coded(alloc, spot, code);
    };
    let Some(refused) = refused_word(alloc, bytes_of(spot.text, region.text))? else {
        return coded(alloc, spot, code);
    };
    let mut text = Vec::new(alloc);
    add_code(&mut text, code)?;
    append(&mut text, refused.said.as_slice())?;
    Ok(match refused.word {
        Some(word) => at_place(spot.text, region.text.from.saturating_add(word.from), text),
        None => Sentence {
            line: spot.n,
            at: end_of(spot.line),
            text,
        },
    })
}

/// The last word of a statement.
fn last_word(text: &[u8], statement: Statement) -> Span {
    let mut last = statement.first;
    for _ in statement.first.to..statement.end {
        match next_word(text, last.to, statement.end) {
            Some(word) => last = word,
            None => return last,
        }
    }
    last
}

/// The first word of a statement that names a register of the sandbox.
fn sandbox_word(text: &[u8], statement: Statement) -> Span {
    let mut at = statement.first.to;
    for _ in statement.first.to..statement.end {
        let Some(word) = next_word(text, at, statement.end) else {
            return statement.first;
        };
        let bytes = bytes_of(text, word);
        if bytes == b"r14".as_slice() || bytes == b"r15".as_slice() {
            return word;
        }
        at = word.to;
    }
    statement.first
}

/// The instruction of this number among statements, or the last one.
fn instruction_at(text: &[u8], statements: &[Statement], pc: usize) -> Option<Statement> {
    let mut count: usize = 0;
    let mut last = None;
    for statement in statements {
        if statement.is_instruction(text) {
            last = Some(*statement);
            if count == pc {
                return last;
            }
            count = count.saturating_add(1);
        }
    }
    last
}

/// How many instructions there are.
fn count_instructions(text: &[u8], statements: &[Statement]) -> usize {
    let mut count: usize = 0;
    for statement in statements {
        if statement.is_instruction(text) {
            count = count.saturating_add(1);
        }
    }
    count
}

/// The number of the instruction that can't be put into its sandbox.
fn pc_of(kind: LabKind) -> usize {
    match kind {
        LabKind::BoxRegister(pc) | LabKind::BoxJump(pc) | LabKind::BoxCall(pc) => pc as usize,
        _ => usize::MAX,
    }
}

/// What is said of an image whose graft isn't found in the file.
fn unplaced(alloc: Global, spot: Spot) -> Result<Sentence, NoMemory> {
    let mut text = Vec::new(alloc);
    append(&mut text, b"the graft can't be put into its sandbox")?;
    Ok(Sentence {
        line: spot.n,
        at: place_of_word(spot.line, 2).from,
        text,
    })
}

/// What is said of code that can't be put into its sandbox, at the line of the graft.
pub fn unboxed(alloc: Global, spot: Spot, kind: LabKind) -> Result<Sentence, NoMemory> {
    let name = bytes_of(spot.line, place_of_word(spot.line, 2));
    let regions = regions_of(alloc, spot.text)?;
    let Some(region) = region_named(spot.text, regions.as_slice(), name) else {
        return unplaced(alloc, spot);
    };
    let statements = statements_of(alloc, spot.text, region)?;
    let count = count_instructions(spot.text, statements.as_slice());
    let (word, said) = match instruction_at(spot.text, statements.as_slice(), pc_of(kind)) {
        None => (
            region.name,
            " has no instruction, and the last one has to be `ret`, `jmp` or `trap`",
        ),
        Some(statement) => blamed_of(spot.text, statement, kind),
    };
    let mut text = Vec::new(alloc);
    add_quoted(&mut text, bytes_of(spot.text, word))?;
    append(&mut text, said.as_bytes())?;
    if let LabKind::BoxJump(_) = kind {
        append(&mut text, b"; its last instruction is number ")?;
        add_number(&mut text, count.saturating_sub(1))?;
    }
    append(&mut text, b" (line ")?;
    add_number(&mut text, spot.n)?;
    append(&mut text, b" puts the graft into its sandbox)")?;
    Ok(at_place(spot.text, word.from, text))
}

/// Which word of an instruction is to blame, and what is said of it.
fn blamed_of(text: &[u8], statement: Statement, kind: LabKind) -> (Span, &'static str) {
    match kind {
        LabKind::BoxRegister(_) => (
            sandbox_word(text, statement),
            " belongs to the sandbox; a graft has r0 to r13",
        ),
        LabKind::BoxJump(_) => (last_word(text, statement), " leads past the code"),
        LabKind::BoxCall(_) => (
            last_word(text, statement),
            " isn't a callable: their ids are 0 to 15",
        ),
        _ => (
            statement.first,
            " can't be the last instruction, which is `ret`, `jmp` or `trap`",
        ),
    }
}

/// Whether a statement sets this label.
fn sets(text: &[u8], statement: Statement, label: &[u8]) -> bool {
    match bytes_of(text, statement.first) {
        [name @ .., b':'] => name == label,
        _ => false,
    }
}

/// The line that sets a label first.
fn line_that_sets(text: &[u8], statements: &[Statement], label: &[u8]) -> Option<usize> {
    for statement in statements {
        if sets(text, *statement, label) {
            return Some(statement.line);
        }
    }
    None
}

/// The label to which a statement jumps.
fn target_of(text: &[u8], statement: Statement) -> Option<Span> {
    match bytes_of(text, statement.first) {
        b"jmp" | b"jz" | b"jnz" => {
            let last = last_word(text, statement);
            if is_label(bytes_of(text, last)) && last.from != statement.first.from {
                Some(last)
            } else {
                None
            }
        }
        _ => None,
    }
}

/// The first label of a line that is used and never set.
fn missing_label(text: &[u8], statements: &[Statement], n: usize) -> Option<Span> {
    for statement in statements {
        if statement.line == n {
            if let Some(target) = target_of(text, *statement) {
                if line_that_sets(text, statements, bytes_of(text, target)).is_none() {
                    return Some(target);
                }
            }
        }
    }
    None
}

/// The labels that are set, as text.
fn labels_of<'a>(
    alloc: Global,
    text: &'a [u8],
    statements: &[Statement],
) -> Result<Vec<&'a str>, NoMemory> {
    let mut names = Vec::new(alloc);
    for statement in statements {
        if let [name @ .., b':'] = bytes_of(text, statement.first) {
            if names.push(str::from_utf8(name).unwrap_or("")).is_err() {
                return Err(NoMemory);
            }
        }
    }
    Ok(names)
}

/// Appends which of some names may be meant.
fn add_meant(
    alloc: Global,
    out: &mut Vec<u8>,
    word: &[u8],
    names: &[&str],
) -> Result<bool, NoMemory> {
    match most_like(alloc, word, names)? {
        None => Ok(false),
        Some(i) => {
            append(out, b"did you mean ")?;
            add_quoted(out, names[i].as_bytes())?;
            append(out, b"?")?;
            Ok(true)
        }
    }
}

/// What is said of a label that is never set.
pub fn label_not_set(alloc: Global, spot: Spot) -> Result<Sentence, NoMemory> {
    let code = Code::Assembler(AsmKind::LabelNotSet);
    let Some(region) = graft_at(alloc, spot)? else {
        return coded(alloc, spot, code);
    };
    let statements = statements_of(alloc, spot.text, region)?;
    let Some(label) = missing_label(spot.text, statements.as_slice(), spot.n) else {
        return coded(alloc, spot, code);
    };
    let word = bytes_of(spot.text, label);
    let names = labels_of(alloc, spot.text, statements.as_slice())?;
    let mut text = Vec::new(alloc);
    add_code(&mut text, code)?;
    append(&mut text, b"the label ")?;
    add_quoted(&mut text, word)?;
    append(&mut text, b" is never set; ")?;
    if !add_meant(alloc, &mut text, word, names.as_slice())? {
        append(&mut text, b"set it by `")?;
        append(&mut text, word)?;
        append(&mut text, b":` before an instruction of this graft")?;
    }
    Ok(at_place(spot.text, label.from, text))
}

/// The first statement of a line that sets a label which one before it sets, and the line of that.
fn second_setting(text: &[u8], statements: &[Statement], n: usize) -> Option<(Statement, usize)> {
    for (i, statement) in statements.iter().enumerate() {
        if statement.line == n {
            if let [name @ .., b':'] = bytes_of(text, statement.first) {
                if let Some(line) = line_that_sets(text, &statements[..i], name) {
                    return Some((*statement, line));
                }
            }
        }
    }
    None
}

/// What is said of a label that is set twice.
pub fn label_twice(alloc: Global, spot: Spot) -> Result<Sentence, NoMemory> {
    let code = Code::Assembler(AsmKind::LabelSetTwice);
    let Some(region) = graft_at(alloc, spot)? else {
        return coded(alloc, spot, code);
    };
    let statements = statements_of(alloc, spot.text, region)?;
    let Some((statement, line)) = second_setting(spot.text, statements.as_slice(), spot.n) else {
        return coded(alloc, spot, code);
    };
    let mut text = Vec::new(alloc);
    add_code(&mut text, code)?;
    append(&mut text, b"the label ")?;
    add_quoted(&mut text, bytes_of(spot.text, statement.first))?;
    append(&mut text, b" is set in line ")?;
    add_number(&mut text, line)?;
    append(&mut text, b" already; rename one")?;
    Ok(at_place(spot.text, statement.first.from, text))
}

/// The mnemonics.
fn mnemonics(alloc: Global) -> Result<Vec<&'static str>, NoMemory> {
    let mut names = Vec::new(alloc);
    for number in 1..27u8 {
        if let Some(op) = op_numbered(number) {
            if names.push(name_of(op)).is_err() {
                return Err(NoMemory);
            }
        }
    }
    Ok(names)
}

/// Whether a graft jumps to a word as to a label.
fn is_target(text: &[u8], statements: &[Statement], word: &[u8]) -> bool {
    for statement in statements {
        if let Some(target) = target_of(text, *statement) {
            if bytes_of(text, target) == word {
                return true;
            }
        }
    }
    false
}

/// Whether `;` stands before this place of a line.
fn is_behind_part(line: &[u8], at: usize) -> bool {
    line[..at.min(line.len())].contains(&b';')
}

/// Tells of a word that names no instruction what may be meant, where that is seen from the graft or
/// from the other mnemonics; whether it did.
pub fn mnemonic(
    alloc: Global,
    out: &mut Vec<u8>,
    spot: Spot,
    wrong: Wrong,
) -> Result<bool, NoMemory> {
    if wrong.hint != LISTED {
        return Ok(false);
    }
    let word = bytes_of(spot.line, wrong.span);
    let Some(region) = graft_at(alloc, spot)? else {
        return Ok(false);
    };
    let statements = statements_of(alloc, spot.text, region)?;
    let names = mnemonics(alloc)?;
    if is_target(spot.text, statements.as_slice(), word) {
        add_quoted(out, word)?;
        append(out, b" isn't an instruction (a label ends with a colon)")?;
        return Ok(true);
    }
    if let Some(i) = most_like(alloc, word, names.as_slice())? {
        add_quoted(out, word)?;
        append(out, b" isn't an instruction (did you mean ")?;
        add_quoted(out, names[i].as_bytes())?;
        append(out, b"?)")?;
        return Ok(true);
    }
    if is_behind_part(spot.line, wrong.span.from) {
        add_quoted(out, word)?;
        append(
            out,
            b" isn't an instruction (`;` parts instructions; a remark begins with #)",
        )?;
        return Ok(true);
    }
    Ok(false)
}

/// The names of the grafts above a line.
pub fn known_names<'a>(alloc: Global, spot: Spot<'a>) -> Result<Vec<&'a str>, NoMemory> {
    let mut names = Vec::new(alloc);
    for region in regions_of(alloc, spot.text)?.as_slice() {
        if region.begun < spot.n {
            let name = bytes_of(spot.text, region.name);
            if names.push(str::from_utf8(name).unwrap_or("")).is_err() {
                return Err(NoMemory);
            }
        }
    }
    Ok(names)
}

/// Appends which line of a graft without its `end` looks like one of the script.
pub fn open_graft(alloc: Global, out: &mut Vec<u8>, spot: Spot) -> Result<(), NoMemory> {
    let Some(region) = graft_at(alloc, spot)? else {
        return Ok(());
    };
    let mut number = region.begun;
    let mut lines = Parts::new(bytes_of(spot.text, region.text), b'\n');
    while let Some(line) = lines.next() {
        number = number.saturating_add(1);
        if let Some(word) = next_word(line, 0, code_end(line)) {
            if is_outside(bytes_of(line, word)) {
                append(out, b"; put it before line ")?;
                add_number(out, number)?;
                append(out, b", ")?;
                return add_quoted(out, bytes_of(line, word));
            }
        }
    }
    Ok(())
}
