//! A written line in words.

ghost use Rattle.std.specs.Prelude.{◌≡◌, ◌==◌, [], ◌++◌, is_some, IfOk, OnOk};
ghost use Rattle.lab_words.specs.Forms as spec;
ghost use Rattle.lab_words.specs.Objects as objects;

use crate::form::{Form, told_form};
use crate::slot::before_parenthesis;
use lab_codes::{CallCode, Code, DropCode, ImageCode, RewriterCode, words_of};
use script_model::NoMemory;
use std::alloc::Global;
use text_words::{append, part_at, word_at};

/// The bytes that most sentences have room in.
const SENTENCE_BYTES: usize = 160;

#[tactic(auto, unfolding(crate::specs::Objects::numbers_of))]
/// The numbers of an object, as `1,0` of `Cell(1,0)`.
fn numbers_of(object: &[u8]) -> &[u8]
    ensures { result.now ≡ objects.numbers_of object.now }
{
    part_at(part_at(object, b'(', 1), b')', 0)
}

#[tactic(auto, unfolding(crate::specs::Objects::numbered))]
/// Appends a text and the k-th number of an object.
fn append_numbered(out: &mut Vec<u8>, text: &[u8], object: &[u8], k: usize) -> Result<(), NoMemory>
    ensures words { OnOk result (out.new.items
        ≡ out.old.items ++ objects.numbered text.now object.now k) }
{
    append(out, text)?;
    append(out, part_at(numbers_of(object), b',', k))
}

/// Appends `name`, the second number, ` of process ` and the first one.
fn append_owned(out: &mut Vec<u8>, name: &[u8], object: &[u8]) -> Result<(), NoMemory>
    ensures words { OnOk result (out.new.items
        ≡ out.old.items ++ objects.owned_said name.now object.now) }
{
    append_numbered(out, name, object, 1)?;
    append_numbered(out, b" of process ", object, 0)
}

#[tactic(auto, unfolding(crate::specs::Objects::single_said))]
/// Appends `name` and the number of an object.
fn append_single(out: &mut Vec<u8>, name: &[u8], object: &[u8]) -> Result<(), NoMemory>
    ensures words { OnOk result (out.new.items
        ≡ out.old.items ++ objects.single_said name.now object.now) }
{
    append(out, name)?;
    append(out, numbers_of(object))
}

/// Appends an object in words, as `cell 0 of process 1`.
pub fn append_object(out: &mut Vec<u8>, object: &[u8]) -> Result<(), NoMemory>
    ensures { OnOk result (out.new.items ≡ out.old.items ++ objects.object_said object.now) }
{
    let kind = before_parenthesis(object);
    if kind == b"Graft".as_slice() {
        return append_owned(out, b"point ", object);
    }
    if kind == b"Acct".as_slice() {
        return append_single(out, b"the account of process ", object);
    }
    if kind == b"Cell".as_slice() {
        return append_owned(out, b"cell ", object);
    }
    if kind == b"Open".as_slice() {
        return append_owned(out, b"descriptor ", object);
    }
    if kind == b"Queue".as_slice() {
        return append(out, b"the queue");
    }
    if kind == b"Cache".as_slice() {
        return append(out, b"the cache");
    }
    if kind == b"Lock".as_slice() {
        return append_single(out, b"user lock ", object);
    }
    if kind == b"Pol".as_slice() {
        return append_single(out, b"the policy of kind ", object);
    }
    append(out, kind)
}

/// Appends a text and the k-th word of a line.
fn append_word(out: &mut Vec<u8>, text: &[u8], line: &[u8], k: usize) -> Result<(), NoMemory> {
    append(out, text)?;
    append(out, word_at(line, k))
}

/// Appends the meaning of a code.
fn append_meaning(out: &mut Vec<u8>, code: Code) -> Result<(), NoMemory> {
    append(out, words_of(code).meaning.as_bytes())
}

/// A refused call: `m E..`. Event 0 is `boot`.
fn tell_call(out: &mut Vec<u8>, code: CallCode, line: &[u8]) -> Result<(), NoMemory> {
    if word_at(line, 0) == b"0".as_slice() {
        return append(
            out,
            b"booted, but block 0 of the disk can't be read: no files",
        );
    }
    append(out, b"REFUSED: ")?;
    append_meaning(out, Code::Call(code))?;
    match code {
        CallCode::Busy => append_word(out, b": call ", line, 2),
        CallCode::Short => append_word(out, b": it has ", line, 2),
        CallCode::TimedOut => {
            append(out, b" for ")?;
            append_object(out, word_at(line, 2))?;
            append_word(out, b", which process ", line, 3)?;
            append(out, b" has")
        }
        _ => Ok(()),
    }
}

/// Appends the graft of a line `m drop Q PT ..`.
fn append_graft(out: &mut Vec<u8>, line: &[u8]) -> Result<(), NoMemory> {
    append_word(out, b"the graft of process ", line, 2)?;
    append_word(out, b" at point ", line, 3)
}

/// A graft that was dropped for a time-out. At a user lock the line doesn't say which of the two
/// had it.
fn tell_time_out(out: &mut Vec<u8>, line: &[u8]) -> Result<(), NoMemory> {
    let object = word_at(line, 5);
    if before_parenthesis(object) == b"Lock".as_slice() {
        append_graft(out, line)?;
        append_word(out, b" and process ", line, 6)?;
        append(out, b" were in each other's way too long at ")?;
        return append_object(out, object);
    }
    append_word(out, b"process ", line, 6)?;
    append(out, b" waited too long for ")?;
    append_object(out, object)?;
    append(out, b", which ")?;
    append_graft(out, line)?;
    append(out, b" held")
}

/// What a dropped graft did, but for a time-out.
fn tell_cause(out: &mut Vec<u8>, code: DropCode, line: &[u8]) -> Result<(), NoMemory> {
    append_graft(out, line)?;
    append(out, b" ")?;
    append_meaning(out, Code::Drop(code))?;
    match code {
        DropCode::Trap => append_word(out, b" with code ", line, 5),
        DropCode::NotCallable | DropCode::BadArgument | DropCode::NotYours | DropCode::NotAllowed =>
            append_word(out, b": callable ", line, 5),
        DropCode::RefusedAnswer => {
            append_word(out, b": r0 is ", line, 5)?;
            append_word(out, b", r1 is ", line, 6)
        }
        _ => Ok(()),
    }
}

/// A dropped graft: `m drop Q PT C..`.
fn tell_drop(out: &mut Vec<u8>, code: DropCode, line: &[u8]) -> Result<(), NoMemory> {
    append(out, b"DROPPED: ")?;
    match code {
        DropCode::TimeOut => tell_time_out(out, line)?,
        _ => tell_cause(out, code, line)?,
    }
    append(out, b"; undone")
}

/// An image that isn't loaded: `N L..`.
fn tell_image(out: &mut Vec<u8>, code: ImageCode, line: &[u8]) -> Result<(), NoMemory> {
    append(out, b"NOT LOADED: ")?;
    append_meaning(out, Code::Image(code))?;
    match code {
        ImageCode::BadInstruction
        | ImageCode::Register
        | ImageCode::Jump
        | ImageCode::Access
        | ImageCode::DirectCall => append_word(out, b", at instruction ", line, 2),
        _ => Ok(()),
    }
}

/// Raw code that isn't boxed: `Register PC` and its like.
fn tell_rewriter(out: &mut Vec<u8>, code: RewriterCode, line: &[u8]) -> Result<(), NoMemory> {
    append(out, b"NOT BOXED: ")?;
    append_meaning(out, Code::Rewriter(code))?;
    match code {
        RewriterCode::Register | RewriterCode::Jump | RewriterCode::Call => {
            append_word(out, b", at instruction ", line, 1)
        }
        RewriterCode::End | RewriterCode::TooLarge => Ok(()),
    }
}

/// A refused line of a text, whose number is the second word.
fn tell_line(out: &mut Vec<u8>, of: &[u8], code: Code, line: &[u8]) -> Result<(), NoMemory> {
    append_word(out, b"REFUSED: line ", line, 1)?;
    append(out, of)?;
    append(out, b": ")?;
    append_meaning(out, code)
}

/// The line of a code.
fn tell_code(out: &mut Vec<u8>, code: Code, line: &[u8]) -> Result<(), NoMemory> {
    match code {
        Code::Script(_) => {
            tell_line(out, b"", code, line)?;
            append(out, b". Nothing after it runs")
        }
        Code::Call(code) => tell_call(out, code, line),
        Code::Drop(code) => tell_drop(out, code, line),
        Code::Image(code) => tell_image(out, code, line),
        Code::Assembler(_) => tell_line(out, b" of the assembler text", code, line),
        Code::Language(_) => tell_line(out, b" of the program", code, line),
        Code::Rewriter(code) => tell_rewriter(out, code, line),
        Code::Input(_) | Code::Status(_) => append_meaning(out, code),
    }
}

/// Three numbers behind the second word.
fn tell_boot(out: &mut Vec<u8>, line: &[u8]) -> Result<(), NoMemory> {
    append_word(out, b"booted: frames ", line, 2)?;
    append_word(out, b", blocks of the disk ", line, 3)?;
    append_word(out, b", files ", line, 4)
}

/// A call that runs a graft: `m graft Q PT D`.
fn tell_graft(out: &mut Vec<u8>, line: &[u8]) -> Result<(), NoMemory> {
    append(out, b"RUNS ")?;
    append_graft(out, line)?;
    append_word(out, b", level ", line, 4)?;
    append(out, b"; `step` takes it on")
}

/// A call that waits: `m waits OBJ H`.
fn tell_wait(out: &mut Vec<u8>, line: &[u8]) -> Result<(), NoMemory> {
    append(out, b"WAITS for ")?;
    append_object(out, word_at(line, 2))?;
    append_word(out, b", which process ", line, 3)?;
    append(out, b" has")
}

/// A line of this form.
fn tell_form(out: &mut Vec<u8>, form: Form, line: &[u8]) -> Result<(), NoMemory> {
    match form {
        Form::Booted => tell_boot(out, line),
        Form::Loaded => {
            append_word(out, b"loaded: instructions ", line, 2)?;
            append_word(out, b", data bytes ", line, 3)
        }
        Form::Ran => append_word(out, b"instructions taken: ", line, 2),
        Form::Waits => tell_wait(out, line),
        Form::InGraft => tell_graft(out, line),
        Form::Left => {
            append_word(out, b"LEFT: call ", line, 2)?;
            append_word(out, b" of process ", line, 1)?;
            append(out, b" didn't end")
        }
        Form::Coded(code) => tell_code(out, code, line),
        Form::Ticked | Form::Done | Form::Answered | Form::GaveNothing | Form::Gave => Ok(()),
    }
}

/// An empty text with room for most sentences.
fn room_of(alloc: Global) -> Result<Vec<u8>, NoMemory> {
    match Vec::with_capacity(alloc, SENTENCE_BYTES) {
        Ok(out) => Ok(out),
        Err(_) => Err(NoMemory),
    }
}

/// A written line without its newline in words, as `DROPPED: the graft of process 1 at point 5
/// divided by zero; undone`. None for a line that has no form, and for one that says it itself
/// (`form_is_told`).
pub fn sentence_of(alloc: Global, line: &[u8]) -> Result<Option<Vec<u8>>, NoMemory>
    ensures { IfOk result (λ told. is_some told ≡ spec.is_told (spec.form_of line.now)) }
{
    match told_form(line) {
        None => Ok(None),
        Some(form) => {
            let mut out = room_of(alloc)?;
            tell_form(&mut out, form, line)?;
            Ok(Some(out))
        }
    }
}
