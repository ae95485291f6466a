//! `print_note`: the line of a note.

ghost use Rattle.std.specs.Prelude.{◌≡◌, ◌≤◌, ◌<◌, ◌+◌, ◌++◌, length, take};
ghost use Rattle.script_model.specs.Bare.{note_with};
ghost use Rattle.script_model.specs.Bytes.{spaced};
ghost use Rattle.script_model.specs.Text.{pair_text, single_text, object_text, reply_text};
ghost use Rattle.script_model.specs.Text.{refusal_text, cause_text, note_text, line};

use crate::append::{data, number_u8, number_u32, spaced_u8, spaced_u32, spaced_u64};
use crate::cells::{Cells, add};
use crate::text::Text;
use script_model::{BareNote, Cause, Object, Refusal, Reply};

/// Two numbers in parentheses.
fn pair(out: &mut Cells, at: usize, a: u8, b: u8) -> usize
    requires { at + 9 ≤ 2048 }
    ensures text { take result out.new ≡ take at out.old ++ pair_text a b }
    ensures end { result ≤ at + 9 }
{
    let at = add(out, at, b"(".as_slice());
    let at = number_u8(out, at, a);
    let at = add(out, at, b",".as_slice());
    let at = number_u8(out, at, b);
    add(out, at, b")".as_slice())
}

/// A number in parentheses.
fn single(out: &mut Cells, at: usize, a: u8) -> usize
    requires { at + 5 ≤ 2048 }
    ensures text { take result out.new ≡ take at out.old ++ single_text a }
    ensures end { result ≤ at + 5 }
{
    let at = add(out, at, b"(".as_slice());
    let at = number_u8(out, at, a);
    add(out, at, b")".as_slice())
}

/// The name of an object.
pub(crate) fn object(out: &mut Cells, at: usize, o: Object) -> usize
    requires { at + 14 ≤ 2048 }
    ensures text { take result out.new ≡ take at out.old ++ object_text o }
    ensures end { result ≤ at + 14 }
{
    match o {
        Object::Graft(q, pt) => {
            let at = add(out, at, b"Graft".as_slice());
            pair(out, at, q, pt)
        }
        Object::Acct(q) => {
            let at = add(out, at, b"Acct".as_slice());
            single(out, at, q)
        }
        Object::Cell(q, k) => {
            let at = add(out, at, b"Cell".as_slice());
            pair(out, at, q, k)
        }
        Object::OpenFile(q, fd) => {
            let at = add(out, at, b"Open".as_slice());
            pair(out, at, q, fd)
        }
        Object::Queue => add(out, at, b"Queue".as_slice()),
        Object::Cache => add(out, at, b"Cache".as_slice()),
        Object::Lock(u) => {
            let at = add(out, at, b"Lock".as_slice());
            single(out, at, u)
        }
        Object::Pol(kind) => {
            let at = add(out, at, b"Pol".as_slice());
            single(out, at, kind)
        }
    }
}

/// What a reply adds to `ok`.
fn reply(out: &mut Cells, at: usize, r: Reply) -> usize
    requires { at + 22 ≤ 2048 }
    ensures text { take result out.new ≡ take at out.old ++ reply_text r }
    ensures end { result ≤ at + 22 }
{
    match r {
        Reply::Plain => at,
        Reply::One(a) => spaced_u32(out, at, a),
        Reply::Two(a, b) => {
            let at = spaced_u32(out, at, a);
            spaced_u32(out, at, b)
        }
    }
}

/// A code, an object and a process.
fn object_after(out: &mut Cells, at: usize, code: &[u8], o: Object, p: u8) -> usize
    requires room { at + 22 ≤ 2048 }
    requires short { length code.now ≤ 4 }
    ensures text { take result out.new ≡ take at out.old ++ (code.now ++ object_text o ++ spaced p) }
    ensures end { result ≤ at + 22 }
{
    let at = add(out, at, code);
    let at = object(out, at, o);
    spaced_u8(out, at, p)
}

/// A code and a number.
fn number_after(out: &mut Cells, at: usize, code: &[u8], n: u32) -> usize
    requires room { at + 15 ≤ 2048 }
    requires short { length code.now ≤ 4 }
    ensures text { take result out.new ≡ take at out.old ++ (code.now ++ spaced n) }
    ensures end { result ≤ at + 15 }
{
    let at = add(out, at, code);
    spaced_u32(out, at, n)
}

/// The code of a refusal, and what it adds.
fn refusal(out: &mut Cells, at: usize, r: Refusal) -> usize
    requires { at + 24 ≤ 2048 }
    ensures text { take result out.new ≡ take at out.old ++ refusal_text r }
    ensures end { result ≤ at + 24 }
{
    match r {
        Refusal::NoProcess => add(out, at, b"E1".as_slice()),
        Refusal::Busy(m) => number_after(out, at, b"E2".as_slice(), m),
        Refusal::Denied => add(out, at, b"E3".as_slice()),
        Refusal::BadPoint => add(out, at, b"E4".as_slice()),
        Refusal::BadFd => add(out, at, b"E5".as_slice()),
        Refusal::NoFile => add(out, at, b"E6".as_slice()),
        Refusal::NoFd => add(out, at, b"E7".as_slice()),
        Refusal::BadIndex => add(out, at, b"E8".as_slice()),
        Refusal::NoImage => add(out, at, b"E9".as_slice()),
        Refusal::Taken => add(out, at, b"E10".as_slice()),
        Refusal::NoGraft => add(out, at, b"E11".as_slice()),
        Refusal::Short(has) => {
            let at = add(out, at, b"E12".as_slice());
            spaced_u64(out, at, has)
        }
        Refusal::Full => add(out, at, b"E13".as_slice()),
        Refusal::Held => add(out, at, b"E14".as_slice()),
        Refusal::NotHeld => add(out, at, b"E15".as_slice()),
        Refusal::DiskFault => add(out, at, b"E16".as_slice()),
        Refusal::TimedOut(o, holder) => object_after(out, at, b"E17 ".as_slice(), o, holder),
        Refusal::PortFull => add(out, at, b"E18".as_slice()),
    }
}

/// The code of a cause, and what it adds.
fn cause(out: &mut Cells, at: usize, c: Cause) -> usize
    requires { at + 26 ≤ 2048 }
    ensures text { take result out.new ≡ take at out.old ++ cause_text c }
    ensures end { result ≤ at + 26 }
{
    match c {
        Cause::DivideByZero => add(out, at, b"C1".as_slice()),
        Cause::Trap(code) => number_after(out, at, b"C2".as_slice(), code),
        Cause::NotCallable(id) => number_after(out, at, b"C3".as_slice(), id),
        Cause::BadArgument(id) => number_after(out, at, b"C4".as_slice(), id),
        Cause::NotYours(id) => number_after(out, at, b"C5".as_slice(), id),
        Cause::NotAllowed(id) => number_after(out, at, b"C6".as_slice(), id),
        Cause::TooDeep => add(out, at, b"C7".as_slice()),
        Cause::Reentered => add(out, at, b"C8".as_slice()),
        Cause::SpentSteps => add(out, at, b"C9".as_slice()),
        Cause::SpentRecords => add(out, at, b"C10".as_slice()),
        Cause::SpentLocks => add(out, at, b"C11".as_slice()),
        Cause::RefusedAnswer(r0, r1) => {
            let at = number_after(out, at, b"C12".as_slice(), r0);
            spaced_u32(out, at, r1)
        }
        Cause::TimeOut(o, other) => object_after(out, at, b"C13 ".as_slice(), o, other),
    }
}

/// The text of a note, without its newline.
fn note_bytes(note: &BareNote, bytes: &[u8], out: &mut Cells, at: usize) -> usize
    requires room { at ≤ 960 }
    requires block { length bytes.now ≤ 512 }
    ensures text { take result out.new ≡ take at out.old ++ note_text (note_with note.now bytes.now) }
    ensures end { result < 2048 }
{
    match *note {
        BareNote::Ticked(n, clock) => {
            let at = number_u32(out, at, n);
            let at = add(out, at, b" tick".as_slice());
            spaced_u32(out, at, clock)
        }
        BareNote::Ended(m, r) => {
            let at = number_u32(out, at, m);
            let at = add(out, at, b" ok".as_slice());
            reply(out, at, r)
        }
        BareNote::Refused(m, r) => {
            let at = number_u32(out, at, m);
            let at = add(out, at, b" ".as_slice());
            refusal(out, at, r)
        }
        BareNote::Gave(m, _) => {
            let at = number_u32(out, at, m);
            let at = add(out, at, b" data".as_slice());
            data(out, at, bytes)
        }
        BareNote::Dropped {
            number: m,
            installer: q,
            point: pt,
            cause: c,
        } => {
            let at = number_u32(out, at, m);
            let at = add(out, at, b" drop".as_slice());
            let at = spaced_u8(out, at, q);
            let at = spaced_u8(out, at, pt);
            let at = add(out, at, b" ".as_slice());
            cause(out, at, c)
        }
        BareNote::Ran(n, taken) => {
            let at = number_u32(out, at, n);
            let at = add(out, at, b" ran".as_slice());
            spaced_u32(out, at, taken)
        }
        BareNote::Waits {
            number: m,
            object: o,
            holder,
        } => {
            let at = number_u32(out, at, m);
            let at = add(out, at, b" waits ".as_slice());
            let at = object(out, at, o);
            spaced_u8(out, at, holder)
        }
        BareNote::InGraft {
            number: m,
            installer: q,
            point: pt,
            depth,
        } => {
            let at = number_u32(out, at, m);
            let at = add(out, at, b" graft".as_slice());
            let at = spaced_u8(out, at, q);
            let at = spaced_u8(out, at, pt);
            spaced_u8(out, at, depth)
        }
    }
}

/// The line of a note with the bytes that it gives, with its newline, comes behind a text of at most
/// 960 bytes.
pub fn append_note(note: &BareNote, bytes: &[u8], out: &mut Text)
    requires room { length out.old ≤ 960 }
    requires block { length bytes.now ≤ 512 }
    ensures { out.new ≡ out.old ++ line (note_text (note_with note.now bytes.now)) }
{
    let at = note_bytes(note, bytes, &mut out.cells, out.count);
    out.count = add(&mut out.cells, at, b"\n".as_slice());
}

/// `out` becomes the line of a note with the bytes that it gives, with its newline.
pub fn print_note(note: &BareNote, bytes: &[u8], out: &mut Text)
    requires block { length bytes.now ≤ 512 }
    ensures { out.new ≡ line (note_text (note_with note.now bytes.now)) }
{
    out.clear();
    append_note(note, bytes, out);
}
