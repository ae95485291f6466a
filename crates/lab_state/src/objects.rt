//! Objects, as the lines of a kernel write them (docs/FORMATS.md), and by their numbers.

ghost use Rattle.kernel_model.specs.Laws.{IsInRange};

use kernel_data::{NoMemory, Object};
use text_words::{append, append_with};

/// The number of the first account, cell, open file, of the queue and the cache, and of the first
/// user lock and policy; grafts come first.
const FIRST_ACCT: u32 = 256;

const FIRST_CELL: u32 = 272;

const FIRST_FILE: u32 = 336;

const QUEUE: u32 = 400;

const CACHE: u32 = 401;

const FIRST_LOCK: u32 = 402;

const FIRST_POLICY: u32 = 418;

/// The object of a number below 421; the policy of kind 2 above.
pub fn object_of(number: u32) -> Object
    ensures { IsInRange result }
{
    match number {
        0..=255 => Object::Graft((number / 16) as u8, (number % 16) as u8),
        256..=271 => Object::Acct((number - FIRST_ACCT) as u8),
        272..=335 => {
            let at = number - FIRST_CELL;
            Object::Cell((at / 4) as u8, (at % 4) as u8)
        }
        336..=399 => {
            let at = number - FIRST_FILE;
            Object::OpenFile((at / 4) as u8, (at % 4) as u8)
        }
        QUEUE => Object::Queue,
        CACHE => Object::Cache,
        402..=417 => Object::Lock((number - FIRST_LOCK) as u8),
        _ => Object::Pol((number - FIRST_POLICY).min(2) as u8),
    }
}

/// Appends a word, and a number in parentheses.
fn append_one(out: &mut Vec<u8>, word: &[u8], n: u8) -> Result<(), NoMemory> {
    append(out, word)?;
    append_with(out, b"(", u32::from(n))?;
    append(out, b")")
}

/// Appends a word, and two numbers in parentheses.
fn append_two(out: &mut Vec<u8>, word: &[u8], a: u8, b: u8) -> Result<(), NoMemory> {
    append(out, word)?;
    append_with(out, b"(", u32::from(a))?;
    append_with(out, b",", u32::from(b))?;
    append(out, b")")
}

/// Appends an object, as `Cell(0,3)`.
pub fn append_object(out: &mut Vec<u8>, object: Object) -> Result<(), NoMemory> {
    match object {
        Object::Graft(q, pt) => append_two(out, b"Graft", q, pt),
        Object::Acct(q) => append_one(out, b"Acct", q),
        Object::Cell(q, k) => append_two(out, b"Cell", q, k),
        Object::OpenFile(q, fd) => append_two(out, b"Open", q, fd),
        Object::Queue => append(out, b"Queue"),
        Object::Cache => append(out, b"Cache"),
        Object::Lock(u) => append_one(out, b"Lock", u),
        Object::Pol(kind) => append_one(out, b"Pol", kind),
    }
}

/// Appends the object of a number.
pub fn append_object_number(out: &mut Vec<u8>, number: u32) -> Result<(), NoMemory> {
    append_object(out, object_of(number))
}
